//! Room for the text of a report.
ghost use Rattle.std.specs.Prelude.{◌≡◌, [], OnOk};
ghost use Rattle.std.specs.Io.KnownBytes.{Keeps};
ghost use Rattle.chaosd_io.specs.Buffer.{written_of};

use crate::view::View;
use chaosd_io::{NotWritten, WriteBuffer};
use std::io::Write;

/// No report has more bytes in the plain view, with the empty line in front of it: those of n bytes
/// have at most 426 + 3n, and no datagram that is read has more than 2,020.
const REPORT_ROOM: usize = 8_192;

/// Nor has that of a short line more, which stands for 540 bytes at most: a greatest packet's has
/// 1,554, and with a trailer 1,593.
const SHORT_REPORT_ROOM: usize = 2_048;

/// How many bytes a short line has at most. A greatest packet takes 1,016, and by CHUDP 1,028,
/// without blanks.
const SHORT_LINE: usize = 1_080;

/// No packet's lines have more bytes in the view of FILE, with an empty line in front and a trailer
/// behind them: the data, their text and the parts take three bytes for each byte at most.
const FILE_PACKET_ROOM: usize = 6_144;

/// How much room the report of a line of so many bytes needs, as far as it is written in one piece.
pub fn report_room(view: View, line_len: usize) -> usize {
    match view {
        View::File => FILE_PACKET_ROOM,
        View::Plain if line_len > SHORT_LINE => REPORT_ROOM,
        View::Plain => SHORT_REPORT_ROOM,
    }
}

/// How much room the lines of a packet among several need.
pub fn packet_room(view: View) -> usize {
    match view {
        View::File => FILE_PACKET_ROOM,
        View::Plain => SHORT_REPORT_ROOM,
    }
}

/// Hands on what waits.
pub fn hand_on<W: Write>(out: &mut WriteBuffer, writer: &mut W) -> Result<(), NotWritten>
    ensures kept { Keeps (written_of (W.contents writer.old) out.old)
        (written_of (W.contents writer.new) out.new) }
    ensures empty { OnOk result (out.new ≡ []) }
{
    match out.hand_on(writer) {
        Ok(()) => Ok(()),
        Err(_) => Err(NotWritten),
    }
}

/// Hands on what waits where so many bytes might not fit behind it.
#[inline]
pub fn make_room<W: Write>(
    out: &mut WriteBuffer,
    writer: &mut W,
    needed: usize,
) -> Result<(), NotWritten>
    ensures { Keeps (written_of (W.contents writer.old) out.old)
        (written_of (W.contents writer.new) out.new) }
{
    if out.room() < needed {
        hand_on(out, writer)?;
    }
    Ok(())
}
