//! What a script prints.
ghost use Rattle.std.specs.Prelude.{◌≡◌, ◌++◌, [], OnOk, IfErr};
ghost use Rattle.std.specs.Io.KnownBytes.{Appends, Keeps};
ghost use Rattle.chaosd_io.specs.Buffer.{written_of};
ghost use Rattle.chaosd_ask.specs.Printed.{reply_line, no_reply_line};

use chaosd_io::{NotWritten, RunFault, WriteBuffer, put_line, put_text, written};
use std::io::Write;

/// Writes a reply as a line.
#[tactic(auto, unfolding(crate::specs::Printed::reply_line))]
fn put_reply(out: &mut WriteBuffer, reply: &[u8]) -> Result<(), NotWritten>
    ensures { OnOk result (out.new ≡ out.old ++ reply_line reply.now) }
{
    put_text(out, reply)?;
    out.put(b"\n")
}

/// No reply's line has more bytes: 488, each as an escape, and the byte that ends it.
const REPLY_ROOM: usize = 2_048;

/// Prints what waits.
pub fn hand_on<W: Write>(out: &mut WriteBuffer, writer: &mut W) -> Result<(), RunFault>
    ensures kept { Keeps (written_of (W.contents writer.old) out.old)
        (written_of (W.contents writer.new) out.new) }
    ensures empty { OnOk result (out.new ≡ []) }
    ensures faults { IfErr result (λ fault. fault ≡ RunFault.WriteFault) }
{
    match out.hand_on(writer) {
        Ok(()) => Ok(()),
        Err(_) => Err(RunFault::WriteFault),
    }
}

/// Prints what waits where a line might not fit behind it.
fn make_room<W: Write>(out: &mut WriteBuffer, writer: &mut W) -> Result<(), RunFault>
    ensures kept { Keeps (written_of (W.contents writer.old) out.old)
        (written_of (W.contents writer.new) out.new) }
    ensures faults { IfErr result (λ fault. fault ≡ RunFault.WriteFault) }
{
    if out.room() < REPLY_ROOM {
        hand_on(out, writer)?;
    }
    Ok(())
}

/// Puts a reply as a line behind what waits to be printed.
pub fn print_reply<W: Write>(
    out: &mut WriteBuffer,
    writer: &mut W,
    reply: &[u8],
) -> Result<(), RunFault>
    ensures text { OnOk result
        (Appends (written_of (W.contents writer.old) out.old)
        (written_of (W.contents writer.new) out.new) (reply_line reply.now)) }
    ensures faults { IfErr result (λ fault. fault ≡ RunFault.WriteFault) }
{
    make_room(out, writer)?;
    written(put_reply(out, reply))
}

/// Puts behind what waits that a command got no reply.
pub fn print_none<W: Write>(out: &mut WriteBuffer, writer: &mut W) -> Result<(), RunFault>
    ensures text { OnOk result
        (Appends (written_of (W.contents writer.old) out.old)
        (written_of (W.contents writer.new) out.new) no_reply_line) }
    ensures faults { IfErr result (λ fault. fault ≡ RunFault.WriteFault) }
{
    make_room(out, writer)?;
    written(put_line(out, "no reply"))
}
