//! The report of a packet, of several, and of one with its trailer.
ghost use Rattle.std.specs.Prelude.{◌≡◌, ◌<◌, ◌++◌, length, OnOk};
ghost use Rattle.std.specs.Io.KnownBytes.{Appends};
ghost use Rattle.chaos_packet.specs.Packet.{status_of};
ghost use Rattle.chaosd_io.specs.Buffer.{written_of};
ghost use Rattle.chaosd_show.specs.Report.{octal_six, hex_digit, op_line, count_line, end_line, pair_line, data_line, text_line, view_text, body_text, packet_text, carriage_line, packets_text, several_text, hex_four, trailer_line, sum_line, delivery_text};

use crate::file::put_file;
use crate::room::{make_room, packet_room};
use crate::view::View;
use chaos_chudp::Delivery;
use chaos_link::Packets;
use chaos_packet::{Opcode, Packet};
use chaosd_io::{NotWritten, WriteBuffer, put_decimal, put_octal_three, put_text};
use std::io::Write;

/// Writes the lines of the packets of a datagram of version 2, which are so many. Each is written
/// as it is taken out of the datagram, so the cost is that of their data bytes; nothing is
/// allocated.
#[tactic(auto, unfolding(crate::specs::Report::several_text))]
pub fn put_several<W: Write>(
    out: &mut WriteBuffer,
    writer: &mut W,
    view: View,
    number: u8,
    packets: Packets<'_>,
) -> Result<(), NotWritten>
    requires { number ≡ length packets }
    ensures { OnOk result
        (Appends (written_of (W.contents writer.old) out.old)
        (written_of (W.contents writer.new) out.new) (several_text view packets.entry)) }
{
    put_carriage(out, number)?;
    put_packets(out, writer, view, packets)
}

/// The carriage's version, and how many packets there are.
#[tactic(auto, unfolding(crate::specs::Report::carriage_line))]
fn put_carriage(out: &mut WriteBuffer, number: u8) -> Result<(), NotWritten>
    ensures { OnOk result (out.new ≡ out.old ++ carriage_line number) }
{
    out.put(b"carriage 2 packets ")?;
    put_decimal(out, usize::from(number))?;
    out.put(b"\n")
}

/// Behind an empty line each packet. What waits is handed on where a packet might not fit behind
/// it.
fn put_packets<W: Write>(
    out: &mut WriteBuffer,
    writer: &mut W,
    view: View,
    mut packets: Packets<'_>,
) -> Result<(), NotWritten>
    ensures { OnOk result
        (Appends (written_of (W.contents writer.old) out.old)
        (written_of (W.contents writer.new) out.new) (packets_text view packets.entry)) }
{
    while let Some(packet) = packets.next() {
        make_room(out, writer, packet_room(view))?;
        out.put(b"\n")?;
        put_packet(out, view, &packet)?;
    }
    Ok(())
}

/// Writes the lines of the packet of a CHUDP datagram, and behind them those of its trailer. The
/// cost is that of the data bytes; nothing is allocated.
#[tactic(auto, unfolding(crate::specs::Report::delivery_text))]
pub fn put_delivery(
    out: &mut WriteBuffer,
    view: View,
    delivery: &Delivery,
) -> Result<(), NotWritten>
    ensures { OnOk result (out.new ≡ out.old ++ delivery_text view delivery.now) }
{
    put_packet(out, view, &delivery.packet)?;
    put_trailer(out, delivery.to, delivery.from)?;
    put_sum(out, delivery.sum)
}

/// The next hop, and the hop that sent the datagram.
#[tactic(auto, unfolding(crate::specs::Report::trailer_line))]
fn put_trailer(out: &mut WriteBuffer, to: u16, from: u16) -> Result<(), NotWritten>
    ensures { OnOk result (out.new ≡ out.old ++ trailer_line to from) }
{
    out.put(b"trailer to ")?;
    put_octal_six(out, to)?;
    out.put(b" from ")?;
    put_octal_six(out, from)?;
    out.put(b"\n")
}

/// The sum, as it stands in the datagram.
#[tactic(auto, unfolding(crate::specs::Report::sum_line))]
fn put_sum(out: &mut WriteBuffer, sum: u16) -> Result<(), NotWritten>
    ensures { OnOk result (out.new ≡ out.old ++ sum_line sum) }
{
    out.put(b"sum ")?;
    put_hex_four(out, sum)?;
    out.put(b"\n")
}

/// Writes the lines of a packet. The cost is that of its data bytes; nothing is allocated.
#[tactic(auto, unfolding(crate::specs::Report::packet_text))]
pub fn put_packet(out: &mut WriteBuffer, view: View, packet: &Packet) -> Result<(), NotWritten>
    ensures { OnOk result (out.new ≡ out.old ++ packet_text view packet.now) }
{
    put_op(out, packet.op)?;
    put_counts(out, packet.fwd, packet.body.len())?;
    put_end(out, "to", packet.dst, packet.dst_index)?;
    put_end(out, "from", packet.src, packet.src_index)?;
    put_pair(out, "num", packet.num.0, "ack", packet.ack.0)?;
    put_body(out, view, packet)
}

/// The first line: the opcode, and its name where it has one.
#[tactic(auto, unfolding(crate::specs::Report::op_line))]
fn put_op(out: &mut WriteBuffer, op: Opcode) -> Result<(), NotWritten>
    ensures { OnOk result (out.new ≡ out.old ++ op_line op) }
{
    out.put(b"op ")?;
    put_octal_three(out, u16::from(op.0))?;
    if let Some(name) = op.name() {
        out.put(b" ")?;
        out.put(name.as_bytes())?;
    }
    out.put(b"\n")
}

/// The forwarding count and the number of data bytes.
#[tactic(auto, unfolding(crate::specs::Report::count_line))]
fn put_counts(out: &mut WriteBuffer, fwd: u8, count: usize) -> Result<(), NotWritten>
    ensures { OnOk result (out.new ≡ out.old ++ count_line fwd count) }
{
    out.put(b"fwd ")?;
    put_decimal(out, usize::from(fwd))?;
    out.put(b" count ")?;
    put_decimal(out, count)?;
    out.put(b"\n")
}

/// One end of the connection, behind its word.
#[tactic(auto, unfolding(crate::specs::Report::end_line))]
fn put_end(out: &mut WriteBuffer, word: &str, address: u16, index: u16) -> Result<(), NotWritten>
    ensures { OnOk result (out.new ≡ out.old ++ end_line word.now address index) }
{
    out.put(word.as_bytes())?;
    out.put(b" ")?;
    put_octal_six(out, address)?;
    out.put(b" ")?;
    put_octal_six(out, index)?;
    out.put(b"\n")
}

/// Two numbers, each behind its word.
#[tactic(auto, unfolding(crate::specs::Report::pair_line))]
fn put_pair(
    out: &mut WriteBuffer,
    first: &str,
    m: u16,
    second: &str,
    n: u16,
) -> Result<(), NotWritten>
    ensures { OnOk result (out.new ≡ out.old ++ pair_line first.now m second.now n) }
{
    out.put(first.as_bytes())?;
    out.put(b" ")?;
    put_decimal(out, usize::from(m))?;
    out.put(b" ")?;
    out.put(second.as_bytes())?;
    out.put(b" ")?;
    put_decimal(out, usize::from(n))?;
    out.put(b"\n")
}

/// The status that the packet has, otherwise its data, otherwise nothing.
#[tactic(auto, unfolding(crate::specs::Report::body_text))]
fn put_body(out: &mut WriteBuffer, view: View, packet: &Packet) -> Result<(), NotWritten>
    ensures { OnOk result
        (out.new ≡ out.old
        ++ body_text view packet.now.op (status_of packet.now) packet.now.body) }
{
    match packet.status() {
        Some((receipt, window)) => put_pair(out, "receipt", receipt.0, "window", window),
        None if packet.body.is_empty() => Ok(()),
        None => {
            put_data(out, packet.body.as_slice())?;
            put_view(out, view, packet.op, packet.body.as_slice())
        }
    }
}

/// What the view says of data behind their bytes: nothing in the plain view.
#[tactic(auto, unfolding(crate::specs::Report::view_text))]
fn put_view(out: &mut WriteBuffer, view: View, op: Opcode, body: &[u8]) -> Result<(), NotWritten>
    ensures { OnOk result (out.new ≡ out.old ++ view_text view op body.now) }
{
    if view == View::Plain {
        return Ok(());
    }
    put_data_text(out, body)?;
    if !op.is_data() {
        return Ok(());
    }
    put_file(out, body)
}

/// The data bytes as a text.
#[tactic(auto, unfolding(crate::specs::Report::text_line))]
fn put_data_text(out: &mut WriteBuffer, body: &[u8]) -> Result<(), NotWritten>
    ensures { OnOk result (out.new ≡ out.old ++ text_line body.now) }
{
    out.put(b"text ")?;
    put_text(out, body)?;
    out.put(b"\n")
}

/// The data bytes.
#[tactic(auto, unfolding(crate::specs::Report::data_line))]
fn put_data(out: &mut WriteBuffer, body: &[u8]) -> Result<(), NotWritten>
    ensures { OnOk result (out.new ≡ out.old ++ data_line body.now) }
{
    out.put(b"data")?;
    for byte in body {
        out.put(&[b' ', hex_digit(*byte / 16), hex_digit(*byte % 16)])?;
    }
    out.put(b"\n")
}

/// Six octal digits.
fn put_octal_six(out: &mut WriteBuffer, n: u16) -> Result<(), NotWritten>
    ensures { OnOk result (out.new ≡ out.old ++ octal_six n) }
{
    out.put(&[
        b'0' + (n / 32768) as u8,
        b'0' + (n / 4096 % 8) as u8,
        b'0' + (n / 512 % 8) as u8,
    ])?;
    put_octal_three(out, n % 512)
}

/// Four upper-case hexadecimal digits.
fn put_hex_four(out: &mut WriteBuffer, n: u16) -> Result<(), NotWritten>
    ensures { OnOk result (out.new ≡ out.old ++ hex_four n) }
{
    out.put(&[
        hex_digit((n / 4096) as u8),
        hex_digit((n / 256 % 16) as u8),
        hex_digit((n / 16 % 16) as u8),
        hex_digit((n % 16) as u8),
    ])
}

/// The upper-case hexadecimal digits.
static DIGITS: [u8; 16] = *b"0123456789ABCDEF";

/// An upper-case hexadecimal digit.
#[inline]
fn hex_digit(digit: u8) -> u8
    requires { digit < 16 }
    ensures { result ≡ hex_digit digit }
{
    DIGITS[digit as usize]
}
