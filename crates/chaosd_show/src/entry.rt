//! The report of a line.
ghost use Rattle.std.specs.Prelude.{◌≡◌, ◌≤◌, ◌++◌, [], false, length, OnOk, IfOk, Some};
ghost use Rattle.std.specs.Io.KnownBytes.{Appends};
ghost use Rattle.chaosd_io.specs.Buffer.{written_of};
ghost use Rattle.chaos_link.specs.Datagram.{fault_of};
ghost use Rattle.chaosd_show.specs.Entry.{fault_text, packet_fault_text, entry_of, entry_of_datagram, entry_text, is_refusal};
ghost use Rattle.chaosd_io.specs.Texts.{line};
ghost use Rattle.chaosd_show.specs.Show.{gap, line_report};

use crate::chudp::put_chudp;
use crate::format::Format;
use crate::hex::{MOST_BYTES, read_hex};
use crate::limits::SHOW_LINE_LIMIT;
use crate::report::{put_packet, put_several};
use crate::view::View;
use chaos_link::{LinkFault, from_datagram, open_datagram};
use chaos_packet::PacketFault;
use chaosd_io::{NotWritten, WriteBuffer, put_decimal, put_line, without_return};
use std::io::Write;

/// Writes the report of a line, and says whether it is a refusal. `datagram` holds the line's bytes
/// meanwhile. What waits is handed on where a packet of several might not fit behind it.
#[tactic(auto, using(crate::proofs::Steps::put_behind), unfolding(crate::specs::Entry::entry_of, crate::specs::Entry::entry_text))]
pub fn put_entry<W: Write>(
    out: &mut WriteBuffer,
    writer: &mut W,
    format: Format,
    view: View,
    raw: &[u8],
    datagram: &mut [u8; MOST_BYTES],
) -> Result<bool, NotWritten>
    ensures text { OnOk result
        (Appends (written_of (W.contents writer.old) out.old)
        (written_of (W.contents writer.new) out.new) (line_report format view raw.now)) }
    ensures refused { IfOk result (λ refused. refused ≡ is_refusal (entry_of format raw.now)) }
{
    let text = without_return(raw);
    if text.len() > SHOW_LINE_LIMIT {
        out.put(b"fault 0 Line\n")?;
        return Ok(true);
    }
    let Some(count) = read_hex(text, datagram) else {
        out.put(b"fault 0 Line\n")?;
        return Ok(true);
    };
    let bytes = &datagram[..count];
    match format {
        Format::Own => put_datagram(out, writer, view, bytes),
        Format::Chudp => put_chudp(out, view, bytes),
    }
}

/// Writes an empty line and the report of the empty datagram in one piece. The empty datagram is
/// refused in either format.
#[tactic(auto, unfolding(crate::specs::Entry::entry_text))]
pub fn put_gap_and_empty(out: &mut WriteBuffer, format: Format) -> Result<(), NotWritten>
    ensures { (view : View) → OnOk result
        (out.new ≡ out.old ++ (gap false ++ entry_text view (entry_of_datagram format []))) }
{
    match format {
        Format::Own => out.put(b"\nfault 1 Short\n"),
        Format::Chudp => out.put(b"\nfault 2 Short\n"),
    }
}

/// Writes the report of a datagram in the own format, and says whether it is a refusal.
#[tactic(auto, using(crate::proofs::Steps::put_behind), unfolding(crate::specs::Entry::entry_text))]
fn put_datagram<W: Write>(
    out: &mut WriteBuffer,
    writer: &mut W,
    view: View,
    bytes: &[u8],
) -> Result<bool, NotWritten>
    ensures text { OnOk result
        (Appends (written_of (W.contents writer.old) out.old)
        (written_of (W.contents writer.new) out.new) (entry_text view (entry_of_datagram Format.Own bytes.now))) }
    ensures refused { IfOk result
        (λ refused. refused ≡ is_refusal (entry_of_datagram Format.Own bytes.now)) }
{
    match from_datagram(bytes) {
        Ok(packet) => {
            put_packet(out, view, &packet)?;
            Ok(false)
        }
        Err(LinkFault::BadVersion) => put_of_another_version(out, writer, view, bytes),
        Err(fault) => {
            put_fault(out, fault)?;
            Ok(true)
        }
    }
}

/// Writes the report of a datagram that isn't of version 1, and says whether it is a refusal.
#[tactic(auto, unfolding(crate::specs::Entry::entry_text))]
fn put_of_another_version<W: Write>(
    out: &mut WriteBuffer,
    writer: &mut W,
    view: View,
    bytes: &[u8],
) -> Result<bool, NotWritten>
    requires { fault_of bytes.now ≡ Some LinkFault.BadVersion }
    ensures text { OnOk result
        (Appends (written_of (W.contents writer.old) out.old)
        (written_of (W.contents writer.new) out.new) (entry_text view (entry_of_datagram Format.Own bytes.now))) }
    ensures refused { IfOk result
        (λ refused. refused ≡ is_refusal (entry_of_datagram Format.Own bytes.now)) }
{
    match open_datagram(bytes) {
        Ok(packets) => {
            put_several(out, writer, view, bytes[3], packets)?;
            Ok(false)
        }
        Err(fault) => {
            put_fault(out, fault)?;
            Ok(true)
        }
    }
}

/// Writes how a datagram's fault is reported.
fn put_fault(out: &mut WriteBuffer, fault: LinkFault) -> Result<(), NotWritten>
    ensures { OnOk result (out.new ≡ out.old ++ line (fault_text fault)) }
{
    match fault {
        LinkFault::Short => put_line(out, "fault 1 Short"),
        LinkFault::BadMark => put_line(out, "fault 2 BadMark"),
        LinkFault::BadVersion => put_line(out, "fault 3 BadVersion"),
        LinkFault::Packet(fault) => put_packet_fault(out, fault),
        LinkFault::Trailing => put_line(out, "fault 5 Trailing"),
        LinkFault::BadNumber => put_line(out, "fault 6 BadNumber"),
        LinkFault::TooLong => put_line(out, "fault 7 TooLong"),
        LinkFault::PacketAt(place, fault) => put_fault_at(out, place, fault),
    }
}

/// The report of a fault of the one packet.
fn put_packet_fault(out: &mut WriteBuffer, fault: PacketFault) -> Result<(), NotWritten>
    ensures { OnOk result (out.new ≡ out.old ++ line (fault_text (LinkFault.Packet fault))) }
{
    out.put(b"fault 4 Packet ")?;
    put_line(out, packet_fault_text(fault))
}

/// The report of a fault of one packet of several, by its place.
fn put_fault_at(out: &mut WriteBuffer, place: u8, fault: PacketFault) -> Result<(), NotWritten>
    ensures { OnOk result
        (out.new ≡ out.old ++ line (fault_text (LinkFault.PacketAt place fault))) }
{
    out.put(b"fault 8 PacketAt ")?;
    put_decimal(out, usize::from(place))?;
    out.put(b" ")?;
    put_line(out, packet_fault_text(fault))
}

/// How a packet's fault is reported.
pub fn packet_fault_text(fault: PacketFault) -> &'static str
    ensures { result.now ≡ packet_fault_text fault }
{
    match fault {
        PacketFault::Short => "1 Short",
        PacketFault::BadCount => "2 BadCount",
        PacketFault::Truncated => "3 Truncated",
    }
}
