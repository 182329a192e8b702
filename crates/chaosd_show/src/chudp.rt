//! The report of a CHUDP datagram.
ghost use Rattle.std.specs.Prelude.{◌≡◌, ◌++◌, OnOk, IfOk};
ghost use Rattle.chaosd_io.specs.Texts.{line};
ghost use Rattle.chaosd_show.specs.Entry.{chudp_fault_text, entry_of_datagram, entry_text, is_refusal};

use crate::entry::packet_fault_text;
use crate::format::Format;
use crate::report::put_delivery;
use crate::view::View;
use chaos_chudp::{ChudpFault, from_chudp};
use chaos_packet::PacketFault;
use chaosd_io::{NotWritten, WriteBuffer, put_line};

/// Writes the report of a CHUDP datagram, and says whether it is a refusal.
#[tactic(auto, unfolding(crate::specs::Entry::entry_text))]
pub fn put_chudp(out: &mut WriteBuffer, view: View, bytes: &[u8]) -> Result<bool, NotWritten>
    ensures text { OnOk result
        (out.new ≡ out.old ++ entry_text view (entry_of_datagram Format.Chudp bytes.now)) }
    ensures refused { IfOk result
        (λ refused. refused ≡ is_refusal (entry_of_datagram Format.Chudp bytes.now)) }
{
    match from_chudp(bytes) {
        Ok(delivery) => {
            put_delivery(out, view, &delivery)?;
            Ok(false)
        }
        Err(fault) => {
            put_chudp_fault(out, fault)?;
            Ok(true)
        }
    }
}

/// Writes how a fault of a CHUDP datagram is reported.
fn put_chudp_fault(out: &mut WriteBuffer, fault: ChudpFault) -> Result<(), NotWritten>
    ensures { OnOk result (out.new ≡ out.old ++ line (chudp_fault_text fault)) }
{
    match fault {
        ChudpFault::TooLong => put_line(out, "fault 1 TooLong"),
        ChudpFault::Short => put_line(out, "fault 2 Short"),
        ChudpFault::BadVersion => put_line(out, "fault 3 BadVersion"),
        ChudpFault::BadFunction => put_line(out, "fault 4 BadFunction"),
        ChudpFault::BadSum => put_line(out, "fault 5 BadSum"),
        ChudpFault::Packet(fault) => put_chudp_packet_fault(out, fault),
        ChudpFault::Trailing => put_line(out, "fault 7 Trailing"),
    }
}

/// The report of a fault of the packet.
fn put_chudp_packet_fault(out: &mut WriteBuffer, fault: PacketFault) -> Result<(), NotWritten>
    ensures { OnOk result (out.new ≡ out.old ++ line (chudp_fault_text (ChudpFault.Packet fault))) }
{
    out.put(b"fault 6 Packet ")?;
    put_line(out, packet_fault_text(fault))
}
