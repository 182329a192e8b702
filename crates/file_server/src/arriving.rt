//! What the datagram that came makes of a server's host: requests for FILE are accepted. Each
//! function answers whether packets went out.
ghost use Rattle.chaos_host.specs.declared.answers.HostDelivered.TheVariants.{Requested};
ghost use Rattle.chaos_node.specs.InTurn.{TurnDoes};
ghost use Rattle.file_server.specs.Arrive.{accept_by, arrive_at_server, request_in};

use chaos_file::CONTACT;
use chaos_host::{ConnId, HostDisposition};
use chaos_link::{Link, LinkFault, Packets};
use chaos_node::{Turn, any_of, send_all};
use chaos_packet::{Packet, PktNum};

/// Takes what came at a server: delivers each packet in turn, and accepts the requests for FILE
/// among them. A datagram that carries no packet is dropped.
pub fn arrive_at_server<L: Link>(
    turn: &mut Turn<'_, L>,
    came: Option<Result<Packets<'_>, LinkFault>>,
    start: PktNum,
) -> bool
    ensures { TurnDoes turn.old turn.new
        (arrive_at_server came.entry start turn.old.now turn.old.host.now) result }
{
    let Some(Ok(mut packets)) = came else {
        return false;
    };
    let mut sent = false;
    let mut packet = Packet::default();
    'packets: while packets.next_into(&mut packet) {
        let became = turn.host.take(&packet, turn.now, turn.out);
        let answered = send_all(turn.link, turn.out, turn.carriage);
        let accepted = match became {
            HostDisposition::Requested(id) => accept(turn, &packet, id, start),
            _ => false,
        };
        sent = any_of(accepted, answered, sent);
    }
    sent
}

/// Accepts the new connection of a request, where that is for FILE.
#[tactic(auto, using(chaos_node::proofs::Phase::put_into_empty))]
fn accept<L: Link>(turn: &mut Turn<'_, L>, packet: &Packet, id: ConnId, start: PktNum) -> bool
    ensures { TurnDoes turn.old turn.new
        (accept_by turn.old.host.now start turn.old.now (request_in packet.now (Requested id))) result }
{
    if packet.contact() != CONTACT {
        return false;
    }
    let _ = turn.host.accept(id, start, turn.now, turn.out);
    send_all(turn.link, turn.out, turn.carriage)
}
