//! What the datagram that came makes of a host.
ghost use Rattle.std.specs.Prelude.{◌≡◌, Some};
ghost use Rattle.chaos_host.specs.Deliver.{host_deliver};
ghost use Rattle.chaos_node.specs.Arrive.{answer_to, arrive_at_client, deliver_effect, told_after, told_at_client};
ghost use Rattle.chaos_node.specs.InTurn.{TurnDoes};
ghost use Rattle.chaos_node.specs.Phase.{over_packets};

use crate::last_packet::LastPacket;
use crate::sending::send_all;
use crate::turn::Turn;
use chaos_link::{Link, LinkFault, Packets};

impl<L: Link> Turn<'_, L> {
    /// Takes what came at a client, which accepts nothing, and answers whether packets went out.
    /// Its last packet is left in `told`, with what became of it.
    pub(crate) fn arrive(
        &mut self,
        came: Option<Result<Packets<'_>, LinkFault>>,
        told: &mut LastPacket,
    ) -> bool
        ensures phase { TurnDoes self.old self.new
            (arrive_at_client came.entry self.old.now self.old.host.now) result }
        ensures told { answer_to told.new
            ≡ told_at_client came.entry self.old.now self.old.host.now }
    {
        told.became = None;
        match came {
            Some(Ok(packets)) => self.deliver_all(packets, told),
            _ => false,
        }
    }

    /// Delivers each packet in turn. The last is left in `told` with what became of it, where there
    /// is one.
    fn deliver_all(&mut self, mut packets: Packets<'_>, told: &mut LastPacket) -> bool
        ensures phase { TurnDoes self.old self.new
            (over_packets (deliver_effect self.old.now) packets.entry self.old.host.now) result }
        ensures told { answer_to told.new
            ≡ told_after (answer_to told.old) packets.entry self.old.now self.old.host.now }
    {
        let mut sent = false;
        'packets: while packets.next_into(&mut told.packet) {
            sent = self.deliver(told) || sent;
        }
        sent
    }

    /// Delivers the packet in `told`, and leaves there what became of it.
    #[tactic(auto, using(crate::proofs::Phase::put_into_empty))]
    fn deliver(&mut self, told: &mut LastPacket) -> bool
        ensures phase { TurnDoes self.old self.new
            (deliver_effect self.old.now told.old.packet self.old.host.now) result }
        ensures told { answer_to told.new
            ≡ Some (host_deliver self.old.host.now told.old.packet self.old.now).answer }
    {
        told.became = Some(self.host.take(&told.packet, self.now, self.out));
        send_all(self.link, self.out, self.carriage)
    }
}
