//! What is due at a moment.
ghost use Rattle.std.specs.Prelude.{◌≡◌, ◌<◌, ◌≤◌, [], ◌∷◌, length};
ghost use Rattle.chaos_packet.specs.Outbox.{with_put, room_of};
ghost use Rattle.chaos_conn.specs.Sending.{all_kept, item_packet, carries_ack};
ghost use Rattle.chaos_packet.specs.Opcode.{kind_of};
ghost use Rattle.chaos_conn.specs.Time.{at_moment, is_down, is_resend_due, is_probe_due, due_of, tells, ticked_by};
ghost use Rattle.chaos_conn.specs.Acted.{Acts};
ghost use Rattle.chaos_conn.specs.Act.{Tick, Ticks, Does};

use crate::answers::Ticked;
use crate::conn::Conn;
use crate::sending::carries_ack;
use crate::state::State;
use chaos_packet::{Item, Outbox, PktNum};
use chaos_window::SendWindow;

/// What is due at a moment.
#[derive(Clone, Copy, Debug, PartialEq, Eq)]
pub enum Due {
    /// The peer counts as down.
    HostDown,
    /// All kept items are sent again.
    Resend,
    /// The peer is probed.
    Probe,
    /// Nothing is due.
    Nothing,
}

impl Conn {
    /// Does what is due at a moment, the first of these that applies:
    ///
    /// 1. An end that waits for its peer and didn't hear it for the time `down` is ended.
    /// 2. After the time `retransmit` all kept items are sent again, each with its own number.
    /// 3. An open end whose peer was neither heard nor probed for the time `probe` sends an SNS.
    pub fn tick(&mut self, now: u64, out: &mut Outbox) -> Ticked
        requires { self.old.config.send_cap ≤ room_of out.old }
        // A tick ends the connection, sends all kept items again, probes, or does nothing: exactly
        // what is due.
        ensures { Does self.old (Tick now) self.new out.old out.new (Ticks result) }
    {
        let due = self.due_at(now);
        self.last = self.last.max(now);
        match due {
            Due::HostDown => {
                self.state = State::HostDown;
                Ticked::Down
            }
            Due::Resend => self.resend(out),
            Due::Probe => self.probe(out),
            Due::Nothing => Ticked::Quiet,
        }
    }

    /// What a tick at a moment would do. Nothing changes.
    pub fn due_at(&self, now: u64) -> Due
        // This is the first of the three that applies at this moment, or Nothing.
        ensures { result ≡ due_of (at_moment self.now now) }
    {
        let last = self.last.max(now);
        if self.is_down(last) {
            Due::HostDown
        } else if self.is_resend_due(last) {
            Due::Resend
        } else if self.is_probe_due(last) {
            Due::Probe
        } else {
            Due::Nothing
        }
    }

    /// Whether the peer was not heard for so long that it counts as down at this moment.
    fn is_down(&self, last: u64) -> bool
        requires { self.now.last ≤ last }
        ensures { result ≡ is_down (record self.now { last = last }) }
    {
        self.state.awaits_peer() && last - self.heard >= self.config.down()
    }

    /// Whether items are kept that weren't sent again for so long that they are sent at this
    /// moment.
    fn is_resend_due(&self, last: u64) -> bool
        requires { self.now.last ≤ last }
        ensures { result ≡ is_resend_due (record self.now { last = last }) }
    {
        self.state.awaits_peer()
            && self.send.unreceipted() > 0
            && last - self.resent >= self.config.retransmit()
    }

    /// Whether the peer was neither heard nor probed for so long that it is probed at this moment.
    fn is_probe_due(&self, last: u64) -> bool
        requires { self.now.last ≤ last }
        ensures { result ≡ is_probe_due (record self.now { last = last }) }
    {
        self.state.is_open() && last - self.heard.max(self.probed) >= self.config.probe()
    }

    /// Sends all kept items again.
    #[tactic(auto, using(crate::proofs::Kept::places))]
    fn resend(&mut self, out: &mut Outbox) -> Ticked
        requires { self.old.config.send_cap ≤ room_of out.old }
        ensures view { self.new ≡ (ticked_by Due.Resend self.old).view }
        ensures packets { out.new ≡ with_put out.old (all_kept self.old) }
        ensures answer { result ≡ (ticked_by Due.Resend self.old).answer }
        ensures few { length (all_kept self.old) ≤ self.old.config.send_cap }
    {
        let count = self.send.unreceipted();
        self.put_kept(out);
        self.resent = self.last;
        if tells(&self.send) {
            self.untold = 0;
        }
        Ticked::Resent(count as usize)
    }

    /// Asks a silent peer for its status by an SNS.
    fn probe(&mut self, out: &mut Outbox) -> Ticked
        requires { 0 < room_of out.old }
        ensures { Acts self.old (ticked_by Due.Probe self.old) self.new out.old out.new result }
    {
        self.put_sns(out);
        self.probed = self.last;
        self.untold = 0;
        Ticked::Probed
    }

    /// Puts all kept items out, in order.
    #[tactic(auto, using(crate::proofs::Kept::places))]
    fn put_kept(&self, out: &mut Outbox)
        requires { length self.now.send.kept ≤ room_of out.old }
        ensures { out.new ≡ with_put out.old (all_kept self.now) }
    {
        let send = &self.send;
        let mut num = send.receipted().next();
        for i in 0..send.unreceipted() as usize {
            self.put_again(num, send.kept(i).unwrap(), out);
            num = num.next();
        }
    }

    /// Puts a kept item out, with the present acknowledgement where it carries one.
    fn put_again(&self, num: PktNum, item: &Item, out: &mut Outbox)
        requires { 0 < room_of out.old }
        ensures { out.new ≡ with_put out.old (item_packet self.now num item.now ∷ []) }
    {
        self.put_item(num, item.op, item.bytes(), out);
    }
}

/// Whether a kept item carries the acknowledgement.
#[tactic(auto, using(crate::proofs::Kept::places))]
fn tells(send: &SendWindow) -> bool
    ensures { result ≡ tells send.now.kept }
{
    for i in 0..send.unreceipted() as usize {
        if item_tells(send.kept(i).unwrap()) {
            return true;
        }
    }
    false
}

/// Whether an item is sent with the acknowledgement.
fn item_tells(item: &Item) -> bool
    ensures { result ≡ carries_ack (kind_of item.now.op) }
{
    carries_ack(item.op.kind())
}
