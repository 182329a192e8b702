//! The next moment at which something is due.
ghost use Rattle.std.specs.Prelude.{◌≡◌, ◌≤◌, ◌-◌, max, nat_le};
ghost use Rattle.chaos_conn.specs.Time.{at_moment, is_down, is_resend_due, is_probe_due};
ghost use Rattle.chaos_conn.specs.NextDue.{IsNextDue, QuietIsIdle, HoldsFrom, earlier_of};

use crate::conn::Conn;

impl Conn {
    /// The next moment at which something is due, in milliseconds, as long as nothing else is done
    /// with the connection. A late tick finds what is due too. So if something is due at the last
    /// moment already, the next moment is 0. There is no moment if the end waits for no peer, or if
    /// the moments end before.
    ///
    /// The cost is the same for any connection.
    pub fn next_due(&self) -> Option<u64>
        // At each moment of 64 bits a tick would be `Quiet` exactly if the moment is before this
        // one, or if there is none.
        ensures { IsNextDue self.now result }
    {
        earlier(self.down_at(), earlier(self.resend_at(), self.probe_at()))
    }

    /// From when on the peer counts as down.
    fn down_at(&self) -> Option<u64>
        ensures { HoldsFrom result (λ now. is_down (at_moment self.now now)) }
    {
        if !self.state.awaits_peer() {
            return None;
        }
        passes_at(self.last, self.heard, self.config.down())
    }

    /// From when on the kept items are to be sent again.
    fn resend_at(&self) -> Option<u64>
        ensures { HoldsFrom result (λ now. is_resend_due (at_moment self.now now)) }
    {
        if !self.state.awaits_peer() || self.send.unreceipted() == 0 {
            return None;
        }
        passes_at(self.last, self.resent, self.config.retransmit())
    }

    /// From when on the peer is to be probed.
    fn probe_at(&self) -> Option<u64>
        ensures { HoldsFrom result (λ now. is_probe_due (at_moment self.now now)) }
    {
        if !self.state.is_open() {
            return None;
        }
        passes_at(self.last, self.heard.max(self.probed), self.config.probe())
    }
}

/// From which moment on a time has passed since another moment, where calls count as no earlier
/// than the last: 0 where it has passed at the last moment, and none where the moments end before.
fn passes_at(last: u64, since: u64, time: u64) -> Option<u64>
    requires { since ≤ last }
    ensures { HoldsFrom result (λ now. nat_le time (max last now - since)) }
{
    let moment = since.checked_add(time)?;
    if moment <= last {
        return Some(0);
    }
    Some(moment)
}

/// Joins two moments, for example a moment of a caller's loop with [`Conn::next_due`].
pub fn earlier(a: Option<u64>, b: Option<u64>) -> Option<u64>
    // The answer is the earlier of the two moments, either of which may never come.
    ensures { result ≡ earlier_of a b }
{
    match (a, b) {
        (Some(a), Some(b)) => Some(a.min(b)),
        (None, b) => b,
        (a, None) => a,
    }
}

/// The law of a tick that finds nothing due.
pub fn law_quiet()
    // A tick that is quiet puts nothing out, and changes nothing except the moment of the last
    // call.
    ensures { QuietIsIdle }
{}
