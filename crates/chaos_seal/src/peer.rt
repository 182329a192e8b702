//! A host that has a key.
ghost use Rattle.std.specs.Prelude.{◌≡◌, ◌↔◌, ◌≤◌, ◌<◌, ◌+◌, ◌^◌, length, take, IfErr, IfNone, IfSome, IsSome, IsTrue, OnErr, OnOk};
ghost use Rattle.chaos_seal.specs.Opening.{Late, heard, in_session};
ghost use Rattle.chaos_seal.specs.Peers.{is_unheard, new_peer};
ghost use Rattle.chaos_seal.specs.Seal.{Seals};
ghost use Rattle.chaos_seal.specs.Sending.{sent_once};
ghost use Rattle.chaos_seal.specs.declared.limits.TheConstants.{MAX_PAYLOAD, SEAL_BYTES};
ghost use Rattle.chaos_seal.specs.Window.{IsFresh};

use crate::fault::SealFault;
use crate::form::{Head, write_sealed};
use crate::hmac::Keyed;
use crate::limits::{KEY_BYTES, MAX_PAYLOAD};
use crate::window::ReplayWindow;
use chaos_link::LINK_ROOM;

/// A host that has a key, and what is known of it.
#[derive(Drop)]
pub struct SealPeer {
    pub address: u16,
    pub key: Keyed,
    /// The greatest counter of a datagram that was sealed for the host.
    pub sent: u64,
    /// The newest session of the host that was heard, and 0 where none was.
    pub session: u64,
    /// Which counters of the newest session were heard.
    pub window: ReplayWindow,
}

impl SealPeer {
    /// A host of which nothing was heard.
    pub fn new(address: u16, key: &[u8; KEY_BYTES]) -> Self
        ensures { result ≡ new_peer address key.now }
    {
        SealPeer {
            address,
            key: Keyed::new(key),
            sent: 0,
            session: 0,
            window: ReplayWindow::new(),
        }
    }

    /// Whether nothing of the host was opened yet.
    pub fn is_unheard(&self) -> bool
        ensures { result ≡ is_unheard self.now }
    {
        self.session == 0 && self.window.greatest == 0
    }

    /// Hears a counter in a session of the host.
    pub fn hear(&mut self, session: u64, counter: u64) -> Result<(), SealFault>
        ensures timely { OnOk result ((self.old.session ≤ session)
            × IsFresh (in_session self.old session).window counter) }
        ensures heard { OnOk result (self.new ≡ heard self.old session counter) }
        ensures late { IfErr result (Late self.old session counter) }
        ensures same { OnErr result (self.new ≡ self.old) }
    {
        if session < self.session {
            return Err(SealFault::OldSession);
        }
        if !self.is_fresh(session, counter) {
            return Err(SealFault::OldCounter);
        }
        self.begin(session);
        self.window.hear(counter);
        Ok(())
    }

    /// Whether a counter is fresh in a session that isn't older than the newest one.
    fn is_fresh(&self, session: u64, counter: u64) -> bool
        ensures { IsTrue result ↔ IsFresh (in_session self.now session).window counter }
    {
        if session > self.session {
            return counter > 0;
        }
        self.window.is_fresh(counter)
    }

    /// A newer session begins with no counter heard.
    fn begin(&mut self, session: u64)
        ensures { self.new ≡ in_session self.old session }
    {
        if self.session < session {
            self.session = session;
            self.window = ReplayWindow::new();
        }
    }

    /// Seals a payload under the next counter, which stands in the head's place, and gives the
    /// datagram's length.
    pub fn seal(&mut self, head: Head, payload: &[u8], room: &mut [u8; LINK_ROOM]) -> Option<usize>
        ensures some { IsSome result
            ↔ ((self.old.sent + 1 < 2 ^ 64) × (length payload.now ≤ MAX_PAYLOAD)) }
        ensures long { IfSome result (λ n. n ≡ SEAL_BYTES + length payload.now) }
        ensures sealed { IfSome result
            (λ n. Seals self.old.key (record head { counter = self.old.sent + 1 }) payload.now
            (take n room.new)) }
        ensures next { IfSome result (λ _. self.new ≡ sent_once self.old) }
        ensures none { IfNone result ((self.new ≡ self.old) × (room.new ≡ room.old)) }
    {
        if payload.len() > MAX_PAYLOAD || self.sent == u64::MAX {
            return None;
        }
        self.sent += 1;
        let head = Head {
            counter: self.sent,
            ..head
        };
        Some(write_sealed(&self.key, head, payload, room))
    }
}
