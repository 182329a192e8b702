//! What a host seals and opens with.
ghost use Rattle.std.specs.Prelude.{◌≡◌, ◌≢◌, ◌↔◌, ◌+◌, ◌≤◌, ◌<◌, ◌==◌, ◌++◌, ◌∷◌, [], ℕ, List, false, length, position, take, All, IfErr, IfNone, IfOk, IfSome, IsErrOf, IsNone, IsSome, IsTrue, OnErr, OnOk, Some, None, true};
ghost use Rattle.chaos_link.specs.declared.limits.TheConstants.{LINK_ROOM, MAX_PEERS};
ghost use Rattle.chaos_seal.specs.declared.fault.SealFault.{SealFault};
ghost use Rattle.chaos_seal.specs.declared.form.Head.{Head};
ghost use Rattle.chaos_seal.specs.declared.limits.TheConstants.{MAX_PAYLOAD, SEAL_BYTES};
ghost use Rattle.chaos_seal.specs.declared.peer.SealPeer.{SealPeer};
ghost use Rattle.chaos_seal.specs.Opening.{Answers, AnswersPlain, Comes, IsSealed, Opens, Refuses, from_in};
ghost use Rattle.chaos_seal.specs.Peers.{Keeps, KeepsSealing, has_key, is_empty, is_heard_in_clear, new_peer, peer_of, unheard_of};
ghost use Rattle.chaos_seal.specs.Places.{CanSealAt, ComesAt, Gives, Greets, HearsAt, LateAt, SealsAt};
ghost use Rattle.chaos_seal.specs.Seal.{payload_of, sealed_form};
ghost use Rattle.chaos_seal.specs.Sending.{CanSeal, SealsFor, newest, next_head};
ghost use Rattle.chaos_seal.specs.Sources.{IsClear};

use crate::fault::{KeyFault, SealFault};
use crate::form::{Head, has_right_tag, is_sealed, lift, payload, read_head};
use crate::limits::{KEY_BYTES, SEAL_BYTES};
use crate::opened::Opened;
use crate::peer::SealPeer;
use crate::sources::{is_all_from, sources};
use chaos_link::{LINK_ROOM, MAX_PEERS};
use std::alloc::Global;
use std::marker::Model;

/// What a host seals and opens with: its address, its session, and the hosts that have a key. There
/// are at most [`MAX_PEERS`] of these, and no two have the same address.
#[derive(Drop)]
pub struct Seals {
    me: u16,
    session: u64,
    /// Whether nobody is heard in clear.
    is_closed: bool,
    peers: Vec<SealPeer>,
}

impl Model for Seals {
    ghost use Rattle.chaos_seal.specs.Peers.{SealsView};

    ghost Value = { SealsView };

    ghost view = { λ seals. record {
      me = seals.me;
      session = seals.session;
      closed = seals.is_closed;
      peers = seals.peers.items;
    } };
}

impl Seals {
    /// A host with this address, in this session, and no keys. A later run of the host needs a
    /// greater session.
    pub fn new(alloc: Global, me: u16, session: u64) -> Self
        // No host has a key yet, and all are heard in clear.
        ensures { result ≡ record { me = me; session = session; closed = false; peers = [] } }
    {
        Seals {
            me,
            session,
            is_closed: false,
            peers: Vec::new(alloc),
        }
    }

    /// Hears nobody in clear from now on: whoever has no key isn't heard at all.
    pub fn close(&mut self)
        // Nothing else changes.
        ensures { self.new ≡ record self.old { closed = true } }
    {
        self.is_closed = true;
    }

    /// Adds the key that this host and another one have.
    ///
    /// # Errors
    /// There are 32 keys already, the host has one, or there is no memory. The first of these that
    /// holds is given.
    pub fn add(&mut self, address: u16, key: &[u8; KEY_BYTES]) -> Result<(), KeyFault>
        // The host is added behind the others, with nothing heard of it. Nothing else changes.
        ensures ok { OnOk result (self.new
            ≡ record self.old { peers = self.old.peers ++ new_peer address key.now ∷ [] }) }
        // A refusal changes nothing.
        ensures err { OnErr result (self.new ≡ self.old) }
        // A key is refused where there are 32 already, and otherwise where the host has one. Any
        // other refusal is that there is no memory.
        ensures too_many { IsErrOf result KeyFault.TooMany
            ↔ (MAX_PEERS ≤ length self.old.peers) }
        ensures already { IsErrOf result KeyFault.Already
            ↔ ((length self.old.peers < MAX_PEERS) × IsTrue (has_key address self.old)) }
    {
        if self.peers.len() >= MAX_PEERS {
            return Err(KeyFault::TooMany);
        }
        if self.has_key(address) {
            return Err(KeyFault::Already);
        }
        match self.peers.push(SealPeer::new(address, key)) {
            Ok(()) => Ok(()),
            Err(_) => Err(KeyFault::NoMemory),
        }
    }

    /// Whether a host has a key.
    pub fn has_key(&self, address: u16) -> bool
        // The answer is true exactly where a key was added for the host.
        ensures { result ≡ has_key address self.now }
    {
        self.place_of(address).is_some()
    }

    /// Whether there is nothing to seal or to refuse: no host has a key, and all are heard in clear.
    pub fn is_empty(&self) -> bool
        // The answer is true exactly where no key was added and this host isn't closed.
        ensures { result ≡ is_empty self.now }
    {
        !self.is_closed && self.peers.is_empty()
    }

    /// How many datagrams were sealed for a host of which nothing was opened yet. The answer is
    /// `None` where something was, or the host has no key.
    pub fn unheard(&self, address: u16) -> Option<u64>
        // The number counts all datagrams that were sealed for the host.
        ensures { result ≡ unheard_of address self.now }
    {
        let place = self.place_of(address)?;
        let peer = &self.peers.as_slice()[place];
        if peer.is_unheard() {
            Some(peer.sent)
        } else {
            None
        }
    }

    /// The place of the host with this address.
    fn place_of(&self, address: u16) -> Option<usize>
        ensures place { result ≡ position (λ p. p.address == address) self.now.peers }
        ensures within { IfSome result (λ place. place < length self.now.peers) }
    {
        self.peers.iter().position(|peer| peer.address == address)
    }

    /// Writes the datagram that seals the payload for a host into the room, and gives its length.
    /// The datagram names the newest session heard of the host. The answer is `None` where the host
    /// has no key, no counter is left, or the payload has more than 2,000 bytes.
    pub fn seal(&mut self, to: u16, payload: &[u8], room: &mut [u8; LINK_ROOM]) -> Option<usize>
        // What is written is sealed for the host, under the next counter, and names the newest
        // session heard of the host. Only that counter changes.
        ensures sealed { IfSome result
            (λ n. SealsFor self.old to newest payload.now (take n room.new) self.new) }
        // So the bytes are these.
        ensures exact { IfSome result (λ n. (p : SealPeer) → peer_of to self.old.peers ≡ Some p
            → take n room.new
            ≡ sealed_form p.key (next_head self.old p to p.session) payload.now) }
        // The datagram is 48 bytes longer than its payload.
        ensures long { IfSome result (λ n. n ≡ SEAL_BYTES + length payload.now) }
        // It is written exactly where the host has a key, a counter is left, and the payload has at
        // most 2,000 bytes. Otherwise nothing changes.
        ensures some { IsSome result ↔ (CanSeal to self.old × (length payload.now ≤ MAX_PAYLOAD)) }
        ensures none { IfNone result ((self.new ≡ self.old) × (room.new ≡ room.old)) }
        // Nothing that was heard changes.
        ensures keeps { Keeps self.old self.new }
    {
        let place = self.place_of(to)?;
        let named = self.peers.as_slice()[place].session;
        self.write(place, named, payload, room)
    }

    /// Writes the answer to a datagram that asks for a hello: an empty datagram that names this
    /// session of the host. The answer is `None` where the host has no key, or no counter is left.
    pub fn hello(&mut self, to: u16, session: u64, room: &mut [u8; LINK_ROOM]) -> Option<usize>
        // What is written is empty, sealed for the host under the next counter, and names the given
        // session. Only that counter changes.
        ensures sealed { IfSome result
            (λ n. SealsFor self.old to (λ _. session) [] (take n room.new) self.new) }
        // So the bytes are these.
        ensures exact { IfSome result (λ n. (p : SealPeer) → peer_of to self.old.peers ≡ Some p
            → take n room.new ≡ sealed_form p.key (next_head self.old p to session) []) }
        // A hello has 48 bytes.
        ensures long { IfSome result (λ n. n ≡ SEAL_BYTES) }
        // It is written exactly where the host has a key and a counter is left. Otherwise nothing
        // changes.
        ensures some { IsSome result ↔ CanSeal to self.old }
        ensures none { IfNone result ((self.new ≡ self.old) × (room.new ≡ room.old)) }
        // Nothing that was heard changes.
        ensures keeps { Keeps self.old self.new }
    {
        let place = self.place_of(to)?;
        self.write(place, session, &[], room)
    }

    /// Seals a payload for the host at a place.
    fn write(
        &mut self,
        place: usize,
        named: u64,
        payload: &[u8],
        room: &mut [u8; LINK_ROOM],
    ) -> Option<usize>
        requires { place < length self.old.peers }
        ensures some { IsSome result ↔ CanSealAt place self.old payload.now }
        ensures sealed { IfSome result
            (λ n. SealsAt self.old place named payload.now (take n room.new) self.new) }
        ensures long { IfSome result (λ n. n ≡ SEAL_BYTES + length payload.now) }
        ensures none { IfNone result ((self.new ≡ self.old) × (room.new ≡ room.old)) }
    {
        let (from, session) = (self.me, self.session);
        let peer = &mut self.peers.as_mut_slice()[place];
        let head = Head {
            to: peer.address,
            from,
            session,
            peer: named,
            counter: 0,
        };
        peer.seal(head, payload, room)
    }

    /// What becomes of the first `count` bytes of the buffer. Of `Payload(n)` the payload stands in
    /// the first `n` bytes then.
    pub fn open(&mut self, buffer: &mut [u8; LINK_ROOM], count: usize) -> Opened
        requires { count ≤ LINK_ROOM }
        // A datagram without the mark or of another version goes up as it is, unless it carries a
        // packet whose source has a key. A datagram of version 3 with a fault is refused. What
        // becomes of a datagram that a host with a key sealed for this one is in `Answers`.
        ensures opens { Opens self.old (take count buffer.old) result self.new }
        // Whatever a host with a key sealed for this one is opened, with exactly the numbers and the
        // payload that the host sealed.
        ensures only { (p : SealPeer) (h : Head) (payload : List ℕ)
            → Comes self.old (take count buffer.old) p h payload
            → Answers self.old p h payload result self.new }
        // A refusal changes nothing, except that the counter of a packet of another source is heard.
        ensures refused { (fault : SealFault) → result ≡ Opened.Refused fault →
            fault ≢ SealFault.ForeignPacket → self.new ≡ self.old }
        // At most what was heard of the sender that stands in the datagram changes. What is sealed
        // with stays: the own address and session, each key, and each counter.
        ensures others { (address : ℕ) → address ≢ from_in (take count buffer.old) →
            peer_of address self.new.peers ≡ peer_of address self.old.peers }
        ensures keeps { KeepsSealing self.old self.new }
        // The payload is 48 bytes shorter than the datagram, and stands in the front of the buffer.
        ensures shorter { (n : ℕ) → result ≡ Opened.Payload n → n + SEAL_BYTES ≡ count }
        ensures payload { (n : ℕ) → result ≡ Opened.Payload n →
            take n buffer.new ≡ payload_of (take count buffer.old) }
        // Otherwise the buffer stays.
        ensures buffer { ((n : ℕ) → result ≢ Opened.Payload n) → buffer.new ≡ buffer.old }
        // What asks for a hello is longer than a hello.
        ensures longer { (to session : ℕ) → result ≡ Opened.Hello to session → SEAL_BYTES < count }
    {
        let opened = self.take(&buffer[..count]);
        if let Opened::Payload(_) = opened {
            lift(buffer, count);
        }
        opened
    }

    /// What becomes of a datagram.
    fn take(&mut self, bytes: &[u8]) -> Opened
        ensures { Opens self.old bytes.now result self.new }
    {
        if !is_sealed(bytes) {
            return self.take_plain(bytes);
        }
        match self.checked(bytes) {
            Ok((place, head)) => self.take_sealed(place, &head, bytes),
            Err(fault) => Opened::Refused(fault),
        }
    }

    /// What becomes of a datagram that isn't of version 3.
    fn take_plain(&self, bytes: &[u8]) -> Opened
        ensures { AnswersPlain self.now bytes.now result }
    {
        if self.is_clear(bytes) {
            Opened::Plain
        } else {
            Opened::Refused(SealFault::Unsealed)
        }
    }

    /// Whether each packet that the bytes carry comes from a host that is heard in clear.
    fn is_clear(&self, bytes: &[u8]) -> bool
        ensures { IsTrue result ↔ IsClear self.now bytes.now }
    {
        self.hears_all(sources(bytes).as_slice())
    }

    /// Whether all of the sources are heard in clear.
    fn hears_all(&self, sources: &[u16]) -> bool
        ensures { IsTrue result
            ↔ All (λ source. is_heard_in_clear source self.now ≡ true) sources.now }
    {
        sources.iter().all(|source| self.is_heard_in_clear(*source))
    }

    /// Whether a host is heard in clear.
    fn is_heard_in_clear(&self, source: u16) -> bool
        ensures { result ≡ is_heard_in_clear source self.now }
    {
        !self.is_closed && !self.has_key(source)
    }

    /// The place of the host that sealed a datagram for this one, and the datagram's numbers.
    fn checked(&self, bytes: &[u8]) -> Result<(usize, Head), SealFault>
        requires { IsSealed bytes.now }
        ensures comes { IfOk result (λ found. ComesAt self.now bytes.now found.0 found.1) }
        ensures fault { IfErr result (Refuses self.now bytes.now) }
    {
        if bytes.len() < SEAL_BYTES {
            return Err(SealFault::Short);
        }
        if bytes[3] != 0 {
            return Err(SealFault::BadVersion);
        }
        let head = read_head(bytes);
        if head.to != self.me {
            return Err(SealFault::OtherHost);
        }
        let Some(place) = self.place_of(head.from) else {
            return Err(SealFault::NoKey);
        };
        if !has_right_tag(&self.peers.as_slice()[place].key, bytes) {
            return Err(SealFault::BadTag);
        }
        Ok((place, head))
    }

    /// What becomes of a datagram that the host at a place sealed for this one.
    fn take_sealed(&mut self, place: usize, head: &Head, bytes: &[u8]) -> Opened
        requires { ComesAt self.old bytes.now place head.now }
        ensures { Opens self.old bytes.now result self.new }
    {
        if head.peer != self.session {
            return greet(head, bytes);
        }
        if let Err(fault) = self.hear(place, head.session, head.counter) {
            return Opened::Refused(fault);
        }
        give(head, bytes)
    }

    /// Hears a counter in a session of the host at a place.
    fn hear(&mut self, place: usize, session: u64, counter: u64) -> Result<(), SealFault>
        requires { place < length self.old.peers }
        ensures heard { OnOk result (HearsAt self.old place session counter self.new) }
        ensures late { IfErr result (LateAt self.old place session counter) }
        ensures same { OnErr result (self.new ≡ self.old) }
    {
        let peer = &mut self.peers.as_mut_slice()[place];
        peer.hear(session, counter)
    }
}

/// What becomes of a sealed datagram that names another session of its receiver.
fn greet(head: &Head, bytes: &[u8]) -> Opened
    requires { SEAL_BYTES ≤ length bytes.now }
    ensures { Greets head.now (payload_of bytes.now) result }
{
    if payload(bytes).is_empty() {
        return Opened::Refused(SealFault::Stale);
    }
    Opened::Hello {
        to: head.from,
        session: head.session,
    }
}

/// What becomes of a sealed datagram whose counter was just heard.
fn give(head: &Head, bytes: &[u8]) -> Opened
    requires { SEAL_BYTES ≤ length bytes.now }
    ensures { Gives head.now (payload_of bytes.now) result }
{
    let payload = payload(bytes);
    if payload.is_empty() {
        return Opened::Learned { from: head.from };
    }
    if is_all_from(payload, head.from) {
        Opened::Payload(payload.len())
    } else {
        Opened::Refused(SealFault::ForeignPacket)
    }
}
