//! The host that serves FILE.
ghost use Rattle.std.specs.Prelude.{◌≡◌, ◌<◌, ◌↔◌, length, IfErr};

use crate::limits::{SERVER_CONNS, SILENT_MILLIS};
use crate::log::{LinkLog, Log};
use crate::phases::take_turn;
use crate::serve_mode::ServeMode;
use crate::sessions::Sessions;
use crate::turn_input::TurnInput;
use crate::waiting::waits;
use crate::watch::Watch;
use chaos_conn::ConnConfig;
use chaos_file::{CONTACT, Store};
use chaos_host::Host;
use chaos_link::{Carriage, Link};
use chaos_node::{
    Interval, Node, NodeFault, RetransmitTimer, Turn, TurnEnd, begin, end_of, look_at_conns,
    pass_indices,
};
use chaos_packet::PktNum;
use std::alloc::Global;

/// A node that listens to FILE, with a session for each of its host's connections.
#[derive(Drop)]
pub struct Server {
    /// Its host, which listens to FILE, and what that needs for its turns.
    pub node: Node,
    /// The sessions of the host's slots.
    pub sessions: Sessions,
    /// Where the files of its store take memory.
    pub alloc: Global,
    /// The timers of the host's slots: when a connection sends again what it keeps.
    pub timers: [RetransmitTimer; SERVER_CONNS],
    pub ghost alike: { length sessions ≡ length node.host.slots },
}

impl Server {
    ghost use Rattle.std.specs.Prelude.{[], min, replicate, IfOk};
    ghost use Rattle.chaos_file.specs.Store.{change};
    ghost use Rattle.chaos_packet.specs.Count.{Rose};
    ghost use Rattle.chaos_link.specs.Link.{Asks};
    ghost use Rattle.chaos_node.specs.declared.limits.TheConstants.{TURN_ROOM};
    ghost use Rattle.file_server.specs.Sessions.{new_serving};
    ghost use Rattle.file_server.specs.Logged.{IsReadOf, LogsTurn};
    ghost use Rattle.chaos_node.specs.Passing.{after_passing};
    ghost use Rattle.chaos_node.specs.Timer.{looked_slots, new_timer};
    ghost use Rattle.file_server.specs.Serve.{mode_of};
    ghost use Rattle.file_server.specs.Service.{listening_host, service_of, service_options};
    ghost use Rattle.file_server.specs.Turn.{RunsTurn};
    ghost use Rattle.file_server.specs.Waiting.{waits};
    ghost use Rattle.file_server.specs.Watch.{watched, watched_slots};

    /// A server with this address, whose connections have this configuration, and whose packets go
    /// out by the carriage. A connection sends again what it keeps after the interval.
    ///
    /// # Errors
    /// `NoMemory`.
    pub fn new(
        alloc: Global,
        address: u16,
        config: ConnConfig,
        carriage: Carriage,
        interval: Interval,
    ) -> Result<Self, NodeFault>
        requires { 0 < address }
        // It fails only when out of memory.
        ensures faults { IfErr result (λ fault. fault ≡ NodeFault.NoMemory) }
        // The host listens to FILE and nothing else, at this address, with `SERVER_CONNS`
        // connections of this configuration to come.
        ensures host { IfOk result (λ server. server.node.host ≡ listening_host config address) }
        // Each of the `SERVER_CONNS` slots has a new session.
        ensures sessions { IfOk result
            (λ server. server.sessions ≡ replicate SERVER_CONNS new_serving) }
        // Nothing waits in the outbox, which has room for `TURN_ROOM` packets.
        ensures out { IfOk result
            (λ server. server.node.out ≡ record { packets = []; cap = TURN_ROOM }) }
        // The server sends by the carriage that it was given.
        ensures carriage { IfOk result (λ server. server.node.carriage ≡ carriage) }
        // Each slot has a new timer, which goes by the interval.
        ensures timers { IfOk result
            (λ server. server.timers ≡ replicate SERVER_CONNS (new_timer interval)) }
    {
        let Ok(mut host) = Host::new(alloc, address, SERVER_CONNS, config) else {
            return Err(NodeFault::NoMemory);
        };
        let _ = host.listen(CONTACT);
        let Ok(sessions) = Sessions::new(alloc, SERVER_CONNS) else {
            return Err(NodeFault::NoMemory);
        };
        match Node::new(alloc, host, carriage) {
            Ok(node) => Ok(Server {
                node,
                sessions,
                alloc,
                timers: [RetransmitTimer::new(interval); SERVER_CONNS],
            }),
            Err(_) => Err(NodeFault::NoMemory),
        }
    }

    /// Passes over so many indices of each slot, which an older process may have had. Nothing waits
    /// in the outbox yet.
    pub(crate) fn pass_indices(&mut self, to: u16, count: u8)
        requires { self.old.node.out.packets ≡ [] }
        ensures host { self.new.node.host
            ≡ after_passing to count self.old.node.host }
        ensures sessions { self.new.sessions ≡ self.old.sessions }
        ensures out { self.new.node.out ≡ self.old.node.out }
        ensures carriage { self.new.node.carriage ≡ self.old.node.carriage }
        ensures timers { self.new.timers ≡ self.old.timers }
    {
        pass_indices(&mut self.node.host, to, count, &mut self.node.out);
    }

    /// One turn, as [`run_turn`](crate::run_turn) makes it. By carriage 2 each connection is served
    /// in a burst ([`ServeMode`]), and the replies to it go out together. The turn also closes each
    /// connection whose peer acknowledged nothing in the first 30 seconds. A new connection numbers
    /// what it writes from `start` on. If nothing in front is to be served, the turn may wait for a
    /// datagram, where `may_wait` allows it. The log gets what each command changed.
    ///
    /// First each timer looks at the connection in its slot. A tick that the slot's timer holds
    /// back is left out.
    pub fn turn<S: Store, L: Link, G: LinkLog<L>>(
        &mut self,
        store: &mut S,
        link: &mut L,
        start: PktNum,
        now: u64,
        may_wait: bool,
        log: &mut G,
    ) -> TurnEnd
        // The turn ends by `LinkFault` exactly where the link's count of failures rose.
        ensures fault { (result ≡ TurnEnd.LinkFault) ↔ Rose (L.count link.old) (L.count link.new) }
        // Each timer looked at the connection that its slot had before the turn, at this moment.
        ensures timers { self.new.timers
            ≡ looked_slots now self.old.node.host (length self.old.node.host.slots) self.old.timers }
        // The turn is the definition's at this moment, by the server's carriage. By carriage 1 each
        // slot is served once. By carriage 2 each is served in a burst, whose packets go out at
        // once. A connection that the turn accepts numbers what it writes from `start`. The turn
        // also closes, with an empty text, each connection that was served first `SILENT_MILLIS`
        // ago or earlier and whose peer has receipted and acknowledged nothing. Each slot is ticked
        // whose timer, after its look, doesn't hold the tick back. The one receive waits exactly
        // where `may_wait` allows it, nothing in front can be served, and no tick sends kept items
        // again.
        ensures serves { RunsTurn (change S.contents S.may_give S.count)
            (mode_of self.old.node.carriage) (service_options self.new.timers)
            (Asks (L.asked link.old) (L.asked link.new)) (waits self.new.timers now may_wait self.old.node.host)
            self.old.node.carriage start now (service_of self.old store.old (L.queue link.old))
            (service_of self.new store.new (L.queue link.new)) result }
        // The turn logged first which host's datagram came, by the datagram's first packet, and
        // from which UDP address. That is what the log reads of the link, after the link was asked
        // to send what waited and then once to receive. Then the turn logged what each command that
        // it served changed, in the order in which it served them. The log has the peer of the
        // connection whose command it was, the name that this connection's user gave, and the
        // change by the whole promise of `Session::apply_into`. For all else that the turn did, it
        // logged nothing.
        ensures logs { LogsTurn (change S.contents S.may_give S.count)
            (mode_of self.old.node.carriage) (service_options self.new.timers)
            (IsReadOf G.reads (λ at. Asks (L.asked link.old) (L.asked at)))
            (Asks (L.asked link.old) (L.asked link.new)) (waits self.new.timers now may_wait self.old.node.host)
            self.old.node.carriage start now
            (service_of self.old (store.old, G.logged log.old) (L.queue link.old))
            (service_of self.new (store.new, G.logged log.new) (L.queue link.new)) result }
        // The server keeps its carriage.
        ensures carriage { self.new.node.carriage ≡ self.old.node.carriage }
    {
        look_at_conns(&mut self.timers, &self.node.host, now);
        let may_wait = waits(&self.timers, now, may_wait, &self.node.host);
        let node = &mut self.node;
        let carriage = node.carriage;
        let begun = begin(link, &mut node.out, carriage, &mut node.buffer, may_wait);
        // A datagram of a host is logged before anything is made of it.
        if let Some(Ok(packets)) = &begun.came {
            match packets.source() {
                Some(address) if address != 0 => log.heard(&*link, address),
                _ => {}
            }
        }
        let mut turn = Turn {
            host: &mut node.host,
            link,
            out: &mut node.out,
            carriage,
            now,
        };
        let input = TurnInput {
            alloc: self.alloc,
            start,
            mode: ServeMode::of(carriage),
            silence: Some(SILENT_MILLIS),
            timers: &self.timers,
        };
        let sent = take_turn(
            &mut turn,
            &mut self.sessions,
            store,
            begun.came,
            &input,
            log,
        );
        end_of(begun.failures, turn.link.failures(), begun.worked, sent)
    }

    /// Looks at each slot, and logs the connections that opened and ended since the last look.
    pub(crate) fn watch<G: Log>(&self, watch: &mut Watch, log: &mut G)
        ensures { watched watch.new.seen (G.logged log.new)
            ≡ watched_slots self.now.timers self.now.node.host self.now.sessions
            (min SERVER_CONNS (length self.now.node.host.slots))
            (watched watch.old.seen (G.logged log.old)) }
    {
        for place in 0..SERVER_CONNS.min(self.node.host.conns()) {
            watch.look(&self.node.host, &self.sessions, &self.timers, place, log);
        }
    }
}
