//! A session for each slot of a host.
ghost use Rattle.std.specs.Prelude.{◌≡◌, ◌<◌, ◌≤◌, ℕ, [], IfOk, false, length, option_map, replicate};
ghost use Rattle.chaos_packet.specs.Outbox.{room_of};
ghost use Rattle.chaos_host.specs.View.{id_at};
ghost use Rattle.chaos_file.specs.Store.{change};
ghost use Rattle.file_server.specs.Logged.{logged_use};
ghost use Rattle.file_server.specs.Serve.{SessionServesBy, SlotDoes};
ghost use Rattle.file_server.specs.Sessions.{HasNoFiles, Serving, first_serving, new_serving, serving_at, serving_of, without_files};
ghost use Rattle.file_server.specs.Slots.{given_back, given_back_in};
ghost use Rattle.file_server.specs.Watch.{peer_at};

use crate::log::Log;
use crate::watch::peer_of;
use chaos_file::{ServeAt, Served, Session, Store};
use chaos_host::{ConnId, Host};
use chaos_packet::Outbox;
use std::alloc::{AllocError, Global};
use std::marker::Model;

/// A slot's session, the connection that it serves, whether that connection's EOF was served, and
/// since when it is served.
#[derive(Drop)]
pub(crate) struct SlotSession {
    pub(crate) id: Option<ConnId>,
    pub(crate) eof: bool,
    /// The moment at which the connection was served first.
    since: u64,
    /// How many commands were replied to; no contract sees it.
    commands: u64,
    /// Whether its session may have files open: it had some when it was served last, and they were not
    /// given back since.
    may_hold: bool,
    // In memory of its own: a turn walks over the slots in use, and looks at few of the sessions.
    pub(crate) session: Box<Session, Global>,
    ghost bare: { may_hold ≡ false → session.value.handles ≡ [] },
}

impl Model for SlotSession {
    ghost use Rattle.file_server.specs.Sessions.{Serving};

    ghost Value = { Serving };

    ghost view = { λ k.
        record { id = k.id; session = k.session.value; eof = k.eof; since = k.since } };
}

/// A session for each slot of a host, with the connection that it serves. A contract sees the
/// sessions in the order of the slots.
///
/// A turn gives a slot a new session where another connection is there, and gives the files of a
/// session back where its connection has ended.
#[derive(Drop)]
pub struct Sessions {
    pub(crate) kept: Vec<SlotSession>,
    /// The sessions from this place on have no files open.
    pub(crate) files_below: usize,
    ghost within: { files_below ≤ length kept.items },
    ghost bare: { (place : ℕ) → files_below ≤ place → HasNoFiles (serving_at kept.items place) },
}

impl Model for Sessions {
    ghost use Rattle.std.specs.Prelude.{List};
    ghost use Rattle.file_server.specs.Sessions.{Serving};

    ghost Value = { List Serving };

    ghost view = { λ s. s.kept.items };
}

impl Sessions {
    /// A new session for each of so many slots, which serves no connection yet. A host's turn needs
    /// as many as [`chaos_host::Host::conns`].
    ///
    /// # Errors
    /// No memory for the sessions.
    pub fn new(alloc: Global, conns: usize) -> Result<Self, AllocError>
        // There are as many new sessions as were asked for.
        ensures { IfOk result (λ sessions. sessions ≡ replicate conns new_serving) }
    {
        let mut kept = Vec::with_capacity(alloc, conns)?;
        for i in 0..conns {
            kept.push(SlotSession::new(alloc)?)?;
        }
        Ok(Sessions {
            kept,
            files_below: 0,
        })
    }

    /// The number of slots, for each of which there is a session.
    pub fn conns(&self) -> usize
        // The result is the number of sessions.
        ensures { result ≡ length self.now }
    {
        self.kept.len()
    }

    /// The name that the user of the connection in a slot gave, if any. If the slot is free, the
    /// connection is the last one that was served there.
    pub fn name(&self, place: usize) -> Option<&[u8]>
        requires { place < length self.now }
        // The result is the name that the slot's session has, lent, or `None` where it has none.
        ensures { option_map (λ name. name.now) result ≡ (serving_at self.now place).session.name }
    {
        self.kept[place].session.name()
    }

    /// Whether the EOF of the connection in a slot was served. If the slot is free, the connection
    /// is the last one that was served there.
    pub fn eof(&self, place: usize) -> bool
        requires { place < length self.now }
        // The result says whether an EOF was served of the connection that the slot's session is
        // of.
        ensures { result ≡ (serving_at self.now place).eof }
    {
        self.kept[place].eof
    }

    /// The moment at which the connection in a slot was served first, or the last one that was
    /// served there. It is 0 where none was.
    pub(crate) fn since(&self, place: usize) -> u64
        requires { place < length self.now }
        ensures { result ≡ (serving_at self.now place).since }
    {
        self.kept[place].since
    }

    /// How many files are open in a slot. After a turn none are open in a slot without a
    /// connection.
    pub fn open_files(&self, place: usize) -> usize
        requires { place < length self.now }
        // The result is how many files the slot's session has open.
        ensures { result ≡ length (serving_at self.now place).session.handles }
    {
        self.kept[place].session.open_files()
    }

    /// Gives the files of each slot back that has no connection any more. The name of its user and
    /// its counts stay for the log of its end. In most turns no file is open, and nothing is looked
    /// at.
    pub(crate) fn give_back(&mut self, host: &Host)
        requires { length self.old ≡ length host.now.slots }
        ensures { self.new ≡ given_back host.now (length host.now.slots) self.old }
    {
        let mut below = 0;
        for place in 0..self.files_below {
            if self.kept[place].give_back(host, place) {
                below = place + 1;
            }
        }
        self.files_below = below;
    }

    /// How many commands of the connection in a slot were replied to. If the slot is free, the
    /// connection is the last one that was served there. The count is for reports, and no clause
    /// sees it.
    pub fn commands(&self, place: usize) -> u64
        requires { place < length self.now }
    {
        self.kept[place].commands
    }
}

impl SlotSession {
    /// A new session, which serves no connection yet.
    fn new(alloc: Global) -> Result<Self, AllocError>
        ensures { IfOk result (λ session. session ≡ new_serving) }
    {
        Ok(SlotSession {
            id: None,
            eof: false,
            since: 0,
            commands: 0,
            may_hold: false,
            session: Box::new(alloc, Session::new())?,
        })
    }

    /// Begins anew: with a new session for this connection, from a moment on.
    fn begin(&mut self, id: ConnId, now: u64)
        ensures { self.new ≡ first_serving id now }
    {
        self.id = Some(id);
        self.eof = false;
        self.since = now;
        self.commands = 0;
        *self.session = Session::new();
    }

    /// Serves a connection once: with a new session, unless it is the one that was served so far.
    /// Keeps that an EOF was served, or counts the command; and keeps whether files are open. Logs
    /// what the command changed.
    pub(crate) fn serve<S: Store, G: Log>(
        &mut self,
        host: &mut Host,
        id: ConnId,
        store: &mut S,
        out: &mut Outbox,
        at: &ServeAt,
        log: &mut G,
    )
        requires { 2 ≤ room_of out.old }
        ensures { SessionServesBy
            (logged_use (change S.contents S.may_give S.count store.old store.new)
            (G.logged log.old) (G.logged log.new) (peer_at host.old id))
            at.now.moment id (serving_of id at.now.moment self.old)
            (λ serving acted. SlotDoes serving self.new host.old acted host.new out.old out.new)
            host.old }
    {
        let peer = peer_of(host, id);
        if self.id != Some(id) {
            self.begin(id, at.moment);
        }
        let session = &mut *self.session;
        let mut made = None;
        let served = session.serve_and_report(at, host, id, store, out, &mut made);
        match served {
            Served::Eof => self.eof = true,
            Served::Replied => self.commands = self.commands.saturating_add(1),
            _ => {}
        }
        self.may_hold = self.session.open_files() > 0;
        if let Some(change) = &made {
            log.changed(peer, self.session.name(), change, store.cause());
        }
    }

    /// Gives its files back, where its slot has no connection. Says whether it may have files open
    /// still.
    fn give_back(&mut self, host: &Host, place: usize) -> bool
        ensures given { self.new ≡ given_back_in (id_at host.now place) self.old }
        ensures holds { result ≡ false → HasNoFiles self.new }
    {
        if self.may_hold && host.id_of(place).is_none() {
            self.drop_files();
        }
        self.may_hold_files()
    }

    /// Whether its session may have files open.
    pub(crate) fn may_hold_files(&self) -> bool
        ensures { result ≡ false → HasNoFiles self.now }
    {
        self.may_hold
    }

    /// Gives the files back that its session has open.
    fn drop_files(&mut self)
        ensures { self.new ≡ without_files self.old }
    {
        self.session.drop_files();
        self.may_hold = false;
    }
}
