//! FILE over one of a host's connections.
ghost use Rattle.std.specs.Prelude.{◌≡◌, ◌≤◌};
ghost use Rattle.chaos_packet.specs.Outbox.{room_of};
ghost use Rattle.chaos_file.specs.Store.{change};
ghost use Rattle.chaos_host.specs.Acted.{HostDoes};
ghost use Rattle.chaos_file.specs.ServeCalls.{after_eof_at, after_reply_at};
ghost use Rattle.chaos_file.specs.ServeHost.{ServesAndReports, ServesOne};

use crate::change::clear;
use crate::serve_task::{Task, task_of};
use crate::served::Served;
use crate::{Change, Reply, Session, Store};
use chaos_host::{ConnId, Host};
use chaos_packet::{Opcode, Outbox};
use std::alloc::Global;

/// Reads the EOF in front.
fn finish_at(host: &mut Host, id: ConnId, out: &mut Outbox) -> Served
    requires { 2 ≤ room_of out.old }
    ensures { HostDoes host.old 1 (after_eof_at host.old id) host.new out.old out.new result }
{
    let _eof = host.read_done(id, out);
    Served::Eof
}

/// What serving a connection takes beside it: where memory is taken, and the moment in
/// milliseconds.
#[derive(Drop)]
pub struct ServeAt {
    pub alloc: Global,
    pub moment: u64,
}

impl Session {
    /// Serves the item in front of one of a host's connections as [`serve_one`] does, and says in a
    /// place of the caller's what the command changed. See [`Session::apply_into`]. Only a command
    /// gets room for a reply, so that a connection with nothing in front is passed over by one look.
    pub fn serve_and_report<S: Store>(
        &mut self,
        at: &ServeAt,
        host: &mut Host,
        id: ConnId,
        store: &mut S,
        out: &mut Outbox,
        made: &mut Option<Change>,
    ) -> Served
        requires { 2 ≤ room_of out.old }
        // The call does what `serve_one` does. Where it answered a command, the change is that of
        // the command and the reply that was written, by the whole promise of
        // `Session::apply_into`. In all other cases there is no change.
        ensures { ServesAndReports (change S.contents S.may_give S.count store.old store.new)
            self.old self.new made.new host.old id at.now.moment host.new out.old out.new result }
    {
        clear(made);
        let Ok(conn) = host.conn(id) else {
            return Served::NoSuchConnection;
        };
        match task_of(conn) {
            Task::NotOpen(state) => Served::Ended(state),
            Task::Nothing => Served::Idle,
            Task::Full => Served::NoRoom,
            Task::LastItem => finish_at(host, id, out),
            Task::Command(body) => {
                let mut reply = Reply::new();
                self.apply_into(at.alloc, store, body, &mut reply, made);
                let _command = host.read_done(id, out);
                let _number = host.write(id, Opcode::DATA, reply.as_slice(), at.moment, out);
                Served::Replied
            }
        }
    }
}

/// Serves the item in front of one of a host's connections, one command at most. Answers and cost
/// are those of [`serve_conn`](crate::serve_conn), and the call needs room for two packets. It is
/// [`Session::serve_and_report`] without the change.
pub fn serve_one<S: Store>(
    alloc: Global,
    host: &mut Host,
    id: ConnId,
    session: &mut Session,
    store: &mut S,
    now: u64,
    out: &mut Outbox,
) -> Served
    requires { 2 ≤ room_of out.old }
    // At the host's connection this does what `serve_conn` does, and no other connection changes.
    // If no connection in use has the index, the answer is NoSuchConnection, and nothing changes.
    ensures { ServesOne (change S.contents S.may_give S.count store.old store.new)
        session.old session.new host.old id now host.new out.old out.new result }
{
    let at = ServeAt { alloc, moment: now };
    let mut made = None;
    session.serve_and_report(&at, host, id, store, out, &mut made)
}
