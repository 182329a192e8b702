//! FILE over one connection.
ghost use Rattle.std.specs.Prelude.{◌≡◌, ◌≤◌};
ghost use Rattle.chaos_packet.specs.Outbox.{room_of};
ghost use Rattle.chaos_file.specs.Store.{change};
ghost use Rattle.chaos_file.specs.Serve.{ActsTwice, ServesConn, after_reply, after_eof};

use crate::serve_task::{Task, task_of};
use crate::served::Served;
use crate::{Session, Store};
use chaos_conn::Conn;
use chaos_packet::{Opcode, Outbox};
use std::alloc::Global;

/// Reads the command in front, and writes its reply.
#[tactic(auto, using(crate::proofs::Twice::put_twice, crate::proofs::Twice::length_both))]
fn answer(conn: &mut Conn, reply: &[u8], now: u64, out: &mut Outbox) -> Served
    requires { 2 ≤ room_of out.old }
    ensures { ActsTwice conn.old (after_reply conn.old reply.now now)
        conn.new out.old out.new result }
{
    let _command = conn.read_done(out);
    let _number = conn.write(Opcode::DATA, reply, now, out);
    Served::Replied
}

/// Reads the EOF in front.
fn finish(conn: &mut Conn, out: &mut Outbox) -> Served
    requires { 2 ≤ room_of out.old }
    ensures { ActsTwice conn.old (after_eof conn.old) conn.new out.old out.new result }
{
    let _eof = conn.read_done(out);
    Served::Eof
}

/// Serves the item in front of a connection: one command at most.
///
/// Only an open end is served. A data item is a command, and is taken only if its reply can be
/// written. Its bytes are carried out where they lie, then the item is read, and then the reply is
/// written. A command that was read is never carried out again, whatever copies of it come.
///
/// Each case that changes nothing has its own answer: see [`Served`].
/// [`law_reply_taken`](crate::law_reply_taken) says that the reply is taken.
///
/// The call needs room for the two packets that it puts out at most: a status and the reply. The
/// cost is that of the command. [`Session::apply`] says where a command's bytes are copied. A
/// reply's bytes are copied once into the packet that is kept, and once into the packet that goes
/// out. Only `apply` takes memory.
pub fn serve_conn<S: Store>(
    alloc: Global,
    conn: &mut Conn,
    session: &mut Session,
    store: &mut S,
    now: u64,
    out: &mut Outbox,
) -> Served
    requires { 2 ≤ room_of out.old }
    // If the end isn't open, the answer is Ended. If nothing is in front, the answer is Idle. If a
    // command has no room for its reply, the answer is NoRoom. In these cases nothing changes. Any
    // other command is applied once, by the whole promise of `Session::apply`, is read, and is
    // answered by one packet of opcode 200. An EOF is read and not answered.
    ensures { ServesConn (change S.contents S.may_give S.count store.old store.new)
        session.old session.new conn.old now conn.new out.old out.new result }
{
    match task_of(conn) {
        Task::NotOpen(state) => Served::Ended(state),
        Task::Nothing => Served::Idle,
        Task::Full => Served::NoRoom,
        Task::LastItem => finish(conn, out),
        Task::Command(body) => {
            let reply = session.apply(alloc, store, body);
            answer(conn, reply.as_slice(), now, out)
        }
    }
}
