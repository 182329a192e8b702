//! What is to be done at an end.
ghost use Rattle.std.specs.Prelude.{◌≡◌};
ghost use Rattle.chaos_file.specs.ServeTask.{work_in};
ghost use Rattle.chaos_file.specs.ServeWork.{work_of};

use chaos_conn::{Conn, State};
use chaos_packet::Kind;

/// What is to be done at an end. A command's bytes are lent from where the connection holds them.
#[derive(Drop)]
pub(crate) enum Task<'a> {
    NotOpen(State),
    Nothing,
    Full,
    LastItem,
    Command(&'a [u8]),
}

/// What is to be done at an end, by its state, its item in front, and whether it takes a write.
pub(crate) fn task_of(conn: &Conn) -> Task<'_>
    ensures { work_in result ≡ work_of conn.now }
{
    let state = conn.state();
    if !state.is_open() {
        return Task::NotOpen(state);
    }
    let Some(item) = conn.front() else {
        return Task::Nothing;
    };
    match item.op.kind() {
        Kind::Eof => Task::LastItem,
        _ if conn.can_write() => Task::Command(item.bytes()),
        _ => Task::Full,
    }
}
