//! Whether there is something to serve.
ghost use Rattle.std.specs.Prelude.{◌≡◌, Some};
ghost use Rattle.chaos_file.specs.ServeCalls.{can_serve, is_served};
ghost use Rattle.chaos_file.specs.ServeWork.{work_of};

use crate::serve_task::{Task, task_of};
use chaos_conn::Conn;
use chaos_host::{ConnId, Host};

/// Whether [`serve_one`](crate::serve_one) has something to do. The cost is a look at what is in
/// front.
pub fn can_serve(host: &Host, id: ConnId) -> bool
    // The answer is whether `serve_one` would serve an item of this connection: a command in front
    // whose reply has room, or an EOF.
    ensures { result ≡ can_serve host.now id }
{
    match host.conn(id) {
        Ok(conn) => can_serve_conn(conn),
        Err(_) => false,
    }
}

/// Whether [`serve_conn`](crate::serve_conn) has something to do.
pub fn can_serve_conn(conn: &Conn) -> bool
    // The answer is whether `serve_conn` would serve an item of this end: a command in front whose
    // reply has room, or an EOF.
    ensures { result ≡ is_served (Some (work_of conn.now)) }
{
    match task_of(conn) {
        Task::LastItem | Task::Command(_) => true,
        _ => false,
    }
}
