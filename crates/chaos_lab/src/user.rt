//! A user who takes turns at B.
ghost use Rattle.std.specs.Prelude.{◌≡◌, ℕ, ◌≤◌};
ghost use Rattle.chaos_packet.specs.Outbox.{room_of};
ghost use Rattle.chaos_conn.specs.View.{ConnView};
ghost use Rattle.chaos_lab.specs.Turn.{Turn, TakesTurn};

use chaos_conn::Conn;
use chaos_packet::Outbox;
use std::alloc::Global;

/// What a user did in a turn.
#[derive(Clone, Copy, Debug, PartialEq, Eq)]
pub enum Turned {
    /// Nothing, and the connection is as it was.
    Rested,
    /// It read the item in front.
    Read,
    /// It read the item in front, and then wrote an item.
    Replied,
}

/// A user of B's connection, such as a server. [`Lab::take_turn`](crate::Lab::take_turn) lends it
/// the connection for a turn.
pub trait User {
    /// Which turns the user may take, and what becomes of it: the user before and after the turn,
    /// the connection before it, the moment and the turn.
    ghost may_turn: { Self → Self → ConnView → ℕ → Turn → Type 0 };

    /// Takes a turn. The outbox has room for two packets.
    fn turn(&mut self, alloc: Global, conn: &mut Conn, now: u64, out: &mut Outbox) -> Turned
        requires { 2 ≤ room_of out.old }
        // The user reads the item in front, or reads it and writes one item, or rests.
        ensures { (turn : Turn) × may_turn self.old self.new conn.old now turn
            × TakesTurn conn.old now turn conn.new out.old out.new result };
}
