//! The times that a client keeps to.
ghost use Rattle.std.specs.Prelude.{◌≡◌};
ghost use Rattle.file_client.specs.declared.limits.TheConstants.{COMMAND_TURNS, END_TURNS, OPEN_MILLIS, OPEN_SHARE};

/// For how many milliseconds a client waits at most for the OPN of its first connection, before it
/// asks for another connection. Its server may still hold this address and index for a client that
/// was killed, and drops a request for them with another number. Each further wait is twice as
/// long, so that a connection opens over a network of any delay.
pub const OPEN_MILLIS: u64 = 2_000;

/// The first OPN is waited for at most this part of the time for which a reply is waited for: a
/// fourth.
pub const OPEN_SHARE: u64 = 4;

/// The turns that a command usually waits for its reply, those before the connection is open and
/// has room among them.
pub const COMMAND_TURNS: u32 = 1_000;

/// The turns that an EOF behind the last command waits to be read.
pub const END_TURNS: u32 = 100;

/// The times and numbers of a client as numerals.
pub fn law_limits()
    // The first OPN is waited for 2,000 milliseconds at most.
    ensures open { OPEN_MILLIS ≡ 2000 }
    // The first OPN is waited for a fourth of the patience, if that is less.
    ensures share { OPEN_SHARE ≡ 4 }
    // A command usually waits for its reply for 1,000 turns.
    ensures command { COMMAND_TURNS ≡ 1000 }
    // An EOF behind the last command waits for 100 turns.
    ensures end { END_TURNS ≡ 100 }
{}
