//! The numbers that the engines keep to.
ghost use Rattle.std.specs.Prelude.{◌≡◌};
ghost use Rattle.chaosd_ask.specs.declared.limits.TheConstants.{LOOP_CLIENT, LOOP_SERVER, LOOP_TURN};

use chaos_packet::{Opcode, PktNum};

/// No host's address. Of nobody no connection is asked for, so that a run ends at its first
/// command.
pub const NOBODY: u16 = 0;

/// The client's address in `loop`.
pub const LOOP_CLIENT: u16 = 0o401;

/// The server's address in `loop`.
pub const LOOP_SERVER: u16 = 0o402;

/// The client's first number in `loop`.
pub const LOOP_CLIENT_START: PktNum = PktNum(65_534);

/// The server's first number in `loop`.
pub const LOOP_SERVER_START: PktNum = PktNum(65_530);

/// The milliseconds of a turn in `loop`.
pub const LOOP_TURN: u64 = 10;

/// The addresses and the turn of `loop` as numerals.
pub fn law_limits()
    // The client of `loop` has the address 401 octal.
    ensures client { LOOP_CLIENT ≡ 257 }
    // The server of `loop` has the address 402 octal.
    ensures server { LOOP_SERVER ≡ 258 }
    // A turn of `loop` takes 10 milliseconds.
    ensures turn { LOOP_TURN ≡ 10 }
{}
