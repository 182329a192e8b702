//! The numbers that a copy keeps to.
ghost use Rattle.std.specs.Prelude.{◌≡◌};
ghost use Rattle.file_copy.specs.declared.limits.TheConstants.{MAX_FIRST, MOST_TURNS, REPLY_MILLIS, REPLY_TURNS};

/// The turns that a reply is waited for at least, where a talk has no patience of its own.
pub const REPLY_TURNS: u32 = 1_000;

/// The milliseconds that a reply is waited for at least, where a talk has no patience of its own.
pub const REPLY_MILLIS: u64 = 10_000;

/// The turns that a reply is waited for at most, where a clock counts and stands still.
pub const MOST_TURNS: u32 = u32::MAX;

/// The greatest number from which on a file's commands may be named.
pub const MAX_FIRST: u32 = 99_900_000;

/// The handle of the file that is copied.
pub const HANDLE: &[u8] = b"F";

/// How many commands of a file are in flight at first.
pub const FIRST_FLIGHT: usize = 8;

/// How many commands of a file are in flight after losses at least.
pub const LEAST_FLIGHT: usize = 2;

/// How many commands of a file are in flight at most: as many as the greatest window allows.
pub const MOST_FLIGHT: usize = 64;

/// The numbers as numerals.
pub fn law_limits()
    // A reply is waited for in 1,000 turns and 10 seconds at least, where the talk has no patience
    // of its own, and in 4,294,967,295 turns at most.
    ensures turns { REPLY_TURNS ≡ 1000 }
    ensures millis { REPLY_MILLIS ≡ 10000 }
    ensures most { MOST_TURNS ≡ 4294967295 }
    // The numbers of a file's commands begin with 99,900,000 at most.
    ensures first { MAX_FIRST ≡ 99900000 }
{}
