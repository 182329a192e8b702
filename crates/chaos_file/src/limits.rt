//! The limits of the language, each with its unit.
ghost use Rattle.std.specs.Prelude.{◌≡◌};
ghost use Rattle.chaos_file.specs.declared.limits.TheConstants.{NL, MAX_TID, MAX_HANDLE, MAX_NAME, MAX_PATH, MAX_CHUNK, MAX_FILE, MAX_HANDLES, MAX_REPLY};

use chaos_packet::MAX_DATA;

/// The byte that ends a line: octal 215, the Return of the Lisp machine.
pub const NL: u8 = 0x8D;

/// The most bytes of a tid, the name that a user gives a command.
pub const MAX_TID: usize = 8;

/// The most bytes of a handle's name.
pub const MAX_HANDLE: usize = 8;

/// The most bytes of a user's name.
pub const MAX_NAME: usize = 16;

/// The most bytes of a path.
pub const MAX_PATH: usize = 64;

/// The most bytes of a file in one command or reply.
pub const MAX_CHUNK: usize = 448;

/// The most bytes of a file.
pub const MAX_FILE: usize = 1048576;

/// The most handles of a session that are open at a time.
pub const MAX_HANDLES: usize = 8;

/// The most bytes of a reply: those of a packet's data.
pub const MAX_REPLY: usize = MAX_DATA;

/// The most bytes of a reply's front: tid, space, handle, space.
pub(crate) const MAX_FRONT: usize = 18;

/// The limits as numerals.
pub fn law_limits()
    // A line ends with the byte 215 octal.
    ensures line_end { NL ≡ 141 }
    // A tid and a handle's name have at most 8 bytes, a user's name 16, a path 64.
    ensures tid { MAX_TID ≡ 8 }
    ensures handle { MAX_HANDLE ≡ 8 }
    ensures name { MAX_NAME ≡ 16 }
    ensures path { MAX_PATH ≡ 64 }
    // A command and a reply have at most 448 bytes of a file, and a file has at most 1,048,576.
    ensures chunk { MAX_CHUNK ≡ 448 }
    ensures file { MAX_FILE ≡ 1048576 }
    // A session has at most 8 handles, and a reply 488 bytes.
    ensures handles { MAX_HANDLES ≡ 8 }
    ensures reply { MAX_REPLY ≡ 488 }
{}
