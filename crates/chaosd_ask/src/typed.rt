//! A command that is typed without its tid.
ghost use Rattle.std.specs.Prelude.{◌≡◌, ◌≤◌, ◌++◌, length};
ghost use Rattle.chaosd_ask.specs.Typed.{front_of, is_formed, is_formed_behind, no_command, tid_of, why_by_handle};
ghost use Rattle.chaosd_ask.specs.declared.typed.TheConstants.{MAX_TYPED};

use arrayvec::ArrayVec;
use chaos_file::{Parsed, parse_command};
use itoa::Buffer;
use std::fmt;
use std::fmt::{Display, Formatter};

/// The greatest number that a tid is made of: `T` and seven digits.
pub const MAX_TYPED: u32 = 9_999_999;

/// The most bytes of a command and of what is put in front of it.
const ROOM: usize = 512;

/// What is put in front of a command: a tid, and one space or two.
pub type Front = ArrayVec<u8, 16>;

/// Whether these bytes are a command of FILE. Its paths may be illegal.
fn is_formed(command: &[u8]) -> bool
    ensures { result ≡ is_formed command.now }
{
    matches!(
        parse_command(command),
        Parsed::Good(_, _, _) | Parsed::BadPath(_, _, _)
    )
}

/// Why a line that somebody types is no command of FILE.
#[derive(Clone, Copy, Debug, PartialEq, Eq)]
pub enum NoCommand {
    /// LOGIN stands where the handle does, since there is one space before it.
    LoginHandle,
    /// Anything else.
    Other,
}

impl Display for NoCommand {
    fn fmt<W: fmt::Write>(&self, f: &mut Formatter<W>) -> fmt::Result {
        f.write_str(match self {
            NoCommand::LoginHandle => {
                "LOGIN was read as a handle: a command without a handle has two spaces before its word, as in `T1  LOGIN LISPM`"
            }
            NoCommand::Other => "it is no command of FILE (help lists the commands)",
        })
    }
}

/// Why bytes with this handle are no command of FILE.
fn why_by_handle(handle: &[u8]) -> NoCommand
    ensures { result ≡ why_by_handle handle.now }
{
    if handle == b"LOGIN".as_slice() {
        NoCommand::LoginHandle
    } else {
        NoCommand::Other
    }
}

/// Why these bytes are no command of FILE, where they are none. The paths of a command may be
/// illegal.
pub fn no_command(command: &[u8]) -> Option<NoCommand>
    // There is a reason exactly where the bytes are no command of FILE. The reason names LOGIN where
    // that is the handle.
    ensures { result ≡ no_command command.now }
{
    match parse_command(command) {
        Parsed::BadHead => Some(NoCommand::Other),
        Parsed::NoWord(_, handle) | Parsed::Unknown(_, handle) | Parsed::BadForm(_, handle, _) =>
            Some(why_by_handle(handle)),
        Parsed::BadPath(_, _, _) | Parsed::Good(_, _, _) => None,
    }
}

/// Whether a command is one of FILE behind these bytes. A command that is too long is none.
fn is_formed_behind(front: &[u8], command: &[u8]) -> bool
    requires { length front.now ≤ 3 }
    ensures { result ≡ is_formed_behind front.now command.now }
{
    let mut whole: ArrayVec<u8, ROOM> = ArrayVec::new();
    if whole.try_extend_from_slice(front).is_err()
        || whole.try_extend_from_slice(command).is_err()
    {
        return false;
    }
    is_formed(whole.as_slice())
}

/// Writes the tid of this number and these spaces, in place of what was there.
fn write_tid(number: u32, spaces: &[u8], front: &mut Front)
    requires number { number ≤ MAX_TYPED }
    requires spaces { length spaces.now ≤ 2 }
    ensures { front.new.items ≡ tid_of number ++ spaces.now }
{
    let mut digits = Buffer::new();
    let digits = digits.format(number as usize).as_bytes();
    front.clear();
    let _ = front.try_push(b'T');
    let _ = front.try_extend_from_slice(digits);
    let _ = front.try_extend_from_slice(spaces);
}

/// Writes what is missing in front of a command that somebody typed without its tid, in place of
/// what was there: the tid of this number and a space, and another one where the command has no
/// handle. Nothing is written where nothing is missing.
pub fn write_front(command: &[u8], number: u32, front: &mut Front)
    requires { number ≤ MAX_TYPED }
    // The front is the tid and one space where that makes a command of FILE, or else the tid and
    // two spaces where that does. Otherwise there is none.
    ensures { front.new.items ≡ front_of command.now number }
{
    if is_formed_behind(b"T ", command) {
        write_tid(number, b" ", front);
    } else if is_formed_behind(b"T  ", command) {
        write_tid(number, b"  ", front);
    } else {
        front.clear();
    }
}
