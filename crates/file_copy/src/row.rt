//! Commands in a row, each spelled when it is sent.
ghost use Rattle.std.specs.Prelude.{◌≡◌, ◌≤◌, ◌<◌, ◌*◌, length, take, drop};
ghost use Rattle.chaos_file.specs.Views.{command_view, CommandFits};
ghost use Rattle.file_copy.specs.Copy.{chunk};
ghost use Rattle.file_copy.specs.Row.{CommandsFit, command_at, handle_of, request_command};

use crate::limits::HANDLE;
use chaos_file::{Command, CommandBytes, MAX_CHUNK, write_command};
use itoa::Buffer;

/// What the commands of a row are.
#[derive(Clone, Copy)]
pub enum Commands<'a> {
    /// One command.
    One(Command<'a>),
    /// A file is put at this path: OPEN, and then the file's bytes in WRITEs.
    Put(&'a [u8], &'a [u8]),
    /// An open file of so many pieces is got: a READ for each, one that is answered EOF, and CLOSE.
    Get(usize),
}

/// A row of commands, named by numbers from `first` on.
#[derive(Clone, Copy)]
pub struct Row<'a> {
    pub first: u32,
    pub count: usize,
    pub commands: Commands<'a>,
}

/// At most so many bytes of the front.
fn at_most(bytes: &[u8], most: usize) -> &[u8]
    ensures value { result.now ≡ take most bytes.now }
    ensures short { length result.now ≤ most }
{
    if bytes.len() <= most {
        bytes
    } else {
        &bytes[..most]
    }
}

/// What stands behind so many bytes.
fn behind(bytes: &[u8], from: usize) -> &[u8]
    ensures { result.now ≡ drop from bytes.now }
{
    if from >= bytes.len() {
        &[]
    } else {
        &bytes[from..]
    }
}

/// A piece of a file.
fn piece(bytes: &[u8], i: usize) -> &[u8]
    requires { i ≤ 1000000 }
    ensures value { result.now ≡ chunk bytes.now i }
    ensures short { length result.now ≤ MAX_CHUNK }
{
    at_most(behind(bytes, MAX_CHUNK * i), MAX_CHUNK)
}

/// The command at a place of the row.
fn command_at<'a>(commands: Commands<'a>, i: usize) -> Command<'a>
    requires place { i ≤ 1000000 }
    requires fits { CommandsFit commands }
    ensures value { command_view result ≡ command_at commands.entry i }
    ensures fits { CommandFits (command_view result) }
{
    match commands {
        Commands::One(command) => command,
        Commands::Put(path, _) if i == 0 => Command::OpenWrite(path),
        Commands::Put(_, bytes) => Command::Write(piece(bytes, i - 1)),
        Commands::Get(pieces) if i <= pieces => Command::Read,
        Commands::Get(_) => Command::Close,
    }
}

/// The handle that a command is sent with.
fn handle_of(command: &Command<'_>) -> &'static [u8]
    ensures value { result.now ≡ handle_of (command_view command.now) }
    ensures short { length result.now ≤ 8 }
{
    match command {
        Command::Login(_) | Command::Rename(_, _) | Command::Delete(_) => b"",
        _ => HANDLE,
    }
}

/// Writes the command that is sent at a place of the row, which is named by this number, in place
/// of what was there.
pub fn spell_at(commands: Commands<'_>, i: usize, tid: u32, out: &mut CommandBytes)
    requires place { i ≤ 1000000 }
    requires tid { tid < 100000000 }
    requires fits { CommandsFit commands }
    ensures { out.new.items ≡ request_command (command_at commands.entry i) tid }
{
    let mut digits = Buffer::new();
    let name = digits.format(tid as usize).as_bytes();
    let command = command_at(commands, i);
    write_command(name, handle_of(&command), command, out);
}
