//! What data are in FILE.
ghost use Rattle.std.specs.Prelude.{◌≡◌, ◌++◌, ◌==◌, ◌<◌, length, position, is_some, option_map, IfSome, OnOk};
ghost use Rattle.chaos_file.specs.Reply.{reply_view, said_view};
ghost use Rattle.chaos_file.specs.Views.{command_view};
ghost use Rattle.chaosd_show.specs.File.{command_line, command_said, command_words, error_said, file_text, handle_said, names_said, reply_line, reply_said, with_number, with_text};

use chaos_file::{Command, Parsed, ReplyParts, Said, parse_command, read_reply};
use chaosd_io::{NotWritten, WriteBuffer, put_decimal, put_text};

/// Writes the line of data that are a command or a reply of FILE, and nothing of other data.
#[tactic(auto, unfolding(crate::specs::File::file_text))]
pub fn put_file(out: &mut WriteBuffer, body: &[u8]) -> Result<(), NotWritten>
    ensures { OnOk result (out.new ≡ out.old ++ file_text body.now) }
{
    let reply = read_reply(body);
    match parse_command(body) {
        Parsed::Good(tid, handle, command) => {
            put_command(out, reply.is_some(), tid, handle, command)
        }
        _ => put_reply(out, reply),
    }
}

/// The words in front of a command's names.
fn command_words(is_reply: bool) -> &'static [u8]
    ensures { result.now ≡ command_words is_reply }
{
    if is_reply {
        b"file command or reply tid "
    } else {
        b"file command tid "
    }
}

/// Writes the line of a command, whose bytes may also be those of a reply.
#[tactic(auto, unfolding(crate::specs::File::command_line))]
fn put_command(
    out: &mut WriteBuffer,
    is_reply: bool,
    tid: &[u8],
    handle: &[u8],
    command: Command<'_>,
) -> Result<(), NotWritten>
    ensures { OnOk result (out.new
        ≡ out.old ++ command_line is_reply tid.now handle.now (command_view command.entry)) }
{
    put_names(out, command_words(is_reply), tid, handle)?;
    put_command_said(out, command)?;
    out.put(b"\n")
}

/// Writes the line of a reply, where there is one.
#[tactic(auto, unfolding(crate::specs::File::reply_line))]
fn put_reply(out: &mut WriteBuffer, reply: Option<ReplyParts<'_>>) -> Result<(), NotWritten>
    ensures { OnOk result (out.new ≡ out.old ++ reply_line (option_map reply_view reply.entry)) }
{
    let Some(ReplyParts { tid, handle, said }) = reply else {
        return Ok(());
    };
    put_names(out, b"file reply tid ", tid, handle)?;
    put_reply_said(out, said)?;
    out.put(b"\n")
}

/// Writes words, and bytes behind them as a text.
#[tactic(auto, unfolding(crate::specs::File::with_text))]
fn put_with_text(out: &mut WriteBuffer, words: &[u8], bytes: &[u8]) -> Result<(), NotWritten>
    ensures { OnOk result (out.new ≡ out.old ++ with_text words.now bytes.now) }
{
    out.put(words)?;
    put_text(out, bytes)
}

/// Writes words, and a number behind them.
#[tactic(auto, unfolding(crate::specs::File::with_number))]
fn put_with_number(out: &mut WriteBuffer, words: &[u8], n: usize) -> Result<(), NotWritten>
    ensures { OnOk result (out.new ≡ out.old ++ with_number words.now n) }
{
    out.put(words)?;
    put_decimal(out, n)
}

/// Writes words, and behind them the tid and the handle.
#[tactic(auto, unfolding(crate::specs::File::names_said))]
fn put_names(
    out: &mut WriteBuffer,
    words: &[u8],
    tid: &[u8],
    handle: &[u8],
) -> Result<(), NotWritten>
    ensures { OnOk result (out.new ≡ out.old ++ names_said words.now tid.now handle.now) }
{
    put_with_text(out, words, tid)?;
    put_handle(out, handle)
}

/// Writes the handle, where there is one.
fn put_handle(out: &mut WriteBuffer, handle: &[u8]) -> Result<(), NotWritten>
    ensures { OnOk result (out.new ≡ out.old ++ handle_said handle.now) }
{
    if handle.is_empty() {
        return Ok(());
    }
    put_with_text(out, b" handle ", handle)
}

/// Writes a command's words and parts: of the bytes of a file how many they are.
fn put_command_said(out: &mut WriteBuffer, command: Command<'_>) -> Result<(), NotWritten>
    ensures { OnOk result (out.new ≡ out.old ++ command_said (command_view command.entry)) }
{
    match command {
        Command::Login(name) => put_with_text(out, b" LOGIN user ", name),
        Command::OpenRead(path) => put_with_text(out, b" OPEN READ path ", path),
        Command::OpenWrite(path) => put_with_text(out, b" OPEN WRITE path ", path),
        Command::Read => out.put(b" READ"),
        Command::Write(bytes) => put_with_number(out, b" WRITE bytes ", bytes.len()),
        Command::Close => out.put(b" CLOSE"),
        Command::Rename(old, new) => {
            put_with_text(out, b" RENAME path ", old)?;
            put_with_text(out, b" new path ", new)
        }
        Command::Delete(path) => put_with_text(out, b" DELETE path ", path),
    }
}

/// Writes a reply's words and parts: of the bytes of a file how many they are.
fn put_reply_said(out: &mut WriteBuffer, said: Said<'_>) -> Result<(), NotWritten>
    ensures { OnOk result (out.new ≡ out.old ++ reply_said (said_view said.entry)) }
{
    match said {
        Said::LoggedIn(name) => put_with_text(out, b" LOGIN user ", name),
        Said::Opened(count) => put_with_number(out, b" OPEN length ", count),
        Said::Given(bytes) => put_with_number(out, b" READ bytes ", bytes.len()),
        Said::AtEnd => out.put(b" EOF"),
        Said::Wrote(count) => put_with_number(out, b" WRITE length ", count),
        Said::Closed(count) => put_with_number(out, b" CLOSE length ", count),
        Said::Renamed => out.put(b" RENAME"),
        Said::Deleted => out.put(b" DELETE"),
        Said::Refused(error) => put_error(out, error),
    }
}

/// Where the first space stands.
fn first_space(bytes: &[u8]) -> Option<usize>
    ensures value { result ≡ position (λ b. b == 32) bytes.now }
    ensures within { IfSome result (λ at. at < length bytes.now) }
{
    bytes.iter().position(|b| *b == b' ')
}

/// Writes an error: its code, where a space ends it, and its text.
fn put_error(out: &mut WriteBuffer, error: &[u8]) -> Result<(), NotWritten>
    ensures { OnOk result (out.new ≡ out.old ++ error_said error.now) }
{
    let Some(end) = first_space(error) else {
        return put_with_text(out, b" ERROR text ", error);
    };
    put_with_text(out, b" ERROR code ", &error[..end])?;
    put_with_text(out, b" text ", &error[end + 1..])
}
