//! Writing a command or a reply, in place of what was there.
ghost use Rattle.std.specs.Prelude.{◌≡◌, ◌≤◌, ◌∷◌, ◌++◌, true, length, Some};
ghost use Rattle.chaos_file.specs.Command.{Good, Rename};
ghost use Rattle.chaos_file.specs.Grammar.{parse_of};
ghost use Rattle.chaos_file.specs.Spelling.{is_good, spelling_of, spelling_of_command};
ghost use Rattle.chaos_file.specs.Views.{command_view, CommandFits};
ghost use Rattle.chaos_file.specs.Reply.{is_reply, reading_of, reply_text, reply_view, said_text, said_view, ReplyFits, SaidFits};

use crate::answer::{Reply, begin, put, tell, tell_count};
use crate::command::Command;
use crate::limits::{MAX_FRONT, MAX_HANDLE, MAX_PATH, MAX_TID, NL};
use crate::reply::{ReplyParts, Said};
use arrayvec::ArrayVec;
use chaos_packet::MAX_DATA;

/// The bytes of one command: as many as a packet's data at most.
pub type CommandBytes = ArrayVec<u8, MAX_DATA>;

/// Adds two paths, with the end of a line between them.
fn put_paths(out: &mut CommandBytes, old: &[u8], new: &[u8])
    requires room { length out.old.items ≤ 29 }
    requires old { length old.now ≤ MAX_PATH }
    requires new { length new.now ≤ MAX_PATH }
    ensures { out.new.items ≡ out.old.items ++ (old.now ++ NL ∷ new.now) }
{
    put(out, old);
    put(out, &[NL]);
    put(out, new);
}

#[tactic(auto, using(std::proofs::Common::append_assoc))]
fn put_rename(out: &mut CommandBytes, old: &[u8], new: &[u8])
    requires room { length out.old.items ≤ MAX_FRONT }
    requires old { length old.now ≤ MAX_PATH }
    requires new { length new.now ≤ MAX_PATH }
    ensures { out.new.items ≡ out.old.items ++ spelling_of_command (Rename old.now new.now) }
{
    put(out, b"RENAME\x8d");
    put_paths(out, old, new);
}

/// Adds a command's word, and what stands behind it.
fn put_command(out: &mut CommandBytes, command: Command<'_>)
    requires room { length out.old.items ≤ MAX_FRONT }
    requires fits { CommandFits (command_view command) }
    ensures { out.new.items ≡ out.old.items ++ spelling_of_command (command_view command.entry) }
{
    match command {
        Command::Login(name) => tell(out, b"LOGIN ", name),
        Command::OpenRead(path) => tell(out, b"OPEN READ\x8d", path),
        Command::OpenWrite(path) => tell(out, b"OPEN WRITE\x8d", path),
        Command::Read => put(out, b"READ"),
        Command::Write(bytes) => tell(out, b"WRITE\x8d", bytes),
        Command::Close => put(out, b"CLOSE"),
        Command::Rename(old, new) => put_rename(out, old, new),
        Command::Delete(path) => tell(out, b"DELETE\x8d", path),
    }
}

/// Writes a command with this tid and handle. It takes no memory, and copies each part once.
pub fn write_command(tid: &[u8], handle: &[u8], command: Command<'_>, out: &mut CommandBytes)
    requires tid { length tid.now ≤ MAX_TID }
    requires handle { length handle.now ≤ MAX_HANDLE }
    requires parts { CommandFits (command_view command) }
    // The bytes are the spelling of the command, in place of what was there.
    ensures spelled { out.new.items ≡ spelling_of tid.now handle.now (command_view command.entry) }
    // A command whose names and parts are legal is read back from them.
    ensures read_back { is_good tid.now handle.now (command_view command.entry) ≡ true →
        parse_of out.new.items ≡ Good tid.now handle.now (command_view command.entry) }
{
    out.clear();
    begin(out, tid, handle);
    put_command(out, command);
}

/// Adds what a reply says behind its names.
fn put_said(out: &mut Reply, said: Said<'_>)
    requires room { length out.old.items ≤ MAX_FRONT }
    requires fits { SaidFits (said_view said) }
    ensures { out.new.items ≡ out.old.items ++ said_text (said_view said.entry) }
{
    match said {
        Said::LoggedIn(name) => tell(out, b"LOGIN ", name),
        Said::Opened(count) => tell_count(out, b"OPEN ", count),
        Said::Given(bytes) => tell(out, b"READ\x8d", bytes),
        Said::AtEnd => put(out, b"EOF"),
        Said::Wrote(count) => tell_count(out, b"WRITE ", count),
        Said::Closed(count) => tell_count(out, b"CLOSE ", count),
        Said::Renamed => put(out, b"RENAME"),
        Said::Deleted => put(out, b"DELETE"),
        Said::Refused(text) => tell(out, b"ERROR ", text),
    }
}

/// Writes a reply. It takes no memory, and copies each part once.
pub fn write_reply(reply: ReplyParts<'_>, out: &mut Reply)
    requires { ReplyFits (reply_view reply) }
    // The bytes are the spelling of the reply, in place of what was there.
    ensures spelled { out.new.items ≡ reply_text (reply_view reply.entry) }
    // A reply whose parts are legal is read back from them.
    ensures read_back { is_reply (reply_view reply.entry) ≡ true →
        reading_of out.new.items ≡ Some (reply_view reply.entry) }
{
    out.clear();
    begin(out, reply.tid, reply.handle);
    put_said(out, reply.said);
}
