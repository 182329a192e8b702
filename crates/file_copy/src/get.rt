//! Getting a file.
ghost use Rattle.std.specs.Prelude.{◌≡◌, ◌≢◌, ◌⊎◌, ◌≤◌, ◌<◌, ◌+◌, ◌++◌, ◌∷◌, [], ℕ, List, Some, true, false, length, option_map, IfOk, IfErr, IfSome, MatchOption, OnOk};
ghost use Rattle.std.specs.Fmt.{decimal};
ghost use Rattle.chaos_file.specs.declared.limits.TheConstants.{MAX_FILE, MAX_PATH, MAX_CHUNK};
ghost use Rattle.chaos_file.specs.Answer.{Given, Opened};
ghost use Rattle.chaos_file.specs.Reply.{reading_of};
ghost use Rattle.file_copy.specs.declared.limits.TheConstants.{MAX_FIRST};
ghost use Rattle.file_copy.specs.Copy.{upto, chunk_count, reply_of, get_commands, get_replies};
ghost use Rattle.file_copy.specs.Row.{file_handle};
ghost use Rattle.file_copy.specs.Said.{said_to, opened_of, given_of};
ghost use Rattle.file_copy.specs.Talk.{Since, SentUpTo, InVain, taken, over_where};
ghost use Rattle.file_copy.specs.Ends.{IfDone, IfUnanswered, UnlessDone, IsGiven, ReadsEnded, GetBegun, GetEnded, tids_from, close_received, get_sent, read_received};

use crate::end::CopyEnd;
use crate::limits::HANDLE;
use crate::observer::Observer;
use crate::put::chunk_count;
use crate::row::{Commands, Row};
use crate::said::{said_to, write_wanted};
use crate::talk::Talk;
use crate::window::{Flight, ask_one, is_wanted, next_reply, refusal, report_bound, settled};
use chaos_file::{Command, MAX_CHUNK, Reply, Said};
use chaos_node::NodeFault;

/// The length that a reply to OPEN says.
fn length_said(reply: &Reply, tid: u32) -> Option<usize>
    ensures { result ≡ opened_of (said_to (decimal tid) file_handle (reading_of reply.now.items)) }
{
    match said_to(reply, tid, HANDLE) {
        Some(said) => said.opened(),
        None => None,
    }
}

/// The length that OPEN was answered by.
fn opened_length(came: bool, reply: &Reply, tid: u32) -> Option<usize>
    requires { tid < 100000000 }
    // The reply says this length, and FILE allows it.
    ensures is { IfSome result (λ n. (n ≤ MAX_FILE)
        × (taken came reply.now.items ≡ Some (reply_of (decimal tid) file_handle (Opened n)))) }
    // Where the reply says a length that FILE allows, it is found.
    ensures all { (n : ℕ) → n ≤ MAX_FILE →
        taken came reply.now.items ≡ Some (reply_of (decimal tid) file_handle (Opened n)) →
        result ≡ Some n }
{
    if came { length_said(reply, tid) } else { None }
}

/// The bytes that a reply to READ says.
fn bytes_said(reply: &Reply, tid: u32) -> Option<&[u8]>
    ensures { option_map (λ bytes. bytes.now) result
        ≡ given_of (said_to (decimal tid) file_handle (reading_of reply.now.items)) }
{
    match said_to(reply, tid, HANDLE) {
        Some(said) => said.given(),
        None => None,
    }
}

/// The bytes that READ was answered by, where they are so many.
fn given_piece(came: bool, reply: &Reply, tid: u32, len: usize) -> Option<&[u8]>
    requires tid { tid < 100000000 }
    requires len { len ≤ MAX_CHUNK }
    ensures { MatchOption result
        ((piece : List ℕ) → length piece ≡ len →
        taken came reply.now.items ≢ Some (reply_of (decimal tid) file_handle (Given piece)))
        (λ piece. (length piece.now ≡ len)
        × (taken came reply.now.items
        ≡ Some (reply_of (decimal tid) file_handle (Given piece.now)))) }
{
    if !came {
        return None;
    }
    match bytes_said(reply, tid) {
        Some(piece) if piece.len() == len => Some(piece),
        _ => None,
    }
}

/// Adds the bytes of the reply to a READ, where one came and has so many, and says so.
fn take_piece(
    came: bool,
    reply: &Reply,
    tid: u32,
    len: usize,
    bytes: &mut Vec<u8>,
) -> Result<bool, NodeFault>
    requires tid { tid < 100000000 }
    requires len { len ≤ MAX_CHUNK }
    ensures done { IfOk result
        (λ is_given. is_given ≡ true →
        (more : List ℕ) × (length more ≡ len) × (bytes.new.items ≡ bytes.old.items ++ more)
        × (taken came reply.now.items ≡ Some (reply_of (decimal tid) file_handle (Given more)))) }
    ensures left { IfOk result (λ is_given. is_given ≡ false → (bytes.new.items ≡ bytes.old.items)
        × ((x : List ℕ) → taken came reply.now.items ≡ Some x →
        IsGiven (decimal tid) file_handle len x → ⊥)) }
    ensures faults { IfErr result (λ fault. fault ≡ NodeFault.NoMemory) }
{
    let Some(more) = given_piece(came, reply, tid, len) else {
        return Ok(false);
    };
    match bytes.extend_from_slice(more) {
        Ok(()) => Ok(true),
        Err(_) => Err(NodeFault::NoMemory),
    }
}

/// Reads a file of this length by an open handle, and closes it.
fn read_all<T: Talk, O: Observer>(
    talk: &mut T,
    first: u32,
    len: usize,
    bytes: &mut Vec<u8>,
    observer: &mut O,
) -> Result<CopyEnd, NodeFault>
    requires first { first ≤ MAX_FIRST + 1 }
    requires fits { len ≤ MAX_FILE }
    requires empty { bytes.old.items ≡ [] }
    ensures sent { SentUpTo (T.talked talk.old) (T.talked talk.new) (get_sent first (chunk_count len))
        (2 + chunk_count len) }
    ensures done { IfDone result
        ((length bytes.new.items ≡ len) × Since (T.talked talk.old) (T.talked talk.new)
        (upto (get_sent first (chunk_count len)) (2 + chunk_count len))
        (upto (read_received first bytes.new.items) (1 + chunk_count len)
        ++ close_received first len ∷ [])) }
    ensures ended { UnlessDone result
        (ReadsEnded (T.talked talk.old) (T.talked talk.new) first len bytes.new.items) }
    ensures waited { IfUnanswered result
        ((t : T) × InVain (T.talked t) (T.course t) (T.talked talk.new) (over_where (O.gone observer.new) (T.course talk.new))) }
    ensures unfailed { OnOk result ((T.course talk.new).failures ≤ (T.course talk.old).failures) }
    ensures patient { (T.course talk.new).patience ≡ (T.course talk.old).patience }
    ensures faults { IfErr result
        (λ fault. (fault ≡ NodeFault.NoMemory) ⊎ T.failed_by talk.new fault) }
{
    let count = chunk_count(len);
    let row = Row {
        first,
        count: 2 + count,
        commands: Commands::Get(count),
    };
    let mut flight = Flight::new();
    let mut reply = Reply::new();
    for i in 0..count {
        let came = next_reply(talk, &row, &mut flight, &mut reply, observer)?;
        let tid = first + i as u32;
        let size = (len - MAX_CHUNK * i).min(MAX_CHUNK);
        let is_given = take_piece(came, &reply, tid, size, bytes)?;
        if !is_given {
            return Ok(refusal(came, &reply, tid, HANDLE));
        }
        observer.reach(bytes.len());
    }
    report_bound(&flight, &row, observer);
    let came = next_reply(talk, &row, &mut flight, &mut reply, observer)?;
    let tid = first + count as u32;
    let mut wanted = Reply::new();
    write_wanted(&mut wanted, tid, HANDLE, Said::AtEnd);
    if !is_wanted(came, &reply, &wanted) {
        return Ok(refusal(came, &reply, tid, HANDLE));
    }
    let came = next_reply(talk, &row, &mut flight, &mut reply, observer)?;
    write_wanted(&mut wanted, tid + 1, HANDLE, Said::Closed(len));
    Ok(settled(came, &reply, &wanted, tid + 1, HANDLE))
}

/// Gets a file. Where the answer is `Done`, the commands that were sent are OPEN, READs up to the
/// one answered EOF, and CLOSE, and the bytes are those of the replies, joined, as many as OPEN and
/// CLOSE gave. The observer gets the count of the file's bytes behind the reply to OPEN, and behind
/// each reply to a READ how many of them are here. Behind the last of these it gets how many READs
/// there was room for at first, where there are more.
///
/// # Errors
/// Those of the talk's turns, and `NoMemory`.
pub fn get_file<T: Talk, O: Observer>(
    talk: &mut T,
    first: u32,
    path: &[u8],
    bytes: &mut Vec<u8>,
    observer: &mut O,
) -> Result<CopyEnd, NodeFault>
    requires first { first ≤ MAX_FIRST }
    requires path { length path.now ≤ MAX_PATH }
    requires empty { bytes.old.items ≡ [] }
    // Where it was done, exactly the commands that get a file of these bytes were sent, and exactly
    // the replies of a server that has it were received.
    ensures done { IfDone result (Since (T.talked talk.old) (T.talked talk.new)
        (get_commands (tids_from first) file_handle path.now (length bytes.new.items))
        (get_replies (tids_from first) file_handle bytes.new.items)) }
    // Otherwise the replies that were received are those to OPEN and to some READs, whose pieces
    // these bytes begin with, or none yet, and then at most one, to the next command. `Refused` is
    // an error reply to it. `Strange` is neither such a reply nor one that a file of FILE has: to
    // OPEN a length of at most 1,048,576, to a READ as many bytes as a file of that length has
    // there, EOF behind the last, and to CLOSE that length. With `Unanswered` none came.
    ensures ended { UnlessDone result
        (GetEnded (T.talked talk.old) (T.talked talk.new) (tids_from first) file_handle
        bytes.new.items) }
    // However it ended, nothing was sent, or OPEN and some READs, or all the commands that get a
    // file of some length, of 1,048,576 bytes at most.
    ensures begun { GetBegun (T.talked talk.old) (T.talked talk.new) (tids_from first) file_handle
        path.now }
    // It got no reply only after such a wait as a login.
    ensures waited { IfUnanswered result
        ((t : T) × InVain (T.talked t) (T.course t) (T.talked talk.new) (over_where (O.gone observer.new) (T.course talk.new))) }
    // It ends well only where no failure was counted.
    ensures unfailed { OnOk result ((T.course talk.new).failures ≤ (T.course talk.old).failures) }
    // The talk stays as patient as it was.
    ensures patient { (T.course talk.new).patience ≡ (T.course talk.old).patience }
    // It fails when out of memory, or by a turn that did, by the same fault.
    ensures faults { IfErr result
        (λ fault. (fault ≡ NodeFault.NoMemory) ⊎ T.failed_by talk.new fault) }
{
    let mut reply = Reply::new();
    let came = ask_one(talk, Command::OpenRead(path), first, &mut reply, observer)?;
    let Some(len) = opened_length(came, &reply, first) else {
        return Ok(refusal(came, &reply, first, HANDLE));
    };
    observer.expect(len);
    read_all(talk, first + 1, len, bytes, observer)
}
