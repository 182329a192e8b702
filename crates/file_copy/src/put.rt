//! Putting a file.
ghost use Rattle.std.specs.Prelude.{◌≡◌, ◌≤◌, ◌<◌, ◌+◌, length, IfErr, OnOk};
ghost use Rattle.chaos_file.specs.Reply.{Answered, SaidFits, said_view};
ghost use Rattle.chaos_file.specs.declared.limits.TheConstants.{MAX_FILE, MAX_PATH};
ghost use Rattle.file_copy.specs.declared.limits.TheConstants.{MAX_FIRST};
ghost use Rattle.file_copy.specs.Copy.{upto, chunk_count, put_commands, put_replies};
ghost use Rattle.file_copy.specs.Row.{file_handle};
ghost use Rattle.file_copy.specs.Talk.{Since, SentUpTo, InVain, over_where};
ghost use Rattle.file_copy.specs.Ends.{IfDone, IfUnanswered, UnlessDone, unanswered, PutBegun, PutEnded, WritesEnded, tids_from, put_answer, put_sent, put_received};

use crate::end::CopyEnd;
use crate::limits::HANDLE;
use crate::observer::Observer;
use crate::row::{Commands, Row};
use crate::said::write_wanted;
use crate::talk::Talk;
use crate::window::{Flight, ask_telling, is_wanted, next_reply, refusal, report_bound, settled};
use chaos_file::{Command, MAX_CHUNK, Reply, Said};
use chaos_node::NodeFault;

/// How many pieces a file of so many bytes has.
pub fn chunk_count(length: usize) -> usize
    requires { length ≤ MAX_FILE }
    ensures value { result ≡ chunk_count length }
    ensures few { result ≤ 2341 }
{
    (length + (MAX_CHUNK - 1)) / MAX_CHUNK
}

/// What the server reports to the command at a place of a put: that the file is open, and then how
/// many bytes it has.
fn put_said(bytes: &[u8], i: usize) -> Said<'static>
    requires place { i ≤ 10000 }
    requires fits { length bytes.now ≤ MAX_FILE }
    ensures said { said_view result ≡ Answered (put_answer bytes.now i) }
    ensures fits { SaidFits (said_view result) }
{
    if i == 0 {
        Said::Opened(0)
    } else {
        Said::Wrote((MAX_CHUNK * i).min(bytes.len()))
    }
}

/// Opens a file for writing, and writes its bytes.
fn write_all<T: Talk, O: Observer>(
    talk: &mut T,
    first: u32,
    path: &[u8],
    bytes: &[u8],
    observer: &mut O,
) -> Result<CopyEnd, NodeFault>
    requires first { first ≤ MAX_FIRST }
    requires path { length path.now ≤ MAX_PATH }
    requires fits { length bytes.now ≤ MAX_FILE }
    ensures sent { SentUpTo (T.talked talk.old) (T.talked talk.new)
        (put_sent first path.now bytes.now) (1 + chunk_count (length bytes.now)) }
    ensures done { IfDone result (Since (T.talked talk.old) (T.talked talk.new)
        (upto (put_sent first path.now bytes.now) (1 + chunk_count (length bytes.now)))
        (upto (put_received first bytes.now) (1 + chunk_count (length bytes.now)))) }
    ensures ended { UnlessDone result
        (WritesEnded (T.talked talk.old) (T.talked talk.new) first bytes.now) }
    ensures waited { IfUnanswered result
        ((t : T) × InVain (T.talked t) (T.course t) (T.talked talk.new) (over_where (O.gone observer.new) (T.course talk.new))) }
    ensures unfailed { OnOk result ((T.course talk.new).failures ≤ (T.course talk.old).failures) }
    ensures patient { (T.course talk.new).patience ≡ (T.course talk.old).patience }
    ensures faults { IfErr result (T.failed_by talk.new) }
{
    let count = 1 + chunk_count(bytes.len());
    let row = Row {
        first,
        count,
        commands: Commands::Put(path, bytes),
    };
    let mut flight = Flight::new();
    let mut reply = Reply::new();
    let mut wanted = Reply::new();
    for i in 0..count {
        let came = next_reply(talk, &row, &mut flight, &mut reply, observer)?;
        let tid = first + i as u32;
        write_wanted(&mut wanted, tid, HANDLE, put_said(bytes, i));
        if !is_wanted(came, &reply, &wanted) {
            return Ok(refusal(came, &reply, tid, HANDLE));
        }
        observer.reach((MAX_CHUNK * i).min(bytes.len()));
    }
    report_bound(&flight, &row, observer);
    Ok(CopyEnd::Done)
}

/// How a put ends whose CLOSE got no reply, and was sent or wasn't.
fn unanswered(is_sent: bool) -> CopyEnd
    ensures { result ≡ unanswered is_sent }
{
    if is_sent {
        CopyEnd::Unknown
    } else {
        CopyEnd::Unanswered
    }
}

/// Puts a file. Where the answer is `Done`, the commands that were sent are OPEN, the file in
/// WRITEs and CLOSE, and the server answered that it has the whole file. Where the CLOSE was sent
/// and got no reply it is `Unknown` whether the file was put; CLOSE is sent only after each WRITE
/// was answered by its count. The observer gets the count of the file's bytes, and behind each
/// other reply how many of them the server has. Behind the last of these it gets how many
/// WRITEs there was room for at first, where there are more.
///
/// # Errors
/// Those of the talk's turns.
pub fn put_file<T: Talk, O: Observer>(
    talk: &mut T,
    first: u32,
    path: &[u8],
    bytes: &[u8],
    observer: &mut O,
) -> Result<CopyEnd, NodeFault>
    requires first { first ≤ MAX_FIRST }
    requires path { length path.now ≤ MAX_PATH }
    requires fits { length bytes.now ≤ MAX_FILE }
    // Where it was done, exactly the commands that put the file were sent, in order, and exactly
    // the replies were received that say that the server has it whole.
    ensures done { IfDone result (Since (T.talked talk.old) (T.talked talk.new)
        (put_commands (tids_from first) file_handle path.now bytes.now)
        (put_replies (tids_from first) file_handle bytes.now)) }
    // Otherwise the replies that were received are the right ones to the commands before some
    // command, and then at most one. `Refused` is an error reply to that command, and `Strange` is
    // neither such a reply nor the one that was hoped for. With `Unanswered` none came to OPEN or to a
    // WRITE, or CLOSE could not be sent. With `Unknown` CLOSE was sent, after all else was answered
    // as it should be, and got none.
    ensures ended { UnlessDone result
        (PutEnded (T.talked talk.old) (T.talked talk.new) (tids_from first) file_handle path.now
        bytes.now) }
    // However it ended, nothing was sent, or OPEN and some of the WRITEs, in order, which change no
    // file, or all. CLOSE was sent only where OPEN and each WRITE were answered as they should be.
    ensures begun { PutBegun (T.talked talk.old) (T.talked talk.new) (tids_from first) file_handle
        path.now bytes.now }
    // It got no reply only after such a wait as a login.
    ensures waited { IfUnanswered result
        ((t : T) × InVain (T.talked t) (T.course t) (T.talked talk.new) (over_where (O.gone observer.new) (T.course talk.new))) }
    // It ends well only where no failure was counted.
    ensures unfailed { OnOk result ((T.course talk.new).failures ≤ (T.course talk.old).failures) }
    // The talk stays as patient as it was.
    ensures patient { (T.course talk.new).patience ≡ (T.course talk.old).patience }
    // It fails only by a turn that did, by the same fault.
    ensures faults { IfErr result (T.failed_by talk.new) }
{
    observer.expect(bytes.len());
    match write_all(talk, first, path, bytes, observer)? {
        CopyEnd::Done => {}
        end => return Ok(end),
    }
    let last = first + 1 + chunk_count(bytes.len()) as u32;
    let mut reply = Reply::new();
    let mut is_sent = false;
    let came = ask_telling(
        talk,
        Command::Close,
        last,
        &mut reply,
        &mut is_sent,
        observer,
    )?;
    if !came {
        return Ok(unanswered(is_sent));
    }
    let mut wanted = Reply::new();
    write_wanted(&mut wanted, last, HANDLE, Said::Closed(bytes.len()));
    Ok(settled(came, &reply, &wanted, last, HANDLE))
}
