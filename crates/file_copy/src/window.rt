//! Commands that are sent before the replies to those before them came.
ghost use Rattle.std.specs.Prelude.{◌≡◌, ◌≤◌, ◌<◌, ◌+◌, ◌-◌, ◌++◌, ◌∷◌, [], ℕ, max, true, List, Some, length, Decides, IfOk, IfErr, OnErr, OnOk, IfSome, MatchOption};
ghost use Rattle.std.specs.Fmt.{decimal};
ghost use Rattle.file_copy.specs.Copy.{upto};
ghost use Rattle.file_copy.specs.Talk.{Since, Received, SentOrNot, InVain, IsLate, Unheard, received_in, sent_if, taken, over_where};
ghost use Rattle.file_copy.specs.Row.{CommandsFit, request_command, row_command};
ghost use Rattle.file_copy.specs.Pace.{first_pace, looked, most_of};
ghost use Rattle.file_copy.specs.declared.limits.TheConstants.{MAX_FIRST};
ghost use Rattle.chaos_file.specs.declared.limits.TheConstants.{MAX_NAME, MAX_HANDLE};
ghost use Rattle.chaos_file.specs.Names.{is_name};
ghost use Rattle.chaos_file.specs.Reply.{reading_of};
ghost use Rattle.chaos_file.specs.Views.{command_view, CommandFits};
ghost use Rattle.file_copy.specs.Said.{is_refused, said_to};
ghost use Rattle.file_copy.specs.Ends.{IfCopied, IfDone, IfUnanswered, UnlessCopied, UnlessDone, IsErrorTo, EndedBy, EndedAt, login_command, login_reply};

use crate::bytes::copied;
use crate::end::CopyEnd;
use crate::limits::{MOST_TURNS, REPLY_MILLIS, REPLY_TURNS};
use crate::observer::Observer;
use crate::pace::Pace;
use crate::row::{Commands, Row, spell_at};
use crate::said::{said_to, write_wanted};
use crate::talk::Talk;
use chaos_file::{Command, CommandBytes, Reply, Said};
use chaos_node::NodeFault;

/// How far a row of commands has come.
#[derive(Drop)]
pub struct Flight {
    /// So many of the commands were sent.
    pub sent: usize,
    /// So many replies were received: the next is that to the command at this place.
    pub received: usize,
    /// How many commands may be in flight.
    pub pace: Pace,
    /// The place where each command is spelled.
    command: CommandBytes,
}

impl Flight {
    /// Nothing was sent yet.
    pub fn new() -> Self
        ensures sent { result.sent ≡ 0 }
        ensures received { result.received ≡ 0 }
        ensures pace { result.pace ≡ first_pace }
    {
        Flight {
            sent: 0,
            received: 0,
            pace: Pace::new(),
            command: CommandBytes::new(),
        }
    }

    /// How many of so many commands may have been sent while the next reply is waited for.
    fn most_sent(&self, count: usize) -> usize
        requires { self.now.sent ≤ count }
        ensures from { self.now.sent ≤ result }
        ensures within { result ≤ count }
        // No more are in flight than the pace says, but for those that are in flight already.
        ensures few { result ≤ max self.now.sent (self.now.received + most_of self.now.pace) }
    {
        let most = self.received.saturating_add(self.pace.most());
        if most <= self.sent {
            self.sent
        } else if most < count {
            most
        } else {
            count
        }
    }
}

/// Reports to the observer how many of a row's commands the server's window allows, where the row
/// has more.
pub fn report_bound<O: Observer>(flight: &Flight, row: &Row<'_>, observer: &mut O) {
    if let Some(commands) = flight.pace.bound(row.count) {
        observer.bound(commands);
    }
}

/// Looks at the line, and sends more of the commands, as many as may be in flight and as there is room
/// for.
fn send_on<T: Talk>(talk: &mut T, row: &Row<'_>, flight: &mut Flight)
    requires sent { flight.old.sent ≤ row.now.count }
    requires first { row.now.first ≤ MAX_FIRST + 9000 }
    requires count { row.now.count ≤ 9000 }
    requires fits { CommandsFit row.now.commands }
    ensures within { flight.new.sent ≤ row.now.count }
    ensures place { flight.new.received ≡ flight.old.received }
    ensures pace { flight.new.pace
        ≡ looked (T.course talk.old).line flight.old.sent flight.old.received flight.old.pace }
    ensures few { flight.new.sent
        ≤ max flight.old.sent (flight.old.received + most_of flight.new.pace) }
    ensures talk { (start : T) (replies : List (List ℕ)) →
        Since (T.talked start) (T.talked talk.old) (upto (row_command row.now) flight.old.sent)
        replies
        → Since (T.talked start) (T.talked talk.new) (upto (row_command row.now) flight.new.sent)
        replies }
    ensures quiet { Unheard (T.talked talk.old) (T.talked talk.new) }
    ensures still { (T.course talk.new).turns ≡ (T.course talk.old).turns }
    ensures unfailed { (T.course talk.new).failures ≡ (T.course talk.old).failures }
    ensures patient { (T.course talk.new).patience ≡ (T.course talk.old).patience }
{
    let (sent, received) = (flight.sent, flight.received);
    flight.pace.look(talk.line(), sent, received);
    let most = flight.most_sent(row.count);
    flight.sent = send_more(talk, row, sent, most, &mut flight.command);
}

/// Sends more of the commands, up to so many and as there is room for, and answers how many were
/// sent in all. Each is spelled in the place that is lent.
fn send_more<T: Talk>(
    talk: &mut T,
    row: &Row<'_>,
    sent: usize,
    most: usize,
    command: &mut CommandBytes,
) -> usize
    requires sent { sent ≤ most }
    requires most { most ≤ row.now.count }
    requires first { row.now.first ≤ MAX_FIRST + 9000 }
    requires count { row.now.count ≤ 9000 }
    requires fits { CommandsFit row.now.commands }
    ensures within { result ≤ most }
    ensures talk { (start : T) (replies : List (List ℕ)) →
        Since (T.talked start) (T.talked talk.old) (upto (row_command row.now) sent) replies
        → Since (T.talked start) (T.talked talk.new) (upto (row_command row.now) result) replies }
    ensures quiet { Unheard (T.talked talk.old) (T.talked talk.new) }
    ensures still { (T.course talk.new).turns ≡ (T.course talk.old).turns }
    ensures unfailed { (T.course talk.new).failures ≡ (T.course talk.old).failures }
    ensures patient { (T.course talk.new).patience ≡ (T.course talk.old).patience }
{
    for i in sent..most {
        spell_at(row.commands, i, row.first + i as u32, command);
        if !talk.send(command.as_slice()) {
            return i;
        }
    }
    most
}

/// The next reply, where its command was sent and it is there.
fn receive_asked<T: Talk>(talk: &mut T, is_asked: bool, reply: &mut Reply) -> bool
    ensures asked { result ≡ true → is_asked ≡ true }
    ensures talk { Since (T.talked talk.old) (T.talked talk.new) []
        (received_in (taken result reply.new.items)) }
    ensures still { (T.course talk.new).turns ≡ (T.course talk.old).turns }
    ensures unfailed { (T.course talk.new).failures ≡ (T.course talk.old).failures }
    ensures patient { (T.course talk.new).patience ≡ (T.course talk.old).patience }
{
    is_asked && talk.receive(reply)
}

/// Whether a reply has been waited for long enough: for the talk's patience by the clock alone;
/// where the talk has none, by turns and by the clock, since a turn that gets a stranger's datagram
/// doesn't wait.
fn is_late<T: Talk>(talk: &T, turns: u32, since: u64) -> bool
    ensures { Decides result
        (IsLate (T.course talk.now).patience turns ((T.course talk.now).moment - since)) }
{
    let millis = talk.moment().saturating_sub(since);
    match talk.patience() {
        Some(patience) => millis >= patience,
        None => turns >= REPLY_TURNS && millis >= REPLY_MILLIS,
    }
}

/// The next reply, waited for as long as the talk's patience; where the talk has none, for at least
/// 1,000 turns and 10 seconds. It is left in the caller's place, and it is said whether one came.
///
/// As many commands are in flight as the pace says, and never more than the server's window allows,
/// even where the server reported that it has read some of them. A command reports which replies
/// were read: so what comes to the server last leaves it room for the next reply.
pub fn next_reply<T: Talk, O: Observer>(
    talk: &mut T,
    row: &Row<'_>,
    flight: &mut Flight,
    reply: &mut Reply,
    observer: &mut O,
) -> Result<bool, NodeFault>
    requires sent { flight.old.sent ≤ row.now.count }
    requires first { row.now.first ≤ MAX_FIRST + 9000 }
    requires count { row.now.count ≤ 9000 }
    requires fits { CommandsFit row.now.commands }
    ensures within { flight.new.sent ≤ row.now.count }
    // Commands are sent only as far as the server's window allows: no more are without a reply.
    ensures few { flight.new.sent
        ≤ max flight.old.sent (flight.new.received + flight.new.pace.window) }
    // A reply is received only where its command was sent.
    ensures asked { IfOk result
        (λ came. IfSome (taken came reply.new.items)
        (λ _. (flight.old.received < flight.new.sent)
        × (flight.new.received ≡ flight.old.received + 1))) }
    ensures talk { (start : T) (replies : List (List ℕ)) →
        Since (T.talked start) (T.talked talk.old) (upto (row_command row.now) flight.old.sent)
        replies
        → IfOk result
        (λ came. Since (T.talked start) (T.talked talk.new)
        (upto (row_command row.now) flight.new.sent)
        (replies ++ received_in (taken came reply.new.items))) }
    // Where a turn fails, what was sent before it was, and nothing more was received.
    ensures fault { (start : T) (replies : List (List ℕ)) →
        Since (T.talked start) (T.talked talk.old) (upto (row_command row.now) flight.old.sent)
        replies
        → OnErr result
        (Since (T.talked start) (T.talked talk.new) (upto (row_command row.now) flight.new.sent)
        replies) }
    // It gives up only where it was waited for long enough, or no more replies come, or where the
    // observer says that nobody is there to reply.
    ensures waited { IfOk result
        (λ came. MatchOption (taken came reply.new.items)
        (InVain (T.talked talk.old) (T.course talk.old) (T.talked talk.new) (over_where (O.gone observer.new) (T.course talk.new)))
        (λ _. Unit {0})) }
    ensures unfailed { OnOk result ((T.course talk.new).failures ≤ (T.course talk.old).failures) }
    ensures patient { (T.course talk.new).patience ≡ (T.course talk.old).patience }
    ensures faults { IfErr result (T.failed_by talk.new) }
{
    let since = talk.moment();
    for turns in 0..MOST_TURNS {
        if receive_asked(talk, flight.received < flight.sent, reply) {
            flight.received += 1;
            flight.pace.grow();
            observer.hear();
            return Ok(true);
        }
        if talk.is_over() || observer.is_gone() || is_late(talk, turns, since) {
            return Ok(false);
        }
        send_on(talk, row, flight);
        talk.turn()?;
        observer.look(talk.moment());
    }
    Ok(false)
}

/// The reply to one command, left in the caller's place where one came, and whether the command was
/// sent.
pub fn ask_telling<T: Talk, O: Observer>(
    talk: &mut T,
    command: Command<'_>,
    tid: u32,
    reply: &mut Reply,
    is_sent: &mut bool,
    observer: &mut O,
) -> Result<bool, NodeFault>
    requires tid { tid ≤ MAX_FIRST + 9000 }
    requires fits { CommandFits (command_view command) }
    ensures received { IfOk result
        (λ came. IfSome (taken came reply.new.items)
        (λ text. Since (T.talked talk.old) (T.talked talk.new)
        (request_command (command_view command.entry) tid ∷ []) (text ∷ []))) }
    ensures sent { SentOrNot (T.talked talk.old) (T.talked talk.new)
        (request_command (command_view command.entry) tid) }
    // What was received is the reply, or nothing.
    ensures all { IfOk result
        (λ came. Received (T.talked talk.old) (T.talked talk.new)
        (received_in (taken came reply.new.items))) }
    // Where none was, it is reported whether the command was sent.
    ensures known { IfOk result
        (λ came. MatchOption (taken came reply.new.items)
        (Since (T.talked talk.old) (T.talked talk.new)
        (sent_if is_sent.new (request_command (command_view command.entry) tid)) [])
        (λ _. Unit {0})) }
    ensures waited { IfOk result
        (λ came. MatchOption (taken came reply.new.items)
        (InVain (T.talked talk.old) (T.course talk.old) (T.talked talk.new) (over_where (O.gone observer.new) (T.course talk.new)))
        (λ _. Unit {0})) }
    ensures unfailed { OnOk result ((T.course talk.new).failures ≤ (T.course talk.old).failures) }
    ensures patient { (T.course talk.new).patience ≡ (T.course talk.old).patience }
    ensures faults { IfErr result (T.failed_by talk.new) }
{
    let row = Row {
        first: tid,
        count: 1,
        commands: Commands::One(command),
    };
    let mut flight = Flight::new();
    let came = next_reply(talk, &row, &mut flight, reply, observer);
    *is_sent = flight.sent > 0;
    came
}

/// The reply to one command, left in the caller's place where one came.
pub fn ask_one<T: Talk, O: Observer>(
    talk: &mut T,
    command: Command<'_>,
    tid: u32,
    reply: &mut Reply,
    observer: &mut O,
) -> Result<bool, NodeFault>
    requires tid { tid ≤ MAX_FIRST + 9000 }
    requires fits { CommandFits (command_view command) }
    ensures received { IfOk result
        (λ came. IfSome (taken came reply.new.items)
        (λ text. Since (T.talked talk.old) (T.talked talk.new)
        (request_command (command_view command.entry) tid ∷ []) (text ∷ []))) }
    ensures sent { SentOrNot (T.talked talk.old) (T.talked talk.new)
        (request_command (command_view command.entry) tid) }
    ensures all { IfOk result
        (λ came. Received (T.talked talk.old) (T.talked talk.new)
        (received_in (taken came reply.new.items))) }
    ensures waited { IfOk result
        (λ came. MatchOption (taken came reply.new.items)
        (InVain (T.talked talk.old) (T.course talk.old) (T.talked talk.new) (over_where (O.gone observer.new) (T.course talk.new)))
        (λ _. Unit {0})) }
    ensures unfailed { OnOk result ((T.course talk.new).failures ≤ (T.course talk.old).failures) }
    ensures patient { (T.course talk.new).patience ≡ (T.course talk.old).patience }
    ensures faults { IfErr result (T.failed_by talk.new) }
{
    let mut is_sent = false;
    ask_telling(talk, command, tid, reply, &mut is_sent, observer)
}

/// Whether a reply says an error of the command with this number.
fn is_refused(reply: &Reply, tid: u32, handle: &[u8]) -> bool
    ensures { result ≡ is_refused (said_to (decimal tid) handle.now (reading_of reply.now.items)) }
{
    match said_to(reply, tid, handle) {
        Some(said) => said.refused().is_some(),
        None => false,
    }
}

/// Whether a reply tells of an error of the command of this name.
fn is_error(reply: &Reply, tid: u32, handle: &[u8]) -> bool
    requires tid { tid < 100000000 }
    requires handle { is_name 0 MAX_HANDLE handle.now ≡ true }
    ensures { Decides result (IsErrorTo (decimal tid) handle.now reply.now.items) }
{
    is_refused(reply, tid, handle)
}

/// Why a reply, where one came, isn't the one that was hoped for.
pub fn refusal(came: bool, reply: &Reply, tid: u32, handle: &[u8]) -> CopyEnd
    requires tid { tid < 100000000 }
    requires handle { is_name 0 MAX_HANDLE handle.now ≡ true }
    ensures { EndedBy (decimal tid) handle.now (λ _. ⊥) (taken came reply.now.items) result }
{
    if !came {
        return CopyEnd::Unanswered;
    }
    let kept = copied(reply.as_slice());
    if is_error(reply, tid, handle) {
        CopyEnd::Refused(kept)
    } else {
        CopyEnd::Strange(kept)
    }
}

/// Whether a reply came that is the one that was hoped for.
pub fn is_wanted(came: bool, reply: &Reply, wanted: &Reply) -> bool
    ensures { Decides result (taken came reply.now.items ≡ Some wanted.now.items) }
{
    came && reply.as_slice() == wanted.as_slice()
}

/// `Done` where a reply came that is the one that was hoped for, else why it isn't.
pub fn settled(came: bool, reply: &Reply, wanted: &Reply, tid: u32, handle: &[u8]) -> CopyEnd
    requires tid { tid < 100000000 }
    requires handle { is_name 0 MAX_HANDLE handle.now ≡ true }
    ensures done { IfCopied result (taken came reply.now.items ≡ Some wanted.now.items) }
    ensures ended { UnlessCopied result
        (EndedBy (decimal tid) handle.now (λ r. r ≡ wanted.now.items)
        (taken came reply.now.items)) }
{
    if is_wanted(came, reply, wanted) {
        CopyEnd::Done
    } else {
        refusal(came, reply, tid, handle)
    }
}
