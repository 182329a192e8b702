//! What a server is asked to do with a file that it has: to rename it, or to delete it.
ghost use Rattle.std.specs.Prelude.{◌≡◌, ◌≤◌, ◌∷◌, [], length, IfErr, OnOk};
ghost use Rattle.std.specs.Fmt.{decimal};
ghost use Rattle.chaos_file.specs.declared.limits.TheConstants.{MAX_PATH};
ghost use Rattle.file_copy.specs.declared.limits.TheConstants.{MAX_FIRST};
ghost use Rattle.file_copy.specs.Talk.{Since, SentOrNot, InVain, over_where};
ghost use Rattle.file_copy.specs.Ends.{IfDone, IfUnanswered, UnlessDone, EndedAt, delete_command, delete_reply, rename_command, rename_reply};

use crate::end::CopyEnd;
use crate::observer::Observer;
use crate::said::write_wanted;
use crate::talk::Talk;
use crate::window::{ask_one, settled};
use chaos_file::{Command, Reply, Said};
use chaos_node::NodeFault;

/// Renames a file, by a RENAME of this name. Where the answer is `Done`, that was sent and
/// answered.
///
/// Where no reply came it isn't known whether the server did so: the command may have reached it.
///
/// # Errors
/// Those of the talk's turns.
pub fn rename_file<T: Talk, O: Observer>(
    talk: &mut T,
    tid: u32,
    old: &[u8],
    new: &[u8],
    observer: &mut O,
) -> Result<CopyEnd, NodeFault>
    requires tid { tid ≤ MAX_FIRST }
    requires old { length old.now ≤ MAX_PATH }
    requires new { length new.now ≤ MAX_PATH }
    // Where it was done, this RENAME was sent and answered, and nothing else.
    ensures done { IfDone result
        (Since (T.talked talk.old) (T.talked talk.new) (rename_command tid old.now new.now ∷ [])
        (rename_reply tid ∷ [])) }
    // Otherwise `Refused` is an error reply to the RENAME, `Strange` is neither such a reply nor
    // the one that was hoped for, and each is the one reply that was received. With `Unanswered` none
    // was.
    ensures ended { UnlessDone result
        (EndedAt (T.talked talk.old) (T.talked talk.new) [] (decimal tid) []
        (λ r. r ≡ rename_reply tid)) }
    // However it ended, nothing but this RENAME was sent, and once at most.
    ensures begun { SentOrNot (T.talked talk.old) (T.talked talk.new)
        (rename_command tid old.now new.now) }
    // It got no reply only after such a wait as a login.
    ensures waited { IfUnanswered result
        ((t : T) × InVain (T.talked t) (T.course t) (T.talked talk.new) (over_where (O.gone observer.new) (T.course talk.new))) }
    // It ends well only where no failure was counted.
    ensures unfailed { OnOk result ((T.course talk.new).failures ≤ (T.course talk.old).failures) }
    // The talk stays as patient as it was.
    ensures patient { (T.course talk.new).patience ≡ (T.course talk.old).patience }
    // It fails only by a turn that did, by the same fault.
    ensures faults { IfErr result (T.failed_by talk.new) }
{
    let mut reply = Reply::new();
    let came = ask_one(talk, Command::Rename(old, new), tid, &mut reply, observer)?;
    let mut wanted = Reply::new();
    write_wanted(&mut wanted, tid, b"", Said::Renamed);
    Ok(settled(came, &reply, &wanted, tid, b""))
}

/// Deletes a file, by a DELETE of this name. Where the answer is `Done`, that was sent and
/// answered.
///
/// Where no reply came it isn't known whether the server did so: the command may have reached it.
///
/// # Errors
/// Those of the talk's turns.
pub fn delete_file<T: Talk, O: Observer>(
    talk: &mut T,
    tid: u32,
    path: &[u8],
    observer: &mut O,
) -> Result<CopyEnd, NodeFault>
    requires tid { tid ≤ MAX_FIRST }
    requires path { length path.now ≤ MAX_PATH }
    // Where it was done, this DELETE was sent and answered, and nothing else.
    ensures done { IfDone result
        (Since (T.talked talk.old) (T.talked talk.new) (delete_command tid path.now ∷ [])
        (delete_reply tid ∷ [])) }
    // Otherwise `Refused` is an error reply to the DELETE, `Strange` is neither such a reply nor
    // the one that was hoped for, and each is the one reply that was received. With `Unanswered` none
    // was.
    ensures ended { UnlessDone result
        (EndedAt (T.talked talk.old) (T.talked talk.new) [] (decimal tid) []
        (λ r. r ≡ delete_reply tid)) }
    // However it ended, nothing but this DELETE was sent, and once at most.
    ensures begun { SentOrNot (T.talked talk.old) (T.talked talk.new)
        (delete_command tid path.now) }
    // It got no reply only after such a wait as a login.
    ensures waited { IfUnanswered result
        ((t : T) × InVain (T.talked t) (T.course t) (T.talked talk.new) (over_where (O.gone observer.new) (T.course talk.new))) }
    // It ends well only where no failure was counted.
    ensures unfailed { OnOk result ((T.course talk.new).failures ≤ (T.course talk.old).failures) }
    // The talk stays as patient as it was.
    ensures patient { (T.course talk.new).patience ≡ (T.course talk.old).patience }
    // It fails only by a turn that did, by the same fault.
    ensures faults { IfErr result (T.failed_by talk.new) }
{
    let mut reply = Reply::new();
    let came = ask_one(talk, Command::Delete(path), tid, &mut reply, observer)?;
    let mut wanted = Reply::new();
    write_wanted(&mut wanted, tid, b"", Said::Deleted);
    Ok(settled(came, &reply, &wanted, tid, b""))
}
