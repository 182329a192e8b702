//! What came of a file, by how its copy ended.
ghost use Rattle.std.specs.Prelude.{◌≡◌, false, true, IfErr, OnOk, Ok};
ghost use Rattle.file_transfer.specs.Settling.{ComesTo, change_end, is_done, is_replied};
ghost use Rattle.file_transfer.specs.Outcome.{is_well};

use crate::outcome::Outcome;
use chaos_node::NodeFault;
use file_copy::{CopyEnd, Talk};

/// What came of a file whose copy over this talk ended so, where it wasn't copied.
///
/// # Errors
/// What came of the file otherwise.
pub fn settle<T: Talk>(talk: &mut T, end: Result<CopyEnd, NodeFault>) -> Result<(), Outcome>
    // A copy that is done was well. A reply that refuses or answers nothing, a missing reply, an
    // end that isn't known, and a fault each come to the outcome of that name, with the reply, with
    // why no reply came as the talk knows it, or with the fault.
    ensures ended { ComesTo (T.missing talk.old) end result }
    // It is well only where the copy is done.
    ensures done { OnOk result (end ≡ Ok CopyEnd.Done) }
    // Otherwise what came of it is no success.
    ensures missed { IfErr result (λ outcome. is_well outcome ≡ false) }
    // Where a reply came, the talk is as it was.
    ensures still { is_replied end ≡ true → talk.new ≡ talk.old }
{
    match end {
        Ok(CopyEnd::Done) => Ok(()),
        Ok(CopyEnd::Refused(reply)) => Err(Outcome::Refused(reply)),
        Ok(CopyEnd::Strange(reply)) => Err(Outcome::Strange(reply)),
        Ok(CopyEnd::Unanswered) => Err(Outcome::Unanswered(talk.no_reply())),
        Ok(CopyEnd::Unknown) => Err(Outcome::Unknown(talk.no_reply())),
        Err(fault) => Err(Outcome::Failed(fault)),
    }
}

/// How a change ended that was asked for: where no reply came, it isn't known whether it was made.
pub(crate) fn change_end(end: Result<CopyEnd, NodeFault>) -> Result<CopyEnd, NodeFault>
    ensures { result ≡ change_end end }
{
    match end {
        Ok(CopyEnd::Unanswered) => Ok(CopyEnd::Unknown),
        end => end,
    }
}

/// Whether a file was copied, so that every reply was received.
pub(crate) fn is_done(end: &Result<CopyEnd, NodeFault>) -> bool
    ensures { result ≡ is_done end.now }
{
    matches!(end, Ok(CopyEnd::Done))
}

/// Whether a change got its reply: it was made, or the server refused it.
pub(crate) fn is_replied(end: &Result<CopyEnd, NodeFault>) -> bool
    ensures { result ≡ is_replied end.now }
{
    matches!(end, Ok(CopyEnd::Done | CopyEnd::Refused(_)))
}
