//! A talk with a FILE server.
ghost use Rattle.std.specs.Prelude.{◌≡◌, ◌≤◌, [], ℕ, List, Option, length, IfErr, OnOk};
ghost use Rattle.file_copy.specs.Talk.{Talked, Course, More, Next, Since, Turned, received_in, sent_if, silence, taken};
ghost use Rattle.chaos_file.specs.declared.limits.TheConstants.{MAX_REPLY};
ghost use Rattle.chaos_node.specs.declared.fault.NodeFault.{NodeFault};
ghost use Rattle.file_copy.specs.declared.no_reply.NoReply.{NoReply};

use crate::no_reply::NoReply;
use crate::pace::Line;
use chaos_file::Reply;
use chaos_node::NodeFault;

/// A talk with a FILE server over one connection after another: commands go out, and replies come
/// back in the same order.
pub trait Talk {
    /// What may have been sent and received up to this state, since that one: the commands and the
    /// replies, each in order.
    ghost talked: { Self → Self → Talked → Type 0 };

    /// Since it stands where it is, nothing was.
    ghost began: { (talk : Self) → talked talk talk silence };

    /// The replies that are there to be received, in order, where the talk can tell them.
    ghost ready: { Self → Option (List (List ℕ)) };

    /// How far it has come: the turns that were made, where the talk counts them, the moment of the
    /// last, whether no more replies come than are there, the failures that were counted, its
    /// patience, and what is known of the line.
    ghost course: { Self → Course };

    /// Why no reply came, as far as the talk knows.
    ghost missing: { Self → NoReply };

    /// What asking for a connection makes of it, where that ends well.
    ghost connects: { Self → Self → Type 0 };

    /// The faults that may have ended the last turn.
    ghost failed_by: { Self → NodeFault → Type 0 };

    /// Says a command where there is room for it on its way, and says whether it did.
    fn send(&mut self, command: &[u8]) -> bool
        requires { length command.now ≤ MAX_REPLY }
        // The command counts as sent where it was taken, behind those before it, and nothing was
        // received.
        ensures sent { Since (talked self.old) (talked self.new) (sent_if result command.now) [] }
        // No reply that is there is lost.
        ensures kept { More (ready self.old) (ready self.new) }
        // Sending makes no turn, counts no failure, and leaves the patience as it is.
        ensures still { (course self.new).turns ≡ (course self.old).turns }
        ensures unfailed { (course self.new).failures ≡ (course self.old).failures }
        ensures patient { (course self.new).patience ≡ (course self.old).patience };

    /// Leaves the next reply in the caller's place, where it is there, and says so. Where it isn't,
    /// no clause says what the place holds.
    fn receive(&mut self, reply: &mut Reply) -> bool
        // The reply that is left counts as received, behind those before it, and nothing was sent.
        ensures received { Since (talked self.old) (talked self.new) []
            (received_in (taken result reply.new.items)) }
        // Where the talk tells which replies are there, the first of them is received, and none
        // only where none is there.
        ensures next { Next (ready self.old) (taken result reply.new.items) (ready self.new) }
        // Receiving makes no turn, counts no failure, and leaves the patience as it is.
        ensures still { (course self.new).turns ≡ (course self.old).turns }
        ensures unfailed { (course self.new).failures ≡ (course self.old).failures }
        ensures patient { (course self.new).patience ≡ (course self.old).patience };

    /// Goes on: what was sent is sent, and one that comes is taken, for which it may wait a moment.
    ///
    /// # Errors
    /// `Link` and `Clock`.
    fn turn(&mut self) -> Result<(), NodeFault>
        // A turn says and hears nothing.
        ensures silent { Since (talked self.old) (talked self.new) [] [] }
        // No reply that is there is lost.
        ensures kept { More (ready self.old) (ready self.new) }
        // A turn that ends well counted no failure.
        ensures unfailed { OnOk result ((course self.new).failures ≤ (course self.old).failures) }
        // It is one turn more, where the talk counts them.
        ensures counted { Turned 1 (course self.old).turns (course self.new).turns }
        // The patience stays as it is.
        ensures patient { (course self.new).patience ≡ (course self.old).patience }
        // A turn fails by a fault that `failed_by` tells of it.
        ensures faults { IfErr result (failed_by self.new) };

    /// The moment of the last turn, in milliseconds since some beginning.
    fn moment(&self) -> u64
        // It is the moment that the talk has come to.
        ensures { result ≡ (course self.now).moment };

    /// The milliseconds for which a reply is waited for, by the clock alone, however many turns
    /// that takes. None where the talk has no patience of its own: a reply is then waited for in
    /// 1,000 turns and 10 seconds at least.
    fn patience(&self) -> Option<u64>
        // It is the talk's own patience.
        ensures { result ≡ (course self.now).patience };

    /// What is known of the line to the server, by which a copy says how many commands are in
    /// flight.
    fn line(&self) -> Line
        // It is what the talk knows of its line.
        ensures { result ≡ (course self.now).line };

    /// Whether no more replies come than are there.
    fn is_over(&self) -> bool
        // The result is true exactly where the talk is over.
        ensures { result ≡ (course self.now).is_over };

    /// Asks for a connection, in place of one that there was.
    ///
    /// # Errors
    /// Those of the talk's turns.
    fn connect(&mut self) -> Result<(), NodeFault>
        // Where it ends well, it made of the talk what `connects` says.
        ensures connects { OnOk result (connects self.old self.new) }
        // A connection that was asked for counted no failure.
        ensures unfailed { OnOk result ((course self.new).failures ≤ (course self.old).failures) }
        // The patience stays as it is.
        ensures patient { (course self.new).patience ≡ (course self.old).patience }
        // It fails by a fault that `failed_by` tells of it.
        ensures faults { IfErr result (failed_by self.new) };

    /// Ends the connection. Where the talk may wait and every reply was received, it takes its
    /// leave first, so that no connection is left at the server. What fails then changes nothing of
    /// what was copied.
    fn end(&mut self, may_wait: bool)
        // The patience stays as it is.
        ensures { (course self.new).patience ≡ (course self.old).patience };

    /// Why no reply came, as far as is known.
    fn no_reply(&mut self) -> NoReply
        // It is what the talk knows of that.
        ensures reason { result ≡ missing self.old }
        // The talk has come no further.
        ensures still { course self.new ≡ course self.old };
}
