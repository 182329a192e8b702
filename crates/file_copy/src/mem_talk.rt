//! A talk with a FILE server in memory.
ghost use Rattle.std.specs.Prelude.{◌≡◌, ◌≤◌, [], ◌*◌, false, length, take, drop, map, min, option_map, true, None, Some, Err};
ghost use Rattle.chaos_packet.specs.Count.{max_count};
ghost use Rattle.std.specs.FinMap as fin;
ghost use Rattle.chaos_file.specs.declared.error.FileError.TheVariants.{NoMemory};
ghost use Rattle.chaos_file.specs.declared.limits.TheConstants.{MAX_REPLY};
ghost use Rattle.chaos_file.specs.Answer.{reply_to};
ghost use Rattle.chaos_file.specs.Grammar.{parse_of};
ghost use Rattle.chaos_file.specs.Session.{new_session};
ghost use Rattle.chaos_file.specs.Step.{file_step};
ghost use Rattle.file_copy.specs.Copy.{Does};
ghost use Rattle.file_copy.specs.Memory.{Answered, StepsOrStays, nothing_more, talked_of};
ghost use Rattle.file_copy.specs.declared.limits.TheConstants.{MOST_FLIGHT};
ghost use Rattle.file_copy.specs.Talk.{Talked, counted, silence, with_received, with_sent};

use crate::bytes::{copied, fill};
use crate::limits::MOST_FLIGHT;
use crate::no_reply::NoReply;
use crate::pace::Line;
use crate::talk::Talk;
use chaos_file::{MemStore, Reply, ReplyParts, Said, Session, parse_command, write_reply};
use chaos_node::NodeFault;
use std::alloc::Global;

/// A talk with a FILE server in memory, which begins without files and answers each command at
/// once, as FILE's definition says. It keeps all that was sent and answered, so that a test can
/// look at it.
#[derive(Drop)]
pub struct MemTalk {
    alloc: Global,
    store: MemStore,
    session: Session,
    sent: Vec<Reply>,
    replies: Vec<Reply>,
    /// So many of the replies were received.
    received: usize,
    turns: u64,
    ghost within: { received ≤ length replies.items },
    ghost honest: { Does fin.empty new_session (map (λ v. v.items) sent.items) store session (map (λ v. v.items) replies.items) },
}

/// The out-of-memory reply to a command.
fn want_of(command: &[u8]) -> Reply
    ensures { result.items ≡ reply_to (parse_of command.now) (Err NoMemory) }
{
    let parsed = parse_command(command);
    let parts = ReplyParts {
        tid: parsed.tid(),
        handle: parsed.handle(),
        said: Said::Refused(b"MEM No memory."),
    };
    let mut reply = Reply::new();
    write_reply(parts, &mut reply);
    reply
}

/// Carries out a command. None where there was no memory for it: then nothing changed.
fn applied(
    alloc: Global,
    store: &mut MemStore,
    session: &mut Session,
    command: &[u8],
) -> Option<Reply>
    ensures { StepsOrStays (file_step store.old session.old command.now) store.old session.old
        store.new session.new (option_map (λ v. v.items) result) }
{
    let reply = session.apply(alloc, store, command);
    if reply.as_slice() == want_of(command).as_slice() {
        None
    } else {
        Some(reply)
    }
}

impl MemTalk {
    /// A server without files, and nothing sent yet. It takes no memory.
    pub fn new(alloc: Global) -> Self
        // Nothing was sent or received yet.
        ensures talked { (talked_of (map (λ v. v.items) result.sent.items)
            (map (λ v. v.items) result.replies.items) result.received) ≡ silence }
        // No reply is there.
        ensures ready { ⟦<MemTalk as Talk>⟧.ready result ≡ Some [] }
    {
        MemTalk {
            alloc,
            store: MemStore::new(alloc),
            session: Session::new(),
            sent: Vec::new(alloc),
            replies: Vec::new(alloc),
            received: 0,
            turns: 0,
        }
    }

    /// The replies of a talk in memory. It does nothing when it runs.
    pub fn law_replies(&self)
        // What was sent is answered as FILE's definition says, by what was received and then by
        // what is there.
        ensures { Answered
            (talked_of (map (λ v. v.items) self.now.sent.items)
            (map (λ v. v.items) self.now.replies.items) self.now.received)
            (⟦<MemTalk as Talk>⟧.ready self.now) }
    {}
}

impl Talk for MemTalk {
    ghost talked = { λ now start talk. (talked_of (map (λ v. v.items) now.sent.items)
        (map (λ v. v.items) now.replies.items) now.received)
        ≡ with_received talk.received
        (with_sent talk.sent
        (talked_of (map (λ v. v.items) start.sent.items) (map (λ v. v.items) start.replies.items)
        start.received)) };

    ghost began = { λ talk. nothing_more
        (talked_of (map (λ v. v.items) talk.sent.items) (map (λ v. v.items) talk.replies.items)
        talk.received) };

    ghost ready = { λ t. Some (drop t.received (map (λ v. v.items) t.replies.items)) };

    /// It never ends. It counts turns as far as they can be.
    ghost course = { λ t. record {
      turns = counted t.turns;
      moment = min (t.turns * 10) max_count;
      is_over = false;
      failures
          = 0;
      patience = None;
      line = record { window = MOST_FLIGHT; losses = 0; is_crowded = false };
    } };

    /// Its server is there, and has ended nothing.
    ghost missing = { λ t. record {
      waited = min (t.turns * 10) max_count;
      is_open = true;
      end = None;
    } };

    /// Its server is there: asking for a connection does nothing.
    ghost connects = { λ old new. new ≡ old };

    /// No turn fails.
    ghost failed_by = { λ _ _. ⊥ };

    fn send(&mut self, command: &[u8]) -> bool {
        if self.sent.reserve(1).is_err() || self.replies.reserve(1).is_err() {
            return false;
        }
        let Some(reply) = applied(self.alloc, &mut self.store, &mut self.session, command) else {
            return false;
        };
        self.sent.push_reserved(copied(command));
        self.replies.push_reserved(reply);
        true
    }

    fn receive(&mut self, reply: &mut Reply) -> bool {
        if self.received >= self.replies.len() {
            return false;
        }
        fill(reply, self.replies[self.received].as_slice());
        self.received += 1;
        true
    }

    fn turn(&mut self) -> Result<(), NodeFault> {
        self.turns = self.turns.saturating_add(1);
        Ok(())
    }

    /// A turn counts ten milliseconds.
    fn moment(&self) -> u64 {
        self.turns.saturating_mul(10)
    }

    fn patience(&self) -> Option<u64> {
        None
    }

    /// Nothing is lost.
    fn line(&self) -> Line {
        Line {
            window: MOST_FLIGHT,
            losses: 0,
            is_crowded: false,
        }
    }

    fn is_over(&self) -> bool {
        false
    }

    /// The server is there: no connection is asked for.
    fn connect(&mut self) -> Result<(), NodeFault> {
        Ok(())
    }

    fn end(&mut self, may_wait: bool) {}

    fn no_reply(&mut self) -> NoReply {
        NoReply {
            waited: self.moment(),
            is_open: true,
            end: None,
        }
    }
}
