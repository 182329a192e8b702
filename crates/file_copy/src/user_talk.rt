//! The talk of a user, whose LOGIN goes in front.
ghost use Rattle.std.specs.Prelude.{◌≡◌, ◌≤◌, ◌-◌, [], length, true};
ghost use Rattle.chaos_file.specs.declared.limits.TheConstants.{MAX_REPLY};
ghost use Rattle.file_copy.specs.Talk.{Since, sent_if};
ghost use Rattle.file_copy.specs.User.{EndsFor, MayFollow, TakesPlace, user_talked};

use crate::end::CopyEnd;
use crate::login::Login;
use crate::no_reply::NoReply;
use crate::pace::Line;
use crate::row::{Commands, spell_at};
use crate::said::write_wanted;
use crate::talk::Talk;
use crate::user::UserTalk;
use crate::window::{is_wanted, refusal};
use chaos_file::{Command, CommandBytes, Reply, Said};
use chaos_node::NodeFault;

impl<'a, T: Talk> UserTalk<'a, T> {
    /// Sends the LOGIN, where it wasn't sent and there is room, and says whether a command may follow.
    fn asks(&mut self) -> bool
        ensures follow { result ≡ true → MayFollow self.new.login }
        ensures places { result ≡ true
            → TakesPlace (T.course self.old.talk).line.window self.old.login self.old.room
            (self.new.room - 1) }
        ensures silent { Since (user_talked T.talked self.old) (user_talked T.talked self.new) [] [] }
        ensures still { (T.course self.new.talk).turns ≡ (T.course self.old.talk).turns }
        ensures unfailed { (T.course self.new.talk).failures
            ≡ (T.course self.old.talk).failures }
        ensures patient { (T.course self.new.talk).patience
            ≡ (T.course self.old.talk).patience }
    {
        match &self.login {
            Login::Unsent => {}
            Login::Sent => return self.room > 0,
            Login::Done => return true,
            Login::Missed(_) => return false,
        }
        let mut command = CommandBytes::new();
        let login = Commands::One(Command::Login(self.name.as_bytes()));
        spell_at(login, 0, 0, &mut command);
        let window = self.talk.line().window;
        if !self.talk.send(command.as_slice()) {
            return false;
        }
        self.login = Login::Sent;
        self.room = window.saturating_sub(1);
        self.room > 0
    }

    /// Sends a command that may go.
    fn follow(&mut self, command: &[u8]) -> bool
        requires fits { length command.now ≤ MAX_REPLY }
        requires follow { MayFollow self.old.login }
        ensures sent { Since (user_talked T.talked self.old) (user_talked T.talked self.new)
            (sent_if result command.now) [] }
        ensures place { result ≡ true → self.new.room ≡ self.old.room - 1 }
        ensures still { (T.course self.new.talk).turns ≡ (T.course self.old.talk).turns }
        ensures unfailed { (T.course self.new.talk).failures
            ≡ (T.course self.old.talk).failures }
        ensures patient { (T.course self.new.talk).patience
            ≡ (T.course self.old.talk).patience }
    {
        if !self.talk.send(command) {
            return false;
        }
        self.room = self.room.saturating_sub(1);
        true
    }

    /// Takes the reply to the LOGIN, where it is waited for and is there.
    fn hear_login(&mut self)
        ensures silent { Since (user_talked T.talked self.old) (user_talked T.talked self.new) [] [] }
        ensures still { (T.course self.new.talk).turns ≡ (T.course self.old.talk).turns }
        ensures unfailed { (T.course self.new.talk).failures
            ≡ (T.course self.old.talk).failures }
        ensures patient { (T.course self.new.talk).patience
            ≡ (T.course self.old.talk).patience }
    {
        if !matches!(self.login, Login::Sent) {
            return;
        }
        let mut reply = Reply::new();
        if !self.talk.receive(&mut reply) {
            return;
        }
        let mut wanted = Reply::new();
        write_wanted(&mut wanted, 0, b"", Said::LoggedIn(self.name.as_bytes()));
        if is_wanted(true, &reply, &wanted) {
            self.login = Login::Done;
        } else {
            self.login = Login::Missed(reply);
        }
    }

    /// How a copy over this talk ended, where it ended so: by the reply to the LOGIN, if that reply
    /// doesn't log the user in. Nothing was done where not even the LOGIN was sent.
    pub fn ended(&self, end: Result<CopyEnd, NodeFault>) -> Result<CopyEnd, NodeFault>
        // If a reply came that doesn't log the user in, a copy that came to an end without a fault
        // ended by that reply: `Refused` is an error reply to the LOGIN, and `Strange` any other.
        // Where the LOGIN wasn't sent, `Unknown` becomes `Unanswered`: no command was sent, so
        // that nothing was done. Otherwise the end is the one that was handed in.
        ensures { EndsFor self.now.login end result }
    {
        match (&self.login, end) {
            (Login::Missed(reply), Ok(_)) => Ok(refusal(true, reply, 0, b"")),
            (Login::Unsent, Ok(CopyEnd::Unknown)) => Ok(CopyEnd::Unanswered),
            (_, end) => end,
        }
    }
}

impl<T: Talk> Talk for UserTalk<'_, T> {
    ghost use Rattle.std.specs.Prelude.{◌≡◌, ◌≤◌, [], length, true, None};
    ghost use Rattle.chaos_file.specs.declared.limits.TheConstants.{MAX_REPLY};
    ghost use Rattle.file_copy.specs.Talk.{Since, over_where, sent_if};
    ghost use Rattle.file_copy.specs.declared.login.Login.TheVariants.{Unsent};
    ghost use Rattle.file_copy.specs.User.{TakesPlace, is_missed, user_began, user_talked};

    /// What was sent and received beside the LOGIN and its reply, which stand in front.
    ghost talked = { user_talked T.talked };

    ghost began = { λ user. user_began T.talked user };

    ghost ready = { λ _. None };

    /// It is over too once the user can't be logged in.
    ghost course = { λ user. over_where (is_missed user.login) (T.course user.talk) };

    ghost missing = { λ user. T.missing user.talk };

    /// The talk asked for a connection, and the LOGIN wasn't sent over it yet.
    ghost connects = { λ old new. T.connects old.talk new.talk × (new.login ≡ Unsent)
        × (new.name.now ≡ old.name.now) };

    ghost failed_by = { λ user. T.failed_by user.talk };

    fn send(&mut self, command: &[u8]) -> bool
        requires { length command.now ≤ MAX_REPLY }
        // The command counts as sent where it was taken, beside the LOGIN, and nothing was received.
        ensures sent { Since (user_talked T.talked self.old) (user_talked T.talked self.new)
            (sent_if result command.now) [] }
        // Of the places of the server's window the LOGIN takes one, and so does each command that
        // goes before the reply to the LOGIN came. Without a place nothing goes.
        ensures places { result ≡ true
            → TakesPlace (T.course self.old.talk).line.window self.old.login self.old.room
            self.new.room }
        // Sending makes no turn, counts no failure, and leaves the patience as it is.
        ensures still { (T.course self.new.talk).turns ≡ (T.course self.old.talk).turns }
        ensures unfailed { (T.course self.new.talk).failures
            ≡ (T.course self.old.talk).failures }
        ensures patient { (T.course self.new.talk).patience
            ≡ (T.course self.old.talk).patience }
    {
        self.asks() && self.follow(command)
    }

    fn receive(&mut self, reply: &mut Reply) -> bool {
        matches!(self.login, Login::Done) && self.talk.receive(reply)
    }

    /// What comes first is the reply to the LOGIN.
    fn turn(&mut self) -> Result<(), NodeFault> {
        self.talk.turn()?;
        self.hear_login();
        Ok(())
    }

    fn moment(&self) -> u64 {
        self.talk.moment()
    }

    fn patience(&self) -> Option<u64> {
        self.talk.patience()
    }

    fn line(&self) -> Line {
        self.talk.line()
    }

    fn is_over(&self) -> bool {
        self.talk.is_over() || matches!(self.login, Login::Missed(_))
    }

    fn connect(&mut self) -> Result<(), NodeFault> {
        self.enter(self.name)
    }

    fn end(&mut self, may_wait: bool) {
        self.talk.end(may_wait);
    }

    fn no_reply(&mut self) -> NoReply {
        self.talk.no_reply()
    }
}
