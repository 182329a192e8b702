//! Files that are deleted.
ghost use Rattle.std.specs.Prelude.{◌≡◌, ◌≤◌, true};
ghost use Rattle.file_transfer.specs.Outcome.{MatchChanged};
ghost use Rattle.file_transfer.specs.Sessions.{EntersAnd, delete_of};

use crate::file_task::FileTask;
use crate::outcome::Outcome;
use crate::progress_sink::ProgressSink;
use crate::session::Session;
use chaos_file::MAX_PATH;
use file_copy::Talk;

/// A user who has the server delete files.
#[derive(Drop)]
pub struct DeleteFiles<'a, T: Talk, V: ProgressSink> {
    /// The user's talk with the server.
    pub session: Session<'a, T, V>,
}

impl<'a, T: Talk, V: ProgressSink> FileTask for DeleteFiles<'a, T, V> {
    type File = &'a str;

    /// A file is reported as changed only where the user entered, and then sent exactly its DELETE
    /// and received exactly that it was done. The name by which the user logs in stays.
    ghost tries = { λ old path outcome new. MatchChanged outcome
        (EntersAnd T.talked T.connects old.session.is_in old.session.login.now old.session.user.talk
        (delete_of path.now) new.session.user.talk × (new.session.is_in ≡ true))
        × (new.session.login ≡ old.session.login) };

    fn try_file(&mut self, path: &&'a str) -> Outcome {
        if path.len() > MAX_PATH {
            return Outcome::TooLong;
        }
        Outcome::of_change(self.session.delete(path.as_bytes()))
    }
}
