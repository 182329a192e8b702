//! Files that are put.
ghost use Rattle.std.specs.Prelude.{◌≡◌, ◌≤◌, false, true, Some, List, ℕ, length, IfOk, IfErr, OnOk, option_map};
ghost use Rattle.chaos_file.specs.declared.limits.TheConstants.{MAX_FILE, MAX_PATH};
ghost use Rattle.file_copy.specs.declared.text.Charset.{Charset};
ghost use Rattle.file_transfer.specs.Outcome.{is_well, MatchCopied};
ghost use Rattle.file_transfer.specs.Copied.{PutsWhole, bytes_in, contents_of};
ghost use Rattle.file_transfer.specs.Sessions.{EntersAnd, Stays, put_of};

use crate::file_task::FileTask;
use crate::local_files::LocalFiles;
use crate::outcome::{Contents, Outcome};
use crate::progress_sink::ProgressSink;
use crate::session::Session;
use crate::text::{has_returns, in_set};
use file_copy::{Charset, Talk};
use file_names::PutFile;

/// A user who puts local files, each to a path of the server's.
#[derive(Drop)]
pub struct PutFiles<'a, T: Talk, L: LocalFiles, V: ProgressSink> {
    /// The user's talk with the server.
    pub session: Session<'a, T, V>,
    /// The local files.
    pub locals: L,
    /// Whether they are texts.
    pub is_text: bool,
    /// Whether a digest of each is reported.
    pub is_digested: bool,
}

impl<T: Talk, L: LocalFiles, V: ProgressSink> PutFiles<'_, T, L, V> {
    /// Reports a text whose lines end by returns, as no Lisp machine ends them.
    fn report_returns(&mut self, local: &str, bytes: &[u8])
        ensures { (self.new.session.user.talk ≡ self.old.session.user.talk)
            × (self.new.session.login ≡ self.old.session.login)
            × (self.new.session.is_in ≡ self.old.session.is_in)
            × (self.new.is_text ≡ self.old.is_text)
            × (self.new.is_digested ≡ self.old.is_digested) }
    {
        if self.is_text && has_returns(bytes) {
            let session = &mut self.session;
            session.progress.report_returns(local);
        }
    }

    /// Puts the bytes that were read of a local file.
    fn put_bytes(&mut self, local: &str, path: &[u8], bytes: Vec<u8>) -> Result<Contents, Outcome>
        requires path { length path.now ≤ MAX_PATH }
        requires fits { length bytes.items ≤ MAX_FILE }
        ensures put { IfOk result
            (λ contents. EntersAnd T.talked T.connects self.old.session.is_in
            self.old.session.login.now self.old.session.user.talk
            (put_of path.now (bytes_in Charset.LispMachine self.old.is_text bytes.items))
            self.new.session.user.talk
            × (contents ≡ contents_of self.old.is_digested bytes.items)) }
        ensures inside { OnOk result (self.new.session.is_in ≡ true) }
        ensures stays { Stays T.talked T.connects self.old.session.is_in
            self.old.session.login.now self.old.session.user.talk self.new.session.is_in
            self.new.session.user.talk }
        ensures missed { IfErr result (λ outcome. is_well outcome ≡ false) }
        ensures same { (self.new.session.login ≡ self.old.session.login)
            × (self.new.is_text ≡ self.old.is_text)
            × (self.new.is_digested ≡ self.old.is_digested) }
    {
        self.report_returns(local, bytes.as_slice());
        let contents = Contents::of(bytes.as_slice(), self.is_digested);
        match in_set(Charset::LispMachine, self.is_text, bytes) {
            Ok(sent) => self.session.put(local, path, sent.as_slice())?,
            Err(lost) => return Err(Outcome::Garbled(lost)),
        }
        Ok(contents)
    }
}

impl<'a, T: Talk, L: LocalFiles, V: ProgressSink> FileTask for PutFiles<'a, T, L, V> {
    type File = PutFile<'a>;

    /// A file is reported as copied only where the user entered, and then sent and received exactly
    /// all that puts what the local file has, as a text where that is asked for, to the path that it
    /// goes to. A user who is logged in afterwards did nothing, or put a file.
    ghost tries = { λ old file outcome new. MatchCopied outcome
        (λ contents. (path : List ℕ) × (option_map (λ p. p.items) file.path ≡ Some path)
        × PutsWhole
        (λ bytes. EntersAnd T.talked T.connects old.session.is_in old.session.login.now
        old.session.user.talk (put_of path bytes) new.session.user.talk)
        (L.held old.locals file.local.now) old.is_text old.is_digested contents
        × (new.session.is_in ≡ true))
        (Unit {0})
        × Stays T.talked T.connects old.session.is_in old.session.login.now old.session.user.talk
        new.session.is_in new.session.user.talk
        × ((new.session.login ≡ old.session.login) × (new.is_text ≡ old.is_text) × (new.is_digested ≡ old.is_digested)) };

    /// The file is read whole before anything is sent.
    fn try_file(&mut self, file: &PutFile<'a>) -> Outcome {
        let Some(path) = &file.path else {
            return Outcome::Unnamed;
        };
        match self.locals.read(file.local) {
            Ok(Some(bytes)) => Outcome::of(self.put_bytes(file.local, path.as_slice(), bytes)),
            Ok(None) => Outcome::TooBig,
            Err(fault) => Outcome::Unread(fault),
        }
    }
}
