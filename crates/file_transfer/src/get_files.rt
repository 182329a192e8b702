//! Files that are got.
ghost use Rattle.std.specs.Prelude.{◌≡◌, ◌≤◌, ◌∷◌, false, true, List, ℕ, length, IfOk, IfErr, OnOk, OnErr, MatchResult};
ghost use Rattle.chaos_file.specs.declared.limits.TheConstants.{MAX_PATH};
ghost use Rattle.file_copy.specs.declared.text.Charset.{Charset};
ghost use Rattle.file_names.specs.Destination.{local_of};
ghost use Rattle.file_transfer.specs.Outcome.{is_well, MatchCopied};
ghost use Rattle.file_transfer.specs.Copied.{GetsWhole, bytes_in, contents_of, written_after};
ghost use Rattle.file_transfer.specs.Sessions.{EntersAnd, Stays, get_of};

use crate::file_task::FileTask;
use crate::local_files::LocalFiles;
use crate::outcome::{Contents, Outcome};
use crate::progress_sink::ProgressSink;
use crate::session::Session;
use crate::text::in_set;
use chaos_file::MAX_PATH;
use chaos_node::NodeFault;
use file_copy::{Charset, Talk};
use file_names::Destination;
use std::alloc::Global;

/// A user who gets files, each into a local one.
#[derive(Drop)]
pub struct GetFiles<'a, T: Talk, L: LocalFiles, V: ProgressSink> {
    /// Where memory comes from.
    pub alloc: Global,
    /// The user's talk with the server.
    pub session: Session<'a, T, V>,
    /// The local files.
    pub locals: L,
    /// Where the files go.
    pub destination: Destination<'a>,
    /// Whether they are texts.
    pub is_text: bool,
    /// Whether a digest of each is reported.
    pub is_digested: bool,
}

impl<T: Talk, L: LocalFiles, V: ProgressSink> GetFiles<'_, T, L, V> {
    /// The bytes of a file, as a text where that is asked for.
    fn bytes_of(&mut self, path: &str) -> Result<Vec<u8>, Outcome>
        requires { length path.now ≤ MAX_PATH }
        // The user entered, and then sent exactly all that gets this file. The result is the file's
        // bytes, as a text if that is asked for.
        ensures got { IfOk result
            (λ v. (bytes : List ℕ)
            × EntersAnd T.talked T.connects self.old.session.is_in self.old.session.login.now
            self.old.session.user.talk (get_of path.now bytes) self.new.session.user.talk
            × (v.items ≡ bytes_in Charset.Ascii self.old.is_text bytes)) }
        ensures inside { OnOk result (self.new.session.is_in ≡ true) }
        ensures stays { Stays T.talked T.connects self.old.session.is_in
            self.old.session.login.now self.old.session.user.talk self.new.session.is_in
            self.new.session.user.talk }
        ensures same_login { self.new.session.login ≡ self.old.session.login }
        ensures missed { IfErr result (λ outcome. is_well outcome ≡ false) }
        ensures same { (self.new.locals ≡ self.old.locals)
            × (self.new.is_digested ≡ self.old.is_digested) }
        ensures same_destination { (self.new.destination ≡ self.old.destination)
            × (self.new.is_text ≡ self.old.is_text) }
    {
        let mut bytes = Vec::new(self.alloc);
        self.session.get(path, &mut bytes)?;
        match in_set(Charset::Ascii, self.is_text, bytes) {
            Ok(bytes) => Ok(bytes),
            Err(lost) => Err(Outcome::Garbled(lost)),
        }
    }

    /// Writes a local file.
    fn keep(&mut self, local: &str, bytes: &[u8]) -> Result<Contents, Outcome>
        ensures written { IfOk result
            (λ contents. (contents ≡ contents_of self.old.is_digested bytes.now)
            × (L.written self.new.locals ≡ written_after local.now bytes.now (L.written self.old.locals))) }
        ensures failed { OnErr result (L.written self.new.locals ≡ L.written self.old.locals) }
        ensures missed { IfErr result (λ outcome. is_well outcome ≡ false) }
        ensures still { self.new.session ≡ self.old.session }
        ensures same_destination { (self.new.destination ≡ self.old.destination)
            × (self.new.is_text ≡ self.old.is_text)
            × (self.new.is_digested ≡ self.old.is_digested) }
    {
        match self.locals.keep(local, bytes) {
            Ok(()) => Ok(Contents::of(bytes, self.is_digested)),
            Err(fault) => Err(Outcome::Unwritten(fault)),
        }
    }

    /// Gets a file into a local one, of which it is made sure before anything is said that it can
    /// be written.
    fn get_into(&mut self, path: &str, local: &str) -> Result<Contents, Outcome>
        // The user entered and got the file, and exactly the file's bytes were written to the local
        // file, as a text if that is asked for.
        ensures got { IfOk result
            (λ contents. GetsWhole
            (λ bytes. EntersAnd T.talked T.connects self.old.session.is_in
            self.old.session.login.now self.old.session.user.talk (get_of path.now bytes)
            self.new.session.user.talk)
            local.now self.old.is_text self.old.is_digested contents
            (L.written self.old.locals) (L.written self.new.locals)) }
        ensures inside { OnOk result (self.new.session.is_in ≡ true) }
        ensures stays { Stays T.talked T.connects self.old.session.is_in
            self.old.session.login.now self.old.session.user.talk self.new.session.is_in
            self.new.session.user.talk }
        ensures same_login { self.new.session.login ≡ self.old.session.login }
        ensures failed { OnErr result (L.written self.new.locals ≡ L.written self.old.locals) }
        ensures missed { IfErr result (λ outcome. is_well outcome ≡ false) }
        ensures same_destination { (self.new.destination ≡ self.old.destination)
            × (self.new.is_text ≡ self.old.is_text)
            × (self.new.is_digested ≡ self.old.is_digested) }
    {
        if path.len() > MAX_PATH {
            return Err(Outcome::TooLong);
        }
        if let Err(fault) = self.locals.check(local) {
            return Err(Outcome::Unwritten(fault));
        }
        match self.bytes_of(path) {
            Ok(bytes) => self.keep(local, bytes.as_slice()),
            Err(missed) => Err(missed),
        }
    }
}

impl<'a, T: Talk, L: LocalFiles, V: ProgressSink> FileTask for GetFiles<'a, T, L, V> {
    type File = &'a str;

    /// A file is reported as copied only where the user entered, then sent and received exactly all
    /// that gets this path's bytes, and wrote exactly these, as a text where that is asked for, to
    /// the local file that the path goes to. The count and the digest that are reported are theirs.
    /// Where it isn't reported as copied, no local file changed. A user who is logged in afterwards
    /// did nothing, or got a file.
    ghost tries = { λ old path outcome new. MatchCopied outcome
        (λ contents. GetsWhole
        (λ bytes. EntersAnd T.talked T.connects old.session.is_in old.session.login.now
        old.session.user.talk (get_of path.now bytes) new.session.user.talk)
        (local_of old.destination path.now) old.is_text old.is_digested contents
        (L.written old.locals) (L.written new.locals)
        × (new.session.is_in ≡ true))
        (L.written new.locals ≡ L.written old.locals)
        × Stays T.talked T.connects old.session.is_in old.session.login.now old.session.user.talk
        new.session.is_in new.session.user.talk
        × ((new.session.login ≡ old.session.login) × (new.destination ≡ old.destination) × (new.is_text ≡ old.is_text)
        × (new.is_digested ≡ old.is_digested)) };

    fn try_file(&mut self, path: &&'a str) -> Outcome {
        let Ok(local) = self.destination.local(self.alloc, path) else {
            return Outcome::Failed(NodeFault::NoMemory);
        };
        Outcome::of(self.get_into(path, local.as_str()))
    }
}
