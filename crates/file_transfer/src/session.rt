//! A user who copies files over one connection after another.
ghost use Rattle.std.specs.Prelude.{◌≡◌, ◌≤◌, [], false, true, length, IfErr, OnErr, OnOk, Ok};
ghost use Rattle.chaos_file.specs.declared.limits.TheConstants.{MAX_FILE, MAX_NAME, MAX_PATH};
ghost use Rattle.file_copy.specs.Ends.{IfDone};
ghost use Rattle.file_copy.specs.User.{user_talked};
ghost use Rattle.file_copy.specs.declared.login.Login.TheVariants.{Done as LoggedIn};
ghost use Rattle.file_transfer.specs.Sessions.{Does, Enters, EntersAnd, delete_of, get_of, put_of, rename_of};
ghost use Rattle.file_transfer.specs.Settling.{is_done, is_replied};
ghost use Rattle.file_transfer.specs.Outcome.{is_well};

use crate::outcome::Outcome;
use crate::progress_sink::ProgressSink;
use crate::settling::{change_end, is_done, is_replied, settle};
use chaos_node::NodeFault;
use file_copy::{CopyEnd, Talk, UserTalk, delete_file, get_file, put_file, rename_file};

/// The number from which on a file's commands are named. Each file begins with it: a reply that is
/// still on its way finds a connection that is gone, since one is made anew after each file whose
/// replies were not all received.
const FIRST: u32 = 1;

/// A user who copies files over a connection, which is made anew after a file that wasn't copied:
/// then replies may still be on their way.
#[derive(Drop)]
pub struct Session<'a, T: Talk, V: ProgressSink> {
    /// The user's talk with the server.
    pub user: UserTalk<'a, T>,
    /// Whoever is shown how far a file has come.
    pub progress: V,
    /// The name by which the user logs in.
    pub login: &'a str,
    /// Whether the user has logged in, and every reply was received.
    pub is_in: bool,
    ghost login_fits: { length login.now ≤ MAX_NAME },
    ghost inside: { is_in ≡ true → user.login ≡ LoggedIn },
}

impl<'a, T: Talk, V: ProgressSink> Session<'a, T, V> {
    /// Nothing is sent yet.
    pub fn new(talk: T, progress: V, login: &'a str) -> Self
        requires { length login.now ≤ MAX_NAME }
        // The session has the talk and the progress sink that were handed in.
        ensures has { (result.user.talk ≡ talk) × (result.progress ≡ progress) }
        // Nobody is logged in yet, and who will be has this name.
        ensures outside { (result.is_in ≡ false) × (result.login.now ≡ login.now) }
    {
        Session {
            user: UserTalk::new(talk, login),
            progress,
            login,
            is_in: false,
        }
    }

    /// Asks for a connection, where the user isn't logged in.
    fn enter(&mut self) -> Result<(), Outcome>
        ensures entered { OnOk result
            (Enters T.connects self.old.is_in self.old.login.now self.old.user self.new.user) }
        ensures missed { IfErr result (λ outcome. is_well outcome ≡ false) }
        ensures outside { OnErr result (self.new.is_in ≡ false) }
        ensures same { (self.new.is_in ≡ self.old.is_in) × (self.new.login ≡ self.old.login) }
    {
        if self.is_in {
            return Ok(());
        }
        self.user.enter(self.login).map_err(Outcome::Failed)
    }

    /// What came of a file whose copy ended so, where the file wasn't copied.
    fn settle(&mut self, end: Result<CopyEnd, NodeFault>) -> Result<(), Outcome>
        // Who stays logged in has every reply.
        requires replied { self.old.is_in ≡ true → is_replied end ≡ true }
        ensures done { OnOk result (end ≡ Ok CopyEnd.Done) }
        ensures missed { IfErr result (λ outcome. is_well outcome ≡ false) }
        ensures still { OnOk result (self.new.user ≡ self.old.user) }
        ensures failed { OnErr result (is_done end ≡ true → self.new.is_in ≡ false) }
        ensures same { (self.new.is_in ≡ self.old.is_in) × (self.new.login ≡ self.old.login) }
    {
        let end = self.user.ended(end);
        settle(&mut self.user, end)
    }

    /// Gets a file over a connection that has begun.
    fn get_on(&mut self, path: &[u8], bytes: &mut Vec<u8>) -> Result<CopyEnd, NodeFault>
        requires path { length path.now ≤ MAX_PATH }
        requires empty { bytes.old.items ≡ [] }
        // If the get is Done, exactly all that gets this file was sent and received beside the LOGIN.
        ensures got { IfDone result
            (Does (user_talked T.talked) (get_of path.now bytes.new.items) self.old.user
            self.new.user) }
        // The next file goes over this connection only where every reply was received.
        ensures stays { self.new.is_in ≡ is_done result }
        ensures same { self.new.login ≡ self.old.login }
    {
        let end = get_file(&mut self.user, FIRST, path, bytes, &mut self.progress);
        self.progress.end();
        self.is_in = is_done(&end);
        end
    }

    /// Gets a file, and shows how far it has come.
    pub(crate) fn get(&mut self, path: &str, bytes: &mut Vec<u8>) -> Result<(), Outcome>
        requires path { length path.now ≤ MAX_PATH }
        requires empty { bytes.old.items ≡ [] }
        // Where it is got, the user entered, and sent exactly all that gets this file.
        ensures got { OnOk result
            (EntersAnd T.talked T.connects self.old.is_in self.old.login.now self.old.user.talk
            (get_of path.now bytes.new.items) self.new.user.talk) }
        ensures inside { OnOk result (self.new.is_in ≡ true) }
        ensures missed { IfErr result (λ outcome. is_well outcome ≡ false) }
        // After a file that wasn't got a new connection is asked for.
        ensures outside { OnErr result (self.new.is_in ≡ false) }
        ensures same { self.new.login ≡ self.old.login }
    {
        self.enter()?;
        self.progress.begin(path, self.user.moment());
        let end = self.get_on(path.as_bytes(), bytes);
        self.settle(end)
    }

    /// Puts a file over a connection that has begun.
    fn put_on(&mut self, path: &[u8], bytes: &[u8]) -> Result<CopyEnd, NodeFault>
        requires path { length path.now ≤ MAX_PATH }
        requires fits { length bytes.now ≤ MAX_FILE }
        // If the put is Done, exactly all that puts this file was sent and received beside the LOGIN.
        ensures put { IfDone result
            (Does (user_talked T.talked) (put_of path.now bytes.now) self.old.user self.new.user) }
        ensures stays { self.new.is_in ≡ is_done result }
        ensures same { self.new.login ≡ self.old.login }
    {
        let end = put_file(&mut self.user, FIRST, path, bytes, &mut self.progress);
        self.progress.end();
        self.is_in = is_done(&end);
        end
    }

    /// Puts a file, and shows how far the local one has come.
    pub(crate) fn put(&mut self, local: &str, path: &[u8], bytes: &[u8]) -> Result<(), Outcome>
        requires path { length path.now ≤ MAX_PATH }
        requires fits { length bytes.now ≤ MAX_FILE }
        // Where it is put, the user entered, and sent exactly all that puts this file.
        ensures put { OnOk result
            (EntersAnd T.talked T.connects self.old.is_in self.old.login.now self.old.user.talk
            (put_of path.now bytes.now) self.new.user.talk) }
        ensures inside { OnOk result (self.new.is_in ≡ true) }
        ensures missed { IfErr result (λ outcome. is_well outcome ≡ false) }
        ensures outside { OnErr result (self.new.is_in ≡ false) }
        ensures same { self.new.login ≡ self.old.login }
    {
        self.enter()?;
        self.progress.begin(local, self.user.moment());
        let end = self.put_on(path, bytes);
        self.settle(end)
    }

    /// Has the server delete a file over a connection that has begun.
    fn delete_on(&mut self, path: &[u8]) -> Result<CopyEnd, NodeFault>
        requires { length path.now ≤ MAX_PATH }
        ensures done { IfDone result
            (Does (user_talked T.talked) (delete_of path.now) self.old.user self.new.user) }
        // A refusal is the reply to the change, so that no other reply is on its way.
        ensures stays { self.new.is_in ≡ is_replied result }
        ensures same { self.new.login ≡ self.old.login }
    {
        let end = delete_file(&mut self.user, FIRST, path, &mut self.progress);
        self.is_in = is_replied(&end);
        end
    }

    /// Has the server delete a file.
    ///
    /// # Errors
    /// What came of it otherwise: it is `Unknown` whether that was done where the command got no
    /// reply.
    pub fn delete(&mut self, path: &[u8]) -> Result<(), Outcome>
        requires { length path.now ≤ MAX_PATH }
        // Where it is done, the user entered, sent exactly the DELETE of this path, and received
        // exactly that it was done.
        ensures done { OnOk result
            (EntersAnd T.talked T.connects self.old.is_in self.old.login.now self.old.user.talk
            (delete_of path.now) self.new.user.talk) }
        // The user is then logged in, and every reply was received.
        ensures inside { OnOk result (self.new.is_in ≡ true) }
        // Otherwise what came of it is no success.
        ensures missed { IfErr result (λ outcome. is_well outcome ≡ false) }
        // The name by which the user logs in stays.
        ensures same { self.new.login ≡ self.old.login }
    {
        self.enter()?;
        let end = self.delete_on(path);
        self.settle(change_end(end))
    }

    /// Has the server rename a file over a connection that has begun.
    fn rename_on(&mut self, old: &[u8], new: &[u8]) -> Result<CopyEnd, NodeFault>
        requires old { length old.now ≤ MAX_PATH }
        requires new { length new.now ≤ MAX_PATH }
        ensures done { IfDone result
            (Does (user_talked T.talked) (rename_of old.now new.now) self.old.user
            self.new.user) }
        ensures stays { self.new.is_in ≡ is_replied result }
        ensures same { self.new.login ≡ self.old.login }
    {
        let end = rename_file(&mut self.user, FIRST, old, new, &mut self.progress);
        self.is_in = is_replied(&end);
        end
    }

    /// Has the server rename a file.
    ///
    /// # Errors
    /// What came of it otherwise: it is `Unknown` whether that was done where the command got no
    /// reply.
    pub fn rename(&mut self, old: &[u8], new: &[u8]) -> Result<(), Outcome>
        requires old { length old.now ≤ MAX_PATH }
        requires new { length new.now ≤ MAX_PATH }
        // Where it is done, the user entered, sent exactly the RENAME of these paths, and received
        // exactly that it was done.
        ensures done { OnOk result
            (EntersAnd T.talked T.connects self.old.is_in self.old.login.now self.old.user.talk
            (rename_of old.now new.now) self.new.user.talk) }
        // The user is then logged in, and every reply was received.
        ensures inside { OnOk result (self.new.is_in ≡ true) }
        // Otherwise what came of it is no success.
        ensures missed { IfErr result (λ outcome. is_well outcome ≡ false) }
        // The name by which the user logs in stays.
        ensures same { self.new.login ≡ self.old.login }
    {
        self.enter()?;
        let end = self.rename_on(old, new);
        self.settle(change_end(end))
    }

    /// Ends the connection, at once where nobody is there to reply. What fails then changes nothing
    /// of what was copied.
    pub fn end(&mut self)
        // The progress sink stays as it is.
        ensures { self.new.progress ≡ self.old.progress }
    {
        self.is_in = false;
        self.user.end(!self.progress.is_gone());
    }
}
