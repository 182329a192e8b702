//! A user who talks with a server.
ghost use Rattle.std.specs.Prelude.{◌≡◌, ◌≤◌, IfErr, OnOk, length};
ghost use Rattle.chaos_file.specs.declared.limits.TheConstants.{MAX_NAME};

use crate::login::Login;
use crate::talk::Talk;
use chaos_node::NodeFault;

/// A talk of a user. Over each new connection a LOGIN goes in front of the first command. The turns
/// take the reply to the LOGIN, so that the first commands don't wait for that reply. With the LOGIN
/// no more commands are without a reply than the server's window allows.
/// Once a reply came that doesn't log the user in, the talk is over, and no command goes any more.
#[derive(Drop)]
pub struct UserTalk<'a, T: Talk> {
    /// The talk with the server.
    pub talk: T,
    /// The name by which the user logs in.
    pub name: &'a str,
    /// How far the LOGIN has come.
    pub login: Login,
    /// How many commands may still go before the reply to the LOGIN comes.
    pub room: usize,
    ghost name_fits: { length name.now ≤ MAX_NAME },
}

impl<'a, T: Talk> UserTalk<'a, T> {
    /// The LOGIN wasn't sent yet.
    pub fn new(talk: T, name: &'a str) -> Self
        requires { length name.now ≤ MAX_NAME }
        // The user's talk is the one that was handed in, and the user has this name.
        ensures has { (result.talk ≡ talk) × (result.name.now ≡ name.now) }
        // The LOGIN wasn't sent.
        ensures unsent { result.login ≡ Login.Unsent }
    {
        UserTalk {
            talk,
            name,
            login: Login::Unsent,
            room: 0,
        }
    }

    /// Asks for a connection over which the user of this name logs in.
    ///
    /// # Errors
    /// Those of the talk's turns.
    pub fn enter(&mut self, name: &'a str) -> Result<(), NodeFault>
        requires { length name.now ≤ MAX_NAME }
        // Where it ends well, the talk asked for a connection, the user has this name, and the LOGIN
        // wasn't sent over the connection.
        ensures entered { OnOk result (T.connects self.old.talk self.new.talk
            × (self.new.login ≡ Login.Unsent) × (self.new.name.now ≡ name.now)) }
        // A connection that was asked for counted no failure.
        ensures unfailed { OnOk result
            ((T.course self.new.talk).failures ≤ (T.course self.old.talk).failures) }
        // The patience stays as it is.
        ensures patient { (T.course self.new.talk).patience ≡ (T.course self.old.talk).patience }
        // It fails by a fault that `failed_by` tells of the talk.
        ensures faults { IfErr result (T.failed_by self.new.talk) }
    {
        self.name = name;
        self.login = Login::Unsent;
        self.talk.connect()
    }
}
