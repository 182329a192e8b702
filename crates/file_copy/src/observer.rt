//! Who observes a talk.
ghost use Rattle.std.specs.Prelude.{◌≡◌, Bool, false};

/// Whoever is shown how far the copy of a file has come, and knows whether anybody is there to
/// reply. A copy lends its observer nothing of the talk or of the file.
pub trait Observer {
    /// Whether nobody is there to reply.
    ghost gone: { Self → Bool };

    /// The file that is copied has so many bytes.
    fn expect(&mut self, bytes: usize);

    /// So many bytes of the file were copied.
    fn reach(&mut self, bytes: usize);

    /// The file has more commands than the server's window allows. At most so many are ever without
    /// a reply.
    fn bound(&mut self, commands: usize);

    /// A reply came.
    fn hear(&mut self);

    /// A turn was taken, and this is the moment, in milliseconds since some beginning.
    fn look(&mut self, moment: u64);

    /// Whether nobody is there to reply: no reply is waited for any more.
    fn is_gone(&self) -> bool
        // The result is what the observer says of the state that it is in.
        ensures { result ≡ gone self.now };
}

/// No observer: nobody is shown anything, and replies are always waited for.
#[derive(Clone, Copy)]
pub struct Unobserved;

impl Observer for Unobserved {
    ghost gone = { λ _. false };

    fn expect(&mut self, bytes: usize) {}

    fn reach(&mut self, bytes: usize) {}

    fn bound(&mut self, commands: usize) {}

    fn hear(&mut self) {}

    fn look(&mut self, moment: u64) {}

    fn is_gone(&self) -> bool {
        false
    }
}
