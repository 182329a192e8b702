//! A command, and what its bytes say.
ghost use Rattle.std.specs.Prelude.{◌≡◌};
ghost use Rattle.chaos_file.specs.Command.{word_said, tid_of, handle_of};
ghost use Rattle.chaos_file.specs.Views.{command_view, parsed_view};

/// The words of the commands.
#[derive(Clone, Copy, Debug, PartialEq, Eq)]
pub enum Word {
    /// `LOGIN`: names the user.
    Login,
    /// `OPEN`: opens a file by a handle, to read or to write.
    Open,
    /// `READ`: the next bytes of a handle.
    Read,
    /// `WRITE`: adds bytes to a handle.
    Write,
    /// `CLOSE`: ends a handle; what was written becomes the file.
    Close,
    /// `RENAME`: moves a file to another path.
    Rename,
    /// `DELETE`: takes a file out of the store.
    Delete,
}

/// A command of the right form, without its tid and handle. Its parts are lent from the command's
/// bytes.
#[derive(Clone, Copy, Debug, PartialEq, Eq)]
pub enum Command<'a> {
    /// The user's name, 1 to 16 letters and digits.
    Login(&'a [u8]),
    /// The path of a file to be read.
    OpenRead(&'a [u8]),
    /// The path of a file to be written.
    OpenWrite(&'a [u8]),
    /// No parts.
    Read,
    /// The bytes to be added, at most 448.
    Write(&'a [u8]),
    /// No parts.
    Close,
    /// The path of a file, and the path that it moves to.
    Rename(&'a [u8], &'a [u8]),
    /// The path of a file.
    Delete(&'a [u8]),
}

/// What a command's bytes say: its tid and handle where they can be read, and the command, or the
/// first check that it doesn't pass. Whether the user may give the command isn't asked here.
#[derive(Clone, Copy, Debug, PartialEq, Eq)]
pub enum Parsed<'a> {
    /// The tid or the handle can't be read.
    BadHead,
    /// The word is empty.
    NoWord(&'a [u8], &'a [u8]),
    /// The word is none of the seven.
    Unknown(&'a [u8], &'a [u8]),
    /// The handle, or what stands behind the word, isn't of the word's form.
    BadForm(&'a [u8], &'a [u8], Word),
    /// The form is right, and a path is not legal.
    BadPath(&'a [u8], &'a [u8], Word),
    /// A command of the right form.
    Good(&'a [u8], &'a [u8], Command<'a>),
}

impl Command<'_> {
    /// The command's word.
    pub fn word(&self) -> Word
        // It is the word that the command's bytes have.
        ensures { result ≡ word_said (command_view self.now) }
    {
        match self {
            Command::Login(_) => Word::Login,
            Command::OpenRead(_) => Word::Open,
            Command::OpenWrite(_) => Word::Open,
            Command::Read => Word::Read,
            Command::Write(_) => Word::Write,
            Command::Close => Word::Close,
            Command::Rename(_, _) => Word::Rename,
            Command::Delete(_) => Word::Delete,
        }
    }
}

impl<'a> Parsed<'a> {
    /// The tid that a reply gives back.
    pub fn tid(&self) -> &'a [u8]
        // It is the tid of the command, and empty where it can't be read.
        ensures { result.now ≡ tid_of (parsed_view self.now) }
    {
        match self {
            Parsed::BadHead => &[],
            Parsed::NoWord(tid, _) => tid,
            Parsed::Unknown(tid, _) => tid,
            Parsed::BadForm(tid, _, _) => tid,
            Parsed::BadPath(tid, _, _) => tid,
            Parsed::Good(tid, _, _) => tid,
        }
    }

    /// The handle that a reply gives back.
    pub fn handle(&self) -> &'a [u8]
        // It is the handle of the command, and empty where it can't be read.
        ensures { result.now ≡ handle_of (parsed_view self.now) }
    {
        match self {
            Parsed::BadHead => &[],
            Parsed::NoWord(_, handle) => handle,
            Parsed::Unknown(_, handle) => handle,
            Parsed::BadForm(_, handle, _) => handle,
            Parsed::BadPath(_, handle, _) => handle,
            Parsed::Good(_, handle, _) => handle,
        }
    }
}
