//! The words of the command line, as the system hands them over.
ghost use Rattle.std.specs.Prelude.{◌≡◌};
ghost use Rattle.chaosd_call.specs.Exit.{number_of};
ghost use Rattle.chaosd.specs.Status.{words_status};

use chaosd_call::ExitStatus;
use std::alloc::{AllocError, Global};
use std::env::FillError;
use std::rt::Env;
use thiserror::Error;

/// Why the words could not be had.
#[derive(Clone, Copy, Debug, PartialEq, Eq, Error)]
pub(crate) enum WordsFault {
    /// The word at this place is no text, so no line of the program has it there.
    #[error("argument {0} is not UTF-8; try --help")]
    NotText(usize),
    /// Memory ran out while the words were copied.
    #[error("out of memory while reading the command line")]
    NoMemory,
}

impl WordsFault {
    /// The exit status of a program that ends by this fault.
    pub(crate) fn status(self) -> ExitStatus
        // Words that can't be had end the program by the status of the line's own fault.
        ensures { number_of result ≡ words_status self }
    {
        match self {
            WordsFault::NotText(_) => ExitStatus::BadLine,
            WordsFault::NoMemory => ExitStatus::NoMemory,
        }
    }
}

impl From<AllocError> for WordsFault {
    fn from(_error: AllocError) -> Self {
        WordsFault::NoMemory
    }
}

/// What stands in the place of a word that is no text.
#[derive(Drop)]
pub(crate) struct Mark {
    /// The word's place: the first behind the program's name is at 1.
    pub(crate) place: usize,
    /// A legal path of FILE, which may therefore stand for each file of a line. It begins with a
    /// hyphen where the word does, so that a word that would be an option stands for no file.
    pub(crate) text: String,
}

/// The words after the program's name.
#[derive(Drop)]
pub(crate) struct Words {
    /// Each word that is text, and a mark's text in the place of each other.
    pub(crate) texts: Vec<String>,
    /// The marks, in their order.
    pub(crate) marks: Vec<Mark>,
}

/// The bytes of the word at this place, where there is one.
fn word_at<R: Env + AllocGlobal>(rt: &R, place: usize) -> Result<Option<Vec<u8>>, WordsFault> {
    let mut room: usize = 256;
    for _ in 0..usize::BITS {
        let mut bytes = vec![in rt.alloc(); 0u8; room]?;
        match rt.arg(place, bytes.as_mut_slice()) {
            Ok(count) => {
                bytes.truncate(count);
                return Ok(Some(bytes));
            }
            Err(FillError::NotPresent) => return Ok(None),
            Err(FillError::TooLong) => room = room.saturating_mul(2),
        }
    }
    Err(WordsFault::NoMemory)
}

impl Mark {
    /// The mark of this word, which is at this place.
    fn new(alloc: Global, place: usize, word: &[u8]) -> Result<Self, AllocError> {
        let hyphen = if word.starts_with(b"-") { "-" } else { "" };
        let text = format!(in alloc; "{hyphen}argument-{place}-is-not-UTF-8")?;
        Ok(Mark { place, text })
    }
}

impl Words {
    /// Puts the word at this place behind the others.
    fn push(&mut self, alloc: Global, place: usize, word: &[u8]) -> Result<(), WordsFault> {
        let text = match str::from_utf8(word) {
            Ok(text) => String::from_str(alloc, text)?,
            Err(_) => {
                let mark = Mark::new(alloc, place, word)?;
                let text = mark.text.clone()?;
                self.marks.push(mark).map_err(|_| WordsFault::NoMemory)?;
                text
            }
        };
        self.texts.push(text).map_err(|_| WordsFault::NoMemory)
    }
}

/// The words after the program's name.
pub(crate) fn words_of<R: Env + AllocGlobal>(rt: &R) -> Result<Words, WordsFault> {
    let mut words = Words {
        texts: Vec::new(rt.alloc()),
        marks: Vec::new(rt.alloc()),
    };
    for place in 1..usize::MAX {
        match word_at(rt, place)? {
            Some(word) => words.push(rt.alloc(), place, word.as_slice())?,
            None => break,
        }
    }
    Ok(words)
}
