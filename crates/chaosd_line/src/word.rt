//! Words that stand for themselves.
ghost use Rattle.std.specs.Prelude.{◌≡◌};
ghost use Rattle.std.specs.List.{list_all};
ghost use Rattle.std.specs.Char.{is_ascii_graphic};
ghost use Rattle.chaosd_line.specs.Values.{is_contact, takes};

use crate::bad_value::{HOST_FORM, PATH_FORM};
use chaos_file::{is_path, is_user};
use chaos_host::MAX_CONTACT;
use chaosd_hosts::is_host_name;

/// Which words stand for themselves at a place.
#[derive(Clone, Copy)]
pub(crate) enum Word {
    /// Any text.
    Any,
    /// A contact name that may be asked for.
    Contact,
    /// A user's name.
    Login,
    /// A path of FILE.
    Path,
    /// A name of a host.
    HostName,
}

impl Word {
    /// What a message says that it expected.
    pub(crate) fn expected(self) -> &'static str {
        match self {
            Word::Any => "a value",
            Word::Contact => "1 to 64 printable ASCII characters, without a space",
            Word::Login => "1 to 16 letters and digits",
            Word::Path => PATH_FORM,
            Word::HostName => HOST_FORM,
        }
    }

    /// Whether a word is one of these.
    pub(crate) fn takes(self, word: &[u8]) -> bool
        ensures { result ≡ takes self word.now }
    {
        match self {
            Word::Any => true,
            Word::Contact => is_contact(word),
            Word::Login => is_user(word),
            Word::Path => is_path(word),
            Word::HostName => is_host_name(word),
        }
    }
}

fn all_graphic(bytes: &[u8]) -> bool
    ensures { result ≡ list_all is_ascii_graphic bytes.now }
{
    bytes.iter().all(|b| b.is_ascii_graphic())
}

/// Whether the bytes are a contact name that may be asked for.
fn is_contact(bytes: &[u8]) -> bool
    ensures { result ≡ is_contact bytes.now }
{
    1 <= bytes.len() && bytes.len() <= MAX_CONTACT && all_graphic(bytes)
}
