//! Words that are not of their form, and words that don't go with the others.
ghost use Rattle.std.specs.Prelude.{◌≡◌};

use chaos_file::PrintedName;
use std::alloc::{AllocError, Global};

/// The form of a peer.
pub(crate) const ENTRY_FORM: &str =
    "a Chaosnet address or `*`, then `=` and a UDP address with a port from 1 to 65535, such as 402=127.0.0.1:9002";

/// The form of a host that is followed.
pub(crate) const FOLLOWED_FORM: &str =
    "a Chaosnet address in front of `=*`, such as 402=*: 1 to 6 octal digits, from 1 to 177777";

/// The form of the peers where two are a bridge.
pub(crate) const BRIDGE_ONCE_FORM: &str = "at most one bridge";

/// The form of the peers where there are too many.
pub(crate) const PEERS_FORM: &str = "at most 32 peers";

/// The form of the peers where two have one address.
pub(crate) const ONCE_FORM: &str = "each Chaosnet address once";

/// The form of a path of the server.
pub(crate) const PATH_FORM: &str =
    "a path of FILE: 1 to 64 letters, digits, dots, hyphens and underscores, without a leading dot";

/// The form of the paths of the server where one stands there twice.
pub(crate) const PATH_ONCE_FORM: &str = "each path once";

/// The form of local files that are put under their own names.
pub(crate) const LOCALS_FORM: &str = "a name for standard input, given with --as";

/// The form of the host that is called.
pub(crate) const OTHER_FORM: &str = "a Chaosnet address other than this host's own";

/// The form of a name of a host.
pub(crate) const HOST_FORM: &str =
    "a host's name: 1 to 64 letters, digits, hyphens and dots, one of them a letter";

/// The form of a word that names a file of a host.
pub(crate) const HOST_PATH_FORM: &str = "a host's name, a colon and a path, such as lispm:A.LISP";

/// The form of the word that names the host of `put`.
pub(crate) const BARE_HOST_FORM: &str =
    "a host's name and a colon at the end of the line, such as lispm:";

/// The form of the word that names the host of `put` where a name stands behind its colon.
pub(crate) const KEPT_NAME_FORM: &str =
    "nothing after the colon. put keeps a file's name, unless --as PATH gives another";

/// The form of the word that names a host where the word was to be an address.
pub(crate) const NO_ADDRESS_FORM: &str =
    "a host's name. To give addresses, begin the line with ADDRESS and UDP";

/// The form of the new name of a file where the word names a host too.
pub(crate) const STAYS_FORM: &str = "a path without a host, because a file stays on its host";

/// The form of words that name files of one host.
pub(crate) const ONE_HOST_FORM: &str = "one host in the whole line";

/// The form of a path that was to be a pattern.
pub(crate) const PATTERN_FORM: &str = "a path without * and ?. FILE has no listing: name each file";

/// Why a host that is followed doesn't go with `serve --only-peers`.
pub(crate) const UNKNOWN_PLACE: &str =
    "can't be used with '--only-peers', because no UDP address of that host is known";

/// Why a host that is followed doesn't go with `ask`.
pub(crate) const ASK_FOLLOWS: &str =
    "can't be used, because ask sends first and needs a UDP address";

/// Why the hosts table doesn't go with a line in the long form.
pub(crate) const SHORT_FORM: &str =
    "can't be used in a line that begins with ADDRESS, because such a line has all addresses itself";

/// Why a folder isn't put.
pub(crate) const NO_FOLDERS: &str = "FILE has no folders: name the files, as in DIR/*";

/// Why a place for the files doesn't go with another one.
pub(crate) const ONE_PLACE: &str = "can't be used where the last word says where the files go";

/// Why a carriage doesn't go with the other words.
pub(crate) const ONE_PACKET: &str =
    "can't be used with '--chudp', because a CHUDP datagram carries one packet";

/// Why a bridge's address doesn't go with the other words.
pub(crate) const NEEDS_CHUDP: &str = "needs '--chudp', because only CHUDP names a bridge";

/// Why a key doesn't go with CHUDP.
pub(crate) const OWN_FORM: &str =
    "can't be used with '--chudp', because a key needs datagrams of this program's own form";

/// Why a key doesn't go with a hosts table that is served.
pub(crate) const TABLE_KEYS: &str =
    "can't be used with a hosts table: write key=FILE into the table, on the line of each host that has the key";

/// Why a local file that is no folder doesn't go with the other words.
pub(crate) const ONE_PATH: &str =
    "names one file for several PATHs: the name of a folder ends with /, such as DIR/";

/// Why a name to put a file under doesn't go with the other words.
pub(crate) const ONE_LOCAL: &str = "takes one LOCAL alone";

/// Two local files that would go under one path.
#[derive(Clone, Copy)]
pub(crate) struct Clash<'a> {
    /// The one that stands in front.
    pub(crate) first: &'a str,
    /// The other, which would replace it.
    pub(crate) second: &'a str,
}

impl Clash<'_> {
    /// The message to the user.
    pub(crate) fn message(&self, alloc: Global) -> Result<String, AllocError> {
        let first = PrintedName(self.first);
        let second = PrintedName(self.second);
        format!(in alloc;
            "the files '{first}' and '{second}' would go under one path: put one of them alone, with '--as'"
        )
    }
}

/// The dashes in front of a place: the name of an option begins with a small letter.
fn dashes_of(place: &str) -> &'static str {
    match place.as_bytes() {
        [first, ..] if first.is_ascii_lowercase() => "--",
        _ => "",
    }
}

/// What is wrong with a word.
#[derive(Clone, Copy)]
pub(crate) enum Problem<'a> {
    /// The word is not of this form.
    Form(&'a str),
    /// The word is of its form, but it doesn't go with the others, for this reason.
    Misfit(&'a str),
    /// There is no word at the place, which is beside this other one.
    Missing(&'a str),
    /// The line has no place for the word.
    Extra,
    /// The flag asks for what can't be, for this reason.
    Impossible(&'a str),
}

/// A word that is not of its form, or that doesn't go with the others.
#[derive(Clone, Copy)]
pub(crate) struct BadValue<'a> {
    /// The word as it was given.
    pub(crate) text: &'a str,
    /// The place, by the name that clap knows.
    pub(crate) place: &'a str,
    /// What is wrong with the word.
    pub(crate) problem: Problem<'a>,
}

impl<'a> BadValue<'a> {
    /// A word that is not of the form of its place.
    pub(crate) fn new(text: &'a str, place: &'a str, form: &'a str) -> BadValue<'a>
        ensures { result.text ≡ text.entry }
    {
        BadValue {
            text,
            place,
            problem: Problem::Form(form),
        }
    }

    /// A word that doesn't go with the other words.
    pub(crate) fn misfit(text: &'a str, place: &'a str, reason: &'a str) -> BadValue<'a> {
        BadValue {
            text,
            place,
            problem: Problem::Misfit(reason),
        }
    }

    /// That there is no word at a place.
    pub(crate) fn missing(place: &'a str, beside: &'a str) -> BadValue<'a> {
        BadValue {
            text: "",
            place,
            problem: Problem::Missing(beside),
        }
    }

    /// A word for which the line has no place.
    pub(crate) fn extra(text: &'a str) -> BadValue<'a> {
        BadValue {
            text,
            place: "",
            problem: Problem::Extra,
        }
    }

    /// A flag that asks for what can't be.
    pub(crate) fn impossible(flag: &'a str, reason: &'a str) -> BadValue<'a> {
        BadValue {
            text: "",
            place: flag,
            problem: Problem::Impossible(reason),
        }
    }

    /// The message to the user.
    pub(crate) fn message(&self, alloc: Global) -> Result<String, AllocError> {
        let place = self.place;
        let dashes = dashes_of(place);
        let text = PrintedName(self.text);
        match self.problem {
            Problem::Form(form) => {
                format!(in alloc; "invalid value '{text}' for '{dashes}{place}': expected {form}")
            }
            Problem::Misfit(reason) => {
                format!(in alloc; "the argument '{dashes}{place} {text}' {reason}")
            }
            Problem::Missing(beside) => format!(in alloc; "the line needs {place} {beside}"),
            Problem::Extra => format!(in alloc; "unexpected argument '{text}' found"),
            Problem::Impossible(reason) => {
                format!(in alloc; "the flag '{dashes}{place}' can't be used: {reason}")
            }
        }
    }
}
