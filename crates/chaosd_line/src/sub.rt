//! The subcommands, each with its words and the texts of its help.
ghost use Rattle.std.specs.Prelude.{◌≡◌};
ghost use Rattle.chaosd_line.specs.CommandLine.{app_named, sub_names};
ghost use Rattle.chaosd_line.specs.Plan.{app_of_sub};

use crate::argument::{Argument, Arity};
use crate::help;

/// The name of a subcommand. Each has a table of its own, since one large one would be dear to
/// prove.
pub(crate) enum SubName {
    /// `show`.
    Show,
    /// `lab`.
    Lab,
    /// `filelab`.
    FileLab,
    /// `loop`.
    Loop,
    /// `serve`.
    Serve,
    /// `ask`.
    Ask,
    /// `get`.
    Get,
    /// `put`.
    Put,
    /// `delete`.
    Delete,
    /// `rename`.
    Rename,
}

/// A subcommand.
pub(crate) struct Sub {
    /// Its name.
    pub(crate) name: &'static str,
    /// What its usage calls it.
    pub(crate) shown: &'static str,
    /// What the help says of it.
    pub(crate) about: &'static str,
    /// What its own help ends with.
    pub(crate) example: Option<&'static str>,
    /// Its usage, where clap's own doesn't say enough.
    pub(crate) usage: Option<&'static str>,
    /// The names, in its usage, of the words that it needs in the short form.
    pub(crate) needs: Option<&'static str>,
    /// Its words.
    pub(crate) words: &'static [Argument<'static>],
}

const CARRIAGE: Argument<'static> = Argument("carriage", Arity::Default("N", "1"), help::CARRIAGE);

const CHUDP: Argument<'static> = Argument("chudp", Arity::Flag, help::CHUDP);

const BRIDGE: Argument<'static> = Argument("bridge", Arity::Optional("ADDRESS"), help::BRIDGE);

const KEY: Argument<'static> = Argument("key", Arity::Optional("FILE"), help::KEY);

const CONTACT: Argument<'static> = Argument(
    "contact",
    Arity::Default("NAME", "FILE"),
    help::CONTACT,
);

const LOGIN: Argument<'static> = Argument("login", Arity::Default("NAME", "CHAOSD"), help::LOGIN);

const WINDOW: Argument<'static> = Argument("window", Arity::Default("N", "64"), help::WINDOW);

const TIMEOUT: Argument<'static> = Argument(
    "timeout",
    Arity::ShortOptional('t', "SECONDS"),
    help::TIMEOUT,
);

const RETRANSMIT: Argument<'static> = Argument(
    "retransmit",
    Arity::Optional("MS"),
    help::RETRANSMIT,
);

const ANY_SOURCE: Argument<'static> = Argument("any-source", Arity::Flag, help::ANY_SOURCE);

const TEXT: Argument<'static> = Argument("text", Arity::Flag, help::TEXT);

const QUIET: Argument<'static> = Argument("quiet", Arity::ShortFlag('q'), help::QUIET);

const VERBOSE: Argument<'static> = Argument("verbose", Arity::ShortFlag('v'), help::VERBOSE);

const COPY_VERBOSE: Argument<'static> = Argument(
    "verbose",
    Arity::ShortFlag('v'),
    help::COPY_VERBOSE,
);

const OUTPUT: Argument<'static> = Argument(
    "output",
    Arity::ShortOptional('o', "LOCAL"),
    help::OUTPUT,
);

const RECURSIVE: Argument<'static> = Argument("recursive", Arity::HiddenFlag('r'), help::RECURSIVE);

const HOSTS: Argument<'static> = Argument("hosts", Arity::Optional("FILE"), help::HOSTS);

const RENAMING: Argument<'static> = Argument("rename", Arity::Flag, help::RENAMING);

const AS: Argument<'static> = Argument("as", Arity::Optional("PATH"), help::AS);

/// The words of a subcommand that calls a server: the options of all, its own options, and the
/// words that aren't options.
macro_rules! call_words {
    ($verbose:expr, [$($option:expr),*], $words:expr) => {
        &[
            CARRIAGE, CHUDP, BRIDGE, KEY, CONTACT, LOGIN, WINDOW, TIMEOUT, ANY_SOURCE, QUIET,
            $verbose, $($option,)* HOSTS, Argument("WORD", Arity::Several, $words),
        ]
    };
}

static SHOW: Sub = Sub {
    name: "show",
    shown: "chaosd show",
    about: help::SHOW,
    example: None,
    usage: None,
    needs: None,
    words: &[
        Argument("file", Arity::Flag, help::SHOW_FILE),
        Argument("chudp", Arity::Flag, help::SHOW_CHUDP),
    ],
};

static LAB: Sub = Sub {
    name: "lab",
    shown: "chaosd lab",
    about: help::LAB,
    example: None,
    usage: None,
    needs: None,
    words: &[],
};

static FILELAB: Sub = Sub {
    name: "filelab",
    shown: "chaosd filelab",
    about: help::FILELAB,
    example: None,
    usage: None,
    needs: None,
    words: &[],
};

static LOOP: Sub = Sub {
    name: "loop",
    shown: "chaosd loop",
    about: help::LOOP,
    example: None,
    usage: None,
    needs: None,
    words: &[CARRIAGE],
};

static SERVE: Sub = Sub {
    name: "serve",
    shown: "chaosd serve",
    about: help::SERVE,
    example: Some(help::SERVE_EXAMPLE),
    usage: Some(help::SERVE_USAGE),
    needs: Some("FOLDER"),
    words: &[
        Argument("turns", Arity::Default("N", "1000000000"), help::TURNS),
        CARRIAGE,
        CHUDP,
        BRIDGE,
        Argument("key", Arity::Optional("FILE"), help::SERVE_KEY),
        Argument("window", Arity::Default("N", "13"), help::SERVE_WINDOW),
        RETRANSMIT,
        Argument("quiet", Arity::ShortFlag('q'), help::SERVE_QUIET),
        Argument("log", Arity::Default("LEVEL", "normal"), help::LOG),
        Argument("log-time", Arity::Flag, help::LOG_TIME),
        Argument("only-peers", Arity::Flag, help::ONLY_PEERS),
        Argument("read-only", Arity::Flag, help::READ_ONLY),
        HOSTS,
        Argument("WORD", Arity::Several, help::SERVE_WORDS),
    ],
};

static ASK: Sub = Sub {
    name: "ask",
    shown: "chaosd ask",
    about: help::ASK,
    example: Some(help::ASK_EXAMPLE),
    usage: Some(help::ASK_USAGE),
    needs: Some("HOST"),
    words: &[
        CARRIAGE,
        CHUDP,
        BRIDGE,
        KEY,
        CONTACT,
        Argument(
            "timeout",
            Arity::ShortOptional('t', "SECONDS"),
            help::ASK_TIMEOUT,
        ),
        RETRANSMIT,
        ANY_SOURCE,
        Argument("strict", Arity::Flag, help::STRICT),
        QUIET,
        VERBOSE,
        HOSTS,
        Argument("WORD", Arity::Several, help::ASK_WORDS),
    ],
};

static GET: Sub = Sub {
    name: "get",
    shown: "chaosd get",
    about: help::GET,
    example: Some(help::GET_EXAMPLE),
    usage: Some(help::GET_USAGE),
    needs: Some("HOST:PATH"),
    words: call_words!(COPY_VERBOSE, [TEXT, OUTPUT], help::GET_WORDS),
};

static PUT: Sub = Sub {
    name: "put",
    shown: "chaosd put",
    about: help::PUT,
    example: Some(help::PUT_EXAMPLE),
    usage: Some(help::PUT_USAGE),
    needs: Some("LOCAL and HOST:"),
    words: call_words!(
        COPY_VERBOSE,
        [TEXT, RENAMING, AS, RECURSIVE],
        help::PUT_WORDS
    ),
};

static DELETE: Sub = Sub {
    name: "delete",
    shown: "chaosd delete",
    about: help::DELETE,
    example: Some(help::DELETE_EXAMPLE),
    usage: Some(help::DELETE_USAGE),
    needs: Some("HOST:PATH"),
    words: call_words!(VERBOSE, [], help::DELETE_WORDS),
};

static RENAME: Sub = Sub {
    name: "rename",
    shown: "chaosd rename",
    about: help::RENAME,
    example: Some(help::RENAME_EXAMPLE),
    usage: Some(help::RENAME_USAGE),
    needs: Some("HOST:OLD and NEW"),
    words: call_words!(VERBOSE, [], help::RENAME_WORDS),
};

/// The names of the subcommands, in the order of the help.
static NAMES: [SubName; 10] = [
    SubName::Show,
    SubName::Lab,
    SubName::FileLab,
    SubName::Loop,
    SubName::Serve,
    SubName::Ask,
    SubName::Get,
    SubName::Put,
    SubName::Delete,
    SubName::Rename,
];

/// The names of the subcommands, in the order of the help.
pub(crate) fn sub_names() -> &'static [SubName]
    ensures { result.now ≡ sub_names }
{
    &NAMES
}

/// The subcommand of a name.
pub(crate) fn sub_of(name: &SubName) -> &'static Sub
    ensures { app_of_sub result.now ≡ app_named name.now }
{
    match name {
        SubName::Show => &SHOW,
        SubName::Lab => &LAB,
        SubName::FileLab => &FILELAB,
        SubName::Loop => &LOOP,
        SubName::Serve => &SERVE,
        SubName::Ask => &ASK,
        SubName::Get => &GET,
        SubName::Put => &PUT,
        SubName::Delete => &DELETE,
        SubName::Rename => &RENAME,
    }
}
