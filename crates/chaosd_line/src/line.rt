//! What a command line asks for.
ghost use Rattle.std.specs.Prelude.{◌≡◌, ◌≤◌, length, true};
ghost use Rattle.chaos_file.specs.declared.limits.TheConstants.{MAX_NAME};
ghost use Rattle.chaosd_line.specs.Values.{is_contact};

use crate::ends::{AskTarget, ServePlace, Target};
use crate::framing::Framing;
use chaos_link::Carriage;
use file_names::PutFile;

/// What a command line asks for: a subcommand, with its values. Texts are lent from the words.
#[derive(Drop)]
pub enum Line<'a> {
    /// `chaosd show`: hexadecimal lines from standard input, one datagram a line, to reports.
    Show(Show),
    /// `chaosd lab`: a script of two connections from standard input, to what each line did.
    Lab,
    /// `chaosd filelab`: a script of a client of FILE and its server from standard input, to what
    /// each line did.
    FileLab,
    /// `chaosd loop`: a FILE script from standard input between two hosts in one process, which
    /// send packets so.
    Loop(Carriage),
    /// `chaosd serve`: the FILE service of a folder, to other hosts.
    Serve(Serve<'a>),
    /// `chaosd ask`: a FILE script from standard input, put to another host.
    Ask(Ask<'a>),
    /// `chaosd get`: files of another host, into local ones.
    Get(Get<'a>),
    /// `chaosd put`: local files, to another host.
    Put(Put<'a>),
    /// `chaosd delete`: another host deletes files.
    Delete(Delete<'a>),
    /// `chaosd rename`: another host renames a file.
    Rename(Rename<'a>),
}

/// What reports of datagrams say.
#[derive(Clone, Copy, Debug, PartialEq, Eq)]
pub struct Show {
    /// Whether also what a FILE command or reply says.
    pub is_file: bool,
    /// Whether the datagrams are in CHUDP, and not in this program's own form.
    pub is_chudp: bool,
}

/// How much a server logs.
#[derive(Clone, Copy, Debug, PartialEq, Eq)]
pub enum LogLevel {
    /// Only mistakes and faults.
    Quiet,
    /// Also connections, changes of files and requests that fail.
    Normal,
    /// Also each file that is read.
    All,
}

/// What to serve, and to whom.
#[derive(Drop)]
pub struct Serve<'a> {
    /// The turns after which the server ends, at most 1,000,000,000.
    pub turns: u32,
    /// How packets stand in datagrams.
    pub framing: Framing,
    /// The file of the key that the server and each of its peers have, where it is given. There is
    /// none in CHUDP, and none where the hosts table is served.
    pub key: Option<&'a str>,
    /// The packets that each of the two windows of its connections has, 1 to 64.
    pub window: u16,
    /// The milliseconds after which its connections retransmit packets, 20 to 60,000, where they are
    /// given.
    pub retransmit: Option<u64>,
    /// Whether only errors are logged, whatever the log's level.
    pub is_quiet: bool,
    /// How much is logged.
    pub log: LogLevel,
    /// Whether each line of the log begins with the time.
    pub is_timed: bool,
    /// Whether a datagram that comes from no peer's UDP address is dropped.
    pub hears_only_peers: bool,
    /// Whether no file changes.
    pub is_read_only: bool,
    /// The hosts table, where it is given.
    pub hosts: Option<&'a str>,
    /// The folder whose files it serves, as it was given: nothing has been opened.
    pub folder: &'a str,
    /// Where it is, and which hosts it knows. It follows none if it hears only peers.
    pub place: ServePlace,
}

/// Whom to ask, and as whom.
#[derive(Drop)]
pub struct Ask<'a> {
    /// How packets stand in datagrams.
    pub framing: Framing,
    /// The file of the key that this host and the host to ask have, where it is given. There is
    /// none in CHUDP.
    pub key: Option<&'a str>,
    /// The contact name that it asks for: 1 to 64 printable characters of ASCII, none of them a
    /// space.
    pub contact: &'a str,
    /// The seconds that each reply is waited for, 1 to 3600, where they are given.
    pub timeout: Option<u16>,
    /// The milliseconds after which its connection retransmits packets, 20 to 60,000, where they are
    /// given.
    pub retransmit: Option<u64>,
    /// Whether datagrams from any UDP address are taken, and not from its peers' alone.
    pub hears_anybody: bool,
    /// Whether the first reply that is an error ends the run.
    pub is_strict: bool,
    /// Whether only mistakes are reported.
    pub is_quiet: bool,
    /// Whether more is reported, wherever standard error goes.
    pub is_verbose: bool,
    /// The hosts table, where it is given.
    pub hosts: Option<&'a str>,
    /// The host to ask.
    pub target: AskTarget<'a>,
    ghost contact_fits: { is_contact contact.now ≡ true },
}

/// As whom which server is called, and how.
#[derive(Drop)]
pub struct Calling<'a> {
    /// How packets stand in datagrams.
    pub framing: Framing,
    /// The file of the key that this host and the server have, where it is given. There is none in
    /// CHUDP.
    pub key: Option<&'a str>,
    /// The contact name that it asks for: 1 to 64 printable characters of ASCII, none of them a
    /// space.
    pub contact: &'a str,
    /// The user's name, 1 to 16 letters and digits.
    pub login: &'a str,
    /// The packets that each of its two windows has, 1 to 64.
    pub window: u16,
    /// The seconds that each reply is waited for, 1 to 3600, where they are given.
    pub timeout: Option<u16>,
    /// Whether datagrams from any UDP address are taken, and not from the server's alone.
    pub hears_anybody: bool,
    /// The hosts table, where it is given.
    pub hosts: Option<&'a str>,
    /// The server.
    pub target: Target<'a>,
    ghost login_fits: { length login.now ≤ MAX_NAME },
    ghost contact_fits: { is_contact contact.now ≡ true },
}

/// As whom a copy is made, from or to which server, and how.
#[derive(Drop)]
pub struct Copying<'a> {
    /// The server, and how it is called.
    pub calling: Calling<'a>,
    /// Whether a text is put into the character set of the Lisp machines, or back from it.
    pub is_text: bool,
    /// Whether only mistakes are reported.
    pub is_quiet: bool,
    /// Whether more is reported, wherever standard error goes.
    pub is_verbose: bool,
}

/// Which files to get.
#[derive(Drop)]
pub struct Get<'a> {
    /// What it has in common with `put`.
    pub copying: Copying<'a>,
    /// The local file in place of one of the path's name, where there is one file; `-` is standard
    /// output. Where it ends with a slash, it is the folder of the local files. Without it the files
    /// go into the current folder.
    pub output: Option<&'a str>,
    /// The server's files, each once: legal paths of FILE.
    pub paths: Vec<&'a str>,
}

/// Which files to put.
#[derive(Drop)]
pub struct Put<'a> {
    /// What it has in common with `get`.
    pub copying: Copying<'a>,
    /// The local files, each with its path: the path that `--as` gives, or a path of its own. No two
    /// files have one path, and some files may have none. Without `--as` no file is standard input,
    /// which is `-`.
    pub files: Vec<PutFile<'a>>,
}

/// Which files to delete.
#[derive(Drop)]
pub struct Delete<'a> {
    /// Who calls which server.
    pub calling: Calling<'a>,
    /// Whether only mistakes are reported.
    pub is_quiet: bool,
    /// Whether more is reported, wherever standard error goes.
    pub is_verbose: bool,
    /// The server's files, each once: legal paths of FILE.
    pub paths: Vec<&'a str>,
}

/// Which file to rename.
#[derive(Drop)]
pub struct Rename<'a> {
    /// Who calls which server.
    pub calling: Calling<'a>,
    /// Whether only mistakes are reported.
    pub is_quiet: bool,
    /// Whether more is reported, wherever standard error goes.
    pub is_verbose: bool,
    /// The server's file: a legal path of FILE.
    pub from: &'a str,
    /// Its new path, a legal one.
    pub to: &'a str,
}
