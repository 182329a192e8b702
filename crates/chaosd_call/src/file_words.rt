//! Reports what came of each file.
ghost use Rattle.std.specs.Prelude.{◌≡◌, ◌&&◌, ◌||◌, None, not, option_map};
ghost use Rattle.chaosd_call.specs.NewNames.{is_own, new_local, new_path};

use crate::copy_run::CopyRun;
use crate::dialogs::Caller;
use crate::progress_text::{Rate, Time};
use chaos_file::{MAX_FILE, MAX_PATH, PrintedName, Reply, read_reply};
use chaosd_io::RunFault;
use file_copy::Shown;
use file_names::{Destination, PutFile, STREAM};
use file_transfer::{Contents, Lost, Outcome, OutcomeSink, Speed};
use std::fmt::{Display, Formatter};
use std::io::ErrorKind;
use std::{fmt, io};

/// What is done with the files of a run.
#[derive(Clone, Copy)]
pub enum Deed<'a> {
    /// They are got, and go there.
    Get(Destination<'a>),
    /// These local files are put, each under its path.
    Put(&'a [PutFile<'a>]),
    /// They are deleted.
    Delete,
    /// The one file gets this path.
    Rename(&'a str),
}

/// Reports on standard error what came of each file.
#[derive(Drop)]
pub struct FileWords<'a, 'r, 't, R: Eprint> {
    pub rt: &'a R,
    /// Who calls.
    pub caller: &'a Caller<'a, 'r, R>,
    /// The files of the run, where it copies some.
    pub run: Option<&'a CopyRun>,
    /// Whether a file that was copied or changed is reported.
    pub is_verbose: bool,
    /// What is done with the files.
    pub deed: Deed<'t>,
    /// The report of a file where nobody knows whether what was asked for was done.
    pub unknown: &'static str,
}

/// The report of a put whose end isn't known.
pub const PUT_UNKNOWN: &str = "whether it was put isn't known, since its CLOSE got no reply";

/// The report of a change whose end isn't known.
pub const CHANGE_UNKNOWN: &str = "whether that was done isn't known";

/// Whether a file is reported with which all went well.
pub fn is_done_reported(is_verbose: bool, is_quiet: bool, is_terminal: bool) -> bool
    // Such a file is reported where the user asked for more, and on a terminal where the user
    // didn't ask for less.
    ensures { result ≡ (is_verbose || (is_terminal && not is_quiet)) }
{
    is_verbose || (is_terminal && !is_quiet)
}

/// Whether the last part of a local file's name is the path.
fn is_own(local: &[u8], path: &[u8]) -> bool
    // The name is the path, or it ends with a slash and the path.
    ensures { result ≡ is_own local.now path.now }
{
    if local == path {
        return true;
    }
    let start = local.len().saturating_sub(path.len()).saturating_sub(1);
    match &local[start..] {
        [slash, last @ ..] => *slash == b'/' && last == path,
        [] => false,
    }
}

/// The local file that this path goes to, where its name has another last part than the path.
fn new_local<'t>(destination: Destination<'t>, path: &str) -> Option<&'t str>
    // The result is the name that was given for the one file, where that isn't standard output and
    // doesn't end with the path.
    ensures { option_map (λ name. name.now) result ≡ new_local destination.entry path.now }
{
    match destination {
        Destination::File(local) => {
            if local == STREAM || is_own(local.as_bytes(), path.as_bytes()) {
                None
            } else {
                Some(local)
            }
        }
        Destination::SameName | Destination::Folder(_) => None,
    }
}

/// The path that a local file goes under, where the file's name has another last part.
fn new_path<'t>(file: &'t PutFile<'_>) -> Option<&'t [u8]>
    // The result is the file's path, where it has one and its name doesn't end with it.
    ensures { option_map (λ path. path.now) result
        ≡ new_path file.now.local.now (option_map (λ path. path.items) file.now.path) }
{
    match &file.path {
        Some(path) => {
            if is_own(file.local.as_bytes(), path.as_slice()) {
                None
            } else {
                Some(path.as_slice())
            }
        }
        None => None,
    }
}

/// The name that a file goes under, as it stands behind the file's own name.
#[derive(Clone, Copy)]
enum NewName<'a> {
    /// The file keeps its name.
    Same,
    /// The file of this path.
    Path(&'a [u8]),
    /// The local file of this name.
    Local(&'a str),
}

impl Display for NewName<'_> {
    fn fmt<W: fmt::Write>(&self, f: &mut Formatter<W>) -> fmt::Result {
        match self {
            NewName::Same => Ok(()),
            NewName::Path(path) => write!(f, " as {}", Shown(path)),
            NewName::Local(local) => write!(f, " as {}", PrintedName(local)),
        }
    }
}

/// A digest in hexadecimal.
#[derive(Drop)]
struct Hexadecimal([u8; 32]);

impl Display for Hexadecimal {
    fn fmt<W: fmt::Write>(&self, f: &mut Formatter<W>) -> fmt::Result {
        for byte in &self.0 {
            write!(f, "{byte:02x}")?;
        }
        Ok(())
    }
}

/// Reports that a file was copied whole, in so many milliseconds.
fn report_copied<R: Eprint>(
    rt: &R,
    name: PrintedName<'_>,
    new_name: NewName<'_>,
    contents: &Contents,
    millis: u64,
) -> io::Result<()> {
    let bytes = contents.size;
    let time = Time(millis);
    let rate = Rate(Speed { bytes, millis });
    match contents.digest {
        Some(digest) => {
            let digest = Hexadecimal(digest);
            eprintln!(rt; "{name}{new_name} {bytes} bytes, {time}, {rate}, SHA-256 {digest}")
        }
        None => eprintln!(rt; "{name}{new_name} {bytes} bytes, {time}, {rate}"),
    }
}

/// Reports that a file was changed as was asked for.
fn report_changed<R: Eprint>(rt: &R, name: PrintedName<'_>, deed: Deed<'_>) -> io::Result<()> {
    match deed {
        Deed::Rename(to) => eprintln!(rt; "{name} renamed to {}", PrintedName(to)),
        _ => eprintln!(rt; "{name} deleted"),
    }
}

/// Reports that a text has a byte that would not come back, and where the first stands.
fn report_lost<R: Eprint>(rt: &R, name: PrintedName<'_>, lost: &Lost) -> io::Result<()> {
    let Lost { byte, line, place } = *lost;
    eprintln!(rt;
        "chaosd: {name} has a byte {byte:02X} at line {line}, byte {place}, which --text would not give back; leave --text out"
    )
}

/// Reports that FILE doesn't take a local file's name.
fn report_unnamed<R: Eprint>(rt: &R, name: PrintedName<'_>) -> io::Result<()> {
    eprintln!(rt;
        "chaosd: {name}: skipped, since its name is no path of FILE (1 to {MAX_PATH} letters, digits, dots, hyphens and underscores, no dot in front); --as or --rename gives it one"
    )
}

/// Reports what became of a file that was not done, in words behind its name.
fn report_missed<R: Eprint, D: Display>(rt: &R, name: PrintedName<'_>, what: &D) -> io::Result<()> {
    eprintln!(rt; "chaosd: {name}: {what}")
}

/// Reports that the server sent what is no answer.
fn report_strange<R: Eprint>(rt: &R, name: PrintedName<'_>, reply: &Reply) -> io::Result<()> {
    let text = Shown(reply.as_slice());
    eprintln!(rt; "chaosd: {name}: not an answer of FILE: {text}")
}

/// Reports that a file, here or there, is longer than FILE allows.
fn report_big<R: Eprint>(rt: &R, name: PrintedName<'_>) -> io::Result<()> {
    eprintln!(rt; "chaosd: {name} has more than {MAX_FILE} bytes")
}

/// Reports that the path of a file is longer than FILE allows.
fn report_long<R: Eprint>(rt: &R, name: PrintedName<'_>) -> io::Result<()> {
    eprintln!(rt; "chaosd: {name}: a path of FILE has at most {MAX_PATH} bytes")
}

/// Reports that a local file could not be opened. A folder is none.
fn report_unread<R: Eprint>(rt: &R, name: PrintedName<'_>, fault: &io::Error) -> io::Result<()> {
    if fault.kind() == ErrorKind::IsADirectory {
        return eprintln!(rt;
            "chaosd: {name} is a folder; FILE has no folders: name its files, as in {name}/*"
        );
    }
    eprintln!(rt; "chaosd: can't open {name}: {fault}")
}

/// Reports that a local file could not be written.
fn report_unwritten<R: Eprint>(
    rt: &R,
    destination: Destination<'_>,
    name: PrintedName<'_>,
    fault: &io::Error,
) -> io::Result<()> {
    let (folder, local) = match destination {
        Destination::SameName => ("", name),
        Destination::File(local) => ("", PrintedName(local)),
        Destination::Folder(folder) => (folder, name),
    };
    eprintln!(rt;
        "chaosd: can't write {}{local}: {fault}",
        PrintedName(folder)
    )
}

/// What the server says of an error: its code and text.
fn error_text(reply: &Reply) -> &[u8] {
    let bytes = reply.as_slice();
    let refused = match read_reply(bytes) {
        Some(parts) => parts.said.refused(),
        None => None,
    };
    refused.unwrap_or(bytes)
}

impl<'t, R> FileWords<'_, '_, 't, R>
where
    R: Eprint,
{
    /// Where files go that are got.
    fn destination(&self) -> Destination<'t> {
        match self.deed {
            Deed::Get(destination) => destination,
            Deed::Put(_) | Deed::Delete | Deed::Rename(_) => Destination::SameName,
        }
    }

    /// The name that the file goes under that is reported next, and has this name.
    fn new_name(&self, name: &str) -> NewName<'t> {
        match (self.deed, self.run) {
            (Deed::Get(destination), _) => match new_local(destination, name) {
                Some(local) => NewName::Local(local),
                None => NewName::Same,
            },
            (Deed::Put(files), Some(run)) => match files.get(run.reported()) {
                Some(file) => match new_path(file) {
                    Some(path) => NewName::Path(path),
                    None => NewName::Same,
                },
                None => NewName::Same,
            },
            (Deed::Put(_) | Deed::Delete | Deed::Rename(_), _) => NewName::Same,
        }
    }
}

impl<R: Eprint> OutcomeSink for FileWords<'_, '_, '_, R> {
    ghost reported = { λ _. None };

    fn report(&mut self, name: &str, outcome: &Outcome) {
        let rt = self.rt;
        let new_name = self.new_name(name);
        let name = PrintedName(name);
        let Caller {
            waiting,
            client,
            ..
        } = *self.caller;
        let millis = self.run.map_or(0, |run| run.millis());
        let _ = match outcome {
            Outcome::Copied(contents) if self.is_verbose => {
                report_copied(rt, name, new_name, contents, millis)
            }
            Outcome::Changed if self.is_verbose => report_changed(rt, name, self.deed),
            Outcome::Copied(_) | Outcome::Changed => Ok(()),
            Outcome::Garbled(lost) => report_lost(rt, name, lost),
            Outcome::TooBig => report_big(rt, name),
            Outcome::TooLong => report_long(rt, name),
            Outcome::Unnamed => report_unnamed(rt, name),
            Outcome::NotTried => report_missed(rt, name, &"not tried"),
            Outcome::Unwritten(fault) => report_unwritten(rt, self.destination(), name, fault),
            Outcome::Unread(fault) => report_unread(rt, name, fault),
            Outcome::Failed(fault) => report_missed(rt, name, &RunFault::from(*fault)),
            Outcome::Refused(reply) => report_missed(rt, name, &Shown(error_text(reply))),
            Outcome::Strange(reply) => report_strange(rt, name, reply),
            Outcome::Unanswered(why) => {
                let lead = format_args!("{name}: ");
                waiting.report_no_reply(client, &lead, why)
            }
            Outcome::Unknown(why) => {
                let lead = format_args!("{name}: {}: ", self.unknown);
                waiting.report_no_reply(client, &lead, why)
            }
        };
        if let Some(run) = self.run {
            run.report();
        }
    }
}
