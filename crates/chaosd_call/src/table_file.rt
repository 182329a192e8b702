//! The file of the hosts table.
ghost use Rattle.chaosd_call.specs.Exit.{IsFailure};

use crate::exit_status::ExitStatus;
use chaos_file::PrintedName;
use chaosd_io::RunFault;
use std::alloc::AllocError;
use std::env::var;
use std::fmt::{Display, Formatter};
use std::fs::{File, Files};
use std::io::{ErrorKind, Read};
use std::rt::Env;
use std::{fmt, io};

/// The most bytes of a hosts table.
const MAX_TABLE: u64 = 65_536;

/// The hosts table of a machine.
const SYSTEM_TABLE: &str = "/etc/chaosd/hosts";

/// A hosts table as a file has it.
#[derive(Drop)]
pub struct TableFile {
    /// The name of the file.
    pub name: String,
    /// What the file has.
    pub text: String,
}

/// Why there is no hosts table.
#[derive(Drop)]
pub enum NoTable {
    /// The user names no table, and neither the user nor the machine has one.
    Nowhere,
    /// The file of this name can't be read.
    Unread(String, io::Error),
    /// Memory ran out.
    NoMemory,
}

impl From<AllocError> for NoTable {
    fn from(_error: AllocError) -> Self {
        NoTable::NoMemory
    }
}

impl NoTable {
    /// The exit status of a run that needs a table.
    pub fn status(&self) -> ExitStatus
        // The status isn't Done.
        ensures { IsFailure result }
    {
        match self {
            NoTable::Nowhere => ExitStatus::BadLine,
            NoTable::Unread(..) => ExitStatus::Fault,
            NoTable::NoMemory => ExitStatus::NoMemory,
        }
    }
}

impl Display for NoTable {
    fn fmt<W: fmt::Write>(&self, f: &mut Formatter<W>) -> fmt::Result {
        match self {
            NoTable::Nowhere => write!(
                f,
                "there is no hosts table: --hosts or CHAOSD_HOSTS names one, or make ~/.config/chaosd/hosts or {SYSTEM_TABLE}"
            ),
            NoTable::Unread(name, error) => {
                write!(
                    f,
                    "can't read the hosts table {}: {error}",
                    PrintedName(name.as_str())
                )
            }
            NoTable::NoMemory => write!(f, "{}", RunFault::NoMemory),
        }
    }
}

/// What the file of this name has: at most 65,536 bytes of UTF-8.
pub fn read_table<R: AllocGlobal + Files<File = File>>(rt: &R, name: &str) -> io::Result<String> {
    let mut text = String::new(rt.alloc());
    let mut head = File::open(rt, name)?.take(MAX_TABLE + 1);
    head.read_to_string(&mut text)?;
    if text.len() as u64 > MAX_TABLE {
        return Err(io::Error::from(ErrorKind::FileTooLarge));
    }
    Ok(text)
}

/// The value of this variable of the environment, unless it is empty.
fn value_of<R: AllocGlobal + Env>(rt: &R, name: &str) -> Option<String> {
    match var(rt, name) {
        Ok(value) if !value.as_str().is_empty() => Some(value),
        _ => None,
    }
}

/// The name of the user's own table, where the user has a folder for such files. As the XDG base
/// directory specification has it, a relative path in the variable counts as none.
fn user_table<R: AllocGlobal + Env>(rt: &R) -> Result<Option<String>, AllocError> {
    if let Some(folder) = value_of(rt, "XDG_CONFIG_HOME") {
        if folder.as_str().starts_with('/') {
            return Ok(Some(format!(in rt.alloc(); "{}/chaosd/hosts", folder.as_str())?));
        }
    }
    match value_of(rt, "HOME") {
        Some(home) => Ok(Some(format!(in rt.alloc(); "{}/.config/chaosd/hosts", home.as_str())?)),
        None => Ok(None),
    }
}

/// The table in the file of this name, or `None` where there is no such file.
fn table_at<R: AllocGlobal + Files<File = File>>(
    rt: &R,
    name: String,
) -> Result<Option<TableFile>, NoTable> {
    match read_table(rt, name.as_str()) {
        Ok(text) => Ok(Some(TableFile { name, text })),
        Err(error) if error.kind() == ErrorKind::NotFound => Ok(None),
        Err(error) if error.kind() == ErrorKind::OutOfMemory => Err(NoTable::NoMemory),
        Err(error) => Err(NoTable::Unread(name, error)),
    }
}

/// The table that the user names, by an option or else by `CHAOSD_HOSTS`.
fn named_table<R: AllocGlobal + Env>(
    rt: &R,
    option: Option<&str>,
) -> Result<Option<String>, AllocError> {
    match option {
        Some(name) => Ok(Some(String::from_str(rt.alloc(), name)?)),
        None => Ok(value_of(rt, "CHAOSD_HOSTS")),
    }
}

/// The hosts table of a line: the one that the user names, else the user's own, else the machine's.
///
/// # Errors
/// There is none, it can't be read, or memory ran out.
pub fn find_table<R: AllocGlobal + Env + Files<File = File>>(
    rt: &R,
    option: Option<&str>,
) -> Result<TableFile, NoTable> {
    if let Some(name) = named_table(rt, option)? {
        let missing = name.clone()?;
        return match table_at(rt, name)? {
            Some(table) => Ok(table),
            None => Err(NoTable::Unread(missing, io::Error::from(ErrorKind::NotFound))),
        };
    }
    if let Some(name) = user_table(rt)? {
        if let Some(table) = table_at(rt, name)? {
            return Ok(table);
        }
    }
    match table_at(rt, String::from_str(rt.alloc(), SYSTEM_TABLE)?)? {
        Some(table) => Ok(table),
        None => Err(NoTable::Nowhere),
    }
}
