//! The keys that a host has with others.
ghost use Rattle.std.specs.Prelude.{◌≡◌, IfErr, IfOk, IfSome, is_some, string_bytes};
ghost use Rattle.chaosd_call.specs.Exit.{IsFailure};
ghost use Rattle.chaosd_call.specs.Key.{IsWritten, name_beside};

use crate::exit_status::ExitStatus;
use crate::key_file::{KeyFileFault, KeyRefusal, read_key};
use crate::open_ends::report_table;
use crate::table_file::TableFile;
use chaos_seal::KEY_BYTES;
use chaosd_hosts::Host;
use chaosd_line::Framing;
use std::alloc::{AllocError, Global};
use std::fs::{File, Files};
use std::io;
use std::path::Path;

/// A key that this host and another one have.
pub type Key = [u8; KEY_BYTES];

/// A key, and the other host that has it.
#[derive(Clone, Copy)]
pub struct HostKey {
    /// The other host's Chaosnet address.
    pub address: u16,
    /// The key.
    pub key: Key,
}

/// Stands in the places of a table that hold no key yet: that of address 0, which no host has.
impl Default for HostKey {
    fn default() -> Self {
        HostKey {
            address: 0,
            key: [0; KEY_BYTES],
        }
    }
}

/// The name of a file that the hosts table in the file `table` names.
fn name_beside(alloc: Global, table: &str, file: &str) -> Result<String, AllocError>
    // A name that begins with a slash stands for itself. Any other file is in the folder of the
    // table's file.
    ensures { IfOk result (λ name. string_bytes name ≡ name_beside table.now file.now) }
{
    let folder = Path::new(table).parent().unwrap_or(Path::new(""));
    Ok(folder.join(alloc, file)?.into_string())
}

/// The key in the file of this name. Why there is none is reported, and the error is the status.
pub fn key_in<R>(rt: &R, name: &str) -> Result<Key, ExitStatus>
where
    R: AllocGlobal + Eprint + Files<File = File>,
    // The key is one that some text writes.
    ensures written { IfOk result IsWritten }
    // The error is never the status Done.
    ensures failed { IfErr result IsFailure }
{
    match read_key(rt, name) {
        Ok(key) => Ok(key),
        Err(fault) => Err(report_key(rt, name, &fault)),
    }
}

/// The key in the file that a line names, if it names one. Why there is none is reported, and the
/// error is the status.
pub fn key_of_line<R>(rt: &R, file: Option<&str>) -> Result<Option<Key>, ExitStatus>
where
    R: AllocGlobal + Eprint + Files<File = File>,
    // A key is one that some text writes. There is none exactly where the line names no file.
    ensures written { IfOk result (λ key. IfSome key IsWritten) }
    ensures given { IfOk result (λ key. is_some key ≡ is_some file.entry) }
    // The error is never the status Done.
    ensures failed { IfErr result IsFailure }
{
    match file {
        Some(name) => Ok(Some(key_in(rt, name)?)),
        None => Ok(None),
    }
}

/// Reports why the file of this name gives no key. The result is the status.
fn report_key<R: Eprint>(rt: &R, name: &str, fault: &KeyFileFault) -> ExitStatus
    ensures { IsFailure result }
{
    let _ = eprintln!(rt; "chaosd: {}", KeyRefusal { name, fault });
    fault.status()
}

/// The key of a host of the hosts table, if the table names a file for it. A key in CHUDP is
/// reported, as is a file that gives none, and the error is the status.
pub fn key_of_host<R>(
    rt: &R,
    table: &TableFile,
    host: &Host<'_>,
    framing: Framing,
) -> Result<Option<Key>, ExitStatus>
where
    R: AllocGlobal + Eprint + Files<File = File>,
    // A key is one that some text writes. There is none exactly where the table has none for the
    // host.
    ensures written { IfOk result (λ key. IfSome key IsWritten) }
    ensures given { IfOk result (λ key. is_some key ≡ is_some host.now.key) }
    // The error is never the status Done.
    ensures failed { IfErr result IsFailure }
{
    let Some(file) = host.key else {
        return Ok(None);
    };
    let address = host.address;
    let name = table.name.as_str();
    if let Framing::Chudp(_) = framing {
        return Err(report_table(
            rt,
            name,
            &format_args!("host {address:o} has a key, which can't be used with --chudp"),
        ));
    }
    match name_beside(rt.alloc(), name, file) {
        Ok(path) => Ok(Some(key_in(rt, path.as_str())?)),
        Err(error) => Err(report_key(rt, file, &KeyFileFault::from(io::Error::from(error)))),
    }
}
