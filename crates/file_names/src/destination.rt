//! Which local file a path goes to.
ghost use Rattle.std.specs.Prelude.{◌≡◌, IfOk, string_bytes};
ghost use Rattle.file_names.specs.Destination.{destination_of, is_folder, local_of};

use std::alloc::{AllocError, Global};

/// Where files that are got go.
#[derive(Clone, Copy, Debug)]
pub enum Destination<'a> {
    /// Each to a local file of its own name.
    SameName,
    /// To the local file of this name.
    File(&'a str),
    /// Each to a file of its own name in this folder, which ends with a slash.
    Folder(&'a str),
}

/// Whether a name is a folder's.
pub fn is_folder(name: &str) -> bool
    // A name is a folder's exactly where it ends with a slash.
    ensures { result ≡ is_folder name.now }
{
    match name.as_bytes().last() {
        Some(byte) => *byte == b'/',
        None => false,
    }
}

impl<'a> Destination<'a> {
    /// What the user says of it: nothing, a folder, which ends with a slash, or a file.
    pub fn of(output: Option<&'a str>) -> Self
        // Nothing is this folder. A name that ends with a slash is a folder, and any other a file.
        ensures { result ≡ destination_of output.entry }
    {
        match output {
            None => Destination::SameName,
            Some(name) if is_folder(name) => Destination::Folder(name),
            Some(name) => Destination::File(name),
        }
    }

    /// The local file that a path goes to.
    pub fn local(self, alloc: Global, path: &str) -> Result<String, AllocError>
        // A path goes to the local file of its own name, to the file that was given, or to that
        // name behind the folder.
        ensures { IfOk result (λ name. string_bytes name ≡ local_of self.entry path.now) }
    {
        let mut name = String::new(alloc);
        match self {
            Destination::SameName => name.push_str(path)?,
            Destination::File(given) => name.push_str(given)?,
            Destination::Folder(folder) => {
                name.push_str(folder)?;
                name.push_str(path)?;
            }
        }
        Ok(name)
    }
}
