//! The bytes of a file.
ghost use Rattle.std.specs.Prelude.{◌≡◌, ◌<◌, ◌^◌, ◌++◌, List, [], length, OnOk, OnErr};

use std::alloc::{AllocError, Global};
use std::marker::Model;

/// The bytes of a file, which contracts see as a list. Without bytes it takes no memory.
#[derive(Drop)]
pub struct FileBytes {
    bytes: Option<Vec<u8>>,
}

impl Model for FileBytes {
    ghost use Rattle.std.specs.Prelude.{ℕ, List};

    ghost Value = { List ℕ };

    ghost use Rattle.chaos_file.specs.FileBytes.{bytes_of};

    ghost view = { λ f. bytes_of f.bytes };
}

impl FileBytes {
    /// No bytes.
    pub fn new() -> Self
        // There are none.
        ensures { result ≡ [] }
    {
        FileBytes { bytes: None }
    }

    /// The bytes of a vector, which aren't copied.
    pub fn from_vec(bytes: Vec<u8>) -> Self
        // They are the vector's.
        ensures { result ≡ bytes.items }
    {
        FileBytes { bytes: Some(bytes) }
    }

    /// The bytes, lent.
    pub fn as_slice(&self) -> &[u8]
        // They are the bytes, lent.
        ensures value { result.now ≡ self.now }
        // They are fewer than 2^63.
        ensures small { length result.now < 2 ^ 63 }
    {
        match &self.bytes {
            Some(bytes) => bytes.as_slice(),
            None => &[],
        }
    }

    /// How many bytes there are.
    pub fn len(&self) -> usize
        // It counts the bytes.
        ensures value { result ≡ length self.now }
        // They are fewer than 2^63.
        ensures small { result < 2 ^ 63 }
    {
        self.as_slice().len()
    }

    /// Adds bytes at the end. Room grows by doubling, so that many small additions cost a few
    /// copies of the whole. Without memory for it the bytes stay as they are.
    pub fn append(&mut self, alloc: Global, more: &[u8]) -> Result<(), AllocError>
        // The bytes are added at the end.
        ensures ok { OnOk result (self.new ≡ self.old ++ more.now) }
        // Without memory for them nothing changes.
        ensures err { OnErr result (self.new ≡ self.old) }
    {
        match &mut self.bytes {
            Some(bytes) => bytes.extend_from_slice(more),
            None => {
                let mut bytes = Vec::new(alloc);
                bytes.extend_from_slice(more)?;
                self.bytes = Some(bytes);
                Ok(())
            }
        }
    }
}

impl Default for FileBytes {
    fn default() -> Self
        // There are none.
        ensures { result ≡ [] }
    {
        FileBytes::new()
    }
}
