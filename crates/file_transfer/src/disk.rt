//! The files of the system, and standard input and output in the place of one.
ghost use Rattle.std.specs.Prelude.{None};

use crate::local_files::LocalFiles;
use crate::source::open_source;
use crate::stream::{STDOUT, check_stream, write_stream};
use crate::whole::{check_whole, write_at};
use file_copy::read_whole;
use file_names::STREAM;
use std::fs::File;
use std::io;
use std::rt::Files;

/// The name of a device that is written as such, as standard output is.
const NOWHERE: &str = "/dev/null";

/// Where a file of some name goes.
enum Place {
    /// To standard output.
    Stream,
    /// Nowhere.
    Nowhere,
    /// Into the file of that name.
    File,
}

/// Where a file of this name goes.
fn place_of(name: &str) -> Place {
    if name == STREAM || name == STDOUT {
        Place::Stream
    } else if name == NOWHERE {
        Place::Nowhere
    } else {
        Place::File
    }
}

/// The files of the system. `-` is standard input, or standard output, as is `/dev/stdout`; what is
/// written to `/dev/null` is gone, and nothing is read from there. A fifo, a socket and a device
/// are read by no other name.
///
/// No clause says what a disk has, so it tells nothing of what it wrote and has.
#[derive(Drop)]
pub struct Disk<'a, R> {
    rt: &'a R,
    mark: u16,
}

impl<'a, R> Disk<'a, R> {
    /// What is being written has this mark in its name, which no other writer has.
    pub fn new(rt: &'a R, mark: u16) -> Self {
        Disk { rt, mark }
    }
}

impl<R: AllocGlobal + Files<File = File> + Input + Print> LocalFiles for Disk<'_, R> {
    ghost written = { λ _. None };

    ghost held = { λ _ _. None };

    fn check(&mut self, name: &str) -> io::Result<()> {
        match place_of(name) {
            Place::Stream => check_stream(self.rt),
            Place::Nowhere => Ok(()),
            Place::File => check_whole(self.rt, self.rt.alloc(), name, self.mark),
        }
    }

    fn keep(&mut self, name: &str, bytes: &[u8]) -> io::Result<()> {
        match place_of(name) {
            Place::Stream => write_stream(self.rt, bytes),
            Place::Nowhere => Ok(()),
            Place::File => write_at(self.rt, self.rt.alloc(), name, self.mark, bytes),
        }
    }

    fn read(&mut self, name: &str) -> io::Result<Option<Vec<u8>>> {
        let alloc = self.rt.alloc();
        if name == STREAM {
            return read_whole(alloc, self.rt.reader());
        }
        if name == NOWHERE {
            return Ok(Some(Vec::new(alloc)));
        }
        read_whole(alloc, open_source(self.rt, alloc, name)?)
    }
}
