//! What happens, and what comes of it.

use chaos_file::Served;
use chaos_lab::{Event, Stepped};

/// What may happen: an event of `chaos_lab`, or B's server serves.
#[derive(Clone, Copy, Debug)]
pub enum FileEvent<'a> {
    /// An event of the laboratory. A write and a read at B are refused, since they are its
    /// server's.
    At(Event<'a>),
    /// B's server serves the item in front of its connection.
    Serve,
}

/// What an event did that was taken.
#[derive(Debug, PartialEq, Eq, Drop)]
pub enum FileStepped {
    /// What the laboratory's event did.
    Lab(Stepped),
    /// What became of the item in front.
    Served(Served),
}
