//! The command line of `chaosd`: which line the words ask for, or the message to the user.
//!
//! It reads the words that the caller passes, by `clap`, and nothing else: no environment, no
//! input, no output, no clock, no folder and no socket. It allocates, and running out of memory is
//! a fault of its own.
//!
//! `parse_line` keeps clap's error, whose text is for the user, and `read_line` keeps the fault
//! alone. Both read by the same command, and their contracts name clap's reading of the words.
#![tactic(auto)]

mod argument;
mod bad_value;
mod calls;
mod command;
mod copies;
mod ends;
mod fault;
mod files;
mod followed;
mod form;
mod framing;
mod framings;
mod help;
mod host_names;
mod keys;
mod line;
mod line_problem;
mod lines;
mod parse;
mod paths;
mod peers;
mod places;
mod remote;
mod sub;
mod target;
mod values;
mod word;

pub use ends::{AskEnds, AskTarget, Ends, ServeEnds, ServePlace, Target};
pub use fault::LineFault;
pub use framing::Framing;
pub use line::{Ask, Calling, Copying, Delete, Get, Line, LogLevel, Put, Rename, Serve, Show};
pub use parse::{parse_line, read_line};
