//! FILE: a language of commands over named files, answered one reply for each command, and the
//! service of that language on a connection.
//!
//! A [`Session`] carries out commands over a [`Store`]: [`MemStore`] keeps its files in memory,
//! [`DirStore`] in one folder of the system. The session touches no socket and no clock, and takes
//! memory for the bytes of open files alone: names, handles and replies are fixed arrays, and a
//! command is read in place.
//!
//! On a connection each data item that the peer wrote is a command, which is carried out once and
//! answered by one reply. [`serve_conn`] serves an end of a connection, and [`serve_one`] one of a
//! host's connections. [`Session::serve_and_report`] also says what the command changed.
//! [`can_serve`] returns whether [`serve_one`] would serve anything.
#![tactic(auto)]

mod answer;
mod change;
mod command;
mod contact;
mod dir_store;
mod error;
mod file_bytes;
mod form;
mod fuse_store;
mod handle;
mod handles;
mod laws;
mod limits;
mod mem_store;
mod names;
mod parse;
mod printed;
mod read_only;
mod reply;
mod serve_at_conn;
mod serve_at_host;
mod serve_due;
mod serve_law;
mod serve_task;
mod served;
mod session;
mod store;
mod want;
mod whole;
mod writing;

pub use answer::Reply;
pub use change::{Attempt, Change};
pub use command::{Command, Parsed, Word};
pub use contact::CONTACT;
pub use dir_store::DirStore;
pub use error::FileError;
pub use file_bytes::FileBytes;
pub use fuse_store::FuseStore;
pub use laws::{law_honest, law_memory, law_read_replies, law_replies, law_spelling, law_want};
pub use limits::{
    MAX_CHUNK, MAX_FILE, MAX_HANDLE, MAX_HANDLES, MAX_NAME, MAX_PATH, MAX_REPLY, MAX_TID, NL,
    law_limits,
};
pub use mem_store::MemStore;
pub use names::{FilePath, is_path, is_path_byte, is_user};
pub use parse::parse_command;
pub use printed::PrintedName;
pub use read_only::ReadOnly;
pub use reply::{ReplyParts, Said, read_reply};
pub use serve_at_conn::serve_conn;
pub use serve_at_host::{ServeAt, serve_one};
pub use serve_due::{can_serve, can_serve_conn};
pub use serve_law::law_reply_taken;
pub use served::Served;
pub use session::Session;
pub use store::{Cause, Got, Placed, Removed, Renamed, Store, Stored};
pub use want::is_want;
pub use whole::{require_room, write_whole};
pub use writing::{CommandBytes, write_command, write_reply};
