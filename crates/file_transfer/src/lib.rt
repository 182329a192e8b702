//! Files that are copied, one after another, between local ones and another host's: which goes
//! where, what is reported of each, and how a run ends.
//!
//! It stands on no socket and prints nothing: its user hands in the connection (a [`Talk`]), the
//! local files ([`LocalFiles`]), whom to report to ([`OutcomeSink`]) and whom to show how far a file
//! has come ([`ProgressSink`]).
#![tactic(auto)]

mod delete_files;
mod disk;
mod file_task;
mod get_files;
mod kind;
mod law;
mod local_files;
mod outcome;
mod progress;
mod progress_sink;
mod put_files;
mod session;
mod settling;
mod severity;
mod source;
mod stream;
mod text;
mod whole;

pub use delete_files::DeleteFiles;
pub use disk::Disk;
pub use file_task::{FileTask, OutcomeSink, run_copies};
pub use get_files::GetFiles;
pub use law::{law_deletes, law_runs};
pub use local_files::LocalFiles;
pub use outcome::{Contents, Outcome};
pub use progress::{
    Mark, Progress, SHOW_MILLIS, SPEED_MILLIS, STALL_MILLIS, Share, Speed, law_limits,
};
pub use progress_sink::ProgressSink;
pub use put_files::PutFiles;
pub use session::Session;
pub use settling::settle;
pub use severity::Severity;
pub use text::Lost;
