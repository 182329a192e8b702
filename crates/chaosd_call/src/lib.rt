//! The calls of `get`, `put`, `delete` and `rename`: a client's socket, its wait for the server, what
//! a user is shown meanwhile, what is reported of each file, and the exit status.
#![tactic(auto)]

mod changes;
mod client;
mod config;
mod copies;
mod copy_run;
mod dialogs;
mod exit_status;
mod file_words;
mod hops;
mod input;
mod key_file;
mod key_text;
mod keys;
mod link;
mod open_ends;
mod peer_socket;
mod progress;
mod progress_text;
mod run_ends;
mod seal_words;
mod seals;
mod table_file;
mod waiting;

pub use client::{contact_of, epoch_of, patience_of};
pub use config::{config_of, interval_of};
pub use dialogs::{ChudpClient, OwnClient, run_work};
pub use exit_status::ExitStatus;
pub use hops::hops_of;
pub use input::has_input;
pub use key_file::KeyFileFault;
pub use key_text::key_of;
pub use keys::{HostKey, Key, key_of_host, key_of_line};
pub use link::{ClientSocket, heard_alone, link_to, sealed_to};
pub use open_ends::{CallWords, OpenEnds, hosts_in, open_named, report_table, table_of_line};
pub use peer_socket::PeerSocket;
pub use run_ends::{report_end, report_unopened};
pub use seal_words::SealWords;
pub use seals::seals_of;
pub use table_file::{NoTable, TableFile, read_table};
pub use waiting::{Waiting, WaitingSocket};
