//! FILE over a losing network: a laboratory of two connections, whose A is the caller's, and whose
//! B serves FILE.
//!
//! [`FileLab`] lets events happen as [`chaos_lab::Lab`] does, and lets B's server serve one command
//! at a time. [`FileLab::law_replies`] says what A reads, whatever the network loses, repeats and
//! reorders.
#![tactic(auto)]

mod bodies;
mod event;
mod file_lab;
mod law;
mod server;
mod settling;

pub use bodies::Bodies;
pub use event::{FileEvent, FileStepped};
pub use file_lab::FileLab;
pub use law::law_file_lab_hello;
pub use settling::FileSettling;
