//! FILE over a network. One host serves FILE to many connections from one store. The laws say what
//! the clients read, and what became of the files that the clients put, get, delete and rename.
//!
//! The laws have these premises, and promise nothing of progress: a server that never serves meets
//! the laws.
//!
//! - The premises of chaos_net. Otherwise a packet could come to a wrong connection, or a host
//!   could forget a command that it served.
//! - The store keeps its files honestly, though it may fail. Otherwise a READ could give bytes that
//!   no client ever stored.
//! - Only B's server reads and writes at B. Otherwise another user of B could take a command, or
//!   could send a false reply.
//! - For operations: the user sent LOGIN and then exactly the commands of operations. Otherwise the
//!   user could close the file in the middle of a put.
#![tactic(auto)]

mod law;
mod operations;

pub use law::{law_file_net, law_grows, law_served, law_serving, law_short_file, law_users};
pub use operations::{
    law_answered_once, law_login_among, law_operation_among, law_operations_among,
};
