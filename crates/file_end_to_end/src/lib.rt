//! FILE from end to end: a client's engine at one link, a FILE server at another link, and the
//! datagrams between the two. The laws follow each turn and each datagram, and say what each
//! operation of the client does to the files.
//!
//! The laws have these premises, and promise nothing of progress or of time:
//!
//! - The premises of chaos_net. Otherwise a stranger could log in as the client, and an old
//!   packet could carry an old command.
//! - The store keeps its files honestly, so it says what files it has: `MemStore` does, `DirStore`
//!   does not. A disk may lose what was written to it.
//! - B's owner only listens, and starts with a new server. Otherwise another user of B could answer
//!   a client.
//! - For an operation: the user is idle, so the user has read a reply to each earlier command.
//!   Otherwise an earlier reply could be taken for a reply of this operation.
//! - The engine asks for another connection only if no OPN came. Otherwise the commands would go to
//!   two sessions.
#![tactic(auto)]

mod law;

pub use law::{
    law_done, law_file_systems, law_file_turns, law_programs, law_server_turns, law_two_clients,
    law_world, law_world_gets, law_young,
};
