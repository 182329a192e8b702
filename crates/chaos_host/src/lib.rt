//! A Chaosnet host (AI Memo 628, on connections): a table of connections, the contacts that it
//! listens to, what each packet that arrives makes of it, and its user's calls.
//!
//! A host is a value: no sockets, no clock (moments are handed in), and no allocation after
//! `Host::new`. Packets come in by a call and go out into an [`chaos_packet::Outbox`].
#![tactic(auto)]

mod answers;
mod calls;
mod connect;
mod deliver;
mod ending;
mod fault;
mod host;
mod index;
mod law;
mod limits;
mod listeners;
mod looks;
mod next_due;
mod replies;
mod requested;
mod route;
mod slot;
mod slot_set;
mod slots;
mod stored;
mod tick;

pub use answers::{HostDelivered, HostDisposition};
pub use fault::{CallFault, ConnectFault, ListenFault, MakeFault};
pub use host::Host;
pub use index::ConnId;
pub use law::{law_deeds, law_in_use, law_index, law_pending};
pub use limits::{MAX_CONNS, MAX_CONTACT, MAX_LISTENERS, law_limits};
