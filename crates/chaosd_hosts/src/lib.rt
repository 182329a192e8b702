//! Hosts by name: the table of hosts that a user writes, like /etc/hosts, and the texts of
//! addresses that a table and a command line share.
//!
//! Texts are read in place. Nothing here allocates, opens a file or a socket, or reads a clock.
#![tactic(auto)]

mod addresses;
mod fault;
mod fields;
mod following;
mod host;
mod kept;
mod keys;
mod names;
mod numbers;
mod reading;
mod table;

pub use addresses::{
    ADDRESS_FORM, SOCKET_FORM, address_of, bridge_of, peer_of, sides_of, socket_of,
};
pub use fault::{Reason, Refusal, TableFault};
pub use following::{DatagramForm, FollowedHosts};
pub use host::{Host, MAX_SELVES};
pub use names::{MAX_HOST_NAME, is_host_name, is_same_name};
pub use numbers::{is_padded, number_of};
pub use table::{HostsTable, MAX_TABLE_BYTES};
