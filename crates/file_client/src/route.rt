//! From whom to whom a client calls, and how.
use crate::contact::Contact;
use chaos_conn::ConnConfig;
use chaos_link::Carriage;

/// Two hosts, the contact, and how packets go between them.
#[derive(Clone, Copy)]
pub struct Route {
    /// The client's own Chaosnet address, which isn't 0.
    pub me: u16,
    /// The server's Chaosnet address.
    pub to: u16,
    /// The contact that the server is asked for.
    pub contact: Contact,
    /// The windows and times of the client's connections. As many commands are in flight as the
    /// lesser of its send window and the server's window allows.
    pub config: ConnConfig,
    /// The form of the datagrams in which packets go out. Datagrams of both versions are read.
    pub carriage: Carriage,
}
