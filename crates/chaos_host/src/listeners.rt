//! The contacts that a host listens to.
ghost use Rattle.std.specs.Prelude.{◌≡◌, ℕ, ◌<◌, ◌≤◌, ◌==◌, ◌++◌, List, [], ◌∷◌, length, IfNone};
ghost use Rattle.std.specs.List.{list_any};
ghost use Rattle.std.specs.Str.{bytes_eq};
ghost use Rattle.chaos_host.specs.Listening.{has_listener, is_contact, listen_fault, listen_answer, after_listen};

use crate::fault::ListenFault;
use crate::host::Host;
use crate::limits::{MAX_CONTACT, MAX_LISTENERS};
use arrayvec::ArrayVec;
use std::marker::Model;

/// A contact that a host listens to. A contract sees its bytes.
#[derive(Drop)]
pub struct Contact {
    name: ArrayVec<u8, MAX_CONTACT>,
}

impl Model for Contact {
    ghost Value = { List ℕ };

    ghost view = { λ c. c.name.items };
}

impl Default for Contact {
    fn default() -> Self {
        Contact {
            name: ArrayVec::new(),
        }
    }
}

impl Contact {
    /// A contact of these bytes.
    fn new(name: &[u8]) -> Self
        requires { length name.now ≤ MAX_CONTACT }
        ensures { result ≡ name.now }
    {
        let mut bytes = ArrayVec::new();
        let _fits = bytes.try_extend_from_slice(name);
        Contact { name: bytes }
    }

    /// Whether these bytes are exactly this contact.
    fn is(&self, name: &[u8]) -> bool
        ensures { result ≡ bytes_eq self.now name.now }
    {
        self.name.as_slice() == name
    }
}

impl Host {
    /// Listens to a contact: requests for it are taken, and held for the user.
    ///
    /// Refused, in this order: `TooMany` where the host listens to 16 contacts; `TooLong` for more
    /// than 64 bytes; `Already` where the host listens to this contact; `BadContact` for a contact
    /// that is empty or has a space.
    pub fn listen(&mut self, contact: &[u8]) -> Result<(), ListenFault>
        // A contact is refused exactly for its first fault.
        ensures answer { result ≡ listen_answer (listen_fault self.old.listeners contact.now) }
        // A contact that isn't refused is listened to. A refused call changes nothing.
        ensures view { self.new
            ≡ after_listen (listen_fault self.old.listeners contact.now) self.old contact.now }
    {
        if let Some(fault) = listen_fault(&self.listeners, contact) {
            return Err(fault);
        }
        add(&mut self.listeners, contact);
        Ok(())
    }
}

/// Whether one of these is the contact.
///
/// A walk over the listeners.
pub fn has_listener(listeners: &ArrayVec<Contact, MAX_LISTENERS>, contact: &[u8]) -> bool
    ensures { result ≡ has_listener listeners.now.items contact.now }
{
    listeners.iter().any(|listener| listener.is(contact))
}

/// The first fault of a contact that is to be added to these.
fn listen_fault(listeners: &ArrayVec<Contact, MAX_LISTENERS>, contact: &[u8]) -> Option<ListenFault>
    ensures value { result ≡ listen_fault listeners.now.items contact.now }
    ensures fits { IfNone result
        ((length listeners.now.items < MAX_LISTENERS) × (length contact.now ≤ MAX_CONTACT)) }
{
    if listeners.len() >= MAX_LISTENERS {
        Some(ListenFault::TooMany)
    } else if contact.len() > MAX_CONTACT {
        Some(ListenFault::TooLong)
    } else if has_listener(listeners, contact) {
        Some(ListenFault::Already)
    } else if is_contact(contact) {
        None
    } else {
        Some(ListenFault::BadContact)
    }
}

/// Whether the bytes may be a contact: there are some, and no space among them.
fn is_contact(contact: &[u8]) -> bool
    ensures { result ≡ is_contact contact.now }
{
    !contact.is_empty() && !has_space(contact)
}

/// Whether a space is among the bytes.
fn has_space(bytes: &[u8]) -> bool
    ensures { result ≡ list_any (λ b. b == 32) bytes.now }
{
    bytes.iter().any(|byte| *byte == b' ')
}

/// Adds a contact without a fault.
fn add(listeners: &mut ArrayVec<Contact, MAX_LISTENERS>, contact: &[u8])
    requires room { length listeners.old.items < MAX_LISTENERS }
    requires fits { length contact.now ≤ MAX_CONTACT }
    ensures { listeners.new.items ≡ listeners.old.items ++ contact.now ∷ [] }
{
    listeners.push(Contact::new(contact));
}
