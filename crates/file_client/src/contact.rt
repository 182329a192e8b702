//! The name that a server is asked for.
ghost use Rattle.std.specs.Prelude.{◌≡◌, ◌==◌, ◌≤◌, IfNone, None, codes, length};
ghost use Rattle.std.specs.List.{list_any};
ghost use Rattle.file_client.specs.Contact.{checked_contact, contact_fault, padded};

use chaos_file::CONTACT;
use chaos_host::MAX_CONTACT;
use std::marker::Model;
use thiserror::Error;

/// Why bytes are no contact: the first of these that applies.
#[derive(Clone, Copy, Debug, PartialEq, Eq, Error)]
pub enum ContactFault {
    /// 1: there are no bytes.
    #[error("the contact is empty")]
    Empty,
    /// 2: there are more than 64 bytes.
    #[error("the contact has more than 64 bytes")]
    TooLong,
    /// 3: a space is among the bytes. In a request a space ends the contact, and the arguments
    /// follow.
    #[error("the contact has a space")]
    HasSpace,
}

/// The name that a server is asked for: 1 to 64 bytes, none of which is a space. A contract sees
/// the bytes.
#[derive(Clone, Copy, Debug, PartialEq, Eq)]
pub struct Contact {
    /// The name, and zeros behind the name.
    bytes: [u8; MAX_CONTACT],
    len: usize,
}

impl Model for Contact {
    ghost use Rattle.std.specs.Prelude.{◌≡◌, ◌≤◌, ℕ, List, None, length, take};
    ghost use Rattle.std.proofs.Common.{length-take-le, sym};
    ghost use Rattle.chaos_host.specs.declared.limits.TheConstants.{MAX_CONTACT};
    ghost use Rattle.file_client.specs.Contact.{contact_fault, padded};

    ghost Value = { List ℕ };

    ghost view = { λ c. take c.len c.bytes };

    ghost invariant = { λ c. (c.len ≤ length c.bytes) × (c.bytes ≡ padded (take c.len c.bytes))
        × (contact_fault (take c.len c.bytes) ≡ None) };

    ghost inverse = { λ name. record { bytes = padded name; len = length name } };

    ghost inverse_ok = { λ c h i.
        record { bytes = sym h.1 i; len = length-take-le c.len c.bytes h.0 i } };
}

impl Contact {
    /// The contact of these bytes.
    ///
    /// # Errors
    /// `Empty` for no bytes, `TooLong` for more than 64 bytes, `HasSpace` for bytes with a space.
    pub fn new(name: &[u8]) -> Result<Self, ContactFault>
        // A contact of 1 to 64 bytes without a space has exactly these bytes. No bytes are refused
        // as `Empty`, more than 64 bytes as `TooLong`, and other bytes with a space as `HasSpace`.
        ensures { result ≡ checked_contact name.now }
    {
        match contact_fault(name) {
            Some(fault) => Err(fault),
            None => Ok(Contact::of(name)),
        }
    }

    /// The usual contact of a server of FILE: `FILE`.
    pub fn file() -> Self
        // The contact is `FILE`.
        ensures { result ≡ codes "FILE" }
    {
        Contact::of(CONTACT)
    }

    /// The contact of bytes that have no fault.
    fn of(name: &[u8]) -> Self
        requires { contact_fault name.now ≡ None }
        ensures { result ≡ name.now }
    {
        Contact {
            bytes: padded(name),
            len: name.len(),
        }
    }

    /// The bytes of the contact, lent.
    pub fn bytes(&self) -> &[u8]
        // The bytes of a contact are lent as they are.
        ensures { result.now ≡ self.now }
    {
        &self.bytes[..self.len]
    }
}

/// The bytes, and zeros behind them.
fn padded(name: &[u8]) -> [u8; MAX_CONTACT]
    requires { length name.now ≤ MAX_CONTACT }
    ensures { result ≡ padded name.now }
{
    let mut bytes = [0; MAX_CONTACT];
    bytes[..name.len()].copy_from_slice(name);
    bytes
}

/// The first fault of bytes that are to be a contact.
fn contact_fault(name: &[u8]) -> Option<ContactFault>
    ensures { result ≡ contact_fault name.now }
{
    if name.is_empty() {
        Some(ContactFault::Empty)
    } else if name.len() > MAX_CONTACT {
        Some(ContactFault::TooLong)
    } else if has_space(name) {
        Some(ContactFault::HasSpace)
    } else {
        None
    }
}

/// Whether a space is among the bytes.
fn has_space(bytes: &[u8]) -> bool
    ensures { result ≡ list_any (λ b. b == 32) bytes.now }
{
    bytes.iter().any(|byte| *byte == b' ')
}
