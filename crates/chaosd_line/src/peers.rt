//! The peers of a line, added one after another.
ghost use Rattle.std.specs.Prelude.{◌≡◌, ◌≤◌, None, OnErr, OnOk, Some, length};
ghost use Rattle.std.specs.Option.{option_and_then};
ghost use Rattle.chaos_link.specs.declared.limits.TheConstants.{MAX_PEERS};
ghost use Rattle.chaosd_hosts.specs.Addresses.{bridge_of, peer_of};
ghost use Rattle.chaosd_line.specs.Values.{names_bridge, with_bridge, with_host, with_peer};

use crate::bad_value::{BRIDGE_ONCE_FORM, BadValue, ENTRY_FORM, ONCE_FORM, PEERS_FORM};
use crate::form::Form;
use crate::values::Host;
use chaos_link::{PeerFault, Peers};
use chaosd_hosts::bridge_of;

/// The form of a peer that a table refuses.
fn form_of(fault: PeerFault) -> &'static str {
    match fault {
        PeerFault::TooMany => PEERS_FORM,
        PeerFault::Already => ONCE_FORM,
    }
}

/// The word that is no peer to be added.
pub(crate) fn bad_peer<'a>(text: &'a str, form: &'a str) -> BadValue<'a> {
    BadValue::new(text, "PEER", form)
}

/// Adds the host that the text writes.
#[tactic(auto, unfolding(crate::specs::Values::with_host))]
fn add_host<'a>(peers: &mut Peers, text: &'a str) -> Result<(), BadValue<'a>>
    requires { length peers.old.hosts ≤ MAX_PEERS }
    ensures ok { OnOk result
        (option_and_then (with_host peers.old) (peer_of text.now) ≡ Some peers.new) }
    ensures err { OnErr result (option_and_then (with_host peers.old) (peer_of text.now) ≡ None) }
    ensures few { length peers.new.hosts ≤ MAX_PEERS }
{
    match Host.value_of(text) {
        Some(peer) => match peers.add(peer) {
            Ok(()) => Ok(()),
            Err(fault) => Err(bad_peer(text, form_of(fault))),
        },
        None => Err(bad_peer(text, ENTRY_FORM)),
    }
}

/// Sets the bridge that the text writes.
#[tactic(auto, unfolding(crate::specs::Values::with_bridge))]
fn add_bridge<'a>(peers: &mut Peers, text: &'a str) -> Result<(), BadValue<'a>>
    requires { length peers.old.hosts ≤ MAX_PEERS }
    ensures ok { OnOk result
        (option_and_then (with_bridge peers.old) (bridge_of text.now) ≡ Some peers.new) }
    ensures err { OnErr result (option_and_then (with_bridge peers.old) (bridge_of text.now) ≡ None) }
    ensures few { length peers.new.hosts ≤ MAX_PEERS }
{
    let Some(socket) = bridge_of(text) else {
        return Err(bad_peer(text, ENTRY_FORM));
    };
    if peers.bridge().is_some() {
        return Err(bad_peer(text, BRIDGE_ONCE_FORM));
    }
    peers.set_bridge(socket);
    Ok(())
}

/// Whether a text begins with a star.
fn names_bridge(bytes: &[u8]) -> bool
    ensures { result ≡ names_bridge bytes.now }
{
    match bytes {
        [first, ..] => *first == b'*',
        [] => false,
    }
}

/// Adds the host or the bridge that the text writes.
#[tactic(auto, unfolding(crate::specs::Values::with_peer))]
pub(crate) fn add_peer<'a>(peers: &mut Peers, text: &'a str) -> Result<(), BadValue<'a>>
    requires { length peers.old.hosts ≤ MAX_PEERS }
    ensures ok { OnOk result (with_peer peers.old text.now ≡ Some peers.new) }
    ensures err { OnErr result (with_peer peers.old text.now ≡ None) }
    ensures few { length peers.new.hosts ≤ MAX_PEERS }
{
    if names_bridge(text.as_bytes()) {
        add_bridge(peers, text)
    } else {
        add_host(peers, text)
    }
}
