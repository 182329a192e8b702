//! The hosts that `serve` and `ask` know: peers, and hosts that are followed.
ghost use Rattle.std.specs.Prelude.{◌≡◌, ◌+◌, ◌≤◌, None, OnErr, OnOk, Some, length, map, option_map};
ghost use Rattle.std.specs.List.{list_any};
ghost use Rattle.std.specs.Result.{result_ok};
ghost use Rattle.chaos_link.specs.declared.limits.TheConstants.{MAX_PEERS};
ghost use Rattle.chaosd_line.specs.Followed.{asked_peers, followed_among, followed_of, is_followed, known_hosts, names_followed, peers_among, with_followed, with_followed_word, with_peer_word};
ghost use Rattle.chaosd_line.specs.Values.{is_known};

use crate::bad_value::{ASK_FOLLOWS, BadValue, FOLLOWED_FORM, ONCE_FORM, PEERS_FORM};
use crate::form::Form;
use crate::peers::{add_peer, bad_peer};
use crate::values::Address;
use arrayvec::ArrayVec;
use chaos_link::{MAX_PEERS, Peer, Peers};
use chaosd_hosts::sides_of;

/// The Chaosnet addresses of hosts that are followed.
type Followed = ArrayVec<u16, MAX_PEERS>;

/// Whether a word has a star in place of a UDP address.
pub(crate) fn names_followed(text: &str) -> bool
    ensures { result ≡ names_followed text.now }
{
    match sides_of(text) {
        Some((_, right)) => right == "*",
        None => false,
    }
}

/// The address of the host that a word lets a server follow.
fn followed_of(text: &str) -> Option<u16>
    ensures { result ≡ followed_of text.now }
{
    let (left, _) = sides_of(text)?;
    Address.value_of(left)
}

/// Adds the host or the bridge that a word writes, unless it names a host to be followed.
#[tactic(auto, unfolding(crate::specs::Followed::with_peer_word))]
fn add_peer_word<'a>(peers: &mut Peers, text: &'a str) -> Result<(), BadValue<'a>>
    requires { length peers.old.hosts ≤ MAX_PEERS }
    ensures ok { OnOk result (with_peer_word peers.old text.now ≡ Some peers.new) }
    ensures err { OnErr result (with_peer_word peers.old text.now ≡ None) }
    ensures few { length peers.new.hosts ≤ MAX_PEERS }
{
    if names_followed(text) {
        return Ok(());
    }
    add_peer(peers, text)
}

/// The peers that the words name: the hosts in their order, and the bridge, where a word names one.
/// Words that name a host to be followed are left out.
///
/// # Errors
/// The first word that is no peer, or one too many, or has the address of an earlier one, or is a
/// second bridge.
fn peers_among<'a>(texts: &[&'a str]) -> Result<Peers, BadValue<'a>>
    ensures { result_ok result ≡ peers_among (map (λ t. t.now) texts.now) }
{
    let mut peers = Peers::new();
    for text in texts {
        add_peer_word(&mut peers, text)?;
    }
    Ok(peers)
}

/// Whether one of the hosts has this address.
fn is_known(address: u16, hosts: &[Peer]) -> bool
    ensures { result ≡ is_known address hosts.now }
{
    hosts.iter().any(|host| host.address == address)
}

/// Whether this address is followed.
fn is_followed(address: u16, followed: &[u16]) -> bool
    ensures { result ≡ is_followed address followed.now }
{
    followed.iter().any(|other| *other == address)
}

/// Adds an address that is followed, beside these hosts.
///
/// # Errors
/// The form that an address must have which can't be added.
#[tactic(auto, unfolding(crate::specs::Followed::with_followed))]
fn add_followed(hosts: &[Peer], followed: &mut Followed, address: u16) -> Result<(), &'static str>
    requires few { length hosts.now + length followed.old.items ≤ MAX_PEERS }
    ensures ok { OnOk result
        (with_followed hosts.now followed.old.items address ≡ Some followed.new.items) }
    ensures err { OnErr result (with_followed hosts.now followed.old.items address ≡ None) }
    ensures few { length hosts.now + length followed.new.items ≤ MAX_PEERS }
{
    if hosts.len() + followed.len() >= MAX_PEERS {
        return Err(PEERS_FORM);
    }
    if is_known(address, hosts) || is_followed(address, followed.as_slice()) {
        return Err(ONCE_FORM);
    }
    followed.push(address);
    Ok(())
}

/// Adds the address that a word lets a server follow, if it is such a word.
#[tactic(auto, unfolding(crate::specs::Followed::with_followed_word))]
fn add_followed_word<'a>(
    hosts: &[Peer],
    followed: &mut Followed,
    text: &'a str,
) -> Result<(), BadValue<'a>>
    requires few { length hosts.now + length followed.old.items ≤ MAX_PEERS }
    ensures ok { OnOk result
        (with_followed_word hosts.now followed.old.items text.now ≡ Some followed.new.items) }
    ensures err { OnErr result (with_followed_word hosts.now followed.old.items text.now ≡ None) }
    ensures few { length hosts.now + length followed.new.items ≤ MAX_PEERS }
{
    if !names_followed(text) {
        return Ok(());
    }
    let Some(address) = followed_of(text) else {
        return Err(bad_peer(text, FOLLOWED_FORM));
    };
    match add_followed(hosts, followed, address) {
        Ok(()) => Ok(()),
        Err(form) => Err(bad_peer(text, form)),
    }
}

/// The addresses that the words let a server follow, in their order.
///
/// # Errors
/// The first such word that has no address, or is one too many beside these hosts, or has the
/// address of one of them or of an earlier word.
fn followed_among<'a>(hosts: &[Peer], texts: &[&'a str]) -> Result<Followed, BadValue<'a>>
    requires { length hosts.now ≤ MAX_PEERS }
    ensures { option_map (λ v. v.items) (result_ok result)
        ≡ followed_among hosts.now (map (λ t. t.now) texts.now) }
{
    let mut followed = ArrayVec::new();
    for text in texts {
        add_followed_word(hosts, &mut followed, text)?;
    }
    Ok(followed)
}

/// The hosts that the words of `serve` name: its peers, and the addresses that it follows.
#[tactic(auto, unfolding(crate::specs::Followed::known_hosts))]
pub(crate) fn known_hosts<'a>(texts: &[&'a str]) -> Result<(Peers, Followed), BadValue<'a>>
    ensures { option_map (λ known. (known.0, known.1.items)) (result_ok result)
        ≡ known_hosts (map (λ t. t.now) texts.now) }
{
    let peers = peers_among(texts)?;
    let followed = followed_among(peers.hosts(), texts)?;
    Ok((peers, followed))
}

/// The first word that names a host to be followed.
pub(crate) fn first_followed<'a>(texts: &[&'a str]) -> Option<&'a str> {
    texts.iter().copied().find(|text| names_followed(text))
}

/// Whether one of the words names a host to be followed.
fn follows_any(texts: &[&str]) -> bool
    ensures { result ≡ list_any (λ t. names_followed t.now) texts.now }
{
    texts.iter().any(|text| names_followed(text))
}

/// The peers that the words of `ask` name.
#[tactic(auto, unfolding(crate::specs::Followed::asked_peers))]
pub(crate) fn asked_peers<'a>(texts: &[&'a str]) -> Result<Peers, BadValue<'a>>
    ensures { result_ok result ≡ asked_peers (map (λ t. t.now) texts.now) }
{
    if follows_any(texts) {
        let text = first_followed(texts).unwrap_or("");
        return Err(BadValue::misfit(text, "PEER", ASK_FOLLOWS));
    }
    peers_among(texts)
}
