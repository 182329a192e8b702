//! What the fields of a line write.
ghost use Rattle.std.specs.Prelude.{◌≡◌, option_map};
ghost use Rattle.std.specs.Result.{result_map_both};
ghost use Rattle.std.specs.List.{list_any};
ghost use Rattle.chaosd_hosts.specs.Fields.{fields_of, keys_among, names_among};
ghost use Rattle.chaosd_hosts.specs.Table.{bad_name, bridge_in, good_names, host_in, host_view, is_star, key_by, refusal_view, udp_of};

use crate::addresses::{address_of, socket_of};
use crate::fault::{Reason, Refusal};
use crate::fields::{has_name, key_file, next_field, next_key, next_name};
use crate::host::Host;
use crate::names::{OWN_NAME, is_host_name};
use std::net::SocketAddrV4;

/// The word that stands for the bridge in place of a Chaosnet address, and for no UDP address.
const STAR: &str = "*";

/// Whether a word is a star.
pub(crate) fn is_star(word: &str) -> bool
    ensures { result ≡ is_star word.now }
{
    word == STAR
}

/// The UDP address that a word writes, or none where the word is a star.
#[tactic(auto, unfolding(crate::specs::Table::udp_of))]
fn udp_of(word: &str) -> Option<Option<SocketAddrV4>>
    ensures { result ≡ udp_of word.now }
{
    if is_star(word) {
        return Some(None);
    }
    Some(Some(socket_of(word)?))
}

/// The first field that neither is a host's name nor names a key file.
fn bad_name(fields: &str) -> Option<&str>
    ensures { option_map (λ name. name.now) result ≡ bad_name (names_among (fields_of fields.now)) }
{
    let mut rest = fields;
    while let Some((name, behind)) = next_name(rest) {
        if !is_host_name(name.as_bytes()) {
            return Some(name);
        }
        rest = behind;
    }
    None
}

/// That the fields of a host's line have a name, and that each name is good. A refusal names the
/// first word of the line, or the name.
fn read_names<'a>(word: &'a str, fields: &'a str) -> Result<(), Refusal<'a>>
    ensures { result_map_both (λ _. names_among (fields_of fields.entry.now)) refusal_view result
        ≡ good_names word.entry.now (names_among (fields_of fields.entry.now)) }
{
    if next_name(fields).is_none() {
        return Err(Refusal::new(Reason::NoName, word));
    }
    match bad_name(fields) {
        Some(name) => Err(Refusal::new(Reason::BadName, name)),
        None => Ok(()),
    }
}

/// The key file that the fields of a line name. Only the line of another host may name one.
fn read_key<'a>(fields: &'a str, is_other: bool) -> Result<Option<&'a str>, Refusal<'a>>
    ensures { result_map_both (option_map (λ file. file.now)) refusal_view result
        ≡ key_by is_other (keys_among (fields_of fields.entry.now)) }
{
    let Some((field, behind)) = next_key(fields) else {
        return Ok(None);
    };
    if !is_other {
        return Err(Refusal::new(Reason::StrayKey, field));
    }
    if let Some((second, _)) = next_key(behind) {
        return Err(Refusal::new(Reason::SecondKey, second));
    }
    match key_file(field) {
        Some(file) if !file.is_empty() => Ok(Some(file)),
        _ => Err(Refusal::new(Reason::NoKeyFile, field)),
    }
}

/// The host that a line writes, whose first field is this word and whose other fields stand behind.
#[tactic(auto, unfolding(crate::specs::Table::host_in))]
pub(crate) fn host_in<'a>(word: &'a str, fields: &'a str) -> Result<Host<'a>, Refusal<'a>>
    ensures { result_map_both host_view refusal_view result
        ≡ host_in word.entry.now (fields_of fields.entry.now) }
{
    let Some(address) = address_of(word) else {
        return Err(Refusal::new(Reason::BadAddress, word));
    };
    let Some((field, rest)) = next_field(fields) else {
        return Err(Refusal::new(Reason::NoUdp, word));
    };
    let Some(udp) = udp_of(field) else {
        return Err(Refusal::new(Reason::BadUdp, field));
    };
    read_names(word, rest)?;
    let key = read_key(rest, !has_name(rest, OWN_NAME))?;
    Ok(Host {
        address,
        udp,
        fields: rest,
        key,
    })
}

/// The UDP address of the bridge that a line writes, whose first field is this word, a star, and
/// whose other fields stand behind.
#[tactic(auto, unfolding(crate::specs::Table::bridge_in))]
pub(crate) fn bridge_in<'a>(word: &'a str, fields: &'a str) -> Result<SocketAddrV4, Refusal<'a>>
    ensures { result_map_both (λ socket. socket) refusal_view result
        ≡ bridge_in word.entry.now (fields_of fields.entry.now) }
{
    let Some((field, rest)) = next_field(fields) else {
        return Err(Refusal::new(Reason::BridgeWithoutUdp, word));
    };
    if is_star(field) {
        return Err(Refusal::new(Reason::BridgeWithoutUdp, word));
    }
    let Some(socket) = socket_of(field) else {
        return Err(Refusal::new(Reason::BadUdp, field));
    };
    if let Some(name) = bad_name(rest) {
        return Err(Refusal::new(Reason::BadName, name));
    }
    read_key(rest, false)?;
    Ok(socket)
}
