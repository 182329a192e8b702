//! Whom a line calls or serves, by its words.
ghost use Rattle.std.specs.Prelude.{◌≡◌, option_map, map};
ghost use Rattle.std.specs.Result.{result_ok};
ghost use Rattle.chaosd_line.specs.Targets.{ask_ends, ask_target, ask_view, bare_host_of, call_target, ends_of, host_at, host_of, place_view, serve_ends, serve_folder, serve_place, target_view};

use crate::bad_value::{
    BARE_HOST_FORM, BadValue, HOST_PATH_FORM, KEPT_NAME_FORM, NO_ADDRESS_FORM, OTHER_FORM,
};
use crate::ends::{AskEnds, AskTarget, Ends, ServeEnds, ServePlace, Target};
use crate::followed::{asked_peers, known_hosts};
use crate::form::Form;
use crate::host_names::{has_colon, host_in, part_in};
use crate::places::{
    Place, is_long, last_text_at, last_word, text_at, value_at, word_at, words_from,
};
use crate::values::{Address, Host, Socket};
use crate::word::Word;
use chaosd_hosts::is_host_name;

/// This host's Chaosnet address in the long form.
const ADDRESS: Place = Place {
    index: 0,
    name: "ADDRESS",
    beside: "in front of UDP",
};

/// This host's UDP address in the long form.
const UDP: Place = Place {
    index: 1,
    name: "UDP",
    beside: "behind ADDRESS",
};

/// The server in the long form.
const SERVER: Place = Place {
    index: 2,
    name: "SERVER",
    beside: "behind UDP",
};

/// The host to ask in the long form.
const TO: Place = Place {
    index: 2,
    name: "TO",
    beside: "behind UDP",
};

/// The folder to serve in the long form.
const FOLDER: Place = Place {
    index: 2,
    name: "FOLDER",
    beside: "behind UDP",
};

/// The host to ask, alone.
const HOST: Place = Place {
    index: 0,
    name: "HOST",
    beside: "behind ask",
};

/// The folder to serve, alone.
const FOLDER_ALONE: Place = Place {
    index: 0,
    name: "FOLDER",
    beside: "behind serve",
};

/// Which word of the short form names the host that is called.
#[derive(Clone, Copy)]
pub(crate) enum HostWord {
    /// The first word, as HOST:PATH.
    First,
    /// The last word, as HOST: alone.
    Last,
}

/// Whether a text is a UDP address.
fn is_socket(text: &str) -> bool {
    Socket.value_of(text).is_some()
}

/// What is wrong with the words of a line in the short form. Where one of the first two words is a
/// UDP address, the line was to be in the long form: its ADDRESS is missing or bad.
fn short_mistake<'a>(words: &[&'a str], bad: BadValue<'a>) -> BadValue<'a> {
    if is_socket(word_at(words, 0).unwrap_or("")) {
        return BadValue::missing(ADDRESS.name, ADDRESS.beside);
    }
    if is_socket(word_at(words, 1).unwrap_or("")) {
        if let Err(bad_address) = value_at(words, ADDRESS, &Address) {
            return bad_address;
        }
    }
    bad
}

/// The two ends that the words of the long form give.
fn ends_of<'a>(words: &[&'a str]) -> Result<Ends, BadValue<'a>>
    ensures { option_map (λ ends. (ends.address, (ends.socket, ends.server))) (result_ok result)
        ≡ ends_of (map (λ t. t.now) words.now) }
{
    let address = value_at(words, ADDRESS, &Address)?;
    let socket = value_at(words, UDP, &Socket)?;
    let server = value_at(words, SERVER, &Host)?;
    if server.address == address {
        return Err(own_host(words, SERVER));
    }
    Ok(Ends {
        address,
        socket,
        server,
    })
}

/// What is wrong with the word at a place that names this host itself.
fn own_host<'a>(words: &[&'a str], place: Place) -> BadValue<'a> {
    let text = word_at(words, usize::from(place.index)).unwrap_or("");
    BadValue::new(text, place.name, OTHER_FORM)
}

/// The host that a word names in front of its first colon.
fn host_of(word: &str) -> Option<&str>
    ensures { option_map (λ t. t.now) result ≡ host_of word.now }
{
    if !has_colon(word) {
        return None;
    }
    let host = host_in(word);
    if is_host_name(host.as_bytes()) {
        Some(host)
    } else {
        None
    }
}

/// The host that a word names, where nothing stands behind its first colon.
fn bare_host_of(word: &str) -> Option<&str>
    ensures { option_map (λ t. t.now) result ≡ bare_host_of word.now }
{
    if part_in(word).is_empty() {
        host_of(word)
    } else {
        None
    }
}

/// The host that the short form names in the word that has it.
fn host_at<'a>(words: &[&'a str], place: HostWord) -> Option<&'a str>
    ensures { option_map (λ t. t.now) result ≡ host_at place (map (λ t. t.now) words.now) }
{
    match place {
        HostWord::First => host_of(word_at(words, 0)?),
        HostWord::Last => bare_host_of(last_word(words)?),
    }
}

/// Whether a word was to be an address: a host's name has no `=`.
fn is_address(word: &str) -> bool {
    host_in(word).contains('=') || is_socket(word)
}

/// What is wrong with the first word of `get`, `delete` or `rename`, which names no host.
fn bad_first<'a>(word: &'a str) -> BadValue<'a> {
    let form = if is_address(word) {
        NO_ADDRESS_FORM
    } else {
        HOST_PATH_FORM
    };
    BadValue::new(word, "HOST:PATH", form)
}

/// What is wrong with the last word of `put`, which names no host alone.
fn bad_last<'a>(word: &'a str) -> BadValue<'a> {
    let form = if is_address(word) {
        NO_ADDRESS_FORM
    } else if host_of(word).is_some() {
        KEPT_NAME_FORM
    } else {
        BARE_HOST_FORM
    };
    BadValue::new(word, "HOST:", form)
}

/// What is wrong with a line in the short form that names no host.
fn no_host<'a>(words: &[&'a str], place: HostWord) -> BadValue<'a> {
    let bad = match (place, word_at(words, 0), last_word(words)) {
        (HostWord::First, Some(word), _) => bad_first(word),
        (HostWord::Last, _, Some(word)) => bad_last(word),
        _ => BadValue::missing("HOST:PATH", "in front of LOCAL"),
    };
    short_mistake(words, bad)
}

/// The server that the words of a line call.
pub(crate) fn call_target<'a>(
    words: &[&'a str],
    place: HostWord,
) -> Result<Target<'a>, BadValue<'a>>
    ensures { option_map target_view (result_ok result)
        ≡ call_target place (map (λ t. t.now) words.now) }
{
    if is_long(words) {
        return Ok(Target::Addresses(ends_of(words)?));
    }
    match host_at(words, place) {
        Some(name) => Ok(Target::Name(name)),
        None => Err(no_host(words, place)),
    }
}

/// The two ends that the words of the long form of `ask` give.
#[tactic(auto, unfolding(crate::specs::Followed::asked_peers))]
fn ask_ends<'a>(words: &[&'a str]) -> Result<AskEnds, BadValue<'a>>
    ensures { option_map (λ ends. ((ends.address, (ends.socket, ends.to)), ends.peers)) (result_ok result)
        ≡ ask_ends (map (λ t. t.now) words.now) }
{
    let address = value_at(words, ADDRESS, &Address)?;
    let socket = value_at(words, UDP, &Socket)?;
    let to = value_at(words, TO, &Address)?;
    if to == address {
        return Err(own_host(words, TO));
    }
    Ok(AskEnds {
        address,
        socket,
        to,
        peers: asked_peers(words_from(words, 3))?,
    })
}

/// The host that the words of `ask` ask.
pub(crate) fn ask_target<'a>(words: &[&'a str]) -> Result<AskTarget<'a>, BadValue<'a>>
    ensures { option_map ask_view (result_ok result) ≡ ask_target (map (λ t. t.now) words.now) }
{
    if is_long(words) {
        return Ok(AskTarget::Addresses(ask_ends(words)?));
    }
    match last_text_at(words, HOST, Word::HostName) {
        Ok(name) => Ok(AskTarget::Name(name)),
        Err(bad) => Err(short_mistake(words, bad)),
    }
}

/// The addresses that the words of the long form of `serve` give.
fn serve_ends<'a>(words: &[&'a str]) -> Result<ServeEnds, BadValue<'a>>
    ensures { option_map (λ ends. (ends.address, (ends.socket, (ends.peers, ends.followed.items)))) (result_ok result)
        ≡ serve_ends (map (λ t. t.now) words.now) }
{
    let address = value_at(words, ADDRESS, &Address)?;
    let socket = value_at(words, UDP, &Socket)?;
    let (peers, followed) = known_hosts(words_from(words, 3))?;
    Ok(ServeEnds {
        address,
        socket,
        peers,
        followed,
    })
}

/// Where the words of `serve` say that the server and its hosts are.
pub(crate) fn serve_place<'a>(words: &[&'a str]) -> Result<ServePlace, BadValue<'a>>
    ensures { option_map place_view (result_ok result) ≡ serve_place (map (λ t. t.now) words.now) }
{
    if is_long(words) {
        Ok(ServePlace::Addresses(serve_ends(words)?))
    } else {
        Ok(ServePlace::Table)
    }
}

/// The folder that the words of `serve` name.
pub(crate) fn serve_folder<'a>(words: &[&'a str]) -> Result<&'a str, BadValue<'a>>
    ensures { option_map (λ t. t.now) (result_ok result)
        ≡ serve_folder (map (λ t. t.now) words.now) }
{
    if is_long(words) {
        return text_at(words, FOLDER, Word::Any);
    }
    match last_text_at(words, FOLDER_ALONE, Word::Any) {
        Ok(folder) => Ok(folder),
        Err(bad) => Err(short_mistake(words, bad)),
    }
}
