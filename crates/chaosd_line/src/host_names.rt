//! Words that name a host in front of a colon.
ghost use Rattle.std.specs.Prelude.{◌≡◌};
ghost use Rattle.chaosd_line.specs.Hosts.{has_colon, host_in, is_at, part_in};

use chaosd_hosts::is_same_name;

/// Whether a word has a colon.
pub(crate) fn has_colon(word: &str) -> bool
    ensures { result ≡ has_colon word.now }
{
    word.as_bytes().iter().any(|b| *b == b':')
}

/// What stands before the first colon of a word.
pub(crate) fn host_in(word: &str) -> &str
    ensures { result.now ≡ host_in word.now }
{
    match word.split_once(':') {
        Some((host, _)) => host,
        None => word,
    }
}

/// What stands behind the first colon of a word.
pub(crate) fn part_in(word: &str) -> &str
    ensures { result.now ≡ part_in word.now }
{
    match word.split_once(':') {
        Some((_, part)) => part,
        None => "",
    }
}

/// Whether a word names this host in front of a colon.
pub(crate) fn is_at(host: &str, word: &str) -> bool
    ensures { result ≡ is_at host.now word.now }
{
    has_colon(word) && is_same_name(host_in(word), host)
}
