//! The file of a key that a line names.
ghost use Rattle.std.specs.Prelude.{◌≡◌, option_map};
ghost use Rattle.std.specs.Result.{result_ok};
ghost use Rattle.clap.specs.Words.{found_of, rows_of};
ghost use Rattle.chaosd_line.specs.Keys.{key_at, serve_key_at};

use crate::bad_value::{BadValue, OWN_FORM, TABLE_KEYS};
use crate::form::{optional, value};
use crate::places::{is_long, words_in};
use crate::values::Flag;
use clap::ArgMatches;

/// The word of `--key`, if there is one. CHUDP has no key.
#[tactic(auto, unfolding(crate::specs::Keys::key_at))]
pub(crate) fn key_in<'a>(matches: &ArgMatches<'a>) -> Result<Option<&'a str>, BadValue<'a>>
    ensures { option_map (option_map (λ t. t.now)) (result_ok result)
        ≡ key_at (rows_of (found_of matches.now)) }
{
    let is_chudp = value(matches, "chudp", &Flag)?;
    match optional(matches, "key") {
        Some(file) if is_chudp => Err(BadValue::misfit(file, "key", OWN_FORM)),
        file => Ok(file),
    }
}

/// The same for `serve`. A server whose hosts are in a table has their keys from there.
#[tactic(auto, unfolding(crate::specs::Keys::serve_key_at))]
pub(crate) fn serve_key_in<'a>(matches: &ArgMatches<'a>) -> Result<Option<&'a str>, BadValue<'a>>
    ensures { option_map (option_map (λ t. t.now)) (result_ok result)
        ≡ serve_key_at (rows_of (found_of matches.now)) }
{
    match optional(matches, "key") {
        Some(file) if !is_long(words_in(matches)) => Err(BadValue::misfit(file, "key", TABLE_KEYS)),
        _ => key_in(matches),
    }
}
