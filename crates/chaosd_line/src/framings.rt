//! The words that say how packets stand in datagrams.
ghost use Rattle.std.specs.Prelude.{◌≡◌};
ghost use Rattle.std.specs.Result.{result_ok};
ghost use Rattle.clap.specs.Words.{found_of, rows_of};
ghost use Rattle.chaosd_line.specs.Framings.{framing_at};

use crate::bad_value::{BadValue, NEEDS_CHUDP, ONE_PACKET};
use crate::form::{optional, optional_value, value};
use crate::framing::Framing;
use crate::values::{Address, Flag, Version};
use chaos_link::Carriage;
use clap::ArgMatches;

/// What is wrong with the word of an option that doesn't go with the others.
fn misfit<'a>(matches: &ArgMatches<'a>, option: &'a str, reason: &'a str) -> BadValue<'a> {
    BadValue::misfit(optional(matches, option).unwrap_or(""), option, reason)
}

/// How packets stand in datagrams: CHUDP has one packet in each, and only CHUDP names a bridge.
#[tactic(auto, unfolding(crate::specs::Framings::framing_at))]
pub(crate) fn framing_of<'a>(matches: &ArgMatches<'a>) -> Result<Framing, BadValue<'a>>
    ensures { result_ok result ≡ framing_at (rows_of (found_of matches.now)) }
{
    let carriage = value(matches, "carriage", &Version)?;
    let is_chudp = value(matches, "chudp", &Flag)?;
    let bridge = optional_value(matches, "bridge", &Address)?;
    match (is_chudp, carriage, bridge) {
        (true, Carriage::One, bridge) => Ok(Framing::Chudp(bridge)),
        (true, Carriage::Two, _) => Err(misfit(matches, "carriage", ONE_PACKET)),
        (false, carriage, None) => Ok(Framing::Own(carriage)),
        (false, _, Some(_)) => Err(misfit(matches, "bridge", NEEDS_CHUDP)),
    }
}
