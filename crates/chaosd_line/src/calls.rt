//! The values that clap gives for the callers of a server, and those of `delete` and `rename`.
ghost use Rattle.std.specs.Prelude.{◌≡◌, codes, map, option_map};
ghost use Rattle.std.specs.Option.{option_zip};
ghost use Rattle.std.specs.Result.{result_ok};
ghost use Rattle.clap.specs.Words.{found_of, rows_of};
ghost use Rattle.chaosd_line.specs.Lines.{Answers, Reads, call_options, delete, rename};
ghost use Rattle.chaosd_line.specs.Places.{words_in};
ghost use Rattle.chaosd_line.specs.Targets.{call_target, target_view};
ghost use Rattle.chaosd_line.specs.Values.{given_if, seconds_of};

use crate::bad_value::BadValue;
use crate::form::{optional_value, value, word};
use crate::framings::framing_of;
use crate::keys::key_in;
use crate::line::{Calling, Delete, Rename};
use crate::line_problem::LineProblem;
use crate::places::{hosts_in, words_in};
use crate::remote::{file_paths, new_path, old_path};
use crate::target::{HostWord, call_target};
use crate::values::{Flag, SECONDS, WINDOW};
use crate::word::Word;
use clap::ArgMatches;
use std::alloc::Global;

/// The seconds of a timeout, if they are given.
pub(crate) fn timeout_of<'a>(matches: &ArgMatches<'a>) -> Result<Option<u16>, BadValue<'a>>
    ensures { result_ok result
        ≡ given_if seconds_of (codes "timeout") (rows_of (found_of matches.now)) }
{
    match optional_value(matches, "timeout", &SECONDS)? {
        Some(seconds) => Ok(Some(seconds as u16)),
        None => Ok(None),
    }
}

/// What the callers of a server have in common. The server is named by these words.
#[tactic(auto, unfolding(crate::specs::Lines::call_options))]
pub(crate) fn calling_of<'a>(
    matches: &ArgMatches<'a>,
    words: &[&'a str],
    place: HostWord,
) -> Result<Calling<'a>, BadValue<'a>>
    ensures { option_map (λ c. (call_options.view c, target_view c.target)) (result_ok result)
        ≡ option_zip (call_options.value (rows_of (found_of matches.now)))
        (call_target place (map (λ t. t.now) words.now)) }
{
    let framing = framing_of(matches)?;
    let key = key_in(matches)?;
    let contact = word(matches, "contact", Word::Contact)?;
    let login = word(matches, "login", Word::Login)?;
    let window = value(matches, "window", &WINDOW)? as u16;
    let timeout = timeout_of(matches)?;
    let hears_anybody = value(matches, "any-source", &Flag)?;
    let hosts = hosts_in(matches)?;
    Ok(Calling {
        framing,
        key,
        contact,
        login,
        window,
        timeout,
        hears_anybody,
        hosts,
        target: call_target(words, place)?,
    })
}

/// What the values of `delete` ask for.
#[tactic(auto, unfolding(crate::specs::Lines::delete))]
pub(crate) fn delete_of<'a>(
    alloc: Global,
    matches: &ArgMatches<'a>,
) -> Result<Delete<'a>, LineProblem<'a>>
    ensures { Answers delete.view (delete.value (rows_of (found_of matches.now))) result }
{
    let words = words_in(matches);
    Ok(Delete {
        calling: calling_of(matches, words, HostWord::First)?,
        is_quiet: value(matches, "quiet", &Flag)?,
        is_verbose: value(matches, "verbose", &Flag)?,
        paths: file_paths(alloc, words)?,
    })
}

/// What the values of `rename` ask for.
#[tactic(auto, unfolding(crate::specs::Lines::rename))]
pub(crate) fn rename_of<'a>(matches: &ArgMatches<'a>) -> Result<Rename<'a>, BadValue<'a>>
    ensures { Reads rename (rows_of (found_of matches.now)) result }
{
    let words = words_in(matches);
    Ok(Rename {
        calling: calling_of(matches, words, HostWord::First)?,
        is_quiet: value(matches, "quiet", &Flag)?,
        is_verbose: value(matches, "verbose", &Flag)?,
        from: old_path(words)?,
        to: new_path(words)?,
    })
}
