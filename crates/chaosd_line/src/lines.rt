//! The values that clap gives for a subcommand, and the line that they ask for.
ghost use Rattle.std.specs.Prelude.{◌≡◌};
ghost use Rattle.clap.specs.Words.{found_of, rows_of};
ghost use Rattle.chaosd_line.specs.Lines.{Answers, Reads, ask, line_named, line_view, serve, show};
ghost use Rattle.chaosd_line.specs.Targets.{follows, place_view};

use crate::bad_value::{BadValue, UNKNOWN_PLACE};
use crate::calls::{delete_of, rename_of, timeout_of};
use crate::copies::{get_of, put_of};
use crate::ends::ServePlace;
use crate::followed::first_followed;
use crate::form::{optional_value, value, word};
use crate::framings::framing_of;
use crate::keys::{key_in, serve_key_in};
use crate::line::{Ask, Line, Serve, Show};
use crate::line_problem::LineProblem;
use crate::places::{hosts_in, words_from, words_in};
use crate::target::{ask_target, serve_folder, serve_place};
use crate::values::{Flag, Level, RETRANSMIT, TURNS, Version, WINDOW};
use crate::word::Word;
use clap::ArgMatches;
use std::alloc::Global;

/// Whether a server follows a host.
fn follows(place: &ServePlace) -> bool
    ensures { result ≡ follows (place_view place.now) }
{
    match place {
        ServePlace::Addresses(ends) => !ends.followed.is_empty(),
        ServePlace::Table => false,
    }
}

/// What is wrong with a host that is followed by a server which hears only peers.
fn unheard<'a>(words: &[&'a str]) -> BadValue<'a> {
    let text = first_followed(words_from(words, 3)).unwrap_or("");
    BadValue::misfit(text, "PEER", UNKNOWN_PLACE)
}

/// What the values of `serve` ask for.
#[tactic(auto, unfolding(crate::specs::Lines::serve))]
fn serve_of<'a>(matches: &ArgMatches<'a>) -> Result<Serve<'a>, BadValue<'a>>
    ensures { Reads serve (rows_of (found_of matches.now)) result }
{
    let words = words_in(matches);
    let turns = value(matches, "turns", &TURNS)? as u32;
    let framing = framing_of(matches)?;
    let key = serve_key_in(matches)?;
    let window = value(matches, "window", &WINDOW)? as u16;
    let retransmit = optional_value(matches, "retransmit", &RETRANSMIT)?;
    let is_quiet = value(matches, "quiet", &Flag)?;
    let log = value(matches, "log", &Level)?;
    let is_timed = value(matches, "log-time", &Flag)?;
    let is_read_only = value(matches, "read-only", &Flag)?;
    let hears_only_peers = value(matches, "only-peers", &Flag)?;
    let hosts = hosts_in(matches)?;
    let place = serve_place(words)?;
    let folder = serve_folder(words)?;
    if hears_only_peers && follows(&place) {
        return Err(unheard(words));
    }
    Ok(Serve {
        turns,
        framing,
        key,
        window,
        retransmit,
        is_quiet,
        log,
        is_timed,
        hears_only_peers,
        is_read_only,
        hosts,
        folder,
        place,
    })
}

/// What the values of `ask` ask for.
#[tactic(auto, unfolding(crate::specs::Lines::ask))]
fn ask_of<'a>(matches: &ArgMatches<'a>) -> Result<Ask<'a>, BadValue<'a>>
    ensures { Reads ask (rows_of (found_of matches.now)) result }
{
    Ok(Ask {
        framing: framing_of(matches)?,
        key: key_in(matches)?,
        contact: word(matches, "contact", Word::Contact)?,
        timeout: timeout_of(matches)?,
        retransmit: optional_value(matches, "retransmit", &RETRANSMIT)?,
        hears_anybody: value(matches, "any-source", &Flag)?,
        is_strict: value(matches, "strict", &Flag)?,
        is_quiet: value(matches, "quiet", &Flag)?,
        is_verbose: value(matches, "verbose", &Flag)?,
        hosts: hosts_in(matches)?,
        target: ask_target(words_in(matches))?,
    })
}

/// What the values of `show` ask for.
#[tactic(auto, unfolding(crate::specs::Lines::show))]
fn show_of<'a>(matches: &ArgMatches<'a>) -> Result<Show, BadValue<'a>>
    ensures { Reads show (rows_of (found_of matches.now)) result }
{
    Ok(Show {
        is_file: value(matches, "file", &Flag)?,
        is_chudp: value(matches, "chudp", &Flag)?,
    })
}

/// That there is no subcommand.
pub(crate) fn no_subcommand<'a>() -> LineProblem<'a> {
    LineProblem::Bad(BadValue::new("", "COMMAND", "a subcommand"))
}

/// What the values of the subcommand of this name ask for. That there is one of this name is clap's
/// care.
pub(crate) fn line_named<'a>(
    alloc: Global,
    name: &str,
    values: &ArgMatches<'a>,
) -> Result<Line<'a>, LineProblem<'a>>
    ensures { Answers line_view (line_named name.now (rows_of (found_of values.now))) result }
{
    match name {
        "show" => Ok(Line::Show(show_of(values)?)),
        "lab" => Ok(Line::Lab),
        "filelab" => Ok(Line::FileLab),
        "loop" => Ok(Line::Loop(value(values, "carriage", &Version)?)),
        "serve" => Ok(Line::Serve(serve_of(values)?)),
        "ask" => Ok(Line::Ask(ask_of(values)?)),
        "get" => Ok(Line::Get(get_of(alloc, values)?)),
        "put" => Ok(Line::Put(put_of(alloc, values)?)),
        "delete" => Ok(Line::Delete(delete_of(alloc, values)?)),
        "rename" => Ok(Line::Rename(rename_of(values)?)),
        _ => Err(no_subcommand()),
    }
}
