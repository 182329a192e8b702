//! The values that clap gives for `get` and `put`, and the lines that they ask for.
ghost use Rattle.std.specs.Prelude.{◌≡◌, map, option_map};
ghost use Rattle.clap.specs.Words.{found_of, rows_of};
ghost use Rattle.chaosd_line.specs.Files.{file_view, fits_output};
ghost use Rattle.chaosd_line.specs.Lines.{Answers, files_at, get, put};

use crate::bad_value::{BadValue, NO_FOLDERS, ONE_PATH};
use crate::calls::calling_of;
use crate::form::{optional, value};
use crate::line::{Copying, Get, Put};
use crate::line_problem::LineProblem;
use crate::paths::{file_under, own_files};
use crate::places::words_in;
use crate::remote::{file_paths, local_words, output_with, remote_words};
use crate::target::HostWord;
use crate::values::Flag;
use clap::ArgMatches;
use file_names::{PutFile, is_folder};
use std::alloc::Global;

/// Whether what the files go to fits them: a local file is for one alone.
fn fits_output(output: Option<&str>, words: &[&str]) -> bool
    ensures { result
        ≡ fits_output (option_map (λ t. t.now) output.entry) (map (λ t. t.now) words.now) }
{
    match output {
        Some(name) => is_folder(name) || words.len() == 1,
        None => true,
    }
}

/// What is wrong with a local file's name that is given for more than one file.
fn one_path<'a>(given: Option<&'a str>, output: Option<&'a str>) -> BadValue<'a> {
    let place = if given.is_some() { "output" } else { "LOCAL" };
    BadValue::misfit(output.unwrap_or(""), place, ONE_PATH)
}

/// What the values of `get` ask for.
#[tactic(auto, unfolding(crate::specs::Lines::get))]
pub(crate) fn get_of<'a>(
    alloc: Global,
    matches: &ArgMatches<'a>,
) -> Result<Get<'a>, LineProblem<'a>>
    ensures { Answers get.view (get.value (rows_of (found_of matches.now))) result }
{
    let words = words_in(matches);
    let remote = remote_words(words);
    let given = optional(matches, "output");
    let copying = Copying {
        calling: calling_of(matches, remote, HostWord::First)?,
        is_text: value(matches, "text", &Flag)?,
        is_quiet: value(matches, "quiet", &Flag)?,
        is_verbose: value(matches, "verbose", &Flag)?,
    };
    let output = output_with(given, words)?;
    let paths = file_paths(alloc, remote)?;
    if !fits_output(output, paths.as_slice()) {
        return Err(LineProblem::Bad(one_path(given, output)));
    }
    Ok(Get {
        copying,
        output,
        paths,
    })
}

/// The local files that `put` puts, each with its path.
fn files_at<'a>(
    alloc: Global,
    matches: &ArgMatches<'a>,
) -> Result<Vec<PutFile<'a>>, LineProblem<'a>>
    ensures { Answers (λ v. map file_view v.items) (files_at (rows_of (found_of matches.now))) result }
{
    let is_renaming = value(matches, "rename", &Flag)?;
    let texts = local_words(words_in(matches))?;
    match optional(matches, "as") {
        Some(path) => file_under(alloc, texts, path),
        None => own_files(alloc, texts, is_renaming),
    }
}

/// What the values of `put` ask for.
#[tactic(auto, unfolding(crate::specs::Lines::put))]
pub(crate) fn put_of<'a>(
    alloc: Global,
    matches: &ArgMatches<'a>,
) -> Result<Put<'a>, LineProblem<'a>>
    ensures { Answers put.view (put.value (rows_of (found_of matches.now))) result }
{
    if value(matches, "recursive", &Flag)? {
        return Err(LineProblem::Bad(BadValue::impossible("recursive", NO_FOLDERS)));
    }
    let words = words_in(matches);
    let copying = Copying {
        calling: calling_of(matches, words, HostWord::Last)?,
        is_text: value(matches, "text", &Flag)?,
        is_quiet: value(matches, "quiet", &Flag)?,
        is_verbose: value(matches, "verbose", &Flag)?,
    };
    Ok(Put {
        copying,
        files: files_at(alloc, matches)?,
    })
}
