//! The reading of a command line.
ghost use Rattle.std.specs.Prelude.{◌≡◌, ◌⊎◌, map, IfOk, Some};
ghost use Rattle.clap.specs.Values.{kind_of};
ghost use Rattle.clap.specs.declared.error.kind.ErrorKind.TheVariants.{MissingRequiredArgument, OutOfMemory, ValueValidation};
ghost use Rattle.chaosd_line.specs.CommandLine.{chaosd};
ghost use Rattle.chaosd_line.specs.Fault.{FailsFor, IsReported, RefusesFor};
ghost use Rattle.chaosd_line.specs.Lines.{asked_line, line_view};

use crate::command::{command, command_of, needs_of};
use crate::fault::LineFault;
use crate::line::Line;
use crate::line_problem::LineProblem;
use crate::lines::{line_named, no_subcommand};
use clap::Error;
use clap::error::ErrorKind;
use std::alloc::{AllocError, Global};
use std::convert::AsStr;

/// The error with this text about a bad word, and with the usage of its subcommand.
fn error_of(
    alloc: Global,
    text: Result<String, AllocError>,
    subcommand: Option<&str>,
) -> Result<Error, AllocError>
    ensures { IfOk result (λ error. kind_of error ≡ ValueValidation) }
{
    let text = text?;
    command_of(alloc, subcommand)?.error(ErrorKind::ValueValidation, text.as_str())
}

/// The same, or out of memory.
fn reported(alloc: Global, text: Result<String, AllocError>, subcommand: Option<&str>) -> Error
    ensures { (kind_of result ≡ ValueValidation) ⊎ (kind_of result ≡ OutOfMemory) }
{
    match error_of(alloc, text, subcommand) {
        Ok(error) => error,
        Err(error) => Error::from(error),
    }
}

/// The error that says why the values of a subcommand can't be read.
fn report_of(alloc: Global, problem: LineProblem<'_>, subcommand: Option<&str>) -> Error
    ensures { IsReported problem.entry (kind_of result) }
{
    match problem {
        LineProblem::Bad(bad) => reported(alloc, bad.message(alloc), subcommand),
        LineProblem::Clash(files) => reported(alloc, files.message(alloc), subcommand),
        LineProblem::NoMemory => Error::from(AllocError),
    }
}

/// The error that the line of a subcommand needs these words.
fn missing(alloc: Global, needs: &str, subcommand: &str) -> Result<Error, AllocError>
    ensures { IfOk result (λ error. kind_of error ≡ MissingRequiredArgument) }
{
    let text = format!(in alloc; "the line needs {needs}")?;
    command_of(alloc, Some(subcommand))?.error(ErrorKind::MissingRequiredArgument, text.as_str())
}

/// clap's error about the words of a subcommand. If all words are missing, the text has their names
/// in the usage: clap has one name for all.
fn named(alloc: Global, error: Error, subcommand: &str) -> Error
    ensures { (kind_of result ≡ kind_of error) ⊎ (kind_of result ≡ OutOfMemory) }
{
    match (error.kind(), needs_of(subcommand)) {
        (ErrorKind::MissingRequiredArgument, Some(needs)) => {
            match missing(alloc, needs, subcommand) {
                Ok(error) => error,
                Err(error) => Error::from(error),
            }
        }
        _ => error,
    }
}

/// The first word, which is the subcommand if clap finds a mistake after it.
fn first_word<S: AsStr>(words: &[S]) -> &str {
    match words.first() {
        Some(word) => word.as_str(),
        None => "",
    }
}

/// The line that these words ask for. The program's name is not among them.
///
/// # Errors
/// clap's error, whose `print` writes its text: help to standard output, a mistake to standard
/// error. `LineFault::from` its kind is the fault. The text about a word that is not of its form
/// names the word, its place and the form.
pub fn parse_line<'a, S: AsStr>(alloc: Global, words: &'a [S]) -> Result<Line<'a>, Error>
    // The line is a function of the subcommand and the values that clap gives for the words, so no
    // words ask for two lines. It has that subcommand and, by their forms, those values: addresses,
    // sockets, numbers, texts and flags. `loop` has the carriage, 1 or 2, and `show` its two flags.
    // A line that sends packets to other hosts has their framing. Without `--chudp` the framing is
    // the carriage, 1 or 2, and no bridge's address is given. With `--chudp` the carriage is 1, and
    // the framing has the bridge's address, if there is one.
    // A line that sends packets to other hosts has the file of a key, if it is given. With `--chudp`
    // none is given, and none for a `serve` that isn't in the long form.
    // A line is in the long form if the first of its words that aren't options has digits alone. It
    // then has this host's Chaosnet address and UDP address, and no hosts table is given. Any other
    // line has the name of a host: the word of `ask`, what stands before the colon of the last word
    // of `put`, or of the first word of another line. The other files of `get` and `delete` are of
    // the same host. `serve` then has a folder alone, and the addresses are the table's.
    // In the long form `serve` and `ask` have as peers at most 32 hosts in their order, no two with
    // one address, and the UDP address of a bridge if one word among the hosts begins with a star.
    // Two such words are no line. `serve` has the addresses that a star follows behind `=`: they
    // are counted with the peers, and no address is in both. There are none if only peers are heard
    // or the line is `ask`.
    // `serve` has its turns, its folder, how much it logs, whether it logs the time, whether it
    // hears only peers, and whether no file changes. `serve` and `ask` have the milliseconds after
    // which packets are retransmitted (20 to 60000) if they are given. `serve` and what calls a
    // server have the window (1 to 64).
    // `ask` and what calls a server have the contact name (1 to 64 printable characters of ASCII
    // without a space), another host than their own, the seconds of a timeout (1 to 3600) if they
    // are given, and whether anybody is heard. What calls a server has the user's name.
    // `get` and `delete` have paths of FILE that differ, and `rename` has two. `put` has a path of
    // FILE for its one file, or files of which none is standard input and no two go under one path.
    // `get` writes its files where `--output` says, or in the short form where a last word without
    // a colon says; both are no line, and `.` is as if nothing was said.
    ensures line { IfOk result (λ line. asked_line (map S.text words.now) ≡ Some (line_view line)) }

    // The words are read only if nothing is wrong with them. They are refused if memory runs out,
    // for a mistake that clap's definitions find in them, or, if those find none, for a value that
    // is not of its form or doesn't go with the others.
    ensures kinds { FailsFor (map S.text words.now) result }
{
    let mut command = command(alloc)?;
    let matches = match command.try_get_matches_from_mut(words) {
        Ok(matches) => matches,
        Err(error) => return Err(named(alloc, error, first_word(words))),
    };
    match matches.subcommand() {
        Some((name, values)) => match line_named(alloc, name, values) {
            Ok(line) => Ok(line),
            Err(problem) => Err(report_of(alloc, problem, Some(name))),
        },
        None => Err(report_of(alloc, no_subcommand(), None)),
    }
}

/// The line that these words ask for, or the fault of `parse_line` without its text.
pub fn read_line<'a, S: AsStr>(alloc: Global, words: &'a [S]) -> Result<Line<'a>, LineFault>
    // The line is the line of `parse_line`.
    ensures line { IfOk result (λ line. asked_line (map S.text words.now) ≡ Some (line_view line)) }

    // The words are read only if nothing is wrong with them. The fault is out of memory, or
    // stands for a kind of error that `parse_line` gives for these words.
    ensures faults { RefusesFor (map S.text words.now) result }
{
    match parse_line(alloc, words) {
        Ok(line) => Ok(line),
        Err(error) => Err(LineFault::from(error.kind())),
    }
}
