//! `chaosd`: a thin main over the command line (`chaosd_line`), the engines (`chaosd_show`,
//! `chaosd_lab`, `chaosd_ask`, `file_server`) and the calls of a server (`chaosd_call`). It hands the
//! words to the command line, opens the folder and the sockets that they name, hands these with
//! standard input and output to the others, and ends with their status.
#![tactic(auto)]

ghost use Rattle.std.specs.Prelude.{◌≡◌, ◌≤◌, length, true};
ghost use Rattle.chaosd.specs.Done.{AllDoneOf};

mod asking;
mod descriptors;
mod looping;
mod restarts;
mod runs;
mod script_ends;
mod serve_keys;
mod served_peers;
mod serving;
mod skipped;
mod status;
mod table_watch;
mod terminal_script;
mod terminals;
mod typed_help;
mod words;

use crate::asking::run_ask_line;
use crate::descriptors::fill_descriptors;
use crate::looping::run_loop_line;
use crate::runs::{run_script_line, run_show_line};
use crate::serving::run_serve_line;
use crate::skipped::skip_marked;
use crate::status::refused_status;
use crate::terminals::Terminals;
use crate::words::{Mark, WordsFault, words_of};
use chaosd_call::{ChudpClient, ExitStatus, OwnClient, run_work};
use chaosd_io::RunFault;
use chaosd_lab::{FileStage, LabStage};
use chaosd_line::{Line, LineFault, parse_line};
use clap::Error;
use file_copy::Talk;
use std::fs::{File, Files};
use std::io::IsTerminal;
use std::net::Net;
use std::process::ExitCode;
use std::rt::Env;
use std::time::Clock;

/// Does what the line asks for. On terminals more is reported. The result is the exit status.
///
/// No run is inlined here, so that none takes the stack of all.
fn run_line<R>(rt: &R, line: Line<'_>, terminals: Terminals) -> ExitStatus
where
    R: AllocGlobal + Clock + Env + Eprint + Files<File = File> + Input + Net + Print,
    // If the status is Done, then a new client called the line's server, and in one session exactly
    // one operation was done for each file of the line. Exactly the commands of these operations were
    // sent, and exactly the replies that report success were received.
    ensures done { result ≡ ExitStatus.Done →
        AllDoneOf ⟦<OwnClient<'static, R> as Talk>⟧ ⟦<ChudpClient<'static, R> as Talk>⟧ line.entry }
{
    match line {
        Line::Show(show) => run_show_line(rt, show),
        Line::Lab => run_script_line::<LabStage, R>(rt),
        Line::FileLab => run_script_line::<FileStage, R>(rt),
        Line::Loop(carriage) => run_loop_line(rt, carriage),
        Line::Ask(ask) => run_ask_line(rt, ask, terminals),
        Line::Serve(serve) => run_serve_line(rt, serve),
        Line::Get(get) => run_work(rt, &get, terminals.errors),
        Line::Put(put) => run_work(rt, &put, terminals.errors),
        Line::Delete(delete) => run_work(rt, &delete, terminals.errors),
        Line::Rename(rename) => run_work(rt, &rename, terminals.errors),
    }
}

/// Shows help on standard output, or the mistake in the line on standard error. That it could not
/// be written is reported on standard error.
fn refuse<R: Print + Eprint>(rt: &R, error: &Error) -> ExitStatus {
    let is_shown = error.print(rt).is_ok();
    if !is_shown {
        let _ = eprintln!(rt; "chaosd: {}", RunFault::WriteFault);
    }
    refused_status(LineFault::from(error.kind()), is_shown)
}

/// Whether the words ask for help about `help`, which clap takes for a mistake.
fn is_help_of_help(words: &[String]) -> bool
    ensures { result ≡ true → 1 ≤ length words.now }
{
    match words {
        [first, second] => first.as_str() == "help" && matches!(second.as_str(), "--help" | "-h"),
        _ => false,
    }
}

/// Refuses the words, which are no line. Help about `help` is the program's own help.
fn refuse_words<R>(rt: &R, words: &[String], error: &Error) -> ExitStatus
where
    R: AllocGlobal + Eprint + Print,
{
    if is_help_of_help(words) {
        if let Err(help) = parse_line(rt.alloc(), &words[1..]) {
            return refuse(rt, &help);
        }
    }
    refuse(rt, error)
}

/// Reports why the line can't be had. The result is the status.
fn report_unread<R: Eprint>(rt: &R, fault: WordsFault) -> ExitStatus {
    let _ = eprintln!(rt; "chaosd: {fault}");
    fault.status()
}

/// Does what the line asks for. It skips and reports the files that are named by words which are no
/// text. The result is the exit status.
fn run_readable<R>(rt: &R, line: Line<'_>, marks: &[Mark], terminals: Terminals) -> ExitStatus
where
    R: AllocGlobal + Clock + Env + Eprint + Files<File = File> + Input + Net + Print,
{
    let mut line = line;
    let is_left = match skip_marked(&mut line, marks) {
        Ok(is_left) => is_left,
        Err(fault) => return report_unread(rt, fault),
    };
    let mut status = ExitStatus::Done;
    for mark in marks {
        let _ = eprintln!(rt; "chaosd: argument {} is not UTF-8: skipped", mark.place);
        status = ExitStatus::Refused;
    }
    if is_left {
        status = status.worse(run_line(rt, line, terminals));
    }
    status
}

/// Reads the command line and does what it asks for. The result is the exit status.
fn run<R>(rt: &R, terminals: Terminals) -> ExitStatus
where
    R: AllocGlobal + Clock + Env + Eprint + Files<File = File> + Input + Net + Print,
{
    let words = match words_of(rt) {
        Ok(words) => words,
        Err(fault) => return report_unread(rt, fault),
    };
    let marks = words.marks.as_slice();
    match (
        parse_line(rt.alloc(), words.texts.as_slice()),
        marks.first(),
    ) {
        (Ok(line), None) => run_line(rt, line, terminals),
        (Ok(line), Some(_)) => run_readable(rt, line, marks, terminals),
        (Err(_), Some(mark)) => report_unread(rt, WordsFault::NotText(mark.place)),
        (Err(error), None) => refuse_words(rt, words.texts.as_slice(), &error),
    }
}

/// Reads the command line, does what it asks for, and ends with the exit status.
fn main(rt: HostRuntime) -> ExitCode {
    let _held = fill_descriptors(&rt);
    let terminals = Terminals {
        input: rt.stdin().is_terminal(),
        errors: rt.stderr().is_terminal(),
    };
    ExitCode::from(run(&rt, terminals).number())
}
