//! The runs over standard input and output alone: `show`, `lab` and `filelab`.
ghost use Rattle.std.specs.Prelude.{◌≡◌};
ghost use Rattle.chaosd.specs.Shown.{format_by, view_by};

use chaosd_call::{ExitStatus, report_end};
use chaosd_io::RunFault;
use chaosd_lab::{BadLine, Stage, run_script};
use chaosd_line::Show;
use chaosd_show::{Format, View, run_show_by};
use std::io;

/// The form of the datagrams that are reported.
fn format_of(show: Show) -> Format
    // The format is CHUDP where the line asks for CHUDP, otherwise the own format.
    ensures { result ≡ format_by show }
{
    if show.is_chudp {
        Format::Chudp
    } else {
        Format::Own
    }
}

/// How much is reported of data.
fn view_of(show: Show) -> View
    // What data say is reported where the line asks for that, otherwise the bytes alone.
    ensures { result ≡ view_by show }
{
    if show.is_file {
        View::File
    } else {
        View::Plain
    }
}

/// Runs `show` from standard input to standard output.
#[inline(never)]
pub(crate) fn run_show_line<R: Input + Print + Eprint>(rt: &R, show: Show) -> ExitStatus {
    let end = run_show_by(
        format_of(show),
        view_of(show),
        &mut rt.reader(),
        &mut io::writer(rt),
    );
    report_end(rt, &end);
    ExitStatus::of_run(end.map(|tally| tally.refused == 0))
}

/// Reports how a run over a laboratory's script ended: as [`report_end`] does, and what is wrong with
/// a bad line.
fn report_lab<R: Eprint, T>(rt: &R, end: &Result<T, RunFault>, wrong: Option<BadLine>) {
    match (end, wrong) {
        (Err(fault @ RunFault::BadScript(_)), Some(wrong)) => {
            let _ = eprintln!(rt; "{fault}: {wrong}");
        }
        _ => report_end(rt, end),
    }
}

/// Runs the script of a laboratory from standard input to standard output.
#[inline(never)]
pub(crate) fn run_script_line<S: Stage, R: AllocGlobal + Input + Print + Eprint>(
    rt: &R,
) -> ExitStatus {
    let mut wrong = None;
    let end = run_script::<S, _, _>(
        rt.alloc(),
        &mut rt.reader(),
        &mut io::writer(rt),
        &mut wrong,
    );
    report_lab(rt, &end, wrong);
    ExitStatus::of_run(end.map(|refused| refused == 0))
}
