//! How runs over scripts end.
use chaosd_ask::{Notes, ScriptEnd};
use chaosd_call::{ExitStatus, report_end};
use chaosd_io::RunFault;

/// Reports how a run over a script ended: as [`report_end`] does, and what is wrong with a bad line,
/// and why a command got no reply.
fn report_script<R: Eprint>(rt: &R, end: &Result<ScriptEnd, RunFault>, notes: &Notes) {
    let _ = match (end, &notes.bad_line, &notes.no_reply) {
        (Err(fault @ RunFault::BadScript(_)), Some(bad), _) => eprintln!(rt; "{fault}: {bad}"),
        (Ok(_), _, Some(why)) => eprintln!(rt; "chaosd: {why}"),
        _ => {
            report_end(rt, end);
            return;
        }
    };
}

/// Reports how a script ended, and gives the exit status.
pub(crate) fn end_script<R: Eprint>(
    rt: &R,
    end: &Result<ScriptEnd, RunFault>,
    notes: &Notes,
) -> ExitStatus {
    report_script(rt, end, notes);
    ExitStatus::of_run(end.map(|end| end.replied == end.commands))
}
