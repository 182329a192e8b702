//! The laboratory of `lab`, and a line that is played in it.
ghost use Rattle.std.specs.Prelude.{◌≡◌, ◌++◌, ◌⊎◌, Err, IfErr, IfOk};
ghost use Rattle.chaos_lab.specs.declared.fault.LabFault.TheVariants.{NoMemory};
ghost use Rattle.chaos_lab.specs.Inside.{happening_of};
ghost use Rattle.chaosd_io.specs.declared.fault.RunFault.TheVariants as run;
ghost use Rattle.chaosd_lab.specs.Answers.{refusal_text};
ghost use Rattle.chaosd_lab.specs.Happen.{PlaysEvent};
ghost use Rattle.chaosd_lab.specs.Play.{lab_script, refused_or_ended};
ghost use Rattle.chaosd_lab.specs.Start.{start_said};

use crate::answers::{put_answer, put_copies, put_stored};
use crate::bad_line::LineReport;
use crate::parse::{event_of, wrong_first};
use crate::settle::{is_settle, settle};
use crate::stage::Stage;
use crate::start::{Start, start_of};
use chaos_lab::{Event, Lab, LabFault, Side};
use chaosd_io::{Data, NotWritten, RunFault, WriteBuffer, written};
use std::alloc::Global;
use std::io::Write;
use std::marker::Model;

/// The laboratory that a script of `lab` plays in.
#[derive(Drop)]
pub struct LabStage {
    lab: Lab,
    /// The bytes of the last text.
    body: Data,
}

impl Model for LabStage {
    ghost use Rattle.chaos_lab.specs.Laboratory.{LabView};

    ghost Value = { LabView };

    ghost view = { λ s. s.lab };
}

impl Stage for LabStage {
    ghost script = { lab_script };

    fn begin(
        alloc: Global,
        out: &mut WriteBuffer,
        line: &[u8],
        report: &mut LineReport,
    ) -> Result<Self, RunFault> {
        let Some(start) = start_of(line) else {
            return Err(report.bad(wrong_first(line)));
        };
        let stage = stage_of(alloc, start)?;
        // not by `?`: a path that drops the stage here takes long to prove
        written(put_copies(out, stage.lab.copies(), 0)).and(Ok(stage))
    }

    fn play<W: Write>(
        &mut self,
        alloc: Global,
        out: &mut WriteBuffer,
        writer: &mut W,
        line: &[u8],
        report: &mut LineReport,
    ) -> Result<bool, RunFault> {
        if is_settle(line) {
            return settle(alloc, &mut self.lab, out, writer);
        }
        let parsed = event_of(line, &mut self.body);
        // lent where it lies, since a moved event is read again in other pieces than it was written
        let event = match &parsed {
            Ok(event) => event,
            Err(wrong) => return Err(report.bad(*wrong)),
        };
        play_event(alloc, &mut self.lab, out, event)
    }

    fn end(&self, out: &mut WriteBuffer) -> Result<(), NotWritten> {
        let (a, _) = self.lab.stored(Side::A);
        let (b, _) = self.lab.stored(Side::B);
        put_stored(out, a, b)
    }
}

/// The laboratory that a first line asks for.
///
/// # Errors
/// `NoMemory`.
fn stage_of(alloc: Global, start: Start) -> Result<LabStage, RunFault>
    ensures begun { IfOk result (λ stage. stage ≡ start_said start) }
    ensures fault { IfErr result (λ fault. fault ≡ run.NoMemory) }
{
    match Lab::new(alloc, start.a, start.b, start.start) {
        Ok(lab) => Ok(LabStage {
            lab,
            body: Data::new(),
        }),
        Err(_) => Err(RunFault::NoMemory),
    }
}

/// Lets an event happen, writes what came of it, and says whether it was refused.
///
/// # Errors
/// `NoMemory`, which is written too, and `WriteFault` where the text doesn't fit.
// inlined although `settle` plays events too: a call for each line of a script takes some
// instructions more
#[inline(always)]
pub fn play_event(
    alloc: Global,
    lab: &mut Lab,
    out: &mut WriteBuffer,
    event: &Event<'_>,
) -> Result<bool, RunFault>
    ensures played { IfOk result
        (λ refused. PlaysEvent (happening_of event.now) lab.old lab.new out.old out.new refused) }
    ensures no_memory { result ≡ Err RunFault.NoMemory →
        (lab.new ≡ lab.old) × (out.new ≡ out.old ++ refusal_text NoMemory) }
    ensures faults { IfErr result (λ fault. (fault ≡ run.NoMemory) ⊎ (fault ≡ run.WriteFault)) }
{
    let before = lab.copies().len();
    let answer = lab.happen(alloc, event);
    written(put_answer(out, &answer, lab.read_in(event)))?;
    written(put_copies(out, lab.copies(), before))?;
    is_refused(&answer)
}

/// Whether an event was refused. `NoMemory` is a refusal that ends the run.
pub fn is_refused<T>(answer: &Result<T, LabFault>) -> Result<bool, RunFault>
    // The result says whether the answer refuses, or is the `NoMemory` that ends the run.
    ensures { result ≡ refused_or_ended answer.now }
{
    match answer {
        Ok(_) => Ok(false),
        Err(LabFault::NoMemory) => Err(RunFault::NoMemory),
        Err(_) => Ok(true),
    }
}
