//! The laboratory of `filelab`, and a line that is played in it.
ghost use Rattle.std.specs.Prelude.{◌≡◌, ◌++◌, ◌⊎◌, ℕ, List, false, Err, IfErr, IfOk};
ghost use Rattle.file_lab.specs.Events.{file_event};
ghost use Rattle.file_lab.specs.View.{wrote_mem};
ghost use Rattle.chaosd_io.specs.declared.fault.RunFault.TheVariants as run;
ghost use Rattle.chaosd_lab.specs.FileHappen.{PlaysFileEvent, WantsEvent};
ghost use Rattle.chaosd_lab.specs.FilePlay.{filelab_script};
ghost use Rattle.chaosd_lab.specs.FileStart.{file_start};

use crate::answers::{put_copies, put_stored};
use crate::bad_line::LineReport;
use crate::file_answers::put_answer;
use crate::file_parse::file_line_of;
use crate::file_settle::settle;
use crate::lab_stage::is_refused;
use crate::parse::wrong_first;
use crate::settle::is_settle;
use crate::stage::Stage;
use crate::start::{Start, start_of};
use chaos_lab::Side;
use chaosd_io::{Data, NotWritten, RunFault, WriteBuffer, written};
use file_lab::{FileEvent, FileLab};
use std::alloc::Global;
use std::io::Write;
use std::marker::Model;

/// The laboratory that a script of `filelab` plays in.
#[derive(Drop)]
pub struct FileStage {
    lab: FileLab,
    /// The bytes of the last text.
    body: Data,
}

impl Model for FileStage {
    ghost use Rattle.file_lab.specs.View.{FileLabView};
    ghost use Rattle.file_lab.specs.Kept.{files_code};
    ghost use Rattle.std.specs.Coded.{codes};

    ghost Value = { FileLabView };

    ghost coded = { Prim.hlevel (codes, files_code) };

    ghost view = { λ s. s.lab };
}

impl Stage for FileStage {
    ghost script = { filelab_script };

    fn begin(
        alloc: Global,
        out: &mut WriteBuffer,
        line: &[u8],
        report: &mut LineReport,
    ) -> Result<Self, RunFault> {
        let Some(start) = start_of(line) else {
            return Err(report.bad(wrong_first(line)));
        };
        let stage = stage_of(alloc, start)?;
        // not by `?`: a path that drops the stage here takes long to prove
        written(put_copies(out, stage.lab.copies(), 0)).and(Ok(stage))
    }

    fn play<W: Write>(
        &mut self,
        alloc: Global,
        out: &mut WriteBuffer,
        writer: &mut W,
        line: &[u8],
        report: &mut LineReport,
    ) -> Result<bool, RunFault> {
        if is_settle(line) {
            return settle(alloc, &mut self.lab, out, writer);
        }
        let event = match file_line_of(line, &mut self.body) {
            Ok(event) => event,
            Err(wrong) => return Err(report.bad(wrong)),
        };
        play_event(alloc, &mut self.lab, out, &event)
    }

    fn end(&self, out: &mut WriteBuffer) -> Result<(), NotWritten> {
        let (a, _) = self.lab.stored(Side::A);
        let (b, _) = self.lab.stored(Side::B);
        put_stored(out, a, b)
    }
}

/// The laboratory that a first line asks for.
///
/// # Errors
/// `NoMemory`.
fn stage_of(alloc: Global, start: Start) -> Result<FileStage, RunFault>
    ensures begun { IfOk result (λ stage. stage ≡ file_start start) }
    ensures fault { IfErr result (λ fault. fault ≡ run.NoMemory) }
{
    match FileLab::new(alloc, start.a, start.b, start.start) {
        Ok(lab) => Ok(FileStage {
            lab,
            body: Data::new(),
        }),
        Err(_) => Err(RunFault::NoMemory),
    }
}

/// Lets an event happen, writes what came of it, and says whether it was refused.
///
/// # Errors
/// `NoMemory`, and `WriteFault` where the text doesn't fit. Out of memory for the histories is
/// written too; of an out-of-memory reply nothing is.
pub fn play_event(
    alloc: Global,
    lab: &mut FileLab,
    out: &mut WriteBuffer,
    event: &FileEvent<'_>,
) -> Result<bool, RunFault>
    ensures played { IfOk result
        (λ refused. PlaysFileEvent (file_event event.now) lab.old lab.new out.old out.new refused
        × (wrote_mem lab.new ≡ false)) }
    ensures no_memory { result ≡ Err RunFault.NoMemory → wrote_mem lab.old ≡ false →
        (text : List ℕ) × WantsEvent lab.old (file_event event.now) lab.new text
        × (out.new ≡ out.old ++ text) }
    ensures faults { IfErr result (λ fault. (fault ≡ run.NoMemory) ⊎ (fault ≡ run.WriteFault)) }
{
    let before = lab.copies().len();
    let answer = lab.step(alloc, event);
    if lab.wrote_mem() {
        return Err(RunFault::NoMemory);
    }
    written(put_answer(out, &answer))?;
    written(put_copies(out, lab.copies(), before))?;
    is_refused(&answer)
}
