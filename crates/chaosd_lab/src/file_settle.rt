//! The line `settle`.
ghost use Rattle.std.specs.Prelude.{◌≡◌, ◌++◌, ◌⊎◌, List, ℕ, false, Err, IfErr, IfOk, OnOk};
ghost use Rattle.std.specs.Io.KnownBytes.{Appends};
ghost use Rattle.chaosd_io.specs.Buffer.{written_of};
ghost use Rattle.chaosd_io.specs.declared.fault.RunFault.TheVariants as run;
ghost use Rattle.file_lab.specs.Events.{file_event};
ghost use Rattle.file_lab.specs.Exact.{file_happen};
ghost use Rattle.file_lab.specs.Settling.{after_events, file_settling};
ghost use Rattle.file_lab.specs.View.{wrote_mem};
ghost use Rattle.chaosd_lab.specs.FileHappen.{event_text, WantsEvent};
ghost use Rattle.chaosd_lab.specs.FileSettle.{file_line, settle_done, typed_text, WantsSettling, WantsEvents};

use crate::file_answers::put_file_event;
use crate::file_stage::play_event;
use crate::room::make_room;
use chaosd_io::{RunFault, WriteBuffer, put_line, written};
use file_lab::{FileEvent, FileLab, FileSettling};
use std::alloc::Global;
use std::io::Write;

/// Lets the laboratory settle, writes the events as if they were typed, and says whether that was
/// refused.
///
/// # Errors
/// `NoMemory`, of which the events before are written and what is written of the one that met it,
/// and `WriteFault` where a text doesn't fit or the writer fails.
#[inline(never)]
pub fn settle<W: Write>(
    alloc: Global,
    lab: &mut FileLab,
    out: &mut WriteBuffer,
    writer: &mut W,
) -> Result<bool, RunFault>
    ensures settled { IfOk result
        (λ refused. (lab.new ≡ (settle_done lab.old).lab)
        × (refused ≡ (settle_done lab.old).is_refused)
        × Appends (written_of (W.contents writer.old) out.old)
        (written_of (W.contents writer.new) out.new) (settle_done lab.old).text
        × (wrote_mem lab.old ≡ false → wrote_mem lab.new ≡ false)) }
    ensures no_memory { result ≡ Err RunFault.NoMemory →
        (text : List ℕ) × WantsSettling lab.old lab.new text
        × Appends (written_of (W.contents writer.old) out.old)
        (written_of (W.contents writer.new) out.new) text }
    ensures faults { IfErr result (λ fault. (fault ≡ run.NoMemory) ⊎ (fault ≡ run.WriteFault)) }
{
    if !lab.can_settle() {
        written(put_line(out, "refused 6 CannotSettle"))?;
        return Ok(true);
    }
    play_settling(alloc, lab, out, writer)?;
    Ok(false)
}

/// Lets the events of settling happen, and writes them as if they were typed.
fn play_settling<W: Write>(
    alloc: Global,
    lab: &mut FileLab,
    out: &mut WriteBuffer,
    writer: &mut W,
) -> Result<(), RunFault>
    requires { wrote_mem lab.old ≡ false }
    ensures settled { OnOk result
        ((lab.new ≡ after_events lab.old (file_settling lab.old)) × (wrote_mem lab.new ≡ false)
        × Appends (written_of (W.contents writer.old) out.old)
        (written_of (W.contents writer.new) out.new)
        (typed_text lab.old (file_settling lab.old))) }
    ensures no_memory { result ≡ Err RunFault.NoMemory →
        (text : List ℕ) × WantsEvents lab.old lab.new text
        × Appends (written_of (W.contents writer.old) out.old)
        (written_of (W.contents writer.new) out.new) text }
    ensures faults { IfErr result (λ fault. (fault ≡ run.NoMemory) ⊎ (fault ≡ run.WriteFault)) }
{
    let mut events = FileSettling::new();
    while let Some(event) = events.next(lab) {
        make_room(out, writer)?;
        play_typed(alloc, lab, out, &event)?;
    }
    Ok(())
}

/// Lets an event happen as if its line were typed: writes that line, and what came of it.
fn play_typed(
    alloc: Global,
    lab: &mut FileLab,
    out: &mut WriteBuffer,
    event: &FileEvent<'_>,
) -> Result<(), RunFault>
    ensures played { OnOk result
        ((lab.new ≡ (file_happen lab.old (file_event event.now)).view) × (wrote_mem lab.new ≡ false)
        × (out.new ≡ out.old
        ++ (file_line (file_event event.now)
        ++ event_text lab.old (file_event event.now)))) }
    ensures no_memory { result ≡ Err RunFault.NoMemory → wrote_mem lab.old ≡ false →
        (told : List ℕ) × WantsEvent lab.old (file_event event.now) lab.new told
        × (out.new ≡ out.old ++ (file_line (file_event event.now) ++ told)) }
    ensures faults { IfErr result (λ fault. (fault ≡ run.NoMemory) ⊎ (fault ≡ run.WriteFault)) }
{
    written(put_file_event(out, event))?;
    play_event(alloc, lab, out, event)?;
    Ok(())
}
