//! The line `settle`.
ghost use Rattle.std.specs.Prelude.{◌≡◌, ◌++◌, ◌⊎◌, List, ℕ, Err, IfErr, IfOk, OnOk};
ghost use Rattle.std.specs.Io.KnownBytes.{Appends};
ghost use Rattle.chaosd_io.specs.Buffer.{written_of};
ghost use Rattle.chaosd_io.specs.declared.fault.RunFault.TheVariants as run;
ghost use Rattle.chaos_lab.specs.declared.fault.LabFault.TheVariants.{NoMemory};
ghost use Rattle.chaos_lab.specs.Inside.{happening_of};
ghost use Rattle.chaos_lab.specs.Laboratory.{after_all, happen};
ghost use Rattle.chaos_lab.specs.Settling.{settling};
ghost use Rattle.chaosd_lab.specs.Answers.{refusal_text};
ghost use Rattle.chaosd_lab.specs.Happen.{event_text};
ghost use Rattle.chaosd_lab.specs.Settle.{settle_done, settle_word, typed_text, WantsSettling, WantsEvents};
ghost use Rattle.std.specs.Str.{bytes_eq};
ghost use Rattle.chaosd_lab.specs.Typed.{event_line};

use crate::lab_stage::play_event;
use crate::room::make_room;
use crate::typed::put_event;
use chaos_lab::{Event, Lab, Settling};
use chaosd_io::{RunFault, WriteBuffer, put_line, written};
use std::alloc::Global;
use std::io::Write;

/// Whether a line is `settle`. Most lines differ from it in length, so no comparison is called.
#[inline(always)]
pub fn is_settle(line: &[u8]) -> bool
    ensures { result ≡ bytes_eq line.now settle_word }
{
    line.len() == 6 && line == b"settle".as_slice()
}

/// Lets both ends settle, writes the events as if they were typed, and says whether that was
/// refused.
///
/// # Errors
/// `NoMemory`, of which the events before are written and the line of the one that met it, and
/// `WriteFault` where a text doesn't fit or the writer fails.
#[inline(never)]
pub fn settle<W: Write>(
    alloc: Global,
    lab: &mut Lab,
    out: &mut WriteBuffer,
    writer: &mut W,
) -> Result<bool, RunFault>
    ensures settled { IfOk result
        (λ refused. (lab.new ≡ (settle_done lab.old).lab)
        × (refused ≡ (settle_done lab.old).is_refused)
        × Appends (written_of (W.contents writer.old) out.old)
        (written_of (W.contents writer.new) out.new) (settle_done lab.old).text) }
    ensures no_memory { result ≡ Err RunFault.NoMemory →
        (text : List ℕ) × WantsSettling lab.old lab.new text
        × Appends (written_of (W.contents writer.old) out.old)
        (written_of (W.contents writer.new) out.new) text }
    ensures faults { IfErr result (λ fault. (fault ≡ run.NoMemory) ⊎ (fault ≡ run.WriteFault)) }
{
    if !lab.can_settle() {
        written(put_line(out, "refused 6 CannotSettle"))?;
        return Ok(true);
    }
    play_settling(alloc, lab, out, writer)?;
    Ok(false)
}

/// Lets the events of settling happen, and writes them as if they were typed.
fn play_settling<W: Write>(
    alloc: Global,
    lab: &mut Lab,
    out: &mut WriteBuffer,
    writer: &mut W,
) -> Result<(), RunFault>
    ensures settled { OnOk result
        ((lab.new ≡ after_all lab.old (settling lab.old))
        × Appends (written_of (W.contents writer.old) out.old)
        (written_of (W.contents writer.new) out.new)
        (typed_text lab.old (settling lab.old))) }
    ensures no_memory { result ≡ Err RunFault.NoMemory →
        (text : List ℕ) × WantsEvents lab.old lab.new text
        × Appends (written_of (W.contents writer.old) out.old)
        (written_of (W.contents writer.new) out.new) text }
    ensures faults { IfErr result (λ fault. (fault ≡ run.NoMemory) ⊎ (fault ≡ run.WriteFault)) }
{
    let mut events = Settling::new();
    while let Some(event) = events.next(lab) {
        make_room(out, writer)?;
        play_typed(alloc, lab, out, &event)?;
    }
    Ok(())
}

/// Lets an event happen as if its line were typed: writes that line, and what came of it.
fn play_typed(
    alloc: Global,
    lab: &mut Lab,
    out: &mut WriteBuffer,
    event: &Event<'_>,
) -> Result<(), RunFault>
    ensures played { OnOk result
        ((lab.new ≡ (happen lab.old (happening_of event.now)).lab)
        × (out.new ≡ out.old
        ++ (event_line (happening_of event.now)
        ++ event_text lab.old (happening_of event.now)))) }
    ensures no_memory { result ≡ Err RunFault.NoMemory →
        (lab.new ≡ lab.old)
        × (out.new
        ≡ out.old ++ (event_line (happening_of event.now) ++ refusal_text NoMemory)) }
    ensures faults { IfErr result (λ fault. (fault ≡ run.NoMemory) ⊎ (fault ≡ run.WriteFault)) }
{
    written(put_event(out, event))?;
    play_event(alloc, lab, out, event)?;
    Ok(())
}
