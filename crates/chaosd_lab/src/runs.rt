//! The runs over scripts of `lab` and of `filelab`. They are [`run_script`] in these laboratories,
//! without a report of what is wrong with a bad line.
ghost use Rattle.std.specs.Prelude.{◌≡◌, ◌≢◌, ◌<◌, ◌≤◌, ◌+◌, ◌-◌, ◌++◌, ℕ, List, Err, Some, length, take, OnOk, IfOk, IfSome};
ghost use Rattle.std.specs.Io.KnownBytes.{Appends, IsAtEnd};
ghost use Rattle.chaosd_io.specs.Lines.{lines_of, ended_lines, IsMet};
ghost use Rattle.chaos_lab.specs.Laboratory.{LabView};
ghost use Rattle.file_lab.specs.View.{FileLabView};
ghost use Rattle.chaosd_lab.specs.Script.{Played, play_of, text_of, IsFirstBad, NoneBad};
ghost use Rattle.chaosd_lab.specs.Player.{PlaysRead, Wants};
ghost use Rattle.chaosd_lab.specs.Play.{lab_script, end_text};
ghost use Rattle.chaosd_lab.specs.FilePlay.{filelab_script, file_end_text};

use crate::file_stage::FileStage;
use crate::lab_stage::LabStage;
use crate::script::run_script;
use chaosd_io::{INPUT_LIMIT, RunFault};
use std::alloc::Global;
use std::io::{Read, Write};

/// Plays a script of what happens in a laboratory, to the end of the input, and writes what came of
/// each event. The result is how many events were refused.
///
/// What came of the lines that were read is handed on to the writer before the next read. The run
/// ends by its first fault, and what came of the lines before it was handed on. The cost is a look
/// at each byte and what each event costs. Memory is taken for each packet sent and each item.
///
/// # Errors
/// [`RunFault`], by its number:
/// - 1: the reader fails or is interrupted 2,000,000 times.
/// - 2: the writer fails.
/// - 3: more than 1,048,576 bytes come.
/// - 4: memory ran out at an event or at the start.
/// - 5: a line is of no form.
pub fn run_lab<R: Read, W: Write>(
    alloc: Global,
    reader: &mut R,
    writer: &mut W,
) -> Result<u64, RunFault>
    // If the run ends well, what was written is the text of all lines that were read, each event as
    // the laboratory's definition has it. A line `settle` has the events of settling, each behind
    // the line that asks for it. The result counts the events that were refused. So no line was
    // bad.
    ensures text { IfOk result
        (λ refused. IfSome (R.remaining reader.old)
        (λ input. (p : Played LabView) × (play_of lab_script (lines_of input) ≡ Some p)
        × (refused ≡ p.refused)
        × Appends (W.contents writer.old) (W.contents writer.new)
        (p.text ++ end_text p.lab))) }
    // The run ends well only at the input's end.
    ensures ended { OnOk result (IsAtEnd (R.remaining reader.new)) }
    // The run never ends well where more than 1,048,576 bytes came.
    ensures within { OnOk result
        (IfSome (R.remaining reader.old) (λ input. length input ≤ INPUT_LIMIT)) }

    // The number of a bad line is that of the first line that is missing or of no form, counted
    // from 1. This line ends within the limit or the input does, and the text of the lines before
    // it was written.
    ensures bad { (number : ℕ) → result ≡ Err (RunFault.BadScript number) →
        IfSome (R.remaining reader.old)
        (λ input. IsFirstBad lab_script number (lines_of input) × IsMet INPUT_LIMIT number input
        × Appends (W.contents writer.old) (W.contents writer.new)
        (text_of (play_of lab_script (take (number - 1) (lines_of input))))) }

    // `InputTooLong` comes only where the input is too long and no line that ended within the limit
    // is of no form. Those lines were played.
    ensures too_long { result ≡ Err RunFault.InputTooLong →
        IfSome (R.remaining reader.old)
        (λ input. (INPUT_LIMIT < length input)
        × NoneBad lab_script (ended_lines (take INPUT_LIMIT input))
        × Appends (W.contents writer.old) (W.contents writer.new)
        (text_of (play_of lab_script (ended_lines (take INPUT_LIMIT input))))) }

    // If the reader failed, no line that ended in what it had given is of no form. Those lines were
    // played, and no more.
    ensures unread { result ≡ Err RunFault.ReadFault →
        PlaysRead lab_script (R.remaining reader.old) (R.remaining reader.new)
        (W.contents writer.old) (W.contents writer.new) }

    // If memory runs out, the lines before were played, and the event that ran out of memory is
    // printed. For a line `settle`, the events before it and its own line are printed too. The line
    // is of the form of its place, and it ends within the limit or the input does.
    ensures no_memory { result ≡ Err RunFault.NoMemory →
        IfSome (R.remaining reader.old)
        (Wants lab_script (W.contents writer.old) (W.contents writer.new)) }
{
    run_script::<LabStage, R, W>(alloc, reader, writer, &mut None)
}

/// Plays a script of what happens in a laboratory whose B serves FILE, to the end of the input, and
/// writes what came of each event. The result is how many events were refused.
///
/// What came of the lines that were read is handed on to the writer before the next read. The run
/// ends by its first fault, and what came of the lines before it was handed on. The cost is a look
/// at each byte and what each event costs. Memory is taken for each packet sent, each item and each
/// file.
///
/// # Errors
/// [`RunFault`], by its number:
/// - 1: the reader fails or is interrupted 2,000,000 times.
/// - 2: the writer fails.
/// - 3: more than 1,048,576 bytes come.
/// - 4: an event or the start ran out of memory, or a `serve` wrote an out-of-memory reply, of
///   which nothing is printed.
/// - 5: a line is of no form.
pub fn run_filelab<R: Read, W: Write>(
    alloc: Global,
    reader: &mut R,
    writer: &mut W,
) -> Result<u64, RunFault>
    // If the run ends well, what was written is the text of all lines that were read: each event as
    // the laboratory's definition has it, and each command as the language's. A line `settle` has
    // the events of settling, each behind the line that asks for it. The result counts the events
    // that were refused. So no line was bad, and no out-of-memory reply was written.
    ensures text { IfOk result
        (λ refused. IfSome (R.remaining reader.old)
        (λ input. (p : Played FileLabView) × (play_of filelab_script (lines_of input) ≡ Some p)
        × (refused ≡ p.refused)
        × Appends (W.contents writer.old) (W.contents writer.new)
        (p.text ++ file_end_text p.lab))) }
    // The run ends well only at the input's end.
    ensures ended { OnOk result (IsAtEnd (R.remaining reader.new)) }
    // The run never ends well where more than 1,048,576 bytes came.
    ensures within { OnOk result
        (IfSome (R.remaining reader.old) (λ input. length input ≤ INPUT_LIMIT)) }

    // The number of a bad line is that of the first line that is missing or of no form, counted
    // from 1. This line ends within the limit or the input does, and the text of the lines before
    // it was written.
    ensures bad { (number : ℕ) → result ≡ Err (RunFault.BadScript number) →
        IfSome (R.remaining reader.old)
        (λ input. IsFirstBad filelab_script number (lines_of input)
        × IsMet INPUT_LIMIT number input
        × Appends (W.contents writer.old) (W.contents writer.new)
        (text_of (play_of filelab_script (take (number - 1) (lines_of input))))) }

    // `InputTooLong` comes only where the input is too long and no line that ended within the limit
    // is of no form. Those lines were played.
    ensures too_long { result ≡ Err RunFault.InputTooLong →
        IfSome (R.remaining reader.old)
        (λ input. (INPUT_LIMIT < length input)
        × NoneBad filelab_script (ended_lines (take INPUT_LIMIT input))
        × Appends (W.contents writer.old) (W.contents writer.new)
        (text_of (play_of filelab_script (ended_lines (take INPUT_LIMIT input))))) }

    // If the reader failed, no line that ended in what it had given is of no form. Those lines were
    // played, and no more.
    ensures unread { result ≡ Err RunFault.ReadFault →
        PlaysRead filelab_script (R.remaining reader.old) (R.remaining reader.new)
        (W.contents writer.old) (W.contents writer.new) }

    // If memory runs out, the lines before were played, and the line that ran out of memory is of
    // the form of its place. Behind their text stands the refusal, or nothing where that line is a
    // `serve` that may have written an out-of-memory reply. For a line `settle`, the refusal stands
    // behind the events before it and its own line.
    ensures no_memory { result ≡ Err RunFault.NoMemory →
        IfSome (R.remaining reader.old)
        (Wants filelab_script (W.contents writer.old) (W.contents writer.new)) }
{
    run_script::<FileStage, R, W>(alloc, reader, writer, &mut None)
}
