//! The run over a script, in a laboratory of any kind.
ghost use Rattle.std.specs.Prelude.{◌≡◌, ◌≤◌, ◌+◌, [], ℕ, List, Option, Some, Err, length, OnOk, IfOk, IfErr, IfSome};
ghost use Rattle.std.specs.Io.KnownBytes.{Appends, IsAtEnd};
ghost use Rattle.chaosd_io.specs.Buffer.{written_of};
ghost use Rattle.chaosd_io.specs.Lines.{lines_of};
ghost use Rattle.chaosd_io.specs.Reader.{left_of};
ghost use Rattle.chaosd_lab.specs.Script.{wrong_line};
ghost use Rattle.chaosd_lab.specs.Player.{PlaysLines, PlaysGiven, PlaysDone, PlaysRead, PlaysFront, PlaysAll, PlaysWithin, StopsAt, StopsRun, Wants, HasNoneWrong, wrong_if_bad};

use crate::bad_line::BadLine;
use crate::player::Player;
use crate::stage::Stage;
use chaosd_io::{INPUT_LIMIT, KEPT_LEN, LineReader, RunFault};
use std::alloc::Global;
use std::io::{Read, Write};

/// Plays a script in a laboratory, to the end of the input, and writes what came of each line. The
/// result is how many events were refused, and `wrong` gets what is wrong with a bad line.
///
/// What came of the lines that were read is handed on to the writer before the next read. The run
/// ends by its first fault, and what came of the lines before it was handed on. The cost is a look
/// at each byte and what each line costs.
///
/// # Errors
/// [`RunFault`], by its number:
/// - 1: the reader fails or is interrupted 2,000,000 times.
/// - 2: the writer fails.
/// - 3: more than 1,048,576 bytes come.
/// - 4: a line or the start ran out of memory.
/// - 5: a line is of no form.
pub fn run_script<S: Stage, R: Read, W: Write>(
    alloc: Global,
    reader: &mut R,
    writer: &mut W,
    wrong: &mut Option<BadLine>,
) -> Result<u64, RunFault>
    // If the run ends well, what was written is the text of all lines that were read, as the
    // laboratory's language has it, and the result counts the refused events. So no line was bad.
    ensures text { IfOk result
        (λ refused. IfSome (R.remaining reader.old)
        (PlaysAll S.script (W.contents writer.old) (W.contents writer.new) refused)) }
    // The run ends well only at the input's end.
    ensures ended { OnOk result (IsAtEnd (R.remaining reader.new)) }
    // The run never ends well where more than 1,048,576 bytes came.
    ensures within { OnOk result
        (IfSome (R.remaining reader.old) (λ input. length input ≤ INPUT_LIMIT)) }

    // The number of a bad line is that of the first line that is missing or of no form, counted
    // from 1. This line ends within the limit or the input does, and the text of the lines before
    // it was written.
    ensures bad { (number : ℕ) → result ≡ Err (RunFault.BadScript number) →
        IfSome (R.remaining reader.old)
        (StopsAt S.script (W.contents writer.old) (W.contents writer.new) number) }

    // `InputTooLong` comes only where the input is too long and each line that ended within the
    // limit was played. None of these is bad.
    ensures too_long { result ≡ Err RunFault.InputTooLong →
        IfSome (R.remaining reader.old)
        (PlaysFront S.script (W.contents writer.old) (W.contents writer.new)) }

    // If the reader failed, each line that ended in what it had given was played, and no more. None
    // of these is bad.
    ensures unread { result ≡ Err RunFault.ReadFault →
        PlaysRead S.script (R.remaining reader.old) (R.remaining reader.new) (W.contents writer.old)
        (W.contents writer.new) }

    // If memory runs out, the lines before were played, the line that ran out of memory is of the
    // form of its place, and what the language prints of that was written.
    ensures no_memory { result ≡ Err RunFault.NoMemory →
        IfSome (R.remaining reader.old)
        (Wants S.script (W.contents writer.old) (W.contents writer.new)) }

    // If a line is bad, what is wrong with it is reported as the language says it.
    ensures wrong { (number : ℕ) → result ≡ Err (RunFault.BadScript number) →
        IfSome (R.remaining reader.old)
        (λ input. wrong.new ≡ Some (wrong_line S.script number (lines_of input))) }
    // If no bad line ended the run, nothing is reported as wrong.
    ensures none_wrong { HasNoneWrong result wrong.new }
{
    let mut player: Player<S> = Player::new(alloc);
    let end = play_all(&mut player, reader, writer);
    let reported = player.wrong;
    *wrong = None;
    if let Err(RunFault::WriteFault) = end {
        return Err(RunFault::WriteFault);
    }
    player.hand_on(writer)?;
    match end {
        Ok(()) => Ok(player.at.refused),
        Err(fault) => {
            *wrong = wrong_at(fault, reported);
            Err(fault)
        }
    }
}

/// What is wrong with a bad line, if the fault is that of a bad line.
fn wrong_at(fault: RunFault, wrong: Option<BadLine>) -> Option<BadLine>
    ensures { result ≡ wrong_if_bad fault wrong }
{
    match fault {
        RunFault::BadScript(_) => wrong,
        _ => None,
    }
}

/// Plays all lines, and says what is said at the end.
fn play_all<S: Stage, R: Read, W: Write>(
    player: &mut Player<S>,
    reader: &mut R,
    writer: &mut W,
) -> Result<(), RunFault>
    requires { player.old.at.lines ≡ 0 }
    ensures plays { OnOk result
        ((before : Option (List ℕ)) →
        PlaysLines S.script before (written_of (W.contents writer.old) player.old.out)
        player.old.at [] →
        IfSome (R.remaining reader.old)
        (PlaysWithin S.script before (written_of (W.contents writer.new) player.new.out)
        player.new.at.refused)) }
    ensures ended { OnOk result (IsAtEnd (R.remaining reader.new)) }
    ensures stops { IfErr result
        (λ fault. (before : Option (List ℕ)) →
        PlaysLines S.script before (written_of (W.contents writer.old) player.old.out)
        player.old.at [] →
        StopsRun S.script (R.remaining reader.old) (R.remaining reader.new) before
        (written_of (W.contents writer.new) player.new.out) player.new.wrong fault) }
{
    let mut lines: LineReader<KEPT_LEN> = LineReader::new(INPUT_LIMIT);
    'reads: loop {
        play_ended(player, &mut lines, writer)?;
        player.hand_on(writer)?;
        if !lines.refill(reader)? {
            break 'reads;
        }
    }
    play_last(player, &lines, writer)?;
    player.finish(writer)
}

/// Plays the lines that end in what came.
fn play_ended<S: Stage, W: Write>(
    player: &mut Player<S>,
    lines: &mut LineReader<KEPT_LEN>,
    writer: &mut W,
) -> Result<(), RunFault>
    requires { player.old.at.lines + left_of lines.old ≤ INPUT_LIMIT }
    ensures plays { OnOk result
        ((input rest before : Option (List ℕ)) →
        PlaysGiven S.script input rest before
        (written_of (W.contents writer.old) player.old.out) player.old.at lines.old →
        PlaysGiven S.script input rest before
        (written_of (W.contents writer.new) player.new.out) player.new.at lines.new) }
    ensures stops { IfErr result
        (λ fault. (input rest before : Option (List ℕ)) →
        PlaysGiven S.script input rest before
        (written_of (W.contents writer.old) player.old.out) player.old.at lines.old →
        StopsRun S.script input rest before (written_of (W.contents writer.new) player.new.out)
        player.new.wrong fault) }
    ensures none { OnOk result (lines.new.waiting ≡ []) }
    ensures room { OnOk result (lines.new.room ≡ lines.old.room) }
    ensures count { OnOk result (player.new.at.lines + left_of lines.new ≤ INPUT_LIMIT) }
{
    while lines.cut() {
        player.play_line(writer, lines.line())?;
    }
    Ok(())
}

/// Plays what stands after the last end of a line, where that isn't empty.
fn play_last<S: Stage, W: Write>(
    player: &mut Player<S>,
    lines: &LineReader<KEPT_LEN>,
    writer: &mut W,
) -> Result<(), RunFault>
    requires room { player.old.at.lines ≤ INPUT_LIMIT }
    requires none { lines.now.waiting ≡ [] }
    ensures plays { OnOk result
        ((input rest before : Option (List ℕ)) →
        PlaysGiven S.script input rest before
        (written_of (W.contents writer.old) player.old.out) player.old.at lines.now →
        IsAtEnd rest →
        PlaysDone S.script input rest before (written_of (W.contents writer.new) player.new.out)
        player.new.at) }
    ensures stops { IfErr result
        (λ fault. (input rest before : Option (List ℕ)) →
        PlaysGiven S.script input rest before
        (written_of (W.contents writer.old) player.old.out) player.old.at lines.now →
        IsAtEnd rest →
        StopsRun S.script input rest before (written_of (W.contents writer.new) player.new.out)
        player.new.wrong fault) }
{
    let Some(line) = lines.last() else {
        return Ok(());
    };
    player.play_line(writer, line)
}
