//! The run over an input.
ghost use Rattle.std.specs.Prelude.{◌≡◌, ◌+◌, ◌<◌, ◌≤◌, [], ℕ, List, Option, Err, length, take, OnOk, IfOk, IfSome};
ghost use Rattle.std.specs.Io.KnownBytes.{Appends, IsAtEnd};
ghost use Rattle.chaosd_io.specs.Buffer.{written_of};
ghost use Rattle.chaosd_io.specs.Lines.{lines_of, ended_lines};
ghost use Rattle.chaosd_io.specs.Reader.{left_of};
ghost use Rattle.chaosd_show.specs.Shown.{Shows, ShowsAll};
ghost use Rattle.chaosd_show.specs.Show.{report_of, reports_of, ReportsRead, tally_of};

use crate::format::Format;
use crate::limits::SHOW_KEPT_LEN;
use crate::reporter::Reporter;
use crate::tally::Tally;
use crate::view::View;
use chaosd_io::{INPUT_LIMIT, LineReader, NotWritten, RunFault, written};
use std::io::{Read, Write};

/// Reads lines of hexadecimal digits, one datagram of the own format a line, to the end of the
/// input, and writes a report of each, as [`run_show_by`] does.
///
/// # Errors
/// As those of [`run_show_by`].
pub fn run_show<R: Read, W: Write>(reader: &mut R, writer: &mut W) -> Result<Tally, RunFault>
    // If the run ends well, what was written is the report of all that was read, in the own format
    // and the plain view.
    ensures report { OnOk result
        (IfSome (R.remaining reader.old)
        (λ input. Appends (W.contents writer.old) (W.contents writer.new)
        (report_of Format.Own View.Plain input))) }
    // The tally counts the reports and the refusals among them.
    ensures tally { IfOk result
        (λ tally. IfSome (R.remaining reader.old)
        (λ input. tally ≡ tally_of Format.Own (lines_of input))) }
    // The run ends well only at the input's end.
    ensures ended { OnOk result (IsAtEnd (R.remaining reader.new)) }
    // The run never ends well where more than 1,048,576 bytes came.
    ensures within { OnOk result
        (IfSome (R.remaining reader.old) (λ input. length input ≤ INPUT_LIMIT)) }

    // `InputTooLong` comes only where the input is too long, and the lines that ended within the
    // limit were reported.
    ensures too_long { result ≡ Err RunFault.InputTooLong →
        IfSome (R.remaining reader.old)
        (λ input. (INPUT_LIMIT < length input)
        × Appends (W.contents writer.old) (W.contents writer.new)
        (reports_of Format.Own View.Plain (ended_lines (take INPUT_LIMIT input)))) }

    // If the reader failed, the lines that ended in what it had given were reported, and no more.
    ensures unread { result ≡ Err RunFault.ReadFault →
        ReportsRead Format.Own View.Plain (R.remaining reader.old) (R.remaining reader.new)
        (W.contents writer.old) (W.contents writer.new) }
{
    run_show_by(Format::Own, View::Plain, reader, writer)
}

/// Reads lines of hexadecimal digits, one datagram of the format a line, to the end of the input,
/// and writes a report of each. The view says how much is reported of data.
///
/// Each report is handed on to the writer before the next read, so somebody who types lines sees
/// each report at once. The run ends by its first fault. The cost is one look at each byte that
/// comes and goes. No memory is taken.
///
/// # Errors
/// [`RunFault`], by its number:
/// - 1: the reader fails or is interrupted 2,000,000 times.
/// - 2: the writer fails.
/// - 3: more than 1,048,576 bytes come.
pub fn run_show_by<R: Read, W: Write>(
    format: Format,
    view: View,
    reader: &mut R,
    writer: &mut W,
) -> Result<Tally, RunFault>
    // If the run ends well, what was written is the report of all that was read, in this format and
    // view.
    ensures report { OnOk result
        (IfSome (R.remaining reader.old)
        (λ input. Appends (W.contents writer.old) (W.contents writer.new)
        (report_of format view input))) }
    // The tally counts the reports and the refusals among them.
    ensures tally { IfOk result
        (λ tally. IfSome (R.remaining reader.old)
        (λ input. tally ≡ tally_of format (lines_of input))) }
    // The run ends well only at the input's end.
    ensures ended { OnOk result (IsAtEnd (R.remaining reader.new)) }
    // The run never ends well where more than 1,048,576 bytes came.
    ensures within { OnOk result
        (IfSome (R.remaining reader.old) (λ input. length input ≤ INPUT_LIMIT)) }

    // `InputTooLong` comes only where the input is too long, and the lines that ended within the
    // limit were reported.
    ensures too_long { result ≡ Err RunFault.InputTooLong →
        IfSome (R.remaining reader.old)
        (λ input. (INPUT_LIMIT < length input)
        × Appends (W.contents writer.old) (W.contents writer.new)
        (reports_of format view (ended_lines (take INPUT_LIMIT input)))) }

    // If the reader failed, the lines that ended in what it had given were reported, and no more.
    ensures unread { result ≡ Err RunFault.ReadFault →
        ReportsRead format view (R.remaining reader.old) (R.remaining reader.new) (W.contents writer.old)
        (W.contents writer.new) }
{
    let mut lines: LineReader<SHOW_KEPT_LEN> = LineReader::new(INPUT_LIMIT);
    let mut reporter = Reporter::new();
    'reads: loop {
        written(report_ended(format, view, &mut reporter, &mut lines, writer))?;
        written(reporter.hand_on(writer))?;
        if !lines.refill(reader)? {
            break 'reads;
        }
    }
    written(report_last(format, view, &mut reporter, &lines, writer))?;
    written(reporter.hand_on(writer))?;
    Ok(reporter.tally)
}

/// Reports the lines that end in what came.
fn report_ended<W: Write>(
    format: Format,
    view: View,
    reporter: &mut Reporter,
    lines: &mut LineReader<SHOW_KEPT_LEN>,
    writer: &mut W,
) -> Result<(), NotWritten>
    requires { reporter.old.tally.reports + left_of lines.old ≤ INPUT_LIMIT }
    ensures shown { OnOk result
        ((input rest before : Option (List ℕ)) →
        Shows format view input rest before (written_of (W.contents writer.old) reporter.old.out)
        reporter.old.tally lines.old →
        Shows format view input rest before (written_of (W.contents writer.new) reporter.new.out)
        reporter.new.tally lines.new) }
    ensures none { OnOk result (lines.new.waiting ≡ []) }
    ensures room { OnOk result (lines.new.room ≡ lines.old.room) }
    ensures count { OnOk result (reporter.new.tally.reports + left_of lines.new ≤ INPUT_LIMIT) }
{
    'lines: while lines.cut() {
        reporter.report(writer, format, view, lines.line())?;
    }
    Ok(())
}

/// Reports what stands after the last end of a line, where that isn't empty.
fn report_last<W: Write>(
    format: Format,
    view: View,
    reporter: &mut Reporter,
    lines: &LineReader<SHOW_KEPT_LEN>,
    writer: &mut W,
) -> Result<(), NotWritten>
    requires room { reporter.old.tally.reports ≤ INPUT_LIMIT }
    requires none { lines.now.waiting ≡ [] }
    ensures shown { OnOk result
        ((input rest before : Option (List ℕ)) →
        Shows format view input rest before (written_of (W.contents writer.old) reporter.old.out)
        reporter.old.tally lines.now →
        IsAtEnd rest →
        ShowsAll format view input rest before (written_of (W.contents writer.new) reporter.new.out)
        reporter.new.tally) }
{
    let Some(line) = lines.last() else {
        return Ok(());
    };
    reporter.report(writer, format, view, line)
}
