//! What scripts are played in.
ghost use Rattle.std.specs.Prelude.{◌≡◌, ◌≢◌, ◌++◌, ℕ, List, Err, None, Some, IfErr, IfOk, OnOk};
ghost use Rattle.std.specs.Io.KnownBytes.{Appends, Keeps};
ghost use Rattle.chaosd_io.specs.Buffer.{written_of};
ghost use Rattle.chaosd_lab.specs.Script.{Script, PlaysLine};
ghost use Rattle.chaosd_lab.specs.Player.{IsLineFault};

use crate::bad_line::LineReport;
use chaosd_io::{NotWritten, RunFault, WriteBuffer};
use std::alloc::Global;
use std::io::Write;

/// A laboratory that scripts are played in: the first line makes it, and each later one lets an
/// event happen in it.
pub trait Stage: Drop {
    /// What the lines of its scripts say.
    ghost script: { Script Self };

    /// The laboratory of a first line, and the text of how it begins.
    ///
    /// # Errors
    /// `BadScript` with the line's number where the line is of no form, `NoMemory`, and `WriteFault`
    /// where the text doesn't fit.
    fn begin(
        alloc: Global,
        out: &mut WriteBuffer,
        line: &[u8],
        report: &mut LineReport,
    ) -> Result<Self, RunFault>
        // A laboratory is begun only by a first line of the form. Then it is ready, and what the
        // language prints of the first line was printed.
        ensures begun { IfOk result
            (λ lab. (script.first line.now ≡ Some lab) × (out.new ≡ out.old ++ script.begun lab)
            × script.ready lab) }
        // `BadScript` comes only of a line that isn't of the form, and nothing was printed.
        ensures bad { (n : ℕ) → result ≡ Err (RunFault.BadScript n) →
            (n ≡ report.old.number) × (script.first line.now ≡ None) × (out.new ≡ out.old) }
        // Then what is wrong with the line is reported, as the language says it.
        ensures wrong { (n : ℕ) → result ≡ Err (RunFault.BadScript n) →
            report.new.wrong ≡ Some (script.first_wrong line.now) }
        // `NoMemory` comes only of a line that is of the form, and nothing was printed.
        ensures no_memory { result ≡ Err RunFault.NoMemory →
            (script.first line.now ≢ None) × (out.new ≡ out.old) }
        // Only these and a `WriteFault` end it.
        ensures faults { IfErr result (λ fault. IsLineFault fault) };

    /// Does what a line asks for, writes what came of it, and says whether it was refused. There is
    /// room for the text of one event. Before the text of each further event
    /// [`make_room`](crate::make_room) hands on to the writer what waits.
    ///
    /// # Errors
    /// `BadScript` with the line's number where the line is of no form, `NoMemory`, and `WriteFault`
    /// where the text doesn't fit or the writer fails.
    fn play<W: Write>(
        &mut self,
        alloc: Global,
        out: &mut WriteBuffer,
        writer: &mut W,
        line: &[u8],
        report: &mut LineReport,
    ) -> Result<bool, RunFault>
        // If a line ends well in a laboratory that is ready, it did and printed what the language
        // says.
        ensures played { IfOk result
            (λ refused. script.ready self.old →
            PlaysLine script line.now self.old self.new
            (written_of (W.contents writer.old) out.old)
            (written_of (W.contents writer.new) out.new) refused
            × script.ready self.new) }
        // `BadScript` comes only of a line of no form, and nothing was printed.
        ensures bad { (n : ℕ) → result ≡ Err (RunFault.BadScript n) →
            (n ≡ report.old.number) × (script.event line.now ≡ None)
            × Keeps (written_of (W.contents writer.old) out.old)
            (written_of (W.contents writer.new) out.new) }
        // Then what is wrong with the line is reported, as the language says it.
        ensures wrong { (n : ℕ) → result ≡ Err (RunFault.BadScript n) →
            report.new.wrong ≡ Some (script.wrong line.now) }
        // `NoMemory` comes only of a line of the form. Then the line left of the laboratory, and
        // printed, what the language says of that.
        ensures no_memory { result ≡ Err RunFault.NoMemory →
            (script.event line.now ≢ None)
            × (script.ready self.old →
            (text : List ℕ) × script.wants self.old line.now self.new text
            × Appends (written_of (W.contents writer.old) out.old)
            (written_of (W.contents writer.new) out.new) text) }
        // Only these and a `WriteFault` end it.
        ensures faults { IfErr result (λ fault. IsLineFault fault) };

    /// Writes the text of the end.
    fn end(&self, out: &mut WriteBuffer) -> Result<(), NotWritten>
        // If it ends well, what the language says of the end was printed.
        ensures { OnOk result (out.new ≡ out.old ++ script.ended self.now) };
}
