//! A run over files, one after another.
ghost use Rattle.std.specs.Prelude.{◌≡◌, ◌++◌, ◌∷◌, [], List, ℕ, Bool, Option};
ghost use Rattle.file_transfer.specs.declared.outcome.Outcome.{Outcome};
ghost use Rattle.file_transfer.specs.Runs.{Reported, Runs, reported_after};

use crate::outcome::Outcome;
use crate::severity::Severity;
use file_names::Named;

/// Whoever copies a file.
pub trait FileTask {
    /// What is copied: a file with a name.
    type File: Named;

    /// What a try at a file may come to, from one state to the next.
    ghost tries: { Self → Self.File → Outcome → Self → Type 0 };

    /// Tries to copy this file.
    fn try_file(&mut self, file: &Self::File) -> Outcome
        // A try comes to what the task says that it may come to.
        ensures { tries self.old file.now result self.new };
}

/// Whoever gets the outcome of each file.
pub trait OutcomeSink {
    /// What was reported so far, in order. `None` for a sink that claims nothing.
    ghost reported: { Self → Option (List Reported) };

    /// This came of the file of this name.
    fn report(&mut self, name: &str, outcome: &Outcome)
        // What was reported before is followed by what came of this file, under its name.
        ensures { reported self.new
            ≡ reported_after (record { name = name.now; outcome = outcome.now } ∷ []) (reported self.old) };
}

/// Copies these files, one after another, and reports what came of each. The result is the worst
/// severity, which is `Done` exactly where what was asked for was done with each.
pub fn run_copies<C: FileTask, T: OutcomeSink>(
    task: &mut C,
    sink: &mut T,
    files: &[C::File],
) -> Severity
    // Each file is tried in its turn until one ends the run, and those behind it are reported as
    // not tried. What came of each is reported under its name, in order. The result is the worst of
    // theirs, so it is Done exactly where what was asked for was done with each.
    ensures { (goes_on : Bool)
        × Runs C.tries C.File.name task.old (T.reported sink.old) files.now result goes_on
        task.new (T.reported sink.new) }
{
    let mut worst = Severity::Done;
    let mut goes_on = true;
    for file in files {
        if !goes_on {
            sink.report(file.name(), &Outcome::NotTried);
            worst = worst.worse(Severity::Refused);
            continue;
        }
        let outcome = task.try_file(file);
        sink.report(file.name(), &outcome);
        worst = worst.worse(outcome.severity());
        goes_on = outcome.goes_on();
    }
    worst
}
