//! Lines played one after another.
ghost use Rattle.std.specs.Prelude.{◌≡◌, ◌+◌, ◌≤◌, ◌++◌, ◌∷◌, [], List, None, Option, OnOk, IfErr, IfSome, length, ℕ};
ghost use Rattle.std.specs.Io.BufRead.{strip_last};
ghost use Rattle.std.specs.Io.KnownBytes.{Keeps};
ghost use Rattle.chaosd_io.specs.Buffer.{written_of};
ghost use Rattle.chaosd_io.specs.declared.fault.RunFault.TheVariants.{WriteFault};
ghost use Rattle.chaosd_lab.specs.Player.{PlaysLines, PlaysOn, StopsLine, StopsOn, PlaysDone, PlaysWithin, StopsRun};

use crate::bad_line::{BadLine, LineReport};
use crate::room::{hand_on, make_room};
use crate::stage::Stage;
use crate::standing::Standing;
use chaosd_io::{INPUT_LIMIT, LINE_LIMIT, RunFault, WriteBuffer, without_return, written};
use std::alloc::Global;
use std::io::Write;

/// Where a script stands, and the text that waits to be written.
#[derive(Drop)]
pub struct Player<S: Stage> {
    alloc: Global,
    pub at: Standing<S>,
    pub out: WriteBuffer,
    /// What is wrong with the bad line that the script ended by.
    pub wrong: Option<BadLine>,
    ghost refused_within: { at.refused ≤ at.lines },
}

impl<S: Stage> Player<S> {
    /// A player that has played no line yet.
    pub fn new(alloc: Global) -> Self
        ensures plays { (before : Option (List ℕ)) →
            PlaysLines S.script before (written_of before result.out) result.at [] }
        ensures count { result.at.lines ≡ 0 }
    {
        Player {
            alloc,
            at: Standing {
                lab: None,
                lines: 0,
                refused: 0,
            },
            out: WriteBuffer::new(),
            wrong: None,
        }
    }

    /// Hands on the text that waits.
    pub fn hand_on<W: Write>(&mut self, writer: &mut W) -> Result<(), RunFault>
        ensures kept { Keeps (written_of (W.contents writer.old) self.old.out)
            (written_of (W.contents writer.new) self.new.out) }
        ensures empty { OnOk result (self.new.out ≡ []) }
        ensures same { self.new.at ≡ self.old.at }
        ensures fault { IfErr result (λ fault. fault ≡ WriteFault) }
    {
        hand_on(&mut self.out, writer)
    }

    /// Plays the first line. A function of its own, so that a later line has no room for a
    /// laboratory to be made in.
    #[inline(never)]
    fn play_first(&mut self, raw: &[u8]) -> Result<(), RunFault>
        requires few { self.old.at.lines ≤ INPUT_LIMIT }
        requires first { self.old.at.lab ≡ None }
        requires short { length (strip_last 13 raw.now) ≤ LINE_LIMIT }
        ensures plays { OnOk result
            ((held : Option (List ℕ)) →
            PlaysOn S.script (written_of held self.old.out) self.old.at raw.now
            (written_of held self.new.out) self.new.at) }
        ensures stops { IfErr result
            (λ fault. (held : Option (List ℕ)) →
            StopsOn S.script (written_of held self.old.out) self.old.at raw.now
            (written_of held self.new.out) self.new.wrong fault) }
        ensures count { OnOk result (self.new.at.lines ≡ self.old.at.lines + 1) }
    {
        let first = without_return(raw);
        let number = self.at.lines + 1;
        let mut report = LineReport {
            number,
            wrong: None,
        };
        let lab = match S::begin(self.alloc, &mut self.out, first, &mut report) {
            Ok(lab) => lab,
            Err(fault) => {
                self.wrong = report.wrong;
                return Err(fault);
            }
        };
        self.at.lab = Some(lab);
        self.at.lines = number;
        Ok(())
    }

    /// Plays a line, the first line or a later one. Before it, what waits is handed on if the text
    /// of the line might not fit.
    pub fn play_line<W: Write>(&mut self, writer: &mut W, raw: &[u8]) -> Result<(), RunFault>
        requires { self.old.at.lines ≤ INPUT_LIMIT }
        ensures plays { OnOk result
            ((before : Option (List ℕ)) (ended : List (List ℕ)) →
            PlaysLines S.script before (written_of (W.contents writer.old) self.old.out)
            self.old.at ended →
            PlaysLines S.script before (written_of (W.contents writer.new) self.new.out)
            self.new.at (ended ++ raw.now ∷ [])) }
        ensures stops { IfErr result
            (λ fault. (before : Option (List ℕ)) (ended : List (List ℕ)) →
            PlaysLines S.script before (written_of (W.contents writer.old) self.old.out)
            self.old.at ended →
            StopsLine S.script before (written_of (W.contents writer.new) self.new.out) ended
            raw.now self.new.wrong fault) }
        ensures count { OnOk result (self.new.at.lines ≡ self.old.at.lines + 1) }
    {
        make_room(&mut self.out, writer)?;
        let line = without_return(raw);
        let number = self.at.lines + 1;
        if line.len() > LINE_LIMIT {
            self.wrong = Some(BadLine::TooLong);
            return Err(RunFault::BadScript(number));
        }
        let Some(lab) = &mut self.at.lab else {
            return self.play_first(raw);
        };
        let mut report = LineReport {
            number,
            wrong: None,
        };
        let refused = match lab.play(self.alloc, &mut self.out, writer, line, &mut report) {
            Ok(refused) => refused,
            Err(fault) => {
                self.wrong = report.wrong;
                return Err(fault);
            }
        };
        self.at.refused += u64::from(refused);
        self.at.lines = number;
        Ok(())
    }

    /// Writes what is said at the end.
    pub fn finish<W: Write>(&mut self, writer: &mut W) -> Result<(), RunFault>
        ensures plays { OnOk result
            ((input rest before : Option (List ℕ)) →
            PlaysDone S.script input rest before
            (written_of (W.contents writer.old) self.old.out) self.old.at →
            IfSome input
            (PlaysWithin S.script before (written_of (W.contents writer.new) self.new.out)
            self.new.at.refused)) }
        ensures stops { IfErr result
            (λ fault. (input rest before : Option (List ℕ)) →
            PlaysDone S.script input rest before
            (written_of (W.contents writer.old) self.old.out) self.old.at →
            StopsRun S.script input rest before
            (written_of (W.contents writer.new) self.new.out) self.new.wrong fault) }
    {
        make_room(&mut self.out, writer)?;
        let Some(lab) = &self.at.lab else {
            self.wrong = Some(BadLine::NoEnds);
            return Err(RunFault::BadScript(1));
        };
        written(lab.end(&mut self.out))
    }
}
