//! The reports of lines, one after another.
ghost use Rattle.std.specs.Prelude.{◌≡◌, ◌≤◌, ◌<◌, ◌==◌, ◌++◌, [], length, IfOk, OnOk};
ghost use Rattle.std.specs.Io.KnownBytes.{Appends, Keeps};

use crate::entry::{put_entry, put_gap_and_empty};
use crate::format::Format;
use crate::hex::MOST_BYTES;
use crate::room::{hand_on, make_room, report_room};
use crate::tally::Tally;
use crate::view::View;
use chaosd_io::{INPUT_LIMIT, NotWritten, WriteBuffer, without_return};
use std::io::Write;

/// The reports that wait to be written, and the count of all so far.
#[derive(Drop)]
pub struct Reporter {
    pub out: WriteBuffer,
    pub tally: Tally,
    /// The bytes of the line that is being reported.
    datagram: [u8; MOST_BYTES],
    ghost refused_within: { tally.refused ≤ tally.reports },
}

impl Reporter {
    ghost use Rattle.chaosd_io.specs.Buffer.{written_of};
    ghost use Rattle.chaosd_show.specs.Entry.{entry_of, is_refusal};
    ghost use Rattle.chaosd_show.specs.Show.{line_report, gap, counted};

    /// A reporter that has reported no line yet.
    pub fn new() -> Self
        ensures out { result.out ≡ [] }
        ensures tally { result.tally ≡ record { reports = 0; refused = 0 } }
    {
        Reporter {
            out: WriteBuffer::new(),
            tally: Tally {
                reports: 0,
                refused: 0,
            },
            datagram: [0; MOST_BYTES],
        }
    }

    /// Hands on the reports that wait.
    pub fn hand_on<W: Write>(&mut self, writer: &mut W) -> Result<(), NotWritten>
        ensures kept { Keeps (written_of (W.contents writer.old) self.old.out)
            (written_of (W.contents writer.new) self.new.out) }
        ensures empty { OnOk result (self.new.out ≡ []) }
        ensures tally { self.new.tally ≡ self.old.tally }
    {
        hand_on(&mut self.out, writer)
    }

    /// Reports one more line, and counts it.
    pub fn report<W: Write>(
        &mut self,
        writer: &mut W,
        format: Format,
        view: View,
        raw: &[u8],
    ) -> Result<(), NotWritten>
        requires { self.old.tally.reports ≤ INPUT_LIMIT }
        ensures text { OnOk result
            (Appends (written_of (W.contents writer.old) self.old.out)
            (written_of (W.contents writer.new) self.new.out)
            (gap (self.old.tally.reports == 0) ++ line_report format view raw.now)) }
        ensures tally { OnOk result (self.new.tally ≡ counted format self.old.tally raw.now) }
    {
        make_room(&mut self.out, writer, report_room(view, raw.len()))?;
        let refused = self.put_report(writer, format, view, raw)?;
        self.tally = Tally {
            reports: self.tally.reports + 1,
            refused: self.tally.refused + u64::from(refused),
        };
        Ok(())
    }

    /// Writes the report of a line, with an empty line in front of every report but the first, and
    /// says whether the report is a refusal.
    #[tactic(auto, using(crate::proofs::Steps::put_behind, crate::proofs::Steps::empty_text, crate::proofs::Steps::empty_refused), unfolding(crate::specs::Entry::entry_of))]
    fn put_report<W: Write>(
        &mut self,
        writer: &mut W,
        format: Format,
        view: View,
        raw: &[u8],
    ) -> Result<bool, NotWritten>
        ensures text { OnOk result
            (Appends (written_of (W.contents writer.old) self.old.out)
            (written_of (W.contents writer.new) self.new.out)
            (gap (self.old.tally.reports == 0) ++ line_report format view raw.now)) }
        ensures refused { IfOk result (λ refused. refused ≡ is_refusal (entry_of format raw.now)) }
        ensures tally { self.new.tally ≡ self.old.tally }
    {
        if self.tally.reports != 0 {
            // An empty line is the empty datagram. No place is made for a packet, as reading a
            // datagram does, and its report takes one write.
            if without_return(raw).is_empty() {
                put_gap_and_empty(&mut self.out, format)?;
                return Ok(true);
            }
            self.out.put(b"\n")?;
        }
        put_entry(&mut self.out, writer, format, view, raw, &mut self.datagram)
    }
}
