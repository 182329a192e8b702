//! What came of an event, as text.
ghost use Rattle.std.specs.Prelude.{◌≡◌, ◌++◌, ◌∷◌, [], codes, drop, OnOk};
ghost use Rattle.std.specs.Fmt.{decimal};
ghost use Rattle.chaos_packet.specs.Packet.{PacketView};
ghost use Rattle.chaos_conn.specs.Disposition.{with_packet};
ghost use Rattle.chaos_lab.specs.History.{item};
ghost use Rattle.chaos_lab.specs.Told.{given_by, last_of, told};
ghost use Rattle.chaosd_lab.specs.Names.{side_name, delivered_name};
ghost use Rattle.chaosd_lab.specs.Answers.{named_line, numbered_line, item_line, read_text, spaced_text, ticked_text, stepped_text, refusal_text, answer_text, op_name, copy_line, copies_text, stored_line};

use crate::names::{conn_fault_name, delivered_name, dropped_name, state_name};
use chaos_conn::{Disposition, ReadDone, ReadEnd, Ticked};
use chaos_lab::{KeptItem, LabFault, Side, Stamped, StepDone, Stepped};
use chaos_packet::Opcode;
use chaosd_io::{NotWritten, WriteBuffer, put_decimal, put_line, put_octal_three, put_text};

/// Writes a word or more, and a name, as a line.
///
/// # Errors
/// `NotWritten` if not all of it fits.
// inlined, so that the words, which are literals of the callers, are stored and not copied by a call
#[tactic(auto, unfolding(crate::specs::Answers::named_line))]
#[inline(always)]
pub fn put_named(out: &mut WriteBuffer, words: &str, name: &str) -> Result<(), NotWritten>
    // If it ends well, the line of these words and this name was printed.
    ensures { OnOk result (out.new ≡ out.old ++ named_line words.now name.now) }
{
    out.put(words.as_bytes())?;
    out.put(b" ")?;
    put_line(out, name)
}

/// A word or more, and a number.
// inlined for the same reason
#[tactic(auto, unfolding(crate::specs::Answers::numbered_line))]
#[inline(always)]
pub fn put_numbered(out: &mut WriteBuffer, words: &str, n: usize) -> Result<(), NotWritten>
    ensures { OnOk result (out.new ≡ out.old ++ numbered_line words.now n) }
{
    out.put(words.as_bytes())?;
    out.put(b" ")?;
    put_decimal(out, n)?;
    out.put(b"\n")
}

/// An item of this opcode and these data that was read.
#[tactic(auto, unfolding(crate::specs::Answers::item_line))]
fn put_item(out: &mut WriteBuffer, op: Opcode, bytes: &[u8]) -> Result<(), NotWritten>
    ensures { OnOk result (out.new ≡ out.old ++ item_line (item op bytes.now)) }
{
    out.put(b"read ")?;
    put_octal_three(out, u16::from(op.0))?;
    put_spaced(out, bytes)?;
    out.put(b"\n")
}

/// A space and bytes as text, where there are some.
#[inline(always)]
pub fn put_spaced(out: &mut WriteBuffer, bytes: &[u8]) -> Result<(), NotWritten>
    ensures { OnOk result (out.new ≡ out.old ++ spaced_text bytes.now) }
{
    if bytes.is_empty() {
        return Ok(());
    }
    out.put(b" ")?;
    put_text(out, bytes)
}

fn put_read(out: &mut WriteBuffer, read: &ReadEnd) -> Result<(), NotWritten>
    ensures { OnOk result (out.new ≡ out.old ++ read_text read.now) }
{
    match read {
        ReadEnd::Item(item) => put_item(out, item.op, item.bytes()),
        ReadEnd::Nothing => put_line(out, "read nothing"),
        ReadEnd::Ended(state) => put_named(out, "read ended", state_name(*state)),
    }
}

/// What a read gave, of these items the last where it gave one.
#[inline(always)]
fn put_read_done(
    out: &mut WriteBuffer,
    done: ReadDone,
    items: &[KeptItem],
) -> Result<(), NotWritten>
    ensures { OnOk result (out.new ≡ out.old ++ read_text (given_by done (last_of items.now))) }
{
    match (done, items.last()) {
        (ReadDone::Done, Some(item)) => put_item(out, item.op(), item.bytes()),
        (ReadDone::Done | ReadDone::Nothing, _) => put_line(out, "read nothing"),
        (ReadDone::Ended(state), _) => put_named(out, "read ended", state_name(state)),
    }
}

fn put_ticked(out: &mut WriteBuffer, ticked: Ticked) -> Result<(), NotWritten>
    ensures { OnOk result (out.new ≡ out.old ++ ticked_text ticked) }
{
    match ticked {
        Ticked::Quiet => put_line(out, "ticked quiet"),
        Ticked::Down => put_line(out, "ticked down"),
        Ticked::Resent(count) => put_numbered(out, "ticked resent", count),
        Ticked::Probed => put_line(out, "ticked probed"),
    }
}

/// Writes what an event did that was taken.
///
/// # Errors
/// `NotWritten` if not all of it fits.
pub fn put_stepped(out: &mut WriteBuffer, stepped: &Stepped) -> Result<(), NotWritten>
    // If it ends well, what the language says of an event that was taken was printed.
    ensures { OnOk result (out.new ≡ out.old ++ stepped_text stepped.now) }
{
    match stepped {
        Stepped::Wrote(num) => put_numbered(out, "wrote", usize::from(num.0)),
        Stepped::Read(read) => put_read(out, read),
        Stepped::Announced(window) => put_numbered(out, "announced", usize::from(*window)),
        Stepped::Ticked(ticked) => put_ticked(out, *ticked),
        Stepped::Closed => put_line(out, "closed"),
        Stepped::Accepted(num) => put_numbered(out, "accepted", usize::from(num.0)),
        Stepped::Requested => put_line(out, "delivered Requested"),
        Stepped::Delivered(delivered) => put_named(out, "delivered", delivered_name(delivered)),
    }
}

/// Writes why an event was refused.
///
/// # Errors
/// `NotWritten` if not all of it fits.
pub fn put_refusal(out: &mut WriteBuffer, fault: LabFault) -> Result<(), NotWritten>
    // If it ends well, what the language says of a refused event was printed.
    ensures { OnOk result (out.new ≡ out.old ++ refusal_text fault) }
{
    match fault {
        LabFault::NoSuchCopy => put_line(out, "refused 1 NoSuchCopy"),
        LabFault::Stale => put_line(out, "refused 2 Stale"),
        LabFault::Refused(fault) => put_named(out, "refused 3", conn_fault_name(fault)),
        LabFault::NoMemory => put_line(out, "refused 4 NoMemory"),
        LabFault::ByServer => put_line(out, "refused 5 ByServer"),
    }
}

/// What came of an event, where the user whom it let read has read these items.
#[inline(always)]
pub fn put_answer(
    out: &mut WriteBuffer,
    answer: &Result<StepDone, LabFault>,
    items: &[KeptItem],
) -> Result<(), NotWritten>
    ensures { (packet : PacketView) →
        OnOk result (out.new ≡ out.old ++ answer_text (told packet items.now answer.now)) }
{
    match answer {
        Ok(StepDone::Wrote(num)) => put_numbered(out, "wrote", usize::from(num.0)),
        Ok(StepDone::Read(done)) => put_read_done(out, *done, items),
        Ok(StepDone::Announced(window)) => put_numbered(out, "announced", usize::from(*window)),
        Ok(StepDone::Ticked(ticked)) => put_ticked(out, *ticked),
        Ok(StepDone::Closed) => put_line(out, "closed"),
        Ok(StepDone::Accepted(num)) => put_numbered(out, "accepted", usize::from(num.0)),
        Ok(StepDone::Requested) => put_line(out, "delivered Requested"),
        Ok(StepDone::Delivered(disposition)) => put_delivered(out, *disposition),
        Err(fault) => put_refusal(out, *fault),
    }
}

/// Writes what became of a packet. Each line is a literal, and is stored in one piece.
#[tactic(auto, unfolding(crate::specs::Answers::named_line))]
fn put_delivered(out: &mut WriteBuffer, disposition: Disposition) -> Result<(), NotWritten>
    ensures { (packet : PacketView) →
        OnOk result (out.new
        ≡ out.old ++ named_line (codes "delivered") (delivered_name (with_packet disposition packet))) }
{
    match disposition {
        Disposition::Took => out.put(b"delivered Took\n"),
        Disposition::Duplicate => out.put(b"delivered Duplicate\n"),
        Disposition::Outside => out.put(b"delivered Outside\n"),
        Disposition::Opened => out.put(b"delivered Opened\n"),
        Disposition::Status => out.put(b"delivered Status\n"),
        Disposition::Probed => out.put(b"delivered Probed\n"),
        Disposition::Unc => out.put(b"delivered Unc\n"),
        Disposition::Answered => out.put(b"delivered Answered\n"),
        Disposition::Forwarded => out.put(b"delivered Forwarded\n"),
        Disposition::Closed => out.put(b"delivered Closed\n"),
        Disposition::Lost => out.put(b"delivered Lost\n"),
        Disposition::Dropped(why) => put_named(out, "delivered", dropped_name(why)),
    }
}

/// The name of an opcode: none only for one that no copy has.
fn op_name(op: Opcode) -> &'static str
    ensures { result.now ≡ op_name op }
{
    match op.name() {
        Some(name) => name,
        None => "",
    }
}

/// A copy, behind its number.
#[tactic(auto, unfolding(crate::specs::Answers::copy_line))]
fn put_copy(out: &mut WriteBuffer, place: usize, copy: &Stamped) -> Result<(), NotWritten>
    ensures { OnOk result (out.new ≡ out.old ++ copy_line place copy.now) }
{
    out.put(b"copy ")?;
    put_decimal(out, place)?;
    put_sender(out, copy.side)?;
    put_op_and_num(out, copy.packet.op())?;
    put_pair(out, copy.packet.num().0, copy.packet.ack().0)
}

/// The side that sent a copy, between spaces.
fn put_sender(out: &mut WriteBuffer, side: Side) -> Result<(), NotWritten>
    ensures { OnOk result (out.new ≡ out.old ++ 32 ∷ side_name side ++ 32 ∷ []) }
{
    match side {
        Side::A => out.put(b" a "),
        Side::B => out.put(b" b "),
    }
}

/// The name of an opcode, and the word behind it. All names have three letters, so what is written
/// of them has a fixed length.
fn put_op_and_num(out: &mut WriteBuffer, op: Opcode) -> Result<(), NotWritten>
    ensures { OnOk result (out.new ≡ out.old ++ op_name op ++ codes " num ") }
{
    let name = op_name(op).as_bytes();
    if let &[a, b, c] = name {
        return out.put(&[a, b, c, b' ', b'n', b'u', b'm', b' ']);
    }
    out.put(name)?;
    out.put(b" num ")
}

/// The number and the acknowledgement of a copy, and the end of its line.
fn put_pair(out: &mut WriteBuffer, num: u16, ack: u16) -> Result<(), NotWritten>
    ensures { OnOk result
        (out.new ≡ out.old ++ decimal num ++ codes " ack " ++ decimal ack ++ 10 ∷ []) }
{
    put_decimal(out, usize::from(num))?;
    out.put(b" ack ")?;
    put_decimal(out, usize::from(ack))?;
    out.put(b"\n")
}

/// Writes the copies from this place on.
///
/// # Errors
/// `NotWritten` if not all of it fits.
pub fn put_copies(out: &mut WriteBuffer, copies: &[Stamped], from: usize) -> Result<(), NotWritten>
    // If it ends well, the lines of the copies from this place on were printed.
    ensures { OnOk result (out.new ≡ out.old ++ copies_text from (drop from copies.now)) }
{
    let mut place = from;
    while place < copies.len() {
        put_copy(out, place, &copies[place])?;
        place += 1;
    }
    Ok(())
}

/// Writes how many packets both ends store.
///
/// # Errors
/// `NotWritten` if not all of it fits.
#[tactic(auto, unfolding(crate::specs::Answers::stored_line))]
pub fn put_stored(out: &mut WriteBuffer, a: usize, b: usize) -> Result<(), NotWritten>
    // If it ends well, the line of what both ends store was printed.
    ensures { OnOk result (out.new ≡ out.old ++ stored_line a b) }
{
    out.put(b"stored a ")?;
    put_decimal(out, a)?;
    out.put(b" b ")?;
    put_decimal(out, b)?;
    out.put(b"\n")
}
