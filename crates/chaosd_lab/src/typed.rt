//! The line of a script that asks for an event.
ghost use Rattle.std.specs.Prelude.{◌≡◌, ◌++◌, OnOk};
ghost use Rattle.chaos_lab.specs.Inside.{happening_of};
ghost use Rattle.chaosd_lab.specs.Typed.{sided_line, write_line, close_line, event_line};

use crate::answers::{put_named, put_numbered, put_spaced};
use crate::names::side_name;
use chaos_lab::{Event, Side};
use chaos_packet::Opcode;
use chaosd_io::{NotWritten, WriteBuffer, put_octal_three};

/// Writes the line that asks for an event.
///
/// # Errors
/// `NotWritten` if not all of it fits.
pub fn put_event(out: &mut WriteBuffer, event: &Event<'_>) -> Result<(), NotWritten>
    // If it ends well, the line that asks for the event was printed.
    ensures { OnOk result (out.new ≡ out.old ++ event_line (happening_of event.now)) }
{
    match *event {
        Event::Write(side, op, bytes) => put_write(out, side, op, bytes),
        Event::Read(side) => put_named(out, "read", side_name(side)),
        Event::Announce(side, window) => put_sided(out, "window", side, usize::from(window)),
        Event::Tick(side, now) => put_sided(out, "tick", side, now as usize),
        Event::Close(side, text) => put_close(out, side, text),
        Event::Accept(start) => put_numbered(out, "accept", usize::from(start.0)),
        Event::Deliver(copy) => put_numbered(out, "deliver", copy),
    }
}

/// Words, a side and a number.
#[tactic(auto, unfolding(crate::specs::Typed::sided_line))]
fn put_sided(out: &mut WriteBuffer, words: &str, side: Side, n: usize) -> Result<(), NotWritten>
    ensures { OnOk result (out.new ≡ out.old ++ sided_line words.now side n) }
{
    out.put(words.as_bytes())?;
    out.put(b" ")?;
    put_numbered(out, side_name(side), n)
}

/// A write of an item at a side.
#[tactic(auto, unfolding(crate::specs::Typed::write_line))]
fn put_write(out: &mut WriteBuffer, side: Side, op: Opcode, bytes: &[u8]) -> Result<(), NotWritten>
    ensures { OnOk result (out.new ≡ out.old ++ write_line side op bytes.now) }
{
    out.put(b"write ")?;
    out.put(side_name(side).as_bytes())?;
    out.put(b" ")?;
    put_octal_three(out, u16::from(op.0))?;
    put_spaced(out, bytes)?;
    out.put(b"\n")
}

/// A close of an end with a text.
#[tactic(auto, unfolding(crate::specs::Typed::close_line))]
fn put_close(out: &mut WriteBuffer, side: Side, text: &[u8]) -> Result<(), NotWritten>
    ensures { OnOk result (out.new ≡ out.old ++ close_line side text.now) }
{
    out.put(b"close ")?;
    out.put(side_name(side).as_bytes())?;
    put_spaced(out, text)?;
    out.put(b"\n")
}
