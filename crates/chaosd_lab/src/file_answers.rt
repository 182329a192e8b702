//! What came of an event, as text.
ghost use Rattle.std.specs.Prelude.{◌≡◌, ◌++◌, OnOk};
ghost use Rattle.file_lab.specs.Events.{file_event};
ghost use Rattle.chaosd_lab.specs.FileAnswers.{served_text, file_answer_text};
ghost use Rattle.chaosd_lab.specs.FileSettle.{file_line};

use crate::answers::{put_named, put_refusal, put_stepped};
use crate::names::state_name;
use crate::typed::put_event;
use chaos_file::Served;
use chaos_lab::LabFault;
use chaosd_io::{NotWritten, WriteBuffer, put_line};
use file_lab::{FileEvent, FileStepped};

/// What became of the item in front.
fn put_served(out: &mut WriteBuffer, served: Served) -> Result<(), NotWritten>
    ensures { OnOk result (out.new ≡ out.old ++ served_text served) }
{
    match served {
        Served::Replied => put_line(out, "served Replied"),
        Served::Eof => put_line(out, "served Eof"),
        Served::Idle => put_line(out, "served Idle"),
        Served::NoRoom => put_line(out, "served NoRoom"),
        Served::Ended(state) => put_named(out, "served ended", state_name(state)),
        Served::NoSuchConnection => put_line(out, "served NoSuchConnection"),
    }
}

/// What came of an event.
pub fn put_answer(
    out: &mut WriteBuffer,
    answer: &Result<FileStepped, LabFault>,
) -> Result<(), NotWritten>
    ensures { OnOk result (out.new ≡ out.old ++ file_answer_text answer.now) }
{
    match answer {
        Ok(FileStepped::Lab(stepped)) => put_stepped(out, stepped),
        Ok(FileStepped::Served(served)) => put_served(out, *served),
        Err(fault) => put_refusal(out, *fault),
    }
}

/// The line that asks for an event.
pub fn put_file_event(out: &mut WriteBuffer, event: &FileEvent<'_>) -> Result<(), NotWritten>
    ensures { OnOk result (out.new ≡ out.old ++ file_line (file_event event.now)) }
{
    match event {
        FileEvent::At(event) => put_event(out, event),
        FileEvent::Serve => put_line(out, "serve"),
    }
}
