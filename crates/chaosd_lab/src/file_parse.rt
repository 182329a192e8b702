//! The event that a line of `filelab` asks for.
ghost use Rattle.std.specs.Prelude.{◌≡◌, option_map, IfErr};
ghost use Rattle.std.specs.Result.{result_ok};
ghost use Rattle.file_lab.specs.Events.{file_event};
ghost use Rattle.chaosd_lab.specs.FileEvent.{file_line_of};
ghost use Rattle.chaosd_lab.specs.FileWrong.{file_wrong_of, with_serve};

use crate::bad_line::{BadLine, LineForm};
use crate::parse::event_of;
use chaosd_io::Data;
use file_lab::FileEvent;

/// What is wrong with a line, by what is wrong with it in the language without `serve`.
fn with_serve(wrong: BadLine) -> BadLine
    ensures { result ≡ with_serve wrong }
{
    match wrong {
        BadLine::Serve => BadLine::Form(LineForm::Serve),
        other => other,
    }
}

/// The event that a line asks for. The bytes of its text lie in the line, or in `body` where it has
/// escapes.
///
/// # Errors
/// What is wrong with a line that isn't of the form of an event.
pub fn file_line_of<'a>(line: &'a [u8], body: &'a mut Data) -> Result<FileEvent<'a>, BadLine>
    // The result is `serve`, or the event that the line asks for in `lab`.
    ensures event { option_map file_event (result_ok result) ≡ file_line_of line.now }
    // What is wrong with a line is the same as in `lab`, where `serve` has no form.
    ensures wrong { IfErr result (λ wrong. wrong ≡ file_wrong_of line.now) }
{
    if line == b"serve".as_slice() {
        return Ok(FileEvent::Serve);
    }
    match event_of(line, body) {
        Ok(event) => Ok(FileEvent::At(event)),
        Err(wrong) => Err(with_serve(wrong)),
    }
}
