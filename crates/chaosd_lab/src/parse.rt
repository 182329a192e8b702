//! The event that a line asks for.
ghost use Rattle.std.specs.Prelude.{◌≡◌, option_map, IfErr};
ghost use Rattle.chaos_lab.specs.Inside.{happening_of};
ghost use Rattle.chaosd_lab.specs.Event.{write_of, read_of, window_of, tick_of, close_of, accept_of, deliver_of, event_of};
ghost use Rattle.std.specs.Result.{result_ok};
ghost use Rattle.chaosd_lab.specs.Fields.{cut, field_and_text};
ghost use Rattle.chaosd_lab.specs.Wrong.{wrong_alone, wrong_first, wrong_of, wrong_text, wrong_word, wrong_write};

use crate::fields::{cut, field_and_text};
use crate::numbers::{number_of, opcode_of, side_of};
use crate::{BadLine, LineForm};
use chaos_lab::Event;
use chaos_packet::PktNum;
use chaosd_io::{Data, data_of, why_text};

/// `S OOO TEXT`, or without the text and the space before it.
// what most lines of a script are read by is inlined where they are played: calls take some
// instructions more for each line
#[inline(always)]
fn write_of<'a>(line: &[u8], rest: &'a [u8], body: &'a mut Data) -> Result<Event<'a>, BadLine>
    ensures event { option_map happening_of (result_ok result) ≡ write_of rest.now }
    ensures wrong { IfErr result (λ wrong. wrong ≡ wrong_write line.now (cut rest.now)) }
{
    let Some((side, rest)) = cut(rest) else {
        return Err(BadLine::Form(LineForm::Write));
    };
    let (op, text) = field_and_text(rest);
    let Some(data) = data_of(text, body) else {
        return Err(BadLine::Text(why_text(line, text)));
    };
    match (side_of(side), opcode_of(op)) {
        (Some(side), Some(op)) => Ok(Event::Write(side, op, data)),
        _ => Err(BadLine::Form(LineForm::Write)),
    }
}

/// `S`.
fn read_of<'a>(rest: &[u8]) -> Result<Event<'a>, BadLine>
    ensures event { option_map happening_of (result_ok result) ≡ read_of rest.now }
    ensures wrong { IfErr result (λ wrong. wrong ≡ BadLine.Form LineForm.Read) }
{
    match side_of(rest) {
        Some(side) => Ok(Event::Read(side)),
        None => Err(BadLine::Form(LineForm::Read)),
    }
}

/// `S N`, the window that a side announces.
fn window_of<'a>(rest: &[u8]) -> Result<Event<'a>, BadLine>
    ensures event { option_map happening_of (result_ok result) ≡ window_of rest.now }
    ensures wrong { IfErr result (λ wrong. wrong ≡ BadLine.Form LineForm.Window) }
{
    let Some((side, window)) = cut(rest) else {
        return Err(BadLine::Form(LineForm::Window));
    };
    match (side_of(side), number_of(u64::from(u16::MAX), window)) {
        (Some(side), Some(window)) => Ok(Event::Announce(side, window as u16)),
        _ => Err(BadLine::Form(LineForm::Window)),
    }
}

/// `S N`.
fn tick_of<'a>(rest: &[u8]) -> Result<Event<'a>, BadLine>
    ensures event { option_map happening_of (result_ok result) ≡ tick_of rest.now }
    ensures wrong { IfErr result (λ wrong. wrong ≡ BadLine.Form LineForm.Tick) }
{
    let Some((side, now)) = cut(rest) else {
        return Err(BadLine::Form(LineForm::Tick));
    };
    match (side_of(side), number_of(u64::MAX, now)) {
        (Some(side), Some(now)) => Ok(Event::Tick(side, now)),
        _ => Err(BadLine::Form(LineForm::Tick)),
    }
}

/// `S TEXT`, or without the text and the space before it.
fn close_of<'a>(line: &[u8], rest: &'a [u8], body: &'a mut Data) -> Result<Event<'a>, BadLine>
    ensures event { option_map happening_of (result_ok result) ≡ close_of rest.now }
    ensures wrong { IfErr result
        (λ wrong. wrong ≡ wrong_text LineForm.Close line.now (field_and_text rest.now).1) }
{
    let (side, text) = field_and_text(rest);
    let Some(data) = data_of(text, body) else {
        return Err(BadLine::Text(why_text(line, text)));
    };
    match side_of(side) {
        Some(side) => Ok(Event::Close(side, data)),
        None => Err(BadLine::Form(LineForm::Close)),
    }
}

/// `N`, the number of B's first item.
fn accept_of<'a>(rest: &[u8]) -> Result<Event<'a>, BadLine>
    ensures event { option_map happening_of (result_ok result) ≡ accept_of rest.now }
    ensures wrong { IfErr result (λ wrong. wrong ≡ BadLine.Form LineForm.Accept) }
{
    match number_of(u64::from(u16::MAX), rest) {
        Some(start) => Ok(Event::Accept(PktNum(start as u16))),
        None => Err(BadLine::Form(LineForm::Accept)),
    }
}

/// `K`, the number of a copy.
#[inline(always)]
fn deliver_of<'a>(rest: &[u8]) -> Result<Event<'a>, BadLine>
    ensures event { option_map happening_of (result_ok result) ≡ deliver_of rest.now }
    ensures wrong { IfErr result (λ wrong. wrong ≡ BadLine.Form LineForm.Deliver) }
{
    match number_of(u64::MAX, rest) {
        Some(copy) => Ok(Event::Deliver(copy as usize)),
        None => Err(BadLine::Form(LineForm::Deliver)),
    }
}

/// What is wrong with a line that begins with this word.
#[inline(never)]
fn wrong_word(word: &[u8]) -> BadLine
    ensures { result ≡ wrong_word word.now }
{
    if word == b"write".as_slice() {
        BadLine::Form(LineForm::Write)
    } else if word == b"read".as_slice() {
        BadLine::Form(LineForm::Read)
    } else if word == b"window".as_slice() {
        BadLine::Form(LineForm::Window)
    } else if word == b"tick".as_slice() {
        BadLine::Form(LineForm::Tick)
    } else if word == b"close".as_slice() {
        BadLine::Form(LineForm::Close)
    } else if word == b"accept".as_slice() {
        BadLine::Form(LineForm::Accept)
    } else if word == b"deliver".as_slice() {
        BadLine::Form(LineForm::Deliver)
    } else if word == b"settle".as_slice() {
        BadLine::Form(LineForm::Settle)
    } else if word == b"ends".as_slice() {
        BadLine::EndsAgain
    } else if word == b"serve".as_slice() {
        BadLine::Serve
    } else if word.starts_with(b"#") {
        BadLine::Comment
    } else {
        BadLine::NoWord
    }
}

/// What is wrong with a line without a space.
#[inline(never)]
fn wrong_alone(line: &[u8]) -> BadLine
    ensures { result ≡ wrong_alone line.now }
{
    if line.is_empty() {
        return BadLine::Empty;
    }
    wrong_word(line)
}

/// What is wrong with a first line that isn't of the form of one.
pub fn wrong_first(line: &[u8]) -> BadLine
    // A comment is reported as such, and of any other line the form of a first line.
    ensures { result ≡ wrong_first line.now }
{
    if line.starts_with(b"#") {
        BadLine::Comment
    } else {
        BadLine::NoEnds
    }
}

/// The event that a line asks for. The bytes of its text lie in the line, or in `body` where it has
/// escapes.
///
/// # Errors
/// What is wrong with a line that isn't of the form of an event.
#[inline(always)]
pub fn event_of<'a>(line: &'a [u8], body: &'a mut Data) -> Result<Event<'a>, BadLine>
    // The result is the event that the line asks for.
    ensures event { option_map happening_of (result_ok result) ≡ event_of line.now }
    // What is wrong with a line: it is empty or a comment, it begins with no word of the language,
    // its text stands for no bytes, or it isn't of the form of its word.
    ensures wrong { IfErr result (λ wrong. wrong ≡ wrong_of line.now) }
{
    // Most lines begin with these words. To compare a line with one costs less than to look for the
    // space behind its word.
    if let Some(rest) = line.strip_prefix(b"deliver ".as_slice()) {
        return deliver_of(rest);
    }
    if let Some(rest) = line.strip_prefix(b"write ".as_slice()) {
        return write_of(line, rest, body);
    }
    if let Some(rest) = line.strip_prefix(b"read ".as_slice()) {
        return read_of(rest);
    }
    event_by_word(line, body)
}

/// The event that a line asks for, by the word before its first space.
#[tactic(auto, unfolding(crate::specs::Event::event_of, crate::specs::Wrong::wrong_of))]
#[inline(never)]
fn event_by_word<'a>(line: &'a [u8], body: &'a mut Data) -> Result<Event<'a>, BadLine>
    ensures event { option_map happening_of (result_ok result) ≡ event_of line.now }
    ensures wrong { IfErr result (λ wrong. wrong ≡ wrong_of line.now) }
{
    let Some((word, rest)) = cut(line) else {
        return Err(wrong_alone(line));
    };
    if word == b"write".as_slice() {
        write_of(line, rest, body)
    } else if word == b"read".as_slice() {
        read_of(rest)
    } else if word == b"window".as_slice() {
        window_of(rest)
    } else if word == b"tick".as_slice() {
        tick_of(rest)
    } else if word == b"close".as_slice() {
        close_of(line, rest, body)
    } else if word == b"accept".as_slice() {
        accept_of(rest)
    } else if word == b"deliver".as_slice() {
        deliver_of(rest)
    } else {
        Err(wrong_word(word))
    }
}
