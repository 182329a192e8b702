//! How far a copy has come, in words.
ghost use Rattle.std.specs.Prelude.{◌≡◌, ◌≤◌, length};
ghost use Rattle.chaosd_call.specs.ProgressText.{end_of};

use file_transfer::{Share, Speed};
use std::fmt;
use std::fmt::{Display, Formatter, Write};

/// A terminal's line holds so many columns, and one more where the cursor stands.
const COLUMNS: usize = 79;

/// What stands in place of the front of a name for which there is no room.
const LEFT_OUT: &str = "..";

/// A time of so many milliseconds in words: milliseconds below one second, and then the nearest
/// tenth of a second.
#[derive(Clone, Copy)]
pub struct Time(pub u64);

impl Display for Time {
    fn fmt<W: fmt::Write>(&self, f: &mut Formatter<W>) -> fmt::Result {
        let millis = self.0;
        if millis < 1_000 {
            write!(f, "{millis} ms")
        } else {
            let tenths = millis.saturating_add(50) / 100;
            write!(f, "{}.{} s", tenths / 10, tenths % 10)
        }
    }
}

/// A speed in words: thousands of bytes a second, or bytes where these are fewer.
#[derive(Clone, Copy)]
pub struct Rate(pub Speed);

impl Display for Rate {
    fn fmt<W: fmt::Write>(&self, f: &mut Formatter<W>) -> fmt::Result {
        let Speed { bytes, millis } = self.0;
        let (bytes, millis) = (bytes as u64, millis.max(1));
        if bytes < millis {
            write!(f, "{} B/s", bytes.saturating_mul(1_000) / millis)
        } else {
            write!(f, "{} kB/s", bytes / millis)
        }
    }
}

/// The time that is left, in words: seconds up to 99, and then minutes, a part of either as a
/// whole.
#[derive(Clone, Copy)]
struct TimeLeft(u64);

impl Display for TimeLeft {
    fn fmt<W: fmt::Write>(&self, f: &mut Formatter<W>) -> fmt::Result {
        let seconds = self.0.div_ceil(1_000);
        if seconds < 100 {
            write!(f, "{seconds} s left")
        } else {
            write!(f, "{} min left", seconds.div_ceil(60))
        }
    }
}

/// How fast a copy goes, and for how long.
#[derive(Clone, Copy)]
struct Pace(Share);

impl Display for Pace {
    fn fmt<W: fmt::Write>(&self, f: &mut Formatter<W>) -> fmt::Result {
        let share = &self.0;
        if share.is_stalled {
            return write!(f, "stalled");
        }
        write!(f, "{}", Rate(share.speed))?;
        match share.left {
            Some(left) => write!(f, ", {}", TimeLeft(left)),
            None => Ok(()),
        }
    }
}

/// The file's place among several, which stands in front of its name.
#[derive(Clone, Copy)]
struct Lead {
    place: usize,
    count: usize,
}

impl Display for Lead {
    fn fmt<W: fmt::Write>(&self, f: &mut Formatter<W>) -> fmt::Result {
        let Lead { place, count } = *self;
        if count > 1 {
            write!(f, "{place} of {count}: ")?;
        }
        Ok(())
    }
}

/// What stands behind a file's name: of one of several files whose bytes are all known its share,
/// and the bytes of all; otherwise its own bytes.
#[derive(Clone, Copy)]
struct Tail {
    share: Share,
    is_one_of_several: bool,
}

impl Display for Tail {
    fn fmt<W: fmt::Write>(&self, f: &mut Formatter<W>) -> fmt::Result {
        let Share {
            whole,
            part,
            hundredths,
            reached,
            total,
            ..
        } = self.share;
        let pace = Pace(self.share);
        match total {
            Some(total) if self.is_one_of_several => write!(
                f,
                " {hundredths}%; all {reached} of {total} bytes, {pace}"
            ),
            _ => write!(f, " {part} of {whole} bytes, {hundredths}%, {pace}"),
        }
    }
}

/// Counts the bytes of what is written.
#[derive(Drop)]
struct Length(usize);

impl Write for Length {
    fn write_str(&mut self, text: &str) -> fmt::Result {
        self.0 = self.0.saturating_add(text.len());
        Ok(())
    }
}

/// How many bytes this has in words.
fn length_of<D: Display>(words: &D) -> usize {
    let mut length = Length(0);
    let _ = write!(length, "{words}");
    length.0
}

/// The longest end of a name that has at most so many bytes, and so no more columns than these.
fn end_within(name: &str, most: usize) -> &str
    // The result has at most so many bytes.
    ensures within { length result.now ≤ most }
    // The name ends with the result.
    ensures ending { result.now ≡ end_of name.now (length result.now) }
{
    for (place, _) in name.char_indices() {
        if name.len() - place <= most {
            return name.get(place..).unwrap_or("");
        }
    }
    ""
}

/// A name for which there is so much room: its end with two dots in front, where there is too
/// little for all.
#[derive(Clone, Copy)]
struct Shortened<'a> {
    name: &'a str,
    room: usize,
}

impl Display for Shortened<'_> {
    fn fmt<W: fmt::Write>(&self, f: &mut Formatter<W>) -> fmt::Result {
        if self.name.len() <= self.room {
            return f.write_str(self.name);
        }
        let room = self.room.saturating_sub(LEFT_OUT.len());
        write!(f, "{LEFT_OUT}{}", end_within(self.name, room))
    }
}

/// The line that shows how far a file has come, one of so many: at most 79 columns.
#[derive(Clone, Copy)]
pub struct ProgressText<'a> {
    /// The file's name as it is printed.
    pub name: &'a str,
    pub share: Share,
    /// The file's place among all, from 1 on.
    pub place: usize,
    pub count: usize,
}

impl Display for ProgressText<'_> {
    fn fmt<W: fmt::Write>(&self, f: &mut Formatter<W>) -> fmt::Result {
        let ProgressText {
            name,
            share,
            place,
            count,
        } = *self;
        let lead = Lead { place, count };
        let tail = Tail {
            share,
            is_one_of_several: count > 1,
        };
        let taken = length_of(&lead).saturating_add(length_of(&tail));
        let room = COLUMNS.saturating_sub(taken);
        write!(f, "{lead}{}{tail}", Shortened { name, room })
    }
}
