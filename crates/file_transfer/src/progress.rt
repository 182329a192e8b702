//! How far the copy of files has come.
ghost use Rattle.std.specs.Prelude.{◌≡◌, ◌≤◌};
ghost use Rattle.file_transfer.specs.Progress.{begun_at, file_begun, hundredths_of, is_due, is_stalled, left_of, looked_at, reached, share_due, share_of, shown_at, speed_of, total_of};

/// So many milliseconds lie between two moments at which a user is shown how far a copy has come.
pub const SHOW_MILLIS: u64 = 250;

/// The speed is that of the last so many milliseconds, or of up to twice as many.
pub const SPEED_MILLIS: u64 = 2_000;

/// A copy of which nothing has come for so many milliseconds is stalled.
pub const STALL_MILLIS: u64 = 5_000;

/// A moment, in milliseconds, and the bytes that had been copied by then.
#[derive(Clone, Copy, Debug, PartialEq, Eq)]
pub struct Mark {
    /// The moment.
    pub moment: u64,
    /// The bytes of all files that had been copied.
    pub bytes: usize,
}

/// How much of some files was copied, one after another. Moments are milliseconds.
#[derive(Clone, Copy)]
pub struct Progress {
    /// The bytes that were copied of the files before this one.
    pub before: usize,
    /// This file's bytes, and 0 where they aren't known yet.
    pub whole: usize,
    /// So many of them were copied.
    pub part: usize,
    /// The bytes of the files behind this one, where they are known.
    pub behind: Option<usize>,
    /// The last look that found more bytes than the look before, or the beginning.
    pub moved: Mark,
    /// The look from which on the speed is counted.
    pub from: Mark,
    /// The look from which on the speed will be counted next.
    pub next: Mark,
    /// The moment at which the user was shown something last, or the copy began.
    pub shown: u64,
}

/// How many bytes came in how many milliseconds, 1 at least.
#[derive(Clone, Copy, Debug, PartialEq, Eq)]
pub struct Speed {
    /// The bytes.
    pub bytes: usize,
    /// The milliseconds.
    pub millis: u64,
}

/// What a user is shown of a copy.
#[derive(Clone, Copy, Debug, PartialEq, Eq)]
pub struct Share {
    /// The file's bytes.
    pub whole: usize,
    /// Those that have come.
    pub part: usize,
    /// The same in hundredths: 100 of nothing.
    pub hundredths: usize,
    /// The bytes of all files that have come.
    pub reached: usize,
    /// The bytes of all files, where they are known.
    pub total: Option<usize>,
    /// How fast bytes came in the last seconds.
    pub speed: Speed,
    /// Whether no byte has come for 5 seconds.
    pub is_stalled: bool,
    /// In so many milliseconds all files will be copied at that speed, or this one where the bytes
    /// of all aren't known. There are none where no byte came in the last seconds.
    pub left: Option<u64>,
}

impl Progress {
    /// A copy begins at this moment.
    pub fn new(now: u64) -> Self
        // The copy begins now, with no bytes of none, and nothing was shown.
        ensures { result ≡ begun_at now }
    {
        let mark = Mark {
            moment: now,
            bytes: 0,
        };
        Progress {
            before: 0,
            whole: 0,
            part: 0,
            behind: None,
            moved: mark,
            from: mark,
            next: mark,
            shown: now,
        }
    }

    /// The next file begins at this moment. The bytes of the files behind it are these, where they
    /// are known.
    pub fn begin_file(&mut self, behind: Option<usize>, now: u64)
        // What was copied so far counts as copied before this file, of which nothing has come. It
        // isn't stalled before 5 seconds have passed from now on.
        ensures { self.new ≡ file_begun behind self.old now }
    {
        let reached = self.reached();
        *self = Progress {
            before: reached,
            whole: 0,
            part: 0,
            behind,
            moved: Mark {
                moment: now,
                bytes: reached,
            },
            ..*self
        };
    }

    /// The bytes of all files that have come.
    fn reached(&self) -> usize
        ensures { result ≡ reached self.now }
    {
        self.before.saturating_add(self.part.min(self.whole))
    }

    /// The bytes of all files, where they are known.
    fn total(&self) -> Option<usize>
        ensures { result ≡ total_of self.now }
    {
        let behind = self.behind?;
        Some(
            self.before
                .saturating_add(self.whole)
                .saturating_add(behind),
        )
    }

    /// How fast bytes came since the look from which on that is counted.
    fn speed(&self, now: u64) -> Speed
        ensures value { result ≡ speed_of self.now now }
        ensures some { 1 ≤ result.millis }
    {
        Speed {
            bytes: self.reached().saturating_sub(self.from.bytes),
            millis: now.saturating_sub(self.from.moment).max(1),
        }
    }

    /// What has come at this moment.
    fn share(&self, now: u64) -> Share
        ensures { result ≡ share_of self.now now }
    {
        let part = self.part.min(self.whole);
        let total = self.total();
        let reached = self.reached();
        let speed = self.speed(now);
        let left = match total {
            Some(total) => total.saturating_sub(reached),
            None => self.whole - part,
        };
        Share {
            whole: self.whole,
            part,
            hundredths: hundredths_of(part, self.whole),
            reached,
            total,
            speed,
            is_stalled: self.is_stalled(now),
            left: left_of(left, speed),
        }
    }

    /// Whether no byte has come for 5 seconds.
    fn is_stalled(&self, now: u64) -> bool
        ensures { result ≡ is_stalled self.now now }
    {
        now.saturating_sub(self.moved.moment) >= STALL_MILLIS
    }

    /// Keeps what has come at this moment.
    fn mark(&mut self, now: u64)
        ensures { self.new ≡ looked_at self.old now }
    {
        let mark = Mark {
            moment: now,
            bytes: self.reached(),
        };
        if self.moved.bytes < mark.bytes {
            self.moved = mark;
        }
        if now.saturating_sub(self.next.moment) >= SPEED_MILLIS {
            self.from = self.next;
            self.next = mark;
        }
    }

    /// Whether it is time to show something of this file, whose bytes are known.
    fn is_due(&self, now: u64) -> bool
        ensures { result ≡ is_due self.now now }
    {
        self.whole > 0 && now.saturating_sub(self.shown) >= SHOW_MILLIS
    }

    /// Looks at what has come at this moment. The result is what a user is to be shown, where it is
    /// time for that.
    pub fn look(&mut self, now: u64) -> Option<Share>
        // A user is shown the share of this moment where the file is known to have bytes, and 250
        // milliseconds have passed since the last, or since the copy began.
        ensures due { result ≡ share_due self.old now }
        // The look is kept. The next 250 milliseconds count from a look that is shown.
        ensures kept { self.new ≡ shown_at self.old now }
    {
        self.mark(now);
        if !self.is_due(now) {
            return None;
        }
        self.shown = now;
        Some(self.share(now))
    }
}

/// A part of a whole in hundredths, and 100 of nothing.
fn hundredths_of(part: usize, whole: usize) -> usize
    ensures { result ≡ hundredths_of part whole }
{
    if whole == 0 {
        return 100;
    }
    part.saturating_mul(100) / whole
}

/// In how many milliseconds so many bytes come at this speed. There are none where no byte comes.
fn left_of(bytes: usize, speed: Speed) -> Option<u64>
    ensures { result ≡ left_of bytes speed }
{
    if speed.bytes == 0 {
        return None;
    }
    Some((bytes as u64).saturating_mul(speed.millis) / speed.bytes as u64)
}

/// The milliseconds that a copy's progress keeps to, as numerals.
pub fn law_limits()
    // A user is shown how far a copy has come each 250 milliseconds.
    ensures show { SHOW_MILLIS ≡ 250 }
    // The speed is that of the last 2 to 4 seconds.
    ensures speed { SPEED_MILLIS ≡ 2000 }
    // A copy is stalled behind 5 seconds without a byte.
    ensures stall { STALL_MILLIS ≡ 5000 }
{}
