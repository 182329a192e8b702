//! How many commands are in flight.
ghost use Rattle.std.specs.Prelude.{◌≡◌};
ghost use Rattle.file_copy.specs.Pace.{bound_of, first_pace, grown, halved, has_lost, looked, most_of};

use crate::limits::{FIRST_FLIGHT, LEAST_FLIGHT, MOST_FLIGHT};

/// What a talk knows of the line to its server.
#[derive(Clone, Copy, Debug, PartialEq, Eq)]
pub struct Line {
    /// How many items the server's window allows. It is 0 where no connection is open.
    pub window: usize,
    /// How often a packet was lost, as far as is known: it rises with each loss, and with each
    /// retransmission of many packets once.
    pub losses: u64,
    /// Whether packets wait in a queue of the line, so that a packet is lost where the queue is
    /// full. On any other line packets are lost by chance.
    pub is_crowded: bool,
}

/// How many commands are in flight, as TCP has it (RFC 5681): few at first, one more with each
/// reply, and half as many after a loss on a crowded line. From half as many on one more comes with
/// each flight of replies. A loss by chance changes nothing, since fewer commands would lose as
/// many.
#[derive(Clone, Copy, Debug, PartialEq, Eq)]
pub struct Pace {
    /// How many commands the server's window allows. It is 0 until a look at the line has shown it.
    pub window: usize,
    /// How many commands the line carries, as far as is known.
    pub allowed: usize,
    /// From so many commands on one more comes with each flight of replies alone.
    pub threshold: usize,
    /// How many replies came since the last command more, from the threshold on.
    pub credit: usize,
    /// So many commands had been sent at the last loss. Until as many replies came, a further loss
    /// is of the same flight.
    pub recovered: usize,
    /// How often a packet had been lost at the last look, once there was one.
    pub losses: Option<u64>,
}

impl Pace {
    /// The pace before the first command.
    pub fn new() -> Self
        // Few commands are in flight at first, and no line was seen.
        ensures { result ≡ first_pace }
    {
        Pace {
            window: 0,
            allowed: FIRST_FLIGHT,
            threshold: MOST_FLIGHT,
            credit: 0,
            recovered: 0,
            losses: None,
        }
    }

    /// How many commands may be in flight.
    pub fn most(&self) -> usize
        // At most as many commands are in flight as the line carries and as the server's window
        // allows.
        ensures { result ≡ most_of self.now }
    {
        self.allowed.min(self.window)
    }

    /// How many of so many commands the server's window allows, where there are more.
    pub fn bound(&self, count: usize) -> Option<usize>
        // The answer is the server's window, where the window is known and is less than the number of
        // commands.
        ensures { result ≡ bound_of self.now count }
    {
        if 0 < self.window && self.window < count {
            Some(self.window)
        } else {
            None
        }
    }

    /// Takes in that a reply came.
    pub fn grow(&mut self)
        // Below the threshold one command more may be in flight. From there on a whole flight of
        // replies has to come for one command more.
        ensures { self.new ≡ grown self.old }
    {
        if self.allowed < self.threshold {
            self.allowed = self.allowed.saturating_add(1).min(MOST_FLIGHT);
            return;
        }
        self.credit = self.credit.saturating_add(1);
        if self.credit >= self.allowed {
            self.allowed = self.allowed.saturating_add(1).min(MOST_FLIGHT);
            self.credit = 0;
        }
    }

    /// Looks at the line, once so many commands were sent and so many replies came.
    pub fn look(&mut self, line: Line, sent: usize, received: usize)
        // A loss on a crowded line halves how many commands may be in flight, once for each flight.
        // Any other loss changes nothing. The first window that is known stays, and the count of
        // losses is that of the line.
        ensures { self.new ≡ looked line sent received self.old }
    {
        let has_lost = self.has_lost(line.losses);
        if self.window == 0 {
            self.window = line.window;
        }
        self.losses = Some(line.losses);
        if has_lost && line.is_crowded && received >= self.recovered {
            self.halve(sent);
        }
    }

    /// Whether a packet was lost since the last look. The first look sees no loss.
    fn has_lost(&self, losses: u64) -> bool
        ensures { result ≡ has_lost self.now.losses losses }
    {
        match self.losses {
            Some(before) => losses != before,
            None => false,
        }
    }

    /// Halves how many commands may be in flight, once so many were sent.
    fn halve(&mut self, sent: usize)
        ensures { self.new ≡ halved sent self.old }
    {
        let half = (self.allowed / 2).max(LEAST_FLIGHT);
        self.allowed = half;
        self.threshold = half;
        self.credit = 0;
        self.recovered = sent;
    }
}
