//! Which refusals of datagrams a log reports, and how many at once.
ghost use Rattle.std.specs.Prelude.{◌≡◌, None, IfSome, length};
ghost use Rattle.chaosd_log.specs.Refusals.{HasNoRow, IsRowAt, count_due, counted, is_due, no_refusals, report_known, report_others};

use arrayvec::ArrayVec;
use chaos_seal::SealFault;
use std::marker::Model;
use std::net::{Ipv4Addr, SocketAddr, SocketAddrV4};

/// The most rows: for so many pairs of a UDP address and a reason the refusals are counted apart.
pub const MAX_REFUSED: usize = 16;

/// The seconds for which the refusals of a row are counted only, behind one that was reported.
pub const QUIET_SECONDS: u64 = 10;

/// Refusals: those that no report has, and when one was reported last.
#[derive(Clone, Copy)]
pub struct RefusalTally {
    /// How many were refused since the last report.
    unreported: u64,
    /// The second of the clock in which one was reported last.
    reported: Option<u64>,
}

/// The refusals of datagrams from one UDP address for one reason.
#[derive(Clone, Copy)]
pub struct Refused {
    /// The UDP address.
    from: SocketAddr,
    /// The reason.
    fault: SealFault,
    /// The refusals.
    tally: RefusalTally,
}

/// Stands in the places of a table that have no row yet: those of UDP address 0.0.0.0:0, from which
/// nothing comes.
impl Default for Refused {
    fn default() -> Self {
        Refused {
            from: SocketAddr::V4(SocketAddrV4::new(Ipv4Addr::UNSPECIFIED, 0)),
            fault: SealFault::Short,
            tally: RefusalTally::NONE,
        }
    }
}

/// What is to be reported of a refusal.
#[derive(Clone, Copy, Debug, PartialEq, Eq)]
pub enum RefusalReport {
    /// Nothing: the refusal was counted.
    Silent,
    /// So many refusals of this UDP address for this reason.
    Known(u64),
    /// So many refusals of UDP addresses and reasons that have no row.
    Others(u64),
}

impl RefusalTally {
    /// Nothing was refused.
    const NONE: RefusalTally = RefusalTally {
        unreported: 0,
        reported: None,
    };

    /// Whether a refusal in this second is to be reported.
    fn is_due(self, now: u64) -> bool
        ensures { result ≡ is_due now self }
    {
        match self.reported {
            None => true,
            Some(second) => now.saturating_sub(second) >= QUIET_SECONDS,
        }
    }

    /// Something is refused in this second. Gives how many refusals are to be reported, if any are.
    fn count(&mut self, now: u64) -> Option<u64>
        ensures due { result ≡ count_due now self.old }
        ensures tally { self.new ≡ counted now self.old }
    {
        let count = self.unreported.saturating_add(1);
        if self.is_due(now) {
            *self = RefusalTally {
                unreported: 0,
                reported: Some(now),
            };
            return Some(count);
        }
        self.unreported = count;
        None
    }
}

/// What is to be reported of a row.
fn report_known(count: Option<u64>) -> RefusalReport
    ensures { result ≡ report_known count }
{
    match count {
        Some(count) => RefusalReport::Known(count),
        None => RefusalReport::Silent,
    }
}

/// What is to be reported of those that have no row.
fn report_others(count: Option<u64>) -> RefusalReport
    ensures { result ≡ report_others count }
{
    match count {
        Some(count) => RefusalReport::Others(count),
        None => RefusalReport::Silent,
    }
}

/// The place of the row of this UDP address and this reason.
fn place_of(rows: &[Refused], from: SocketAddr, fault: SealFault) -> Option<usize>
    ensures some { IfSome result (λ place. IsRowAt from fault place rows.now) }
    ensures none { result ≡ None → HasNoRow from fault rows.now }
{
    let (first, others) = rows.split_first()?;
    if first.from == from && first.fault == fault {
        return Some(0);
    }
    let place = place_of(others, from, fault)?;
    Some(place + 1)
}

/// How many datagrams were refused, by their UDP addresses and the reasons: at most 16 pairs of
/// these are counted apart, and all others together.
#[derive(Drop)]
pub struct Refusals {
    known: ArrayVec<Refused, MAX_REFUSED>,
    others: RefusalTally,
}

impl Model for Refusals {
    ghost use Rattle.chaosd_log.specs.Refusals.{RefusalsView};

    ghost Value = { RefusalsView };

    ghost view = { λ s. record { known = s.known.items; others = s.others } };
}

impl Refusals {
    ghost use Rattle.std.specs.Prelude.{[]};
    ghost use Rattle.chaosd_log.specs.Refusals.{Counts};

    /// Nothing was refused.
    pub fn new() -> Self
        // At first there is no row, and nothing was refused.
        ensures { result ≡ record { known = []; others = no_refusals } }
    {
        Refusals {
            known: ArrayVec::new(),
            others: RefusalTally::NONE,
        }
    }

    /// A datagram from this UDP address is refused for this reason, in this second of the clock.
    /// Says how many refusals are to be reported.
    pub fn count(&mut self, from: SocketAddr, fault: SealFault, now: u64) -> RefusalReport
        // The refusal is counted once: in the row of its UDP address and reason, in a new row where
        // there are fewer than 16, or among all others. The first refusal of a row is reported at
        // once. A further refusal is reported where none of its row was reported in the last 10
        // seconds, with the number of those that were refused since then.
        ensures { Counts from fault now self.old result self.new }
    {
        if let Some(place) = place_of(self.known.as_slice(), from, fault) {
            return report_known(self.known[place].tally.count(now));
        }
        if self.known.is_full() {
            return report_others(self.others.count(now));
        }
        let mut tally = RefusalTally::NONE;
        let _ = tally.count(now);
        self.known.push(Refused { from, fault, tally });
        RefusalReport::Known(1)
    }
}
