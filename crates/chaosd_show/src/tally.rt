//! What a run of `show` counts.

/// How many reports there were, and how many of them were refusals.
#[derive(Clone, Copy, Debug, PartialEq, Eq)]
pub struct Tally {
    pub reports: u64,
    pub refused: u64,
}
