//! A set of slots.
ghost use Rattle.std.specs.Prelude.{◌≡◌, ◌≢◌, ◌<◌, ℕ, false, if◌then◌else◌};
ghost use Rattle.std.specs.Int.{bit_at};
ghost use Rattle.chaos_host.specs.SlotSet.{IsNext, IsNextBit, has};

/// How many words a set has.
const WORDS: usize = 4;

/// A set of slots, by their places below 256: a bit for each. So one look at a word passes over 64
/// slots that aren't in the set.
#[derive(Drop)]
pub struct SlotSet {
    words: [u64; WORDS],
}

impl SlotSet {
    /// A set of no slots.
    pub fn new() -> Self
        ensures { (place : ℕ) → has result.words place ≡ false }
    {
        SlotSet { words: [0; WORDS] }
    }

    /// Puts a slot into the set, or takes it out.
    pub fn set(&mut self, place: usize, is_in: bool)
        requires { place < 256 }
        ensures here { has self.new.words place ≡ is_in }
        ensures others { (other : ℕ) → other ≢ place →
            has self.new.words other ≡ has self.old.words other }
    {
        let word = self.words[place / 64];
        self.words[place / 64] = with_bit(word, place % 64, is_in);
    }

    /// The first slot of the set from a place on.
    pub fn next(&self, from: usize) -> Option<usize>
        ensures { IsNext self.now.words from result }
    {
        let start = from / 64;
        if start >= WORDS {
            return None;
        }
        if let Some(bit) = first_bit(self.words[start], from % 64) {
            return Some(64 * start + bit);
        }
        for later in start + 1..WORDS {
            if let Some(bit) = first_bit(self.words[later], 0) {
                return Some(64 * later + bit);
            }
        }
        None
    }
}

/// A word with a bit set or cleared.
fn with_bit(word: u64, bit: usize, is_set: bool) -> u64
    requires { bit < 64 }
    ensures here { bit_at result bit ≡ (if is_set then 1 else 0) }
    ensures others { (other : ℕ) → other < 64 → other ≢ bit →
        bit_at result other ≡ bit_at word other }
{
    let mask = 1u64 << bit;
    if is_set {
        return word | mask;
    }
    word & !mask
}

/// The lowest bit of a word that is set, from a bit on.
fn first_bit(word: u64, from: usize) -> Option<usize>
    requires { from < 64 }
    ensures { IsNextBit word from result }
{
    let rest = word >> from;
    if rest == 0 {
        return None;
    }
    Some(from + rest.trailing_zeros() as usize)
}
