//! Keeping flushed hits at the beginning of a new history.

ghost use Rattle.std.specs.Prelude.{◌≡◌, ◌≤◌, map};
ghost use Rattle.mh_ledger.specs.Renewals.{left_of};

/// The part of the flushed hits that is kept at the beginning of a new history.
#[derive(Clone, Copy, Debug, PartialEq, Eq)]
pub enum OldHits {
    /// All hits are kept.
    Keep,
    /// No hits are kept.
    Drop,
    /// Half of each worker's hits of a link are kept, rounded down, so that hits of the new history
    /// weigh more.
    Halve,
}

impl OldHits {
    /// Returns how many of a worker's `hits` hits of a link are kept.
    pub fn left_of(self, hits: u64) -> u64
        ensures value { result ≡ left_of self hits }
        ensures most { result ≤ hits }
    {
        match self {
            OldHits::Keep => hits,
            OldHits::Drop => 0,
            OldHits::Halve => hits / 2,
        }
    }
}

// Reduces each number to the part that is kept.
pub(crate) fn lessen(numbers: &mut Vec<u64>, hits: OldHits)
    ensures value { numbers.new.items ≡ map (left_of hits) numbers.old.items }
{
    for place in 0..numbers.len() {
        numbers[place] = hits.left_of(numbers[place]);
    }
}
