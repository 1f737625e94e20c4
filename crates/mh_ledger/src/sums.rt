//! Lists of numbers, added element by element.

ghost use Rattle.std.specs.Prelude.{◌≡◌, ◌+◌, ◌<◌, ◌≤◌, ◌^◌, ◌↔◌, ℕ, length, replicate, IsTrue};
ghost use Rattle.std.specs.List.{All};
ghost use Rattle.mh_ledger.specs.Ledgers.{at, added};
ghost use Rattle.mh_ledger.specs.Limits.{greatest_limit};

// Returns whether no sum exceeds the limit.
pub(crate) fn all_fit(sums: &[u64], more: &[u64], limit: u64) -> bool
    requires lengths { length sums.now ≡ length more.now }
    requires sums { All (λ n. n ≤ greatest_limit) sums.now }
    requires more { All (λ n. n ≤ greatest_limit) more.now }
    ensures value { IsTrue result ↔ ((j : ℕ) → j < length sums.now
        → at sums.now j + at more.now j ≤ limit) }
{
    for place in 0..sums.len() {
        if sums[place] + more[place] > limit {
            return false;
        }
    }
    true
}

// Adds to each number the one at the same index.
pub(crate) fn add(sums: &mut Vec<u64>, more: &[u64])
    requires lengths { length sums.old.items ≡ length more.now }
    requires sums { All (λ n. n ≤ greatest_limit) sums.old.items }
    requires more { All (λ n. n ≤ greatest_limit) more.now }
    ensures value { sums.new.items ≡ added sums.old.items more.now }
{
    for place in 0..sums.len() {
        sums[place] += more[place];
    }
}

// Subtracts from each number the one at the same index.
pub(crate) fn subtract(sums: &mut Vec<u64>, less: &[u64])
    requires lengths { length sums.old.items ≡ length less.now }
    requires parts { (j : ℕ) → j < length less.now → at less.now j ≤ at sums.old.items j }
    ensures count { length sums.new.items ≡ length sums.old.items }
    ensures value { (j : ℕ) → at sums.new.items j + at less.now j ≡ at sums.old.items j }
{
    for place in 0..sums.len() {
        sums[place] -= less[place];
    }
}

// Sets each number to 0.
pub(crate) fn clear(numbers: &mut Vec<u64>)
    ensures value { numbers.new.items ≡ replicate (length numbers.old.items) 0 }
{
    numbers.fill(0);
}
