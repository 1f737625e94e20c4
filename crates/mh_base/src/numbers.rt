//! Tests of lists of numbers.

ghost use Rattle.std.specs.Prelude.{◌≡◌, ◌↔◌, ◌<◌, All, IsTrue, nat_lt};
ghost use Rattle.std.specs.List.Sorted.{IsStrictlyIncreasing};
ghost use Rattle.std.specs.List.{list_all};

/// Returns whether each number is greater than the one before it. O(numbers).
pub fn is_ascending(numbers: &[u32]) -> bool
    ensures value { IsTrue result ↔ IsStrictlyIncreasing numbers.now }
{
    for next in 1..numbers.len() {
        if numbers[next - 1] >= numbers[next] {
            return false;
        }
    }
    true
}

/// Returns whether all numbers are below a bound. O(numbers).
pub fn are_below(numbers: &[u32], bound: usize) -> bool
    ensures value { result ≡ list_all (λ p. nat_lt p bound) numbers.now }
    ensures all { IsTrue result ↔ All (λ p. p < bound) numbers.now }
{
    numbers.iter().all(|number| (*number as usize) < bound)
}
