//! Finds the place of a word in a table.

ghost use Rattle.std.specs.Prelude.{◌≡◌, ◌≢◌, ◌<◌, ◌^◌, ◌+ℤ◌, ℕ, pos, IfSome, IfNone};

// Returns the index of a word among the `count` keys from `least` on, or `None` if it is not one of
// them.
#[inline(always)]
pub(crate) fn place_in(word: i64, least: i64, count: usize) -> Option<usize>
    ensures found { IfSome result (λ i. (i < count) × (word ≡ least +ℤ pos i)) }
    ensures missing { IfNone result ((i : ℕ) → i < count → i < 2 ^ 63 → word ≢ least +ℤ pos i) }
{
    if word < least {
        return None;
    }
    let place = word.abs_diff(least) as usize;
    if place < count { Some(place) } else { None }
}
