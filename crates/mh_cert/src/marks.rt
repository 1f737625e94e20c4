//! Sets of numbers as marks.

ghost use Rattle.std.specs.Prelude.{◌≡◌, ◌<◌, ◌||◌, ◌↔◌, ℕ, All, IsTrue, length, slice_index_or, false};
ghost use Rattle.mh_network.specs.Selection.{member};

// Marks these numbers.
pub(crate) fn mark(marks: &mut Vec<bool>, numbers: &[u32])
    requires inside { All (λ p. p < length marks.old.items) numbers.now }
    ensures count { length marks.new.items ≡ length marks.old.items }
    ensures marked { (p : ℕ) → slice_index_or marks.new.items p false
        ≡ (slice_index_or marks.old.items p false || member numbers.now p) }
{
    for number in numbers {
        marks[*number as usize] = true;
    }
}

// Returns whether both mark the same numbers.
pub(crate) fn mark_the_same(one: &[bool], other: &[bool]) -> bool
    requires lengths { length one.now ≡ length other.now }
    ensures value { IsTrue result ↔ ((p : ℕ) → slice_index_or one.now p false
        ≡ slice_index_or other.now p false) }
{
    for at in 0..one.len() {
        if one[at] != other[at] {
            return false;
        }
    }
    true
}
