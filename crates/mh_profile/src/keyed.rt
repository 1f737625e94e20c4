//! Items that are listed in the order of a number.
ghost use Rattle.std.specs.Prelude.{◌≡◌, ◌==◌, filter};
ghost use Rattle.std.specs.List.Sorted.{IsNonDecreasingBy};

/// An item with the number by which it is listed.
pub(crate) trait Keyed {
    ghost key: { Self → ℕ };

    ghost use Rattle.std.specs.Prelude.{ℕ};

    /// The number.
    fn key(&self) -> u32
        ensures value { result ≡ key self.now };
}

impl Keyed for u32 {
    ghost key = { λ x. x };

    fn key(&self) -> u32 {
        *self
    }
}

impl Keyed for (u32, u64) {
    ghost key = { λ x. x.0 };

    fn key(&self) -> u32 {
        self.0
    }
}

impl Keyed for (u32, u32, u64) {
    ghost key = { λ x. x.0 };

    fn key(&self) -> u32 {
        self.0
    }
}

/// Returns the items of one number, which are adjacent. O(log items).
pub(crate) fn run_of<T: Keyed>(items: &[T], key: u32) -> &[T]
    requires ordered { IsNonDecreasingBy T.key items.now }
    ensures value { result.now ≡ filter (λ x. T.key x == key) items.now }
{
    let start = items.partition_point(|item| item.key() < key);
    let rest = &items[start..];
    let end = rest.partition_point(|item| item.key() <= key);
    &rest[..end]
}
