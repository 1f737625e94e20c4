//! Lists that contracts see as the list of their items.

ghost use Rattle.std.specs.Prelude.{◌≡◌, ◌∷◌, ◌++◌, [], List, length, IfOk, OnOk, OnErr};

use crate::memory::NoMemory;
use std::alloc::AllocFailed;
use std::marker::Model;

/// Values in order. It is made from a `Vec`, and can be converted back without allocating.
#[derive(Debug, Drop)]
pub struct Listing<T> {
    /// The items.
    pub items: Vec<T>,
}

impl<T> Model for Listing<T> {
    ghost use Rattle.std.specs.Prelude.{List};

    ghost Value = { List T };

    ghost view = { λ a. a.items.items };
}

impl<T> Listing<T> {
    /// Returns the listing of the items. It copies nothing.
    pub fn from_vec(items: Vec<T>) -> Listing<T>
        ensures value { result ≡ items.items }
    {
        Listing { items }
    }

    /// Returns the items. It copies nothing.
    pub fn into_vec(self) -> Vec<T>
        ensures value { result.items ≡ self }
    {
        let Listing { items } = self;
        items
    }

    /// Appends an item.
    pub fn push(&mut self, item: T) -> Result<(), AllocFailed<T>>
        ensures value { OnOk result (self.new ≡ self.old ++ item ∷ []) }
        ensures refused { OnErr result (self.new ≡ self.old) }
    {
        self.items.push(item)
    }

    /// Returns the items.
    pub fn as_slice(&self) -> &[T]
        ensures value { result.now ≡ self.now }
    {
        self.items.as_slice()
    }

    /// Returns the number of items.
    pub fn len(&self) -> usize
        ensures value { result ≡ length self.now }
    {
        self.items.len()
    }
}

impl Listing<u32> {
    /// Returns a copy of the numbers, in new memory.
    pub fn copy(&self) -> Result<Listing<u32>, NoMemory>
        ensures value { IfOk result (λ copied. copied ≡ self.now) }
    {
        let alloc = *self.items.allocator();
        let items = self.items.to_vec(alloc)?;
        Ok(Listing { items })
    }
}
