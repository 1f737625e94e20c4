//! Entries of a cache.

ghost use Rattle.std.specs.Prelude.{◌≡◌, ◌↔◌, IsTrue};
ghost use Rattle.mh_pic.specs.Chains.{MayChain};

use mh_base::MOST_NEEDS;
use mh_type::{MethodType, Value};
use std::marker::Model;

/// The greatest number of entries of a chain.
pub const MOST_ENTRIES: usize = 4;

/// An entry of an inline cache (Hölzle, Chambers and Ungar, Optimizing Dynamically-Typed
/// Object-Oriented Languages With Polymorphic Inline Caches, 1991): a key, and the points that its
/// tree needs.
#[derive(Debug, Drop)]
pub struct Entry {
    key: Value,
    needs: Vec<u32>,
}

impl Model for Entry {
    ghost use Rattle.mh_pic.specs.Chains.{PlainEntry};

    ghost Value = { PlainEntry };

    ghost view = { λ e. record { key = e.key; needs = e.needs.items } };
}

impl Entry {
    /// Returns the entry of a key, with the points that must be valid while it is used, ascending.
    pub fn new(key: Value, needs: Vec<u32>) -> Entry
        ensures value { result ≡ record { key = key; needs = needs.items } }
    {
        Entry { key, needs }
    }

    /// Returns the key.
    pub fn key(&self) -> &Value
        ensures value { result.now ≡ self.now.key }
    {
        &self.key
    }

    /// Returns the points that must be valid.
    pub fn needs(&self) -> &[u32]
        ensures value { result.now ≡ self.now.needs }
    {
        self.needs.as_slice()
    }
}

/// Returns whether `chain` may make a cache of these entries over a base of this type: the key
/// position is that of a parameter, there are at most 4 entries, and each has a key of the kind of
/// that parameter and at most 8 needs.
pub fn may_chain(base: &MethodType, key_place: usize, entries: &[Entry]) -> bool
    ensures same { IsTrue result ↔ MayChain base.now key_place entries.now }
{
    if key_place >= base.count() || entries.len() > MOST_ENTRIES {
        return false;
    }
    let kind = base.parameter(key_place);
    for entry in entries {
        if !entry.key().kind().is(kind) || entry.needs().len() > MOST_NEEDS {
            return false;
        }
    }
    true
}
