//! Names by number, in the order of their first appearance.

ghost use Rattle.std.specs.Prelude.{◌≡◌, [], IfOk, IfSome, IsSomeAnd, OnOk, OnErr};
ghost use Rattle.std.specs.List.{list_any};
ghost use Rattle.std.specs.Str.{bytes_eq};
ghost use Rattle.mh_site.specs.NamesInOrder.{place_of, with_name};

use indexmap::IndexSet;
use std::alloc::{AllocError, Global};
use std::marker::Model;

/// Names in the order of their first appearance.
#[derive(Drop)]
pub struct Names {
    alloc: Global,
    set: IndexSet<String>,
}

impl Model for Names {
    ghost use Rattle.std.specs.Prelude.{List, ℕ, string_bytes, map};

    ghost Value = { List (List ℕ) };

    ghost view = { λ a. map string_bytes a.set.keys };
}

impl Names {
    /// Returns the empty list of names.
    pub fn new(alloc: Global) -> Names
        ensures value { result ≡ [] }
    {
        Names {
            alloc,
            set: IndexSet::new(alloc),
        }
    }

    /// Adds a name at the end, unless it is present. If an allocation is refused, nothing changes.
    pub fn add(&mut self, name: &str) -> Result<(), AllocError>
        ensures ok { OnOk result (self.new ≡ with_name self.old name.now) }
        ensures err { OnErr result (self.new ≡ self.old) }
    {
        let name = String::from_str(self.alloc, name)?;
        self.set.insert_full(name)?;
        Ok(())
    }

    /// Returns whether the name is present.
    pub fn contains(&self, name: &str) -> bool
        ensures value { result ≡ list_any (bytes_eq name.now) self.now }
    {
        self.set.contains(name)
    }

    /// Returns the number of a name, or the number of names if it is not present.
    pub fn place(&self, name: &str) -> usize
        ensures value { result ≡ place_of self.now name.now }
    {
        self.set.get_index_of(name).unwrap_or(self.set.len())
    }
}

/// Returns the table with one more name, or `None` if an allocation was refused, now or before.
pub(crate) fn with_one_more(names: Option<Names>, name: &str) -> Option<Names>
    ensures value { IfSome result (λ after. IsSomeAnd names
        (λ before. after ≡ with_name before name.now)) }
{
    let mut names = names?;
    names.add(name).ok()?;
    Some(names)
}
