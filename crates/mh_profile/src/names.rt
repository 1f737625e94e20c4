//! The names of points and links, by number.
ghost use Rattle.std.specs.Prelude.{◌≡◌, ◌<◌, ◌≤◌, ◌++◌, ◌∷◌, [], length, slice_index_or, IfOk, OnOk, OnErr, MatchOption, false};
ghost use Rattle.std.specs.List.{list_any, position_or_len};
ghost use Rattle.std.specs.Str.{bytes_eq};
ghost use Rattle.mh_network.specs.Limits.{greatest_count};

use indexmap::IndexSet;
use std::alloc::{AllocError, Global};
use std::marker::Model;

/// The names of points, all different, in the order of their lines: at most 1,048,576.
#[derive(Drop)]
pub struct PointNames {
    alloc: Global,
    set: IndexSet<String>,
}

impl Model for PointNames {
    ghost use Rattle.std.specs.Prelude.{List, ℕ, ◌≤◌, length, string_bytes, map};
    ghost use Rattle.mh_network.specs.Limits.{greatest_count};

    ghost Value = { List (List ℕ) };

    ghost view = { λ a. map string_bytes a.set.keys };

    ghost invariant = { λ a. length a.set.keys ≤ greatest_count };
}

impl PointNames {
    /// Returns an empty list of names.
    pub fn new(alloc: Global) -> PointNames
        ensures value { result ≡ [] }
    {
        PointNames {
            alloc,
            set: IndexSet::new(alloc),
        }
    }

    /// Returns the number of names.
    pub fn len(&self) -> usize
        ensures value { result ≡ length self.now }
        ensures few { result ≤ greatest_count }
    {
        self.set.len()
    }

    /// Returns whether a name is among them.
    pub fn contains(&self, name: &str) -> bool
        ensures value { result ≡ list_any (bytes_eq name.now) self.now }
    {
        self.set.contains(name)
    }

    /// Appends a name that is not among them. If an allocation is refused, nothing changes.
    pub fn push(&mut self, name: &str) -> Result<(), AllocError>
        requires new { list_any (bytes_eq name.now) self.old ≡ false }
        requires few { length self.old < greatest_count }
        ensures ok { OnOk result (self.new ≡ self.old ++ name.now ∷ []) }
        ensures err { OnErr result (self.new ≡ self.old) }
    {
        let name = String::from_str(self.alloc, name)?;
        self.set.insert_full(name)?;
        Ok(())
    }

    /// Returns the number of a name, or the number of names if it is not among them.
    pub fn place(&self, name: &str) -> usize
        ensures value { result ≡ position_or_len (bytes_eq name.now) self.now }
        ensures few { result ≤ greatest_count }
    {
        self.set.get_index_of(name).unwrap_or(self.set.len())
    }

    /// Returns the name of a point, or an empty text if the point does not exist.
    pub fn name(&self, point: usize) -> &str
        ensures value { result.now ≡ slice_index_or self.now point [] }
    {
        match self.set.get_index(point) {
            Some(name) => name.as_str(),
            None => "",
        }
    }
}

/// The names of links, in the order of their lines. Two links may have the same name.
#[derive(Drop)]
pub struct LinkNames {
    names: Vec<String>,
}

impl Model for LinkNames {
    ghost use Rattle.std.specs.Prelude.{List, ℕ, string_bytes, map};

    ghost Value = { List (List ℕ) };

    ghost view = { λ a. map string_bytes a.names.items };
}

impl LinkNames {
    /// Returns an empty list of names.
    pub fn new(alloc: Global) -> LinkNames
        ensures value { result ≡ [] }
    {
        LinkNames {
            names: Vec::new(alloc),
        }
    }

    /// Appends a name. If an allocation is refused, nothing changes.
    pub fn push(&mut self, name: &str) -> Result<(), AllocError>
        ensures ok { OnOk result (self.new ≡ self.old ++ name.now ∷ []) }
        ensures err { OnErr result (self.new ≡ self.old) }
    {
        let alloc = *self.names.allocator();
        let name = String::from_str(alloc, name)?;
        self.names.push(name)?;
        Ok(())
    }

    /// Returns the name of a link, or an empty text if the link does not exist.
    pub fn name(&self, link: usize) -> &str
        ensures value { result.now ≡ slice_index_or self.now link [] }
    {
        match self.names.get(link) {
            Some(name) => name.as_str(),
            None => "",
        }
    }
}
