//! A boxed tree as the pointer that C keeps.

ghost use Rattle.std.specs.Prelude.{◌≡◌, Bool, true, false};
ghost use Rattle.mh_tree.specs.Handle.{TypedTree};
ghost use Rattle.mh_tree.specs.TreeCode.{coded_typed_tree};
ghost use Rattle.mhlink_c.specs.Held.{held};
ghost use Rattle.mhlink_c.specs.contracts.tree.HeldTree as trees;

use crate::tree::HeldTree;
use mh_parts::Parts;
use std::alloc::Global;
use std::marker::Model;
use std::ptr;

/// A tree as C keeps it: a pointer. If non-null, it owns the tree; one that C made is null and owns
/// nothing. Dropping it does not drop the tree.
#[repr(C)]
#[derive(Drop)]
pub struct MhlinkTree {
    at: *mut u8,
    alloc: Global,
    pub ghost full: { Bool },
    pub ghost value: { TypedTree } by { coded_typed_tree },
}

impl Model for MhlinkTree {
    ghost also_owns = { λ l. held trees.the_row l.full l.alloc l.at l.value };
}

impl MhlinkTree {
    /// Returns the handle of a tree.
    pub(crate) fn of(boxed: Box<HeldTree>) -> MhlinkTree
        ensures full { result.full ≡ true }
        ensures value { result.value ≡ boxed.value }
    {
        MhlinkTree::of_parts(Parts::of(boxed))
    }

    /// Returns the tree of a handle.
    pub(crate) fn into_box(self) -> Box<HeldTree>
        requires full { self.full ≡ true }
        ensures value { result.value ≡ self.value }
    {
        self.into_parts().into_box()
    }

    /// Returns a null handle.
    pub(crate) fn hollow(alloc: Global) -> MhlinkTree
        ensures { result.full ≡ false }
    {
        MhlinkTree {
            at: ptr::null_mut(),
            alloc,
        }
    }

    fn of_parts(parts: Parts<HeldTree, Global>) -> MhlinkTree
        ensures { (result.full ≡ true) × (result.value ≡ parts.value) }
    {
        let Parts { ptr, alloc } = parts;
        MhlinkTree {
            at: ptr as *mut u8,
            alloc,
        }
    }

    fn into_parts(self) -> Parts<HeldTree, Global>
        requires { self.full ≡ true }
        ensures { result.value ≡ self.value }
    {
        let MhlinkTree { at, alloc } = self;
        Parts {
            ptr: at as *mut HeldTree,
            alloc,
        }
    }
}
