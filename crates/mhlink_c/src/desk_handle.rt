//! A boxed desk as the pointer that C keeps.

ghost use Rattle.std.specs.Prelude.{◌≡◌, Bool, true, false};
ghost use Rattle.mhlink_c.specs.Desks.{HeldDeskState, coded_held_desk};
ghost use Rattle.mhlink_c.specs.Held.{held};
ghost use Rattle.mhlink_c.specs.contracts.desk.HeldDesk as desks;

use crate::desk::HeldDesk;
use mh_parts::Parts;
use std::alloc::Global;
use std::marker::Model;
use std::ptr;

/// A desk as C keeps it: a pointer. If non-null, it owns the desk; one that C made is null and owns
/// nothing. Dropping it does not drop the desk.
#[repr(C)]
#[derive(Drop)]
pub struct MhlinkDesk {
    at: *mut u8,
    alloc: Global,
    pub ghost full: { Bool },
    pub ghost value: { HeldDeskState } by { coded_held_desk },
}

impl Model for MhlinkDesk {
    ghost also_owns = { λ l. held desks.the_row l.full l.alloc l.at l.value };
}

impl MhlinkDesk {
    /// Returns the handle of a desk.
    pub(crate) fn of(boxed: Box<HeldDesk>) -> MhlinkDesk
        ensures full { result.full ≡ true }
        ensures value { result.value ≡ boxed.value }
    {
        MhlinkDesk::of_parts(Parts::of(boxed))
    }

    /// Returns the desk of a handle.
    pub(crate) fn into_box(self) -> Box<HeldDesk>
        requires full { self.full ≡ true }
        ensures value { result.value ≡ self.value }
    {
        self.into_parts().into_box()
    }

    /// Returns a null handle.
    pub(crate) fn hollow(alloc: Global) -> MhlinkDesk
        ensures { result.full ≡ false }
    {
        MhlinkDesk {
            at: ptr::null_mut(),
            alloc,
        }
    }

    fn of_parts(parts: Parts<HeldDesk, Global>) -> MhlinkDesk
        ensures { (result.full ≡ true) × (result.value ≡ parts.value) }
    {
        let Parts { ptr, alloc } = parts;
        MhlinkDesk {
            at: ptr as *mut u8,
            alloc,
        }
    }

    fn into_parts(self) -> Parts<HeldDesk, Global>
        requires { self.full ≡ true }
        ensures { result.value ≡ self.value }
    {
        let MhlinkDesk { at, alloc } = self;
        Parts {
            ptr: at as *mut HeldDesk,
            alloc,
        }
    }
}
