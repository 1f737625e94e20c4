//! A boxed caller as the pointer that C keeps.

ghost use Rattle.std.specs.Prelude.{◌≡◌, Bool, true, false};
ghost use Rattle.mhlink_c.specs.Callers.{HeldCallerState, coded_held_caller};
ghost use Rattle.mhlink_c.specs.Held.{held};
ghost use Rattle.mhlink_c.specs.contracts.caller.HeldCaller as callers;

use crate::caller::HeldCaller;
use mh_parts::Parts;
use std::alloc::Global;
use std::marker::Model;
use std::ptr;

/// A caller as C keeps it: a pointer. If non-null, it owns the caller; one that C made is null and
/// owns nothing. Dropping it does not drop the caller.
#[repr(C)]
#[derive(Drop)]
pub struct MhlinkCaller {
    at: *mut u8,
    alloc: Global,
    pub ghost full: { Bool },
    pub ghost value: { HeldCallerState } by { coded_held_caller },
}

impl Model for MhlinkCaller {
    ghost also_owns = { λ l. held callers.the_row l.full l.alloc l.at l.value };
}

impl MhlinkCaller {
    /// Returns the handle of a caller.
    pub(crate) fn of(boxed: Box<HeldCaller>) -> MhlinkCaller
        ensures full { result.full ≡ true }
        ensures value { result.value ≡ boxed.value }
    {
        MhlinkCaller::of_parts(Parts::of(boxed))
    }

    /// Returns the caller of a handle.
    pub(crate) fn into_box(self) -> Box<HeldCaller>
        requires full { self.full ≡ true }
        ensures value { result.value ≡ self.value }
    {
        self.into_parts().into_box()
    }

    /// Returns a null handle.
    pub(crate) fn hollow(alloc: Global) -> MhlinkCaller
        ensures { result.full ≡ false }
    {
        MhlinkCaller {
            at: ptr::null_mut(),
            alloc,
        }
    }

    fn of_parts(parts: Parts<HeldCaller, Global>) -> MhlinkCaller
        ensures { (result.full ≡ true) × (result.value ≡ parts.value) }
    {
        let Parts { ptr, alloc } = parts;
        MhlinkCaller {
            at: ptr as *mut u8,
            alloc,
        }
    }

    fn into_parts(self) -> Parts<HeldCaller, Global>
        requires { self.full ≡ true }
        ensures { result.value ≡ self.value }
    {
        let MhlinkCaller { at, alloc } = self;
        Parts {
            ptr: at as *mut HeldCaller,
            alloc,
        }
    }
}
