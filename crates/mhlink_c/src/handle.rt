//! A boxed host as the pointer that C keeps.

ghost use Rattle.std.specs.Prelude.{◌≡◌, Bool, true};
ghost use Rattle.mhlink_c.specs.Hosts.{HostState, coded_host};
ghost use Rattle.mhlink_c.specs.Held.{held};
ghost use Rattle.mhlink_c.specs.contracts.host.Host as hosts;

use crate::host::Host;
use mh_parts::Parts;
use std::alloc::Global;
use std::marker::Model;

/// A machine as C keeps it: a pointer. If non-null, it owns the machine; one that C made is null
/// and owns nothing. Dropping it does not drop the machine.
#[repr(C)]
#[derive(Drop)]
pub struct MhlinkMachine {
    at: *mut u8,
    alloc: Global,
    pub ghost full: { Bool },
    pub ghost value: { HostState } by { coded_host },
}

impl Model for MhlinkMachine {
    ghost also_owns = { λ l. held hosts.the_row l.full l.alloc l.at l.value };
}

impl MhlinkMachine {
    /// Returns the handle of a host.
    pub(crate) fn of(boxed: Box<Host>) -> MhlinkMachine
        ensures full { result.full ≡ true }
        ensures value { result.value ≡ boxed.value }
    {
        MhlinkMachine::of_parts(Parts::of(boxed))
    }

    /// Returns the host of a handle.
    pub(crate) fn into_box(self) -> Box<Host>
        requires full { self.full ≡ true }
        ensures value { result.value ≡ self.value }
    {
        self.into_parts().into_box()
    }

    fn of_parts(parts: Parts<Host, Global>) -> MhlinkMachine
        ensures { (result.full ≡ true) × (result.value ≡ parts.value) }
    {
        let Parts { ptr, alloc } = parts;
        MhlinkMachine {
            at: ptr as *mut u8,
            alloc,
        }
    }

    fn into_parts(self) -> Parts<Host, Global>
        requires { self.full ≡ true }
        ensures { result.value ≡ self.value }
    {
        let MhlinkMachine { at, alloc } = self;
        Parts {
            ptr: at as *mut Host,
            alloc,
        }
    }
}
