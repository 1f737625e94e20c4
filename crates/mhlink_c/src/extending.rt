//! Extensions of machines by further points and sites.

ghost use Rattle.std.specs.Prelude.{◌≡◌, ◌≢◌, true, IfErr, OnErr, OnOk};
ghost use Rattle.mhlink_c.specs.Extensions.{GrowsBy, IsExtended, RefusesExtending, RefusesToGrow};
ghost use Rattle.mhlink_c.specs.Further.{further_in};
ghost use Rattle.mhlink_c.specs.Inputs.{Reads};
ghost use Rattle.mhlink_c.specs.Statuses.{part_of, status_of};
ghost use Rattle.mhlink_c.specs.declared.failure.Failure.{Failure as FaultOf};

use crate::failure::Failure;
use crate::further::{Further, read_further};
use crate::handle::MhlinkMachine;
use crate::host::Host;
use core::mem::replace_with;
use mh_core::{ExtensionFault, Refusal};
use mh_json::InputFault;
use std::alloc::Global;

impl From<ExtensionFault> for Failure {
    ghost use Rattle.std.specs.Prelude.{◌≡◌};
    ghost use Rattle.mhlink_c.specs.Extensions.{of_extension};

    ghost from_gives = { λ told e. e ≡ of_extension told };

    fn from(fault: ExtensionFault) -> Failure {
        match fault {
            ExtensionFault::HistoryFull => Failure::Refused(Refusal::HistoryFull),
            ExtensionFault::Definition(cause) => Failure::from(InputFault::from(cause)),
        }
    }
}

impl Host {
    /// Begins a new history over the current definition with the additions of a text in JSON.
    pub(crate) fn extend(&mut self, alloc: Global, definition: &[u8]) -> Result<(), Failure>
        ensures extended { OnOk result (IsExtended self.old definition.now self.new) }
        ensures refused { IfErr result (RefusesExtending self.old definition.now) }
        ensures kept { OnErr result (self.new ≡ self.old) }
    {
        let further = self.further(alloc, definition)?;
        self.grow(further)?;
        Ok(())
    }

    // Reads the additions of a text in JSON to the definition.
    fn further(&self, alloc: Global, definition: &[u8]) -> Result<Further, Failure>
        ensures value { Reads result (further_in self.now.runtime.book.definition
            definition.now) }
    {
        read_further(alloc, self.runtime.book().definition(), definition)
    }

    // Begins a new history over a definition with these points and sites appended.
    fn grow(&mut self, further: Further) -> Result<(), Failure>
        ensures grows { OnOk result (GrowsBy self.old further self.new) }
        ensures refused { IfErr result (RefusesToGrow self.old further) }
        ensures kept { OnErr result (self.new ≡ self.old) }
    {
        let Further {
            points,
            sites,
            scope,
        } = further;
        // Reading it names the runtime's invariants for the proof, and then those of a book.
        let _book = self.runtime.book();
        self.runtime.extend(points, sites)?;
        self.runtime.book().kept();
        self.scope = scope;
        Ok(())
    }
}

fn extend_held(
    machine: MhlinkMachine,
    given: (Global, &[u8]),
) -> (MhlinkMachine, Result<(), Failure>)
    requires full { machine.full ≡ true }
    ensures full { result.0.full ≡ true }
    ensures extended { OnOk result.1 (IsExtended machine.value given.entry.1.now
        result.0.value) }
    ensures refused { IfErr result.1 (RefusesExtending machine.value given.entry.1.now) }
    ensures kept { OnErr result.1 (result.0.value ≡ machine.value) }
{
    let mut host = machine.into_box();
    let (alloc, definition) = given;
    let answer = host.extend(alloc, definition);
    (MhlinkMachine::of(host), answer)
}

/// Appends points and sites to a machine's definition, and begins a new history, as `mhlink_renew`
/// does. The text has the keys `points`, `sites` and, optionally, `shared`, as a definition of
/// version 2. Its trees may name and invoke the machine's points and sites, and its sites those
/// before them. Later trees may name the shared trees of this text, and no earlier ones.
///
/// The handle, names, and the numbers of sites, points and links stay, each site's calls mean what
/// they meant, the same points are valid, and the new ones are valid. All hits are kept, and
/// unflushed ones stay unflushed. No site holds a link, and snapshots and plans are numbered from 1
/// again. The text of the last call stays.
///
/// Fails as `mhlink_open` does for the text, then if the limit of the history does not exceed the
/// number of workers, then with the fault of the longer definition, or if memory runs out. `part`
/// gets the number of the fault's cause, or 0.
#[unsafe(no_mangle)]
pub extern "C" fn mhlink_extend(
    alloc: Global,
    machine: &mut MhlinkMachine,
    definition: &[u8],
    part: &mut u64,
) -> u32
    requires full { machine.old.full ≡ true }
    ensures full { machine.new.full ≡ true }
    ensures extended { result ≡ 0
        → IsExtended machine.old.value definition.now machine.new.value }
    ensures no_part { result ≡ 0 → part.new ≡ 0 }
    ensures refused { result ≢ 0 → (e : FaultOf) × ((result ≡ status_of e)
        × ((part.new ≡ part_of e) × RefusesExtending machine.old.value definition.now e)) }
    ensures kept { result ≢ 0 → machine.new.value ≡ machine.old.value }
{
    match replace_with(machine, (alloc, definition), extend_held) {
        Ok(()) => {
            *part = 0;
            0
        }
        Err(fault) => {
            *part = fault.part();
            fault.number()
        }
    }
}
