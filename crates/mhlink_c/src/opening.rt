//! Opening and closing machines.

ghost use Rattle.std.specs.Prelude.{◌≡◌, ◌≢◌, true, IfErr, IfOk};
ghost use Rattle.mhlink_c.specs.Opening.{Opens, RefusesOpening, opened_host};
ghost use Rattle.mhlink_c.specs.Statuses.{part_of, status_of};
ghost use Rattle.mhlink_c.specs.declared.failure.Failure.{Failure as FaultOf};

use crate::failure::Failure;
use crate::handle::MhlinkMachine;
use crate::host::Host;
use crate::texts::MhlinkLimits;
use std::alloc::Global;

/// Returns the version of these functions: 1.
#[unsafe(no_mangle)]
pub extern "C" fn mhlink_version() -> u32
    ensures value { result ≡ 1 }
{
    1
}

/// Opens a machine for a definition in JSON, as a script's `definition`, with 1 to 64 workers, and
/// stores its handle in `machine`.
///
/// Fails if a limit or the number of workers is out of its range, then with the fault of the
/// definition, or for lack of memory; then `machine` is left unmodified, and `part` gets the number
/// of the fault's cause, or 0.
#[unsafe(no_mangle)]
pub extern "C" fn mhlink_open(
    alloc: Global,
    definition: &[u8],
    workers: u32,
    limits: &MhlinkLimits,
    machine: &mut MhlinkMachine,
    part: &mut u64,
) -> u32
    ensures full { result ≡ 0 → machine.new.full ≡ true }
    ensures opened { result ≡ 0 → Opens definition.now workers limits.now
        (λ d. machine.new.value ≡ opened_host d workers limits.now) }
    ensures no_part { result ≡ 0 → part.new ≡ 0 }
    ensures refused { result ≢ 0 → (e : FaultOf) × ((result ≡ status_of e)
        × ((part.new ≡ part_of e) × RefusesOpening definition.now workers limits.now e)) }
    ensures kept { result ≢ 0 → machine.new ≡ machine.old }
{
    match open(alloc, definition, workers, limits) {
        Ok(opened) => {
            *machine = opened;
            *part = 0;
            0
        }
        Err(fault) => {
            *part = fault.part();
            fault.number()
        }
    }
}

fn open(
    alloc: Global,
    definition: &[u8],
    workers: u32,
    limits: &MhlinkLimits,
) -> Result<MhlinkMachine, Failure>
    ensures full { IfOk result (λ machine. machine.full ≡ true) }
    ensures opened { IfOk result (λ machine. Opens definition.now workers limits.now
        (λ d. machine.value ≡ opened_host d workers limits.now)) }
    ensures refused { IfErr result (RefusesOpening definition.now workers limits.now) }
{
    let host = Host::open(alloc, definition, workers, limits)?;
    let boxed = Box::new(alloc, host)?;
    Ok(MhlinkMachine::of(boxed))
}

/// Closes a machine and frees all its memory.
#[unsafe(no_mangle)]
pub extern "C" fn mhlink_close(machine: MhlinkMachine)
    requires full { machine.full ≡ true }
{
    drop(machine.into_box());
}
