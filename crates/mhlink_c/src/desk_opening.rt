//! Opening desks with their callers, and closing them.

ghost use Rattle.std.specs.Prelude.{◌≡◌, ◌≢◌, ◌≤◌, length, map, true, IfErr, IfOk, OnErr, OnOk};
ghost use Rattle.std.specs.List.{All};
ghost use Rattle.mh_share.specs.Desks.{opened_callers};
ghost use Rattle.mhlink_c.specs.Callers.{HeldCallerState, opened_held_caller};
ghost use Rattle.mhlink_c.specs.Desks.{HeldDeskState, opened_held_desk};
ghost use Rattle.mhlink_c.specs.Handles.{AreHandlesOf};
ghost use Rattle.mhlink_c.specs.Opening.{Opens, RefusesOpening, limits_of};
ghost use Rattle.mhlink_c.specs.Statuses.{no_memory, part_of, status_of};
ghost use Rattle.mhlink_c.specs.declared.failure.Failure.{Failure as FaultOf};

use crate::caller::HeldCaller;
use crate::caller_handle::MhlinkCaller;
use crate::desk::HeldDesk;
use crate::desk_handle::MhlinkDesk;
use crate::failure::Failure;
use crate::texts::MhlinkLimits;
use mh_share::Caller;
use std::alloc::Global;

/// Opens a desk for a definition in JSON, as `mhlink_open` opens a machine, and stores its handle
/// in `desk`, and in `callers` the handle of a caller for each worker, 1 to 64, in order.
///
/// Fails as `mhlink_open` does; then `desk` and `callers` are left unmodified, and `part` gets the
/// number of the fault's cause, or 0.
#[unsafe(no_mangle)]
pub extern "C" fn mhlink_desk_open(
    alloc: Global,
    definition: &[u8],
    limits: &MhlinkLimits,
    callers: &mut [MhlinkCaller],
    desk: &mut MhlinkDesk,
    part: &mut u64,
) -> u32
    ensures full { result ≡ 0 → desk.new.full ≡ true }
    ensures opened { result ≡ 0 → Opens definition.now (length callers.old) limits.now
        (λ d. (desk.new.value ≡ opened_held_desk d (length callers.old) limits.now)
        × AreHandlesOf callers.new (map opened_held_caller
        (opened_callers d.definition (length callers.old) (limits_of limits.now)))) }
    ensures no_part { result ≡ 0 → part.new ≡ 0 }
    ensures refused { result ≢ 0 → (e : FaultOf) × ((result ≡ status_of e)
        × ((part.new ≡ part_of e)
        × RefusesOpening definition.now (length callers.old) limits.now e)) }
    ensures kept { result ≢ 0 → (desk.new ≡ desk.old) × (callers.new ≡ callers.old) }
{
    match open(alloc, definition, limits, callers) {
        Ok(opened) => {
            *desk = opened;
            *part = 0;
            0
        }
        Err(fault) => {
            *part = fault.part();
            fault.number()
        }
    }
}

// The handle of a desk, and those of its callers.
fn open(
    alloc: Global,
    definition: &[u8],
    limits: &MhlinkLimits,
    callers: &mut [MhlinkCaller],
) -> Result<MhlinkDesk, Failure>
    ensures full { IfOk result (λ desk. desk.full ≡ true) }
    ensures opened { IfOk result (λ desk. Opens definition.now (length callers.old) limits.now
        (λ d. (desk.value ≡ opened_held_desk d (length callers.old) limits.now)
        × AreHandlesOf callers.new (map opened_held_caller
        (opened_callers d.definition (length callers.old) (limits_of limits.now))))) }
    ensures refused { IfErr result
        (RefusesOpening definition.now (length callers.old) limits.now) }
    ensures kept { OnErr result (callers.new ≡ callers.old) }
{
    let (held, opened) = HeldDesk::open(alloc, definition, callers.len(), limits)?;
    let boxed = boxed(alloc, opened)?;
    let desk = Box::new(alloc, held)?;
    hand_out(boxed, callers);
    Ok(MhlinkDesk::of(desk))
}

// Boxes each caller, in order.
fn boxed(alloc: Global, callers: Vec<Caller>) -> Result<Vec<Box<HeldCaller>>, Failure>
    ensures value { IfOk result (λ boxed. map (λ b. b.value) boxed.items
        ≡ map opened_held_caller callers.items) }
    ensures refused { IfErr result (λ e. e ≡ no_memory) }
{
    let mut boxed = Vec::new(alloc);
    for caller in callers {
        let held = HeldCaller::over(alloc, caller)?;
        boxed.push(Box::new(alloc, held)?)?;
    }
    Ok(boxed)
}

// Returns the handles of boxed callers, in order.
fn hand_out(boxed: Vec<Box<HeldCaller>>, handles: &mut [MhlinkCaller])
    requires each { length boxed.items ≡ length handles.old }
    ensures handles { AreHandlesOf handles.new (map (λ b. b.value) boxed.items) }
{
    let mut place = 0;
    for held in boxed {
        handles[place] = MhlinkCaller::of(held);
        place += 1;
    }
}

/// Closes a desk and frees all memory that no caller shares. Its callers keep the states of their
/// last looks.
#[unsafe(no_mangle)]
pub extern "C" fn mhlink_desk_close(desk: MhlinkDesk)
    requires full { desk.full ≡ true }
{
    drop(desk.into_box());
}

/// Closes a caller and frees all memory that nothing else shares. Its unflushed hits are lost.
#[unsafe(no_mangle)]
pub extern "C" fn mhlink_caller_close(caller: MhlinkCaller)
    requires full { caller.full ≡ true }
{
    drop(caller.into_box());
}
