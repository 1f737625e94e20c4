//! Changes of a machine other than calls.

ghost use Rattle.std.specs.Prelude.{◌≡◌, ◌≢◌, true, IfErr, OnErr, OnOk};
ghost use Rattle.mh_core.specs.declared.record.Record.TheVariants.{Invalidated, Snapped, Installed};
ghost use Rattle.mhlink_c.specs.Changes.{Installs, PublishesBest, PublishesOffer, RefusesBest, RefusesInvalidation, RefusesOffer, RefusesRecord, RefusesTarget, Retargets, TakesSnapshot};
ghost use Rattle.mhlink_c.specs.Hosts.{Flushes, Records, RefusesToFlush};
ghost use Rattle.mhlink_c.specs.Statuses.{part_of, status_of};
ghost use Rattle.mhlink_c.specs.declared.failure.Failure.{Failure as FaultOf};

use crate::failure::{Failure, status};
use crate::handle::MhlinkMachine;
use crate::held::make_change;
use crate::request::Change;
use core::mem::replace_with;
use std::alloc::Global;

fn flush_held(machine: MhlinkMachine, worker: u32) -> (MhlinkMachine, Result<(), Failure>)
    requires full { machine.full ≡ true }
    ensures full { result.0.full ≡ true }
    ensures flushed { OnOk result.1 (Flushes machine.value worker result.0.value) }
    ensures refused { IfErr result.1 (RefusesToFlush machine.value worker) }
    ensures kept { OnErr result.1 (result.0.value ≡ machine.value) }
{
    let mut host = machine.into_box();
    let answer = host.flush(worker);
    (MhlinkMachine::of(host), answer)
}

/// Adds the hits of a worker since its last flush to the totals.
#[unsafe(no_mangle)]
pub extern "C" fn mhlink_flush(machine: &mut MhlinkMachine, worker: u32) -> u32
    requires full { machine.old.full ≡ true }
    ensures full { machine.new.full ≡ true }
    ensures flushed { result ≡ 0 → Flushes machine.old.value worker machine.new.value }
    ensures refused { result ≢ 0 → (e : FaultOf) × ((result ≡ status_of e)
        × RefusesToFlush machine.old.value worker e) }
    ensures kept { result ≢ 0 → machine.new.value ≡ machine.old.value }
{
    status(replace_with(machine, worker, flush_held))
}

/// Replaces the tree of a site by a tree in JSON, over the points, the shared trees and the sites
/// of the definition.
///
/// Fails with `NoSite` if there is no such site, then with the fault of the text, and then as the
/// runtime rejects the tree. `part` gets the number of the fault's cause, or 0.
#[unsafe(no_mangle)]
pub extern "C" fn mhlink_target(
    alloc: Global,
    machine: &mut MhlinkMachine,
    site: usize,
    tree: &[u8],
    part: &mut u64,
) -> u32
    requires full { machine.old.full ≡ true }
    ensures full { machine.new.full ≡ true }
    ensures taken { result ≡ 0 → Retargets (Records machine.old.value machine.new.value)
        machine.old.value.scope site tree.now }
    ensures no_part { result ≡ 0 → part.new ≡ 0 }
    ensures refused { result ≢ 0 → (e : FaultOf) × ((result ≡ status_of e)
        × ((part.new ≡ part_of e)
        × RefusesTarget machine.old.value.runtime.book machine.old.value.scope site tree.now e)) }
    ensures kept { result ≢ 0 → machine.new.value ≡ machine.old.value }
{
    let mut nothing = 0;
    make_change(
        alloc,
        machine,
        Change::Target { site, tree },
        &mut nothing,
        part,
    )
}

/// Invalidates points together and for good.
#[unsafe(no_mangle)]
pub extern "C" fn mhlink_invalidate(
    alloc: Global,
    machine: &mut MhlinkMachine,
    points: &[u32],
) -> u32
    requires full { machine.old.full ≡ true }
    ensures full { machine.new.full ≡ true }
    ensures taken { result ≡ 0 → Records machine.old.value machine.new.value
        (Invalidated points.now) }
    ensures refused { result ≢ 0 → (e : FaultOf) × ((result ≡ status_of e)
        × RefusesInvalidation machine.old.value.runtime.book points.now e) }
    ensures kept { result ≢ 0 → machine.new.value ≡ machine.old.value }
{
    let (mut nothing, mut part) = (0, 0);
    make_change(
        alloc,
        machine,
        Change::Invalidate(points),
        &mut nothing,
        &mut part,
    )
}

/// Takes a snapshot of the totals and stores its number, from 1.
#[unsafe(no_mangle)]
pub extern "C" fn mhlink_snapshot(
    alloc: Global,
    machine: &mut MhlinkMachine,
    number: &mut u64,
) -> u32
    requires full { machine.old.full ≡ true }
    ensures full { machine.new.full ≡ true }
    ensures taken { result ≡ 0 → TakesSnapshot (Records machine.old.value machine.new.value)
        machine.old.value.runtime.book number.new }
    ensures refused { result ≢ 0 → (e : FaultOf) × ((result ≡ status_of e)
        × RefusesRecord machine.old.value.runtime.book Snapped e) }
    ensures kept { result ≢ 0 → machine.new.value ≡ machine.old.value }
    ensures untouched { result ≢ 0 → number.new ≡ number.old }
{
    let mut part = 0;
    make_change(alloc, machine, Change::Snapshot, number, &mut part)
}

/// Computes the optimal plan for a snapshot with the fewest links, publishes it, and stores its
/// number, from 1.
#[unsafe(no_mangle)]
pub extern "C" fn mhlink_plan(
    alloc: Global,
    machine: &mut MhlinkMachine,
    snapshot: usize,
    number: &mut u64,
) -> u32
    requires full { machine.old.full ≡ true }
    ensures full { machine.new.full ≡ true }
    ensures taken { result ≡ 0 → PublishesBest (Records machine.old.value machine.new.value)
        machine.old.value.runtime.book snapshot number.new }
    ensures refused { result ≢ 0 → (e : FaultOf) × ((result ≡ status_of e)
        × RefusesBest machine.old.value.runtime.book snapshot e) }
    ensures kept { result ≢ 0 → machine.new.value ≡ machine.old.value }
    ensures untouched { result ≢ 0 → number.new ≡ number.old }
{
    let mut part = 0;
    make_change(alloc, machine, Change::Plan(snapshot), number, &mut part)
}

/// Publishes the caller's plan for a snapshot, in JSON, if the checker accepts it, and stores its
/// number. `part` gets the number of the fault's cause, as the checker's test that failed, or 0.
#[unsafe(no_mangle)]
pub extern "C" fn mhlink_offer(
    alloc: Global,
    machine: &mut MhlinkMachine,
    snapshot: usize,
    plan: &[u8],
    number: &mut u64,
    part: &mut u64,
) -> u32
    requires full { machine.old.full ≡ true }
    ensures full { machine.new.full ≡ true }
    ensures taken { result ≡ 0 → PublishesOffer (Records machine.old.value machine.new.value)
        machine.old.value.runtime.book snapshot plan.now number.new }
    ensures no_part { result ≡ 0 → part.new ≡ 0 }
    ensures refused { result ≢ 0 → (e : FaultOf) × ((result ≡ status_of e)
        × ((part.new ≡ part_of e)
        × RefusesOffer machine.old.value.runtime.book snapshot plan.now e)) }
    ensures kept { result ≢ 0 → machine.new.value ≡ machine.old.value }
    ensures untouched { result ≢ 0 → number.new ≡ number.old }
{
    make_change(
        alloc,
        machine,
        Change::Offer { snapshot, plan },
        number,
        part,
    )
}

/// Installs the newest plan and stores the number of sites that it links. `part` gets the number of
/// the newest plan if `plan` is another one, or 0.
#[unsafe(no_mangle)]
pub extern "C" fn mhlink_install(
    alloc: Global,
    machine: &mut MhlinkMachine,
    plan: usize,
    linked: &mut u64,
    part: &mut u64,
) -> u32
    requires full { machine.old.full ≡ true }
    ensures full { machine.new.full ≡ true }
    ensures taken { result ≡ 0 → Installs (Records machine.old.value machine.new.value)
        machine.old.value.runtime.book plan linked.new }
    ensures no_part { result ≡ 0 → part.new ≡ 0 }
    ensures refused { result ≢ 0 → (e : FaultOf) × ((result ≡ status_of e)
        × ((part.new ≡ part_of e)
        × RefusesRecord machine.old.value.runtime.book (Installed plan) e)) }
    ensures kept { result ≢ 0 → machine.new.value ≡ machine.old.value }
    ensures untouched { result ≢ 0 → linked.new ≡ linked.old }
{
    make_change(alloc, machine, Change::Install(plan), linked, part)
}
