//! Trees that C reads once and gives to any number of sites.

ghost use Rattle.std.specs.Prelude.{◌≡◌, ◌≢◌, ◌⊎◌, Ok, Err, true, IfErr, IfOk, OnErr, OnOk};
ghost use Rattle.mh_core.specs.declared.record.Record.TheVariants.{Targeted};
ghost use Rattle.mhlink_c.specs.Changes.{RefusesTargetTree};
ghost use Rattle.mhlink_c.specs.Desks.{DeskRecords};
ghost use Rattle.mhlink_c.specs.Hosts.{Records};
ghost use Rattle.mhlink_c.specs.Inputs.{IsFaultOf, tree_in};
ghost use Rattle.mhlink_c.specs.Statuses.{part_of, status_of};
ghost use Rattle.mhlink_c.specs.declared.failure.Failure.{Failure as FaultOf};

use crate::desk::HeldDesk;
use crate::desk_handle::MhlinkDesk;
use crate::failure::{Failure, write_part};
use crate::handle::MhlinkMachine;
use crate::host::Host;
use crate::tree::HeldTree;
use crate::tree_handle::MhlinkTree;
use core::mem::{replace, replace_with};
use std::alloc::Global;

fn read_held(
    machine: MhlinkMachine,
    asked: (Global, &[u8]),
) -> (MhlinkMachine, Result<Box<HeldTree>, Failure>)
    requires full { machine.full ≡ true }
    ensures full { result.0.full ≡ true }
    ensures same { result.0.value ≡ machine.value }
    ensures value { IfOk result.1 (λ t. tree_in machine.value.scope asked.entry.1.now
        ≡ Ok t.value) }
    ensures refused { IfErr result.1 (IsFaultOf (tree_in machine.value.scope asked.entry.1.now)) }
{
    let host = machine.into_box();
    let (alloc, text) = asked;
    let tree = HeldTree::read(alloc, &host.scope, text);
    (MhlinkMachine::of(host), tree)
}

// Writes the handle of a tree, if there is one, and otherwise the detail of the fault.
fn write_tree(answer: Result<Box<HeldTree>, Failure>, tree: &mut MhlinkTree, part: &mut u64) -> u32
    ensures ok { OnOk answer (result ≡ 0) }
    ensures value { IfOk answer (λ t. (tree.new.full ≡ true) × (tree.new.value ≡ t.value)) }
    ensures no_part { OnOk answer (part.new ≡ 0) }
    ensures refused { OnErr answer (result ≢ 0) }
    ensures status { IfErr answer (λ e. result ≡ status_of e) }
    ensures part { IfErr answer (λ e. part.new ≡ part_of e) }
    ensures kept { OnErr answer (tree.new ≡ tree.old) }
{
    match answer {
        Ok(held) => {
            *tree = MhlinkTree::of(held);
            *part = 0;
            0
        }
        Err(fault) => {
            *part = fault.part();
            fault.number()
        }
    }
}

/// Reads a tree in JSON, over the points, the shared trees and the sites that a machine knows by
/// name, and stores its handle in `tree`. From then on the tree refers to them by number.
///
/// Fails with the fault of the text, whose detail goes to `part`; then `tree` is left unmodified.
#[unsafe(no_mangle)]
pub extern "C" fn mhlink_tree_read(
    alloc: Global,
    machine: &mut MhlinkMachine,
    text: &[u8],
    tree: &mut MhlinkTree,
    part: &mut u64,
) -> u32
    requires full { machine.old.full ≡ true }
    ensures full { machine.new.full ≡ true }
    ensures same { machine.new.value ≡ machine.old.value }
    ensures handle { result ≡ 0 → tree.new.full ≡ true }
    ensures value { result ≡ 0 → tree_in machine.old.value.scope text.now ≡ Ok tree.new.value }
    ensures no_part { result ≡ 0 → part.new ≡ 0 }
    ensures refused { result ≢ 0 → (e : FaultOf) × ((result ≡ status_of e)
        × ((part.new ≡ part_of e) × IsFaultOf (tree_in machine.old.value.scope text.now) e)) }
    ensures kept { result ≢ 0 → tree.new ≡ tree.old }
{
    write_tree(replace_with(machine, (alloc, text), read_held), tree, part)
}

impl Host {
    // Gives a site a tree that was read.
    fn target_tree(&mut self, site: usize, tree: &HeldTree) -> Result<(), Failure>
        ensures taken { OnOk result (Records self.old self.new (Targeted site tree.now)) }
        ensures refused { IfErr result (RefusesTargetTree self.old.runtime.book site tree.now) }
        ensures kept { OnErr result (self.new ≡ self.old) }
    {
        let tree = tree.share()?;
        self.runtime.target(site, tree)?;
        Ok(())
    }
}

fn target_held(
    machine: MhlinkMachine,
    given: (usize, MhlinkTree),
) -> (MhlinkMachine, (MhlinkTree, Result<(), Failure>))
    requires full { (machine.full ≡ true) × (given.1.full ≡ true) }
    ensures full { (result.0.full ≡ true) × (result.1.0.full ≡ true) }
    ensures same { result.1.0.value ≡ given.1.value }
    ensures taken { OnOk result.1.1
        (Records machine.value result.0.value (Targeted given.0 given.1.value)) }
    ensures refused { IfErr result.1.1
        (RefusesTargetTree machine.value.runtime.book given.0 given.1.value) }
    ensures kept { OnErr result.1.1 (result.0.value ≡ machine.value) }
{
    let (site, tree) = given;
    let (mut host, tree) = (machine.into_box(), tree.into_box());
    let answer = host.target_tree(site, &tree);
    (MhlinkMachine::of(host), (MhlinkTree::of(tree), answer))
}

/// Gives a site a tree that was read, as `mhlink_target` does with one in JSON. The tree remains
/// the caller's, who may give it to other sites.
///
/// Fails as the runtime rejects the tree. `part` gets 0 in any case.
#[unsafe(no_mangle)]
pub extern "C" fn mhlink_target_tree(
    alloc: Global,
    machine: &mut MhlinkMachine,
    site: usize,
    tree: &mut MhlinkTree,
    part: &mut u64,
) -> u32
    requires full { (machine.old.full ≡ true) × (tree.old.full ≡ true) }
    ensures full { (machine.new.full ≡ true) × (tree.new.full ≡ true) }
    ensures same { tree.new.value ≡ tree.old.value }
    ensures taken { result ≡ 0 → Records machine.old.value machine.new.value
        (Targeted site tree.old.value) }
    ensures no_part { result ≡ 0 → part.new ≡ 0 }
    ensures refused { result ≢ 0 → (e : FaultOf) × ((result ≡ status_of e)
        × ((part.new ≡ part_of e)
        × RefusesTargetTree machine.old.value.runtime.book site tree.old.value e)) }
    ensures kept { result ≢ 0 → machine.new.value ≡ machine.old.value }
{
    let taken = replace(tree, MhlinkTree::hollow(alloc));
    let (given, answer) = replace_with(machine, (site, taken), target_held);
    *tree = given;
    write_part(answer, part)
}

/// Closes a tree and frees all memory that no site shares.
#[unsafe(no_mangle)]
pub extern "C" fn mhlink_tree_close(tree: MhlinkTree)
    requires full { tree.full ≡ true }
{
    drop(tree.into_box());
}

fn desk_read_held(
    desk: MhlinkDesk,
    asked: (Global, &[u8]),
) -> (MhlinkDesk, Result<Box<HeldTree>, Failure>)
    requires full { desk.full ≡ true }
    ensures full { result.0.full ≡ true }
    ensures same { result.0.value ≡ desk.value }
    ensures value { IfOk result.1 (λ t. tree_in desk.value.scope asked.entry.1.now
        ≡ Ok t.value) }
    ensures refused { IfErr result.1 (IsFaultOf (tree_in desk.value.scope asked.entry.1.now)) }
{
    let held = desk.into_box();
    let (alloc, text) = asked;
    let tree = HeldTree::read(alloc, &held.scope, text);
    (MhlinkDesk::of(held), tree)
}

/// Reads a tree in JSON over the names of a desk, as `mhlink_tree_read` does.
#[unsafe(no_mangle)]
pub extern "C" fn mhlink_desk_tree_read(
    alloc: Global,
    desk: &mut MhlinkDesk,
    text: &[u8],
    tree: &mut MhlinkTree,
    part: &mut u64,
) -> u32
    requires full { desk.old.full ≡ true }
    ensures full { desk.new.full ≡ true }
    ensures same { desk.new.value ≡ desk.old.value }
    ensures handle { result ≡ 0 → tree.new.full ≡ true }
    ensures value { result ≡ 0 → tree_in desk.old.value.scope text.now ≡ Ok tree.new.value }
    ensures no_part { result ≡ 0 → part.new ≡ 0 }
    ensures refused { result ≢ 0 → (e : FaultOf) × ((result ≡ status_of e)
        × ((part.new ≡ part_of e) × IsFaultOf (tree_in desk.old.value.scope text.now) e)) }
    ensures kept { result ≢ 0 → tree.new ≡ tree.old }
{
    write_tree(
        replace_with(desk, (alloc, text), desk_read_held),
        tree,
        part,
    )
}

impl HeldDesk {
    // Gives a site a tree that was read.
    fn target_tree(&mut self, site: usize, tree: &HeldTree) -> Result<(), Failure>
        ensures taken { OnOk result (DeskRecords self.old self.new (Targeted site tree.now)) }
        ensures refused { IfErr result (RefusesTargetTree self.old.desk.book site tree.now) }
        ensures kept { OnErr result (self.new ≡ self.old) }
    {
        let tree = tree.share()?;
        self.desk.target(site, tree)?;
        Ok(())
    }
}

fn desk_target_held(
    desk: MhlinkDesk,
    given: (usize, MhlinkTree),
) -> (MhlinkDesk, (MhlinkTree, Result<(), Failure>))
    requires full { (desk.full ≡ true) × (given.1.full ≡ true) }
    ensures full { (result.0.full ≡ true) × (result.1.0.full ≡ true) }
    ensures same { result.1.0.value ≡ given.1.value }
    ensures taken { OnOk result.1.1
        (DeskRecords desk.value result.0.value (Targeted given.0 given.1.value)) }
    ensures refused { IfErr result.1.1
        (RefusesTargetTree desk.value.desk.book given.0 given.1.value) }
    ensures kept { OnErr result.1.1 (result.0.value ≡ desk.value) }
{
    let (site, tree) = given;
    let (mut held, tree) = (desk.into_box(), tree.into_box());
    let answer = held.target_tree(site, &tree);
    (MhlinkDesk::of(held), (MhlinkTree::of(tree), answer))
}

/// Gives a site a tree that was read, as `mhlink_target_tree` does. Callers use it from their next
/// look after the next show on.
#[unsafe(no_mangle)]
pub extern "C" fn mhlink_desk_target_tree(
    alloc: Global,
    desk: &mut MhlinkDesk,
    site: usize,
    tree: &mut MhlinkTree,
    part: &mut u64,
) -> u32
    requires full { (desk.old.full ≡ true) × (tree.old.full ≡ true) }
    ensures full { (desk.new.full ≡ true) × (tree.new.full ≡ true) }
    ensures same { tree.new.value ≡ tree.old.value }
    ensures taken { result ≡ 0 → DeskRecords desk.old.value desk.new.value
        (Targeted site tree.old.value) }
    ensures no_part { result ≡ 0 → part.new ≡ 0 }
    ensures refused { result ≢ 0 → (e : FaultOf) × ((result ≡ status_of e)
        × ((part.new ≡ part_of e)
        × RefusesTargetTree desk.old.value.desk.book site tree.old.value e)) }
    ensures kept { result ≢ 0 → desk.new.value ≡ desk.old.value }
{
    let taken = replace(tree, MhlinkTree::hollow(alloc));
    let (given, answer) = replace_with(desk, (site, taken), desk_target_held);
    *tree = given;
    write_part(answer, part)
}
