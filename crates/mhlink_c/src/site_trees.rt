//! Trees of sites for C.

ghost use Rattle.std.specs.Prelude.{◌≡◌, ◌≢◌, ◌⊎◌, drop, string_bytes, true, IfErr, IfOk, OnOk};
ghost use Rattle.mhlink_c.specs.Buffers.{IsCopied};
ghost use Rattle.mhlink_c.specs.SiteTrees.{HasNoTree, IsSiteOf, tree_of_site};
ghost use Rattle.mhlink_c.specs.Statuses.{status_of};
ghost use Rattle.mhlink_c.specs.Texts.{IsUncopied};
ghost use Rattle.mhlink_c.specs.declared.failure.Failure.{Failure as FaultOf};
ghost use Rattle.mhlink_c.specs.declared.failure.Failure.TheVariants.{Short};

use crate::buffers::copy;
use crate::desk_handle::MhlinkDesk;
use crate::failure::{Failure, status};
use crate::handle::MhlinkMachine;
use core::mem::replace_with;
use mh_core::Book;
use mh_json::tree_json;
use std::alloc::Global;

// Returns the tree of a site, as JSON.
fn tree_text(alloc: Global, book: &Book, site: usize) -> Result<String, Failure>
    ensures text { IfOk result (λ s. string_bytes s ≡ tree_of_site book.now site) }
    ensures inside { OnOk result (IsSiteOf book.now site) }
    ensures refused { IfErr result (HasNoTree book.now site) }
{
    let definition = book.definition();
    if site >= definition.sites().len() {
        return Err(Failure::Unknown);
    }
    Ok(tree_json(alloc, definition, book.tree(site).handle())?)
}

fn tree_held(
    machine: MhlinkMachine,
    asked: (Global, usize),
) -> (MhlinkMachine, Result<String, Failure>)
    requires full { machine.full ≡ true }
    ensures full { result.0.full ≡ true }
    ensures same { result.0.value ≡ machine.value }
    ensures text { IfOk result.1 (λ s. string_bytes s
        ≡ tree_of_site machine.value.runtime.book asked.1) }
    ensures inside { OnOk result.1 (IsSiteOf machine.value.runtime.book asked.1) }
    ensures refused { IfErr result.1 (HasNoTree machine.value.runtime.book asked.1) }
{
    let host = machine.into_box();
    let (alloc, site) = asked;
    let text = tree_text(alloc, host.runtime.book(), site);
    (MhlinkMachine::of(host), text)
}

/// Copies the current tree of a site to the buffer, as JSON in the form of a definition: that of
/// its last retargeting, or else the one of its definition. Shared subtrees are written out. The
/// number of bytes is stored also if the buffer is too short, and the rest of the buffer is left
/// unmodified. A site that does not exist is unknown.
#[unsafe(no_mangle)]
pub extern "C" fn mhlink_tree_text(
    alloc: Global,
    machine: &mut MhlinkMachine,
    site: usize,
    buffer: &mut [u8],
    length: &mut usize,
) -> u32
    requires full { machine.old.full ≡ true }
    ensures full { machine.new.full ≡ true }
    ensures same { machine.new.value ≡ machine.old.value }
    ensures inside { result ≡ 0 → IsSiteOf machine.old.value.runtime.book site }
    ensures copied { result ≡ 0 → IsCopied (tree_of_site machine.old.value.runtime.book site)
        length.new buffer.new }
    ensures refused { result ≢ 0 → (e : FaultOf) × ((result ≡ status_of e)
        × (HasNoTree machine.old.value.runtime.book site e ⊎ IsUncopied
        (λ text. text ≡ tree_of_site machine.old.value.runtime.book site) length.new buffer.old
        e)) }
    ensures untouched { result ≢ 0 → buffer.new ≡ buffer.old }
    ensures rest { result ≡ 0 → drop length.new buffer.new ≡ drop length.new buffer.old }
    ensures uncounted { result ≢ 0 → result ≢ status_of Short → length.new ≡ length.old }
{
    match replace_with(machine, (alloc, site), tree_held) {
        Ok(text) => status(copy(text.as_str().as_bytes(), buffer, length)),
        Err(fault) => fault.number(),
    }
}

fn tree_of_desk(desk: MhlinkDesk, asked: (Global, usize)) -> (MhlinkDesk, Result<String, Failure>)
    requires full { desk.full ≡ true }
    ensures full { result.0.full ≡ true }
    ensures same { result.0.value ≡ desk.value }
    ensures text { IfOk result.1 (λ s. string_bytes s
        ≡ tree_of_site desk.value.desk.book asked.1) }
    ensures inside { OnOk result.1 (IsSiteOf desk.value.desk.book asked.1) }
    ensures refused { IfErr result.1 (HasNoTree desk.value.desk.book asked.1) }
{
    let held = desk.into_box();
    let (alloc, site) = asked;
    let text = tree_text(alloc, held.desk.book(), site);
    (MhlinkDesk::of(held), text)
}

/// Copies the tree of a site, as `mhlink_tree_text` does: the one that callers use after the next
/// show and look.
#[unsafe(no_mangle)]
pub extern "C" fn mhlink_desk_tree_text(
    alloc: Global,
    desk: &mut MhlinkDesk,
    site: usize,
    buffer: &mut [u8],
    length: &mut usize,
) -> u32
    requires full { desk.old.full ≡ true }
    ensures full { desk.new.full ≡ true }
    ensures same { desk.new.value ≡ desk.old.value }
    ensures inside { result ≡ 0 → IsSiteOf desk.old.value.desk.book site }
    ensures copied { result ≡ 0 → IsCopied (tree_of_site desk.old.value.desk.book site) length.new
        buffer.new }
    ensures refused { result ≢ 0 → (e : FaultOf) × ((result ≡ status_of e)
        × (HasNoTree desk.old.value.desk.book site e ⊎ IsUncopied
        (λ text. text ≡ tree_of_site desk.old.value.desk.book site) length.new buffer.old e)) }
    ensures untouched { result ≢ 0 → buffer.new ≡ buffer.old }
    ensures rest { result ≡ 0 → drop length.new buffer.new ≡ drop length.new buffer.old }
    ensures uncounted { result ≢ 0 → result ≢ status_of Short → length.new ≡ length.old }
{
    match replace_with(desk, (alloc, site), tree_of_desk) {
        Ok(text) => status(copy(text.as_str().as_bytes(), buffer, length)),
        Err(fault) => fault.number(),
    }
}
