//! Calls.

ghost use Rattle.std.specs.Prelude.{◌≡◌, ◌≢◌, true, IfErr, IfOk, OnErr};
ghost use Rattle.mh_core.specs.Runtimes.{call_tests};
ghost use Rattle.mhlink_c.specs.Calls.{Answers, AsksForNone, RefusesCall, WithValues};
ghost use Rattle.mhlink_c.specs.Statuses.{no_memory, status_of};
ghost use Rattle.mhlink_c.specs.declared.failure.Failure.{Failure as FaultOf};

use crate::failure::Failure;
use crate::handle::MhlinkMachine;
use crate::value::{MhlinkReply, MhlinkValue};
use core::mem::replace_with;
use std::alloc::Global;

// The arguments of a call from C.
#[derive(Drop)]
struct Call<'a> {
    alloc: Global,
    worker: u32,
    site: usize,
    values: &'a [MhlinkValue],
    texts: &'a [u8],
}

// Makes a call on the host that a handle owns.
fn call_held(
    machine: MhlinkMachine,
    call: Call<'_>,
) -> (MhlinkMachine, Result<MhlinkReply, Failure>)
    requires full { machine.full ≡ true }
    ensures full { result.0.full ≡ true }
    ensures kept { OnErr result.1 (result.0.value ≡ machine.value) }
    ensures book { result.0.value.runtime.book ≡ machine.value.runtime.book }
    ensures scope { result.0.value.scope ≡ machine.value.scope }
    ensures answer { IfOk result.1 (λ reply. WithValues call.entry.values.now call.entry.texts.now
        (Answers machine.value call.entry.worker call.entry.site reply result.0.value)) }
    ensures refused { IfErr result.1 (RefusesCall
        (call_tests machine.value.runtime call.entry.worker call.entry.site)
        call.entry.values.now call.entry.texts.now) }
    ensures memory { AsksForNone machine.value.runtime.book call.entry.site
        call.entry.values.now call.entry.texts.now → IfErr result.1 (λ e. e ≡ no_memory → ⊥) }
{
    let mut host = machine.into_box();
    let reply = host.call(call.alloc, call.worker, call.site, call.values, call.texts);
    (MhlinkMachine::of(host), reply)
}

/// Calls a site as a worker. `texts` has the bytes of all Strings among the values, in order. If
/// the status is not 0, nothing changes and `reply` is left unmodified. A call with at most 16
/// values does not allocate, provided that none is a String and no node that it evaluates has
/// String in its type.
#[unsafe(no_mangle)]
pub extern "C" fn mhlink_call(
    alloc: Global,
    machine: &mut MhlinkMachine,
    worker: u32,
    site: usize,
    values: &[MhlinkValue],
    texts: &[u8],
    reply: &mut MhlinkReply,
) -> u32
    requires full { machine.old.full ≡ true }
    ensures full { machine.new.full ≡ true }
    ensures kept { result ≢ 0 → machine.new.value ≡ machine.old.value }
    ensures untouched { result ≢ 0 → reply.new ≡ reply.old }
    ensures book { machine.new.value.runtime.book ≡ machine.old.value.runtime.book }
    ensures scope { machine.new.value.scope ≡ machine.old.value.scope }
    ensures answer { result ≡ 0 → WithValues values.now texts.now
        (Answers machine.old.value worker site reply.new machine.new.value) }
    ensures refused { result ≢ 0 → (e : FaultOf) × ((result ≡ status_of e)
        × RefusesCall (call_tests machine.old.value.runtime worker site) values.now texts.now e) }
    ensures memory { AsksForNone machine.old.value.runtime.book site values.now texts.now
        → result ≢ status_of no_memory }
{
    let call = Call {
        alloc,
        worker,
        site,
        values,
        texts,
    };
    match replace_with(machine, call, call_held) {
        Ok(given) => {
            *reply = given;
            0
        }
        Err(fault) => fault.number(),
    }
}
