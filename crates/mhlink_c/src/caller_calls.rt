//! The functions of a caller, for the thread that has it.

ghost use Rattle.std.specs.Prelude.{◌≡◌, ◌≢◌, ◌⊎◌, ◌<◌, ℕ, List, Some, drop, length, true, IfErr, IfOk, OnErr, OnOk};
ghost use Rattle.mh_ledger.specs.Ledgers.{at};
ghost use Rattle.mh_share.specs.Callers.{call_tests};
ghost use Rattle.mhlink_c.specs.Buffers.{IsCopied};
ghost use Rattle.mhlink_c.specs.Callers.{CallerAnswers, RefusesToLook, looks};
ghost use Rattle.mhlink_c.specs.Calls.{AsksForNone, RefusesCall, WithValues};
ghost use Rattle.mhlink_c.specs.Desks.{Holds};
ghost use Rattle.mhlink_c.specs.Statuses.{no_memory, status_of};
ghost use Rattle.mhlink_c.specs.Texts.{HasNoText, IsUncopied};
ghost use Rattle.mhlink_c.specs.declared.failure.Failure.{Failure as FaultOf};
ghost use Rattle.mhlink_c.specs.declared.failure.Failure.TheVariants.{Short, Unknown};

use crate::buffers::copy;
use crate::caller_handle::MhlinkCaller;
use crate::desk_handle::MhlinkDesk;
use crate::failure::{Failure, status, write_answer};
use crate::value::{MhlinkReply, MhlinkValue};
use core::mem::{replace, replace_with};
use mh_core::Text;
use std::alloc::Global;

// The arguments of a call from C.
#[derive(Drop)]
struct CallerCall<'a> {
    alloc: Global,
    site: usize,
    values: &'a [MhlinkValue],
    texts: &'a [u8],
}

fn call_held(
    caller: MhlinkCaller,
    call: CallerCall<'_>,
) -> (MhlinkCaller, Result<MhlinkReply, Failure>)
    requires full { caller.full ≡ true }
    ensures full { result.0.full ≡ true }
    ensures kept { OnErr result.1 (result.0.value ≡ caller.value) }
    ensures shown { result.0.value.caller.shown ≡ caller.value.caller.shown }
    ensures answer { IfOk result.1 (λ reply. WithValues call.entry.values.now call.entry.texts.now
        (CallerAnswers caller.value call.entry.site reply result.0.value)) }
    ensures refused { IfErr result.1 (RefusesCall (call_tests caller.value.caller call.entry.site)
        call.entry.values.now call.entry.texts.now) }
    ensures memory { AsksForNone caller.value.caller.shown call.entry.site call.entry.values.now
        call.entry.texts.now → IfErr result.1 (λ e. e ≡ no_memory → ⊥) }
{
    let mut held = caller.into_box();
    let reply = held.call(call.alloc, call.site, call.values, call.texts);
    (MhlinkCaller::of(held), reply)
}

/// Calls a site, as `mhlink_call` does, in the state of the caller's last look. It takes no lock.
/// The hit is counted in the caller until it is flushed.
#[unsafe(no_mangle)]
pub extern "C" fn mhlink_caller_call(
    alloc: Global,
    caller: &mut MhlinkCaller,
    site: usize,
    values: &[MhlinkValue],
    texts: &[u8],
    reply: &mut MhlinkReply,
) -> u32
    requires full { caller.old.full ≡ true }
    ensures full { caller.new.full ≡ true }
    ensures kept { result ≢ 0 → caller.new.value ≡ caller.old.value }
    ensures untouched { result ≢ 0 → reply.new ≡ reply.old }
    ensures shown { caller.new.value.caller.shown ≡ caller.old.value.caller.shown }
    ensures answer { result ≡ 0 → WithValues values.now texts.now
        (CallerAnswers caller.old.value site reply.new caller.new.value) }
    ensures refused { result ≢ 0 → (e : FaultOf) × ((result ≡ status_of e)
        × RefusesCall (call_tests caller.old.value.caller site) values.now texts.now e) }
    ensures memory { AsksForNone caller.old.value.caller.shown site values.now texts.now
        → result ≢ status_of no_memory }
{
    let call = CallerCall {
        alloc,
        site,
        values,
        texts,
    };
    match replace_with(caller, call, call_held) {
        Ok(given) => {
            *reply = given;
            0
        }
        Err(fault) => fault.number(),
    }
}

// Returns another owner of the text that the last call returned.
fn text_held(caller: MhlinkCaller, _: ()) -> (MhlinkCaller, Result<Text, Failure>)
    requires full { caller.full ≡ true }
    ensures full { result.0.full ≡ true }
    ensures same { result.0.value ≡ caller.value }
    ensures text { IfOk result.1 (λ text. caller.value.given ≡ Some text) }
    ensures refused { IfErr result.1 (HasNoText caller.value.given) }
{
    let held = caller.into_box();
    let text = held.text();
    (MhlinkCaller::of(held), text)
}

/// Copies the text that the caller's last call returned, as `mhlink_text` does.
#[unsafe(no_mangle)]
pub extern "C" fn mhlink_caller_text(
    caller: &mut MhlinkCaller,
    buffer: &mut [u8],
    length: &mut usize,
) -> u32
    requires full { caller.old.full ≡ true }
    ensures full { caller.new.full ≡ true }
    ensures same { caller.new.value ≡ caller.old.value }
    ensures copied { result ≡ 0 → (text : List ℕ) × ((caller.old.value.given ≡ Some text)
        × IsCopied text length.new buffer.new) }
    ensures refused { result ≢ 0 → (e : FaultOf) × ((result ≡ status_of e)
        × (HasNoText caller.old.value.given e ⊎ IsUncopied
        (λ text. caller.old.value.given ≡ Some text) length.new buffer.old e)) }
    ensures untouched { result ≢ 0 → buffer.new ≡ buffer.old }
    ensures rest { result ≡ 0 → drop length.new buffer.new ≡ drop length.new buffer.old }
    ensures uncounted { result ≢ 0 → result ≢ status_of Short → length.new ≡ length.old }
{
    match replace_with(caller, (), text_held) {
        Ok(text) => status(copy(text.as_str().as_bytes(), buffer, length)),
        Err(fault) => fault.number(),
    }
}

fn hits_held(caller: MhlinkCaller, link: usize) -> (MhlinkCaller, Result<u64, Failure>)
    requires full { caller.full ≡ true }
    ensures full { result.0.full ≡ true }
    ensures same { result.0.value ≡ caller.value }
    ensures value { IfOk result.1 (λ n. n ≡ at caller.value.caller.ledger.unflushed link) }
    ensures inside { OnOk result.1 (link < length caller.value.caller.ledger.unflushed) }
    ensures unknown { IfErr result.1 (λ e. (e ≡ Unknown)
        × (link < length caller.value.caller.ledger.unflushed → ⊥)) }
{
    let held = caller.into_box();
    let hits = held.hits(link);
    (MhlinkCaller::of(held), hits)
}

/// Stores the hits of a link by a caller's calls since its last flush.
#[unsafe(no_mangle)]
pub extern "C" fn mhlink_caller_hits(caller: &mut MhlinkCaller, link: usize, hits: &mut u64) -> u32
    requires full { caller.old.full ≡ true }
    ensures full { caller.new.full ≡ true }
    ensures same { caller.new.value ≡ caller.old.value }
    ensures value { result ≡ 0 → hits.new ≡ at caller.old.value.caller.ledger.unflushed link }
    ensures inside { result ≡ 0 → link < length caller.old.value.caller.ledger.unflushed }
    ensures unknown { result ≢ 0 → (result ≡ status_of Unknown)
        × (link < length caller.old.value.caller.ledger.unflushed → ⊥) }
    ensures untouched { result ≢ 0 → hits.new ≡ hits.old }
{
    write_answer(replace_with(caller, link, hits_held), hits)
}

fn look_held(
    desk: MhlinkDesk,
    caller: MhlinkCaller,
) -> (MhlinkDesk, (MhlinkCaller, Result<(), Failure>))
    requires full { (desk.full ≡ true) × (caller.full ≡ true) }
    ensures full { (result.0.full ≡ true) × (result.1.0.full ≡ true) }
    ensures same { result.0.value ≡ desk.value }
    ensures held { OnOk result.1.1 (Holds desk.value caller.value.caller.ledger) }
    ensures looks { OnOk result.1.1 (result.1.0.value ≡ looks desk.value caller.value) }
    ensures refused { IfErr result.1.1 (RefusesToLook desk.value caller.value.caller.ledger) }
    ensures kept { OnErr result.1.1 (result.1.0.value ≡ caller.value) }
{
    let (desk, mut caller) = (desk.into_box(), caller.into_box());
    let answer = caller.look(&desk);
    (MhlinkDesk::of(desk), (MhlinkCaller::of(caller), answer))
}

/// Has a caller use the published state of a desk from now on. Its hits and its text stay.
///
/// Fails with 13 if the caller is not one of this desk, or if memory runs out; then the caller does
/// not change.
#[unsafe(no_mangle)]
pub extern "C" fn mhlink_caller_look(
    alloc: Global,
    caller: &mut MhlinkCaller,
    desk: &mut MhlinkDesk,
) -> u32
    requires full { (caller.old.full ≡ true) × (desk.old.full ≡ true) }
    ensures full { (caller.new.full ≡ true) × (desk.new.full ≡ true) }
    ensures same { desk.new.value ≡ desk.old.value }
    ensures held { result ≡ 0 → Holds desk.old.value caller.old.value.caller.ledger }
    ensures looks { result ≡ 0 → caller.new.value ≡ looks desk.old.value caller.old.value }
    ensures refused { result ≢ 0 → (e : FaultOf) × ((result ≡ status_of e)
        × RefusesToLook desk.old.value caller.old.value.caller.ledger e) }
    ensures kept { result ≢ 0 → caller.new.value ≡ caller.old.value }
{
    let taken = replace(caller, MhlinkCaller::hollow(alloc));
    let (given, answer) = replace_with(desk, taken, look_held);
    *caller = given;
    status(answer)
}
