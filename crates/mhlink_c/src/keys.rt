//! Keys of links for C.

ghost use Rattle.std.specs.Prelude.{◌≡◌, ◌≢◌, ◌⊎◌, Ok, Err, drop, true, IfErr, IfOk, OnOk};
ghost use Rattle.mh_core.specs.Value.{Value as AnyValue};
ghost use Rattle.mhlink_c.specs.Buffers.{IsCopied, IsTooShort};
ghost use Rattle.mhlink_c.specs.Crossing.{bytes_of as bytes_of_value, value_kind, value_number};
ghost use Rattle.mhlink_c.specs.Keys.{HasNoKey, IsLinkOf, IsShown, IsUncopiedKey, key_of as key_of_link};
ghost use Rattle.mhlink_c.specs.Statuses.{status_of};
ghost use Rattle.mhlink_c.specs.declared.failure.Failure.{Failure as FaultOf};
ghost use Rattle.mhlink_c.specs.declared.failure.Failure.TheVariants.{Short};

use crate::buffers::copy;
use crate::desk_handle::MhlinkDesk;
use crate::failure::Failure;
use crate::handle::MhlinkMachine;
use crate::value::MhlinkValue;
use core::mem::replace_with;
use mh_core::{Book, NoMemory, Value};

// Returns the key of a link, with another owner.
fn key_of(book: &Book, link: usize) -> Result<Value, Failure>
    ensures value { IfOk result (λ x. x ≡ key_of_link book.now.definition link) }
    ensures inside { OnOk result (IsLinkOf book.now.definition link) }
    ensures refused { IfErr result (HasNoKey book.now.definition link) }
{
    if link >= book.definition().link_count() {
        return Err(Failure::Unknown);
    }
    let key = &book.declared_link(link).when;
    key.share().map_err(|_| Failure::from(NoMemory))
}

// Returns the value for C, without the bytes of a text.
fn shown(value: &Value) -> MhlinkValue
    ensures kind { result.kind ≡ value_kind value.now }
    ensures number { result.number ≡ value_number value.now }
{
    let (kind, number) = match value {
        Value::Int(number) => (1, i64::from(*number)),
        Value::Long(number) => (2, *number),
        Value::Boolean(truth) => (3, i64::from(*truth)),
        Value::Text(text) => (4, text.as_str().len() as i64),
    };
    MhlinkValue { kind, number }
}

// Returns the bytes of a text, and none for another value.
fn bytes_of(value: &Value) -> &[u8]
    ensures value { result.now ≡ bytes_of_value value.now }
{
    match value {
        Value::Text(text) => text.as_str().as_bytes(),
        _ => &[],
    }
}

// Writes a key, if there is one and its bytes fit the buffer.
fn write_key(
    answer: Result<Value, Failure>,
    key: &mut MhlinkValue,
    buffer: &mut [u8],
    length: &mut usize,
) -> u32
    ensures shown { result ≡ 0 → (x : AnyValue) × ((answer ≡ Ok x)
        × IsShown x key.new length.new buffer.new) }
    ensures refused { result ≢ 0 → (e : FaultOf) × ((result ≡ status_of e)
        × ((answer ≡ Err e) ⊎ ((e ≡ Short) × ((x : AnyValue) × ((answer ≡ Ok x)
        × IsTooShort (bytes_of_value x) length.new buffer.old))))) }
    ensures untouched { result ≢ 0 → (key.new ≡ key.old) × (buffer.new ≡ buffer.old) }
    ensures rest { result ≡ 0 → drop length.new buffer.new ≡ drop length.new buffer.old }
    ensures uncounted { result ≢ 0 → result ≢ status_of Short → length.new ≡ length.old }
{
    match answer {
        Ok(value) => match copy(bytes_of(&value), buffer, length) {
            Ok(()) => {
                *key = shown(&value);
                0
            }
            Err(fault) => fault.number(),
        },
        Err(fault) => fault.number(),
    }
}

fn key_held(machine: MhlinkMachine, link: usize) -> (MhlinkMachine, Result<Value, Failure>)
    requires full { machine.full ≡ true }
    ensures full { result.0.full ≡ true }
    ensures same { result.0.value ≡ machine.value }
    ensures value { IfOk result.1 (λ x. x
        ≡ key_of_link machine.value.runtime.book.definition link) }
    ensures inside { OnOk result.1 (IsLinkOf machine.value.runtime.book.definition link) }
    ensures refused { IfErr result.1 (HasNoKey machine.value.runtime.book.definition link) }
{
    let host = machine.into_box();
    let key = key_of(host.runtime.book(), link);
    (MhlinkMachine::of(host), key)
}

/// Stores the key of a link, by which `mhlink_link` finds it. The bytes of a String are copied to
/// the buffer, and their number is stored, also if the buffer is too short.
#[unsafe(no_mangle)]
pub extern "C" fn mhlink_key(
    machine: &mut MhlinkMachine,
    link: usize,
    key: &mut MhlinkValue,
    buffer: &mut [u8],
    length: &mut usize,
) -> u32
    requires full { machine.old.full ≡ true }
    ensures full { machine.new.full ≡ true }
    ensures same { machine.new.value ≡ machine.old.value }
    ensures inside { result ≡ 0 → IsLinkOf machine.old.value.runtime.book.definition link }
    ensures shown { result ≡ 0 → IsShown
        (key_of_link machine.old.value.runtime.book.definition link) key.new length.new
        buffer.new }
    ensures refused { result ≢ 0 → (e : FaultOf) × ((result ≡ status_of e)
        × (HasNoKey machine.old.value.runtime.book.definition link e
        ⊎ IsUncopiedKey machine.old.value.runtime.book.definition link length.new buffer.old e)) }
    ensures untouched { result ≢ 0 → (key.new ≡ key.old) × (buffer.new ≡ buffer.old) }
    ensures rest { result ≡ 0 → drop length.new buffer.new ≡ drop length.new buffer.old }
    ensures uncounted { result ≢ 0 → result ≢ status_of Short → length.new ≡ length.old }
{
    let answer = replace_with(machine, link, key_held);
    write_key(answer, key, buffer, length)
}

fn key_of_desk(desk: MhlinkDesk, link: usize) -> (MhlinkDesk, Result<Value, Failure>)
    requires full { desk.full ≡ true }
    ensures full { result.0.full ≡ true }
    ensures same { result.0.value ≡ desk.value }
    ensures value { IfOk result.1 (λ x. x ≡ key_of_link desk.value.desk.book.definition link) }
    ensures inside { OnOk result.1 (IsLinkOf desk.value.desk.book.definition link) }
    ensures refused { IfErr result.1 (HasNoKey desk.value.desk.book.definition link) }
{
    let held = desk.into_box();
    let key = key_of(held.desk.book(), link);
    (MhlinkDesk::of(held), key)
}

/// Stores the key of a link, as `mhlink_key` does.
#[unsafe(no_mangle)]
pub extern "C" fn mhlink_desk_key(
    desk: &mut MhlinkDesk,
    link: usize,
    key: &mut MhlinkValue,
    buffer: &mut [u8],
    length: &mut usize,
) -> u32
    requires full { desk.old.full ≡ true }
    ensures full { desk.new.full ≡ true }
    ensures same { desk.new.value ≡ desk.old.value }
    ensures inside { result ≡ 0 → IsLinkOf desk.old.value.desk.book.definition link }
    ensures shown { result ≡ 0 → IsShown (key_of_link desk.old.value.desk.book.definition link)
        key.new length.new buffer.new }
    ensures refused { result ≢ 0 → (e : FaultOf) × ((result ≡ status_of e)
        × (HasNoKey desk.old.value.desk.book.definition link e
        ⊎ IsUncopiedKey desk.old.value.desk.book.definition link length.new buffer.old e)) }
    ensures untouched { result ≢ 0 → (key.new ≡ key.old) × (buffer.new ≡ buffer.old) }
    ensures rest { result ≡ 0 → drop length.new buffer.new ≡ drop length.new buffer.old }
    ensures uncounted { result ≢ 0 → result ≢ status_of Short → length.new ≡ length.old }
{
    let answer = replace_with(desk, link, key_of_desk);
    write_key(answer, key, buffer, length)
}
