//! Key tests as handles.

ghost use Rattle.std.specs.Prelude.{◌≡◌, ◌<◌, ◌++◌, ◌∷◌, [], length, IfOk};
ghost use Rattle.mh_type.specs.declared.kind.Kind.TheVariants as kinds;
ghost use Rattle.mh_type.specs.Kinds.{kind_of};
ghost use Rattle.mh_pic.specs.Keys.{equality as equality_of, first_test as first_test_of, key_test as key_test_of};
ghost use Rattle.mh_type.specs.Limits.{most_parameters};

use crate::fault::expect_made;
use mh_base::NoMemory;
use mh_tree::Handle;
use mh_type::{Kind, Op, Value};
use std::alloc::Global;

// Returns the equality operation of a kind.
fn equality(kind: Kind) -> Op
    ensures value { result ≡ equality_of kind }
{
    match kind {
        Kind::Int => Op::Ieq,
        Kind::Long => Op::Leq,
        Kind::Boolean => Op::Beq,
        Kind::Text => Op::Seq,
    }
}

// Returns another owner of a value.
fn share(value: &Value) -> Result<Value, NoMemory>
    ensures value { IfOk result (λ v. v ≡ value.now) }
{
    value.share().map_err(|_| NoMemory)
}

// Returns the test of whether the first argument is the key.
fn first_test(alloc: Global, key: &Value) -> Result<Handle, NoMemory>
    ensures value { IfOk result (λ h. h ≡ record {
      tree = first_test_of key.now;
      signature = record
          { ret = kinds.Boolean; parameters = kind_of key.now ∷ [] };
    }) }
{
    let equality = expect_made(Handle::op(alloc, equality(key.kind())))?;
    let key = share(key)?;
    let test = expect_made(Handle::insert(alloc, &equality, 1, &[key]))?;
    Ok(test)
}

/// Returns the test of whether the argument after these kinds is the key.
pub(crate) fn key_test(alloc: Global, before: &[Kind], key: &Value) -> Result<Handle, NoMemory>
    requires few { length before.now < most_parameters }
    ensures value { IfOk result (λ h. h ≡ record {
      tree = key_test_of before.now key.now;
      signature
          = record { ret = kinds.Boolean; parameters = before.now ++ kind_of key.now ∷ [] };
    }) }
{
    let first = first_test(alloc, key)?;
    if before.is_empty() {
        return Ok(first);
    }
    let test = expect_made(Handle::drop(alloc, &first, 0, before))?;
    Ok(test)
}
