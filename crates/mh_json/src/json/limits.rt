//! The limits of a script.
ghost use Rattle.std.specs.Prelude.{◌≡◌, ◌^◌, ◌-◌};
ghost use Rattle.serde_json.specs.View.{view};
ghost use Rattle.mh_json.specs.Gives.{Gives};
ghost use Rattle.mh_json.specs.Shape.{count_of};
ghost use Rattle.mh_json.specs.Script.{limits_made, limits_in, limits_of};

use crate::json::shape::{MOST, amount, count, member_or};
use crate::json::wanted::Wanted;
use crate::key::{Field, Key};
use crate::misread::{Misread, at};
use mh_core::{LARGEST_LEDGER, LARGEST_TOTAL, LONGEST_HISTORY, Limits};
use serde_json::Value;
use std::alloc::Global;

/// Reads the limits, each in its range.
fn limits(history: u64, ledger: u64, total: u64) -> Result<Limits, Misread>
    ensures value { Gives (λ x. x) result (limits_made history ledger total) }
{
    Limits::new(history, ledger, total).ok_or(Misread::bad_shape(Wanted::Limits))
}

/// Reads the most unflushed hits of a worker.
fn held(value: &Value) -> Result<u64, Misread>
    ensures value { Gives (λ x. x) result (count_of (2 ^ 63 - 1) (view value.now)) }
{
    let (least, most) = (1, LARGEST_LEDGER);
    count(value, MOST, Wanted::Number { least, most })
}

/// Reads the limits of an object. Each defaults to its maximum.
fn read_given_limits(alloc: Global, value: &Value) -> Result<Limits, Misread>
    ensures value { Gives (λ x. x) result (limits_in (view value.now)) }
{
    if !value.is_object() {
        return Err(Misread::bad_shape(Wanted::Limits));
    }
    let history = member_or(
        alloc,
        value,
        Field::History,
        LONGEST_HISTORY,
        |history| amount(history, LONGEST_HISTORY),
    )?;
    let ledger = member_or(alloc, value, Field::Ledger, LARGEST_LEDGER, held)?;
    let total = member_or(
        alloc,
        value,
        Field::Total,
        LARGEST_TOTAL,
        |total| amount(total, LARGEST_TOTAL),
    )?;
    limits(history, ledger, total)
}

/// Reads the limits of a script. The key `limits` is optional.
pub(crate) fn read_limits(alloc: Global, script: &Value) -> Result<Limits, Misread>
    ensures value { Gives (λ x. x) result (limits_of (view script.now)) }
{
    match script.get(Field::Limits.name()) {
        Some(given) => at(
            alloc,
            Key::Member(Field::Limits),
            read_given_limits(alloc, given),
        ),
        None => limits(LONGEST_HISTORY, LARGEST_LEDGER, LARGEST_TOTAL),
    }
}
