//! Plans.
ghost use Rattle.std.specs.Prelude.{◌≡◌, ◌^◌, ◌-◌, map, option_map, IfErr};
ghost use Rattle.serde_json.specs.View.{view};
ghost use Rattle.mh_json.specs.Gives.{Gives, GivesAt, IsOfInput, at_place};
ghost use Rattle.mh_json.specs.Shape.{count_of};
ghost use Rattle.mh_json.specs.Plans.{signed_of, flow_row_from, flow_row_of, flow_of, charge_row_from, charge_row_of, charges_of, plan_of, plan_at, plan_of_input};

use crate::fault::{Fault, InputFault};
use crate::json::problem::read_numbers;
use crate::json::read_json;
use crate::json::shape::{count, each, list, member, member_or, number, part_at};
use crate::json::wanted::{Numbered, Wanted};
use crate::key::{Field, Key};
use crate::misread::{Misread, at};
use mh_cert::Plan;
use mh_network::Listing;
use serde_json::Value;
use std::alloc::Global;

/// Reads a signed whole number of 64 bits.
fn read_signed(value: &Value) -> Result<i64, Misread>
    ensures value { Gives (λ x. x) result (signed_of (view value.now)) }
{
    value.as_i64().ok_or(Misread::bad_shape(Wanted::Signed))
}

/// Reads the amount paid of a charge or a cost: a whole number of 64 bits.
fn paid(value: &Value) -> Result<u64, Misread>
    ensures value { Gives (λ x. x) result (count_of (2 ^ 64 - 1) (view value.now)) }
{
    count(value, u64::MAX, Wanted::up_to(u64::MAX))
}

/// Reads a link, a point, and an amount.
fn read_parts(alloc: Global, parts: &[Value]) -> Result<(u32, u32, u64), Misread>
    ensures value { Gives (λ x. x) result (flow_row_from (map view parts.now)) }
{
    let [link, point, amount] = parts else {
        return Err(Misread::bad_shape(Wanted::FlowRow));
    };
    let link = at(alloc, Key::Item(0), number(link, Numbered::Link))?;
    let point = at(alloc, Key::Item(1), number(point, Numbered::Point))?;
    let amount = at(alloc, Key::Item(2), paid(amount))?;
    Ok((link, point, amount))
}

/// Reads a row of a flow: a link, a point, and an amount.
fn read_flow_row(alloc: Global, value: &Value) -> Result<(u32, u32, u64), Misread>
    ensures value { Gives (λ x. x) result (flow_row_of (view value.now)) }
{
    read_parts(alloc, list(value, Wanted::FlowRow)?)
}

/// Reads the rows of a flow.
fn read_flow(alloc: Global, value: &Value) -> Result<Listing<(u32, u32, u64)>, Misread>
    ensures value { Gives (λ x. x) result (flow_of (view value.now)) }
{
    each(alloc, value, |row| read_flow_row(alloc, row))
}

/// Reads a link and an amount.
fn read_charge_parts(alloc: Global, parts: &[Value]) -> Result<(u32, u64), Misread>
    ensures value { Gives (λ x. x) result (charge_row_from (map view parts.now)) }
{
    let [link, amount] = parts else {
        return Err(Misread::bad_shape(Wanted::ChargeRow));
    };
    let link = at(alloc, Key::Item(0), number(link, Numbered::Link))?;
    let amount = at(alloc, Key::Item(1), paid(amount))?;
    Ok((link, amount))
}

/// Reads the amount that a link pays of its charge: the link, and the amount.
fn read_charge_row(alloc: Global, value: &Value) -> Result<(u32, u64), Misread>
    ensures value { Gives (λ x. x) result (charge_row_of (view value.now)) }
{
    read_charge_parts(alloc, list(value, Wanted::ChargeRow)?)
}

/// Reads the amounts that links pay of their charges.
fn read_charges(alloc: Global, value: &Value) -> Result<Listing<(u32, u64)>, Misread>
    ensures value { Gives (λ x. x) result (charges_of (view value.now)) }
{
    each(alloc, value, |row| read_charge_row(alloc, row))
}

/// Reads a plan.
pub fn read_plan_value(alloc: Global, value: &Value) -> Result<Plan, Misread>
    ensures value { Gives (λ x. x) result (plan_of (view value.now)) }
{
    let links = member(
        alloc,
        value,
        Field::Links,
        |links| read_numbers(alloc, Numbered::Link, links),
    )?;
    let points = member(
        alloc,
        value,
        Field::Points,
        |points| read_numbers(alloc, Numbered::Point, points),
    )?;
    let worth = member(alloc, value, Field::Value, read_signed)?;
    let flow = member(alloc, value, Field::Flow, |flow| read_flow(alloc, flow))?;
    let none = Listing::from_vec(Vec::new(alloc));
    let charges = member_or(
        alloc,
        value,
        Field::Charges,
        none,
        |rows| read_charges(alloc, rows),
    )?;
    Ok(Plan {
        links,
        points,
        value: worth,
        flow,
        charges,
    })
}

/// Reads a plan from a value, or from its member at a key.
pub fn read_plan_at(alloc: Global, value: &Value, key: Option<&str>) -> Result<Plan, Fault>
    ensures value { GivesAt (λ x. x) result
        (at_place 0 (plan_at (option_map (λ k. k.now) key.entry) (view value.now))) }
    ensures kind { IfErr result (λ e. IsOfInput e.kind) }
{
    Ok(read_plan_value(alloc, part_at(value, key)?)?)
}

/// Reads the plan that an input is, or that its JSON object has at the key `member`.
///
/// A plan is `{"charges":[[link,amount]..],"flow":[[link,point,amount]..],"links":[N..],
/// "points":[N..],"value":N}`, with links and points by number. `charges` is optional and defaults
/// to the empty list. The numbers of links and points are 0 to 2^32 - 1, amounts 0 to 2^64 - 1, and
/// the value is a signed number of 64 bits. Fails with the first fault, at 0: the input's length,
/// its JSON, and then BadShape if a part is missing, has another form, or is out of range.
pub fn read_plan(alloc: Global, input: &[u8], member: Option<&str>) -> Result<Plan, Fault>
    ensures value { GivesAt (λ x. x) result
        (plan_of_input (option_map (λ k. k.now) member.entry) input.now) }
    ensures kind { IfErr result (λ e. IsOfInput e.kind) }
{
    read_plan_at(alloc, &read_json(alloc, input)?, member)
}
