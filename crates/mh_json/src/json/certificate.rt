//! Plans as JSON.
ghost use Rattle.std.specs.Prelude.{◌≡◌, ◌++◌, codes, map, string_bytes, IfOk, OnOk};
ghost use Rattle.serde_json.specs.Data.{Data, array, object, member};
ghost use Rattle.serde_json.specs.View.{view, items_of};
ghost use Rattle.mh_json.specs.PlanData.{charge_data, count_data, row_data, uncharged, plan_data, plan_json as json_of};

use mh_cert::Plan;
use serde_json::{Value, json};
use std::alloc::{AllocError, Global};

/// An item of a list in a plan.
trait ListItem {
    ghost json: { Self → Data };

    /// Returns the item as JSON.
    fn value(&self, alloc: Global) -> Result<Value, AllocError>
        ensures value { IfOk result (λ v. view v ≡ json self.now) };
}

/// The number of a link or a point.
impl ListItem for u32 {
    ghost json = { count_data };

    fn value(&self, _alloc: Global) -> Result<Value, AllocError> {
        Ok(Value::from(*self))
    }
}

/// A row of a flow: link, point, amount.
impl ListItem for (u32, u32, u64) {
    ghost json = { row_data };

    fn value(&self, alloc: Global) -> Result<Value, AllocError> {
        let (link, point, amount) = *self;
        json!(in alloc; [link, point, amount])
    }
}

/// A row of charges: link, amount.
impl ListItem for (u32, u64) {
    ghost json = { charge_data };

    fn value(&self, alloc: Global) -> Result<Value, AllocError> {
        let (link, amount) = *self;
        json!(in alloc; [link, amount])
    }
}

/// Appends each item as JSON.
fn push_items<T: ListItem>(
    alloc: Global,
    list: &mut Vec<Value>,
    items: &[T],
) -> Result<(), AllocError>
    ensures value { OnOk result (map view list.new.items
        ≡ map view list.old.items ++ map T.json items.now) }
{
    for item in items {
        list.push(item.value(alloc)?)?;
    }
    Ok(())
}

/// Returns a list as a JSON array.
fn list_value<T: ListItem>(alloc: Global, items: &[T]) -> Result<Value, AllocError>
    ensures value { IfOk result (λ v. view v ≡ array (items_of (map T.json items.now))) }
{
    let mut list = Vec::new(alloc);
    push_items(alloc, &mut list, items)?;
    Ok(Value::Array(list))
}

/// Returns a plan that pays no charge as a JSON object.
fn uncharged_value(
    alloc: Global,
    flow: Value,
    links: Value,
    points: Value,
    worth: i64,
) -> Result<Value, AllocError>
    ensures value { IfOk result (λ v. view v
        ≡ object (uncharged (view flow) (view links) (view points) worth)) }
{
    json!(in alloc; {"flow": flow, "links": links, "points": points, "value": worth})
}

/// Returns a plan that pays charges as a JSON object.
fn charged_value(
    alloc: Global,
    charges: Value,
    flow: Value,
    links: Value,
    points: Value,
    worth: i64,
) -> Result<Value, AllocError>
    ensures value { IfOk result (λ v. view v ≡ object (member (codes "charges") (view charges)
        (uncharged (view flow) (view links) (view points) worth))) }
{
    json!(in alloc; {"charges": charges, "flow": flow, "links": links, "points": points, "value": worth})
}

/// Returns a plan as a JSON object.
#[tactic(auto, using(crate::proofs::PlanData::charges_first, crate::proofs::PlanData::no_charges_first))]
fn plan_value(alloc: Global, plan: &Plan) -> Result<Value, AllocError>
    ensures value { IfOk result (λ v. view v ≡ plan_data plan.now) }
{
    let flow = list_value(alloc, plan.flow.as_slice())?;
    let links = list_value(alloc, plan.links.as_slice())?;
    let points = list_value(alloc, plan.points.as_slice())?;
    if plan.charges.len() == 0 {
        return uncharged_value(alloc, flow, links, points, plan.value);
    }
    let charges = list_value(alloc, plan.charges.as_slice())?;
    charged_value(alloc, charges, flow, links, points, plan.value)
}

/// Returns a plan as compact JSON, with its keys in the order charges, flow, links, points, value,
/// in the form that `read_plan` reads. If no charge is paid, the first key is absent.
pub fn plan_json(alloc: Global, plan: &Plan) -> Result<String, AllocError>
    ensures value { IfOk result (λ s. string_bytes s ≡ json_of plan.now) }
{
    plan_value(alloc, plan)?.to_string(alloc)
}
