//! The events of the example, each made by a call of its own.

ghost use Rattle.std.specs.Prelude.{◌≡◌, ◌∷◌, [], IfSome};
ghost use Rattle.mh_core.specs.Outcome.TheVariants as outcome;
ghost use Rattle.mh_core.specs.Value.TheVariants.{Int};
ghost use Rattle.mh_core.specs.Meaning.{mean};
ghost use Rattle.mh_core.specs.Records.{base, environment_of_bases};

use crate::definition::{F, one_less};
use mh_core::{Declared, Listing, Outcome, Runtime, Value};
use std::alloc::Global;

/// Calls a site as worker 0, and returns the int that the site's tree means at that step, or `None`
/// if the runtime answers otherwise.
pub(crate) fn call(runtime: &mut Runtime, site: usize, argument: i32) -> Option<i32>
    ensures value { let d = runtime.old.book.definition in
        let r = runtime.old.book.records in
        IfSome result (λ n. mean (environment_of_bases d r) (base d r site).tree (Int argument ∷ [])
        ≡ outcome.Value (Int n)) }
{
    match runtime.call(0, site, &[Value::Int(argument)]) {
        Ok((Outcome::Value(Value::Int(number)), _steps)) => Some(number),
        _ => None,
    }
}

/// Adds the hits of worker 0 to the totals.
pub(crate) fn flush(rt: &impl Print, runtime: &mut Runtime) -> anyhow::Result<()> {
    runtime.flush(0)?;
    println!(rt; "flush: ok")?;
    Ok(())
}

/// Stores the totals under the next number, with the validity of the points.
pub(crate) fn take_snapshot(rt: &impl Print, runtime: &mut Runtime) -> anyhow::Result<()> {
    let snapshot = runtime.snapshot()?;
    println!(rt; "snapshot: {snapshot}")?;
    Ok(())
}

/// Invalidates the point `a`, for good.
pub(crate) fn invalidate(
    rt: &impl Print,
    alloc: Global,
    runtime: &mut Runtime,
) -> anyhow::Result<()> {
    let points = Listing::from_vec(Vec::from_slice(alloc, &[0])?);
    runtime.invalidate(points)?;
    println!(rt; "invalidate a: ok")?;
    Ok(())
}

/// Gives `f` its second tree.
pub(crate) fn retarget(
    rt: &impl Print,
    alloc: Global,
    runtime: &mut Runtime,
) -> anyhow::Result<()> {
    let tree = Declared::new(&one_less(alloc)?)?;
    runtime.target(F, tree)?;
    println!(rt; "target f: ok")?;
    Ok(())
}
