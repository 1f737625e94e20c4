//! Makes an opening, and opens it.

ghost use Rattle.std.specs.Prelude.{◌≡◌};

use crate::script::Input;
use crate::telling::{tell_again, tell_opened, tell_part, tell_worked};
use mh_json::Script;
use mh_live::{ListName, OpenFault, Opening};
use std::alloc::Global;
use std::marker::Brand;

/// Makes an opening, and another.
pub(crate) fn try_new(rt: &impl Print, input: Input<'_>) -> anyhow::Result<()> {
    let script = input.script()?;
    try_script(rt, input.alloc, &script)
}

fn try_script(rt: &impl Print, alloc: Global, script: &Script) -> anyhow::Result<()> {
    tell_part(rt, "definition", &script.definition)?;
    make_first(rt, alloc, script)?;
    tell_part(rt, "definition", &script.definition)?;
    make_again(rt, alloc, script)?;
    tell_part(rt, "definition", &script.definition)
}

/// Makes an opening while an allocation may be refused.
fn make_first(rt: &impl Print, alloc: Global, script: &Script) -> anyhow::Result<()> {
    tell_opened(rt)?;
    tell_worked(
        rt,
        &Opening::new(alloc, &script.definition, 2, script.limits.copy()),
    )
}

/// Makes an opening with ample memory.
fn make_again(rt: &impl Print, alloc: Global, script: &Script) -> anyhow::Result<()> {
    tell_again(
        rt,
        &Opening::new(alloc, &script.definition, 2, script.limits.copy()),
    )
}

/// Opens an office and its passes, and returns their number.
fn open<N: ListName>(opening: Opening) -> Result<usize, OpenFault>
    requires name { opening.name ≡ N.book }
    requires definition { opening.definition ≡ N.definition }
    requires limits { opening.limits ≡ N.limits }
    requires workers { opening.workers ≡ N.workers }
{
    let (_live, passes) = opening.open::<N>()?;
    Ok(passes.len())
}

/// Opens an office, and another.
pub(crate) fn try_open<R: Print>(rt: &R, input: Input<'_>) -> anyhow::Result<()> {
    let first = input.opening()?;
    open_first::<Brand, R>(rt, first)?;
    let second = input.opening()?;
    open_again::<Brand, R>(rt, second)
}

/// Opens an office while an allocation may be refused.
fn open_first<N: ListName, R: Print>(rt: &R, opening: Opening) -> anyhow::Result<()>
    requires name { opening.name ≡ N.book }
    requires definition { opening.definition ≡ N.definition }
    requires limits { opening.limits ≡ N.limits }
    requires workers { opening.workers ≡ N.workers }
{
    tell_opened(rt)?;
    tell_worked(rt, &open::<N>(opening))
}

/// Opens an office with ample memory.
fn open_again<N: ListName, R: Print>(rt: &R, opening: Opening) -> anyhow::Result<()>
    requires name { opening.name ≡ N.book }
    requires definition { opening.definition ≡ N.definition }
    requires limits { opening.limits ≡ N.limits }
    requires workers { opening.workers ≡ N.workers }
{
    tell_again(rt, &open::<N>(opening))
}
