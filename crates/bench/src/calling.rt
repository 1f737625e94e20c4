//! Calls by the evaluators, each through a function that is not inlined.

ghost use Rattle.std.specs.Prelude.{◌≡◌, ◌*◌, ◌≤◌, ℕ, List, length, IfOk};
ghost use Rattle.bench.specs.Called.{MayRun};
ghost use Rattle.bench.specs.Tallies.{magnitude};
ghost use Rattle.mh_tree.specs.Limits.{point_bound};
ghost use Rattle.mh_tree.specs.Meaning.{mean, steps};
ghost use Rattle.mh_type.specs.Fits.{Fits};
ghost use Rattle.mh_tree.specs.Sites.{HavePoints, IsLawful, with_sites};

use crate::called::Called;
use crate::tally::Tally;
use mh_base::NoMemory;
use mh_code::Prepared;
use mh_eval::eval;
use mh_run::{Here, Stack, run};
use mh_tree::Handle;
use mh_type::{Outcome, Value};

/// Makes one call of a prepared handle.
#[inline(never)]
pub(crate) fn run_once(
    stack: &mut Stack,
    here: &Here<'_>,
    handle: &Prepared,
    arguments: &[Value],
) -> Result<(Outcome, u128), NoMemory>
    requires fits { Fits handle.now.signature arguments.now }
    requires known { point_bound handle.now.tree ≤ length here.now.valid.now }
    requires points { HavePoints (length here.now.valid.now) here.now.targets.now }
    requires lawful { (levels : List ℕ) × IsLawful levels here.now.targets.now handle.now.tree }
    ensures outcome { IfOk result (λ r. r.0
        ≡ mean (with_sites here.now.valid.now here.now.targets.now) handle.now.tree
        arguments.now) }
    ensures steps { IfOk result (λ r. r.1
        ≡ steps (with_sites here.now.valid.now here.now.targets.now) handle.now.tree
        arguments.now) }
{
    run(stack, here, handle, arguments)
}

/// Makes one call of a plain handle.
#[inline(never)]
pub(crate) fn eval_once(
    stack: &mut mh_eval::Stack,
    valid: &[bool],
    levels: &[u8],
    targets: &[Handle],
    handle: &Handle,
    arguments: &[Value],
) -> Result<(Outcome, u128), NoMemory>
    requires fits { Fits handle.now.signature arguments.now }
    requires known { point_bound handle.now.tree ≤ length valid.now }
    requires points { HavePoints (length valid.now) targets.now }
    requires lawful { IsLawful levels.now targets.now handle.now.tree }
    ensures outcome { IfOk result (λ r. r.0
        ≡ mean (with_sites valid.now targets.now) handle.now.tree arguments.now) }
    ensures steps { IfOk result (λ r. r.1
        ≡ steps (with_sites valid.now targets.now) handle.now.tree arguments.now) }
{
    eval(stack, valid, levels, targets, handle, arguments)
}

/// Makes this many calls of a prepared handle. The function contains only the loop, so that its
/// sums stay in registers.
#[inline(never)]
pub(crate) fn run_rounds(
    stack: &mut Stack,
    here: &Here<'_>,
    handle: &Prepared,
    arguments: &[Value],
    rounds: u64,
) -> anyhow::Result<Tally>
    requires fits { Fits handle.now.signature arguments.now }
    requires known { point_bound handle.now.tree ≤ length here.now.valid.now }
    requires points { HavePoints (length here.now.valid.now) here.now.targets.now }
    requires lawful { (levels : List ℕ) × IsLawful levels here.now.targets.now handle.now.tree }
    ensures answers { IfOk result (λ t. t.answers
        ≡ rounds * magnitude (mean (with_sites here.now.valid.now here.now.targets.now)
        handle.now.tree arguments.now)) }
    ensures steps { IfOk result (λ t. t.steps
        ≡ rounds * steps (with_sites here.now.valid.now here.now.targets.now)
        handle.now.tree arguments.now) }
{
    let mut tally = Tally::new();
    for _ in 0..rounds {
        let (outcome, steps) = run_once(stack, here, handle, arguments)?;
        tally = tally.count(&outcome, steps)?;
    }
    Ok(tally)
}

/// Makes this many calls of a plain handle.
#[inline(never)]
pub(crate) fn eval_rounds(
    stack: &mut mh_eval::Stack,
    called: &Called<'_>,
    rounds: u64,
) -> anyhow::Result<Tally>
    requires may { MayRun called.now }
    ensures answers { IfOk result (λ t. t.answers ≡ rounds * magnitude
        (mean (with_sites called.now.valid.now called.now.targets.now)
        called.now.handle.now.tree called.now.arguments.now)) }
    ensures steps { IfOk result (λ t. t.steps ≡ rounds * steps
        (with_sites called.now.valid.now called.now.targets.now)
        called.now.handle.now.tree called.now.arguments.now) }
{
    let Called {
        valid,
        levels,
        targets,
        handle,
        arguments,
    } = *called;
    let mut tally = Tally::new();
    for _ in 0..rounds {
        let (outcome, steps) = eval_once(stack, valid, levels, targets, handle, arguments)?;
        tally = tally.count(&outcome, steps)?;
    }
    Ok(tally)
}
