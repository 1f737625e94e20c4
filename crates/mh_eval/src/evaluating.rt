//! Evaluation for any arguments: the preconditions of `eval` are tested first.

ghost use Rattle.std.specs.Prelude.{◌≡◌, ◌<◌, ◌≤◌, ◌↔◌, All, IsTrue, length, IfOk, OnOk, IsErrOf};
ghost use Rattle.mh_tree.specs.Handle.{TypedTree};
ghost use Rattle.mh_tree.specs.Limits.{point_bound};
ghost use Rattle.mh_tree.specs.Meaning.{mean, steps};
ghost use Rattle.mh_type.specs.Fits.{Fits};
ghost use Rattle.mh_tree.specs.Sites.{IsLawful, HavePoints, with_sites};

use crate::evaluator::eval;
use crate::fault::Unevaluated;
use crate::fitting::fits;
use crate::invoking::lawful;
use crate::stack::Stack;
use mh_tree::Handle;
use mh_type::{Outcome, Value};
use std::alloc::Global;

/// Evaluates a handle's tree on arguments, and returns the outcome and the number of nodes
/// evaluated. `valid` says which points are valid, and each site has a level and a tree.
///
/// Fails with `DoesNotFit` if the arguments do not fit the handle's type, then with `NoPoint` if
/// the handle or a site's tree names a point beyond `valid`, then with `Unlawful` if the trees
/// invoke sites that they may not (see `lawful`). If all tests pass, fails only with `NoMemory`.
pub fn evaluate(
    alloc: Global,
    valid: &[bool],
    levels: &[u8],
    targets: &[Handle],
    handle: &Handle,
    arguments: &[Value],
) -> Result<(Outcome, u128), Unevaluated>
    ensures outcome { IfOk result (λ r. r.0
        ≡ mean (with_sites valid.now targets.now) handle.now.tree arguments.now) }
    ensures steps { IfOk result (λ r. r.1
        ≡ steps (with_sites valid.now targets.now) handle.now.tree arguments.now) }
    ensures tested { OnOk result (Fits handle.now.signature arguments.now
        × (point_bound handle.now.tree ≤ length valid.now) × HavePoints
        (length valid.now) targets.now × IsLawful levels.now targets.now handle.now.tree) }
    ensures unfit { IsErrOf result Unevaluated.DoesNotFit
        ↔ ¬ Fits handle.now.signature arguments.now }
    ensures no_point { IsErrOf result Unevaluated.NoPoint
        ↔ (Fits handle.now.signature arguments.now
        × ¬ ((point_bound handle.now.tree ≤ length valid.now) × HavePoints
        (length valid.now) targets.now)) }
    ensures unlawful { IsErrOf result Unevaluated.Unlawful
        ↔ (Fits handle.now.signature arguments.now
        × ((point_bound handle.now.tree ≤ length valid.now) × HavePoints
        (length valid.now) targets.now) × ¬ IsLawful levels.now targets.now handle.now.tree) }
    ensures no_memory { IsErrOf result Unevaluated.NoMemory
        → Fits handle.now.signature arguments.now
        × ((point_bound handle.now.tree ≤ length valid.now) × HavePoints
        (length valid.now) targets.now) × IsLawful levels.now targets.now handle.now.tree }
{
    if !fits(handle.method_type(), arguments) {
        return Err(Unevaluated::DoesNotFit);
    }
    if !points_are_there(targets, handle, valid.len()) {
        return Err(Unevaluated::NoPoint);
    }
    if !lawful(levels, targets, handle) {
        return Err(Unevaluated::Unlawful);
    }
    let Ok(mut stack) = Stack::new(alloc) else {
        return Err(Unevaluated::NoMemory);
    };
    eval(&mut stack, valid, levels, targets, handle, arguments).map_err(|_| Unevaluated::NoMemory)
}

// Returns whether a handle, and the tree of each site, name only the first `points` points.
fn points_are_there(targets: &[Handle], handle: &Handle, points: usize) -> bool
    ensures decides { IsTrue result ↔ ((point_bound handle.now.tree ≤ points)
        × HavePoints points targets.now) }
{
    handle.point_bound() <= points && have_points(targets, points)
}

// Returns whether the tree of each site names only the first `points` points.
fn have_points(targets: &[Handle], points: usize) -> bool
    ensures all { IsTrue result ↔ All (λ (h : TypedTree). point_bound h.tree ≤ points) targets.now }
{
    targets.iter().all(|target| target.point_bound() <= points)
}
