//! Calls of prepared handles.

ghost use Rattle.std.specs.Prelude.{◌≡◌, ◌-◌, ◌≤◌, ℕ, List, [], length, Ok, IfOk, IfSome, IsOk};
ghost use Rattle.mh_code.specs.PieceOf.{routine_of};
ghost use Rattle.mh_run.specs.inner.Runs.{Ends, MayGo, Told};
ghost use Rattle.mh_eval.specs.Entered.{EntersPlain};
ghost use Rattle.mh_tree.specs.Limits.{point_bound};
ghost use Rattle.mh_tree.specs.Meaning.{mean, steps};
ghost use Rattle.mh_tree.specs.Sites.{IsLawful, HavePoints, Setting, with_sites, setting, sites, greatest_steps};
ghost use Rattle.mh_type.specs.Fits.{Fits};

use crate::forwarding::{Reached, reach};
use crate::here::Here;
use crate::levels::Lower;
use crate::locals::read;
use crate::running::run_on;
use crate::stack::Stack;
use mh_base::NoMemory;
use mh_code::{Piece, Prepared};
use mh_eval::{Answer, operate, outcome_of, outcome_of_number};
use mh_type::{Outcome, Value};

/// Runs the code of a prepared handle on arguments, and returns the outcome of its tree and the
/// number of nodes evaluated. `here` says which points are valid, and has the tree of each site. It
/// returns the same as `eval` for the handle and the sites' handles.
///
/// A guard's test, a fold's combiner and a site are passed as many of the leading arguments as they
/// have parameters. If a part that runs throws, this is the outcome, and nothing after it runs.
/// Fails only with `NoMemory`, and never if no node that is evaluated, also in the trees of sites,
/// has String in its type; the stack is as before.
#[inline(always)]
pub fn run<'a>(
    stack: &mut Stack,
    here: &Here<'a>,
    handle: &'a Prepared,
    arguments: &'a [Value],
) -> Result<(Outcome, u128), NoMemory>
    requires fits { Fits handle.now.signature arguments.now }
    requires known { point_bound handle.now.tree ≤ length here.now.valid.now }
    requires points { HavePoints (length here.now.valid.now) here.now.targets.now }
    requires lawful { (levels : List ℕ) × IsLawful levels here.now.targets.now handle.now.tree }
    ensures outcome { IfOk result (λ r. r.0
        ≡ mean (with_sites here.now.valid.now here.now.targets.now) handle.now.tree arguments.now) }
    ensures steps { IfOk result (λ r. r.1
        ≡ steps (with_sites here.now.valid.now here.now.targets.now) handle.now.tree
        arguments.now) }
    ensures few { IfOk result (λ r. r.1 ≤ greatest_steps) }
    ensures stack { stack.new ≡ stack.old }
    ensures memory { EntersPlain (sites here.now.valid.now here.now.targets.now) handle.now.tree
        arguments.now
        → IsOk result }
{
    let Reached {
        depth,
        piece,
        arguments,
        total,
    } = reach(here, handle.code().entry(), arguments);
    if let Some(found) = leaf_outcome(piece, arguments, total) {
        return Ok(found);
    }
    // A closure, so that its result slot is zeroed only when it is called.
    let mut by_call = || run_any(stack, here, piece, arguments, total, depth);
    by_call()
}

// Returns the outcome of a leaf that is a number, and the steps. The compiler decides whether to
// inline it; it then simplifies it first, so that the result is written by few stores.
#[inline]
fn leaf_outcome(piece: &Piece, arguments: &[Value], before: u64) -> Option<(Outcome, u128)>
    requires may { (v : Setting) × MayGo v arguments.now [] (routine_of piece.now) before }
    ensures told { (v : Setting) → IfSome result (λ found. Told {E = ⊥} (Ok found) v arguments.now
        (routine_of piece.now) before) }
{
    let Piece::Leaf { operand, steps } = piece else {
        return None;
    };
    let outcome = outcome_of_number(read(arguments, &[], operand))?;
    Some((outcome, u128::from(before + u64::from(*steps))))
}

// Runs any piece. An operation's int returns first, with no result slot zeroed for other answers.
#[inline(never)]
fn run_any(
    stack: &mut Stack,
    here: &Here<'_>,
    piece: &Piece,
    arguments: &[Value],
    before: u64,
    depth: u8,
) -> Result<(Outcome, u128), NoMemory>
    requires deep { depth ≤ 4 }
    requires may { MayGo (setting (4 - depth) here.now.valid.now here.now.targets.now)
        arguments.now [] (routine_of piece.now) before }
    ensures told { Told result (setting (4 - depth) here.now.valid.now here.now.targets.now)
        arguments.now (routine_of piece.now) before }
    ensures stack { stack.new ≡ stack.old }
{
    if let Piece::Apply {
        op,
        first,
        second,
        steps,
    } = piece
    {
        let first = read(arguments, &[], first);
        let second = read(arguments, &[], second);
        let answer = operate(stack.alloc, *op, first, second);
        let total = u128::from(before + u64::from(*steps));
        if let Answer::Int(number) = answer {
            return Ok((Outcome::Value(Value::Int(number)), total));
        }
        return outcome_of(answer, total);
    }
    // A closure, as in `run`.
    let mut on_level = || {
        let (answer, steps) = run_at(stack, here, piece, arguments, before, depth);
        outcome_of(answer, steps)
    };
    on_level()
}

// Returns the answer of a piece on the level of its tree, and the steps.
#[inline(never)]
fn run_at(
    stack: &mut Stack,
    here: &Here<'_>,
    piece: &Piece,
    arguments: &[Value],
    before: u64,
    depth: u8,
) -> (Answer, u128)
    requires deep { depth ≤ 4 }
    requires may { MayGo (setting (4 - depth) here.now.valid.now here.now.targets.now)
        arguments.now [] (routine_of piece.now) before }
    ensures ends { Ends (setting (4 - depth) here.now.valid.now here.now.targets.now)
        arguments.now [] (routine_of piece.now) before result.0 result.1 }
    ensures stack { stack.new ≡ stack.old }
{
    let alloc = stack.alloc;
    let first = &mut stack.levels;
    match depth {
        0 => run_on(first, alloc, here, piece, arguments, before),
        1 => first.below.run(alloc, here, piece, arguments, before),
        2 => first.below.below.run(alloc, here, piece, arguments, before),
        3 => first
            .below
            .below
            .below
            .run(alloc, here, piece, arguments, before),
        _ => first
            .below
            .below
            .below
            .below
            .run(alloc, here, piece, arguments, before),
    }
}
