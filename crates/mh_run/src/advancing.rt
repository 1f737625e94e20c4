//! Running consecutive pieces that allocate nothing.

ghost use Rattle.std.specs.Prelude.{◌≡◌, ◌-◌, ◌<◌, ◌≤◌, ◌∷◌, ℕ, ℤ, false, [], length, get_or, map, max, vec_capacity, IfSome, IfNone};
ghost use Rattle.std.specs.Arc.{arc_value};
ghost use Rattle.mh_code.specs.Height.{height, highest};
ghost use Rattle.mh_code.specs.PieceOf.{routine_of, routines};
ghost use Rattle.mh_code.specs.Rows.{is_key as tests_key, row_of, steps_to};
ghost use Rattle.mh_run.specs.inner.Limits.{lower_room};
ghost use Rattle.mh_run.specs.inner.Picks.{is_truth};
ghost use Rattle.mh_run.specs.inner.Runs.{Goes, MayGo};
ghost use Rattle.mh_tree.specs.Meaning.{argument};
ghost use Rattle.mh_tree.specs.Sites.{setting};
ghost use Rattle.mh_type.specs.Operations.{operate as operated};
ghost use Rattle.mh_type.specs.declared.outcome.Outcome.{Outcome as OutcomeData};
ghost use Rattle.mh_type.specs.declared.value.Value.{Value as ValueData};

use crate::forwarding::Reached;
use crate::here::Here;
use crate::locals::read;
use crate::numbers::{calculate, copy, truth};
use mh_code::{Index, KeyTest, Piece};
use mh_type::{Op, Value};
use std::sync::Arc;

// Returns the piece that follows, and the steps: for choices, and for the further arms that are
// given.
macro_rules! following {
    (
        $here:expr, $piece:expr, $arguments:expr, $locals:expr, $before:expr,
        { $($others:tt)* }
    ) => {
        match $piece {
            Piece::Point {
                point,
                target,
                fallback,
                steps,
            } => {
                let is_valid = $here.valid[*point as usize];
                let next: &Piece = if is_valid { target } else { fallback };
                Some((next, $before + u64::from(*steps)))
            }
            Piece::Case {
                test,
                target,
                fallback,
                steps,
            } => {
                let is_key = is_key($arguments, test);
                let next: &Piece = if is_key { target } else { fallback };
                Some((next, $before + u64::from(*steps)))
            }
            Piece::Truth {
                operand,
                target,
                fallback,
                steps,
            } => {
                let is_true = is_true(read($arguments, $locals, operand));
                let next: &Piece = if is_true { target } else { fallback };
                Some((next, $before + u64::from(*steps)))
            }
            Piece::Test {
                op,
                first,
                second,
                target,
                fallback,
                steps,
            } => {
                let first = read($arguments, $locals, first);
                let second = read($arguments, $locals, second);
                let holds = truth(*op, first, second)?;
                let next: &Piece = if holds { target } else { fallback };
                Some((next, $before + u64::from(*steps)))
            }
            Piece::Switch {
                place,
                index,
                targets,
                otherwise,
            } => {
                let (next, steps) = switched($arguments, *place, index, targets, otherwise);
                Some((next, $before + steps))
            }
            Piece::Go { code, steps } => Some((code.entry(), $before + u64::from(*steps))),
            $($others)*
            _ => None,
        }
    };
}

// Returns the piece that a choice by numbers or truths leads to, if no local is stored, and the
// steps.
#[inline(always)]
pub(crate) fn choose<'a>(here: &Here<'_>, reached: Reached<'a>) -> Option<(&'a Piece, u64)>
    requires may { MayGo (setting (4 - reached.depth) here.now.valid.now here.now.targets.now)
        reached.arguments.now [] (routine_of reached.piece.now) reached.total }
    ensures on { IfSome result (λ r. Goes (setting (4 - reached.entry.depth) here.now.valid.now
        here.now.targets.now) reached.entry.arguments.now [] (routine_of reached.entry.piece.now)
        reached.entry.total [] (routine_of r.0.now) r.1) }
    ensures lower { IfSome result (λ r. height r.0.now < height reached.entry.piece.now) }
{
    let arguments = reached.arguments;
    following!(here, reached.piece, arguments, &[], reached.total, {})
}

// Returns the piece that follows a choice by numbers or truths, or a piece that stores one as a
// local, and the steps.
#[inline(always)]
pub(crate) fn advance<'a>(
    locals: &mut Vec<Value>,
    here: &Here<'_>,
    piece: &'a Piece,
    arguments: &[Value],
    before: u64,
) -> Option<(&'a Piece, u64)>
    ghost level: { ℕ }
    requires may { MayGo (setting level here.now.valid.now here.now.targets.now) arguments.now
        locals.old.items (routine_of piece.now) before }
    requires room { lower_room ≤ vec_capacity locals.old }
    ensures on { IfSome result (λ r. Goes (setting level here.now.valid.now here.now.targets.now)
        arguments.now locals.old.items (routine_of piece.now) before locals.new.items
        (routine_of r.0.now) r.1) }
    ensures lower { IfSome result (λ r. height r.0.now < height piece.now) }
    ensures kept { IfNone result (locals.new ≡ locals.old) }
    ensures room { vec_capacity locals.old ≤ vec_capacity locals.new }
{
    following!(here, piece, arguments, locals.as_slice(), before, {
        Piece::Put {
            operand,
            local,
            then,
            steps,
        } => {
            if !copy(locals, arguments, operand, *local) {
                return None;
            }
            Some((then, before + u64::from(*steps)))
        }
        Piece::Let {
            op,
            first,
            second,
            local,
            then,
            steps,
        } => {
            if !calculate(locals, arguments, *op, first, second, *local) {
                return None;
            }
            Some((then, before + u64::from(*steps)))
        }
    })
}

// Returns whether a value is true.
#[inline(always)]
pub(crate) fn is_true(value: &Value) -> bool
    ensures value { result ≡ is_truth value.now }
{
    match value {
        Value::Boolean(truth) => *truth,
        _ => false,
    }
}

// Returns whether the argument of a key's test equals the key.
#[inline(always)]
pub(crate) fn is_key(arguments: &[Value], test: &KeyTest) -> bool
    requires inside { test.now.place < length arguments.now }
    ensures value { operated Op.Ieq (argument arguments.now test.now.place
        ∷ ValueData.Int test.now.key ∷ []) ≡ OutcomeData.Value (ValueData.Boolean result) }
{
    match &arguments[test.place as usize] {
        Value::Int(number) => *number == test.key,
        _ => false,
    }
}

// Returns the piece that a switch leads to, and the steps of its tests.
#[inline(always)]
pub(crate) fn switched<'a>(
    arguments: &[Value],
    place: u32,
    index: &Index,
    targets: &'a [Arc<Piece>],
    otherwise: &'a Piece,
) -> (&'a Piece, u64)
    ensures piece { routine_of result.0.now ≡ get_or (routines targets.now)
        (row_of (argument arguments.now place) index.now) (routine_of otherwise.now) }
    ensures steps { result.1 ≡ steps_to (argument arguments.now place) index.now }
    ensures lower { height result.0.now ≤ max (highest (map (λ t. height (arc_value t))
        targets.now)) (height otherwise.now) }
{
    let (row, steps) = found(arguments, place, index);
    match targets.get(row) {
        Some(target) => (target, steps),
        None => (otherwise, steps),
    }
}

// Returns the row of an index whose test an argument passes, and the steps up to it.
#[inline(always)]
#[tactic(auto, using(crate::proofs::Switches::no_row, crate::proofs::Switches::no_steps))]
fn found(arguments: &[Value], place: u32, index: &Index) -> (usize, u64)
    ensures row { result.0 ≡ row_of (argument arguments.now place) index.now }
    ensures steps { result.1 ≡ steps_to (argument arguments.now place) index.now }
{
    match int_at(arguments, place) {
        Some(number) => index.find(number),
        None => (index.rows().len(), index.steps()),
    }
}

// Returns the int at an index of the arguments, if there is one.
#[inline(always)]
fn int_at(arguments: &[Value], place: u32) -> Option<i32>
    ensures int { IfSome result (λ n. argument arguments.now place ≡ ValueData.Int n) }
    ensures other { IfNone result ((k : ℤ) → tests_key (argument arguments.now place) k ≡ false) }
{
    match arguments.get(place as usize)? {
        Value::Int(number) => Some(*number),
        _ => None,
    }
}
