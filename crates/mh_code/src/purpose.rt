//! Uses of the value of a part.

ghost use Rattle.std.specs.Prelude.{◌≡◌, ◌≤◌, IfOk};
ghost use Rattle.std.specs.Arc.{arc_value};
ghost use Rattle.mh_code.specs.PieceOf.{routine_of, routine_of_code};
ghost use Rattle.mh_code.specs.inner.PurposeOf.{purpose_of};
ghost use Rattle.mh_code.specs.Routine.{operand as operand_source, operation, invocation, give, pick};
ghost use Rattle.mh_code.specs.RoutineOf.{used, negated_local as negated_local_routine};
ghost use Rattle.mh_code.specs.RoutineOf.{gives_truth as op_gives_truth};
ghost use Rattle.mh_tree.specs.Limits.{most_nodes};

use crate::code::{Code, KeyTest, Piece};
use crate::made::{Made, own};
use crate::operands::{copied, leading};
use crate::switching::key_test;
use mh_base::NoMemory;
use mh_tree::Operand;
use mh_type::{Kind, Op};
use std::alloc::Global;
use std::sync::Arc;

/// The use of the value of a part: it is the answer, a local that a piece reads, the truth that
/// chooses one of two pieces, or a truth whose `not`, which takes a step, chooses.
#[derive(Clone, Copy)]
pub(crate) enum Purpose<'a> {
    Answer,
    Local {
        place: u32,
        then: &'a Arc<Piece>,
    },
    Truth {
        target: &'a Arc<Piece>,
        fallback: &'a Arc<Piece>,
    },
    Untruth {
        target: &'a Arc<Piece>,
        fallback: &'a Arc<Piece>,
    },
}

// Returns another owner of a piece.
pub(crate) fn owner(piece: &Arc<Piece>) -> Result<Arc<Piece>, NoMemory>
    ensures value { IfOk result (λ a. arc_value a ≡ arc_value piece.now) }
{
    Arc::try_clone(piece).map_err(|_| NoMemory)
}

// Returns the piece of an operand's value, below `depth` locals, and of its use. It is stored as a
// local before it is negated.
pub(crate) fn use_operand(
    made: &mut Made,
    operand: Operand,
    depth: u32,
    steps: u32,
    purpose: &Purpose<'_>,
) -> Result<Arc<Piece>, NoMemory>
    ensures value { IfOk result (λ p. routine_of (arc_value p)
        ≡ used depth steps (operand_source operand) (purpose_of purpose.now)) }
{
    let piece = match purpose {
        Purpose::Answer => Piece::Leaf { operand, steps },
        Purpose::Local { place, then } => Piece::Put {
            operand,
            local: *place,
            then: owner(then)?,
            steps,
        },
        Purpose::Truth { target, fallback } => Piece::Truth {
            operand,
            target: owner(target)?,
            fallback: owner(fallback)?,
            steps,
        },
        Purpose::Untruth { target, fallback } => Piece::Put {
            operand,
            local: depth,
            then: negated_local(made, depth, target, fallback)?,
            steps,
        },
    };
    made.add(piece)
}

// Returns the piece that chooses one of two pieces by the `not` of a local.
fn negated_local(
    made: &mut Made,
    place: u32,
    target: &Arc<Piece>,
    fallback: &Arc<Piece>,
) -> Result<Arc<Piece>, NoMemory>
    ensures value { IfOk result (λ p. routine_of (arc_value p) ≡ negated_local_routine place
        (routine_of (arc_value target.now)) (routine_of (arc_value fallback.now))) }
{
    made.add(Piece::Test {
        op: Op::Not,
        first: Operand::Local(place),
        second: Operand::Local(place),
        target: owner(target)?,
        fallback: owner(fallback)?,
        steps: 1,
    })
}

// Returns whether an operation returns a truth, which it then does for any operands.
fn gives_truth(op: Op) -> bool
    ensures value { result ≡ op_gives_truth op }
{
    op.op_type().ret().is(Kind::Boolean)
}

// Returns the piece of the result of an operation on two operands, below `depth` locals, and of its
// use. An operation that returns a truth never throws, and chooses the other piece if its `not` is
// to choose.
pub(crate) fn use_operation(
    made: &mut Made,
    op: Op,
    first: Operand,
    second: Operand,
    depth: u32,
    steps: u32,
    purpose: &Purpose<'_>,
) -> Result<Arc<Piece>, NoMemory>
    requires few { steps ≤ most_nodes }
    ensures value { IfOk result (λ p. routine_of (arc_value p)
        ≡ used depth steps (operation op first second) (purpose_of purpose.now)) }
{
    let piece = match purpose {
        Purpose::Answer => Piece::Apply {
            op,
            first,
            second,
            steps,
        },
        Purpose::Local { place, then } => Piece::Let {
            op,
            first,
            second,
            local: *place,
            then: owner(then)?,
            steps,
        },
        Purpose::Truth { target, fallback } => {
            let alloc = made.alloc();
            test(
                alloc,
                op,
                first,
                second,
                owner(target)?,
                owner(fallback)?,
                steps,
            )?
        }
        Purpose::Untruth { target, fallback } if gives_truth(op) => {
            let alloc = made.alloc();
            test(
                alloc,
                op,
                first,
                second,
                owner(fallback)?,
                owner(target)?,
                steps + 1,
            )?
        }
        Purpose::Untruth { target, fallback } => Piece::Let {
            op,
            first,
            second,
            local: depth,
            then: negated_local(made, depth, target, fallback)?,
            steps,
        },
    };
    made.add(piece)
}

// Returns the piece that chooses one of two pieces by the truth of an operation's result.
fn test(
    alloc: Global,
    op: Op,
    first: Operand,
    second: Operand,
    target: Arc<Piece>,
    fallback: Arc<Piece>,
    steps: u32,
) -> Result<Piece, NoMemory>
    ensures value { IfOk result (λ p. routine_of p ≡ pick steps (operation op first second)
        (routine_of (arc_value target)) (routine_of (arc_value fallback))) }
{
    match KeyTest::of(op, &first, &second) {
        Some(test) => key_test(alloc, test, steps, target, fallback),
        None => Ok(Piece::Test {
            op,
            first,
            second,
            target,
            fallback,
            steps,
        }),
    }
}

// Returns the piece of a site's result on operands, below `depth` locals, and of its use. A truth
// is stored as a local before it or its `not` chooses.
pub(crate) fn use_invocation(
    made: &mut Made,
    site: u32,
    operands: &[Operand],
    depth: u32,
    steps: u32,
    purpose: &Purpose<'_>,
) -> Result<Arc<Piece>, NoMemory>
    ensures value { IfOk result (λ p. routine_of (arc_value p)
        ≡ used depth steps (invocation site operands.now) (purpose_of purpose.now)) }
{
    let (local, then) = match purpose {
        Purpose::Answer => return answer_invocation(made, site, operands, steps),
        Purpose::Local { place, then } => (*place, owner(then)?),
        Purpose::Truth { .. } => {
            let read = Operand::Local(depth);
            (depth, use_operand(made, read, depth, 0, purpose)?)
        }
        Purpose::Untruth { target, fallback } => {
            (depth, negated_local(made, depth, target, fallback)?)
        }
    };
    let operands = copied(made.alloc(), operands)?;
    made.add(Piece::Call {
        site,
        operands,
        local,
        then,
        steps,
    })
}

// Returns the piece that answers with a site's result on operands.
fn answer_invocation(
    made: &mut Made,
    site: u32,
    operands: &[Operand],
    steps: u32,
) -> Result<Arc<Piece>, NoMemory>
    ensures value { IfOk result (λ p. routine_of (arc_value p)
        ≡ give steps (invocation site operands.now)) }
{
    if let Some(count) = leading(operands) {
        return made.add(Piece::Forward { site, count, steps });
    }
    let operands = copied(made.alloc(), operands)?;
    made.add(Piece::Invoke {
        site,
        operands,
        steps,
    })
}

// Returns the piece that answers with the result of other code: the first piece of that code, if
// the code has no further owners of its pieces.
pub(crate) fn use_code(alloc: Global, code: Arc<Code>) -> Result<Arc<Piece>, NoMemory>
    ensures value { IfOk result (λ p. routine_of (arc_value p)
        ≡ routine_of_code (arc_value code)) }
{
    match code.lone_entry() {
        Some(entry) => owner(entry),
        None => own(alloc, Piece::Go { code, steps: 0 }),
    }
}
