//! Running code, piece after piece.

ghost use Rattle.std.specs.Prelude.{◌≡◌, ◌+◌, ◌<◌, ◌≤◌, ◌∷◌, ℕ, List, [], length, vec_capacity, IfOk, IfErr, IfSome};
ghost use Rattle.mh_code.specs.PieceOf.{routine_of};
ghost use Rattle.mh_code.specs.Routine.{invocation};
ghost use Rattle.mh_code.specs.inner.Runs.{put};
ghost use Rattle.mh_code.specs.inner.Scope.{IsSourceIn};
ghost use Rattle.mh_eval.specs.Answers.{Gives};
ghost use Rattle.mh_eval.specs.Quiet.{IsAnswered};
ghost use Rattle.mh_code.specs.Height.{height};
ghost use Rattle.mh_run.specs.inner.Levels.{IsOpen, IsReady};
ghost use Rattle.mh_run.specs.inner.Limits.{lower_room};
ghost use Rattle.mh_run.specs.inner.Picks.{picked};
ghost use Rattle.mh_run.specs.inner.Runs.{Answers, Ends, Goes, Leaves, MayGo, MayRun, Stops};
ghost use Rattle.mh_tree.specs.Prepared.{leading_arguments};
ghost use Rattle.mh_tree.specs.Sites.{setting, MayCall, most_at, greatest_steps};
ghost use Rattle.mh_type.specs.Operations.{operate as operated};
ghost use Rattle.mh_type.specs.declared.outcome.Outcome.{Outcome as OutcomeData};
ghost use Rattle.mh_type.specs.declared.value.Value.{Value as ValueData};

use crate::advancing::{advance, is_key, is_true, switched};
use crate::here::Here;
use crate::levels::{Level, Lower};
use crate::locals::{clear, keep, pass, read};
use mh_code::Piece;
use mh_eval::{Answer, operate, share, truth};
use mh_tree::Operand;
use mh_type::{Op, Value};
use std::alloc::Global;

// Runs a piece on a level without locals, after `before` steps, and returns the answer and all
// steps.
#[inline(always)]
pub(crate) fn run_on<L: Lower>(
    level: &mut Level<L>,
    alloc: Global,
    here: &Here<'_>,
    piece: &Piece,
    arguments: &[Value],
    before: u64,
) -> (Answer, u128)
    requires ready { IsReady (L.is_ready) level.old }
    requires may { MayGo (setting L.deep here.now.valid.now here.now.targets.now)
        arguments.now [] (routine_of piece.now) before }
    ensures ends { Ends (setting L.deep here.now.valid.now here.now.targets.now)
        arguments.now [] (routine_of piece.now) before result.0 result.1 }
    ensures ready { IsReady (L.is_ready) level.new }
{
    let mut node = piece;
    let mut own = before;
    let mut more = 0;
    loop {
        let (last, after) = go_on(&mut level.locals, here, node, arguments, own);
        let total = more + u128::from(after);
        let locals = level.locals.as_slice();
        if let Some((answer, steps)) = finish(alloc, here, last, arguments, locals, total) {
            clear(&mut level.locals);
            return (answer, steps);
        }
        let (next, sum) = enter(level, alloc, here, last, arguments, total);
        match next {
            Ok(next) => node = next,
            Err(answer) => {
                clear(&mut level.locals);
                return (answer, sum);
            }
        }
        own = 0;
        more = sum;
    }
}

// Returns the piece after those that allocate nothing, and the steps of its tree.
#[inline(always)]
fn go_on<'a>(
    locals: &mut Vec<Value>,
    here: &Here<'_>,
    piece: &'a Piece,
    arguments: &[Value],
    before: u64,
) -> (&'a Piece, u64)
    ghost level: { ℕ }
    requires may { MayGo (setting level here.now.valid.now here.now.targets.now) arguments.now
        locals.old.items (routine_of piece.now) before }
    requires room { lower_room ≤ vec_capacity locals.old }
    ensures on { Goes (setting level here.now.valid.now here.now.targets.now) arguments.now
        locals.old.items (routine_of piece.now) before locals.new.items (routine_of result.0.now)
        result.1 }
    ensures lower { height result.0.now ≤ height piece.now }
    ensures room { vec_capacity locals.old ≤ vec_capacity locals.new }
{
    let mut node = piece;
    let mut total = before;
    while let Some((next, after)) = advance(locals, here, node, arguments, total) {
        node = next;
        total = after;
    }
    (node, total)
}

// Returns the answer of a leaf or of an operation, and all steps.
#[inline(always)]
fn finish(
    alloc: Global,
    here: &Here<'_>,
    piece: &Piece,
    arguments: &[Value],
    locals: &[Value],
    before: u128,
) -> Option<(Answer, u128)>
    ghost level: { ℕ }
    requires may { MayRun (setting level here.now.valid.now here.now.targets.now) arguments.now
        locals.now (routine_of piece.now) before }
    ensures ends { IfSome result (λ r. Ends (setting level here.now.valid.now
        here.now.targets.now) arguments.now locals.now (routine_of piece.now) before r.0 r.1) }
{
    match piece {
        Piece::Leaf { operand, steps } => {
            let answer = share(read(arguments, locals, operand));
            Some((answer, before + u128::from(*steps)))
        }
        Piece::Apply {
            op,
            first,
            second,
            steps,
        } => {
            let first = read(arguments, locals, first);
            let second = read(arguments, locals, second);
            let answer = operate(alloc, *op, first, second);
            Some((answer, before + u128::from(*steps)))
        }
        _ => None,
    }
}

// Enters a piece, and returns the piece that remains to run, or the answer that ends the run, and
// the steps.
#[inline(never)]
fn enter<'a, L: Lower>(
    level: &mut Level<L>,
    alloc: Global,
    here: &Here<'_>,
    piece: &'a Piece,
    arguments: &[Value],
    before: u128,
) -> (Result<&'a Piece, Answer>, u128)
    requires open { IsOpen (L.is_ready) level.old }
    requires may { MayRun (setting L.deep here.now.valid.now here.now.targets.now)
        arguments.now level.old.locals.items (routine_of piece.now) before }
    ensures left { IfOk result.0 (λ p. Leaves (setting L.deep here.now.valid.now
        here.now.targets.now) arguments.now level.old.locals.items (routine_of piece.now) before
        level.new.locals.items (routine_of p.now) result.1) }
    ensures ends { IfErr result.0 (λ r. Ends (setting L.deep here.now.valid.now
        here.now.targets.now) arguments.now level.old.locals.items (routine_of piece.now) before
        r result.1) }
    ensures lower { IfOk result.0 (λ p. height p.now < height piece.now) }
    ensures open { IsOpen (L.is_ready) level.new }
{
    let locals = level.locals.as_slice();
    match piece {
        Piece::Leaf { operand, steps } => {
            let answer = share(read(arguments, locals, operand));
            (Err(answer), before + u128::from(*steps))
        }
        Piece::Apply {
            op,
            first,
            second,
            steps,
        } => {
            let first = read(arguments, locals, first);
            let second = read(arguments, locals, second);
            let answer = operate(alloc, *op, first, second);
            (Err(answer), before + u128::from(*steps))
        }
        Piece::Invoke {
            site,
            operands,
            steps,
        } => {
            let (answer, more) = invoke(level, alloc, here, *site, operands, arguments);
            (Err(answer), before + u128::from(*steps) + more)
        }
        Piece::Forward { site, count, steps } => {
            let below = &mut level.below;
            let (answer, more) = forward(below, alloc, here, *site, *count, arguments);
            (Err(answer), before + u128::from(*steps) + more)
        }
        Piece::Put {
            operand,
            local,
            then,
            steps,
        } => {
            let answer = share(read(arguments, locals, operand));
            let next = kept(&mut level.locals, *local, answer, then);
            (next, before + u128::from(*steps))
        }
        Piece::Let {
            op,
            first,
            second,
            local,
            then,
            steps,
        } => {
            let first = read(arguments, locals, first);
            let second = read(arguments, locals, second);
            let answer = operate(alloc, *op, first, second);
            let next = kept(&mut level.locals, *local, answer, then);
            (next, before + u128::from(*steps))
        }
        Piece::Call {
            site,
            operands,
            local,
            then,
            steps,
        } => {
            let (answer, more) = invoke(level, alloc, here, *site, operands, arguments);
            let next = kept(&mut level.locals, *local, answer, then);
            (next, before + u128::from(*steps) + more)
        }
        Piece::Truth {
            operand,
            target,
            fallback,
            steps,
        } => {
            let is_true = is_true(read(arguments, locals, operand));
            let next = if is_true { target } else { fallback };
            (Ok(next), before + u128::from(*steps))
        }
        Piece::Test {
            op,
            first,
            second,
            target,
            fallback,
            steps,
        } => {
            let first = read(arguments, locals, first);
            let second = read(arguments, locals, second);
            let answer = tested(alloc, *op, first, second);
            let next = chosen(answer, target, fallback);
            (next, before + u128::from(*steps))
        }
        Piece::Case {
            test,
            target,
            fallback,
            steps,
        } => {
            let is_key = is_key(arguments, test);
            let next = if is_key { target } else { fallback };
            (Ok(next), before + u128::from(*steps))
        }
        Piece::Switch {
            place,
            index,
            targets,
            otherwise,
        } => {
            let (next, steps) = switched(arguments, *place, index, targets, otherwise);
            (Ok(next), before + u128::from(steps))
        }
        Piece::Point {
            point,
            target,
            fallback,
            steps,
        } => {
            let is_valid = here.valid[*point as usize];
            let next = if is_valid { target } else { fallback };
            (Ok(next), before + u128::from(*steps))
        }
        Piece::Go { code, steps } => (Ok(code.entry()), before + u128::from(*steps)),
    }
}

// Stores an answer, and returns the piece that follows.
#[inline(always)]
fn kept<'a>(
    locals: &mut Vec<Value>,
    place: u32,
    answer: Answer,
    then: &'a Piece,
) -> Result<&'a Piece, Answer>
    requires inside { place ≤ length locals.old.items }
    ensures value { IfOk result (λ p. (p.now ≡ then.now) × ((o : OutcomeData) → Gives answer o
        → (v : ValueData) × (o ≡ OutcomeData.Value v)
        × (locals.new.items ≡ put locals.old.items place v))) }
    ensures ended { IfErr result (λ r. (o : OutcomeData) → Gives answer o → Stops r o) }
    ensures room { vec_capacity locals.old ≤ vec_capacity locals.new }
    ensures memory { place < vec_capacity locals.old → IsAnswered answer
        → IfErr result (λ r. IsAnswered r) }
{
    match keep(locals, place, answer) {
        Ok(()) => Ok(then),
        Err(answer) => Err(answer),
    }
}

// Chooses one of two pieces by an answer that is a truth.
#[inline(always)]
fn chosen<'a>(answer: Answer, target: &'a Piece, fallback: &'a Piece) -> Result<&'a Piece, Answer>
    ensures value { IfOk result (λ p. (o : OutcomeData) → Gives answer o
        → (b : ValueData) × (o ≡ OutcomeData.Value b) × (p.now ≡ picked b target.now fallback.now)) }
    ensures ended { IfErr result (λ r. (o : OutcomeData) → Gives answer o → Stops r o) }
    ensures memory { IsAnswered answer → IfErr result (λ r. IsAnswered r) }
{
    match answer {
        Answer::Boolean(true) => Ok(target),
        Answer::Thrown(throw) => Err(Answer::Thrown(throw)),
        Answer::NoMemory => Err(Answer::NoMemory),
        _ => Ok(fallback),
    }
}

// Returns the answer of an operation whose truth chooses.
#[inline(always)]
fn tested(alloc: Global, op: Op, first: &Value, second: &Value) -> Answer
    ensures value { Gives result (operated op (first.now ∷ second.now ∷ [])) }
    ensures quiet { (op ≡ Op.Concat → ⊥) → IsAnswered result }
{
    match truth(op, first, second) {
        Some(truth) => Answer::Boolean(truth),
        None => operate(alloc, op, first, second),
    }
}

// Returns the answer of a site's tree on the values of operands, and its steps.
#[inline(never)]
fn invoke<L: Lower>(
    level: &mut Level<L>,
    alloc: Global,
    here: &Here<'_>,
    site: u32,
    operands: &[Operand],
    arguments: &[Value],
) -> (Answer, u128)
    requires open { IsOpen (L.is_ready) level.old }
    requires scoped { IsSourceIn (MayCall L.deep here.now.targets.now
        (length here.now.valid.now)) (length arguments.now) (length level.old.locals.items)
        (invocation site operands.now) }
    requires few { most_at L.deep ≤ greatest_steps }
    ensures answers { Answers (setting L.deep here.now.valid.now here.now.targets.now)
        arguments.now level.old.locals.items (invocation site operands.now) result.0 result.1 }
    ensures locals { level.new.locals ≡ level.old.locals }
    ensures open { IsOpen (L.is_ready) level.new }
{
    let locals = level.locals.as_slice();
    let Ok(()) = pass(&mut level.passed, operands, arguments, locals) else {
        level.passed.truncate(0);
        return (Answer::NoMemory, 0);
    };
    let entry = here.targets[site as usize].code().entry();
    let passed = level.passed.as_slice();
    let (answer, steps) = level.below.run(alloc, here, entry, passed, 0);
    level.passed.truncate(0);
    (answer, steps)
}

// Returns the answer of a site's tree on `count` leading arguments, and its steps.
#[inline(never)]
fn forward<L: Lower>(
    below: &mut L,
    alloc: Global,
    here: &Here<'_>,
    site: u32,
    count: u32,
    arguments: &[Value],
) -> (Answer, u128)
    requires ready { L.is_ready below.old }
    requires scoped { IsSourceIn (MayCall L.deep here.now.targets.now
        (length here.now.valid.now)) (length arguments.now) 0
        (invocation site (leading_arguments count)) }
    requires few { most_at L.deep ≤ greatest_steps }
    ensures answers { (l : List ValueData) → Answers (setting L.deep here.now.valid.now
        here.now.targets.now) arguments.now l (invocation site (leading_arguments count))
        result.0 result.1 }
    ensures ready { L.is_ready below.new }
{
    let entry = here.targets[site as usize].code().entry();
    below.run(alloc, here, entry, &arguments[..count as usize], 0)
}
