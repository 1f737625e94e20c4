//! Results that are numbers or truths, which need no memory.

ghost use Rattle.std.specs.Prelude.{◌≡◌, ◌<◌, ◌≤◌, ◌∷◌, [], length, vec_capacity, IfSome, IsTrue, IsFalse};
ghost use Rattle.mh_code.specs.inner.Runs.{put as put_in_place};
ghost use Rattle.mh_run.specs.inner.Picks.{IsPut};
ghost use Rattle.mh_tree.specs.Running.{value_of};
ghost use Rattle.mh_tree.specs.inner.Scoped.{IsIn};
ghost use Rattle.mh_type.specs.Operations.{operate as operated};
ghost use Rattle.mh_type.specs.declared.outcome.Outcome.{Outcome};
ghost use Rattle.mh_type.specs.declared.value.Value.{Value as ValueData};

use crate::locals::{put, read};
use mh_tree::Operand;
use mh_type::{Op, Value};

// Applies `$use` to a result of two operands of a kind; evaluates `$other` for operands of other
// kinds.
macro_rules! two {
    (
        $kind:ident, $pair:expr,
        ($x:ident, $y:ident) => $result:expr, $use:ident($($given:expr),*), $other:expr
    ) => {
        match $pair {
            (Value::$kind($x), Value::$kind($y)) => {
                let value = $result;
                $use($($given,)* value)
            }
            _ => $other,
        }
    };
}

// Applies `$use` to a result of a first operand of a kind; evaluates `$other` for one of another
// kind.
macro_rules! one {
    (
        $kind:ident, $pair:expr,
        $x:ident => $result:expr, $use:ident($($given:expr),*), $other:expr
    ) => {
        match $pair {
            (Value::$kind($x), _) => {
                let value = $result;
                $use($($given,)* value)
            }
            _ => $other,
        }
    };
}

// Returns the truth of an operation on numbers or truths, if it is one that returns a truth.
#[inline(always)]
pub(crate) fn truth(op: Op, first: &Value, second: &Value) -> Option<bool>
    ensures value { IfSome result (λ b. operated op (first.now ∷ second.now ∷ [])
        ≡ Outcome.Value (ValueData.Boolean b)) }
{
    let pair = (first, second);
    match op {
        Op::Ieq => two!(Int, pair, (x, y) => *x == *y, Some(), None),
        Op::Ilt => two!(Int, pair, (x, y) => *x < *y, Some(), None),
        Op::Leq => two!(Long, pair, (x, y) => *x == *y, Some(), None),
        Op::Llt => two!(Long, pair, (x, y) => *x < *y, Some(), None),
        Op::Not => one!(Boolean, pair, x => !*x, Some(), None),
        Op::Beq => two!(Boolean, pair, (x, y) => *x == *y, Some(), None),
        _ => None,
    }
}

// Stores the result of an operation on numbers or truths as the local with a number, and returns
// whether it did. It stores nothing if the operation is on texts or throws.
#[inline(always)]
#[tactic(auto, using(std::proofs::lemmas::Int::wraps))]
pub(crate) fn calculate(
    locals: &mut Vec<Value>,
    arguments: &[Value],
    op: Op,
    first: &Operand,
    second: &Operand,
    place: u32,
) -> bool
    requires first { IsIn (length arguments.now) (length locals.old.items) first.now }
    requires second { IsIn (length arguments.now) (length locals.old.items) second.now }
    requires inside { place ≤ length locals.old.items }
    requires room { place < vec_capacity locals.old }
    ensures value { IsTrue result → IsPut (operated op
        (value_of arguments.now locals.old.items first.now
        ∷ value_of arguments.now locals.old.items second.now ∷ []))
        locals.old.items place locals.new.items }
    ensures kept { IsFalse result → locals.new ≡ locals.old }
    ensures room { vec_capacity locals.old ≤ vec_capacity locals.new }
{
    let pair = (
        read(arguments, locals.as_slice(), first),
        read(arguments, locals.as_slice(), second),
    );
    match op {
        Op::Iadd => two!(Int, pair, (x, y) => x.wrapping_add(*y), int(locals, place), false),
        Op::Isub => two!(Int, pair, (x, y) => x.wrapping_sub(*y), int(locals, place), false),
        Op::Imul => two!(Int, pair, (x, y) => x.wrapping_mul(*y), int(locals, place), false),
        Op::Idiv => two!(Int, pair, (x, y) => {
            if *y == 0 {
                return false;
            }
            x.wrapping_div(*y)
        }, int(locals, place), false),
        Op::Irem => two!(Int, pair, (x, y) => {
            if *y == 0 {
                return false;
            }
            x.wrapping_rem(*y)
        }, int(locals, place), false),
        Op::Ineg => one!(Int, pair, x => x.wrapping_neg(), int(locals, place), false),
        Op::Ladd => two!(Long, pair, (x, y) => x.wrapping_add(*y), long(locals, place), false),
        Op::Lsub => two!(Long, pair, (x, y) => x.wrapping_sub(*y), long(locals, place), false),
        Op::Lmul => two!(Long, pair, (x, y) => x.wrapping_mul(*y), long(locals, place), false),
        Op::Ldiv => two!(Long, pair, (x, y) => {
            if *y == 0 {
                return false;
            }
            x.wrapping_div(*y)
        }, long(locals, place), false),
        Op::Lrem => two!(Long, pair, (x, y) => {
            if *y == 0 {
                return false;
            }
            x.wrapping_rem(*y)
        }, long(locals, place), false),
        Op::Lneg => one!(Long, pair, x => x.wrapping_neg(), long(locals, place), false),
        Op::I2l => one!(Int, pair, x => i64::from(*x), long(locals, place), false),
        Op::Ieq => two!(Int, pair, (x, y) => *x == *y, boolean(locals, place), false),
        Op::Ilt => two!(Int, pair, (x, y) => *x < *y, boolean(locals, place), false),
        Op::Leq => two!(Long, pair, (x, y) => *x == *y, boolean(locals, place), false),
        Op::Llt => two!(Long, pair, (x, y) => *x < *y, boolean(locals, place), false),
        Op::Not => one!(Boolean, pair, x => !*x, boolean(locals, place), false),
        Op::Beq => two!(Boolean, pair, (x, y) => *x == *y, boolean(locals, place), false),
        Op::L2i | Op::Concat | Op::Seq | Op::Len => false,
    }
}

// Stores the value of an operand as the local with a number, unless it is a text, and returns
// whether it did.
#[inline(always)]
pub(crate) fn copy(
    locals: &mut Vec<Value>,
    arguments: &[Value],
    operand: &Operand,
    place: u32,
) -> bool
    requires operand { IsIn (length arguments.now) (length locals.old.items) operand.now }
    requires inside { place ≤ length locals.old.items }
    requires room { place < vec_capacity locals.old }
    ensures value { IsTrue result → locals.new.items ≡ put_in_place locals.old.items place
        (value_of arguments.now locals.old.items operand.now) }
    ensures kept { IsFalse result → locals.new ≡ locals.old }
    ensures room { vec_capacity locals.old ≤ vec_capacity locals.new }
{
    match read(arguments, locals.as_slice(), operand) {
        Value::Int(number) => {
            let number = *number;
            int(locals, place, number)
        }
        Value::Long(number) => {
            let number = *number;
            long(locals, place, number)
        }
        Value::Boolean(truth) => {
            let truth = *truth;
            boolean(locals, place, truth)
        }
        Value::Text(_) => false,
    }
}

// Stores an int.
#[inline(always)]
fn int(locals: &mut Vec<Value>, place: u32, number: i32) -> bool
    requires inside { place ≤ length locals.old.items }
    requires room { place < vec_capacity locals.old }
    ensures put { IsTrue result }
    ensures value { locals.new.items ≡ put_in_place locals.old.items place (ValueData.Int number) }
    ensures room { vec_capacity locals.old ≤ vec_capacity locals.new }
{
    put(locals, place, Value::Int(number)).is_ok()
}

// Stores a long.
#[inline(always)]
fn long(locals: &mut Vec<Value>, place: u32, number: i64) -> bool
    requires inside { place ≤ length locals.old.items }
    requires room { place < vec_capacity locals.old }
    ensures put { IsTrue result }
    ensures value { locals.new.items ≡ put_in_place locals.old.items place (ValueData.Long number) }
    ensures room { vec_capacity locals.old ≤ vec_capacity locals.new }
{
    put(locals, place, Value::Long(number)).is_ok()
}

// Stores a truth.
#[inline(always)]
fn boolean(locals: &mut Vec<Value>, place: u32, truth: bool) -> bool
    requires inside { place ≤ length locals.old.items }
    requires room { place < vec_capacity locals.old }
    ensures put { IsTrue result }
    ensures value { locals.new.items ≡ put_in_place locals.old.items place
        (ValueData.Boolean truth) }
    ensures room { vec_capacity locals.old ≤ vec_capacity locals.new }
{
    put(locals, place, Value::Boolean(truth)).is_ok()
}
