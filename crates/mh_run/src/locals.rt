//! The locals of a run, and the values of operands.

ghost use Rattle.std.specs.Prelude.{◌≡◌, ◌<◌, ◌≤◌, [], length, map, take, vec_capacity, IfErr, OnOk, IsOk};
ghost use Rattle.mh_code.specs.inner.Runs.{put as put_in_place};
ghost use Rattle.mh_eval.specs.Answers.{Gives};
ghost use Rattle.mh_eval.specs.Frames.{Extends};
ghost use Rattle.mh_eval.specs.Quiet.{IsAnswered};
ghost use Rattle.mh_run.specs.inner.Runs.{Stops};
ghost use Rattle.mh_tree.specs.Running.{value_of};
ghost use Rattle.mh_tree.specs.inner.Scoped.{AllIn, IsIn};
ghost use Rattle.mh_type.specs.declared.outcome.Outcome.{Outcome as OutcomeData};
ghost use Rattle.mh_type.specs.declared.value.Value.{Value as ValueData};

use mh_base::NoMemory;
use mh_eval::{Answer, put_owner};
use mh_tree::Operand;
use mh_type::Value;

// Returns the value of an operand.
#[inline(always)]
pub(crate) fn read<'a>(
    arguments: &'a [Value],
    locals: &'a [Value],
    operand: &'a Operand,
) -> &'a Value
    requires inside { IsIn (length arguments.now) (length locals.now) operand.now }
    ensures value { result.now ≡ value_of arguments.now locals.now operand.now }
{
    match operand {
        Operand::Argument(place) => &arguments[*place as usize],
        Operand::Local(place) => &locals[*place as usize],
        Operand::Constant(value) => value,
    }
}

// Stores a value as the local with a number, and drops the locals after it.
#[inline(always)]
pub(crate) fn put(locals: &mut Vec<Value>, place: u32, value: Value) -> Result<(), NoMemory>
    requires inside { place ≤ length locals.old.items }
    ensures value { OnOk result (locals.new.items ≡ put_in_place locals.old.items place value) }
    ensures room { vec_capacity locals.old ≤ vec_capacity locals.new }
    ensures memory { place < vec_capacity locals.old → IsOk result }
{
    let place = place as usize;
    if locals.len() == place {
        return locals.push(value).map_err(|_| NoMemory);
    }
    cut(locals, place + 1);
    locals[place] = value;
    Ok(())
}

// Drops all locals but the first `count`.
#[inline(always)]
fn cut(locals: &mut Vec<Value>, count: usize)
    ensures rest { locals.new.items ≡ take count locals.old.items }
    ensures room { vec_capacity locals.old ≤ vec_capacity locals.new }
{
    if locals.len() > count {
        cut_by_call(locals, count);
    }
}

// Does what `cut` does, out of line.
#[inline(never)]
fn cut_by_call(locals: &mut Vec<Value>, count: usize)
    ensures rest { locals.new.items ≡ take count locals.old.items }
    ensures room { vec_capacity locals.old ≤ vec_capacity locals.new }
{
    locals.truncate(count);
}

// Drops all locals, the last first.
#[inline(always)]
pub(crate) fn clear(locals: &mut Vec<Value>)
    ensures empty { locals.new.items ≡ [] }
    ensures room { vec_capacity locals.old ≤ vec_capacity locals.new }
{
    while let Some(_) = locals.pop() {}
}

// Stores the value of an answer as the local with a number. An answer without a value ends the run.
#[inline(always)]
pub(crate) fn keep(locals: &mut Vec<Value>, place: u32, answer: Answer) -> Result<(), Answer>
    requires inside { place ≤ length locals.old.items }
    ensures value { OnOk result ((o : OutcomeData) → Gives answer o → (v : ValueData)
        × (o ≡ OutcomeData.Value v)
        × (locals.new.items ≡ put_in_place locals.old.items place v)) }
    ensures ended { IfErr result (λ r. (o : OutcomeData) → Gives answer o → Stops r o) }
    ensures room { vec_capacity locals.old ≤ vec_capacity locals.new }
    ensures memory { place < vec_capacity locals.old → IsAnswered answer → IfErr result (λ r. IsAnswered r) }
{
    let value = match answer {
        Answer::Int(number) => Value::Int(number),
        Answer::Long(number) => Value::Long(number),
        Answer::Boolean(truth) => Value::Boolean(truth),
        Answer::Text(text) => Value::Text(text),
        Answer::Thrown(throw) => return Err(Answer::Thrown(throw)),
        Answer::NoMemory => return Err(Answer::NoMemory),
    };
    put(locals, place, value).map_err(|_| Answer::NoMemory)
}

// Appends the values of operands to an empty list.
pub(crate) fn pass(
    passed: &mut Vec<Value>,
    operands: &[Operand],
    arguments: &[Value],
    locals: &[Value],
) -> Result<(), NoMemory>
    requires inside { AllIn (length arguments.now) (length locals.now) operands.now }
    ensures extends { Extends result passed.old.items passed.new.items
        (map (value_of arguments.now locals.now) operands.now) (vec_capacity passed.old)
        (vec_capacity passed.new) }
{
    for operand in operands {
        put_owner(passed, read(arguments, locals, operand))?;
    }
    Ok(())
}
