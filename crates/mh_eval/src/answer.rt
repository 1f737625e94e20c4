//! Answers of a piece of code.

ghost use Rattle.std.specs.Prelude.{◌≡◌, ◌≤◌, ℕ, IfOk, IsOk};
ghost use Rattle.mh_type.specs.declared.outcome.Outcome.{Outcome};
ghost use Rattle.mh_eval.specs.Answers.{Ran};
ghost use Rattle.mh_eval.specs.Quiet.{IsAnswered};

use mh_base::NoMemory;
use mh_type::{Outcome, Text, Throw, Value};

/// A value, a throw, or the refusal of memory. It is small, so that a call copies as little as
/// possible.
#[derive(Debug, Drop)]
pub enum Answer {
    Int(i32),
    Long(i64),
    Boolean(bool),
    Text(Text),
    Thrown(Throw),
    NoMemory,
}

// A text returns first, so that its outcome is written by one store in place of several.
/// Returns the outcome of an answer, with the steps.
///
/// Fails only if the answer is a refusal of memory.
#[inline]
pub fn outcome_of(answer: Answer, steps: u128) -> Result<(Outcome, u128), NoMemory>
    ensures outcome { (o : Outcome) → (m : ℕ) → Ran answer steps o m → IfOk result (λ r. r.0 ≡ o) }
    ensures steps { (o : Outcome) → (m : ℕ) → Ran answer steps o m → IfOk result (λ r. r.1 ≡ m) }
    ensures few { (m : ℕ) → steps ≤ m → IfOk result (λ r. r.1 ≤ m) }
    ensures memory { IsAnswered answer → IsOk result }
{
    if let Answer::Text(text) = answer {
        return Ok((Outcome::Value(Value::Text(text)), steps));
    }
    let outcome = match answer {
        Answer::Int(number) => Outcome::Value(Value::Int(number)),
        Answer::Long(number) => Outcome::Value(Value::Long(number)),
        Answer::Boolean(truth) => Outcome::Value(Value::Boolean(truth)),
        Answer::Text(text) => Outcome::Value(Value::Text(text)),
        Answer::Thrown(throw) => Outcome::Thrown(throw),
        Answer::NoMemory => return Err(NoMemory),
    };
    Ok((outcome, steps))
}
