//! The sums of many calls.

ghost use Rattle.std.specs.Prelude.{◌≡◌, ◌+◌, IfOk};
ghost use Rattle.bench.specs.Tallies.{magnitude as magnitude_of};

use mh_type::{Outcome, Value};
use thiserror::Error;

/// The answers of calls add up to 2^64 or more, or their steps to 2^128 or more.
#[derive(Clone, Copy, Debug, PartialEq, Eq, Error)]
#[error("a sum is too large")]
pub(crate) struct SumTooLarge;

/// The sums of the answers of calls and of their steps.
#[derive(Clone, Copy, Debug, PartialEq, Eq)]
pub(crate) struct Tally {
    /// The sum of the answers: the magnitude of a number, the bytes of a text, 1 for `true`.
    pub(crate) answers: u64,
    /// The steps.
    pub(crate) steps: u128,
}

impl Tally {
    /// Returns the sums of no call.
    pub(crate) fn new() -> Tally
        ensures answers { result.answers ≡ 0 }
        ensures steps { result.steps ≡ 0 }
    {
        Tally {
            answers: 0,
            steps: 0,
        }
    }

    /// Adds the outcome and the steps of a call.
    #[inline(always)]
    pub(crate) fn count(self, outcome: &Outcome, steps: u128) -> Result<Tally, SumTooLarge>
        ensures answers { IfOk result (λ t. t.answers ≡ self.answers + magnitude_of outcome.now) }
        ensures steps { IfOk result (λ t. t.steps ≡ self.steps + steps) }
    {
        self.join(Tally {
            answers: magnitude(outcome),
            steps,
        })
    }

    /// Adds the sums of other calls.
    #[inline(always)]
    pub(crate) fn join(self, more: Tally) -> Result<Tally, SumTooLarge>
        ensures answers { IfOk result (λ t. t.answers ≡ self.answers + more.answers) }
        ensures steps { IfOk result (λ t. t.steps ≡ self.steps + more.steps) }
    {
        let answers = self.answers.checked_add(more.answers).ok_or(SumTooLarge)?;
        let steps = self.steps.checked_add(more.steps).ok_or(SumTooLarge)?;
        Ok(Tally { answers, steps })
    }
}

/// Returns what an outcome adds to the sum of the answers. A throw adds nothing.
#[inline(always)]
fn magnitude(outcome: &Outcome) -> u64
    ensures value { result ≡ magnitude_of outcome.now }
{
    match outcome {
        Outcome::Value(Value::Int(number)) => u64::from(number.unsigned_abs()),
        Outcome::Value(Value::Long(number)) => number.unsigned_abs(),
        Outcome::Value(Value::Boolean(truth)) => u64::from(*truth),
        Outcome::Value(Value::Text(text)) => text.as_str().len() as u64,
        Outcome::Thrown(_) => 0,
    }
}
