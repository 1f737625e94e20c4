//! Explanations of which test of each refused event failed.
ghost use Rattle.std.specs.Prelude.{◌≡◌, ◌++◌, ℕ, List, string_bytes, IfOk};
ghost use Rattle.mh_explain.specs.Refused.{NamesRefused, refused_line};

use crate::why::reasons_of_event;
use mh_base::NoMemory;
use mh_core::Refusal;
use mh_json::RefusedEvent;
use serde_json::Value;
use std::alloc::Global;

/// The number of refused events for which the part that failed a test is looked for. It is found by
/// a walk over the definition, so that explaining many events would take their number times its
/// size.
const MOST_EXPLAINED: usize = 100;

/// Returns the lines about the part of a refused event that failed a test, if they are asked for.
fn reasons_where(
    alloc: Global,
    is_explained: bool,
    script: &Value,
    event: u64,
    refusal: Refusal,
) -> Result<String, NoMemory> {
    if is_explained {
        reasons_of_event(alloc, script, event, refusal)
    } else {
        Ok(String::new(alloc))
    }
}

/// Returns the lines of a refused event of a script.
fn of_event(
    alloc: Global,
    is_explained: bool,
    script: &Value,
    refused: RefusedEvent,
) -> Result<String, NoMemory>
    ensures line { IfOk result (λ lines. (why : List ℕ)
        × (string_bytes lines ≡ refused_line refused ++ why)) }
{
    let RefusedEvent { event, refusal } = refused;
    let reasons = reasons_where(alloc, is_explained, script, event, refusal)?;
    Ok(format!(in alloc; "event {event}: refused {refusal}\n{reasons}")?)
}

/// Returns the lines that explain why events of a script were refused: for each, in order, the line
/// `event N: refused REFUSAL`, and for each of the first 100 also which part failed which test.
///
/// The lines about parts begin with two spaces and a word, `where:`, `found:` or `why:`, and each
/// line ends with a newline. Fails only if memory runs out.
pub fn explanation_of_refused(
    alloc: Global,
    script: &Value,
    refused: &[RefusedEvent],
) -> Result<String, NoMemory>
    ensures names { IfOk result (λ lines. NamesRefused refused.now (string_bytes lines)) }
{
    let mut lines = String::new(alloc);
    let mut left = MOST_EXPLAINED;
    for event in refused {
        lines.push_str(of_event(alloc, left > 0, script, *event)?.as_str())?;
        left = left.saturating_sub(1);
    }
    Ok(lines)
}
