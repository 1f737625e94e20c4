//! Explanations of values that are not numbers or are out of range.
use crate::spot::Spot;
use crate::values::items_at;
use crate::words::{numbered, wanted};
use mh_base::NoMemory;
use mh_json::{Field, Numbered};
use serde_json::Value;
use std::alloc::Global;

/// Explains that a whole number in a range is expected.
pub(crate) fn why_no_number(
    alloc: Global,
    least: u64,
    most: u64,
    value: &Value,
) -> Result<String, NoMemory> {
    let what = format!(in alloc; "a whole number from {least} to {most}")?;
    wanted(alloc, what.as_str(), value)
}

/// Returns the noun for what is numbered: with its article, in the singular, and in the plural.
fn nouns(numbered: Numbered) -> (&'static str, &'static str, &'static str) {
    match numbered {
        Numbered::Worker => ("a worker", "worker", "workers"),
        Numbered::Link => ("a link", "link", "links"),
        Numbered::Point => ("a point", "point", "points"),
        Numbered::Snapshot => ("a snapshot", "snapshot", "snapshots"),
        Numbered::Plan => ("a plan", "plan", "plans"),
    }
}

/// Returns how many of these an input has, if the input itself says so.
fn count_in(kind: Numbered, spot: &Spot<'_>) -> Option<usize> {
    match kind {
        Numbered::Worker => {
            let workers = spot.input.get(Field::Workers.name())?.as_u64()?;
            usize::try_from(workers).ok()
        }
        Numbered::Link => Some(items_at(spot.problem()?, Field::Links).len()),
        Numbered::Point => Some(items_at(spot.problem()?, Field::Costs).len()),
        Numbered::Snapshot | Numbered::Plan => None,
    }
}

/// Explains that the number of such a thing is expected.
pub(crate) fn why_not_numbered(
    alloc: Global,
    kind: Numbered,
    spot: &Spot<'_>,
) -> Result<String, NoMemory> {
    let (noun, one, many) = nouns(kind);
    let what = format!(in alloc; "the number of {noun}")?;
    let why = wanted(alloc, what.as_str(), spot.value)?;
    match count_in(kind, spot) {
        Some(count) => {
            let known = numbered(alloc, count, one, many)?;
            Ok(format!(in alloc; "{why}; {known}")?)
        }
        None => {
            let first = first_number(kind);
            Ok(format!(in alloc; "{why}; {many} are numbered from {first}")?)
        }
    }
}

/// Returns the least number of such a thing.
fn first_number(kind: Numbered) -> usize {
    match kind {
        Numbered::Worker | Numbered::Link | Numbered::Point => 0,
        Numbered::Snapshot | Numbered::Plan => 1,
    }
}
