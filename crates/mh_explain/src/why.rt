//! Explanations of why a part of an input has a fault, in a sentence.
mod definitions;
mod events;
mod forms;
mod missing;
mod names;
mod numbers;
mod problems;
mod shapes;
mod trees;
mod types;

use crate::spot::Spot;
pub(crate) use definitions::has_links;
pub(crate) use events::reasons_of_event;
use mh_base::NoMemory;
use mh_json::InputFault;
use std::alloc::Global;

/// Returns the sentence that explains a fault of this part of an input.
pub(crate) fn why(alloc: Global, fault: InputFault, spot: &Spot<'_>) -> Result<String, NoMemory> {
    match fault {
        InputFault::BadShape | InputFault::BadValue => shapes::why_other(alloc, spot),
        InputFault::UnknownShared => names::why_unknown_shared(alloc, spot.input, spot.value),
        InputFault::UnknownSite => names::why_unknown_site(alloc, spot.input, spot.value),
        InputFault::Tree(cause) => trees::why_refused(alloc, cause, spot),
        InputFault::Definition(cause) => definitions::why_definition(alloc, cause, spot),
        InputFault::Problem(cause) => problems::why_none(alloc, cause, spot),
        InputFault::BadType(_) => types::why_none(alloc, spot.value),
        InputFault::NoMemory
        | InputFault::TooLong
        | InputFault::NotJson
        | InputFault::UnknownPoint
        | InputFault::PointTwice
        | InputFault::NeedTwice => Ok(String::new(alloc)),
    }
}
