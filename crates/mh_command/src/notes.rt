//! Notes on an input, which the stage shows besides the output and the lines of faults.
use crate::request::{Asked, Request};
use mh_explain::{keys_twice, unflushed_calls};
use mh_json::{Fault, TextFault};
use mh_stress::{ShowRounds, Stage};
use serde_json::Value;
use std::alloc::Global;

/// Shows notes, each of which is a line that begins with `note: `.
fn tell_lines<T, S: ShowRounds>(stage: &Stage<'_, T, S>, lines: &str) {
    for line in lines.split('\n') {
        if let Some(note) = line.strip_prefix("note: ") {
            stage.shows.tell(&note);
        }
    }
}

/// Notes each key that occurs twice in an object, if explanations are asked for.
pub(crate) fn tell_twice<T, S: ShowRounds>(
    stage: &Stage<'_, T, S>,
    alloc: Global,
    asked: Asked,
    input: &[u8],
) {
    if asked.reading.explain {
        if let Ok(lines) = keys_twice(alloc, input) {
            tell_lines(stage, lines.as_str());
        }
    }
}

/// Notes the first snapshot of a run that lacks the hits of a worker, if explanations are asked
/// for.
pub(crate) fn tell_unflushed<T, S: ShowRounds>(
    stage: &Stage<'_, T, S>,
    alloc: Global,
    asked: Asked,
    script: &Value,
) {
    if !asked.reading.explain {
        return;
    }
    if let Request::Run(_) = asked.request {
        if let Ok(lines) = unflushed_calls(alloc, script) {
            tell_lines(stage, lines.as_str());
        }
    }
}

/// Notes what may be the reason if the input could not be read.
pub(crate) fn tell_unread<T, S: ShowRounds>(stage: &Stage<'_, T, S>, end: &Result<u8, Fault>) {
    if let Err(
        Fault {
            kind: TextFault::ReadFailed,
            ..
        },
    ) = end
    {
        stage.shows.tell(
            &"standard input cannot be read: it is closed, or a directory; write < FILE",
        );
    }
}
