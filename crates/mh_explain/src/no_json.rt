//! Texts that are not valid JSON.
mod levels;
mod stop;

use crate::foreign::foreign_format;
use crate::no_json::levels::{Level, Levels};
use crate::no_json::stop::{COMMENTS, Stop, is_white};
use crate::objects::is_profile_line;
use crate::words::printable;
use mh_base::NoMemory;
use mh_json::Field;
use mh_json::readers::parse_json;
use serde_json::Value;
use std::alloc::Global;
use std::str;

/// The number of bytes shown before the fault of a text.
const BYTES_BEFORE: usize = 40;

/// The number of bytes shown from the fault of a text on.
const BYTES_BEHIND: usize = 20;

/// The greatest depth of nested values.
const DEEPEST_VALUE: usize = 127;

/// A text that is not valid JSON, and the place where reading it stopped.
#[derive(Clone, Copy)]
pub(crate) struct Text<'a> {
    pub(crate) input: &'a [u8],
    /// The line of that place, from 1.
    pub(crate) line: usize,
    /// The column of the byte that is not allowed there, from 1, or the length of the line if the
    /// text ends there.
    pub(crate) column: usize,
    /// True if more bytes could make it valid JSON.
    pub(crate) is_cut: bool,
}

impl Text<'_> {
    /// Returns the lines that say where it stops being valid JSON, what was found there, and why
    /// that is not valid.
    pub(crate) fn explanation(&self, alloc: Global) -> Result<String, NoMemory> {
        if let Some(why) = foreign_format(self.input) {
            return self.lines(alloc, why);
        }
        if str::from_utf8(self.input).is_err() {
            return self.lines(alloc, "the text is not UTF-8 from here on");
        }
        if self.is_cut {
            return self.lines(alloc, cut_reason(alloc, self.input)?);
        }
        let (before, rest) = self.parts();
        match parse_json(alloc, before) {
            Ok(value) => self.lines(alloc, reason_behind(alloc, &value, rest)),
            Err(_) => self.explanation_within(alloc),
        }
    }

    /// Does the same for a text in which no value ends before that place: for the first byte that
    /// is not allowed where it is.
    fn explanation_within(&self, alloc: Global) -> Result<String, NoMemory> {
        let (levels, read) = Levels::by(alloc, self.parts().0)?;
        let text = self.moved_to(read);
        if levels.depth() > DEEPEST_VALUE {
            return text.lines(alloc, "values may be nested at most 127 deep");
        }
        let (before, rest) = text.parts();
        let stop = Stop {
            before,
            rest,
            level: levels.innermost(),
        };
        text.lines(alloc, stop.reason())
    }

    /// Returns the three lines, of which the last gives this reason.
    fn lines(&self, alloc: Global, why: &str) -> Result<String, NoMemory> {
        let (line, column) = (self.line, self.column);
        let found = printable(alloc, self.around())?;
        Ok(format!(in alloc;
            "  where: line {line} column {column}\n  found: {found}\n  why:   {why}\n"
        )?)
    }

    /// Returns the same text, with this byte as the one that is not allowed.
    fn moved_to(&self, byte: usize) -> Text<'_> {
        let (mut line, mut column) = (1usize, 1usize);
        for earlier in &self.input[..byte.min(self.input.len())] {
            if *earlier == b'\n' {
                line = line.saturating_add(1);
                column = 1;
            } else {
                column = column.saturating_add(1);
            }
        }
        Text {
            input: self.input,
            line,
            column,
            is_cut: self.is_cut,
        }
    }

    /// Returns the index at which its line begins.
    fn line_start(&self) -> usize {
        let mut seen: usize = 1;
        for (i, byte) in self.input.iter().enumerate() {
            if seen >= self.line {
                return i;
            }
            if *byte == b'\n' {
                seen = seen.saturating_add(1);
            }
        }
        self.input.len()
    }

    /// Returns the bytes around its column.
    fn around(&self) -> &[u8] {
        let start = self.line_start();
        let fault = start.saturating_add(self.column).min(self.input.len());
        let from = start.max(fault.saturating_sub(BYTES_BEFORE)).min(fault);
        let to = fault.saturating_add(BYTES_BEHIND).min(self.input.len());
        let shown = &self.input[from..to];
        match shown.split(|byte| *byte == b'\n').next() {
            Some(first) => first,
            None => shown,
        }
    }

    /// Returns the bytes before its column, and those from there on.
    fn parts(&self) -> (&[u8], &[u8]) {
        let behind = self.line_start().saturating_add(self.column);
        let at = behind.saturating_sub(1).min(self.input.len());
        (&self.input[..at], &self.input[at..])
    }
}

/// Returns the reason why a text ends too early.
fn cut_reason(alloc: Global, input: &[u8]) -> Result<&'static str, NoMemory> {
    if input.iter().all(|byte| is_white(*byte)) {
        return Ok("the input is empty");
    }
    let (levels, _) = Levels::by(alloc, input)?;
    Ok(match levels.innermost() {
        _ if levels.is_in_string => "the input ends within a string, which ends with \"",
        Some(Level { is_list: true, .. }) => "the input ends within a list, which ends with ]",
        Some(Level { is_list: false, .. }) => "the input ends within an object, which ends with }",
        None => "the input ends within a value",
    })
}

/// Returns the reason why these bytes are not allowed after a whole value.
fn reason_behind(alloc: Global, value: &Value, rest: &[u8]) -> &'static str {
    match rest {
        [b'/' | b'#', ..] => COMMENTS,
        [b']' | b'}', ..] => "the input is one JSON value, which ends before this",
        _ if is_problem(value) && is_plan(alloc, rest) => {
            "a problem and its plan are one object: {\"problem\":PROBLEM,\"plan\":PLAN}"
        }
        _ if is_profile_line(value) => {
            "the input is one JSON value, and this comes after it; lines like these are a profile, which mhlink profile reads"
        }
        _ => "the input is one JSON value, and this comes after it",
    }
}

/// Returns whether a value has the costs and links of a problem.
fn is_problem(value: &Value) -> bool {
    value.get(Field::Costs.name()).is_some() && value.get(Field::Links.name()).is_some()
}

/// Returns whether a text is a JSON value with the links and points of a plan.
fn is_plan(alloc: Global, text: &[u8]) -> bool {
    match parse_json(alloc, text) {
        Ok(value) => {
            value.get(Field::Links.name()).is_some() && value.get(Field::Points.name()).is_some()
        }
        Err(_) => false,
    }
}
