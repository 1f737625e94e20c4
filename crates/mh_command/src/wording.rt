//! The words of errors in a command line.
use std::alloc::{AllocError, Global};

/// Returns the text of an error in a command line, with ranges in words and with what to write in
/// place of an unknown option.
pub(crate) fn worded(alloc: Global, text: &str) -> Result<String, AllocError> {
    if let Some(range) = Range::of(text) {
        return range.worded(alloc);
    }
    if let Some((before, after)) = text.split_once(": invalid digit found in string") {
        return format!(in alloc; "{before}: must be a whole number{after}");
    }
    if let Some((before, after)) = text.split_once(": number too large to fit in target type") {
        return format!(in alloc; "{before}: the number is too large{after}");
    }
    with_tip(alloc, text)
}

/// The parts of a text that says that a number is not in a range.
#[derive(Clone, Copy)]
struct Range<'a> {
    before: &'a str,
    low: &'a str,
    high: &'a str,
    after: &'a str,
}

impl<'a> Range<'a> {
    /// Returns the parts of such a text, as `..: 0 is not in 1..=64`.
    fn of(text: &'a str) -> Option<Range<'a>> {
        let (before, range) = text.split_once(" is not in ")?;
        let (before, _number) = before.rsplit_once(": ")?;
        let (low, rest) = range.split_once("..=")?;
        let (high, after) = rest.split_once('\n')?;
        Some(Range {
            before,
            low,
            high,
            after,
        })
    }

    /// Returns the text that says which numbers are allowed.
    fn worded(&self, alloc: Global) -> Result<String, AllocError> {
        let (before, low, high, after) = (self.before, self.low, self.high, self.after);
        format!(in alloc; "{before}: must be between {low} and {high}\n{after}")
    }
}

/// Returns a text with a tip on the argument that it calls unexpected, if there is one.
fn with_tip(alloc: Global, text: &str) -> Result<String, AllocError> {
    let Some((word, after)) = unexpected(text) else {
        return String::from_str(alloc, text);
    };
    match tip_for(word) {
        Some(tip) => format!(in alloc;
            "error: unexpected argument '{word}' found\n\n  tip: {tip}{after}"
        ),
        None => String::from_str(alloc, text),
    }
}

/// Returns the argument that a text calls unexpected, and what follows, unless that is a tip.
fn unexpected(text: &str) -> Option<(&str, &str)> {
    let rest = text.strip_prefix("error: unexpected argument '")?;
    let (word, after) = rest.split_once("' found")?;
    if after.contains("tip:") {
        return None;
    }
    Some((word, after))
}

/// Returns what to write in place of an option that no subcommand, or not this one, has.
fn tip_for(word: &str) -> Option<&'static str> {
    Some(match word {
        "--threads" | "--jobs" | "--parallel" | "--thread" | "-j" | "-t" | "-w" => {
            "plan, profile and stress take '--workers N'"
        }
        "--workers" => "only plan, profile and stress take '--workers N'",
        "--scale" | "--scales" | "--slack" | "--sweep" => "use 'mhlink profile --sweep'",
        "--json" | "--format" | "--proof" | "--flow" | "--certificate" => {
            "plan and profile take '--certificate', which prints the plan as JSON"
        }
        "--iterations" | "--repeat" | "--count" | "--times" | "--rounds" | "-n" => {
            "stress takes '--rounds N'"
        }
        "--verbose" | "--debug" | "-v" | "-d" => "use '--explain'",
        "--summary" | "--state" | "--report" => "run and stress take '--report'",
        "--verify" | "--check" => "use 'mhlink check'",
        "--file" | "--input" | "--in" | "-f" | "-i" => "the input is standard input: '< FILE'",
        "--output" | "--out" | "-o" => "the output is standard output: '> FILE'",
        "--version" | "-V" => "use 'mhlink --version'",
        _ => return None,
    })
}
