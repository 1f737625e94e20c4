//! The subjects.

use crate::histories::try_run;
use crate::offices::try_event;
use crate::openings::{try_new, try_open};
use crate::script::Input;
use crate::settling::try_settle;
use crate::trees::{Maker, try_maker};
use std::sync::Wait;

/// A work that takes memory.
#[derive(Clone, Copy, Debug, PartialEq, Eq)]
pub(crate) enum Subject {
    /// A constructor of trees, or a chain.
    Tree(Maker),
    /// `Machine::run`.
    Run,
    /// `Opening::new`.
    NewOpening,
    /// `Opening::open`.
    Open,
    /// `Live::settle`.
    Settle,
    /// The event at this place of the script, in an office.
    Event(usize),
}

/// The subjects other than events, with their words.
const NAMED: [(&str, Subject); 19] = [
    ("constant", Subject::Tree(Maker::Constant)),
    ("identity", Subject::Tree(Maker::Identity)),
    ("operation", Subject::Tree(Maker::Operation)),
    ("invocation", Subject::Tree(Maker::Invocation)),
    ("insertion", Subject::Tree(Maker::Insertion)),
    ("dropping", Subject::Tree(Maker::Dropping)),
    ("permutation", Subject::Tree(Maker::Permutation)),
    ("filters", Subject::Tree(Maker::Filters)),
    ("return-filter", Subject::Tree(Maker::ReturnFilter)),
    ("fold", Subject::Tree(Maker::Fold)),
    ("guard", Subject::Tree(Maker::Guard)),
    ("point", Subject::Tree(Maker::Point)),
    ("declaration", Subject::Tree(Maker::Declaration)),
    ("preparation", Subject::Tree(Maker::Preparation)),
    ("chain", Subject::Tree(Maker::Chain)),
    ("run", Subject::Run),
    ("new-opening", Subject::NewOpening),
    ("open", Subject::Open),
    ("settle", Subject::Settle),
];

impl Subject {
    /// Returns the subject of a word: a name, or the place of an event.
    pub(crate) fn named(word: &str) -> Option<Subject> {
        for (name, subject) in NAMED {
            if name == word {
                return Some(subject);
            }
        }
        let place = word.parse::<usize>().ok()?;
        Some(Subject::Event(place))
    }
}

/// Tries a subject.
pub(crate) fn try_subject<R: Print + Wait>(
    rt: &R,
    input: Input<'_>,
    subject: Subject,
) -> anyhow::Result<()> {
    match subject {
        Subject::Tree(maker) => try_maker(rt, input, maker),
        Subject::Run => try_run(rt, input),
        Subject::NewOpening => try_new(rt, input),
        Subject::Open => try_open(rt, input),
        Subject::Settle => try_settle(rt, input),
        Subject::Event(place) => try_event(rt, input, place),
    }
}

/// Prints the words of all subjects, one per line.
pub(crate) fn tell_subjects(rt: &impl Print, input: Input<'_>) -> anyhow::Result<()> {
    for (name, _) in NAMED {
        println!(rt; "{name}")?;
    }
    for place in 0..input.count()? {
        println!(rt; "{place}")?;
    }
    Ok(())
}
