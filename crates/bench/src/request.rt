//! The request of a command line.

use crate::task::Task;
use anyhow::Context;

/// A way to make a call.
#[derive(Clone, Copy, Debug, PartialEq, Eq)]
pub(crate) enum Way {
    /// `run` of mh_run, on a tree that was prepared before.
    Run,
    /// `eval` of mh_eval, on the plain handle.
    Eval,
    /// `Machine::step`.
    Step,
    /// `Machine::step`, with a flush after each 1,000 calls.
    Flush,
}

impl Way {
    /// All ways.
    pub(crate) const ALL: [Way; 4] = [Way::Run, Way::Eval, Way::Step, Way::Flush];

    /// Returns the word of a way.
    pub(crate) fn word(self) -> &'static str {
        match self {
            Way::Run => "run",
            Way::Eval => "eval",
            Way::Step => "step",
            Way::Flush => "flush",
        }
    }

    /// Returns the way of a word.
    fn named(word: &str) -> Option<Way> {
        Way::ALL.into_iter().find(|way| way.word() == word)
    }
}

/// Calls of one kind.
#[derive(Clone, Copy)]
pub(crate) struct Calls {
    /// The way in which each is made.
    pub(crate) way: Way,
    /// The place of the call in the script, from 0.
    pub(crate) place: usize,
    /// The number of calls.
    pub(crate) rounds: u64,
    /// If true, the nanoseconds are printed.
    pub(crate) timed: bool,
}

/// The work that the command line asks for.
#[derive(Drop)]
pub(crate) enum Request {
    /// Calls of one kind.
    Calls(Calls),
    /// This many calls in every way of each call of the script.
    Table { rounds: u64 },
    /// A task of the planner, done this many times.
    Solve { task: Task, rounds: u64 },
}

impl Request {
    /// Reads the words of a command line, whose first is the program's name.
    pub(crate) fn read(words: &[String]) -> anyhow::Result<Request> {
        let words = words.get(1..).context("there is no command line")?;
        match words {
            [word, rounds] if word.as_str() == "table" => Ok(Request::Table {
                rounds: rounds_of(rounds)?,
            }),
            [word, task, rounds] if word.as_str() == "solve" => Ok(Request::Solve {
                task: Task::named(task).context("no such task")?,
                rounds: rounds_of(rounds)?,
            }),
            [word, way, place, rounds] if word.as_str() == "call" => calls_of(way, place, rounds),
            _ => anyhow::bail!(
                "usage: bench (call WAY PLACE ROUNDS | table ROUNDS | solve TASK ROUNDS) <INPUT"
            ),
        }
    }
}

/// Reads the request for timed calls.
fn calls_of(way: &str, place: &str, rounds: &str) -> anyhow::Result<Request> {
    Ok(Request::Calls(Calls {
        way: Way::named(way).context("no such way")?,
        place: place.parse::<usize>().context("the place is not a number")?,
        rounds: rounds_of(rounds)?,
        timed: true,
    }))
}

/// Reads a number of rounds.
fn rounds_of(word: &str) -> anyhow::Result<u64> {
    word.parse::<u64>().context("the rounds are not a number")
}
