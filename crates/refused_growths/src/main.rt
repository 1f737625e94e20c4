//! The program `refused_growths`: does one thing that takes memory, so that `tools/refuse_growth`
//! can refuse each allocation of it in turn.
//!
//! `refused_growths SUBJECT` reads a script from standard input, prepares what the subject needs,
//! prints its state and `opened`. Then it does the work and prints `worked`, the result, and the
//! state. It does the work again and prints the same. Without a word it prints the subjects.
#![tactic(auto)]

mod histories;
mod offices;
mod openings;
mod script;
mod settling;
mod subject;
mod telling;
mod trees;

use crate::script::Input;
use crate::subject::{Subject, tell_subjects, try_subject};
use anyhow::Context;
use std::{env, io};

fn main(rt: HostRuntime) -> anyhow::Result<()> {
    let alloc = rt.alloc();
    let text = io::read_to_string(alloc, rt.stdin())?;
    let input = Input {
        alloc,
        bytes: text.as_bytes(),
    };
    let words = env::args(&rt)?.collect::<Vec<String>>(alloc)?;
    match words.as_slice() {
        [_, word] => {
            let subject = Subject::named(word.as_str()).context("no such subject")?;
            try_subject(&rt, input, subject)
        }
        _ => tell_subjects(&rt, input),
    }
}
