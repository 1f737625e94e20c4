//! The program `mhlink`: scripts of calls, retargetings and invalidations, and checks of plans.
#![tactic(auto)]

mod progress;
mod prompt;
mod rounds;

use crate::progress::Progress;
use crate::prompt::Prompt;
use crate::rounds::Rounds;
use mh_command::{COMMAND_LINE, NO_MEMORY, Stage, Watched, command};
use std::io::{BufWriter, ErrorKind, IsTerminal};
use std::process::ExitCode;
use std::{env, io};

/// Returns whether the words, of which the first is the program's name, ask for this subcommand.
fn asks_for(words: &[String], subcommand: &str) -> bool {
    matches!(words.get(1), Some(word) if word.as_str() == subcommand)
}

/// Returns whether the words ask for explanations.
fn asks_to_explain(words: &[String]) -> bool {
    words.iter().any(|word| word.as_str() == "--explain")
}

fn main(rt: HostRuntime) -> io::Result<ExitCode> {
    let alloc = rt.alloc();
    let arguments = match env::args(&rt) {
        Ok(arguments) => arguments,
        Err(error) if error.kind() == ErrorKind::OutOfMemory => {
            return Ok(ExitCode::from(NO_MEMORY));
        }
        Err(_) => return Ok(ExitCode::from(COMMAND_LINE)),
    };
    let Ok(words) = arguments.collect::<Vec<String>>(alloc) else {
        return Ok(ExitCode::from(NO_MEMORY));
    };
    let Ok(out) = BufWriter::new(alloc, rt.stdout()) else {
        return Ok(ExitCode::from(NO_MEMORY));
    };
    let (input, errors) = (rt.stdin(), rt.stderr());
    let (is_typed, is_seen) = (input.is_terminal(), errors.is_terminal());
    let shows = asks_for(&words, "profile") && is_seen && !is_typed;
    let progress = Progress::new(&rt, input, errors, shows);
    let mut reader = Watched::new(Prompt::new(progress, rt.stderr(), is_seen && is_typed));
    let mut out = Watched::new(out);
    let mut err = Watched::new(rt.stderr());
    let stage = Stage {
        rt: &rt,
        shows: Rounds::new(
            &rt,
            asks_for(&words, "stress") && is_seen,
            is_seen || asks_to_explain(&words),
        ),
    };
    let status = command(
        &stage,
        alloc,
        words.as_slice(),
        &mut reader,
        &mut out,
        &mut err,
    );
    Ok(ExitCode::from(status))
}
