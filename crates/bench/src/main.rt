//! The program `bench`: does one thing many times, so that a script can time it.
//!
//! `bench call WAY PLACE ROUNDS` makes the call at a place of the script on standard input this many
//! times, and prints its outcome, the sum of the answers, the steps and the nanoseconds. `bench table
//! ROUNDS` makes each call of the script in every way, and prints no nanoseconds. `bench solve TASK
//! ROUNDS` finds the parts, a maximum flow, the best plan, or the scale of each link, of the problem
//! on standard input.
#![tactic(auto)]

mod called;
mod calling;
mod found;
mod input;
mod machines;
mod measuring;
mod numbers;
mod request;
mod subject;
mod tally;
mod task;

use crate::found::find;
use crate::input::read_problem;
use crate::measuring::{measure, measure_all};
use crate::request::Request;
use std::{env, io};

fn main(rt: HostRuntime) -> anyhow::Result<()> {
    let alloc = rt.alloc();
    let words = env::args(&rt)?.collect::<Vec<String>>(alloc)?;
    let request = Request::read(words.as_slice())?;
    let text = io::read_to_string(alloc, rt.stdin())?;
    match request {
        Request::Table { rounds } => measure_all(&rt, alloc, text.as_bytes(), rounds),
        Request::Calls(calls) => measure(&rt, alloc, text.as_bytes(), calls),
        Request::Solve { task, rounds } => {
            let problem = read_problem(alloc, text.as_str())?;
            match find(alloc, &problem, task, rounds)? {
                Some(found) => println!(rt; "{found}")?,
                None => println!(rt; "no round")?,
            }
            Ok(())
        }
    }
}
