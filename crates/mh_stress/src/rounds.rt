//! The rounds of one worker.
ghost use Rattle.std.specs.Prelude.{◌≡◌};
ghost use Rattle.mh_stress.specs.Rounds.{HasCalled, HasWorked, MakesCall};

use crate::division::Call;
use crate::stage::ShowRounds;
use crate::tally::{Tallies, Tally};
use mh_live::{CallFault, ListName, Live, Pass};
use std::sync::Wait;

/// Makes a call, if it is one of the pass's worker. A refused call is skipped.
fn make_call<N: ListName>(pass: &mut Pass<N>, call: &Call, tally: &mut Tally<CallFault>)
    ensures made { MakesCall N.definition call.now pass.old pass.new }
{
    if call.worker as usize == pass.worker() {
        let answer = pass.call(call.site, call.arguments.as_slice());
        tally.add(&answer);
    }
}

/// Makes those of these calls that are its worker's, in their order.
fn make_calls<N: ListName>(pass: &mut Pass<N>, calls: &[Call], tally: &mut Tally<CallFault>)
    ensures called { HasCalled N.definition calls.now pass.old pass.new }
{
    for call in calls {
        make_call(pass, call, tally);
    }
}

/// Shows how many rounds are made, if they are those of the first worker.
fn show_round<S: ShowRounds>(shows: &S, worker: usize, done: u32, rounds: u32) {
    if worker == 0 {
        shows.show(done, rounds);
    }
}

/// Shows how many calls and flushes were refused, if any were.
fn tell_refused<S: ShowRounds>(shows: &S, tallies: &Tallies) {
    if !tallies.is_clear() {
        shows.tell(tallies);
    }
}

/// Makes a worker's calls and flushes, `rounds` times; the rounds of the first worker are shown. A
/// refused flush is skipped. If calls or flushes are refused, a note says how many.
pub(crate) fn make_rounds<N: ListName, R: Wait, S: ShowRounds>(
    rt: &R,
    shows: &S,
    live: &Live<N>,
    mut pass: Pass<N>,
    calls: &[Call],
    rounds: u32,
) -> Pass<N>
    ensures worked { HasWorked N.definition calls.now rounds pass result }
{
    let mut tallies = Tallies::new(pass.worker());
    for round in 0..rounds {
        make_calls(&mut pass, calls, &mut tallies.calls);
        let receipt = live.flush(rt, &mut pass);
        tallies.flushes.add(&receipt);
        show_round(shows, pass.worker(), round + 1, rounds);
    }
    tell_refused(shows, &tallies);
    pass
}
