//! The headline for threads, as a caller applies it to one answer.

ghost use Rattle.std.specs.Prelude.{◌≡◌, List, IfSome};
ghost use Rattle.mh_core.specs.declared.record.Record.{Record};
ghost use Rattle.mh_live.specs.Headline.{IsEarlier, meaning_after};

use crate::definitions::{open_plain, successor};
use mh_live::{ListName, Office, Opening, Outcome, Pass, Value, every_answer_is_right};
use std::alloc::Global;
use std::marker::Brand;
use std::sync::Wait;
use std::test::Fail;

/// Calls a site, and returns the outcome if the call is not ahead of the office: what the site's
/// tree means in a state that the office had.
fn judged<N: ListName>(
    office: &Office<N>,
    pass: &mut Pass<N>,
    site: usize,
    arguments: &[Value],
) -> Option<Outcome>
    ensures meaning { IfSome result (λ told. (past : List Record)
        × IsEarlier past office.now.book.records
        × (told ≡ meaning_after N.definition past site arguments.now)) }
{
    let Ok(answer) = pass.call(site, arguments) else {
        return None;
    };
    every_answer_is_right(office, pass);
    if office.front().len() < answer.front {
        return None;
    }
    Some(answer.outcome)
}

/// Returns the outcome of a call after a retargeting that its pass has learnt.
fn call_retargeted<N: ListName, R: Wait>(
    rt: &R,
    alloc: Global,
    opening: Opening,
) -> Result<Option<Outcome>, Fail>
    requires name { opening.name ≡ N.book }
    requires definition { opening.definition ≡ N.definition }
    requires limits { opening.limits ≡ N.limits }
    requires workers { opening.workers ≡ N.workers }
{
    let (live, mut passes) = opening.open::<N>()?;
    let receipt = live.set_target(rt, 0, successor(alloc)?)?;
    let Some(pass) = passes.get_mut(0) else {
        return Err(Fail::from("there is no pass"));
    };
    pass.learn(&receipt);
    let office = live.office(rt);
    Ok(judged(&office, pass, 0, &[Value::Int(2)]))
}

#[test]
fn the_headline_applies_to_an_answer(rt: HostRuntime) -> Result<(), Fail> {
    let opening = open_plain(rt.alloc(), 1, 7, 2)?;
    let told = call_retargeted::<Brand, _>(&rt, rt.alloc(), opening)?;
    assert!(rt; matches!(told, Some(Outcome::Value(Value::Int(3)))));
    Ok(())
}
