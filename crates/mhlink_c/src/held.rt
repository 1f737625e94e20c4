//! Queries and changes of the machine that a handle owns.

ghost use Rattle.std.specs.Prelude.{◌≡◌, ◌≢◌, true, IfErr, IfOk, OnErr, OnOk};
ghost use Rattle.mhlink_c.specs.Changes.{MakesChange, RefusesChange};
ghost use Rattle.mhlink_c.specs.Hosts.{Records};
ghost use Rattle.mhlink_c.specs.Questions.{IsUnknown, Tells};
ghost use Rattle.mhlink_c.specs.Statuses.{part_of, status_of};
ghost use Rattle.mhlink_c.specs.declared.failure.Failure.{Failure as FaultOf};

use crate::books::answer;
use crate::failure::{Failure, write_answer, write_change};
use crate::handle::MhlinkMachine;
use crate::request::{Change, Question};
use core::mem::replace_with;
use std::alloc::Global;

/// Writes the answer to a query to `out`, if there is an answer.
pub(crate) fn look_up(
    alloc: Global,
    machine: &mut MhlinkMachine,
    question: Question<'_>,
    out: &mut u64,
) -> u32
    requires full { machine.old.full ≡ true }
    ensures full { machine.new.full ≡ true }
    ensures same { machine.new.value ≡ machine.old.value }
    ensures tells { result ≡ 0 → Tells machine.old.value.runtime.book question.entry
        out.new }
    ensures unknown { result ≢ 0 → (e : FaultOf) × ((result ≡ status_of e)
        × IsUnknown machine.old.value.runtime.book question.entry e) }
    ensures untouched { result ≢ 0 → out.new ≡ out.old }
{
    write_answer(replace_with(machine, (alloc, question), look_held), out)
}

fn look_held(
    machine: MhlinkMachine,
    asked: (Global, Question<'_>),
) -> (MhlinkMachine, Result<u64, Failure>)
    requires full { machine.full ≡ true }
    ensures full { result.0.full ≡ true }
    ensures same { result.0.value ≡ machine.value }
    ensures tells { IfOk result.1 (λ n. Tells machine.value.runtime.book asked.entry.1 n) }
    ensures unknown { IfErr result.1 (IsUnknown machine.value.runtime.book asked.entry.1) }
{
    let host = machine.into_box();
    let (alloc, question) = asked;
    let answer = answer(alloc, host.runtime.book(), question);
    (MhlinkMachine::of(host), answer)
}

/// Makes a change. Writes its answer to `out` if there is one, and otherwise its fault's detail to
/// `part`.
pub(crate) fn make_change(
    alloc: Global,
    machine: &mut MhlinkMachine,
    change: Change<'_>,
    out: &mut u64,
    part: &mut u64,
) -> u32
    requires full { machine.old.full ≡ true }
    ensures full { machine.new.full ≡ true }
    ensures makes { result ≡ 0 → MakesChange (Records machine.old.value machine.new.value)
        machine.old.value.runtime.book machine.old.value.scope change.entry out.new }
    ensures no_part { result ≡ 0 → part.new ≡ 0 }
    ensures refused { result ≢ 0 → (e : FaultOf) × ((result ≡ status_of e)
        × ((part.new ≡ part_of e)
        × RefusesChange machine.old.value.runtime.book machine.old.value.scope change.entry e)) }
    ensures kept { result ≢ 0 → machine.new.value ≡ machine.old.value }
    ensures untouched { result ≢ 0 → out.new ≡ out.old }
{
    write_change(
        replace_with(machine, (alloc, change), change_held),
        out,
        part,
    )
}

fn change_held(
    machine: MhlinkMachine,
    made: (Global, Change<'_>),
) -> (MhlinkMachine, Result<u64, Failure>)
    requires full { machine.full ≡ true }
    ensures full { result.0.full ≡ true }
    ensures makes { IfOk result.1 (MakesChange (Records machine.value result.0.value)
        machine.value.runtime.book machine.value.scope made.entry.1) }
    ensures refused { IfErr result.1 (RefusesChange machine.value.runtime.book machine.value.scope
        made.entry.1) }
    ensures kept { OnErr result.1 (result.0.value ≡ machine.value) }
{
    let mut host = machine.into_box();
    let (alloc, change) = made;
    let answer = host.change(alloc, change);
    (MhlinkMachine::of(host), answer)
}
