//! The steps of a script.
ghost use Rattle.std.specs.Prelude.{◌≡◌, [], ◌∷◌, ◌++◌, map, IfErr, OnOk};
ghost use Rattle.serde_json.specs.View.{view};
ghost use Rattle.mh_json.specs.Gives.{Gives, GivesNumbered, GivesUpTo, IsOfInput, no_memory};
ghost use Rattle.mh_json.specs.Script.{call_from, flush_from, target_from, invalidate_from, snapshot_from, offer_from, install_from, plan_from, event_named, events_of, named_site_of, step_named, step_of, steps_of, IsNext};

use crate::fault::{Fault, InputFault, TextFault};
use crate::json::declarations::Declarations;
use crate::json::plan::read_plan_value;
use crate::json::points::read_named_points;
use crate::json::scope::Scope;
use crate::json::shape::{each, list, number, text};
use crate::json::step::Step;
use crate::json::trees::read_declared;
use crate::json::values::read_values;
use crate::json::wanted::{Named, Numbered, Wanted, Word};
use crate::key::Key;
use crate::misread::{Misread, at};
use mh_core::{Arguments, Event, SharedPlan};
use mh_site::Listing;
use serde_json::Value;
use std::alloc::Global;

/// Returns the number of a site by its name, or one past the last number if no site has the name.
fn read_named_site(declared: &Declarations, value: &Value) -> Result<usize, Misread>
    ensures value { Gives (λ x. x) result
        (named_site_of declared.now.scope.sites (view value.now)) }
{
    Ok(declared.site_number(text(value, Wanted::NameOf(Named::Site))?))
}

fn read_call(alloc: Global, declared: &Declarations, args: &[Value]) -> Result<Event, Misread>
    ensures value { Gives (λ x. x) result (call_from declared.now (map view args.now)) }
{
    let [worker, name, values] = args else {
        return Err(Misread::bad_shape(Wanted::PartsOf(Word::Call)));
    };
    let worker = at(alloc, Key::Item(1), number(worker, Numbered::Worker))?;
    let site = at(alloc, Key::Item(2), read_named_site(declared, name))?;
    let kinds = declared.parameters(site);
    let values = at(alloc, Key::Item(3), read_values(alloc, kinds, values))?;
    let arguments = Arguments::from_vec(values.into_vec());
    Ok(Event::Call {
        worker,
        site,
        arguments,
    })
}

fn read_flush(alloc: Global, args: &[Value]) -> Result<Event, Misread>
    ensures value { Gives (λ x. x) result (flush_from (map view args.now)) }
{
    let [worker] = args else {
        return Err(Misread::bad_shape(Wanted::PartsOf(Word::Flush)));
    };
    let worker = at(alloc, Key::Item(1), number(worker, Numbered::Worker))?;
    Ok(Event::Flush { worker })
}

fn read_target(alloc: Global, declared: &Declarations, args: &[Value]) -> Result<Event, Misread>
    ensures value { Gives (λ x. x) result (target_from declared.now (map view args.now)) }
{
    let [name, tree] = args else {
        return Err(Misread::bad_shape(Wanted::PartsOf(Word::Target)));
    };
    let site = at(alloc, Key::Item(1), read_named_site(declared, name))?;
    let tree = at(
        alloc,
        Key::Item(2),
        read_declared(alloc, &declared.scope, tree),
    )?;
    Ok(Event::Target { site, tree })
}

fn read_invalidate(alloc: Global, scope: &Scope, args: &[Value]) -> Result<Event, Misread>
    ensures value { Gives (λ x. x) result (invalidate_from scope.now.points (map view args.now)) }
{
    let [names] = args else {
        return Err(Misread::bad_shape(Wanted::PartsOf(Word::Invalidate)));
    };
    let points = at(alloc, Key::Item(1), read_named_points(alloc, scope, names))?;
    Ok(Event::Invalidate { points })
}

fn read_snapshot(args: &[Value]) -> Result<Event, Misread>
    ensures value { Gives (λ x. x) result (snapshot_from (map view args.now)) }
{
    let [] = args else {
        return Err(Misread::bad_shape(Wanted::PartsOf(Word::Snapshot)));
    };
    Ok(Event::Snapshot)
}

fn read_offer(alloc: Global, args: &[Value]) -> Result<Event, Misread>
    ensures value { Gives (λ x. x) result (offer_from (map view args.now)) }
{
    let [snapshot, plan] = args else {
        return Err(Misread::bad_shape(Wanted::PartsOf(Word::Offer)));
    };
    let snapshot = at(alloc, Key::Item(1), number(snapshot, Numbered::Snapshot))? as usize;
    let plan = at(alloc, Key::Item(2), read_plan_value(alloc, plan))?;
    let plan = SharedPlan::new(alloc, plan)?;
    Ok(Event::Publish { snapshot, plan })
}

fn read_install(alloc: Global, args: &[Value]) -> Result<Event, Misread>
    ensures value { Gives (λ x. x) result (install_from (map view args.now)) }
{
    let [plan] = args else {
        return Err(Misread::bad_shape(Wanted::PartsOf(Word::Install)));
    };
    let plan = at(alloc, Key::Item(1), number(plan, Numbered::Plan))? as usize;
    Ok(Event::Install { plan })
}

fn read_plan_step(alloc: Global, args: &[Value]) -> Result<Step, Misread>
    ensures value { Gives (λ x. x) result (plan_from (map view args.now)) }
{
    let [snapshot] = args else {
        return Err(Misread::bad_shape(Wanted::PartsOf(Word::Plan)));
    };
    let snapshot = at(alloc, Key::Item(1), number(snapshot, Numbered::Snapshot))? as usize;
    Ok(Step::Plan { snapshot })
}

/// Reads the arguments of an event, by its word.
fn read_event(
    alloc: Global,
    declared: &Declarations,
    word: &str,
    args: &[Value],
) -> Result<Event, Misread>
    ensures value { Gives (λ x. x) result (event_named declared.now word.now (map view args.now)) }
{
    match word {
        "call" => read_call(alloc, declared, args),
        "flush" => read_flush(alloc, args),
        "target" => read_target(alloc, declared, args),
        "invalidate" => read_invalidate(alloc, &declared.scope, args),
        "snapshot" => read_snapshot(args),
        "offer" => read_offer(alloc, args),
        "install" => read_install(alloc, args),
        _ => Err(Misread::bad_shape(Wanted::EventWord)),
    }
}

/// Reads the arguments of a step, by its word.
fn read_named(
    alloc: Global,
    declared: &Declarations,
    word: &str,
    args: &[Value],
) -> Result<Step, Misread>
    ensures value { Gives (λ x. x) result (step_named declared.now word.now (map view args.now)) }
{
    if word == "plan" {
        return read_plan_step(alloc, args);
    }
    let event = read_event(alloc, declared, word, args)?;
    Ok(Step::Ask(event))
}

/// Reads a step of a script: a list of a word and its arguments.
pub(crate) fn read_step(
    alloc: Global,
    declared: &Declarations,
    value: &Value,
) -> Result<Step, Misread>
    ensures value { Gives (λ x. x) result (step_of declared.now (view value.now)) }
{
    let [head, args @ ..] = list(value, Wanted::Event)? else {
        return Err(Misread::bad_shape(Wanted::Event));
    };
    match text(head, Wanted::EventWord) {
        Ok(word) => read_named(alloc, declared, word, args),
        Err(misread) => Err(misread.behind(alloc, Key::Item(0))),
    }
}

/// Reads the steps of a script. The fault has its place.
pub(crate) fn read_events(
    alloc: Global,
    declared: &Declarations,
    value: &Value,
) -> Result<Listing<Step>, Misread>
    ensures value { Gives (λ x. x) result (events_of declared.now (view value.now)) }
{
    each(alloc, value, |event| read_step(alloc, declared, event))
}

/// Reads the step with this number, counted from 1.
fn read_numbered(
    alloc: Global,
    declared: &Declarations,
    value: &Value,
    at: u64,
) -> Result<Step, Fault>
    ensures value { GivesNumbered at result (step_of declared.now (view value.now)) }
    ensures kind { IfErr result (λ e. IsOfInput e.kind) }
{
    match read_step(alloc, declared, value) {
        Ok(step) => Ok(step),
        Err(cause) => Err(Fault {
            kind: TextFault::from(cause.fault()),
            at,
        }),
    }
}

/// Appends the step with this number.
fn push_step(steps: &mut Vec<Step>, step: Step, at: u64) -> Result<(), Fault>
    ensures ok { OnOk result (steps.new.items ≡ steps.old.items ++ step ∷ []) }
    ensures memory { IfErr result (λ e. e ≡ record { kind = no_memory; at = at }) }
{
    match steps.push(step) {
        Ok(()) => Ok(()),
        Err(_) => Err(Fault {
            kind: TextFault::Input(InputFault::NoMemory),
            at,
        }),
    }
}

/// Reads the steps. The first fault has the number of its step, counted from 1.
pub(crate) fn read_steps(
    alloc: Global,
    declared: &Declarations,
    values: &[Value],
) -> Result<Listing<Step>, Fault>
    ensures value { GivesUpTo (IsNext declared.now (map view values.now)) result
        (steps_of declared.now (map view values.now)) }
    ensures kind { IfErr result (λ e. IsOfInput e.kind) }
{
    let mut steps = Vec::new(alloc);
    for (i, value) in values.iter().enumerate() {
        let at = i as u64 + 1;
        let step = read_numbered(alloc, declared, value, at)?;
        push_step(&mut steps, step, at)?;
    }
    Ok(Listing::from_vec(steps))
}
