//! Scripts: a definition, a number of workers, and steps.
ghost use Rattle.std.specs.Prelude.{◌≡◌, IfErr};
ghost use Rattle.serde_json.specs.View.{view};
ghost use Rattle.mh_json.specs.Gives.{Gives, GivesUpTo, IsOfInput};
ghost use Rattle.mh_site.specs.Rules.{HasNoCharges};
ghost use Rattle.mh_site.specs.Places.{placed_made};
ghost use Rattle.mh_json.specs.Misfits.{fitted, of_misfit};
ghost use Rattle.mh_json.specs.Script.{definition_of, preamble_of, workers_of, step_list_of, script_of, script_read, script_with, IsNextOf, IsReached, script_of_input, IsReachedIn};

use crate::fault::{Fault, InputFault};
use crate::json::declarations::Declarations;
use crate::json::events::{read_events, read_steps};
use crate::json::limits::read_limits;
use crate::json::points::{point_names, read_points};
use crate::json::read_json;
use crate::json::shape::{count, list, member, part};
use crate::json::shared::read_shared_trees;
use crate::json::sites::{Sited, read_site_list};
use crate::json::step::Step;
use crate::json::versions::read_version;
use crate::json::wanted::Wanted;
use crate::key::Field;
use crate::misfit::misread_of_misfit;
use crate::misread::Misread;
use mh_base::MOST_WORKERS;
use mh_core::Limits;
use mh_site::{Definition, Listing, Point, Site, Version};
use serde_json::Value;
use std::alloc::Global;

/// The script of a run.
#[derive(Debug, Drop)]
pub struct Script {
    pub definition: Definition,
    pub workers: u32,
    pub limits: Limits,
    pub steps: Listing<Step>,
}

/// The part of a script before its events.
#[derive(Drop)]
pub struct Preamble {
    pub declared: Declarations,
    pub workers: u32,
    pub limits: Limits,
}

impl Preamble {
    /// Returns the script with these steps.
    fn with_steps(self, steps: Listing<Step>) -> Script
        ensures value { result ≡ script_with self steps }
    {
        let Preamble {
            declared,
            workers,
            limits,
        } = self;
        let Declarations { definition, .. } = declared;
        Script {
            definition,
            workers,
            limits,
            steps,
        }
    }
}

/// Makes the definition of points and sites that were read.
fn define(
    alloc: Global,
    version: Version,
    points: Listing<Point>,
    sites: Listing<Site>,
) -> Result<Definition, Misread>
    requires charges { HasNoCharges version sites }
    ensures value { Gives (λ x. x) result (fitted of_misfit (placed_made version points sites)) }
{
    match Definition::placed(alloc, version, points, sites) {
        Ok(definition) => Ok(definition),
        Err(misfit) => Err(misread_of_misfit(alloc, misfit)),
    }
}

/// Reads a definition: its version, points, shared trees and sites, and then makes it.
#[tactic(auto, unfolding(crate::specs::Script::definition_of))]
pub fn read_definition(alloc: Global, value: &Value) -> Result<Declarations, Misread>
    ensures value { Gives (λ x. x) result (definition_of (view value.now)) }
{
    let version = member(alloc, value, Field::Version, read_version)?;
    let points = member(
        alloc,
        value,
        Field::Points,
        |points| read_points(alloc, points),
    )?;
    let names = point_names(alloc, points.as_slice())?;
    let scope = read_shared_trees(alloc, names, value)?;
    let Sited { scope, sites } = read_site_list(alloc, version, scope, value)?;
    let definition = define(alloc, version, points, sites)?;
    Ok(Declarations { definition, scope })
}

/// Reads the number of workers: 1 to 64.
fn read_workers(value: &Value) -> Result<u32, Misread>
    ensures value { Gives (λ x. x) result (workers_of (view value.now)) }
{
    let workers = count(value, u64::from(MOST_WORKERS), Wanted::Workers)?;
    if workers == 0 {
        return Err(Misread::bad_shape(Wanted::Workers));
    }
    Ok(workers as u32)
}

/// Reads the definition of a script, its workers and its limits.
#[tactic(auto, unfolding(crate::specs::Script::preamble_of))]
fn read_preamble(alloc: Global, value: &Value) -> Result<Preamble, Misread>
    ensures value { Gives (λ x. x) result (preamble_of (view value.now)) }
{
    let declared = member(
        alloc,
        value,
        Field::Definition,
        |definition| read_definition(alloc, definition),
    )?;
    let workers = member(alloc, value, Field::Workers, read_workers)?;
    let limits = read_limits(alloc, value)?;
    Ok(Preamble {
        declared,
        workers,
        limits,
    })
}

fn read_step_list(
    alloc: Global,
    declared: &Declarations,
    value: &Value,
) -> Result<Listing<Step>, Fault>
    ensures value { GivesUpTo (IsNextOf declared.now (view value.now)) result
        (step_list_of declared.now (view value.now)) }
    ensures kind { IfErr result (λ e. IsOfInput e.kind) }
{
    let events = list(part(value, Field::Events)?, Wanted::List)?;
    read_steps(alloc, declared, events)
}

/// Reads a script from a JSON value. Fails with the first fault in the order of reading: the part
/// before the events, and then the events.
pub fn read_script_value(alloc: Global, value: &Value) -> Result<Script, Fault>
    ensures value { GivesUpTo (IsReached (view value.now)) result (script_of (view value.now)) }
    ensures kind { IfErr result (λ e. IsOfInput e.kind) }
{
    let preamble = read_preamble(alloc, value)?;
    let steps = read_step_list(alloc, &preamble.declared, value)?;
    Ok(preamble.with_steps(steps))
}

/// Reads a script from a JSON value. The fault has its place.
pub(crate) fn read_placed_script(alloc: Global, value: &Value) -> Result<Script, Misread>
    ensures value { Gives (λ x. x) result (script_read (view value.now)) }
{
    let preamble = read_preamble(alloc, value)?;
    let declared = &preamble.declared;
    let steps = member(
        alloc,
        value,
        Field::Events,
        |events| read_events(alloc, declared, events),
    )?;
    Ok(preamble.with_steps(steps))
}

/// Reads a script from an input. Fails with the first fault in the order of reading: its length,
/// its JSON, the definition (version, points, shared trees, sites), the workers, the limits, the
/// events.
pub fn read_script(alloc: Global, input: &[u8]) -> Result<Script, Fault>
    ensures value { GivesUpTo (IsReachedIn input.now) result (script_of_input input.now) }
    ensures kind { IfErr result (λ e. IsOfInput e.kind) }
{
    read_script_value(alloc, &read_json(alloc, input)?)
}
