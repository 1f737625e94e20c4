//! Problems of selection.
ghost use Rattle.std.specs.Prelude.{◌≡◌, ◌⊎◌, ◌^◌, ◌-◌, option_map, Ok, IfOk, IfErr};
ghost use Rattle.serde_json.specs.View.{view};
ghost use Rattle.mh_json.specs.Gives.{Gives, IsOfInput, at_place};
ghost use Rattle.mh_base.specs.Tests.{Passes, Refuses};
ghost use Rattle.mh_json.specs.Misfits.{keys_in_problem};
ghost use Rattle.mh_json.specs.Problems.{place_in, problem_read, row_list_of, row_of, rows_of, rows_at, rows_of_input, truth_of, IsMade, MakesProblem};
ghost use Rattle.mh_json.specs.Shape.{count_of, counts_of};
ghost use Rattle.mh_json.specs.Versions.{version_tests};

use crate::fault::{Fault, InputFault};
use crate::json::read_json;
use crate::json::shape::{amount, each, member, member_or, number, part_at};
use crate::json::versions::{most_links, read_charge, read_version};
use crate::json::wanted::{Numbered, Wanted};
use crate::key::Field;
use crate::misfit::misread_of_problem;
use crate::misread::Misread;
use mh_base::demand;
use mh_network::{
    GREATEST_SUM, LinkRow, Listing, Problem, ProblemFault, ProblemMisfit, ProblemPlace,
};
use mh_site::Version;
use serde_json::Value;
use std::alloc::Global;

/// The version of a problem, and its links and costs, by number.
#[derive(Drop)]
pub struct ProblemRows {
    pub version: Version,
    pub links: Listing<LinkRow>,
    pub costs: Listing<u64>,
}

/// Reads a list of the numbers of links or points.
pub(crate) fn read_numbers(
    alloc: Global,
    numbered: Numbered,
    value: &Value,
) -> Result<Listing<u32>, Misread>
    ensures value { Gives (λ x. x) result (counts_of (2 ^ 32 - 1) (view value.now)) }
{
    each(alloc, value, |item| number(item, numbered))
}

/// Reads a gain or a cost. More than the greatest sum is not lawful.
fn sum(value: &Value) -> Result<u64, Misread>
    ensures value { Gives (λ x. x) result (count_of (2 ^ 63 - 1) (view value.now)) }
{
    amount(value, GREATEST_SUM)
}

/// Reads the costs of points.
fn read_costs(alloc: Global, value: &Value) -> Result<Listing<u64>, Misread>
    ensures value { Gives (λ x. x) result (counts_of (2 ^ 63 - 1) (view value.now)) }
{
    each(alloc, value, sum)
}

/// Reads a truth value.
fn read_truth(value: &Value) -> Result<bool, Misread>
    ensures value { Gives (λ x. x) result (truth_of (view value.now)) }
{
    value.as_bool().ok_or(Misread::bad_shape(Wanted::Truth))
}

/// Reads a link of a problem: its gain, whether it is eligible (default `true`), its needs and its
/// charge.
fn read_row(alloc: Global, version: Version, link: &Value) -> Result<LinkRow, Misread>
    ensures value { Gives (λ x. x) result (row_of version (view link.now)) }
{
    let gain = member(alloc, link, Field::Gain, sum)?;
    let eligible = member_or(alloc, link, Field::Eligible, true, read_truth)?;
    let needs = member(
        alloc,
        link,
        Field::Needs,
        |needs| read_numbers(alloc, Numbered::Point, needs),
    )?;
    let charge = read_charge(alloc, version, link, GREATEST_SUM)?;
    Ok(LinkRow {
        gain,
        eligible,
        needs,
        charge,
    })
}

/// Reads the links of a problem.
fn read_row_list(
    alloc: Global,
    version: Version,
    value: &Value,
) -> Result<Listing<LinkRow>, Misread>
    ensures value { Gives (λ x. x) result (row_list_of version (view value.now)) }
{
    each(alloc, value, |link| read_row(alloc, version, link))
}

/// Reads the version, the costs and the links of a problem.
pub fn read_rows(alloc: Global, problem: &Value) -> Result<ProblemRows, Misread>
    ensures value { Gives (λ x. x) result (rows_of (view problem.now)) }
{
    let version = member(alloc, problem, Field::Version, read_version)?;
    let costs = member(
        alloc,
        problem,
        Field::Costs,
        |costs| read_costs(alloc, costs),
    )?;
    let links = member(
        alloc,
        problem,
        Field::Links,
        |links| read_row_list(alloc, version, links),
    )?;
    Ok(ProblemRows {
        version,
        links,
        costs,
    })
}

/// Reads the rows of a problem from a value, or from its member at a key.
fn read_rows_at(alloc: Global, value: &Value, key: Option<&str>) -> Result<ProblemRows, Misread>
    ensures value { Gives (λ x. x) result
        (rows_at (option_map (λ k. k.now) key.entry) (view value.now)) }
{
    read_rows(alloc, part_at(value, key)?)
}

/// Makes the problem of rows that were read. Fails if there are too many links or points for their
/// version, and then as `Problem::placed` does.
fn make_problem(alloc: Global, rows: &ProblemRows) -> Result<Problem, ProblemMisfit>
    ensures made { IfOk result (λ p. IsMade rows.now p) }
    ensures refused { let tests = version_tests rows.now.version rows.now.links rows.now.costs in
        IfErr result (λ m. Refuses tests m.fault
        ⊎ (Passes tests × (m.fault ≡ ProblemFault.NoMemory))) }
    ensures placed { IfErr result (λ m. (m.fault ≡ ProblemFault.NoMemory)
        ⊎ (keys_in_problem m.place ≡ place_in rows.now.links rows.now.costs m.fault)) }
{
    let (links, costs) = (rows.links.as_slice(), rows.costs.as_slice());
    demand(
        links.len() <= most_links(rows.version),
        ProblemMisfit {
            fault: ProblemFault::TooManyLinks,
            place: ProblemPlace::Links,
        },
    )?;
    demand(
        costs.len() <= rows.version.most_points(),
        ProblemMisfit {
            fault: ProblemFault::TooManyPoints,
            place: ProblemPlace::Points,
        },
    )?;
    Problem::placed(alloc, links, costs)
}

/// Reads the rows of a problem, and makes the problem.
pub(crate) fn read_problem_value(alloc: Global, value: &Value) -> Result<Problem, Misread>
    ensures value { Gives (λ x. x) result (problem_read (view value.now)) }
{
    let rows = read_rows(alloc, value)?;
    match make_problem(alloc, &rows) {
        Ok(problem) => Ok(problem),
        Err(misfit) => Err(misread_of_problem(alloc, misfit)),
    }
}

/// Makes the problem of rows that were read. A fault is at 0.
fn problem_of(alloc: Global, rows: &ProblemRows) -> Result<Problem, Fault>
    ensures value { MakesProblem (Ok rows.now) result }
    ensures kind { IfErr result (λ e. IsOfInput e.kind) }
{
    match make_problem(alloc, rows) {
        Ok(problem) => Ok(problem),
        Err(misfit) => Err(Fault::from(InputFault::from(misfit.fault))),
    }
}

/// Reads a problem from a value, or from its member at a key.
pub fn read_problem_at(alloc: Global, value: &Value, key: Option<&str>) -> Result<Problem, Fault>
    ensures value { MakesProblem (at_place 0
        (rows_at (option_map (λ k. k.now) key.entry) (view value.now))) result }
    ensures kind { IfErr result (λ e. IsOfInput e.kind) }
{
    let rows = read_rows_at(alloc, value, key)?;
    problem_of(alloc, &rows)
}

/// Reads the problem of selection that an input is, or that its JSON object has at the key
/// `member`.
///
/// A problem is `{"version":2,"costs":[N..],"links":[LINK..]}`, and a LINK is
/// `{"gain":N,"eligible":true,"needs":[N..],"charge":N}`; `eligible` defaults to true, and `charge`
/// to 0. Numbers are 0 to 2^63 - 1, those of points in `needs` 0 to 2^32 - 1. Version 1 ignores
/// `charge`, and allows at most 4,096 links and 1,024 points. Fails with the first fault, at 0: the
/// input's length, its JSON, the shapes of the version, the costs and the links in order, too many
/// links or points for the version, and then the faults of `Problem::new`.
pub fn read_problem(alloc: Global, input: &[u8], member: Option<&str>) -> Result<Problem, Fault>
    ensures value { MakesProblem (rows_of_input (option_map (λ k. k.now) member.entry) input.now)
        result }
    ensures kind { IfErr result (λ e. IsOfInput e.kind) }
{
    read_problem_at(alloc, &read_json(alloc, input)?, member)
}
