//! The lines of a profile's plan, in which links and points have their names.
ghost use Rattle.std.specs.Prelude.{◌≡◌, ◌<◌, ◌++◌, All, flat_map, length, string_bytes, IfOk, IfSome, OnOk};
ghost use Rattle.std.specs.List.{sum_by};
ghost use Rattle.serde_json.specs.Data.{string};
ghost use Rattle.serde_json.specs.Written.{compact_text};
ghost use Rattle.mh_cert.specs.Plans.{Matches};
ghost use Rattle.mh_network.specs.Problems.{charge_of, cost_of, gain_of, IsProblem};
ghost use Rattle.mh_profile.specs.Accounts.{IsAccount};
ghost use Rattle.mh_profile.specs.PlanLines.{charge_text, chosen_text, counts_text, gives_text, head_text, left_text, line as line_of, link_lines, link_text, paid_text, point_lines, point_text, profile_text, spent_text, sums_text, swept_link_text};
ghost use Rattle.mh_profile.specs.Sweeps.{swept_text};

use crate::accounts::{Account, is_among, paid, rows_of};
use crate::named::NamedProblem;
use crate::sweep_lines::{swept_part, until_part};
use mh_base::NoMemory;
use mh_cert::Plan;
use mh_network::Problem;
use mh_sweep::Sweep;
use serde_json::Value;
use std::alloc::Global;

/// Returns a name as a string of JSON.
///
/// Fails only if memory runs out.
pub fn quoted(alloc: Global, name: &str) -> Result<String, NoMemory>
    ensures value { IfOk result (λ s. string_bytes s ≡ compact_text (string name.now)) }
{
    let value = Value::String(String::from_str(alloc, name)?);
    Ok(value.to_string(alloc)?)
}

/// Returns the sum of the gains of links, and that of their charges.
fn gains_and_charges(problem: &Problem, links: &[u32]) -> (u128, u128)
    requires inside { All (λ j. j < length problem.now.links) links.now }
    ensures gains { result.0 ≡ sum_by (gain_of problem.now) links.now }
    ensures charges { result.1 ≡ sum_by (charge_of problem.now) links.now }
{
    let (mut gains, mut charges): (u128, u128) = (0, 0);
    for link in links {
        gains += u128::from(problem.gain(*link as usize));
        charges += u128::from(problem.charge(*link as usize));
    }
    (gains, charges)
}

/// Returns the sum of the costs of points.
fn costs(problem: &Problem, points: &[u32]) -> u128
    requires inside { All (λ p. p < length problem.now.costs) points.now }
    ensures value { result ≡ sum_by (cost_of problem.now) points.now }
{
    let mut sum: u128 = 0;
    for point in points {
        sum += u128::from(problem.cost(*point as usize));
    }
    sum
}

/// Writes how many links and points are selected, of how many.
fn counts(alloc: Global, problem: &Problem, plan: &Plan) -> Result<String, NoMemory>
    ensures value { IfOk result (λ s. string_bytes s ≡ counts_text problem.now plan.now) }
{
    let (links, points) = (plan.links.len(), plan.points.len());
    let (all_links, all_points) = (problem.links(), problem.points());
    Ok(format!(in alloc; "links {links} of {all_links} points {points} of {all_points}")?)
}

/// Writes what the links gain, what their points cost, what they are charged, and the value.
fn sums(alloc: Global, problem: &Problem, plan: &Plan) -> Result<String, NoMemory>
    requires problem { IsProblem problem.now }
    requires matching { Matches problem.now plan.now }
    ensures value { IfOk result (λ s. string_bytes s ≡ sums_text problem.now plan.now) }
{
    let (gain, charge) = gains_and_charges(problem, plan.links.as_slice());
    let cost = costs(problem, plan.points.as_slice());
    let value = plan.value;
    Ok(format!(in alloc; "gain {gain} costs {cost} charges {charge} value {value}")?)
}

/// Writes how many links and points are selected, their value, and up to which scale the costs are
/// swept, if they are.
fn head(
    alloc: Global,
    problem: &Problem,
    plan: &Plan,
    sweep: &Option<Sweep>,
) -> Result<String, NoMemory>
    requires matching { Matches problem.now plan.now }
    ensures value { IfOk result (λ s. string_bytes s
        ≡ head_text problem.now plan.now ++ swept_text sweep.now) }
{
    let _links = problem.links();
    let counts = counts(alloc, problem, plan)?;
    let sums = sums(alloc, problem, plan)?;
    let mut head = format!(in alloc; "profile {counts} {sums}")?;
    let swept = swept_part(alloc, sweep)?;
    head.push_str(swept.as_str())?;
    Ok(head)
}

/// Writes the charge of a selected link, if it has one.
fn charge_line(alloc: Global, charge: u64) -> Result<String, NoMemory>
    ensures value { IfOk result (λ s. string_bytes s ≡ charge_text charge) }
{
    if charge == 0 {
        return Ok(String::new(alloc));
    }
    Ok(format!(in alloc; " charge {charge}")?)
}

/// Writes what is paid of the charge of a link that is not selected, if it has one.
fn paid_line(alloc: Global, charge: u64, paid: u128) -> Result<String, NoMemory>
    ensures value { IfOk result (λ s. string_bytes s ≡ paid_text charge paid) }
{
    if charge == 0 {
        return Ok(String::new(alloc));
    }
    Ok(format!(in alloc; " charge {paid} of {charge}")?)
}

/// Writes what the rows of a link give to their points.
fn gives_line(
    alloc: Global,
    named: &NamedProblem,
    rows: &[(u32, u32, u64)],
) -> Result<String, NoMemory>
    ensures value { IfOk result (λ s. string_bytes s
        ≡ flat_map (gives_text named.now.points) rows.now) }
{
    let mut line = String::new(alloc);
    for row in rows {
        let name = quoted(alloc, named.points.name(row.1 as usize))?;
        let gives = format!(in alloc; " gives {} to {name}", row.2)?;
        line.push_str(gives.as_str())?;
    }
    Ok(line)
}

/// Writes a link that is selected.
fn chosen_line(alloc: Global, named: &NamedProblem, link: u32) -> Result<String, NoMemory>
    requires inside { link < length named.now.problem.links }
    ensures value { IfOk result (λ s. string_bytes s ≡ chosen_text named.now link) }
{
    let name = quoted(alloc, named.links.name(link as usize))?;
    let gain = named.problem.gain(link as usize);
    let charge = charge_line(alloc, named.problem.charge(link as usize))?;
    Ok(format!(in alloc; "link {name} gain {gain}{charge}")?)
}

/// Writes the gain of a link that is not selected, and where it went.
fn spent_line(
    alloc: Global,
    named: &NamedProblem,
    plan: &Plan,
    link: u32,
) -> Result<String, NoMemory>
    requires inside { link < length named.now.problem.links }
    requires matching { Matches named.now.problem plan.now }
    ensures value { IfOk result (λ s. string_bytes s ≡ spent_text named.now plan.now link) }
{
    let problem = &named.problem;
    let gain = problem.gain(link as usize);
    let paid = paid(plan.charges.as_slice(), link);
    let paid = paid_line(alloc, problem.charge(link as usize), paid)?;
    let gives = gives_line(alloc, named, rows_of(plan.flow.as_slice(), link))?;
    Ok(format!(in alloc; " gain {gain}{paid}{gives}")?)
}

/// Writes a link that is not selected: it is not eligible, or it spends all that it gains.
fn left_line(
    alloc: Global,
    named: &NamedProblem,
    plan: &Plan,
    link: u32,
) -> Result<String, NoMemory>
    requires inside { link < length named.now.problem.links }
    requires matching { Matches named.now.problem plan.now }
    ensures value { IfOk result (λ s. string_bytes s ≡ left_text named.now plan.now link) }
{
    let name = quoted(alloc, named.links.name(link as usize))?;
    if !named.problem.eligible(link as usize) {
        return Ok(format!(in alloc; "left {name} not eligible")?);
    }
    let spent = spent_line(alloc, named, plan, link)?;
    Ok(format!(in alloc; "left {name}{spent}")?)
}

/// Writes the decision for a link.
fn link_line(
    alloc: Global,
    named: &NamedProblem,
    plan: &Plan,
    link: u32,
) -> Result<String, NoMemory>
    requires inside { link < length named.now.problem.links }
    requires matching { Matches named.now.problem plan.now }
    ensures value { IfOk result (λ s. string_bytes s ≡ link_text named.now plan.now link) }
{
    if is_among(plan.links.as_slice(), link) {
        chosen_line(alloc, named, link)
    } else {
        left_line(alloc, named, plan, link)
    }
}

/// Writes the decision for a link, and up to which scale it is selected, if the costs are swept.
fn swept_link_line(
    alloc: Global,
    named: &NamedProblem,
    plan: &Plan,
    sweep: &Option<Sweep>,
    link: u32,
) -> Result<String, NoMemory>
    requires inside { link < length named.now.problem.links }
    requires matching { Matches named.now.problem plan.now }
    requires counted { IfSome sweep.now (λ s. length s.until ≡ length named.now.problem.links) }
    ensures value { IfOk result (λ s. string_bytes s
        ≡ swept_link_text named.now plan.now sweep.now link) }
{
    let mut line = link_line(alloc, named, plan, link)?;
    let until = until_part(alloc, &named.problem, sweep, link as usize)?;
    line.push_str(until.as_str())?;
    Ok(line)
}

/// Writes the decision for a point: a selected link needs it, or it is not paid for.
fn point_line(
    alloc: Global,
    named: &NamedProblem,
    plan: &Plan,
    account: &Account,
    point: u32,
) -> Result<String, NoMemory>
    requires inside { point < length named.now.problem.costs }
    requires matching { Matches named.now.problem plan.now }
    requires account { IsAccount named.now.problem plan.now account.now }
    ensures value { IfOk result (λ s. string_bytes s ≡ point_text named.now plan.now point) }
{
    let name = quoted(alloc, named.points.name(point as usize))?;
    let cost = named.problem.cost(point as usize);
    let chosen = is_among(plan.points.as_slice(), point);
    let slack = account.slack(&named.problem, chosen, point as usize);
    if chosen {
        return Ok(format!(in alloc; "point {name} cost {cost} slack {slack}")?);
    }
    let gets = account.gets(point as usize);
    Ok(format!(in alloc; "unpaid {name} cost {cost} gets {gets} slack {slack}")?)
}

/// Appends a text as a line.
pub(crate) fn push_line(out: &mut String, text: &str) -> Result<(), NoMemory>
    ensures value { OnOk result (string_bytes out.new
        ≡ string_bytes out.old ++ line_of text.now) }
{
    out.push_str(text)?;
    out.push('\n')?;
    Ok(())
}

/// Appends the lines of the links.
fn push_links(
    out: &mut String,
    alloc: Global,
    named: &NamedProblem,
    plan: &Plan,
    sweep: &Option<Sweep>,
) -> Result<(), NoMemory>
    requires matching { Matches named.now.problem plan.now }
    requires counted { IfSome sweep.now (λ s. length s.until ≡ length named.now.problem.links) }
    ensures value { OnOk result (string_bytes out.new ≡ string_bytes out.old
        ++ link_lines named.now plan.now sweep.now (length named.now.problem.links)) }
{
    for link in 0..named.problem.links() {
        let line = swept_link_line(alloc, named, plan, sweep, link as u32)?;
        push_line(out, line.as_str())?;
    }
    Ok(())
}

/// Appends the lines of the points.
fn push_points(
    out: &mut String,
    alloc: Global,
    named: &NamedProblem,
    plan: &Plan,
    account: &Account,
) -> Result<(), NoMemory>
    requires matching { Matches named.now.problem plan.now }
    requires account { IsAccount named.now.problem plan.now account.now }
    ensures value { OnOk result (string_bytes out.new ≡ string_bytes out.old
        ++ point_lines named.now plan.now (length named.now.problem.costs)) }
{
    for point in 0..named.problem.points() {
        let line = point_line(alloc, named, plan, account, point as u32)?;
        push_line(out, line.as_str())?;
    }
    Ok(())
}

/// Returns the lines of a plan of a profile, each with its end: how many links and points are
/// selected of how many, with their gains, costs, charges and value; then each link and each point,
/// in the order of the profile. Names are strings of JSON.
///
/// ```
/// profile links 1 of 3 points 1 of 2 gain 9 costs 5 charges 2 value 2
/// link "x" gain 9 charge 2
/// left "y" gain 3 gives 3 to "b"
/// left "z" not eligible
/// point "a" cost 5 slack 2
/// unpaid "b" cost 7 gets 3 slack 4
/// ```
///
/// A link that is not selected spends all that it gains, on its charge and on points that it needs
/// (`mh_network::left_links_spend_all`), and an unpaid point gets what such links give to it. The
/// amounts come from one maximum flow; another could distribute them differently. `slack` is by how
/// much the cost of a selected point may rise, or that of an unpaid one fall, while the selected
/// links remain optimal.
///
/// With a sweep, the first line and those of eligible links end with scales of the costs: up to
/// which scale the sweep goes, and up to which scale the link is selected.
///
/// ```
/// profile links 1 of 3 points 1 of 2 gain 9 costs 5 charges 2 value 2 sweep 1000.000
/// link "x" gain 9 charge 2 until 1.400
/// left "y" gain 3 gives 3 to "b" until 0.429
/// ```
pub fn profile_lines(
    alloc: Global,
    named: &NamedProblem,
    plan: &Plan,
    sweep: &Option<Sweep>,
) -> Result<String, NoMemory>
    requires matching { Matches named.now.problem plan.now }
    requires counted { IfSome sweep.now (λ s. length s.until ≡ length named.now.problem.links) }
    ensures value { IfOk result (λ s. string_bytes s ≡ profile_text named.now plan.now sweep.now) }
{
    let account = Account::new(alloc, &named.problem, plan)?;
    let mut lines = String::new(alloc);
    let head = head(alloc, &named.problem, plan, sweep)?;
    push_line(&mut lines, head.as_str())?;
    push_links(&mut lines, alloc, named, plan, sweep)?;
    push_points(&mut lines, alloc, named, plan, &account)?;
    Ok(lines)
}
