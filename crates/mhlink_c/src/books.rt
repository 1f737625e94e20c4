//! The queries of machines and desks over their books, and the records made of arguments from C.

ghost use Rattle.std.specs.Prelude.{◌≡◌, ◌⊎◌, ◌<◌, Some, None, length, Ok, IfErr, IfOk, OnOk};
ghost use Rattle.mh_core.specs.Installations.{kept};
ghost use Rattle.mh_core.specs.Ledgers.{at};
ghost use Rattle.mhlink_c.specs.Changes.{HasNoBest, IsBest};
ghost use Rattle.mhlink_c.specs.Details.{detail_at as detail_of_book};
ghost use Rattle.mhlink_c.specs.Inputs.{IsFaultOf, tree_in};
ghost use Rattle.mhlink_c.specs.Questions.{IsUnknown, Tells};
ghost use Rattle.mhlink_c.specs.Statuses.{no_memory};
ghost use Rattle.mh_core.specs.declared.refusal.Refusal.TheVariants.{NoSite};
ghost use Rattle.mhlink_c.specs.declared.failure.Failure.TheVariants.{Refused, Unknown};

use crate::detail::detail_of;
use crate::details::told;
use crate::failure::Failure;
use crate::finding::{link_number, point_number, site_number};
use crate::request::Question;
use crate::texts::read_target;
use crate::value::value;
use mh_core::{Book, Declared, Listing, Plan, Refusal};
use mh_json::readers::Scope;
use mh_plan::plan_alone;
use std::alloc::Global;

/// Answers a query.
pub(crate) fn answer(alloc: Global, book: &Book, question: Question<'_>) -> Result<u64, Failure>
    ensures tells { IfOk result (λ n. Tells book.now question.entry n) }
    ensures unknown { IfErr result (IsUnknown book.now question.entry) }
{
    match question {
        Question::Site(name) => site_number(book.definition(), name),
        Question::Point(name) => point_number(book.definition(), name),
        Question::Link { site, key, text } => {
            link_number(book.definition(), site, &value(alloc, &key, text)?)
        }
        Question::Total(link) => total(book, link),
        Question::Linked(site) => linked(book, site),
        Question::Detail {
            detail,
            number,
            place,
        } => detail_at(book, detail, number, place),
    }
}

fn detail_at(book: &Book, detail: u32, number: usize, place: usize) -> Result<u64, Failure>
    ensures value { IfOk result (λ n. detail_of_book book.now detail number place ≡ Some n) }
    ensures unknown { IfErr result (λ e. (e ≡ Unknown)
        × (detail_of_book book.now detail number place ≡ None)) }
{
    let Some(detail) = detail_of(detail) else {
        return Err(Failure::Unknown);
    };
    match told(book, detail, number, place) {
        Some(told) => Ok(told),
        None => Err(Failure::Unknown),
    }
}

fn total(book: &Book, link: usize) -> Result<u64, Failure>
    ensures value { IfOk result (λ n. n ≡ at book.now.totals.total link) }
    ensures inside { OnOk result (link < length book.now.totals.total) }
    ensures unknown { IfErr result (λ e. (e ≡ Unknown)
        × (link < length book.now.totals.total → ⊥)) }
{
    let totals = book.totals();
    if link >= totals.links() {
        return Err(Failure::Unknown);
    }
    Ok(totals.total(link))
}

fn linked(book: &Book, site: usize) -> Result<u64, Failure>
    ensures value { IfOk result (λ n. n ≡ length (kept book.now.definition book.now.records site)) }
    ensures inside { OnOk result (site < length book.now.definition.sites) }
    ensures unknown { IfErr result (λ e. (e ≡ Unknown)
        × (site < length book.now.definition.sites → ⊥)) }
{
    if site >= book.definition().sites().len() {
        return Err(Failure::Unknown);
    }
    Ok(book.installed(site).len() as u64)
}

/// Reads the tree in JSON for a site, over the names of a definition.
pub(crate) fn read_tree(
    alloc: Global,
    book: &Book,
    scope: &Scope,
    site: usize,
    tree: &[u8],
) -> Result<Declared, Failure>
    ensures value { IfOk result (λ t. tree_in scope.now tree.now ≡ Ok t) }
    ensures inside { OnOk result (site < length book.now.definition.sites) }
    ensures refused { IfErr result (λ e.
        ((site < length book.now.definition.sites → ⊥) × (e ≡ Refused NoSite))
        ⊎ ((site < length book.now.definition.sites)
        × IsFaultOf (tree_in scope.now tree.now) e)) }
{
    if site >= book.definition().sites().len() {
        return Err(Failure::Refused(Refusal::NoSite));
    }
    read_target(alloc, scope, tree)
}

/// Returns points in the form of a record.
pub(crate) fn listed(alloc: Global, points: &[u32]) -> Result<Listing<u32>, Failure>
    ensures value { IfOk result (λ listed. listed ≡ points.now) }
    ensures refused { IfErr result (λ e. e ≡ no_memory) }
{
    Ok(Listing::from_vec(Vec::from_slice(alloc, points)?))
}

/// Computes the optimal plan for a snapshot with the fewest links.
pub(crate) fn best_plan_for(alloc: Global, book: &Book, snapshot: usize) -> Result<Plan, Failure>
    ensures best { IfOk result (IsBest book.now snapshot) }
    ensures refused { IfErr result (HasNoBest book.now snapshot) }
{
    let problem = book.problem(snapshot)?;
    Ok(plan_alone(alloc, &problem)?)
}
