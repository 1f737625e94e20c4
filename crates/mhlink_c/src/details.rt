//! Properties of a book, each a number.

ghost use Rattle.std.specs.Prelude.{◌≡◌, ◌<◌, length, option_map};
ghost use Rattle.std.specs.List.{slice_get};
ghost use Rattle.mh_core.specs.Installations.{IsPublished, kept};
ghost use Rattle.mh_core.specs.Links.{links as links_of};
ghost use Rattle.mhlink_c.specs.Details.{count, current_at_site, kind_number as number_of_kind, link_detail, link_of_site, plan_detail, point_detail, site_detail, told as told_of, truth as number_of_truth};

use crate::detail::{CountDetail, Detail, LinkDetail, PlanDetail, PointDetail, SiteDetail};
use mh_core::{Book, Definition, Kind, MethodType};

/// Returns a property of a point, a site, a link or a plan, by number; `place` selects an element
/// if the property is a list. Returns `None` if there is none.
pub(crate) fn told(book: &Book, detail: Detail, number: usize, place: usize) -> Option<u64>
    ensures value { result ≡ told_of book.now detail number place }
{
    match detail {
        Detail::Count(detail) => Some(count_of(book.definition(), detail)),
        Detail::Point(_) if number >= book.definition().points().len() => None,
        Detail::Point(detail) => Some(of_point(book, detail, number)),
        Detail::Site(_) if number >= book.definition().sites().len() => None,
        Detail::Site(detail) => of_site(book, detail, number, place),
        Detail::Link(_) if number >= book.definition().link_count() => None,
        Detail::Link(detail) => of_link(book, detail, number, place),
        Detail::Plan(_) if number == 0 || number > book.plan_count() => None,
        Detail::Plan(detail) => of_plan(book, detail, number, place),
    }
}

fn count_of(definition: &Definition, detail: CountDetail) -> u64
    ensures value { result ≡ count definition.now detail }
{
    let count = match detail {
        CountDetail::Points => definition.points().len(),
        CountDetail::Sites => definition.sites().len(),
        CountDetail::Links => definition.link_count(),
    };
    count as u64
}

fn of_point(book: &Book, detail: PointDetail, point: usize) -> u64
    requires inside { point < length book.now.definition.points }
    ensures value { result ≡ point_detail book.now point detail }
{
    match detail {
        PointDetail::Valid => truth(book.is_valid(point)),
        PointDetail::Cost => book.definition().cost(point),
    }
}

fn of_site(book: &Book, detail: SiteDetail, site: usize, place: usize) -> Option<u64>
    requires inside { site < length book.now.definition.sites }
    ensures value { result ≡ site_detail book.now site place detail }
{
    let definition = book.definition();
    let method_type = definition.method_type(site);
    match detail {
        SiteDetail::Level => Some(definition.level(site)),
        SiteDetail::Key => Some(definition.key(site)? as u64),
        SiteDetail::Result => Some(kind_number(method_type.ret())),
        SiteDetail::Parameters => Some(method_type.parameters().len() as u64),
        SiteDetail::Parameter => parameter_at(method_type, place),
        SiteDetail::Links => Some(definition.links(site).len() as u64),
        SiteDetail::Link => link_at(definition, site, place),
        SiteDetail::Held => Some(book.installed(site).len() as u64),
        SiteDetail::HeldLink => held_link_at(book, site, place),
        SiteDetail::Retargetings => Some(book.retargetings(site)),
    }
}

// Returns the kind of the parameter at an index, by number.
fn parameter_at(method_type: &MethodType, place: usize) -> Option<u64>
    ensures value { result
        ≡ option_map number_of_kind (slice_get method_type.now.parameters place) }
{
    let kind = method_type.parameters().get(place)?;
    Some(kind_number(*kind))
}

// Returns the number of a site's link at an index.
fn link_at(definition: &Definition, site: usize, place: usize) -> Option<u64>
    requires inside { site < length definition.now.sites }
    ensures value { result ≡ link_of_site definition.now site place }
{
    // Reading it names the definition's invariants for the proof.
    let _count = definition.link_count();
    if place >= definition.links(site).len() {
        return None;
    }
    Some((definition.first_link(site) + place) as u64)
}

// Returns the number of a site's installed link at an index.
fn held_link_at(book: &Book, site: usize, place: usize) -> Option<u64>
    requires inside { site < length book.now.definition.sites }
    ensures value { result ≡ slice_get (kept book.now.definition book.now.records site) place }
{
    let link = book.installed(site).get(place)?;
    Some(*link as u64)
}

fn of_link(book: &Book, detail: LinkDetail, link: usize, place: usize) -> Option<u64>
    requires inside { link < length (links_of book.now.definition) }
    ensures value { result ≡ link_detail book.now link place detail }
{
    let declared = book.declared_link(link);
    match detail {
        LinkDetail::Site => Some(book.definition().site_of(link) as u64),
        LinkDetail::Weight => Some(declared.weight),
        LinkDetail::Charge => Some(declared.charge),
        LinkDetail::Needs => Some(declared.needs.len() as u64),
        LinkDetail::Need => number_at(declared.needs.as_slice(), place),
        LinkDetail::Eligible => Some(truth(book.is_eligible(link))),
    }
}

fn of_plan(book: &Book, detail: PlanDetail, plan: usize, place: usize) -> Option<u64>
    requires published { IsPublished book.now.records plan }
    ensures value { result ≡ plan_detail book.now plan place detail }
{
    let published = book.plan(plan);
    match detail {
        PlanDetail::Links => Some(published.links.len() as u64),
        PlanDetail::Link => number_at(published.links.as_slice(), place),
        PlanDetail::Points => Some(published.points.len() as u64),
        PlanDetail::Point => number_at(published.points.as_slice(), place),
        PlanDetail::Current => is_current_at(book, plan, place),
    }
}

// Returns whether an installation of a plan includes a site, as a number.
fn is_current_at(book: &Book, plan: usize, site: usize) -> Option<u64>
    requires published { IsPublished book.now.records plan }
    ensures value { result ≡ current_at_site book.now plan site }
{
    if site >= book.definition().sites().len() {
        return None;
    }
    Some(truth(book.is_current(plan, site)))
}

// Returns a truth value as a number.
fn truth(is_true: bool) -> u64
    ensures value { result ≡ number_of_truth is_true }
{
    if is_true { 1 } else { 0 }
}

// Returns the number at an index.
fn number_at(numbers: &[u32], place: usize) -> Option<u64>
    ensures value { result ≡ slice_get numbers.now place }
{
    Some(u64::from(*numbers.get(place)?))
}

// Returns the number of a kind of values.
fn kind_number(kind: Kind) -> u64
    ensures value { result ≡ number_of_kind kind }
{
    match kind {
        Kind::Int => 1,
        Kind::Long => 2,
        Kind::Boolean => 3,
        Kind::Text => 4,
    }
}
