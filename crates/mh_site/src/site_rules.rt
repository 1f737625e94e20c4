//! The rules of sites, in the order in which they are tested.

ghost use Rattle.std.specs.Prelude.{◌≡◌, ◌<◌, ◌==◌, Some, None, IfSome, MatchResult, length, map, take};
ghost use Rattle.std.specs.List.{list_any};
ghost use Rattle.mh_base.specs.Listed.{first_failing};
ghost use Rattle.mh_site.specs.Definitions.{names_site, all_differ, needs_few as few, weighs_little as little, costs_little as cheap, needs_known as known, needs_differ as differing, has_place as places, fits_place as fitting};
ghost use Rattle.mh_site.specs.Places.{unfit, key_twice, key_part as part_of_key, placed_sites, placed_site_tests, placed_shape_tests, placed_key_tests, placed_point_name_tests, placed_invoke_tests};
ghost use Rattle.mh_type.specs.Values.{same_value as values_same};
ghost use Rattle.mh_type.specs.Signature.{signature_eq};

use crate::fault::DefinitionFault;
use crate::invoking::{invokes_known, invokes_lower, invokes_of_type};
use crate::link::Link;
use crate::names::{Names, with_one_more};
use crate::place::{DefinitionMisfit, LinkPart, SitePart, demand_of_links, demand_of_site};
use crate::site::Site;
use mh_base::{MOST_NEEDS, are_below};
use mh_type::{Value, same_value};
use std::alloc::Global;

/// The greatest number of links of a site.
pub const MOST_LINKS: usize = 4;

/// The greatest weight of a link.
pub const GREATEST_WEIGHT: u64 = 1 << 20;

/// The greatest level of a site.
pub const GREATEST_LEVEL: u64 = 3;

/// The greatest charge of a link.
pub const GREATEST_CHARGE: u64 = 1 << 40;

// Runs the tests of all sites, in order, given the number of points. If memory is refused, names
// are compared one by one.
pub(crate) fn test_sites(
    alloc: Global,
    points: usize,
    sites: &[Site],
) -> Result<(), DefinitionMisfit>
    ensures value { MatchResult result (λ _. first_failing (placed_sites points sites.now) ≡ None)
        (λ m. first_failing (placed_sites points sites.now) ≡ Some m) }
{
    let mut seen = Some(Names::new(alloc));
    for (index, site) in sites.iter().enumerate() {
        test_site(points, sites, seen.as_ref(), index, site)?;
        seen = with_one_more(seen, site.name.as_str());
    }
    Ok(())
}

// Runs the tests of the site with this number, in the order of their faults' numbers. The names of
// the sites before it are in the table, if there is one.
fn test_site(
    points: usize,
    sites: &[Site],
    seen: Option<&Names>,
    index: usize,
    site: &Site,
) -> Result<(), DefinitionMisfit>
    requires inside { index < length sites.now }
    requires seen { IfSome seen (λ names. names.now ≡ map (λ s. s.name) (take index sites.now)) }
    ensures value { MatchResult result
        (λ _. first_failing (placed_site_tests points sites.now index (take index sites.now)
        site.now) ≡ None)
        (λ m. first_failing (placed_site_tests points sites.now index (take index sites.now)
        site.now) ≡ Some m) }
{
    test_shape(seen, &sites[..index], index, site)?;
    test_keys(index, site)?;
    test_point_names(points, index, site)?;
    test_invocations(sites, index, site)
}

// Runs the tests of a site's name, and of the sizes of its parts.
fn test_shape(
    seen: Option<&Names>,
    earlier: &[Site],
    index: usize,
    site: &Site,
) -> Result<(), DefinitionMisfit>
    requires seen { IfSome seen (λ names. names.now ≡ map (λ s. s.name) earlier.now) }
    ensures value { MatchResult result
        (λ _. first_failing (placed_shape_tests index earlier.now site.now) ≡ None)
        (λ m. first_failing (placed_shape_tests index earlier.now site.now) ≡ Some m) }
{
    let (links, name) = (site.links.as_slice(), &site.name);
    let new = !is_seen(seen, earlier, name.as_str());
    let few = links.len() <= MOST_LINKS;
    let needy = with_many_needs(links);
    demand_of_site(few, DefinitionFault::TooManyLinks, index, SitePart::Links)?;
    demand_of_links(needy, DefinitionFault::TooManyNeeds, index, LinkPart::Needs)?;
    demand_of_site(
        name.is_lawful(),
        DefinitionFault::BadName,
        index,
        SitePart::Name,
    )?;
    demand_of_site(new, DefinitionFault::NameTwice, index, SitePart::Whole)?;
    let heavy = with_much_weight(links);
    demand_of_links(
        heavy,
        DefinitionFault::WeightTooLarge,
        index,
        LinkPart::Weight,
    )
}

// Runs the tests of a site's keys.
fn test_keys(index: usize, site: &Site) -> Result<(), DefinitionMisfit>
    ensures value { MatchResult result
        (λ _. first_failing (placed_key_tests index site.now) ≡ None)
        (λ m. first_failing (placed_key_tests index site.now) ≡ Some m) }
{
    let part = key_part(site.key);
    demand_of_site(has_place(site), DefinitionFault::BadKeyPlace, index, part)?;
    let other = with_other_kind(site);
    demand_of_links(other, DefinitionFault::KeyMismatch, index, LinkPart::When)?;
    let twice = with_key_twice(site.links.as_slice());
    demand_of_links(twice, DefinitionFault::KeyTwice, index, LinkPart::Whole)
}

// Runs the tests of the points that a site names, given the number of points, and of its target's
// type.
fn test_point_names(points: usize, index: usize, site: &Site) -> Result<(), DefinitionMisfit>
    ensures value { MatchResult result
        (λ _. first_failing (placed_point_name_tests points index site.now) ≡ None)
        (λ m. first_failing (placed_point_name_tests points index site.now) ≡ Some m) }
{
    let links = site.links.as_slice();
    let unknown = with_unknown_need(links, points);
    demand_of_links(unknown, DefinitionFault::NoPoint, index, LinkPart::Needs)?;
    let known = site.target.handle().point_bound() <= points;
    demand_of_site(known, DefinitionFault::NoPoint, index, SitePart::Target)?;
    let twice = with_need_twice(links);
    demand_of_links(twice, DefinitionFault::NeedTwice, index, LinkPart::Needs)?;
    demand_of_site(
        is_typed(site),
        DefinitionFault::TypeMismatch,
        index,
        SitePart::Target,
    )
}

// Runs the tests of the sites that a site invokes, and of its charges.
fn test_invocations(sites: &[Site], index: usize, site: &Site) -> Result<(), DefinitionMisfit>
    ensures value { MatchResult result
        (λ _. first_failing (placed_invoke_tests sites.now index site.now) ≡ None)
        (λ m. first_failing (placed_invoke_tests sites.now index site.now) ≡ Some m) }
{
    let (target, level) = (site.target.handle(), site.level);
    let low = level <= GREATEST_LEVEL;
    demand_of_site(low, DefinitionFault::BadLevel, index, SitePart::Level)?;
    let known = invokes_known(sites, target);
    demand_of_site(known, DefinitionFault::NoSite, index, SitePart::Target)?;
    let typed = invokes_of_type(sites, target);
    demand_of_site(
        typed,
        DefinitionFault::InvokeMismatch,
        index,
        SitePart::Target,
    )?;
    let lower = invokes_lower(sites, level, target);
    demand_of_site(lower, DefinitionFault::WrongLevel, index, SitePart::Target)?;
    let dear = with_much_charge(site.links.as_slice());
    demand_of_links(
        dear,
        DefinitionFault::ChargeTooLarge,
        index,
        LinkPart::Charge,
    )
}

// Returns the part of a site to which a wrong key position is attributed.
fn key_part(key: Option<usize>) -> SitePart
    ensures value { result ≡ part_of_key key }
{
    match key {
        None => SitePart::Whole,
        Some(_) => SitePart::Key,
    }
}

// Returns whether an earlier site has this name, using the table of their names if there is one.
fn is_seen(seen: Option<&Names>, earlier: &[Site], name: &str) -> bool
    requires seen { IfSome seen (λ names. names.now ≡ map (λ s. s.name) earlier.now) }
    ensures value { result ≡ list_any (names_site name.now) earlier.now }
{
    match seen {
        Some(names) => names.contains(name),
        None => is_site_name(earlier, name),
    }
}

// Returns whether a site has this name.
fn is_site_name(sites: &[Site], name: &str) -> bool
    ensures value { result ≡ list_any (names_site name.now) sites.now }
{
    for site in sites {
        if name == site.name.as_str() {
            return true;
        }
    }
    false
}

// Returns the first link with too many needs.
fn with_many_needs(links: &[Link]) -> Option<usize>
    ensures value { result ≡ unfit few links.now }
{
    links.iter().position(|link| !has_few_needs(link))
}

fn has_few_needs(link: &Link) -> bool
    ensures value { result ≡ few link.now }
{
    link.needs.len() <= MOST_NEEDS
}

// Returns the first link with too large a weight.
fn with_much_weight(links: &[Link]) -> Option<usize>
    ensures value { result ≡ unfit little links.now }
{
    links.iter().position(|link| !weighs_little(link))
}

fn weighs_little(link: &Link) -> bool
    ensures value { result ≡ little link.now }
{
    link.weight <= GREATEST_WEIGHT
}

// Returns the first link with too large a charge.
fn with_much_charge(links: &[Link]) -> Option<usize>
    ensures value { result ≡ unfit cheap links.now }
{
    links.iter().position(|link| !costs_little(link))
}

fn costs_little(link: &Link) -> bool
    ensures value { result ≡ cheap link.now }
{
    link.charge <= GREATEST_CHARGE
}

// Returns whether the key position is that of a parameter. It may be missing if the site has no
// links.
fn has_place(site: &Site) -> bool
    ensures value { result ≡ places site.now }
{
    match site.key {
        Some(place) => place < site.method_type.count(),
        None => site.links.len() == 0,
    }
}

// Returns the first link whose key is not of the kind of the parameter at the key position.
fn with_other_kind(site: &Site) -> Option<usize>
    ensures value { result ≡ unfit (fitting site.now) site.now.links }
{
    let links = site.links.as_slice();
    links.iter().position(|link| !fits_place(site, link))
}

fn fits_place(site: &Site, link: &Link) -> bool
    ensures value { result ≡ fitting site.now link.now }
{
    match site.key {
        Some(place) if place < site.method_type.count() => {
            link.when.kind().is(site.method_type.parameter(place))
        }
        _ => false,
    }
}

// Returns the first link whose key an earlier one has.
fn with_key_twice(links: &[Link]) -> Option<usize>
    ensures value { result ≡ key_twice links.now }
{
    for (index, link) in links.iter().enumerate() {
        if has_key(&links[..index], &link.when) {
            return Some(index);
        }
    }
    None
}

// Returns whether a link has this key.
fn has_key(links: &[Link], key: &Value) -> bool
    ensures value { result ≡ list_any (λ l. values_same key.now l.when) links.now }
{
    links.iter().any(|link| same_value(key, &link.when))
}

// Returns the first link that needs a point that does not exist, given the number of points.
fn with_unknown_need(links: &[Link], points: usize) -> Option<usize>
    ensures value { result ≡ unfit (known points) links.now }
{
    links.iter().position(|link| !knows_needs(link, points))
}

fn knows_needs(link: &Link, points: usize) -> bool
    ensures value { result ≡ known points link.now }
{
    are_below(link.needs.as_slice(), points)
}

// Returns the first link that lists a need twice.
fn with_need_twice(links: &[Link]) -> Option<usize>
    ensures value { result ≡ unfit differing links.now }
{
    links
        .iter()
        .position(|link| !needs_differ(link.needs.as_slice()))
}

fn needs_differ(needs: &[u32]) -> bool
    ensures value { result ≡ all_differ (λ p q. p == q) needs.now }
{
    for (index, need) in needs.iter().enumerate() {
        if is_needed(&needs[index + 1..], *need) {
            return false;
        }
    }
    true
}

fn is_needed(needs: &[u32], point: u32) -> bool
    ensures value { result ≡ list_any (λ q. point == q) needs.now }
{
    needs.iter().any(|need| point == *need)
}

// Returns whether the target has the site's type.
fn is_typed(site: &Site) -> bool
    ensures value { result ≡ signature_eq site.now.target.signature site.now.method_type }
{
    site.target.handle().method_type().equals(&site.method_type)
}
