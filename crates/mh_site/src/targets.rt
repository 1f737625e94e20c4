//! Replacing the targets of the sites of a definition.

ghost use Rattle.std.specs.Prelude.{◌≡◌, length, map, slice_index_or, IfOk};
ghost use Rattle.std.specs.List.{range_with_len};
ghost use Rattle.mh_site.specs.Defined.{no_site};
ghost use Rattle.mh_site.specs.Lawful.{IsDefinition};
ghost use Rattle.mh_site.specs.Links.{links};
ghost use Rattle.mh_site.specs.Targets.{AreTargets, target_at, with_target as with_tree, with_targets as with_trees};

use crate::definition::Definition;
use crate::link::Link;
use crate::name::Name;
use crate::point::Point;
use crate::site::Site;
use mh_base::{Listing, NoMemory};
use mh_tree::Declared;
use std::alloc::Global;

impl Definition {
    /// Returns the definition with the same points and sites, each site with another target, by
    /// number. Points, sites and links keep their numbers. O(points + sites + links).
    ///
    /// Fails only if an allocation or a reference count is refused.
    pub fn with_targets(&self, alloc: Global, targets: &[Declared]) -> Result<Definition, NoMemory>
        requires targets { AreTargets self.now targets.now }
        ensures value { IfOk result (λ d. d ≡ with_trees self.now targets.now) }
        ensures links { IfOk result (λ d. links d ≡ links self.now) }
        ensures lawful { IfOk result (λ d. IsDefinition d) }
    {
        let points = copy_points(alloc, self.points())?;
        let sites = with_targets(alloc, self.sites(), targets)?;
        let definition = Definition::of(alloc, points, sites)?;
        Ok(definition)
    }
}

// Returns copies of the sites, with these targets.
pub(crate) fn with_targets(
    alloc: Global,
    sites: &[Site],
    targets: &[Declared],
) -> Result<Listing<Site>, NoMemory>
    requires count { length targets.now ≡ length sites.now }
    ensures value { IfOk result (λ made. made ≡ map (λ s. with_tree
        (slice_index_or sites.now s no_site) (target_at targets.now s))
        (range_with_len 0 (length sites.now))) }
{
    let mut made = Vec::new(alloc);
    for site in 0..sites.len() {
        made.push(with_target(alloc, &sites[site], &targets[site])?)?;
    }
    Ok(Listing::from_vec(made))
}

// Returns a copy of the site, with this target.
fn with_target(alloc: Global, site: &Site, target: &Declared) -> Result<Site, NoMemory>
    ensures value { IfOk result (λ x. x ≡ with_tree site.now target.now) }
{
    Ok(Site {
        name: copy_name(alloc, &site.name)?,
        method_type: site.method_type.copy(),
        level: site.level,
        key: site.key,
        target: target.share()?,
        links: copy_links(alloc, site.links.as_slice())?,
    })
}

fn copy_links(alloc: Global, links: &[Link]) -> Result<Listing<Link>, NoMemory>
    ensures value { IfOk result (λ copies. copies ≡ links.now) }
{
    let mut copies = Vec::new(alloc);
    for link in links {
        copies.push(copy_link(link)?)?;
    }
    Ok(Listing::from_vec(copies))
}

fn copy_link(link: &Link) -> Result<Link, NoMemory>
    ensures value { IfOk result (λ copy. copy ≡ link.now) }
{
    Ok(Link {
        when: link.when.share().map_err(|_| NoMemory)?,
        weight: link.weight,
        charge: link.charge,
        needs: link.needs.copy()?,
    })
}

pub(crate) fn copy_points(alloc: Global, points: &[Point]) -> Result<Listing<Point>, NoMemory>
    ensures value { IfOk result (λ copies. copies ≡ points.now) }
{
    let mut copies = Vec::new(alloc);
    for point in points {
        copies.push(copy_point(alloc, point)?)?;
    }
    Ok(Listing::from_vec(copies))
}

fn copy_point(alloc: Global, point: &Point) -> Result<Point, NoMemory>
    ensures value { IfOk result (λ copy. copy ≡ point.now) }
{
    let name = copy_name(alloc, &point.name)?;
    let cost = point.cost;
    Ok(Point { name, cost })
}

fn copy_name(alloc: Global, name: &Name) -> Result<Name, NoMemory>
    ensures value { IfOk result (λ copy. copy ≡ name.now) }
{
    Name::new(alloc, name.as_str()).map_err(|_| NoMemory)
}
