//! Definitions: points and sites that fit together.

ghost use Rattle.std.specs.Prelude.{◌≡◌, ◌<◌, ◌≤◌, ◌+◌, ◌⊎◌, ℕ, Ok, Err, Some, None, length, IfOk, IfErr, MatchResult};
ghost use Rattle.std.specs.Arc.{arc_value};
ghost use Rattle.mh_site.specs.Defined.{point_at, site_at, link_of};
ghost use Rattle.mh_base.specs.Tests.{Passes, Refuses};
ghost use Rattle.mh_site.specs.Definitions.{definition_made, definition_fault};
ghost use Rattle.mh_site.specs.Rules.{definition_rules, HasNoCharges};
ghost use Rattle.mh_site.specs.Places.{out_of_memory, placed_fault, placed_made, placed_rules};
ghost use Rattle.mh_site.specs.Lawful.{IsDefinition};
ghost use Rattle.mh_site.specs.Links.{links, link_at, first_link as first_link_of, site_of as site_of_link};

use crate::fault::DefinitionFault;
use crate::link::Link;
use crate::numbering::{Numbering, number_links};
use crate::order::order_sites;
use crate::place::{DefinitionMisfit, DefinitionPlace, demand_at};
use crate::point::Point;
use crate::point_rules::test_points;
use crate::site::Site;
use crate::site_rules::test_sites;
use crate::version::Version;
use mh_base::{Listing, NoMemory};
use mh_tree::Declared;
use mh_type::{MethodType, Value};
use std::alloc::Global;
use std::fmt;
use std::marker::Model;
use std::sync::Arc;

// The contents that all owners of a definition share.
#[derive(Drop)]
pub(crate) struct Parts {
    points: Listing<Point>,
    sites: Listing<Site>,
    numbering: Numbering,
}

/// Points and sites that fit together: they are within the limits and well named, each target has
/// its site's type, each link of a site has a key of its own, of the kind of the parameter at the
/// key position, and the needs of each link are ascending. To copy it, use `share`, which copies no
/// content.
#[derive(Drop)]
pub struct Definition {
    parts: Arc<Parts>,
}

impl Model for Definition {
    ghost use Rattle.mh_site.specs.Defined.{DefinitionData, coded_definition};

    ghost Value = { DefinitionData };

    ghost coded = { coded_definition };

    ghost use Rattle.mh_site.specs.Kept.{kept_definition, IsKept};

    ghost view = { kept_definition };

    ghost invariant = { IsKept };
}

/// Shows the numbers of points and sites.
impl fmt::Debug for Definition {
    fn fmt<W: fmt::Write>(&self, f: &mut fmt::Formatter<W>) -> fmt::Result {
        let (points, sites) = (self.points().len(), self.sites().len());
        write!(f, "Definition({points} points, {sites} sites)")
    }
}

impl Definition {
    /// Returns the definition of these points and sites, with the needs of each link in ascending
    /// order. In version 1 no link may have a charge. On failure, the points and sites are dropped.
    ///
    /// Fails with the fault of the first test that fails, in the order of `DefinitionFault`. If all
    /// tests pass, fails only with `NoMemory`.
    pub fn new(
        alloc: Global,
        version: Version,
        points: Listing<Point>,
        sites: Listing<Site>,
    ) -> Result<Definition, DefinitionFault>
        requires charges { HasNoCharges version sites }
        ensures value { IfOk result (λ d. definition_made version points sites ≡ Ok d) }
        ensures refused { IfErr result (λ e. (definition_made version points sites ≡ Err e)
            ⊎ ((definition_fault version points sites ≡ None) × (e ≡ DefinitionFault.NoMemory))) }
        ensures passes { IfOk result (λ _. Passes (definition_rules version points sites)) }
        ensures told { IfErr result (λ e. Refuses (definition_rules version points sites) e) }
    {
        Definition::placed(alloc, version, points, sites).map_err(|misfit| misfit.fault)
    }

    /// Does what `new` does, and reports a fault with its place.
    #[tactic(auto, using(crate::proofs::Places::told))]
    pub fn placed(
        alloc: Global,
        version: Version,
        points: Listing<Point>,
        sites: Listing<Site>,
    ) -> Result<Definition, DefinitionMisfit>
        requires charges { HasNoCharges version sites }
        ensures value { IfOk result (λ d. definition_made version points sites ≡ Ok d) }
        ensures refused { IfErr result (λ m. (definition_made version points sites ≡ Err m.fault)
            ⊎ ((definition_fault version points sites ≡ None)
            × (m.fault ≡ DefinitionFault.NoMemory))) }
        ensures passes { IfOk result (λ _. Passes (definition_rules version points sites)) }
        ensures told { IfErr result (λ m. Refuses (definition_rules version points sites) m.fault) }
        ensures made { IfOk result (λ d. placed_made version points sites ≡ Ok d) }
        ensures misfit { IfErr result (λ m. (placed_made version points sites ≡ Err m)
            ⊎ ((placed_fault version points sites ≡ None) × (m ≡ out_of_memory))) }
        ensures placed { IfErr result (λ m. Refuses (placed_rules version points sites) m) }
    {
        test(alloc, version, points.as_slice(), sites.as_slice())?;
        let mut sites = sites.into_vec();
        order_sites(&mut sites);
        let numbering = number_links(alloc, &sites)?;
        let sites = Listing::from_vec(sites);
        let parts = Parts {
            points,
            sites,
            numbering,
        };
        let parts = own(alloc, parts)?;
        Ok(Definition { parts })
    }

    // Returns the definition of parts that fit together. The needs of each link must be ascending.
    pub(crate) fn of(
        alloc: Global,
        points: Listing<Point>,
        sites: Listing<Site>,
    ) -> Result<Definition, NoMemory>
        requires lawful { IsDefinition record { points = points; sites = sites } }
        ensures value { IfOk result (λ d. d ≡ record { points = points; sites = sites }) }
    {
        let numbering = number_links(alloc, sites.as_slice())?;
        let parts = Parts {
            points,
            sites,
            numbering,
        };
        let parts = own(alloc, parts)?;
        Ok(Definition { parts })
    }

    /// Returns another owner of the definition. Fails only if a reference count is refused.
    pub fn share(&self) -> Result<Definition, NoMemory>
        ensures value { IfOk result (λ d. d ≡ self.now) }
    {
        let parts = Arc::try_clone(&self.parts).map_err(|_| NoMemory)?;
        Ok(Definition { parts })
    }

    /// Returns the points, by number.
    pub fn points(&self) -> &[Point]
        ensures value { result.now ≡ self.now.points }
        ensures lawful { IsDefinition self.now }
    {
        self.parts.points.as_slice()
    }

    /// Returns the sites, by number.
    pub fn sites(&self) -> &[Site]
        ensures value { result.now ≡ self.now.sites }
        ensures lawful { IsDefinition self.now }
    {
        self.parts.sites.as_slice()
    }

    /// Returns the name of a point.
    pub fn point_name(&self, point: usize) -> &str
        requires inside { point < length self.now.points }
        ensures value { result.now ≡ (point_at self.now point).name }
    {
        self.points()[point].name.as_str()
    }

    /// Returns the cost of a point, 0 to 2^40.
    pub fn cost(&self, point: usize) -> u64
        requires inside { point < length self.now.points }
        ensures value { result ≡ (point_at self.now point).cost }
    {
        self.points()[point].cost
    }

    /// Returns the name of a site.
    pub fn site_name(&self, site: usize) -> &str
        requires inside { site < length self.now.sites }
        ensures value { result.now ≡ (site_at self.now site).name }
    {
        self.sites()[site].name.as_str()
    }

    /// Returns the type of a site.
    pub fn method_type(&self, site: usize) -> &MethodType
        requires inside { site < length self.now.sites }
        ensures value { result.now ≡ (site_at self.now site).method_type }
    {
        &self.sites()[site].method_type
    }

    /// Returns the level of a site, 0 to 3: its trees invoke only sites of lower levels.
    pub fn level(&self, site: usize) -> u64
        requires inside { site < length self.now.sites }
        ensures value { result ≡ (site_at self.now site).level }
    {
        self.sites()[site].level
    }

    /// Returns the key position of a site, or `None` if it has none.
    pub fn key(&self, site: usize) -> Option<usize>
        requires inside { site < length self.now.sites }
        ensures value { result ≡ (site_at self.now site).key }
    {
        self.sites()[site].key
    }

    /// Returns the tree that a site runs when its world is opened.
    pub fn target(&self, site: usize) -> &Declared
        requires inside { site < length self.now.sites }
        ensures value { result.now ≡ (site_at self.now site).target }
    {
        &self.sites()[site].target
    }

    /// Returns the links of a site, at most 4.
    pub fn links(&self, site: usize) -> &[Link]
        requires inside { site < length self.now.sites }
        ensures value { result.now ≡ (site_at self.now site).links }
    {
        self.sites()[site].links.as_slice()
    }

    /// Returns the key of a link.
    pub fn when(&self, site: usize, link: usize) -> &Value
        requires inside { (site < length self.now.sites)
            × (link < length (site_at self.now site).links) }
        ensures value { result.now ≡ (link_of self.now site link).when }
    {
        &self.links(site)[link].when
    }

    /// Returns the gain of one hit of a link, 0 to 2^20.
    pub fn weight(&self, site: usize, link: usize) -> u64
        requires inside { (site < length self.now.sites)
            × (link < length (site_at self.now site).links) }
        ensures value { result ≡ (link_of self.now site link).weight }
    {
        self.links(site)[link].weight
    }

    /// Returns the charge of a link: what a plan pays for it besides the costs of its points, 0 to
    /// 2^40.
    pub fn charge(&self, site: usize, link: usize) -> u64
        requires inside { (site < length self.now.sites)
            × (link < length (site_at self.now site).links) }
        ensures value { result ≡ (link_of self.now site link).charge }
    {
        self.links(site)[link].charge
    }

    /// Returns the points that a link needs, ascending, at most 8.
    pub fn needs(&self, site: usize, link: usize) -> &[u32]
        requires inside { (site < length self.now.sites)
            × (link < length (site_at self.now site).links) }
        ensures value { result.now ≡ (link_of self.now site link).needs }
    {
        self.links(site)[link].needs.as_slice()
    }
}

impl Definition {
    /// Returns the number of links of all sites. Links are numbered from 0, site by site, and
    /// within a site in its order.
    pub fn link_count(&self) -> usize
        ensures count { result ≡ length (links self.now) }
        ensures lawful { IsDefinition self.now }
    {
        self.parts.numbering.homes.len()
    }

    /// Returns the number of a site's first link: the site's links have consecutive numbers from
    /// this one on. For a site without links, it is the number that the next link has. O(1).
    pub fn first_link(&self, site: usize) -> usize
        requires inside { site < length self.now.sites }
        ensures value { result ≡ first_link_of self.now site }
        ensures links { (k : ℕ) → k < length (site_at self.now site).links
            → link_at self.now (result + k) ≡ (site, link_of self.now site k) }
        ensures within { result + length (site_at self.now site).links ≤ length (links self.now) }
    {
        self.parts.numbering.firsts[site]
    }

    /// Returns the number of a link's site. O(1).
    pub fn site_of(&self, link: usize) -> usize
        requires inside { link < length (links self.now) }
        ensures value { result ≡ site_of_link self.now link }
        ensures known { result < length self.now.sites }
        ensures within { (first_link_of self.now result ≤ link)
            × (link < first_link_of self.now result + length (site_at self.now result).links) }
    {
        self.parts.numbering.homes[link]
    }
}

// Returns the first owner of the parts.
fn own(alloc: Global, parts: Parts) -> Result<Arc<Parts>, NoMemory>
    ensures value { IfOk result (λ owner. arc_value owner ≡ parts) }
{
    Arc::new(alloc, parts).map_err(|_| NoMemory)
}

// Runs all tests, in order.
#[tactic(auto, using(crate::proofs::Listed::first_of_two))]
fn test(
    alloc: Global,
    version: Version,
    points: &[Point],
    sites: &[Site],
) -> Result<(), DefinitionMisfit>
    ensures value { MatchResult result (λ _. placed_fault version points.now sites.now ≡ None)
        (λ m. placed_fault version points.now sites.now ≡ Some m) }
{
    let count = points.len();
    demand_at(
        count <= version.most_points(),
        DefinitionFault::TooManyPoints,
        DefinitionPlace::Points,
    )?;
    demand_at(
        sites.len() <= version.most_sites(),
        DefinitionFault::TooManySites,
        DefinitionPlace::Sites,
    )?;
    test_points(alloc, points)?;
    test_sites(alloc, count, sites)
}
