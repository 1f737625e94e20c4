//! Installations: the caches of linked sites, and the world after an installation.
ghost use Rattle.std.specs.Prelude.{◌≡◌, ◌<◌, ◌≤◌, ◌++◌, ◌||◌, not, nat_lt, filter, length, map, IfOk, OnOk, ◌∷◌, ◌&&◌, [], true, false};
ghost use Rattle.std.specs.List.{All};
ghost use Rattle.std.specs.List.Sorted.{IsStrictlyIncreasing};
ghost use Rattle.mh_network.specs.Selection.{member};
ghost use Rattle.mh_site.specs.Limits.{most_links};
ghost use Rattle.mh_site.specs.Links.{links as links_of};
ghost use Rattle.mh_core.specs.Books.{IsBook, reply_to};
ghost use Rattle.mh_core.specs.Installations.{IsPublished, cached, chosen as chosen_of, entry as entry_of, is_current as is_current_at, kept, plan_at, usable as usable_of, is_current, linkage_of, report, site_linkage};
ghost use Rattle.mh_core.specs.Problems.{is_eligible as is_eligible_after, is_eligible};
ghost use Rattle.mh_core.specs.Records.{base};
ghost use Rattle.mh_core.specs.Pending.{HasEffect};
ghost use Rattle.mh_core.specs.Replayed.{changes, relinked};
ghost use Rattle.mh_core.specs.declared.record.Record.TheVariants.{Installed};

use crate::book::Book;
use crate::book::change::Effect;
use crate::install_report::{InstallReport, Linkage, SiteLinkage};
use crate::problem::{all_valid, link_of};
use crate::reply::Reply;
use mh_base::NoMemory;
use mh_code::Prepared;
use mh_pic::{Entry, prepared_chain};
use mh_site::{Control, Installation, KeptLinks, Listing, Relinking};

impl Book {
    // Returns the inline cache of the usable links of a site over its base tree.
    pub(crate) fn make_cache(
        &self,
        plan: usize,
        site: usize,
        links: &[usize],
    ) -> Result<Prepared, NoMemory>
        requires inside { site < length self.now.definition.sites }
        requires usable { links.now ≡ usable_of self.now.definition self.now.records plan site }
        ensures value { IfOk result (λ p. p
            ≡ cached self.now.definition site (base self.now.definition self.now.records site)
            links.now) }
    {
        let base = self.world.prepared_base(site);
        let Some(key_place) = self.definition.key(site) else {
            return base.share();
        };
        let entries = self.entries(links)?;
        let cache = prepared_chain(self.alloc, base, key_place, &entries)?;
        Ok(cache)
    }

    fn entries(&self, links: &[usize]) -> Result<Vec<Entry>, NoMemory>
        requires inside { All (λ j. j < length (links_of self.now.definition)) links.now }
        ensures value { IfOk result (λ v. v.items ≡ map (entry_of self.now.definition) links.now) }
    {
        let mut entries = Vec::new(self.alloc);
        for link in links {
            entries.push(self.entry(*link)?)?;
        }
        Ok(entries)
    }

    fn entry(&self, link: usize) -> Result<Entry, NoMemory>
        requires inside { link < length (links_of self.now.definition) }
        ensures value { IfOk result (λ e. e ≡ entry_of self.now.definition link) }
    {
        let declared = link_of(&self.definition, link);
        let key = declared.when.share().map_err(|_| NoMemory)?;
        let needs = declared.needs.as_slice().to_vec(self.alloc)?;
        Ok(Entry::new(key, needs))
    }

    // Returns the links of a site that a plan selects.
    pub(crate) fn chosen(&self, plan: usize, site: usize) -> KeptLinks
        requires published { IsPublished self.now.records plan }
        requires inside { site < length self.now.definition.sites }
        ensures value { result.items ≡ chosen_of self.now.definition self.now.records plan site }
    {
        let mut chosen = KeptLinks::new();
        let first = self.definition.first_link(site);
        for link in first..first + self.definition.links(site).len() {
            if self.has(plan, link) {
                chosen.push(link);
            }
        }
        chosen
    }

    // Returns those of some links whose needs are all valid, and appends the others to `left_out`.
    pub(crate) fn usable(
        &self,
        chosen: &[usize],
        left_out: &mut Vec<u32>,
    ) -> Result<KeptLinks, NoMemory>
        requires few { length chosen.now ≤ most_links }
        requires inside { All (λ j. j < length (links_of self.now.definition)) chosen.now }
        ensures value { IfOk result (λ links. links.items
            ≡ filter (is_eligible_after self.now.definition self.now.records) chosen.now) }
        ensures left_out { OnOk result (left_out.new.items ≡ left_out.old.items
            ++ filter (λ j. not (is_eligible_after self.now.definition self.now.records j))
            chosen.now) }
    {
        self.kept();
        let mut usable = KeptLinks::new();
        for link in chosen {
            if self.is_eligible(*link) {
                usable.push(*link);
            } else {
                left_out.push(*link as u32)?;
            }
        }
        Ok(usable)
    }

    // Returns whether an installation concerns a site of which a plan selects these links: there
    // are some, or the site holds links.
    pub(crate) fn is_concerned(&self, site: usize, chosen: &[usize]) -> bool
        requires inside { site < length self.now.definition.sites }
        ensures value { result ≡ (nat_lt 0 (length chosen.now) ||
            nat_lt 0 (length (kept self.now.definition self.now.records site))) }
    {
        !chosen.is_empty() || !self.world.kept(site).is_empty()
    }

    // Returns whether a plan selects a link. O(log links).
    fn has(&self, plan: usize, link: usize) -> bool
        requires published { IsPublished self.now.records plan }
        requires inside { link < length (links_of self.now.definition) }
        ensures value { result ≡ member (plan_at self.now.records plan).plan.links link }
    {
        let links = self.links_of_plan(plan);
        links.binary_search(&(link as u32)).is_ok()
    }

    // Returns the links of a plan, ascending.
    fn links_of_plan(&self, plan: usize) -> &[u32]
        requires published { IsPublished self.now.records plan }
        ensures value { result.now ≡ (plan_at self.now.records plan).plan.links }
        ensures inside { All (λ j. j < length (links_of self.now.definition)) result.now }
        ensures ascending { IsStrictlyIncreasing result.now }
        ensures book { IsBook self.now }
    {
        self.plan(plan).links.as_slice()
    }

    /// Returns whether a site was not retargeted since the snapshot of a plan, so that an
    /// installation of the plan does not skip it. O(1).
    pub fn is_current(&self, plan: usize, site: usize) -> bool
        requires published { IsPublished self.now.records plan }
        requires inside { site < length self.now.definition.sites }
        ensures value { result ≡ is_current_at self.now.records plan site }
    {
        let snapshot = self.plans[plan - 1].snapshot;
        self.snapshots[snapshot - 1].versions()[site] == self.world.version(site)
    }

    /// Returns whether all points that a link needs are valid. An installation leaves out a link of
    /// which one is invalid. O(needs).
    pub fn is_eligible(&self, link: usize) -> bool
        requires inside { link < length (links_of self.now.definition) }
        ensures value { result ≡ is_eligible_after self.now.definition self.now.records link }
    {
        let needs = link_of(&self.definition, link).needs.as_slice();
        all_valid(needs, self.world.valid())
    }
}

impl Book {
    // Returns the effect of the installation of a plan, and its reply.
    pub(crate) fn installation(&self, plan: usize) -> Result<(Effect, Reply), NoMemory>
        requires published { IsPublished self.now.records plan }
        ensures effect { IfOk result (λ p. HasEffect self.now (Installed plan) p.0) }
        ensures reply { IfOk result (λ p. p.1
            ≡ reply_to self.now.definition self.now.records (Installed plan)) }
    {
        let (report, changes) = self.decide(plan)?;
        let control = Control::Install(Installation::new(changes));
        Ok((Effect::World(control), Reply::Installed(report)))
    }

    // Returns the report for each site that an installation concerns, and the new linked trees of
    // those that it does not skip. Each site and each link of the plan is decided once.
    fn decide(&self, plan: usize) -> Result<(InstallReport, Vec<Relinking>), NoMemory>
        requires published { IsPublished self.now.records plan }
        ensures report { IfOk result (λ p. p.0
            ≡ report self.now.definition self.now.records plan) }
        ensures changes { IfOk result (λ p. p.1.items
            ≡ changes self.now.definition self.now.records plan) }
    {
        let mut sites = Vec::new(self.alloc);
        let mut left_out = Vec::new(self.alloc);
        let mut relinkings = Vec::new(self.alloc);
        for site in 0..self.definition.sites().len() {
            let chosen = self.chosen(plan, site);
            let chosen = chosen.as_slice();
            if self.is_concerned(site, chosen) {
                let linkage = self.link(plan, site, chosen, &mut left_out, &mut relinkings)?;
                sites.push(SiteLinkage { site, linkage })?;
            }
        }
        let sites = Listing::from_vec(sites);
        let left_out = Listing::from_vec(left_out);
        Ok((InstallReport { sites, left_out }, relinkings))
    }

    // Adds the new linked tree of a site of which the plan selects these links, unless the
    // installation skips the site, and returns the result for the site. Those of the links that it
    // does not link are appended to `left_out`.
    fn link(
        &self,
        plan: usize,
        site: usize,
        chosen: &[usize],
        left_out: &mut Vec<u32>,
        relinkings: &mut Vec<Relinking>,
    ) -> Result<Linkage, NoMemory>
        requires published { IsPublished self.now.records plan }
        requires inside { site < length self.now.definition.sites }
        requires chosen { chosen.now ≡ chosen_of self.now.definition self.now.records plan site }
        ensures linkage { IfOk result (λ l. record { site = site; linkage = l }
            ≡ site_linkage self.now.definition self.now.records plan site) }
        ensures linked { OnOk result (is_current self.now.records plan site ≡ true
            → relinkings.new.items ≡ relinkings.old.items
            ++ relinked self.now.definition self.now.records plan site ∷ []) }
        ensures skipped { OnOk result (is_current self.now.records plan site ≡ false
            → relinkings.new.items ≡ relinkings.old.items) }
        ensures left_out { OnOk result (left_out.new.items ≡ left_out.old.items
            ++ filter (λ j. is_current self.now.records plan site
            && not (is_eligible self.now.definition self.now.records j)) chosen.now) }
    {
        if !self.is_current(plan, site) {
            return Ok(Linkage::Skipped);
        }
        self.kept();
        let usable = self.usable(chosen, left_out)?;
        let linkage = linkage(usable.as_slice());
        let linked = self.make_cache(plan, site, usable.as_slice())?;
        relinkings.push(Relinking::new(site, linked, usable))?;
        Ok(linkage)
    }
}

// Returns the linkage of a site with these links.
fn linkage(links: &[usize]) -> Linkage
    ensures value { result ≡ linkage_of links.now }
{
    match links.len() {
        0 => Linkage::Unlinked,
        count => Linkage::Linked(count),
    }
}
