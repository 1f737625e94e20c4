//! Worlds: the tables that calls read.

ghost use Rattle.std.specs.Prelude.{◌≡◌, ◌<◌, ◌+◌, ◌^◌, ℕ, length, map, fold, slice_set, slice_index_or, IfOk, OnOk, OnErr, List, ◌++◌, ◌∷◌, []};
ghost use Rattle.std.specs.List.{All};
ghost use Rattle.mh_tree.specs.Handle.{IsDeclared};
ghost use Rattle.mh_tree.specs.Typing.{IsTyped};
ghost use Rattle.mh_site.specs.Worlds.{WorldState, AreTyped, linkeds, opened, opening, after, replay, state_at, no_state, retargeted, relink_site, clear_point, plain_site, site_state, site_states};
ghost use Rattle.mh_site.specs.declared.control.Control.{Control};

use crate::base::BaseTree;
use crate::control::{Control, Installation, KeptLinks, Relinking, Retargeting};
use crate::definition::Definition;
use crate::site::Site;
use mh_base::{Listing, NoMemory};
use mh_code::{CodeCache, Prepared};
use mh_tree::{Declared, Handle};
use std::alloc::Global;
use std::collections::VecDeque;
use std::marker::Model;

// A site's base tree, the links that its linked tree holds, and the number of its retargetings.
#[derive(Debug, Drop)]
pub(crate) struct SiteWorld {
    base: BaseTree,
    kept: KeptLinks,
    version: u64,
}

impl SiteWorld {
    // Returns another owner of the base tree, with the rest copied.
    fn share(&self) -> Result<SiteWorld, NoMemory>
        ensures value { IfOk result (λ s. plain_site s ≡ plain_site self.now) }
    {
        Ok(SiteWorld {
            base: self.base.share()?,
            kept: KeptLinks::try_from(self.kept.as_slice()).map_err(|_| NoMemory)?,
            version: self.version,
        })
    }
}

/// The points that are valid, and the trees of each site, after a list of controls was applied to a
/// definition. The linked trees are in one slice, which calls read if trees invoke sites.
///
/// A contract sees a world as its tables. They are the replay of the controls absorbed so far, and,
/// as the law `worlds_look_back` says, agree with looking back through these controls.
#[derive(Debug, Drop)]
pub struct World {
    valid: Vec<bool>,
    sites: Vec<SiteWorld>,
    linked: Vec<Prepared>,
    front: u64,
    // The changes of an installation while `try_absorb` applies them, and empty otherwise. `open`
    // reserves room for one change of each site.
    incoming: VecDeque<Relinking>,
}

impl Model for World {
    ghost use Rattle.std.specs.Prelude.{◌≡◌, length};
    ghost use Rattle.mh_site.specs.Worlds.{WorldState, coded_world, IsWorld};

    ghost Value = { WorldState };

    ghost coded = { coded_world };

    ghost use Rattle.mh_site.specs.Worlds.{site_states};

    ghost view = { λ w. record {
      valid = w.valid.items;
      sites = site_states w.sites.items w.linked.items;
      front = w.front;
    } };

    ghost invariant = { λ w. (length w.linked.items ≡ length w.sites.items) × IsWorld record {
      valid = w.valid.items;
      sites = site_states w.sites.items w.linked.items;
      front = w.front;
    } };
}

impl World {
    /// Returns the world of a definition before any control: all points are valid, and each site
    /// runs its target. It prepares the code of the targets; trees with the same parts share it.
    /// Fails only if an allocation or a reference count is refused.
    pub fn open(alloc: Global, definition: &Definition) -> Result<World, NoMemory>
        ensures value { IfOk result (λ w. w ≡ opened definition.now) }
        ensures replays { IfOk result (λ w. w ≡ replay (opened definition.now) []) }
    {
        open_over(alloc, definition, &[])
    }

    /// Returns the world of another definition before any control, as `open` does. If the target of
    /// a site is the base tree that the site of that number has in this world, the new world takes
    /// over its code. Fails only if an allocation or a reference count is refused.
    pub fn reopen(&self, definition: &Definition) -> Result<World, NoMemory>
        ensures value { IfOk result (λ w. w ≡ opened definition.now) }
        ensures replays { IfOk result (λ w. w ≡ replay (opened definition.now) []) }
    {
        open_over(*self.linked.allocator(), definition, &self.sites)
    }

    /// Returns a world like this one, over the same trees and their code: controls that this world
    /// absorbs later do not change it. O(points + sites); no tree is copied. Fails only if an
    /// allocation or a reference count is refused.
    pub fn share(&self) -> Result<World, NoMemory>
        ensures value { IfOk result (λ w. w ≡ self.now) }
    {
        let alloc = *self.linked.allocator();
        let valid = copy_valid(alloc, self.valid.as_slice())?;
        let sites = share_sites(alloc, self.sites.as_slice())?;
        let linked = share_trees(alloc, self.linked.as_slice())?;
        let incoming = VecDeque::with_capacity(alloc, sites.len()).map_err(|_| NoMemory)?;
        Ok(World {
            valid,
            sites,
            linked,
            front: self.front,
            incoming,
        })
    }

    /// Returns for each point, by number, whether it is valid.
    pub fn valid(&self) -> &[bool]
        ensures value { result.now ≡ self.now.valid }
    {
        self.valid.as_slice()
    }

    /// Returns the base tree of a site, of which its linked tree is a faster form.
    pub fn base(&self, site: usize) -> &Declared
        requires inside { site < length self.now.sites }
        ensures value { result.now ≡ (state_at self.now site).base }
    {
        self.sites[site].base.declared()
    }

    /// Returns the base tree of a site, with its code.
    pub fn prepared_base(&self, site: usize) -> &Prepared
        requires inside { site < length self.now.sites }
        ensures value { result.now ≡ (state_at self.now site).base }
        ensures declared { IsDeclared result.now }
    {
        self.sites[site].base.prepared()
    }

    /// Returns the tree that a call of the site runs.
    pub fn linked(&self, site: usize) -> &Handle
        requires inside { site < length self.now.sites }
        ensures value { result.now ≡ (state_at self.now site).linked }
    {
        self.linked[site].handle()
    }

    /// Returns the tree that a call of the site runs, with its code.
    pub fn prepared(&self, site: usize) -> &Prepared
        requires inside { site < length self.now.sites }
        ensures value { result.now ≡ (state_at self.now site).linked }
    {
        &self.linked[site]
    }

    /// Returns the trees that calls of the sites run, with their code, by number of the site.
    pub fn prepared_all(&self) -> &[Prepared]
        ensures value { result.now ≡ linkeds self.now }
        ensures typed { AreTyped self.now.sites }
    {
        self.linked.as_slice()
    }

    /// Returns the links that the linked tree of a site holds, by number.
    pub fn kept(&self, site: usize) -> &[usize]
        requires inside { site < length self.now.sites }
        ensures value { result.now ≡ (state_at self.now site).kept }
    {
        self.sites[site].kept.as_slice()
    }

    /// Returns the number of times that a site was retargeted.
    pub fn version(&self, site: usize) -> u64
        requires inside { site < length self.now.sites }
        ensures value { result ≡ (state_at self.now site).version }
    {
        self.sites[site].version
    }

    /// Returns the number of controls absorbed.
    pub fn front(&self) -> u64
        ensures value { result ≡ self.now.front }
    {
        self.front
    }

    /// Applies a control. It moves the trees of the control, does not allocate, and never fails.
    pub fn absorb(&mut self, control: Control)
        requires room { self.old.front + 1 < 2 ^ 64 }
        ensures step { self.new ≡ after self.old control }
        ensures replays { (w : WorldState) → (controls : List Control)
            → self.old ≡ replay w controls → self.new ≡ replay w (controls ++ control ∷ []) }
    {
        self.front += 1;
        match control {
            Control::Target(retargeting) => {
                retarget(&mut self.sites, &mut self.linked, retargeting);
            }
            Control::Invalidate(points) => clear(&mut self.valid, &points),
            Control::Install(installation) => {
                relink_all(&mut self.sites, &mut self.linked, installation);
            }
        }
    }

    /// Applies a control as `absorb` does, but with other owners of its trees, so that the control
    /// can be applied to other worlds, too. It allocates nothing, unless an installation has more
    /// changes than there are sites: `open` has reserved room for one change of each.
    ///
    /// Fails only if a reference count or that allocation is refused, or if 2^64 - 1 controls were
    /// absorbed; then nothing changes. An invalidation fails only for the last reason.
    pub fn try_absorb(&mut self, control: &Control) -> Result<(), NoMemory>
        ensures step { OnOk result (self.new ≡ after self.old control.now) }
        ensures replays { OnOk result ((w : WorldState) → (controls : List Control)
            → self.old ≡ replay w controls → self.new ≡ replay w (controls ++ control.now ∷ [])) }
        ensures refused { OnErr result (self.new ≡ self.old) }
        ensures last { OnErr result ((points : List ℕ) → control.now ≡ Control.Invalidate points
            → self.old.front + 1 ≡ 2 ^ 64) }
    {
        if self.front == u64::MAX {
            return Err(NoMemory);
        }
        match control {
            Control::Target(retargeting) => {
                retarget(&mut self.sites, &mut self.linked, retargeting.share()?);
            }
            Control::Invalidate(points) => clear(&mut self.valid, points),
            Control::Install(installation) => {
                share_all(&mut self.incoming, installation.as_slice())?;
                relink_each(&mut self.sites, &mut self.linked, &mut self.incoming);
            }
        }
        self.front += 1;
        Ok(())
    }
}

// Returns the world of a definition before any control, with the code that sites of these numbers
// had.
fn open_over(
    alloc: Global,
    definition: &Definition,
    earlier: &[SiteWorld],
) -> Result<World, NoMemory>
    ensures value { IfOk result (λ w. w ≡ opened definition.now) }
{
    let points = definition.points().len();
    let valid = Vec::from_elem(alloc, true, points).map_err(|_| NoMemory)?;
    let (sites, linked) = open_sites(alloc, definition.sites(), earlier)?;
    let incoming = VecDeque::with_capacity(alloc, sites.len()).map_err(|_| NoMemory)?;
    Ok(World {
        valid,
        sites,
        linked,
        front: 0,
        incoming,
    })
}

// Returns each site before any control, and its linked tree.
fn open_sites(
    alloc: Global,
    sites: &[Site],
    earlier: &[SiteWorld],
) -> Result<(Vec<SiteWorld>, Vec<Prepared>), NoMemory>
    ensures value { IfOk result (λ v. site_states v.0.items v.1.items ≡ map opening sites.now) }
    ensures many { IfOk result (λ v. length v.1.items ≡ length v.0.items) }
    ensures typed { OnOk result (AreTyped (map opening sites.now)) }
{
    let mut cache = CodeCache::new(alloc);
    let mut opened = Vec::new(alloc);
    let mut linked = Vec::new(alloc);
    for site in sites {
        let (entry, tree) = open_site(&mut cache, site, earlier.get(opened.len()))?;
        opened.push(entry).map_err(|_| NoMemory)?;
        linked.push(tree).map_err(|_| NoMemory)?;
    }
    Ok((opened, linked))
}

// Returns a site before any control, and its linked tree. Sites share the code of equal trees, and
// take over the code that the site had earlier.
fn open_site(
    cache: &mut CodeCache,
    site: &Site,
    earlier: Option<&SiteWorld>,
) -> Result<(SiteWorld, Prepared), NoMemory>
    ensures value { IfOk result (λ x. site_state x ≡ opening site.now) }
    ensures typed { IsTyped site.now.target.tree site.now.target.signature }
{
    let target = &site.target;
    // Names the invariant of the tree for the proof.
    let _type = target.handle().method_type();
    let linked = match earlier {
        Some(world) => cache.prepare_again(world.base.prepared(), target.handle())?,
        None => cache.prepare(target.handle())?,
    };
    let declared = target.share()?;
    let opened = SiteWorld {
        base: BaseTree::new(declared, &linked)?,
        kept: KeptLinks::new(),
        version: 0,
    };
    Ok((opened, linked))
}

// Returns a copy of the validity of the points.
fn copy_valid(alloc: Global, valid: &[bool]) -> Result<Vec<bool>, NoMemory>
    ensures value { IfOk result (λ v. v.items ≡ valid.now) }
{
    Vec::from_slice(alloc, valid).map_err(|_| NoMemory)
}

// Returns other owners of the base trees of sites.
fn share_sites(alloc: Global, sites: &[SiteWorld]) -> Result<Vec<SiteWorld>, NoMemory>
    ensures value { IfOk result (λ v. map plain_site v.items ≡ map plain_site sites.now) }
{
    let mut shared = Vec::new(alloc);
    for site in sites {
        shared.push(site.share()?).map_err(|_| NoMemory)?;
    }
    Ok(shared)
}

// Returns other owners of linked trees.
fn share_trees(alloc: Global, trees: &[Prepared]) -> Result<Vec<Prepared>, NoMemory>
    ensures value { IfOk result (λ v. v.items ≡ trees.now) }
{
    let mut shared = Vec::new(alloc);
    for tree in trees {
        shared.push(tree.share()?).map_err(|_| NoMemory)?;
    }
    Ok(shared)
}

// Replaces the base tree and the linked tree of a site.
fn retarget(sites: &mut Vec<SiteWorld>, linked: &mut Vec<Prepared>, retargeting: Retargeting)
    requires room { All (λ x. x.version + 1 < 2 ^ 64) sites.old.items }
    requires many { length linked.old.items ≡ length sites.old.items }
    ensures value { site_states sites.new.items linked.new.items ≡ slice_set
        (site_states sites.old.items linked.old.items) retargeting.site
        (retargeted retargeting.tree (slice_index_or
        (site_states sites.old.items linked.old.items) retargeting.site no_state)) }
    ensures many { length linked.new.items ≡ length sites.new.items }
    ensures typed { IsTyped retargeting.tree.tree retargeting.tree.signature }
{
    let Retargeting {
        site,
        base,
        linked: tree,
    } = retargeting;
    if site < sites.len() {
        let entry = &mut sites[site];
        entry.base = base;
        entry.kept = KeptLinks::new();
        entry.version += 1;
        linked[site] = tree;
    }
}

// Replaces the linked trees of sites, in order.
fn relink_all(sites: &mut Vec<SiteWorld>, linked: &mut Vec<Prepared>, installation: Installation)
    requires many { length linked.old.items ≡ length sites.old.items }
    ensures value { site_states sites.new.items linked.new.items ≡ fold relink_site
        (site_states sites.old.items linked.old.items) installation }
    ensures many { length linked.new.items ≡ length sites.new.items }
    ensures typed { All (λ c. IsTyped c.linked.tree c.linked.signature) installation }
{
    let Installation { changes } = installation;
    for change in changes {
        relink(sites, linked, change);
    }
}

// Fills a list with the changes, in order, with other owners of their trees, in place of its
// earlier content.
fn share_all(incoming: &mut VecDeque<Relinking>, changes: &[Relinking]) -> Result<(), NoMemory>
    ensures value { OnOk result (incoming.new.items ≡ changes.now) }
{
    incoming.clear();
    for change in changes {
        incoming.push_back(change.share()?).map_err(|_| NoMemory)?;
    }
    Ok(())
}

// Replaces the linked trees of sites, in order, by those that it takes out of the list.
fn relink_each(
    sites: &mut Vec<SiteWorld>,
    linked: &mut Vec<Prepared>,
    incoming: &mut VecDeque<Relinking>,
)
    requires many { length linked.old.items ≡ length sites.old.items }
    ensures value { site_states sites.new.items linked.new.items ≡ fold relink_site
        (site_states sites.old.items linked.old.items) incoming.old.items }
    ensures many { length linked.new.items ≡ length sites.new.items }
    ensures typed { All (λ c. IsTyped c.linked.tree c.linked.signature) incoming.old.items }
{
    while let Some(next) = incoming.pop_front() {
        relink(sites, linked, next);
    }
}

// Replaces the linked tree of a site, over the same base.
fn relink(sites: &mut Vec<SiteWorld>, linked: &mut Vec<Prepared>, change: Relinking)
    requires many { length linked.old.items ≡ length sites.old.items }
    ensures value { site_states sites.new.items linked.new.items ≡ relink_site
        (site_states sites.old.items linked.old.items) change }
    ensures many { length linked.new.items ≡ length sites.new.items }
    ensures typed { IsTyped change.linked.tree change.linked.signature }
{
    let Relinking {
        site,
        linked: tree,
        kept,
    } = change;
    if site < sites.len() {
        let relinked = &mut sites[site];
        relinked.kept = kept;
        linked[site] = tree;
    }
}

// Makes these points invalid.
fn clear(valid: &mut Vec<bool>, points: &Listing<u32>)
    ensures value { valid.new.items ≡ fold clear_point valid.old.items points.now }
{
    for point in points.as_slice() {
        let point = *point as usize;
        if point < valid.len() {
            valid[point] = false;
        }
    }
}
