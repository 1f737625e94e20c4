//! Changes of a world.

ghost use Rattle.std.specs.Prelude.{◌≡◌, IfOk};

use crate::base::BaseTree;
use arrayvec::ArrayVec;
use mh_base::{Listing, NoMemory};
use mh_code::Prepared;
use mh_tree::Declared;
use std::alloc::Global;
use std::marker::Model;

/// The links that the linked tree of a site holds, by number: at most four, since a site has at
/// most four, and stored in place, so that a world reserves the room for them when it is opened.
pub type KeptLinks = ArrayVec<usize, 4>;

/// A new tree of a site, and the linked tree with its code, so that a world can absorb both without
/// allocating.
#[derive(Debug, Drop)]
pub struct Retargeting {
    pub(crate) site: usize,
    pub(crate) base: BaseTree,
    pub(crate) linked: Prepared,
}

impl Model for Retargeting {
    ghost use Rattle.std.specs.Prelude.{◌≡◌};
    ghost use Rattle.mh_tree.specs.Typing.{IsTyped};
    ghost use Rattle.mh_site.specs.Controls.{Retargeted, coded_retargeted};

    ghost Value = { Retargeted };

    ghost coded = { coded_retargeted };

    ghost view = { λ r. record { site = r.site; tree = r.base } };

    ghost invariant = { λ r. (r.linked ≡ r.base) × IsTyped r.base.tree r.base.signature };
}

impl Retargeting {
    /// Returns the retargeting of site number `site` to the tree `base`. It prepares the tree's
    /// code, in time linear in the size of the tree. Fails only if an allocation or a reference
    /// count is refused.
    pub fn new(alloc: Global, site: usize, base: Declared) -> Result<Retargeting, NoMemory>
        ensures value { IfOk result (λ r. r ≡ record { site = site; tree = base }) }
    {
        let linked = Prepared::new(alloc, base.handle())?;
        // Names the invariant of the tree for the proof.
        let _type = base.handle().method_type();
        let base = BaseTree::new(base, &linked)?;
        Ok(Retargeting { site, base, linked })
    }

    // Returns another owner of the trees.
    pub(crate) fn share(&self) -> Result<Retargeting, NoMemory>
        ensures value { IfOk result (λ r. r ≡ self.now) }
    {
        Ok(Retargeting {
            site: self.site,
            base: self.base.share()?,
            linked: self.linked.share()?,
        })
    }
}

/// A new linked tree of a site, with its code, and the links that it holds, by number.
#[derive(Debug, Drop)]
pub struct Relinking {
    pub(crate) site: usize,
    pub(crate) linked: Prepared,
    pub(crate) kept: KeptLinks,
}

impl Model for Relinking {
    ghost use Rattle.mh_tree.specs.Typing.{IsTyped};
    ghost use Rattle.mh_site.specs.Controls.{Relinked, coded_relinked};

    ghost Value = { Relinked };

    ghost coded = { coded_relinked };

    ghost view = { λ r. record { site = r.site; linked = r.linked; kept = r.kept.items } };

    ghost invariant = { λ r. IsTyped r.linked.tree r.linked.signature };
}

impl Relinking {
    /// Returns the relinking of site number `site` to the tree `linked`, which holds the links
    /// `kept`.
    pub fn new(site: usize, linked: Prepared, kept: KeptLinks) -> Relinking
        ensures value { result ≡ record { site = site; linked = linked; kept = kept.items } }
    {
        // Names the invariant of the tree for the proof.
        let _type = linked.handle().method_type();
        Relinking { site, linked, kept }
    }

    /// Returns the number of the site.
    pub fn site(&self) -> usize
        ensures value { result ≡ self.now.site }
    {
        self.site
    }

    /// Returns the new linked tree.
    pub fn linked(&self) -> &Prepared
        ensures value { result.now ≡ self.now.linked }
    {
        &self.linked
    }

    /// Returns the links that the tree holds, by number.
    pub fn kept(&self) -> &[usize]
        ensures value { result.now ≡ self.now.kept }
    {
        self.kept.as_slice()
    }

    // Returns another owner of the tree.
    pub(crate) fn share(&self) -> Result<Relinking, NoMemory>
        ensures value { IfOk result (λ r. r ≡ self.now) }
    {
        let kept = KeptLinks::try_from(self.kept.as_slice()).map_err(|_| NoMemory)?;
        let linked = self.linked.share()?;
        Ok(Relinking::new(self.site, linked, kept))
    }
}

/// New linked trees of several sites, which change together.
#[derive(Debug, Drop)]
pub struct Installation {
    pub(crate) changes: Vec<Relinking>,
}

impl Model for Installation {
    ghost use Rattle.std.specs.Prelude.{List};
    ghost use Rattle.mh_site.specs.Controls.{Relinked, coded_changes};

    ghost Value = { List Relinked };

    ghost coded = { coded_changes };

    ghost view = { λ i. i.changes.items };
}

impl Installation {
    /// Returns the installation of these changes. It copies nothing.
    pub fn new(changes: Vec<Relinking>) -> Installation
        ensures value { result ≡ changes.items }
    {
        Installation { changes }
    }

    /// Returns the changes, in order.
    pub fn as_slice(&self) -> &[Relinking]
        ensures value { result.now ≡ self.now }
    {
        self.changes.as_slice()
    }

    // Returns another owner of each tree.
    fn share(&self) -> Result<Installation, NoMemory>
        ensures value { IfOk result (λ i. i ≡ self.now) }
    {
        let mut changes = Vec::new(*self.changes.allocator());
        for change in self.changes.as_slice() {
            let owned = change.share()?;
            changes.push(owned).map_err(|_| NoMemory)?;
        }
        Ok(Installation { changes })
    }
}

/// A change of a world, with all the memory that it takes.
#[derive(Debug, Drop)]
pub enum Control {
    /// Gives a site another tree (`MutableCallSite.setTarget`, Java SE 17), which becomes its
    /// linked tree, too. A site that does not exist is ignored.
    Target(Retargeting),
    /// Invalidates these points together and for good (`SwitchPoint.invalidateAll`, Java SE 17). A
    /// point may be listed twice, and may be invalid already. A point that does not exist is
    /// ignored.
    Invalidate(Listing<u32>),
    /// Links sites to other trees over their base trees, in order. A site that does not exist is
    /// ignored.
    Install(Installation),
}

impl Control {
    /// Returns a copy of the change, with another owner of its trees. Fails only if an allocation
    /// or a reference count is refused. O(points), or O(sites that are linked).
    pub fn share(&self) -> Result<Control, NoMemory>
        ensures value { IfOk result (λ c. c ≡ self.now) }
    {
        Ok(match self {
            Control::Target(retargeting) => Control::Target(retargeting.share()?),
            Control::Invalidate(points) => Control::Invalidate(points.copy()?),
            Control::Install(installation) => Control::Install(installation.share()?),
        })
    }
}
