//! The names that a tree may use.
ghost use Rattle.std.specs.Prelude.{◌≡◌, OnOk, OnErr, IfErr};
ghost use Rattle.mh_json.specs.declared.fault.InputFault.TheVariants.{NoMemory};
ghost use Rattle.mh_json.specs.Gives.{Gives};
ghost use Rattle.mh_json.specs.Shared.{without_shared, with_shared};
ghost use Rattle.mh_json.specs.Script.{with_site};
ghost use Rattle.mh_json.specs.Trees.{invocation_named, point_place, shared_named};

use crate::fault::InputFault;
use crate::misread::Misread;
use mh_site::{Listing, Name, Names, Site};
use mh_tree::Handle;
use mh_type::MethodType;
use std::alloc::Global;

/// A tree that later trees may refer to by name.
#[derive(Drop)]
pub struct Shared {
    pub name: Name,
    pub tree: Handle,
}

/// The names of all points, and the shared trees and sites declared so far.
#[derive(Drop)]
pub struct Scope {
    /// The names of the points, by number.
    pub points: Names,
    /// The names of the shared trees, in the order of their declarations.
    pub names: Names,
    /// The shared trees, by the numbers of their names.
    pub trees: Listing<Handle>,
    /// The names of the sites that a tree may invoke, in the order of their declarations.
    pub sites: Names,
    /// The types of these sites, by the numbers of their names.
    pub types: Listing<MethodType>,
}

impl Scope {
    /// Makes a scope of points with these names, without shared trees and sites.
    pub fn new(alloc: Global, points: Names) -> Scope
        ensures value { result ≡ without_shared points }
    {
        Scope {
            points,
            names: Names::new(alloc),
            trees: Listing::from_vec(Vec::new(alloc)),
            sites: Names::new(alloc),
            types: Listing::from_vec(Vec::new(alloc)),
        }
    }

    /// Appends a shared tree. If memory runs out, nothing changes.
    pub fn add(&mut self, shared: Shared) -> Result<(), Misread>
        ensures value { OnOk result (self.new ≡ with_shared self.old shared) }
        ensures refused { IfErr result (λ e. e.fault ≡ NoMemory) }
        ensures kept { OnErr result (self.new ≡ self.old) }
    {
        let Shared { name, tree } = shared;
        self.trees.push(tree)?;
        if self.names.add(name.as_str()).is_err() {
            self.trees.items.pop();
            return Err(Misread::of(InputFault::NoMemory));
        }
        Ok(())
    }

    /// Appends a site, so that later trees may invoke it. If several sites have one name, it stays
    /// the name of the first. If memory runs out, nothing changes.
    pub fn add_site(&mut self, site: &Site) -> Result<(), Misread>
        ensures value { OnOk result (self.new ≡ with_site self.old site.now) }
        ensures refused { IfErr result (λ e. e.fault ≡ NoMemory) }
        ensures kept { OnErr result (self.new ≡ self.old) }
    {
        if self.sites.contains(site.name.as_str()) {
            return Ok(());
        }
        self.types.push(site.method_type.copy())?;
        if self.sites.add(site.name.as_str()).is_err() {
            self.types.items.pop();
            return Err(Misread::of(InputFault::NoMemory));
        }
        Ok(())
    }

    /// Returns an invocation of a site by its name, with the site's type.
    pub fn invocation_named(&self, alloc: Global, name: &str) -> Result<Handle, Misread>
        ensures value { Gives (λ x. x) result (invocation_named self.now name.now) }
    {
        let site = self.site_number(name);
        match self.types.as_slice().get(site as usize) {
            Some(method_type) => Ok(Handle::invoke(alloc, site, method_type)?),
            None => Err(Misread::of(InputFault::UnknownSite)),
        }
    }

    /// Returns the number of a site by its name, or one past the last number if no site so far has
    /// the name.
    fn site_number(&self, name: &str) -> u32
        ensures value { result ≡ point_place self.now.sites name.now }
    {
        u32::try_from(self.sites.place(name)).unwrap_or(u32::MAX)
    }

    /// Returns the number of a point by its name, or one past the last number if no point has the
    /// name.
    pub fn point_number(&self, name: &str) -> u32
        ensures value { result ≡ point_place self.now.points name.now }
    {
        u32::try_from(self.points.place(name)).unwrap_or(u32::MAX)
    }

    /// Returns another owner of the shared tree of a name.
    pub fn tree_named(&self, name: &str) -> Result<Handle, Misread>
        ensures value { Gives (λ x. x) result (shared_named self.now name.now) }
    {
        match self.trees.as_slice().get(self.names.place(name)) {
            Some(tree) => Ok(tree.share()?),
            None => Err(Misread::of(InputFault::UnknownShared)),
        }
    }
}
