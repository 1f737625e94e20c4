//! Tests of the sites that a tree invokes.

ghost use Rattle.std.specs.Prelude.{◌≡◌, ◌≤◌, ◌↔◌, IsTrue, length};
ghost use Rattle.mh_tree.specs.Limits.{site_bound};
ghost use Rattle.mh_site.specs.Invoking.{InvokesLower, InvokesOfType, is_of_type, is_lower, invokes_known as known, invokes_of_type as of_type, invokes_lower as lower};

use crate::site::Site;
use mh_tree::{Handle, InvocationTest, each_invocation};
use mh_type::MethodType;

/// Returns whether each site that a tree invokes exists. O(1).
pub fn invokes_known(sites: &[Site], tree: &Handle) -> bool
    ensures value { result ≡ known sites.now tree.now.tree }
    ensures decides { IsTrue result ↔ (site_bound tree.now.tree ≤ length sites.now) }
{
    tree.site_bound() <= sites.len()
}

/// Returns whether a tree invokes each site with the site's type. Linear in the size of the tree.
pub fn invokes_of_type(sites: &[Site], tree: &Handle) -> bool
    ensures value { result ≡ of_type sites.now tree.now.tree }
    ensures decides { IsTrue result ↔ InvokesOfType sites.now tree.now.tree }
{
    each_invocation(&OfType { sites }, tree.root())
}

/// Returns whether a tree invokes only sites below this level. Linear in the size of the tree.
pub fn invokes_lower(sites: &[Site], level: u64, tree: &Handle) -> bool
    ensures value { result ≡ lower sites.now level tree.now.tree }
    ensures decides { IsTrue result ↔ InvokesLower sites.now level tree.now.tree }
{
    each_invocation(&Lower { sites, level }, tree.root())
}

// Tests that an invocation has its site's type.
#[derive(Clone, Copy)]
struct OfType<'a> {
    sites: &'a [Site],
}

impl<'a> InvocationTest for OfType<'a> {
    ghost use Rattle.mh_site.specs.Invoking.{is_of_type};

    ghost holds = { λ t s n. is_of_type t.sites.now s n };

    fn passes(&self, site: u32, method_type: &MethodType) -> bool {
        has_type(self.sites, site as usize, method_type)
    }
}

// Returns whether a site exists and has this type.
fn has_type(sites: &[Site], site: usize, method_type: &MethodType) -> bool
    ensures value { result ≡ is_of_type sites.now site method_type.now }
{
    match sites.get(site) {
        Some(invoked) => method_type.equals(&invoked.method_type),
        None => false,
    }
}

// Tests that an invocation is of a site below a level.
#[derive(Clone, Copy)]
struct Lower<'a> {
    sites: &'a [Site],
    level: u64,
}

impl<'a> InvocationTest for Lower<'a> {
    ghost use Rattle.mh_site.specs.Invoking.{is_lower};

    ghost holds = { λ t s n. is_lower t.sites.now t.level s };

    fn passes(&self, site: u32, _method_type: &MethodType) -> bool {
        is_below(self.sites, site as usize, self.level)
    }
}

// Returns whether a site exists and its level is below this one.
fn is_below(sites: &[Site], site: usize, level: u64) -> bool
    ensures value { result ≡ is_lower sites.now level site }
{
    match sites.get(site) {
        Some(invoked) => invoked.level < level,
        None => false,
    }
}
