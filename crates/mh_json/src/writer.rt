//! The writer of trees.

ghost use Rattle.std.specs.Prelude.{◌≡◌};
ghost use Rattle.mh_site.specs.Defined.{point_at, site_at};

use mh_site::Definition;
use std::alloc::Global;

// The allocator, and the definition that names points and sites.
#[derive(Clone, Copy)]
pub(crate) struct Writer<'a> {
    pub(crate) alloc: Global,
    pub(crate) definition: &'a Definition,
}

impl Writer<'_> {
    // Returns the name of a point, and the empty text past the last.
    pub(crate) fn point_name(&self, point: u32) -> &str
        ensures value { result.now ≡ (point_at self.now.definition.now point).name }
    {
        match self.definition.points().get(point as usize) {
            Some(point) => point.name.as_str(),
            None => "",
        }
    }

    // Returns the name of a site, and the empty text past the last.
    pub(crate) fn site_name(&self, site: u32) -> &str
        ensures value { result.now ≡ (site_at self.now.definition.now site).name }
    {
        match self.definition.sites().get(site as usize) {
            Some(site) => site.name.as_str(),
            None => "",
        }
    }
}
