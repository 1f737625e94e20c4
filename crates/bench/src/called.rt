//! A tree with the points, sites and arguments of its calls.

ghost use Rattle.std.specs.Prelude.{◌↔◌, IsTrue, length};
ghost use Rattle.bench.specs.Called.{MayRun};
ghost use Rattle.mh_tree.specs.Sites.{HavePoints};

use mh_eval::{fits, lawful};
use mh_tree::Handle;
use mh_type::Value;

/// A tree and the arguments of its calls.
#[derive(Clone, Copy, Debug)]
pub(crate) struct Called<'a> {
    /// The validity of the points.
    pub(crate) valid: &'a [bool],
    /// The level of each site.
    pub(crate) levels: &'a [u8],
    /// The tree of each site.
    pub(crate) targets: &'a [Handle],
    /// The tree that is called.
    pub(crate) handle: &'a Handle,
    /// The arguments.
    pub(crate) arguments: &'a [Value],
}

/// Returns whether the tree may run: the arguments fit, its points and sites exist, and each site
/// invokes only sites of lower levels.
pub(crate) fn may_run(called: &Called<'_>) -> bool
    ensures decides { IsTrue result ↔ MayRun called.now }
{
    fits(called.handle.method_type(), called.arguments)
        && called.handle.point_bound() <= called.valid.len()
        && have_points(called.valid.len(), called.targets)
        && lawful(called.levels, called.targets, called.handle)
}

/// Returns whether the trees of the sites name only the first points, this many.
fn have_points(points: usize, targets: &[Handle]) -> bool
    ensures all { IsTrue result ↔ HavePoints points targets.now }
{
    targets.iter().all(|target| target.point_bound() <= points)
}
