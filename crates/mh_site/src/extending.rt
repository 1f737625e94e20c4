//! Extending a definition by points and sites.

ghost use Rattle.std.specs.Prelude.{◌≡◌, ◌++◌, length, take, IfErr, IfOk, OnOk};
ghost use Rattle.mh_base.specs.Tests.{Passes, Refuses};
ghost use Rattle.mh_site.specs.Extensions.{extended as with_more, extension_rules, longer_sites};
ghost use Rattle.mh_site.specs.Lawful.{IsDefinition};
ghost use Rattle.mh_site.specs.Links.{links};
ghost use Rattle.mh_site.specs.Targets.{AreTargets};

use crate::definition::Definition;
use crate::fault::DefinitionFault;
use crate::point::Point;
use crate::site::Site;
use crate::targets::{copy_points, with_targets};
use crate::version::Version;
use mh_base::{Listing, NoMemory};
use mh_tree::Declared;
use std::alloc::Global;

impl Definition {
    /// Returns the definition with these points and sites added after its own, and each of its own
    /// sites with another target, by number. Its points, sites and links keep their numbers. The
    /// new sites may need, name and invoke earlier points and sites, and each other. On failure,
    /// the new points and sites are dropped. O(points + sites + links), besides the tests.
    ///
    /// Fails with the first test that fails for a definition of version 2 with all these points and
    /// sites, as `Definition::new` does; fails with `NoMemory` before the tests, too.
    pub fn extended(
        &self,
        alloc: Global,
        targets: &[Declared],
        points: Listing<Point>,
        sites: Listing<Site>,
    ) -> Result<Definition, DefinitionFault>
        requires targets { AreTargets self.now targets.now }
        ensures passes { OnOk result (Passes
            (extension_rules self.now targets.now points sites)) }
        ensures value { IfOk result (λ d. d ≡ with_more self.now targets.now points sites) }
        ensures links { IfOk result (λ d. take (length (links self.now)) (links d)
            ≡ links self.now) }
        ensures lawful { IfOk result (λ d. IsDefinition d) }
        ensures refused { IfErr result (λ e. Refuses
            (extension_rules self.now targets.now points sites) e) }
    {
        let points = join(copy_points(alloc, self.points())?, points)?;
        let sites = self.longer_sites(alloc, targets, sites)?;
        let definition = Definition::new(alloc, Version::Two, points, sites)?;
        Ok(definition)
    }

    // Returns the definition's sites with other targets, followed by `sites`.
    fn longer_sites(
        &self,
        alloc: Global,
        targets: &[Declared],
        sites: Listing<Site>,
    ) -> Result<Listing<Site>, NoMemory>
        requires targets { AreTargets self.now targets.now }
        ensures value { IfOk result (λ all. all ≡ longer_sites self.now targets.now sites) }
        ensures lawful { IsDefinition self.now }
    {
        let own = with_targets(alloc, self.sites(), targets)?;
        join(own, sites)
    }
}

// Returns the items of `first`, followed by those of `more`.
fn join<T: Drop>(first: Listing<T>, more: Listing<T>) -> Result<Listing<T>, NoMemory>
    ensures value { IfOk result (λ all. all ≡ first ++ more) }
{
    let mut items = first.into_vec();
    for item in more.into_vec() {
        items.push(item)?;
    }
    Ok(Listing::from_vec(items))
}
