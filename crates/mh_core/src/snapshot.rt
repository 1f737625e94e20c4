//! Snapshots: the data of a selection problem.

ghost use Rattle.std.specs.Prelude.{◌≡◌, ◌<◌, ◌≤◌, length, map, IfOk};
ghost use Rattle.mh_site.specs.Worlds.{state_at};
ghost use Rattle.mh_core.specs.Records.{numbers};

use mh_base::NoMemory;
use mh_ledger::Totals;
use mh_site::World;
use std::alloc::Global;
use std::marker::Model;

// The total of each link, the validity of the points, and the number of retargetings of each site.
#[derive(Debug, Drop)]
pub(crate) struct Snapshot {
    totals: Vec<u64>,
    valid: Vec<bool>,
    versions: Vec<u64>,
}

impl Model for Snapshot {
    ghost use Rattle.mh_core.specs.Snapshots.{SnapshotState, coded_snapshot};

    ghost Value = { SnapshotState };

    ghost coded = { coded_snapshot };

    ghost view = { λ s. record {
      totals = s.totals.items;
      valid = s.valid.items;
      versions = s.versions.items;
    } };
}

impl Snapshot {
    // Returns the current totals and the current state of a world with this many sites.
    pub(crate) fn take(
        alloc: Global,
        totals: &Totals,
        world: &World,
        sites: usize,
    ) -> Result<Snapshot, NoMemory>
        requires sites { sites ≤ length world.now.sites }
        ensures value { IfOk result (λ s. s
            ≡ record {
              totals = totals.now.total;
              valid = world.now.valid;
              versions = map
                  (λ i. (state_at world.now i).version) (numbers sites);
            }) }
    {
        Ok(Snapshot {
            totals: totals.as_slice().to_vec(alloc)?,
            valid: world.valid().to_vec(alloc)?,
            versions: versions(alloc, world, sites)?,
        })
    }

    // Returns the total of each link.
    pub(crate) fn totals(&self) -> &[u64]
        ensures value { result.now ≡ self.now.totals }
    {
        self.totals.as_slice()
    }

    // Returns for each point whether it was valid.
    pub(crate) fn valid(&self) -> &[bool]
        ensures value { result.now ≡ self.now.valid }
    {
        self.valid.as_slice()
    }

    // Returns how often each site had been retargeted.
    pub(crate) fn versions(&self) -> &[u64]
        ensures value { result.now ≡ self.now.versions }
    {
        self.versions.as_slice()
    }
}

// Returns how often each site was retargeted.
fn versions(alloc: Global, world: &World, sites: usize) -> Result<Vec<u64>, NoMemory>
    requires sites { sites ≤ length world.now.sites }
    ensures value { IfOk result (λ v. v.items
        ≡ map (λ i. (state_at world.now i).version) (numbers sites)) }
{
    let mut versions = Vec::new(alloc);
    for site in 0..sites {
        versions.push(world.version(site))?;
    }
    Ok(versions)
}
