//! The state of each point, each site and each link after the records of a book.

ghost use Rattle.std.specs.Prelude.{◌≡◌, ◌<◌, ◌≤◌, ◌^◌, false, length, slice_index_or};
ghost use Rattle.mh_site.specs.Links.{link_at, links as links_of};
ghost use Rattle.mh_core.specs.Hits.{unflushed};
ghost use Rattle.mh_core.specs.Books.{IsBook};
ghost use Rattle.mh_core.specs.Installations.{IsPublished, kept, plan_at};
ghost use Rattle.mh_core.specs.Limits.{most_hits};
ghost use Rattle.mh_core.specs.Records.{base, is_valid, plans, snapshots, total, version};
ghost use Rattle.mh_core.specs.State.{gain, unflushed_of_all};

use crate::book::Book;
use crate::machine::Machine;
use crate::problem::link_of;
use mh_cert::Plan;
use mh_site::Link;
use mh_tree::Declared;

impl Book {
    /// Returns whether a point is valid, that is, whether no record invalidated it.
    pub fn is_valid(&self, point: usize) -> bool
        requires inside { point < length self.now.definition.points }
        ensures value { result ≡ is_valid self.now.records point }
    {
        is_among(self.world().valid(), point)
    }

    /// Returns the base tree of a site: that of its last retargeting, or the one that it was opened
    /// with. Each call of the site means what this tree means, also if links are installed.
    pub fn tree(&self, site: usize) -> &Declared
        requires inside { site < length self.now.definition.sites }
        ensures value { result.now ≡ base self.now.definition self.now.records site }
    {
        self.world().base(site)
    }

    /// Returns the number of times that a site was retargeted.
    pub fn retargetings(&self, site: usize) -> u64
        requires inside { site < length self.now.definition.sites }
        ensures value { result ≡ version self.now.records site }
    {
        self.world().version(site)
    }

    /// Returns the links that a site holds, by number: those that its last installation linked, or
    /// none if it was retargeted since.
    pub fn installed(&self, site: usize) -> &[usize]
        requires inside { site < length self.now.definition.sites }
        ensures value { result.now ≡ kept self.now.definition self.now.records site }
    {
        self.world().kept(site)
    }

    /// Returns the link with this number.
    pub fn declared_link(&self, link: usize) -> &Link
        requires inside { link < length (links_of self.now.definition) }
        ensures value { result.now ≡ (link_at self.now.definition link).1 }
    {
        link_of(self.definition(), link)
    }

    /// Returns the hits of a link that the workers have flushed, at most 2^40.
    pub fn total(&self, link: usize) -> u64
        requires inside { link < length (links_of self.now.definition) }
        ensures value { result ≡ total self.now.records link }
        ensures within { result ≤ most_hits }
    {
        self.totals().total(link)
    }

    /// Returns the gain of a link in the problem of a snapshot taken now: its weight times its
    /// flushed hits, or 0 if a point that it needs is invalid.
    pub fn gain(&self, link: usize) -> u64
        requires inside { link < length (links_of self.now.definition) }
        ensures value { result ≡ gain self.now.definition self.now.records link }
    {
        if self.is_eligible(link) {
            link_of(self.definition(), link).weight * self.total(link)
        } else {
            0
        }
    }

    /// Returns the number of snapshots taken.
    pub fn snapshot_count(&self) -> usize
        ensures count { result ≡ snapshots self.now.records }
    {
        self.snapshots.len()
    }

    /// Returns the number of plans published.
    pub fn plan_count(&self) -> usize
        ensures count { result ≡ plans self.now.records }
    {
        self.plans.len()
    }

    /// Returns the plan with this number, from 1.
    pub fn plan(&self, plan: usize) -> &Plan
        requires published { IsPublished self.now.records plan }
        ensures value { result.now ≡ (plan_at self.now.records plan).plan }
        ensures book { IsBook self.now }
    {
        self.plans[plan - 1].plan.plan()
    }
}

impl Machine {
    /// Returns the number of hits of a link by the calls of all workers, of each since its last
    /// flush. O(workers).
    pub fn unflushed(&self, link: usize) -> u128
        requires inside { link < length (links_of self.now.setting.definition) }
        ensures value { result ≡ unflushed_of_all self.now.setting.definition self.now.history
            self.now.setting.workers link }
        ensures within { result ≤ 2 ^ 96 }
    {
        let mut sum: u128 = 0;
        for worker in 0..self.workers() {
            sum += u128::from(self.unflushed_by(worker, link));
        }
        sum
    }

    // Returns the number of hits of a link by the calls of a worker since its last flush.
    fn unflushed_by(&self, worker: u32, link: usize) -> u64
        requires worker { worker < self.now.setting.workers }
        requires inside { link < length (links_of self.now.setting.definition) }
        ensures value { result
            ≡ unflushed self.now.setting.definition self.now.history worker link }
        ensures within { result < 2 ^ 64 }
    {
        let ledger = &self.runtime.ledgers()[worker as usize];
        ledger.unflushed(link)
    }
}

// Returns whether a point exists and is valid.
fn is_among(valid: &[bool], point: usize) -> bool
    ensures value { result ≡ slice_index_or valid.now point false }
{
    point < valid.len() && valid[point]
}
