//! Renewing a book and a runtime, which begin a new history.

ghost use Rattle.std.specs.Prelude.{◌≡◌, ◌∷◌, ◌<◌, [], length, map, reverse, IfErr, IfOk, OnErr, OnOk};
ghost use Rattle.mh_base.specs.Tests.{Refuses};
ghost use Rattle.mh_ledger.specs.Ledgers.{AreHeld};
ghost use Rattle.mh_ledger.specs.Renewals.{left_of, renewed_ledger};
ghost use Rattle.mh_site.specs.Links.{links as links_of};
ghost use Rattle.mh_site.specs.Worlds.{opened, replay};
ghost use Rattle.mh_site.specs.declared.control.Control.TheVariants.{Invalidate};
ghost use Rattle.mh_tree.specs.Typing.{IsTyped};
ghost use Rattle.mh_pic.specs.Specialised.{retired_tree};
ghost use Rattle.mh_core.specs.Records.{base, hits_in, numbers};
ghost use Rattle.mh_core.specs.Renewals.{AreKnown, BasesAreTyped, Begins, MeansTheSame, Renews, carried, fallen, given_back, is_valid_anew, renewal_tests, renewed, renewed_bases};
ghost use Rattle.mh_core.specs.declared.record.Record.TheVariants.{Flushed, Invalidated};

use crate::book::Book;
use crate::hits::hits_of;
use crate::record::Record;
use crate::refusal::Refusal;
use mh_base::{NoMemory, are_below};
use mh_ledger::{Ledger, OldHits};
use mh_pic::retire;
use mh_site::{Control, Definition, Listing, World};
use mh_tree::Declared;
use std::alloc::Global;

/// The parts of the old history that a new one takes over.
#[derive(Clone, Copy, Debug)]
pub struct Renewal<'a> {
    /// The points that are to be valid again, by number. A point may be listed more than once;
    /// those that are valid are ignored. In the base trees, each that is invalid is replaced by its
    /// fallback, so that all calls mean what they meant before; its number may then be reused.
    pub again: &'a [u32],
    /// The part of the flushed hits that is kept.
    pub hits: OldHits,
}

// The contents of a book at the beginning of a new history: its definition, its first records, and
// the world after them.
#[derive(Drop)]
pub(crate) struct Beginning {
    definition: Definition,
    world: World,
    records: Vec<Record>,
}

impl Book {
    /// Returns the current definition, with each site's base tree as its target. Each invalid point
    /// in `again` is replaced in these trees by its fallback. Points, sites and links keep their
    /// numbers. O(points + sites + links) if `again` is empty; otherwise it also takes the time of
    /// `mh_pic::retire` for each base tree.
    ///
    /// Fails only if an allocation or a reference count is refused.
    pub fn renewed(&self, again: &[u32]) -> Result<Definition, NoMemory>
        requires known { AreKnown self.now.definition again.now }
        ensures value { IfOk result (λ d. d
            ≡ renewed self.now.definition self.now.records again.now) }
        ensures links { IfOk result (λ d. links_of d ≡ links_of self.now.definition) }
        ensures typed { OnOk result (BasesAreTyped self.now.definition self.now.records) }
    {
        self.kept();
        let bases = self.bases(again)?;
        let definition = self.definition.with_targets(self.alloc, &bases)?;
        Ok(definition)
    }

    // Returns the points in `again` that are invalid.
    fn given_back(&self, again: &[u32]) -> Result<Vec<u32>, NoMemory>
        requires known { AreKnown self.now.definition again.now }
        ensures value { IfOk result (λ v. v.items ≡ given_back self.now.records again.now) }
    {
        let mut points = Vec::new(self.alloc);
        for point in again {
            let valid = self.is_valid(*point as usize);
            if !valid {
                points.push(*point)?;
            }
        }
        Ok(points)
    }

    // Returns the base tree of each site, by number, without the invalid points in `again`.
    fn bases(&self, again: &[u32]) -> Result<Vec<Declared>, NoMemory>
        requires known { AreKnown self.now.definition again.now }
        ensures value { IfOk result (λ v. v.items
            ≡ renewed_bases self.now.definition self.now.records again.now) }
        ensures typed { OnOk result (BasesAreTyped self.now.definition self.now.records) }
    {
        let points = self.given_back(again)?;
        let bases = self.bases_without(&points)?;
        Ok(bases)
    }

    // Returns the base tree of each site, by number, without these points.
    fn bases_without(&self, points: &[u32]) -> Result<Vec<Declared>, NoMemory>
        ensures value { IfOk result (λ v. v.items
            ≡ map (λ s. retired_tree points.now (base self.now.definition self.now.records s))
            (numbers (length self.now.definition.sites))) }
        ensures typed { OnOk result (BasesAreTyped self.now.definition self.now.records) }
    {
        let mut bases = Vec::new(self.alloc);
        for site in 0..self.definition.sites().len() {
            bases.push(self.base(site, points)?)?;
        }
        Ok(bases)
    }

    // Returns a site's base tree, without these points.
    fn base(&self, site: usize, points: &[u32]) -> Result<Declared, NoMemory>
        requires inside { site < length self.now.definition.sites }
        ensures value { IfOk result (λ t. t
            ≡ retired_tree points.now (base self.now.definition self.now.records site)) }
        ensures typed { OnOk result (IsTyped
            (base self.now.definition self.now.records site).tree
            (base self.now.definition self.now.records site).signature) }
    {
        let tree = retire(self.alloc, self.world.base(site), points)?;
        Ok(tree)
    }

    // Returns whether a point is valid in the new history.
    fn is_valid_anew(&self, point: u32, again: &[u32]) -> bool
        requires inside { point < length self.now.definition.points }
        ensures value { result ≡ is_valid_anew self.now.records again.now point }
    {
        self.is_valid(point as usize) || again.contains(&point)
    }

    // Returns the points that stay invalid, ascending.
    pub(crate) fn fallen(&self, again: &[u32]) -> Result<Listing<u32>, NoMemory>
        ensures value { IfOk result (λ points. points
            ≡ fallen self.now.definition self.now.records again.now) }
    {
        let mut fallen = Vec::new(self.alloc);
        for point in 0..self.definition.points().len() {
            let valid = self.is_valid_anew(point as u32, again);
            if !valid {
                fallen.push(point as u32)?;
            }
        }
        Ok(Listing::from_vec(fallen))
    }

    /// Begins a new history, with one held ledger of each worker, as `Runtime::renew` does.
    ///
    /// Fails with `HistoryFull` if the limit of events does not exceed the number of workers, with
    /// `NoPoint` if a point that is to be valid again does not exist, and otherwise only with
    /// `NoMemory`; then nothing changes.
    pub fn renew(&mut self, ledgers: &mut Vec<Ledger>, renewal: Renewal<'_>) -> Result<(), Refusal>
        requires held { AreHeld self.old.totals ledgers.old.items }
        ensures passes { OnOk result (length ledgers.old.items < self.old.limits.history) }
        ensures known { OnOk result (AreKnown self.old.definition renewal.entry.again.now) }
        ensures renewed { OnOk result (Renews renewal.entry.again.now renewal.entry.hits
            self.old self.new) }
        ensures means { OnOk result (MeansTheSame renewal.entry.again.now self.old self.new) }
        ensures links { OnOk result (links_of self.new.definition
            ≡ links_of self.old.definition) }
        ensures ledgers { OnOk result (ledgers.new.items
            ≡ map (renewed_ledger renewal.entry.hits) ledgers.old.items) }
        ensures held { AreHeld self.new.totals ledgers.new.items }
        ensures refused { IfErr result (λ told. Refuses
            (renewal_tests self.old.definition self.old.limits (length ledgers.old.items)
            renewal.entry.again.now) told) }
        ensures same { OnErr result (self.new ≡ self.old) }
        ensures kept { OnErr result (ledgers.new.items ≡ ledgers.old.items) }
    {
        let Renewal { again, hits } = renewal;
        self.test_renewal(ledgers.len(), again)?;
        let first = self
            .beginning(ledgers, again, hits)
            .map_err(|_| Refusal::NoMemory)?;
        self.begin(first, ledgers, again, hits);
        Ok(())
    }

    // Runs the tests of a renewal with this many workers, and reports the first that fails.
    fn test_renewal(&self, workers: usize, again: &[u32]) -> Result<(), Refusal>
        ensures passes { OnOk result (workers < self.now.limits.history) }
        ensures known { OnOk result (AreKnown self.now.definition again.now) }
        ensures refuses { IfErr result (λ told. Refuses
            (renewal_tests self.now.definition self.now.limits workers again.now) told) }
    {
        if workers as u64 >= self.limits.history() {
            return Err(Refusal::HistoryFull);
        }
        if !are_below(again, self.definition.points().len()) {
            return Err(Refusal::NoPoint);
        }
        Ok(())
    }

    // Makes all allocations of a renewal.
    fn beginning(
        &self,
        ledgers: &[Ledger],
        again: &[u32],
        hits: OldHits,
    ) -> Result<Beginning, NoMemory>
        requires held { AreHeld self.now.totals ledgers.now }
        requires known { AreKnown self.now.definition again.now }
        ensures begins { IfOk result (Begins again.now hits self.now) }
    {
        let fallen = self.fallen(again)?;
        let records = first_records(self.alloc, &fallen, ledgers, hits)?;
        let definition = self.renewed(again)?;
        let world = open_without(self.alloc, Some(&self.world), &definition, fallen)?;
        Ok(Beginning {
            definition,
            world,
            records,
        })
    }

    // Applies the beginning. It does not allocate.
    fn begin(&mut self, first: Beginning, ledgers: &mut Vec<Ledger>, again: &[u32], hits: OldHits)
        requires held { AreHeld self.old.totals ledgers.old.items }
        requires room { length ledgers.old.items < self.old.limits.history }
        requires begins { Begins again.now hits self.old first }
        ensures renewed { Renews again.now hits self.old self.new }
        ensures means { MeansTheSame again.now self.old self.new }
        ensures links { links_of self.new.definition ≡ links_of self.old.definition }
        ensures ledgers { ledgers.new.items ≡ map (renewed_ledger hits) ledgers.old.items }
        ensures held { AreHeld self.new.totals ledgers.new.items }
    {
        let Beginning {
            definition,
            world,
            records,
        } = first;
        // Names the invariant of the totals for the proof.
        let _links = self.totals.links();
        self.totals.renew(ledgers, hits);
        self.definition = definition;
        self.world = world;
        self.records = records;
        self.snapshots = Vec::new(self.alloc);
        self.plans = Vec::new(self.alloc);
    }
}

// Returns the world of a definition in which these points are invalid, with the code of an earlier
// world.
pub(crate) fn open_without(
    alloc: Global,
    earlier: Option<&World>,
    definition: &Definition,
    points: Listing<u32>,
) -> Result<World, NoMemory>
    ensures value { IfOk result (λ w. w
        ≡ replay (opened definition.now) (Invalidate points ∷ [])) }
{
    let mut world = open(alloc, earlier, definition)?;
    world.absorb(Control::Invalidate(points));
    Ok(world)
}

// Returns the world of a definition before any control, with the code of an earlier world.
fn open(alloc: Global, earlier: Option<&World>, definition: &Definition) -> Result<World, NoMemory>
    ensures value { IfOk result (λ w. w ≡ opened definition.now) }
{
    match earlier {
        Some(world) => world.reopen(definition),
        None => World::open(alloc, definition),
    }
}

// Returns an invalidation of these points, and a flush for each worker of the part of its flushed
// hits that is kept.
pub(crate) fn first_records(
    alloc: Global,
    points: &Listing<u32>,
    ledgers: &[Ledger],
    hits: OldHits,
) -> Result<Vec<Record>, NoMemory>
    ensures value { IfOk result (λ v. reverse v.items ≡ carried (Invalidated points.now ∷ [])
        (map (λ l. (renewed_ledger hits l).flushed) ledgers.now) (length ledgers.now)) }
{
    let mut records = Vec::new(alloc);
    let points = points.copy()?;
    records.push(Record::Invalidated { points })?;
    for worker in 0..ledgers.len() {
        let flushed = ledgers[worker].flushed_hits();
        records.push(left_flush(alloc, worker, flushed, hits)?)?;
    }
    Ok(records)
}

// Returns a flush of a worker, of the part of these hits that is kept.
fn left_flush(
    alloc: Global,
    worker: usize,
    flushed: &[u64],
    hits: OldHits,
) -> Result<Record, NoMemory>
    ensures value { IfOk result (λ e. e
        ≡ Flushed worker (hits_in (map (left_of hits) flushed.now))) }
{
    let left = left_hits(alloc, flushed, hits)?;
    let hits = hits_of(alloc, &left)?;
    Ok(Record::Flushed { worker, hits })
}

// Returns the part that is kept of each number of hits.
fn left_hits(alloc: Global, flushed: &[u64], hits: OldHits) -> Result<Vec<u64>, NoMemory>
    ensures value { IfOk result (λ v. v.items ≡ map (left_of hits) flushed.now) }
{
    let mut left = Vec::new(alloc);
    for count in flushed {
        left.push(hits.left_of(*count))?;
    }
    Ok(left)
}
