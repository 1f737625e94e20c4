//! Extending a book and a runtime, which begin a new history over a longer definition.

ghost use Rattle.std.specs.Prelude.{◌≡◌, ◌<◌, ◌≤◌, length, map, take, IfErr, IfOk, OnErr, OnOk};
ghost use Rattle.mh_base.specs.Tests.{Refuses};
ghost use Rattle.mh_ledger.specs.Extensions.{extended_ledger};
ghost use Rattle.mh_ledger.specs.Ledgers.{AreHeld};
ghost use Rattle.mh_site.specs.Extensions.{extension_rules};
ghost use Rattle.mh_site.specs.Lawful.{IsDefinition};
ghost use Rattle.mh_site.specs.Links.{links as links_of};
ghost use Rattle.mh_core.specs.Extensions.{BeginsOver, Extends, GoesOn, IsLonger, RefusesExtension, extended_records, extension, invalid_points, more_links};
ghost use Rattle.mh_core.specs.Records.{base, bases};

use crate::book::Book;
use crate::record::Record;
use crate::renewing::{first_records, open_without};
use crate::runtime::Runtime;
use mh_base::NoMemory;
use mh_ledger::{Ledger, OldHits, Totals};
use mh_site::{Definition, DefinitionFault, Listing, Point, Site, World};
use mh_tree::Declared;
use thiserror::Error;

/// The reason why a definition was not extended.
#[derive(Clone, Copy, Debug, PartialEq, Eq, Error)]
pub enum ExtensionFault {
    /// The limit of events does not exceed the number of workers.
    #[error("HistoryFull")]
    HistoryFull,
    /// The longer definition has this fault; `NoMemory` also reports lack of memory for the new
    /// history.
    #[error("{0}")]
    Definition(DefinitionFault),
}

impl From<DefinitionFault> for ExtensionFault {
    ghost use Rattle.mh_core.specs.declared.extending.ExtensionFault.TheVariants.{Definition};

    ghost from_gives = { λ cause e. e ≡ Definition cause };

    fn from(cause: DefinitionFault) -> ExtensionFault {
        ExtensionFault::Definition(cause)
    }
}

// The contents of a book at the beginning of a new history.
#[derive(Drop)]
pub(crate) struct Extension {
    definition: Definition,
    world: World,
    records: Vec<Record>,
    totals: Totals,
    ledgers: Vec<Ledger>,
}

impl Book {
    /// Begins a new history over a definition with more points and sites, with one held ledger of
    /// each worker, as `Runtime::extend` does.
    pub fn extend(
        &mut self,
        ledgers: &mut Vec<Ledger>,
        points: Listing<Point>,
        sites: Listing<Site>,
    ) -> Result<(), ExtensionFault>
        requires held { AreHeld self.old.totals ledgers.old.items }
        ensures extended { OnOk result (Extends points sites self.old self.new) }
        ensures goes_on { OnOk result (GoesOn self.old self.new) }
        ensures ledgers { OnOk result (ledgers.new.items ≡ map
            (extended_ledger (more_links self.old.definition self.new.definition))
            ledgers.old.items) }
        ensures held { OnOk result (AreHeld self.new.totals ledgers.new.items) }
        ensures refused { IfErr result (λ told. RefusesExtension self.old
            (length ledgers.old.items) points sites told) }
        ensures same { OnErr result (self.new ≡ self.old) }
        ensures kept { OnErr result (ledgers.new.items ≡ ledgers.old.items) }
    {
        self.kept();
        if ledgers.len() as u64 >= self.limits.history() {
            return Err(ExtensionFault::HistoryFull);
        }
        let first = self.extension(ledgers, points, sites)?;
        self.go_over(first, ledgers);
        Ok(())
    }

    // Makes all allocations of an extension.
    fn extension(
        &self,
        ledgers: &[Ledger],
        points: Listing<Point>,
        sites: Listing<Site>,
    ) -> Result<Extension, DefinitionFault>
        requires held { AreHeld self.now.totals ledgers.now }
        ensures begins { IfOk result (BeginsOver self.now ledgers.now
            (extension self.now.definition self.now.records points sites)) }
        ensures lawful { OnOk result (IsDefinition
            (extension self.now.definition self.now.records points sites)) }
        ensures refused { IfErr result (λ e. Refuses (extension_rules self.now.definition
            (bases self.now.definition self.now.records) points sites) e) }
    {
        let definition = self.extended(points, sites)?;
        let first = self.beginning_over(definition, ledgers)?;
        Ok(first)
    }

    // Returns the current definition with more points and sites.
    fn extended(
        &self,
        points: Listing<Point>,
        sites: Listing<Site>,
    ) -> Result<Definition, DefinitionFault>
        ensures value { IfOk result (λ d. d
            ≡ extension self.now.definition self.now.records points sites) }
        ensures lawful { IfOk result (λ d. IsDefinition d) }
        ensures refused { IfErr result (λ e. Refuses (extension_rules self.now.definition
            (bases self.now.definition self.now.records) points sites) e) }
    {
        self.kept();
        let bases = self.base_trees()?;
        let definition = self.definition.extended(self.alloc, &bases, points, sites)?;
        Ok(definition)
    }

    // Returns the base tree of each site, by number.
    fn base_trees(&self) -> Result<Vec<Declared>, NoMemory>
        ensures value { IfOk result (λ v. v.items
            ≡ bases self.now.definition self.now.records) }
    {
        let mut trees = Vec::new(self.alloc);
        for site in 0..self.definition.sites().len() {
            trees.push(self.base_tree(site)?)?;
        }
        Ok(trees)
    }

    // Returns another owner of a site's base tree.
    fn base_tree(&self, site: usize) -> Result<Declared, NoMemory>
        requires inside { site < length self.now.definition.sites }
        ensures value { IfOk result (λ t. t ≡ base self.now.definition self.now.records site) }
    {
        let tree = self.world.base(site).share()?;
        Ok(tree)
    }

    // Returns the points that are invalid, ascending.
    fn invalid_points(&self) -> Result<Listing<u32>, NoMemory>
        ensures value { IfOk result (λ points. points
            ≡ invalid_points self.now.definition self.now.records) }
    {
        let mut invalid = Vec::new(self.alloc);
        for point in 0..self.definition.points().len() {
            let valid = self.is_valid(point);
            if !valid {
                invalid.push(point as u32)?;
            }
        }
        Ok(Listing::from_vec(invalid))
    }

    // Returns the beginning of a new history over a longer definition.
    fn beginning_over(
        &self,
        definition: Definition,
        ledgers: &[Ledger],
    ) -> Result<Extension, NoMemory>
        requires held { AreHeld self.now.totals ledgers.now }
        requires longer { length (links_of self.now.definition) ≤ length (links_of definition) }
        ensures begins { IfOk result (BeginsOver self.now ledgers.now definition) }
    {
        // Names the invariant of the totals for the proof.
        let _links = self.totals.links();
        let invalid = self.invalid_points()?;
        let records = first_records(self.alloc, &invalid, ledgers, OldHits::Keep)?;
        let world = open_without(self.alloc, Some(&self.world), &definition, invalid)?;
        let more = definition.link_count() - self.definition.link_count();
        let (totals, ledgers) = self.totals.extended(self.alloc, ledgers, more)?;
        Ok(Extension {
            definition,
            world,
            records,
            totals,
            ledgers,
        })
    }

    // Applies the beginning. It does not allocate.
    fn go_over(&mut self, first: Extension, ledgers: &mut Vec<Ledger>)
        requires room { length ledgers.old.items < self.old.limits.history }
        requires held { AreHeld self.old.totals ledgers.old.items }
        requires longer { IsLonger self.old.definition first.definition }
        requires begins { BeginsOver self.old ledgers.old.items first.definition first }
        ensures definition { self.new.definition ≡ first.definition }
        ensures limits { self.new.limits ≡ self.old.limits }
        ensures records { self.new.records ≡ extended_records self.old.definition
            self.old.records self.old.totals.shares }
        ensures totals { self.new.totals ≡ first.totals }
        ensures ledgers { ledgers.new.items ≡ first.ledgers.items }
    {
        let Extension {
            definition,
            world,
            records,
            totals,
            ledgers: all,
        } = first;
        // Names the invariants of the definition and of the totals for the proof.
        let _sites = definition.sites();
        let _links = self.totals.links();
        self.definition = definition;
        self.world = world;
        self.records = records;
        self.totals = totals;
        self.snapshots = Vec::new(self.alloc);
        self.plans = Vec::new(self.alloc);
        *ledgers = all;
    }
}

impl Runtime {
    /// Begins a new history over the current definition with these points and sites added after its
    /// own.
    ///
    /// - Each site's base tree becomes its target. Sites, points and links keep their numbers, and
    ///   each site's calls mean what they meant before.
    /// - The same points are valid; the new ones are valid.
    /// - All hits are kept, and those that were not flushed stay unflushed.
    /// - No site holds a link. Snapshots and plans are numbered from 1 again.
    ///
    /// O(points + sites + links * workers), plus the tests of the definition and the preparation of
    /// each tree.
    ///
    /// Fails with `HistoryFull` if the limit of events does not exceed the number of workers, and
    /// otherwise as `Definition::extended` does; then nothing changes.
    pub fn extend(
        &mut self,
        points: Listing<Point>,
        sites: Listing<Site>,
    ) -> Result<(), ExtensionFault>
        ensures extended { OnOk result (Extends points sites self.old.book self.new.book) }
        ensures goes_on { OnOk result (GoesOn self.old.book self.new.book) }
        ensures ledgers { OnOk result (self.new.ledgers ≡ map (extended_ledger
            (more_links self.old.book.definition self.new.book.definition)) self.old.ledgers) }
        ensures refused { IfErr result (λ told. RefusesExtension self.old.book
            (length self.old.ledgers) points sites told) }
        ensures kept { OnErr result (self.new ≡ self.old) }
    {
        self.book.extend(&mut self.ledgers, points, sites)?;
        Ok(())
    }
}
