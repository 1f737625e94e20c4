//! Resuming a runtime from the invalid points and hits that an earlier process saved.

ghost use Rattle.std.specs.Prelude.{◌≡◌, ◌∷◌, ◌<◌, ◌≤◌, ◌↔◌, [], length, map, reverse, IfErr, IfOk, IsTrue, OnOk};
ghost use Rattle.std.specs.List.{All, range_with_len};
ghost use Rattle.mh_base.specs.Tests.{Passes, Refuses};
ghost use Rattle.mh_ledger.specs.Ledgers.{AreHeld};
ghost use Rattle.mh_ledger.specs.Resumptions.{resumed_ledger};
ghost use Rattle.mh_site.specs.Links.{links as links_of};
ghost use Rattle.mh_site.specs.Worlds.{opening};
ghost use Rattle.mh_core.specs.Resumptions.{IsResumed, IsResumedBook, resumed_records, resumption_tests, valid_beside};

use crate::book::Book;
use crate::hits::hits_of;
use crate::limits::Limits;
use crate::record::Record;
use crate::renewing::open_without;
use crate::runtime::Runtime;
use mh_base::{NoMemory, are_below};
use mh_ledger::{Ledger, Totals};
use mh_run::Stack;
use mh_site::{Definition, Listing};
use std::alloc::Global;
use thiserror::Error;

/// The reason why a runtime was not resumed, in the order of the tests.
#[derive(Clone, Copy, Debug, PartialEq, Eq, Error)]
pub enum ResumptionFault {
    /// There are no workers, so none that can have flushed the hits.
    #[error("NoWorker")]
    NoWorker,
    /// A point does not exist.
    #[error("NoPoint")]
    NoPoint,
    /// There is not exactly one number of hits for each link.
    #[error("WrongCount")]
    WrongCount,
    /// The limit of events is below 2, the number of the first records.
    #[error("HistoryFull")]
    HistoryFull,
    /// A number of hits exceeds the limit of totals.
    #[error("TotalTooLarge")]
    TotalTooLarge,
    /// Out of memory: an allocation or a reference count was refused.
    #[error("NoMemory")]
    NoMemory,
}

impl From<NoMemory> for ResumptionFault {
    ghost use Rattle.mh_core.specs.declared.resuming.ResumptionFault.{ResumptionFault};

    ghost from_gives = { λ _ fault. fault ≡ ResumptionFault.NoMemory };

    fn from(_refused: NoMemory) -> ResumptionFault {
        ResumptionFault::NoMemory
    }
}

impl Runtime {
    /// Returns the runtime of a definition with this many workers, which continues from what an
    /// earlier process saved: the points that were invalid, and the total of each link. Its first
    /// two records are an invalidation of the points, which may be none, and a flush of the hits by
    /// the first worker, so that snapshots count them. No hit is unflushed, and no site holds a
    /// link.
    ///
    /// Fails with the first test that fails, in the order of `ResumptionFault`, and otherwise only
    /// with `NoMemory`.
    pub fn resume(
        alloc: Global,
        definition: &Definition,
        workers: u32,
        limits: Limits,
        invalid: Listing<u32>,
        hits: &[u64],
    ) -> Result<Runtime, ResumptionFault>
        ensures passes { OnOk result (Passes
            (resumption_tests definition.now workers limits invalid hits.now)) }
        ensures resumed { IfOk result (IsResumed definition.now workers limits invalid hits.now) }
        ensures valid { IfOk result (λ r. r.book.world.valid
            ≡ valid_beside definition.now invalid) }
        ensures sites { IfOk result (λ r. r.book.world.sites
            ≡ map opening definition.now.sites) }
        ensures refused { IfErr result (λ told. Refuses
            (resumption_tests definition.now workers limits invalid hits.now) told) }
    {
        test_resumption(definition, workers, &limits, invalid.as_slice(), hits)?;
        let runtime = resumed(alloc, definition, workers, limits, invalid, hits)?;
        Ok(runtime)
    }
}

// Runs the tests of a resumption, and reports the first that fails.
fn test_resumption(
    definition: &Definition,
    workers: u32,
    limits: &Limits,
    invalid: &[u32],
    hits: &[u64],
) -> Result<(), ResumptionFault>
    ensures passes { OnOk result (Passes
        (resumption_tests definition.now workers limits.now invalid.now hits.now)) }
    ensures refused { IfErr result (λ told. Refuses
        (resumption_tests definition.now workers limits.now invalid.now hits.now) told) }
{
    if workers == 0 {
        return Err(ResumptionFault::NoWorker);
    }
    if !are_below(invalid, definition.points().len()) {
        return Err(ResumptionFault::NoPoint);
    }
    if hits.len() != definition.link_count() {
        return Err(ResumptionFault::WrongCount);
    }
    if limits.history() < 2 {
        return Err(ResumptionFault::HistoryFull);
    }
    if !all_within(hits, limits.total()) {
        return Err(ResumptionFault::TotalTooLarge);
    }
    Ok(())
}

// Returns whether no number exceeds the limit.
fn all_within(hits: &[u64], limit: u64) -> bool
    ensures value { IsTrue result ↔ All (λ n. n ≤ limit) hits.now }
{
    hits.iter().all(|count| *count <= limit)
}

// Returns the runtime, if the tests passed.
fn resumed(
    alloc: Global,
    definition: &Definition,
    workers: u32,
    limits: Limits,
    invalid: Listing<u32>,
    hits: &[u64],
) -> Result<Runtime, NoMemory>
    requires passes { Passes (resumption_tests definition.now workers limits invalid hits.now) }
    ensures resumed { IfOk result (IsResumed definition.now workers limits invalid hits.now) }
{
    let stack = Stack::new(alloc)?;
    let (book, ledgers) = Book::resumed(alloc, definition, workers, limits, invalid, hits)?;
    Ok(Runtime {
        book,
        workers,
        ledgers,
        stack,
    })
}

impl Book {
    // Returns the book, if the tests passed, and a held ledger of each worker.
    fn resumed(
        alloc: Global,
        definition: &Definition,
        workers: u32,
        limits: Limits,
        invalid: Listing<u32>,
        hits: &[u64],
    ) -> Result<(Book, Vec<Ledger>), NoMemory>
        requires passes { Passes (resumption_tests definition.now workers limits invalid
            hits.now) }
        ensures book { IfOk result (λ opened. IsResumedBook definition.now workers limits invalid
            hits.now opened.0) }
        ensures ledgers { IfOk result (λ opened. opened.1.items
            ≡ map (resumed_ledger hits.now limits.ledger) (range_with_len 0 workers)) }
        ensures held { IfOk result (λ opened. AreHeld opened.0.totals opened.1.items) }
    {
        let records = first_records(alloc, &invalid, hits)?;
        let definition = definition.share()?;
        // Names the invariant of the definition for the proof.
        let _sites = definition.sites();
        let (ledger_limit, total_limit) = (limits.ledger(), limits.total());
        let (totals, ledgers) = Totals::resume(
            alloc,
            hits,
            workers as usize,
            ledger_limit,
            total_limit,
        )?;
        let world = open_without(alloc, None, &definition, invalid)?;
        let book = Book {
            alloc,
            definition,
            limits,
            records,
            world,
            totals,
            snapshots: Vec::new(alloc),
            plans: Vec::new(alloc),
        };
        Ok((book, ledgers))
    }
}

// Returns an invalidation of these points, and a flush of these hits by the first worker.
fn first_records(
    alloc: Global,
    invalid: &Listing<u32>,
    hits: &[u64],
) -> Result<Vec<Record>, NoMemory>
    ensures value { IfOk result (λ v. reverse v.items
        ≡ resumed_records invalid.now hits.now) }
{
    let points = invalid.copy()?;
    let hits = hits_of(alloc, hits)?;
    let mut records = Vec::with_capacity(alloc, 2)?;
    records.push_reserved(Record::Invalidated { points });
    records.push_reserved(Record::Flushed { worker: 0, hits });
    Ok(records)
}
