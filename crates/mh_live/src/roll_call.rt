//! Finding which passes are returned, and the hits that they have not flushed.

ghost use Rattle.std.specs.Prelude.{◌≡◌, ◌<◌, ◌==◌, ◌↔◌, ◌≤◌, ℕ, length, map, IfErr, IfOk, IsTrue, OnOk};
ghost use Rattle.std.specs.List.{All, count_by, range_with_len};
ghost use Rattle.mh_ledger.specs.Ledgers.{Holds, IsTotals};
ghost use Rattle.mh_live.specs.Limits.{most_hits_of_all};
ghost use Rattle.mh_live.specs.Receipts.{IsOffice};
ghost use Rattle.mh_live.specs.Settled.{AreBack, IsUnsettledBy, IsWithin, unflushed_by};

use crate::front::{Front, ListName};
use crate::office::Office;
use crate::pass::Pass;
use crate::settle_fault::SettleFault;
use mh_ledger::Totals;
use std::alloc::Global;

// Returns the hits of each link that the passes have not flushed, if all passes are returned.
pub(crate) fn unflushed_hits<N: ListName>(
    alloc: Global,
    office: &Office<N>,
    passes: &[Pass<N>],
) -> Result<Vec<u128>, SettleFault>
    ensures office { IsOffice N.definition N.limits N.workers office.now }
    ensures totals { IsTotals office.now.book.totals }
    ensures back { OnOk result (AreBack office.now.book.totals passes.now) }
    ensures value { IfOk result (λ v. v.items
        ≡ map (unflushed_by passes.now) (range_with_len 0 (length office.now.book.totals.total))) }
    ensures within { IfOk result (λ v. All (λ n. n ≤ most_hits_of_all) v.items) }
    ensures refused { IfErr result (IsUnsettledBy office.now.book.totals passes.now) }
{
    let totals = office.book().totals();
    // Names the invariant of the totals for the proof.
    let _links = totals.links();
    if !are_back(totals, passes) {
        return Err(SettleFault::MissingPass);
    }
    let mut hits = Vec::new(alloc);
    for link in 0..totals.links() {
        if hits.push(unflushed_of(totals, passes, link)).is_err() {
            return Err(SettleFault::NoMemory);
        }
    }
    Ok(hits)
}

// Returns the hits of a link that the passes have not flushed.
fn unflushed_of<N: ListName>(totals: &Totals, passes: &[Pass<N>], link: usize) -> u128
    requires back { AreBack totals.now passes.now }
    requires inside { link < length totals.now.total }
    ensures value { result ≡ unflushed_by passes.now link }
    ensures within { result ≤ most_hits_of_all }
{
    // Names the invariant of the totals for the proof.
    let _links = totals.links();
    let mut hits = 0u128;
    for pass in passes {
        let ledger = pass.ledger();
        // Names the invariant of the ledger for the proof.
        let _links = ledger.links();
        hits += u128::from(ledger.unflushed(link));
    }
    hits
}

// Returns whether each worker has exactly one pass among these, and the totals hold the ledgers of
// all.
fn are_back<N: ListName>(totals: &Totals, passes: &[Pass<N>]) -> bool
    ensures decides { IsTrue result ↔ AreBack totals.now passes.now }
{
    let once = has_each_once(totals.workers(), passes);
    once && are_held(totals, passes)
}

// Returns whether each worker has exactly one pass.
fn has_each_once<N: ListName>(workers: usize, passes: &[Pass<N>]) -> bool
    ensures decides { IsTrue result
        ↔ ((w : ℕ) → w < workers → count_by (λ p. p.ledger.worker == w) passes.now ≡ 1) }
{
    for worker in 0..workers {
        if passes_of(worker, passes) != 1 {
            return false;
        }
    }
    true
}

// Returns the number of passes of a worker.
fn passes_of<N: ListName>(worker: usize, passes: &[Pass<N>]) -> usize
    ensures value { result ≡ count_by (λ p. p.ledger.worker == worker) passes.now }
{
    passes.iter().filter(|pass| pass.worker() == worker).count()
}

// Returns whether the totals hold the ledgers of all passes.
fn are_held<N: ListName>(totals: &Totals, passes: &[Pass<N>]) -> bool
    ensures decides { IsTrue result ↔ All (λ p. Holds totals.now p.ledger) passes.now }
{
    passes.iter().all(|pass| totals.holds(pass.ledger()))
}

// States that, of the list that each pass has seen and this list, one is a prefix of the other.
pub(crate) fn compare_all<N: ListName>(passes: &[Pass<N>], front: &Front<N>)
    ensures within { All (IsWithin front.now) passes.now }
{
    for pass in passes {
        pass.front().compare(front);
    }
}
