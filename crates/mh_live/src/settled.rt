//! The state after all passes are returned.

ghost use Rattle.std.specs.Prelude.{◌≡◌, ◌+◌, ◌<◌, ◌≤◌, length, IfErr, IfOk, OnOk};
ghost use Rattle.std.specs.List.{All};
ghost use Rattle.mh_base.specs.Tests.{Refuses};
ghost use Rattle.mh_ledger.specs.Ledgers.{at};
ghost use Rattle.mh_site.specs.Links.{links};
ghost use Rattle.mh_ledger.specs.Limits.{greatest_limit};
ghost use Rattle.mh_core.specs.Renewals.{AreKnown, again_tests};
ghost use Rattle.mh_base.specs.Limits.{most_workers};
ghost use Rattle.mh_live.specs.Limits.{most_hits_of_all};
ghost use Rattle.mh_live.specs.Offices.{list_of};
ghost use Rattle.mh_live.specs.Settled.{IsSettled, Reopens};

use crate::front::{Front, ListName};
use crate::live::Live;
use crate::opening::Opening;
use crate::pass::Pass;
use crate::settle_fault::SettleFault;
use mh_core::{Book, Definition, Listing, Refusal, Succession};
use std::alloc::Global;
use std::fmt;
use std::marker::Model;

/// The state that running threads leave after all their passes are returned: the book, and for each
/// link the number of hits that the passes made.
#[derive(Drop)]
pub struct Settled<N: ListName> {
    book: Book,
    unflushed: Vec<u128>,
    front: Front<N>,
}

impl<N: ListName> Model for Settled<N> {
    ghost use Rattle.mh_live.specs.Settled.{SettledState, IsSettled, coded_settled};

    ghost Value = { SettledState };

    ghost coded = { coded_settled };

    ghost view = { λ s. record { book = s.book; unflushed = s.unflushed.items; front = s.front } };

    ghost invariant = { λ s. IsSettled N.definition N.limits N.workers record {
      book = s.book;
      unflushed = s.unflushed.items;
      front = s.front;
    } };
}

/// Shows the list of controls of its office.
impl<N: ListName> fmt::Debug for Settled<N> {
    fn fmt<W: fmt::Write>(&self, f: &mut fmt::Formatter<W>) -> fmt::Result {
        write!(f, "Settled({:?})", self.front)
    }
}

impl<N: ListName> Settled<N> {
    /// Returns the state of the book of an office with the list of its controls, and with the
    /// unflushed hits of each link.
    pub(crate) fn new(book: Book, unflushed: Vec<u128>, front: Front<N>) -> Settled<N>
        requires settled { IsSettled N.definition N.limits N.workers record
            { book = book; unflushed = unflushed.items; front = front } }
        ensures value { result ≡ record
            { book = book; unflushed = unflushed.items; front = front } }
    {
        Settled {
            book,
            unflushed,
            front,
        }
    }

    /// Returns the number of links.
    pub fn links(&self) -> usize
        ensures count { result ≡ length (links N.definition) }
        ensures settled { IsSettled N.definition N.limits N.workers self.now }
    {
        self.unflushed.len()
    }

    /// Returns the number of hits of a link that the passes made, flushed or not.
    pub fn made(&self, link: usize) -> u128
        requires inside { link < length (links N.definition) }
        ensures value { result ≡ at self.now.book.totals.total link + at self.now.unflushed link }
    {
        u128::from(self.total(link)) + self.unflushed(link)
    }

    /// Returns the number of hits of a link that the passes flushed.
    pub fn total(&self, link: usize) -> u64
        requires inside { link < length (links N.definition) }
        ensures value { result ≡ at self.now.book.totals.total link }
        ensures within { result ≤ greatest_limit }
    {
        let totals = self.book.totals();
        // Names the invariant of the totals for the proof.
        let _links = totals.links();
        totals.total(link)
    }

    /// Returns the number of hits of a link that no pass flushed.
    pub fn unflushed(&self, link: usize) -> u128
        requires inside { link < length (links N.definition) }
        ensures value { result ≡ at self.now.unflushed link }
        ensures within { result ≤ most_hits_of_all }
    {
        self.unflushed[link]
    }

    /// Returns the list of all controls.
    pub fn front(&self) -> &Front<N>
        ensures value { result.now ≡ self.now.front }
    {
        &self.front
    }

    /// Returns the book, with all records.
    pub fn book(&self) -> &Book
        ensures value { result.now ≡ self.now.book }
    {
        &self.book
    }

    /// Returns the parts of the next office and its passes, for `workers` workers, 1 to 64, within
    /// the same limits, and the points that this office is to invalidate first, ascending. Once it
    /// has:
    ///
    /// - Each site's calls mean what they meant here. Points, sites and links keep their numbers.
    /// - The same points are valid, as well as those in `again`. In the base trees, each invalid
    ///   point in `again` is replaced by its fallback.
    /// - Hits count from 0; the earlier ones remain here.
    ///
    /// Takes the time of `Book::renewed` plus that of `Opening::new`.
    ///
    /// Fails with `NoPoint` if a point that is to be valid again does not exist, and otherwise only
    /// with `NoMemory`.
    pub fn renew(
        &self,
        alloc: Global,
        workers: u32,
        again: &[u32],
    ) -> Result<(Opening, Listing<u32>), Refusal>
        requires workers { (0 < workers) × (workers ≤ most_workers) }
        ensures known { OnOk result (AreKnown N.definition again.now) }
        ensures renews { IfOk result (λ t. Reopens again.now workers self.now.book t.0 t.1) }
        ensures settled { IsSettled N.definition N.limits N.workers self.now }
        ensures refused { IfErr result (λ told. Refuses (again_tests N.definition again.now)
            told) }
    {
        let Succession {
            definition,
            invalid,
        } = self.book.succession(again)?;
        let opening = self.reopen(alloc, workers, &definition)?;
        Ok((opening, invalid))
    }

    // Returns an opening of a definition, within the current limits.
    fn reopen(
        &self,
        alloc: Global,
        workers: u32,
        definition: &Definition,
    ) -> Result<Opening, Refusal>
        requires workers { (0 < workers) × (workers ≤ most_workers) }
        ensures definition { IfOk result (λ o. o.definition ≡ definition.now) }
        ensures workers { IfOk result (λ o. o.workers ≡ workers) }
        ensures limits { IfOk result (λ o. o.limits ≡ self.now.book.limits) }
        ensures refused { IfErr result (λ told. told ≡ Refusal.NoMemory) }
    {
        let limits = self.book.limits().copy();
        Opening::new(alloc, definition, workers, limits).map_err(|_| Refusal::NoMemory)
    }
}

/// The parts of a settlement that failed, unchanged.
#[derive(Drop)]
pub struct Unsettled<N: ListName> {
    /// The office that threads share.
    pub live: Live<N>,
    /// The passes that were handed in.
    pub passes: Vec<Pass<N>>,
    /// The reason why it was not settled.
    pub fault: SettleFault,
}

/// Shows the reason why it was not settled.
impl<N: ListName> fmt::Debug for Unsettled<N> {
    fn fmt<W: fmt::Write>(&self, f: &mut fmt::Formatter<W>) -> fmt::Result {
        write!(f, "Unsettled({:?})", self.fault)
    }
}
