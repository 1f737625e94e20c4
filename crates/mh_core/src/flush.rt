//! Flushing a ledger into a book.

ghost use Rattle.std.specs.Prelude.{◌≡◌, List, slice_set, OnOk, OnErr, IfErr};
ghost use Rattle.mh_ledger.specs.Ledgers.{AreHeld, Holds, LedgerState, settled};
ghost use Rattle.mh_core.specs.declared.record.Record.TheVariants.{Flushed};
ghost use Rattle.mh_core.specs.Books.{MayTake, Rejects, Takes};
ghost use Rattle.mh_core.specs.Records.{hits_in};

use crate::book::Book;
use crate::hits::hits_of;
use crate::record::Record;
use crate::refusal::Refusal;
use mh_base::NoMemory;
use mh_ledger::Ledger;

impl Book {
    // Adds the unflushed hits of a ledger to the totals, given that `calls` calls were accepted
    // besides the records.
    pub(crate) fn flush_after(&mut self, calls: usize, ledger: &mut Ledger) -> Result<(), Refusal>
        requires held { Holds self.old.totals ledger.old }
        ensures taken { OnOk result (Takes self.old calls
            (Flushed ledger.old.worker (hits_in ledger.old.unflushed)) self.new) }
        ensures ledger { OnOk result (ledger.new ≡ settled ledger.old) }
        ensures held { Holds self.new.totals ledger.new }
        ensures all { (ledgers : List LedgerState) → AreHeld self.old.totals ledgers
            → AreHeld self.new.totals (slice_set ledgers ledger.old.worker ledger.new) }
        ensures refused { IfErr result
            (λ told. Rejects self.old calls
            (Flushed ledger.old.worker (hits_in ledger.old.unflushed)) told self.new) }
        ensures kept { OnErr result (ledger.new ≡ ledger.old) }
    {
        self.test_flush(calls, ledger)?;
        self.append_flush(calls, ledger)
            .map_err(|_| Refusal::NoMemory)
    }

    // Makes all allocations first, so that nothing can fail afterwards.
    fn append_flush(&mut self, calls: usize, ledger: &mut Ledger) -> Result<(), NoMemory>
        requires held { Holds self.old.totals ledger.old }
        requires passes { MayTake self.old calls
            (Flushed ledger.old.worker (hits_in ledger.old.unflushed)) }
        ensures taken { OnOk result (Takes self.old calls
            (Flushed ledger.old.worker (hits_in ledger.old.unflushed)) self.new) }
        ensures ledger { OnOk result (ledger.new ≡ settled ledger.old) }
        ensures held { Holds self.new.totals ledger.new }
        ensures all { (ledgers : List LedgerState) → AreHeld self.old.totals ledgers
            → AreHeld self.new.totals (slice_set ledgers ledger.old.worker ledger.new) }
        ensures refused { OnErr result (self.new ≡ self.old) }
        ensures kept { OnErr result (ledger.new ≡ ledger.old) }
    {
        let worker = ledger.worker();
        let hits = hits_of(self.alloc, ledger.unflushed_hits())?;
        self.records.reserve(1)?;
        // The tests found that the totals have room.
        let _room = self.totals.flush(ledger);
        self.records.push_reserved(Record::Flushed { worker, hits });
        Ok(())
    }
}
