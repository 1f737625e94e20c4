//! The usage of histories, and renewals.

ghost use Rattle.std.specs.Prelude.{◌≡◌, ◌≢◌, true, length, IfErr, IfOk, OnErr, OnOk};
ghost use Rattle.mh_core.specs.Records.{plans, snapshots};
ghost use Rattle.mh_ledger.specs.declared.old_hits.OldHits.{OldHits as OldHitsOf};
ghost use Rattle.mhlink_c.specs.Renewals.{BeginsAnew, IsRenewed, IsUsed, RefusesAnew, RefusesRenewal, hits_number};
ghost use Rattle.mhlink_c.specs.Statuses.{status_of};
ghost use Rattle.mhlink_c.specs.declared.failure.Failure.{Failure as FaultOf};
ghost use Rattle.mhlink_c.specs.declared.failure.Failure.TheVariants.{Unknown};

use crate::failure::{Failure, status};
use crate::handle::MhlinkMachine;
use crate::host::Host;
use core::mem::replace_with;
use mh_core::{Book, OldHits, Renewal};

/// The usage of a history: its records, at most as many as the limit of the history allows, its
/// snapshots and its plans, at most 1,024 of each.
#[repr(C)]
#[derive(Clone, Copy, Debug)]
pub struct MhlinkUsed {
    /// The records.
    pub records: u64,
    /// The snapshots.
    pub snapshots: u64,
    /// The plans.
    pub plans: u64,
}

/// Returns the usage of a book's history.
pub(crate) fn used_of(book: &Book) -> MhlinkUsed
    ensures used { IsUsed book.now result }
{
    MhlinkUsed {
        records: book.records().len() as u64,
        snapshots: book.snapshot_count() as u64,
        plans: book.plan_count() as u64,
    }
}

impl Host {
    /// Begins a new history, in which these points are valid again. The number selects the part of
    /// the flushed hits that is kept.
    fn renew(&mut self, again: &[u32], hits: u32) -> Result<(), Failure>
        ensures renewed { OnOk result (IsRenewed self.old again.now hits self.new) }
        ensures refused { IfErr result (RefusesRenewal self.old again.now hits) }
        ensures kept { OnErr result (self.new ≡ self.old) }
    {
        let hits = old_hits(hits)?;
        self.begin_anew(again, hits)
    }

    // Begins a new history, in which these points are valid again, and this part of the flushed
    // hits is kept.
    #[tactic(auto, using(crate::proofs::Renewed::fresh_is))]
    fn begin_anew(&mut self, again: &[u32], hits: OldHits) -> Result<(), Failure>
        ensures renewed { OnOk result (BeginsAnew self.old again.now hits self.new) }
        ensures refused { IfErr result (RefusesAnew self.old again.now) }
        ensures kept { OnErr result (self.new ≡ self.old) }
    {
        // Reading it names the runtime's invariants for the proof, and then those of a book.
        let _book = self.runtime.book();
        self.runtime.renew(Renewal { again, hits })?;
        self.runtime.book().kept();
        Ok(())
    }
}

// Returns the part of the flushed hits to keep, by the number from C.
pub(crate) fn old_hits(number: u32) -> Result<OldHits, Failure>
    ensures value { IfOk result (λ hits. number ≡ hits_number hits) }
    ensures unknown { IfErr result (λ e. ((hits : OldHitsOf) → number ≡ hits_number hits → ⊥)
        × (e ≡ Unknown)) }
{
    match number {
        0 => Ok(OldHits::Keep),
        1 => Ok(OldHits::Halve),
        2 => Ok(OldHits::Drop),
        _ => Err(Failure::Unknown),
    }
}

fn used_held(machine: MhlinkMachine, _: ()) -> (MhlinkMachine, MhlinkUsed)
    requires full { machine.full ≡ true }
    ensures full { result.0.full ≡ true }
    ensures same { result.0.value ≡ machine.value }
    ensures used { IsUsed machine.value.runtime.book result.1 }
{
    let host = machine.into_box();
    let used = used_of(host.runtime.book());
    (MhlinkMachine::of(host), used)
}

/// Stores the usage of a machine's history in `used`. Always succeeds.
#[unsafe(no_mangle)]
pub extern "C" fn mhlink_used(machine: &mut MhlinkMachine, used: &mut MhlinkUsed) -> u32
    requires full { machine.old.full ≡ true }
    ensures full { machine.new.full ≡ true }
    ensures same { machine.new.value ≡ machine.old.value }
    ensures answered { result ≡ 0 }
    ensures records { used.new.records ≡ length machine.old.value.runtime.book.records }
    ensures snapshots { used.new.snapshots ≡ snapshots machine.old.value.runtime.book.records }
    ensures plans { used.new.plans ≡ plans machine.old.value.runtime.book.records }
{
    *used = replace_with(machine, (), used_held);
    0
}

fn renew_held(
    machine: MhlinkMachine,
    renewal: (&[u32], u32),
) -> (MhlinkMachine, Result<(), Failure>)
    requires full { machine.full ≡ true }
    ensures full { result.0.full ≡ true }
    ensures renewed { OnOk result.1 (IsRenewed machine.value renewal.entry.0.now renewal.entry.1
        result.0.value) }
    ensures refused { IfErr result.1 (RefusesRenewal machine.value renewal.entry.0.now
        renewal.entry.1) }
    ensures kept { OnErr result.1 (result.0.value ≡ machine.value) }
{
    let mut host = machine.into_box();
    let (again, hits) = renewal;
    let answer = host.renew(again, hits);
    (MhlinkMachine::of(host), answer)
}

/// Begins a new history, which starts with one record per worker plus one. Each site's calls mean
/// what they meant, and the handle, names, and the numbers of sites, points and links stay. The
/// same points are valid, and so are those in `again`: in each site's tree, one that was invalid is
/// replaced by its fallback, so that its number may be reused. Of the flushed hits all are kept if
/// `hits` is 0, half of each worker's at a link, rounded down, if it is 1, and none if it is 2;
/// unflushed hits stay. No site holds a link, and snapshots and plans are numbered from 1 again.
/// The text of the last call stays.
///
/// Fails as unknown if `hits` is another number, then if the limit of the history does not exceed
/// the number of workers, if a point in `again` does not exist, or if memory runs out.
#[unsafe(no_mangle)]
pub extern "C" fn mhlink_renew(machine: &mut MhlinkMachine, again: &[u32], hits: u32) -> u32
    requires full { machine.old.full ≡ true }
    ensures full { machine.new.full ≡ true }
    ensures renewed { result ≡ 0 → IsRenewed machine.old.value again.now hits machine.new.value }
    ensures refused { result ≢ 0 → (e : FaultOf) × ((result ≡ status_of e)
        × RefusesRenewal machine.old.value again.now hits e) }
    ensures kept { result ≢ 0 → machine.new.value ≡ machine.old.value }
{
    status(replace_with(machine, (again, hits), renew_held))
}
