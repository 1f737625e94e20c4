//! Machines that continue an earlier one.

ghost use Rattle.std.specs.Prelude.{◌≡◌, ◌≢◌, ◌⊎◌, true, IfErr, IfOk};
ghost use Rattle.mh_base.specs.Tests.{Refuses};
ghost use Rattle.mh_core.specs.Resumptions.{IsResumed, resumption_tests};
ghost use Rattle.mh_core.specs.declared.resuming.ResumptionFault.{ResumptionFault as ResumptionFaultOf};
ghost use Rattle.mhlink_c.specs.Resumptions.{RefusesResuming, Resumes, of_resumption};
ghost use Rattle.mhlink_c.specs.Statuses.{no_memory, part_of, status_of};
ghost use Rattle.mhlink_c.specs.declared.failure.Failure.{Failure as FaultOf};

use crate::books::listed;
use crate::failure::Failure;
use crate::handle::MhlinkMachine;
use crate::host::{Host, limits_for, room_for_arguments};
use crate::texts::{MhlinkLimits, read_definition};
use mh_core::{Definition, Limits, Refusal, ResumptionFault, Runtime};
use mh_json::readers::Declarations;
use std::alloc::Global;

/// The state of an earlier machine, as C passes it.
#[derive(Clone, Copy, Debug)]
pub(crate) struct Earlier<'a> {
    /// The invalid points.
    pub(crate) invalid: &'a [u32],
    /// The total of each link.
    pub(crate) totals: &'a [u64],
}

impl From<ResumptionFault> for Failure {
    ghost use Rattle.std.specs.Prelude.{◌≡◌};
    ghost use Rattle.mhlink_c.specs.Resumptions.{of_resumption};

    ghost from_gives = { λ told e. e ≡ of_resumption told };

    fn from(fault: ResumptionFault) -> Failure {
        match fault {
            ResumptionFault::NoWorker => Failure::BadLimits,
            ResumptionFault::NoPoint => Failure::Refused(Refusal::NoPoint),
            ResumptionFault::WrongCount => Failure::Unknown,
            ResumptionFault::HistoryFull => Failure::Refused(Refusal::HistoryFull),
            ResumptionFault::TotalTooLarge => Failure::Refused(Refusal::TotalTooLarge),
            ResumptionFault::NoMemory => Failure::Refused(Refusal::NoMemory),
        }
    }
}

impl Host {
    /// Opens the host of a definition in JSON that continues an earlier one.
    pub(crate) fn resume(
        alloc: Global,
        definition: &[u8],
        workers: u32,
        limits: &MhlinkLimits,
        earlier: Earlier<'_>,
    ) -> Result<Host, Failure>
        ensures resumed { IfOk result (Resumes definition.now workers limits.now
            earlier.entry.invalid.now earlier.entry.totals.now) }
        ensures refused { IfErr result (RefusesResuming definition.now workers limits.now
            earlier.entry.invalid.now earlier.entry.totals.now) }
    {
        let limits = limits_for(workers as usize, limits)?;
        let arguments = room_for_arguments(alloc)?;
        let Declarations { definition, scope } = read_definition(alloc, definition)?;
        let runtime = resumed(alloc, &definition, workers, limits, earlier)?;
        Ok(Host::over(runtime, scope, arguments))
    }
}

// Opens the runtime of a definition that continues an earlier one.
fn resumed(
    alloc: Global,
    definition: &Definition,
    workers: u32,
    limits: Limits,
    earlier: Earlier<'_>,
) -> Result<Runtime, Failure>
    ensures resumed { IfOk result (IsResumed definition.now workers limits
        earlier.entry.invalid.now earlier.entry.totals.now) }
    ensures refused { IfErr result (λ e. (e ≡ no_memory) ⊎ ((told : ResumptionFaultOf)
        × ((e ≡ of_resumption told) × Refuses (resumption_tests definition.now workers limits
        earlier.entry.invalid.now earlier.entry.totals.now) told))) }
{
    let invalid = listed(alloc, earlier.invalid)?;
    let runtime = Runtime::resume(alloc, definition, workers, limits, invalid, earlier.totals)?;
    Ok(runtime)
}

/// Opens a machine as `mhlink_open` does, which continues an earlier one: it has its invalid
/// points, and the total of each link, by number. They are the first two records, an invalidation,
/// and a flush of the totals by the first worker, so that snapshots count them. No hit is
/// unflushed, and no site holds a link.
///
/// Fails as `mhlink_open` does, then if a point does not exist, as unknown if the number of totals
/// is not that of links, if the limit of the history is below 2, if a total exceeds its limit, or
/// if memory runs out. Then `machine` is left unmodified, and `part` gets the number of the fault's
/// cause, or 0.
#[unsafe(no_mangle)]
pub extern "C" fn mhlink_resume(
    alloc: Global,
    definition: &[u8],
    workers: u32,
    limits: &MhlinkLimits,
    invalid: &[u32],
    totals: &[u64],
    machine: &mut MhlinkMachine,
    part: &mut u64,
) -> u32
    ensures full { result ≡ 0 → machine.new.full ≡ true }
    ensures resumed { result ≡ 0 → Resumes definition.now workers limits.now invalid.now
        totals.now machine.new.value }
    ensures no_part { result ≡ 0 → part.new ≡ 0 }
    ensures refused { result ≢ 0 → (e : FaultOf) × ((result ≡ status_of e)
        × ((part.new ≡ part_of e) × RefusesResuming definition.now workers limits.now invalid.now
        totals.now e)) }
    ensures kept { result ≢ 0 → machine.new ≡ machine.old }
{
    match resume(
        alloc,
        definition,
        workers,
        limits,
        Earlier { invalid, totals },
    ) {
        Ok(opened) => {
            *machine = opened;
            *part = 0;
            0
        }
        Err(fault) => {
            *part = fault.part();
            fault.number()
        }
    }
}

fn resume(
    alloc: Global,
    definition: &[u8],
    workers: u32,
    limits: &MhlinkLimits,
    earlier: Earlier<'_>,
) -> Result<MhlinkMachine, Failure>
    ensures full { IfOk result (λ machine. machine.full ≡ true) }
    ensures resumed { IfOk result (λ machine. Resumes definition.now workers limits.now
        earlier.entry.invalid.now earlier.entry.totals.now machine.value) }
    ensures refused { IfErr result (RefusesResuming definition.now workers limits.now
        earlier.entry.invalid.now earlier.entry.totals.now) }
{
    let host = Host::resume(alloc, definition, workers, limits, earlier)?;
    let boxed = Box::new(alloc, host)?;
    Ok(MhlinkMachine::of(boxed))
}
