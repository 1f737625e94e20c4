//! Renews a desk with its callers.

use crate::definitions::plain;
use mh_core::Limits;
use mh_share::{Caller, Desk, OldHits, Refusal, Renewal};
use mh_type::Value;
use std::alloc::Global;
use std::test::Fail;

/// Opens a desk with two callers.
fn open(alloc: Global) -> Result<(Desk, Vec<Caller>), Fail> {
    let limits = Limits::new(1_000, 1_000, 1_000).ok_or("limits out of range")?;
    Ok(Desk::open(alloc, &plain(alloc)?, 2, limits)?)
}

/// Makes this many calls, which hit the link, of a caller.
fn call_often(caller: &mut Caller, calls: u32) -> Result<(), Refusal> {
    for _ in 0..calls {
        let _answer = caller.call(0, &[Value::Int(1)])?;
    }
    Ok(())
}

/// Makes five calls of each caller and flushes them, and then two more.
fn work(desk: &mut Desk, callers: &mut [Caller]) -> Result<(), Refusal> {
    for caller in callers {
        call_often(caller, 5)?;
        desk.flush(caller)?;
        call_often(caller, 2)?;
    }
    Ok(())
}

/// Flushes each caller.
fn flush_all(desk: &mut Desk, callers: &mut [Caller]) -> Result<(), Refusal> {
    for caller in callers {
        desk.flush(caller)?;
    }
    Ok(())
}

/// Returns the total of the only link.
fn total(desk: &Desk) -> Option<u64> {
    let totals = desk.book().totals();
    if totals.links() == 1 {
        Some(totals.total(0))
    } else {
        None
    }
}

/// Returns the total after a renewal, and after a flush of the calls that were not flushed before.
fn totals(
    desk: &mut Desk,
    callers: &mut Vec<Caller>,
    hits: OldHits,
) -> Result<[Option<u64>; 2], Refusal> {
    work(desk, callers.as_mut_slice())?;
    desk.renew(callers, Renewal { again: &[], hits })?;
    let renewed = total(desk);
    flush_all(desk, callers.as_mut_slice())?;
    Ok([renewed, total(desk)])
}

/// Opens a desk, and returns its totals.
fn counted(alloc: Global, hits: OldHits) -> Result<[Option<u64>; 2], Fail> {
    let (mut desk, mut callers) = open(alloc)?;
    Ok(totals(&mut desk, &mut callers, hits)?)
}

#[test]
fn a_renewal_keeps_halves_or_drops_flushed_hits(rt: HostRuntime) -> Result<(), Fail> {
    let alloc = rt.alloc();
    assert_eq!(rt; counted(alloc, OldHits::Keep)?, [Some(10), Some(14)]);
    assert_eq!(rt; counted(alloc, OldHits::Halve)?, [Some(4), Some(8)]);
    assert_eq!(rt; counted(alloc, OldHits::Drop)?, [Some(0), Some(4)]);
    Ok(())
}
