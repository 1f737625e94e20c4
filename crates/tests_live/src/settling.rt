//! Settles an office, and opens another that continues from it.

ghost use Rattle.std.specs.Prelude.{◌≡◌};

use crate::calling::{call, flush, given, sums};
use crate::definitions::open_plain;
use mh_base::Listing;
use mh_live::{ListName, Live, Opening, Pass, Settled};
use std::alloc::Global;
use std::marker::Brand;
use std::sync::Wait;
use std::test::Fail;

/// Makes a call that hits the link, and returns whether the answer was -1 in one step.
fn hit<N: ListName>(pass: &mut Pass<N>) -> bool {
    call(pass, 1) == Ok(given(-1, 1, 0))
}

/// Makes two calls that hit the link, flushes, and makes one more, and returns whether all
/// succeeded.
fn work<N: ListName, R: Wait>(rt: &R, live: &Live<N>, pass: &mut Pass<N>) -> bool {
    hit(pass) && hit(pass) && flush(rt, live, pass) && hit(pass)
}

/// Has each pass work.
fn work_each<N: ListName, R: Wait>(rt: &R, live: &Live<N>, passes: &mut Vec<Pass<N>>) -> bool {
    let mut right = true;
    for pass in passes.iter_mut() {
        right = work(rt, live, pass) && right;
    }
    right
}

/// Returns the state after a settlement.
fn settle<N: ListName, R: Wait>(
    rt: &R,
    alloc: Global,
    live: Live<N>,
    passes: Vec<Pass<N>>,
) -> Result<Settled<N>, Fail> {
    match live.settle(rt, alloc, passes) {
        Ok(settled) => Ok(settled),
        Err(_) => Err(Fail::from("it is not settled")),
    }
}

/// The hits of the link 0 (made, flushed and unflushed), the number of changes, and the number of
/// records.
type Counts = (Option<(u128, u64, u128)>, u64, usize);

fn counts<N: ListName>(settled: &Settled<N>) -> Counts {
    let (front, records) = (settled.front().len(), settled.book().records().len());
    (sums(settled), front, records)
}

/// Returns whether each pass works, and the counts afterwards.
fn settles_all_hits<N: ListName, R: Wait>(
    rt: &R,
    alloc: Global,
    opening: Opening,
) -> Result<(bool, Counts), Fail>
    requires name { opening.name ≡ N.book }
    requires definition { opening.definition ≡ N.definition }
    requires limits { opening.limits ≡ N.limits }
    requires workers { opening.workers ≡ N.workers }
{
    let (live, mut passes) = opening.open::<N>()?;
    let right = work_each(rt, &live, &mut passes);
    let settled = settle(rt, alloc, live, passes)?;
    Ok((right, counts(&settled)))
}

/// Returns the parts of the next office, after each pass has worked and all is settled.
fn works_and_renews<N: ListName, R: Wait>(
    rt: &R,
    alloc: Global,
    opening: Opening,
) -> Result<(Opening, Listing<u32>), Fail>
    requires name { opening.name ≡ N.book }
    requires definition { opening.definition ≡ N.definition }
    requires limits { opening.limits ≡ N.limits }
    requires workers { opening.workers ≡ N.workers }
{
    let (live, mut passes) = opening.open::<N>()?;
    let _right = work_each(rt, &live, &mut passes);
    let settled = settle(rt, alloc, live, passes)?;
    Ok(settled.renew(alloc, 2, &[])?)
}

#[test]
fn another_office_goes_on_and_counts_anew(rt: HostRuntime) -> Result<(), Fail> {
    let opening = open_plain(rt.alloc(), 3, 9, 9)?;
    let (next, invalid) = works_and_renews::<Brand, _>(&rt, rt.alloc(), opening)?;
    let told = settles_all_hits::<Brand, _>(&rt, rt.alloc(), next)?;
    assert_eq!(rt; invalid.len(), 0);
    assert_eq!(rt; told, (true, (Some((6, 4, 2)), 0, 2)));
    Ok(())
}
