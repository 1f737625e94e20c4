//! The lines that are written when all workers are done.
ghost use Rattle.std.specs.Prelude.{◌≡◌, ◌<◌, ◌≤◌, ◌++◌, ℕ, string_bytes, length, IfOk, OnOk};
ghost use Rattle.std.specs.List.{All};
ghost use Rattle.mh_ledger.specs.Ledgers.{at};
ghost use Rattle.mh_site.specs.Links.{links};
ghost use Rattle.mh_live.specs.Limits.{most_hits_of_all};
ghost use Rattle.mh_live.specs.Settled.{IsSettled};
ghost use Rattle.mh_stress.specs.Stress.{Settlement, most_unflushed, report_where, settlement_text};

use crate::sums::{line, sums_of};
use mh_live::{ListName, Settled};
use mh_text::push_tables;
use std::alloc::{AllocError, Global};

/// Returns for each link the hits that no worker flushed.
fn unflushed_hits<N: ListName>(alloc: Global, settled: &Settled<N>) -> Result<Vec<u128>, AllocError>
    ensures value { IfOk result (λ v. v.items ≡ settled.now.unflushed) }
    ensures few { IfOk result (λ v. All (λ n. n ≤ most_hits_of_all) v.items) }
    ensures settled { IsSettled N.definition N.limits N.workers settled.now }
{
    let mut unflushed = Vec::new(alloc);
    for link in 0..settled.links() {
        unflushed.push(settled.unflushed(link))?;
    }
    Ok(unflushed)
}

/// Appends a line for each point, site and link, if these are asked for.
fn push_report<N: ListName>(
    lines: &mut String,
    alloc: Global,
    report: bool,
    settled: &Settled<N>,
) -> Result<(), AllocError>
    ensures value { OnOk result (string_bytes lines.new ≡ string_bytes lines.old ++ report_where
        report N.definition settled.now.book.records settled.now.unflushed) }
{
    if !report {
        return Ok(());
    }
    let unflushed = unflushed_hits(alloc, settled)?;
    push_tables(lines, alloc, settled.book(), &unflushed)
}

/// Returns the line of the sums, and a line for each point, site and link if these are asked for.
pub(crate) fn settled_lines<N: ListName>(
    alloc: Global,
    report: bool,
    settled: &Settled<N>,
) -> Result<String, AllocError>
    requires small { (j : ℕ) → j < length (links N.definition)
        → at settled.now.unflushed j ≤ most_unflushed }
    ensures settled { IsSettled N.definition N.limits N.workers settled.now }
    ensures value { IfOk result (λ s. string_bytes s ≡ settlement_text report N.definition
        (record { records = settled.now.book.records; unflushed = settled.now.unflushed })) }
{
    let mut lines = line(alloc, sums_of(settled))?;
    push_report(&mut lines, alloc, report, settled)?;
    Ok(lines)
}
