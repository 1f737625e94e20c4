//! Passes of a fresh opening.

use crate::definitions::open_plain;
use crate::scenario::{Step, play};
use std::test::Fail;

#[test]
fn a_fresh_pass_answers_by_its_definition(rt: HostRuntime) -> Result<(), Fail> {
    let table = [
        (Step::Count(0), "worker 0, unflushed 0 of 0, front 0"),
        (Step::Call(0, 2), "int -2, steps 1, front 0"),
        (Step::Count(0), "worker 0, unflushed 0 of 0, front 0"),
        (Step::Call(0, 1), "int -1, steps 1, front 0"),
        (Step::Count(0), "worker 0, unflushed 1 of 1, front 0"),
    ];
    let opening = open_plain(rt.alloc(), 1, 7, 2)?;
    assert_eq!(rt; play(&rt, rt.alloc(), opening, &table)?, table.len());
    Ok(())
}

#[test]
fn a_full_ledger_refuses_hits_alone(rt: HostRuntime) -> Result<(), Fail> {
    let table = [
        (Step::Call(0, 1), "int -1, steps 1, front 0"),
        (Step::Call(0, 1), "int -1, steps 1, front 0"),
        (Step::Call(0, 1), "refused 11 LedgerFull"),
        (Step::Call(0, 3), "int -3, steps 1, front 0"),
        (Step::Count(0), "worker 0, unflushed 2 of 2, front 0"),
    ];
    let opening = open_plain(rt.alloc(), 1, 7, 2)?;
    assert_eq!(rt; play(&rt, rt.alloc(), opening, &table)?, table.len());
    Ok(())
}

#[test]
fn calls_that_fit_no_site_are_refused(rt: HostRuntime) -> Result<(), Fail> {
    let table = [
        (Step::Count(1), "worker 1, unflushed 0 of 0, front 0"),
        (Step::CallBare(1, 1), "refused 3 NoSite"),
        (Step::CallBare(1, 0), "refused 5 WrongType"),
        (Step::Call(1, 2), "int -2, steps 1, front 0"),
    ];
    let opening = open_plain(rt.alloc(), 2, 7, 2)?;
    assert_eq!(rt; play(&rt, rt.alloc(), opening, &table)?, table.len());
    Ok(())
}
