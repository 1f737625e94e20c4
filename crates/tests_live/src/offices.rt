//! Changes of the world: what passes see of them, and which of them the history counts.

use crate::definitions::open_plain;
use crate::scenario::{Step, Tree, play};
use std::test::Fail;

/// A pass that learns a receipt of both, and then that of the first, has still seen both.
#[test]
fn equal_retargetings_have_two_fronts(rt: HostRuntime) -> Result<(), Fail> {
    let table = [
        (Step::Call(0, 2), "int -2, steps 1, front 0"),
        (Step::Target(0, Tree::Successor), "ok, front 1"),
        (Step::Target(0, Tree::Successor), "ok, front 2"),
        (Step::Learn(0, 1), "front 2"),
        (Step::Learn(0, 0), "front 2"),
        (Step::Call(0, 2), "int 3, steps 2, front 2"),
    ];
    let opening = open_plain(rt.alloc(), 1, 7, 2)?;
    assert_eq!(rt; play(&rt, rt.alloc(), opening, &table)?, table.len());
    Ok(())
}

/// The test of a key takes 3 steps, and the negation after it 1.
#[test]
fn an_installed_plan_is_run(rt: HostRuntime) -> Result<(), Fail> {
    let table = [
        (Step::Call(0, 1), "int -1, steps 1, front 0"),
        (Step::Call(0, 1), "int -1, steps 1, front 0"),
        (Step::Flush(0), "ok, front 0"),
        (Step::Snapshot, "snapshot 1, front 0"),
        (
            Step::Publish(1, 6),
            "plan 1 links 0 points - value 6 flow 0, front 0",
        ),
        (Step::Install(1), "installed linked 1 skipped 0, front 1"),
        (Step::LearnAll, "front 1"),
        (Step::Call(0, 1), "int -1, steps 4, front 1"),
        (Step::Call(0, 2), "int -2, steps 4, front 1"),
    ];
    let opening = open_plain(rt.alloc(), 1, 7, 2)?;
    assert_eq!(rt; play(&rt, rt.alloc(), opening, &table)?, table.len());
    Ok(())
}

#[test]
fn an_office_tells_what_it_refuses(rt: HostRuntime) -> Result<(), Fail> {
    let table = [
        (Step::Target(1, Tree::Negation), "refused 3 NoSite"),
        (Step::Target(0, Tree::Sum), "refused 5 WrongType"),
        (Step::Invalidate(0), "refused 4 NoPoint"),
        (Step::Problem(1), "refused 6 NoSnapshot"),
        (Step::Install(1), "refused 7 NoPlan"),
        (Step::Snapshot, "snapshot 1, front 0"),
        (Step::Problem(1), "links 1"),
        (Step::Publish(1, 6), "refused 8 PlanRefused 7"),
    ];
    let opening = open_plain(rt.alloc(), 1, 7, 2)?;
    assert_eq!(rt; play(&rt, rt.alloc(), opening, &table)?, table.len());
    Ok(())
}

#[test]
fn receipts_have_the_list_of_their_time(rt: HostRuntime) -> Result<(), Fail> {
    let table = [
        (Step::Target(0, Tree::Successor), "ok, front 1"),
        (Step::Flush(0), "ok, front 1"),
        (Step::Count(0), "worker 0, unflushed 0 of 0, front 1"),
        (Step::Snapshot, "snapshot 1, front 1"),
        (
            Step::Publish(1, 0),
            "plan 1 links 0 points - value 0 flow 0, front 1",
        ),
        (Step::Call(0, 2), "int 3, steps 2, front 1"),
        (Step::Install(1), "refused 2 HistoryFull"),
    ];
    let opening = open_plain(rt.alloc(), 1, 4, 2)?;
    assert_eq!(rt; play(&rt, rt.alloc(), opening, &table)?, table.len());
    Ok(())
}

#[test]
fn an_office_is_lent_to_one_thread(rt: HostRuntime) -> Result<(), Fail> {
    let table = [
        (
            Step::TargetByOffice(Tree::Successor),
            "closed false, front 1",
        ),
        (Step::Flush(0), "ok, front 1"),
        (Step::Call(0, 2), "int 3, steps 2, front 1"),
    ];
    let opening = open_plain(rt.alloc(), 1, 7, 2)?;
    assert_eq!(rt; play(&rt, rt.alloc(), opening, &table)?, table.len());
    Ok(())
}
