//! The first example of the README through two passes: seven events, which is as many as the
//! history may have.

use crate::definitions::open_pointed;
use crate::scenario::{Step, Tree, play};
use std::test::Fail;

#[test]
fn seven_events_fill_the_history(rt: HostRuntime) -> Result<(), Fail> {
    let table = [
        (Step::Call(0, 1), "int 100, steps 6, front 0"),
        (Step::Call(0, 1), "int 100, steps 6, front 0"),
        (Step::Flush(0), "ok, front 0"),
        (Step::LearnAll, "front 0"),
        (Step::Call(1, 2), "int 3, steps 6, front 0"),
        (Step::Snapshot, "snapshot 1, front 0"),
        (Step::LearnAll, "front 0"),
        (
            Step::Plan(1),
            "plan 1 links 0 points 0 value 1 flow 5, front 0",
        ),
        (Step::LearnAll, "front 0"),
        (Step::Install(1), "installed linked 1 skipped 0, front 1"),
        (Step::LearnAll, "front 1"),
        (Step::Call(0, 1), "int 100, steps 6, front 1"),
        (Step::Call(1, 2), "int 3, steps 9, front 1"),
        (Step::Invalidate(0), "ok, front 2"),
        (Step::LearnAll, "front 2"),
        (Step::Call(0, 1), "int -1, steps 6, front 2"),
        (Step::Target(0, Tree::Negation), "ok, front 3"),
        (Step::LearnAll, "front 3"),
        (Step::Call(1, 1), "int -1, steps 1, front 3"),
        (Step::Install(1), "installed linked 0 skipped 1, front 4"),
        (Step::LearnAll, "front 4"),
        (Step::Call(0, 1), "int -1, steps 1, front 4"),
        (Step::Call(1, 1), "int -1, steps 1, front 4"),
        (Step::Snapshot, "refused 2 HistoryFull"),
    ];
    let opening = open_pointed(rt.alloc(), 7)?;
    assert_eq!(rt; play(&rt, rt.alloc(), opening, &table)?, table.len());
    Ok(())
}
