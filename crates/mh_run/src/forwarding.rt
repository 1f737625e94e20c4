//! The way to the piece that answers, as long as nothing is stored on the way.

ghost use Rattle.std.specs.Prelude.{◌≡◌, ◌-◌, ◌≤◌, []};
ghost use Rattle.mh_code.specs.PieceOf.{routine_of};
ghost use Rattle.mh_code.specs.inner.Runs.{weight};
ghost use Rattle.mh_run.specs.inner.Runs.{Goes, GoesOn, MayGo, MayRun};
ghost use Rattle.mh_tree.specs.Limits.{most_nodes};
ghost use Rattle.mh_tree.specs.Sites.{setting};

use crate::advancing::choose;
use crate::here::Here;
use mh_code::Piece;
use mh_type::Value;

/// A piece that remains to run, the number of trees between it and the one that was called, its
/// arguments, and the steps so far.
#[derive(Clone, Copy)]
pub(crate) struct Reached<'a> {
    pub(crate) depth: u8,
    pub(crate) piece: &'a Piece,
    pub(crate) arguments: &'a [Value],
    pub(crate) total: u64,
}

// Returns the piece after choices by numbers and truths.
#[inline(always)]
fn lead<'a>(here: &Here<'_>, reached: Reached<'a>) -> Reached<'a>
    requires may { MayGo (setting (4 - reached.depth) here.now.valid.now here.now.targets.now)
        reached.arguments.now [] (routine_of reached.piece.now) reached.total }
    ensures on { Goes (setting (4 - reached.entry.depth) here.now.valid.now here.now.targets.now)
        reached.entry.arguments.now [] (routine_of reached.entry.piece.now) reached.entry.total
        [] (routine_of result.piece.now) result.total }
    ensures depth { result.depth ≡ reached.entry.depth }
    ensures arguments { result.arguments ≡ reached.entry.arguments }
{
    let mut left = reached;
    while let Some((piece, total)) = choose(here, left) {
        left.piece = piece;
        left.total = total;
    }
    left
}

// Returns the piece after such choices and after sites that are invoked on leading arguments, of
// which each runs one tree after another.
#[inline(always)]
pub(crate) fn reach<'a>(here: &Here<'a>, piece: &'a Piece, arguments: &'a [Value]) -> Reached<'a>
    requires may { MayRun (setting 4 here.now.valid.now here.now.targets.now) arguments.now []
        (routine_of piece.now) 0 }
    requires own { weight 0 (routine_of piece.now) ≤ most_nodes }
    ensures deep { result.depth ≤ 4 }
    ensures on { GoesOn (setting 4 here.now.valid.now here.now.targets.now) arguments.now
        (routine_of piece.now) 0 (setting (4 - result.depth) here.now.valid.now
        here.now.targets.now) result.arguments.now (routine_of result.piece.now) result.total }
{
    let mut left = Reached {
        depth: 0,
        piece,
        arguments,
        total: 0,
    };
    loop {
        let reached = lead(here, left);
        let Piece::Forward { site, count, steps } = reached.piece else {
            return reached;
        };
        left = Reached {
            depth: reached.depth + 1,
            piece: here.targets[*site as usize].code().entry(),
            arguments: &reached.arguments[..*count as usize],
            total: reached.total + u64::from(*steps),
        };
    }
}
