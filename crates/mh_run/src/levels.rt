//! The memory of runs, level by level: a tree that is invoked runs in a level of its own.

ghost use Rattle.std.specs.Prelude.{◌≡◌, ◌+◌, ◌-◌, ◌≤◌, ℕ, []};
ghost use Rattle.mh_code.specs.PieceOf.{routine_of};
ghost use Rattle.mh_run.specs.inner.Levels.{IsReady};
ghost use Rattle.mh_run.specs.inner.Runs.{Ends, MayGo};
ghost use Rattle.mh_tree.specs.Sites.{setting};

use crate::here::Here;
use crate::running::run_on;
use mh_code::Piece;
use mh_eval::Answer;
use mh_type::Value;
use std::alloc::Global;

/// The memory of one level, and that of the levels below it.
#[derive(Drop)]
pub(crate) struct Level<L: Lower> {
    /// The locals of the run that is under way.
    pub(crate) locals: Vec<Value>,
    /// The arguments of the site that it invokes.
    pub(crate) passed: Vec<Value>,
    /// The level in which that site's tree runs.
    pub(crate) below: L,
}

/// The level below the lowest: a tree that runs there invokes nothing.
#[derive(Drop)]
pub(crate) struct Bottom;

/// The level in which the tree of an invoked site runs.
pub(crate) trait Lower: Drop {
    // The greatest depth of the invocations that run here, counted in trees.
    ghost deep: { ℕ };

    ghost is_ready: { Self → Type 0 };

    /// Runs a piece on arguments, after `before` steps, and returns the answer and all steps.
    fn run(
        &mut self,
        alloc: Global,
        here: &Here<'_>,
        piece: &Piece,
        arguments: &[Value],
        before: u64,
    ) -> (Answer, u128)
        requires ready { is_ready self.old }
        requires may { MayGo (setting (deep - 1) here.now.valid.now here.now.targets.now)
            arguments.now [] (routine_of piece.now) before }
        ensures ends { 1 ≤ deep → Ends (setting (deep - 1) here.now.valid.now here.now.targets.now)
            arguments.now [] (routine_of piece.now) before result.0 result.1 }
        ensures ready { is_ready self.new };
}

impl Lower for Bottom {
    ghost deep = { 0 };

    ghost use Rattle.mh_run.specs.inner.Levels.{Bottomless};

    ghost is_ready = { Bottomless };

    fn run(
        &mut self,
        _alloc: Global,
        _here: &Here<'_>,
        _piece: &Piece,
        _arguments: &[Value],
        _before: u64,
    ) -> (Answer, u128) {
        (Answer::NoMemory, 0)
    }
}

impl<L: Lower> Lower for Level<L> {
    ghost deep = { L.deep + 1 };

    ghost is_ready = { IsReady (L.is_ready) };

    fn run(
        &mut self,
        alloc: Global,
        here: &Here<'_>,
        piece: &Piece,
        arguments: &[Value],
        before: u64,
    ) -> (Answer, u128) {
        run_on(self, alloc, here, piece, arguments, before)
    }
}
