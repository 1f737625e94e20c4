//! Consecutive tests of one argument, as one piece.

ghost use Rattle.std.specs.Prelude.{◌≡◌, ◌+◌, ◌≤◌, ◌++◌, ◌<◌, ◌∷◌, [], length, IfOk, OnOk};
ghost use Rattle.std.specs.Arc.{arc_value};
ghost use Rattle.mh_code.specs.PieceOf.{chain as chain_of, key_source, routine_of, routines};
ghost use Rattle.mh_code.specs.Routine.{pick};
ghost use Rattle.mh_code.specs.Rows.{most_rows, run_length};

use crate::code::{KeyTest, Piece};
use crate::index::{Index, Row};
use crate::purpose::owner;
use mh_base::NoMemory;
use std::alloc::Global;
use std::sync::Arc;

// The number of consecutive tests of one argument that become one piece, and the greatest number of
// tests of a following piece that become part of it.
const RUN: usize = 4;

const MOST_BEHIND: usize = 60;

// Tests of one argument, and their targets.
#[derive(Drop)]
struct Chain {
    index: Index,
    targets: Vec<Arc<Piece>>,
}

// Returns the piece that chooses one of two pieces by whether an int argument is a key. If this is
// the fourth test of the argument before a piece of another kind, they all become one piece,
// together with those of a switch that follows.
pub(crate) fn key_test(
    alloc: Global,
    test: KeyTest,
    steps: u32,
    target: Arc<Piece>,
    fallback: Arc<Piece>,
) -> Result<Piece, NoMemory>
    ensures value { IfOk result (λ p. routine_of p ≡ pick steps (key_source test)
        (routine_of (arc_value target)) (routine_of (arc_value fallback))) }
{
    if is_run(&fallback, test.place) {
        return run(alloc, test, steps, target, &fallback);
    }
    Ok(Piece::Case {
        test,
        target,
        fallback,
        steps,
    })
}

// Returns whether three consecutive tests are of one argument.
fn is_run(first: &Piece, place: u32) -> bool {
    let mut piece = first;
    for _ in 1..RUN {
        match piece {
            Piece::Case { test, fallback, .. } if test.place == place => piece = fallback,
            _ => return false,
        }
    }
    true
}

// Returns consecutive tests of an argument as one piece.
fn run(
    alloc: Global,
    test: KeyTest,
    steps: u32,
    target: Arc<Piece>,
    fallback: &Arc<Piece>,
) -> Result<Piece, NoMemory>
    ensures value { IfOk result (λ p. routine_of p ≡ pick steps (key_source test)
        (routine_of (arc_value target)) (routine_of (arc_value fallback.now))) }
{
    let first = Chain::new(alloc).with(test.key, steps, target)?;
    let (chain, behind) = gather(first, test.place, fallback)?;
    switch(alloc, test.place, chain, behind)
}

// Appends consecutive tests of an argument, at most three, to a chain, and returns the chain and
// the piece that follows.
fn gather<'a>(
    first: Chain,
    place: u32,
    piece: &'a Arc<Piece>,
) -> Result<(Chain, &'a Arc<Piece>), NoMemory>
    requires one { length first.index ≤ 1 }
    requires even { length first.index ≡ length first.targets.items }
    ensures value { IfOk result (λ r. chain_of place r.0.index (routines r.0.targets.items)
        (routine_of (arc_value r.1.now)) ≡ chain_of place first.index (routines first.targets.items)
        (routine_of (arc_value piece.now))) }
    ensures few { IfOk result (λ r. length r.0.index ≤ run_length) }
    ensures even { IfOk result (λ r. length r.0.index ≡ length r.0.targets.items) }
{
    let mut chain = first;
    let mut behind = piece;
    for _ in 1..RUN {
        match &**behind {
            Piece::Case {
                test,
                target,
                fallback,
                steps,
            } if test.place == place => {
                chain = chain.with(test.key, *steps, owner(target)?)?;
                behind = fallback;
            }
            _ => return Ok((chain, behind)),
        }
    }
    Ok((chain, behind))
}

// Returns the piece of a chain, with the tests of a switch that follows it.
fn switch(alloc: Global, place: u32, chain: Chain, behind: &Arc<Piece>) -> Result<Piece, NoMemory>
    requires few { length chain.index ≤ run_length }
    requires even { length chain.index ≡ length chain.targets.items }
    ensures value { IfOk result (λ p. routine_of p ≡ chain_of place chain.index
        (routines chain.targets.items) (routine_of (arc_value behind.now))) }
{
    match &**behind {
        Piece::Switch {
            place: other,
            index,
            targets,
            otherwise,
        } if *other == place && index.rows().len() <= MOST_BEHIND => {
            let chain = chain.with_all(index, targets)?;
            chain.finish(alloc, place, owner(otherwise)?)
        }
        _ => chain.finish(alloc, place, owner(behind)?),
    }
}

impl Chain {
    fn new(alloc: Global) -> Chain
        ensures index { result.index ≡ [] }
        ensures targets { result.targets.items ≡ [] }
    {
        Chain {
            index: Index::new(alloc),
            targets: Vec::new(alloc),
        }
    }

    // Returns the chain with one more test.
    fn with(self, key: i32, steps: u32, target: Arc<Piece>) -> Result<Chain, NoMemory>
        requires few { length self.index < most_rows }
        ensures index { IfOk result (λ c. c.index ≡ self.index
            ++ (record { key = key; steps = steps }) ∷ []) }
        ensures targets { IfOk result (λ c. c.targets.items ≡ self.targets.items ++ target ∷ []) }
    {
        let Chain { index, mut targets } = self;
        targets.push(target).map_err(|_| NoMemory)?;
        let index = index.with(Row { key, steps })?;
        Ok(Chain { index, targets })
    }

    // Returns the chain with the tests of an index.
    fn with_all(self, more: &Index, further: &[Arc<Piece>]) -> Result<Chain, NoMemory>
        requires few { length self.index + length more.now ≤ most_rows }
        ensures index { IfOk result (λ c. c.index ≡ self.index ++ more.now) }
        ensures targets { IfOk result (λ c. routines c.targets.items
            ≡ routines self.targets.items ++ routines further.now) }
    {
        let Chain { index, mut targets } = self;
        append(&mut targets, further)?;
        let index = index.with_all(more.rows())?;
        Ok(Chain { index, targets })
    }

    // Returns the piece of the tests and of the piece that follows them.
    fn finish(self, alloc: Global, place: u32, otherwise: Arc<Piece>) -> Result<Piece, NoMemory>
        ensures value { IfOk result (λ p. routine_of p ≡ chain_of place self.index
            (routines self.targets.items) (routine_of (arc_value otherwise))) }
    {
        let Chain { index, targets } = self;
        let index = Arc::new(alloc, index.guessing()).map_err(|_| NoMemory)?;
        Ok(Piece::Switch {
            place,
            index,
            targets,
            otherwise,
        })
    }
}

// Appends other owners of pieces to a list.
fn append(list: &mut Vec<Arc<Piece>>, pieces: &[Arc<Piece>]) -> Result<(), NoMemory>
    ensures value { OnOk result (routines list.new.items ≡ routines list.old.items
        ++ routines pieces.now) }
{
    for piece in pieces {
        list.push(owner(piece)?).map_err(|_| NoMemory)?;
    }
    Ok(())
}
