//! Prepared code.

ghost use Rattle.std.specs.Prelude.{◌≡◌, IfOk, IfSome};
ghost use Rattle.std.specs.Arc.{arc_value};
ghost use Rattle.mh_code.specs.Height.{code_height, height};
ghost use Rattle.mh_code.specs.PieceOf.{key_source, routine_of, routine_of_code};
ghost use Rattle.mh_code.specs.Routine.{operation};

use crate::index::Index;
use mh_base::NoMemory;
use mh_tree::Operand;
use mh_type::{Op, Value};
use std::alloc::Global;
use std::sync::Arc;

/// A piece of prepared code: an action, and the pieces that follow it, of which it is one of
/// several owners. Each piece counts the nodes of the tree that are evaluated with it, including
/// the nodes above it that only move arguments.
#[derive(Drop)]
#[cycle(code)]
pub enum Piece {
    /// Answers with the value of an operand.
    Leaf {
        operand: Operand,
        steps: u32,
    },
    /// Answers with the result of an operation on two operands; an operation with one parameter
    /// reads only the first.
    Apply {
        op: Op,
        first: Operand,
        second: Operand,
        steps: u32,
    },
    /// Answers with the result of a site on operands, at most 16 of them.
    Invoke {
        site: u32,
        operands: Vec<Operand>,
        steps: u32,
    },
    /// Answers with the result of a site on `count` leading arguments.
    Forward {
        site: u32,
        count: u32,
        steps: u32,
    },
    /// Stores the value of an operand as a local.
    Put {
        operand: Operand,
        local: u32,
        then: Arc<Piece>,
        steps: u32,
    },
    /// Stores the result of an operation as a local.
    Let {
        op: Op,
        first: Operand,
        second: Operand,
        local: u32,
        then: Arc<Piece>,
        steps: u32,
    },
    /// Stores the value that a site returns for operands, at most 16 of them, as a local.
    Call {
        site: u32,
        operands: Vec<Operand>,
        local: u32,
        then: Arc<Piece>,
        steps: u32,
    },
    /// Chooses one of two pieces by the truth of an operand.
    Truth {
        operand: Operand,
        target: Arc<Piece>,
        fallback: Arc<Piece>,
        steps: u32,
    },
    /// Chooses one of two pieces by the truth of an operation's result.
    Test {
        op: Op,
        first: Operand,
        second: Operand,
        target: Arc<Piece>,
        fallback: Arc<Piece>,
        steps: u32,
    },
    /// Chooses one of two pieces by whether an int argument equals a number: the operation `ieq` on
    /// both.
    Case {
        test: KeyTest,
        target: Arc<Piece>,
        fallback: Arc<Piece>,
        steps: u32,
    },
    /// Chooses one of several pieces by the first test of an index that an int argument passes. It
    /// is the chain of those tests, each the operation `ieq`, and of their targets, with the steps
    /// of each test. If the argument passes no test, `otherwise` follows.
    Switch {
        place: u32,
        index: Arc<Index>,
        targets: Vec<Arc<Piece>>,
        otherwise: Arc<Piece>,
    },
    /// Chooses the target while the point is valid, and otherwise the fallback.
    Point {
        point: u32,
        target: Arc<Piece>,
        fallback: Arc<Piece>,
        steps: u32,
    },
    /// Answers with the result of other code.
    Go {
        code: Arc<Code>,
        steps: u32,
    },
}

/// A test of whether an int argument equals a number, which is the test of most inline caches.
#[derive(Clone, Copy, Debug)]
pub struct KeyTest {
    /// The argument's index.
    pub place: u32,
    /// The number.
    pub key: i32,
}

impl KeyTest {
    // Returns the key test that an operation on two operands computes, if it computes one.
    pub(crate) fn of(op: Op, first: &Operand, second: &Operand) -> Option<KeyTest>
        ensures value { IfSome result (λ t. operation op first.now second.now ≡ key_source t) }
    {
        match (op, first, second) {
            (Op::Ieq, Operand::Argument(place), Operand::Constant(Value::Int(key))) => {
                Some(KeyTest {
                    place: *place,
                    key: *key,
                })
            }
            _ => None,
        }
    }
}

/// The pieces of a tree's code. If there are many, the code has further owners of all of them, with
/// the last piece to run last, so that no piece is dropped by another, and dropping the code takes
/// no deeper stack.
#[derive(Drop)]
#[cycle(code)]
pub struct Code {
    entry: Arc<Piece>,
    owners: Vec<Arc<Piece>>,
}

impl Code {
    // Returns the code that begins with a piece, with further owners of its pieces.
    pub(crate) fn with_owners(
        alloc: Global,
        entry: Arc<Piece>,
        owners: Vec<Arc<Piece>>,
    ) -> Result<Arc<Code>, NoMemory>
        ensures value { IfOk result (λ c. routine_of_code (arc_value c)
            ≡ routine_of (arc_value entry)) }
    {
        Arc::new(alloc, Code { entry, owners }).map_err(|_| NoMemory)
    }

    // Returns the first piece with its owner, if there are no further owners of the pieces.
    pub(crate) fn lone_entry(&self) -> Option<&Arc<Piece>>
        ensures value { IfSome result (λ a. routine_of (arc_value a.now)
            ≡ routine_of_code self.now) }
    {
        if self.owners.is_empty() {
            Some(&self.entry)
        } else {
            None
        }
    }

    /// Returns the first piece to run.
    #[inline(always)]
    pub fn entry(&self) -> &Piece
        ensures value { routine_of result.now ≡ routine_of_code self.now }
        ensures height { height result.now ≡ code_height self.now }
    {
        &self.entry
    }
}
