//! Handles with their code.

ghost use Rattle.std.specs.Prelude.{◌≡◌, ◌+◌, ◌≤◌, Ok, IfOk, IfErr, length};
ghost use Rattle.std.specs.Arc.{arc_value};
ghost use Rattle.mh_base.specs.Tests.{Refuses};
ghost use Rattle.mh_code.specs.PieceOf.{routine_of_code};
ghost use Rattle.mh_code.specs.Routine.{point as routine_point, truth};
ghost use Rattle.mh_code.specs.RoutineOf.{handle_routine, routine};
ghost use Rattle.mh_tree.specs.Constructors.{refusals, guard_made, point_made};
ghost use Rattle.mh_tree.specs.Handle.{IsSound};
ghost use Rattle.mh_tree.specs.Limits.{most_nodes, size};
ghost use Rattle.mh_tree.specs.Prepared.{handle_code, leading_arguments};

use crate::code::{Code, Piece};
use crate::made::{Made, own};
use crate::operands::arguments;
use crate::preparing::{Place, prepare};
use crate::purpose::{Purpose, use_code};
use mh_base::NoMemory;
use mh_tree::{Handle, Operand, TreeFault};
use std::alloc::Global;
use std::fmt;
use std::marker::Model;
use std::sync::Arc;

/// A handle and its prepared code, in which nodes that move arguments disappear and each piece says
/// what comes next. To copy it, use `share`, which copies no code.
///
/// A contract sees the handle's tree and type. The invariant says that the code does what the tree
/// does.
#[derive(Drop)]
pub struct Prepared {
    handle: Handle,
    code: Arc<Code>,
}

impl Model for Prepared {
    ghost use Rattle.mh_tree.specs.Handle.{TypedTree};

    ghost Value = { TypedTree };

    ghost use Rattle.mh_tree.specs.TreeCode.{coded_typed_tree};

    ghost coded = { coded_typed_tree };

    ghost use Rattle.mh_code.specs.Prepared.{kept_handle, IsPrepared};

    ghost view = { kept_handle };

    ghost invariant = { IsPrepared };
}

/// Writes its handle inside `Prepared(..)`.
impl fmt::Debug for Prepared {
    fn fmt<W: fmt::Write>(&self, f: &mut fmt::Formatter<W>) -> fmt::Result {
        write!(f, "Prepared({:?})", self.handle())
    }
}

impl Prepared {
    /// Returns the handle with its code. Linear in the size of the tree. Fails only with
    /// `NoMemory`.
    pub fn new(alloc: Global, handle: &Handle) -> Result<Prepared, NoMemory>
        ensures value { IfOk result (λ p. p ≡ handle.now) }
    {
        let code = call_code(alloc, handle)?;
        let handle = handle.share()?;
        Ok(Prepared { handle, code })
    }

    /// Returns the handle that runs the target if the test returns true, and otherwise the
    /// fallback: the result of `Handle::guard` for the three handles, with the same faults. It
    /// reuses the code of the target and the fallback, in time linear in the size of the test.
    pub fn guard(
        alloc: Global,
        test: &Prepared,
        target: &Prepared,
        fallback: &Prepared,
    ) -> Result<Prepared, TreeFault>
        ensures value { IfOk result (λ p. guard_made test.now target.now fallback.now ≡ Ok p) }
        ensures refused { IfErr result (λ e. Refuses (refusals
            (guard_made test.now target.now fallback.now)) e) }
    {
        let handle = Handle::guard(alloc, &test.handle, &target.handle, &fallback.handle)?;
        let target = target.code_owner()?;
        let fallback = fallback.code_owner()?;
        let code = guard_code(alloc, &test.handle, target, fallback)?;
        Ok(Prepared { handle, code })
    }

    /// Returns the handle that runs the target while a point is valid, and otherwise the fallback:
    /// the result of `Handle::point` for the two handles, with the same faults. It reuses the code
    /// of its parts, in constant time.
    pub fn point(
        alloc: Global,
        point: u32,
        target: &Prepared,
        fallback: &Prepared,
    ) -> Result<Prepared, TreeFault>
        ensures value { IfOk result (λ p. point_made point target.now fallback.now ≡ Ok p) }
        ensures refused { IfErr result (λ e. Refuses (refusals
            (point_made point target.now fallback.now)) e) }
    {
        let handle = Handle::point(alloc, point, &target.handle, &fallback.handle)?;
        let target = target.code_owner()?;
        let fallback = fallback.code_owner()?;
        let code = point_code(alloc, point, target, fallback)?;
        Ok(Prepared { handle, code })
    }

    /// Returns another owner of the handle and of its code. Fails only with `NoMemory`.
    pub fn share(&self) -> Result<Prepared, NoMemory>
        ensures value { IfOk result (λ p. p ≡ self.now) }
    {
        let code = self.code_owner()?;
        let handle = self.handle.share()?;
        Ok(Prepared { handle, code })
    }

    // Returns another owner of the code.
    fn code_owner(&self) -> Result<Arc<Code>, NoMemory>
        ensures value { IfOk result (λ a. routine_of_code (arc_value a) ≡ handle_routine self.now) }
    {
        Arc::try_clone(&self.code).map_err(|_| NoMemory)
    }

    /// Returns the handle.
    pub fn handle(&self) -> &Handle
        ensures value { result.now ≡ self.now }
    {
        &self.handle
    }

    /// Returns the code.
    pub fn code(&self) -> &Code
        ensures value { routine_of_code result.now ≡ handle_routine self.now }
        ensures sound { IsSound self.now.tree self.now.signature }
    {
        &self.code
    }
}

// Returns the operands of a handle's calls: its parameters are the arguments.
fn parameters(alloc: Global, handle: &Handle) -> Result<Vec<Operand>, NoMemory>
    ensures value { IfOk result (λ v. v.items
        ≡ leading_arguments (length handle.now.signature.parameters)) }
{
    let count = handle.method_type().count();
    arguments(alloc, count as u32)
}

// Returns the code of a handle's calls.
fn call_code(alloc: Global, handle: &Handle) -> Result<Arc<Code>, NoMemory>
    ensures value { IfOk result (λ c. routine_of_code (arc_value c) ≡ handle_routine handle.now) }
{
    let operands = parameters(alloc, handle)?;
    let place = Place {
        operands: &operands,
        depth: 0,
    };
    let mut made = Made::new(alloc);
    let entry = prepare(&mut made, handle.root(), &place, 0, &Purpose::Answer)?;
    made.finish(entry)
}

// Returns the code of a guard over other code.
fn guard_code(
    alloc: Global,
    test: &Handle,
    target: Arc<Code>,
    fallback: Arc<Code>,
) -> Result<Arc<Code>, NoMemory>
    requires small { 1 + size test.now.tree ≤ most_nodes }
    ensures value { IfOk result (λ c. routine_of_code (arc_value c)
        ≡ routine (handle_code test.now) 0 1 (truth (routine_of_code (arc_value target))
        (routine_of_code (arc_value fallback)))) }
{
    let target = use_code(alloc, target)?;
    let fallback = use_code(alloc, fallback)?;
    let truth = Purpose::Truth {
        target: &target,
        fallback: &fallback,
    };
    let operands = parameters(alloc, test)?;
    let place = Place {
        operands: &operands,
        depth: 0,
    };
    let mut made = Made::new(alloc);
    let entry = prepare(&mut made, test.root(), &place, 1, &truth)?;
    made.finish(entry)
}

// Returns the code of a point over other code.
fn point_code(
    alloc: Global,
    point: u32,
    target: Arc<Code>,
    fallback: Arc<Code>,
) -> Result<Arc<Code>, NoMemory>
    ensures value { IfOk result (λ c. routine_of_code (arc_value c)
        ≡ routine_point 1 point (routine_of_code (arc_value target))
        (routine_of_code (arc_value fallback))) }
{
    let target = use_code(alloc, target)?;
    let fallback = use_code(alloc, fallback)?;
    let piece = Piece::Point {
        point,
        target,
        fallback,
        steps: 1,
    };
    let entry = own(alloc, piece)?;
    Code::with_owners(alloc, entry, Vec::new(alloc))
}
