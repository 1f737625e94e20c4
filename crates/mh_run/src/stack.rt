//! The memory of runs.

ghost use Rattle.std.specs.Prelude.{◌≡◌, IfOk, []};
ghost use Rattle.mh_run.specs.inner.Levels.{IsReady};

use crate::levels::{Bottom, Level, Lower};
use mh_base::NoMemory;
use mh_type::Value;
use std::alloc::Global;
use std::fmt;
use std::marker::Model;

// The number of locals reserved for each tree.
const LOCALS_ROOM: usize = 6144;

// The number of arguments reserved for the site that a tree invokes.
const PASSED_ROOM: usize = 16;

/// The levels of a tree and of the trees that may be invoked below it, four below one another.
pub(crate) type Levels = Level<Level<Level<Level<Level<Bottom>>>>>;

/// The memory in which code runs. One stack serves any number of calls, one at a time; between
/// calls it is empty, also after `NoMemory`.
#[derive(Drop)]
pub struct Stack {
    pub(crate) alloc: Global,
    pub(crate) levels: Levels,
}

impl Model for Stack {
    ghost use Rattle.std.specs.Prelude.{List};
    ghost use Rattle.mh_type.specs.declared.value.Value.{Value as Held};
    ghost use Rattle.mh_run.specs.inner.Levels.{AreReady};

    ghost Value = { List Held };

    ghost view = { λ s. s.levels.locals.items };

    ghost invariant = { λ s. AreReady s.levels };
}

/// Shows only the name of the type, since the stack is empty between calls.
impl fmt::Debug for Stack {
    fn fmt<W: fmt::Write>(&self, f: &mut fmt::Formatter<W>) -> fmt::Result {
        f.write_str("Stack")
    }
}

impl Stack {
    /// Returns a stack over this allocator. Fails only if an allocation is refused.
    pub fn new(alloc: Global) -> Result<Stack, NoMemory>
        ensures empty { IfOk result (λ s. s ≡ []) }
    {
        let third = level(alloc, level(alloc, level(alloc, Bottom)?)?)?;
        let levels = level(alloc, level(alloc, third)?)?;
        Ok(Stack { alloc, levels })
    }
}

// Returns a level above the levels below it.
fn level<L: Lower>(alloc: Global, below: L) -> Result<Level<L>, NoMemory>
    requires below { L.is_ready below }
    ensures ready { IfOk result (λ s. IsReady (L.is_ready) s) }
{
    Ok(Level {
        locals: Vec::with_capacity(alloc, LOCALS_ROOM).map_err(|_| NoMemory)?,
        passed: Vec::with_capacity(alloc, PASSED_ROOM).map_err(|_| NoMemory)?,
        below,
    })
}
