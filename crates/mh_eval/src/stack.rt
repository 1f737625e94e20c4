//! The memory of evaluations.

ghost use Rattle.std.specs.Prelude.{◌≡◌, IfOk, []};

use mh_base::NoMemory;
use mh_type::Value;
use std::alloc::Global;
use std::fmt;
use std::marker::Model;

/// The number of values for which a stack has room.
pub const ROOM: usize = 16384;

/// The intermediate results of an evaluation. One stack serves any number of calls, one at a time;
/// between calls it is empty, also after `NoMemory`.
#[derive(Drop)]
pub struct Stack {
    pub(crate) alloc: Global,
    pub(crate) values: Vec<Value>,
}

impl Model for Stack {
    ghost use Rattle.std.specs.Prelude.{◌≡◌, ◌≤◌, List, [], vec_capacity};
    ghost use Rattle.mh_eval.specs.inner.Limits.{least_room};
    ghost use Rattle.mh_type.specs.declared.value.Value.{Value as Held};

    ghost Value = { List Held };

    ghost view = { λ s. s.values.items };

    ghost invariant = { λ s. (s.values.items ≡ []) × (least_room ≤ vec_capacity s.values) };
}

/// Shows only the name of the type, since the stack is empty between calls.
impl fmt::Debug for Stack {
    fn fmt<W: fmt::Write>(&self, f: &mut fmt::Formatter<W>) -> fmt::Result {
        f.write_str("Stack")
    }
}

impl Stack {
    /// Returns a stack over this allocator, with room for `ROOM` values. Fails only with
    /// `NoMemory`.
    pub fn new(alloc: Global) -> Result<Stack, NoMemory>
        ensures empty { IfOk result (λ s. s ≡ []) }
    {
        let values = Vec::with_capacity(alloc, ROOM).map_err(|_| NoMemory)?;
        Ok(Stack { alloc, values })
    }

    // Returns the allocator.
    pub(crate) fn alloc(&self) -> Global {
        self.alloc
    }
}
