//! Texts in JSON from C, for the readers of mh_json.

ghost use Rattle.std.specs.Prelude.{◌≡◌, IfErr, IfOk};
ghost use Rattle.mh_core.specs.Limits.{IsLimits};
ghost use Rattle.mhlink_c.specs.Inputs.{Reads, declarations_in, tree_in};
ghost use Rattle.mhlink_c.specs.Opening.{limits_of};
ghost use Rattle.mhlink_c.specs.declared.failure.Failure.TheVariants.{BadLimits};

use crate::failure::Failure;
use mh_core::{Declared, Limits};
use mh_json::readers;
use mh_json::readers::{Declarations, Scope, read_declared, read_json};
use std::alloc::Global;

/// The limits of a machine: the most records, the most unflushed hits of a link by a worker's
/// calls, and the most flushed hits of a link.
#[repr(C)]
#[derive(Clone, Copy, Debug)]
pub struct MhlinkLimits {
    /// From 0 to 2^20.
    pub history: u64,
    /// From 1 to 2^20.
    pub ledger: u64,
    /// From 0 to 2^40.
    pub total: u64,
}

impl MhlinkLimits {
    /// Returns the limits, if each is in its range.
    pub(crate) fn limits(&self) -> Result<Limits, Failure>
        ensures value { IfOk result (λ l. (l ≡ limits_of self.now) × IsLimits l) }
        ensures bad { IfErr result (λ e. (e ≡ BadLimits) × (IsLimits (limits_of self.now) → ⊥)) }
    {
        match Limits::new(self.history, self.ledger, self.total) {
            Some(limits) => Ok(limits),
            None => Err(Failure::BadLimits),
        }
    }
}

/// Reads a definition in JSON.
pub(crate) fn read_definition(alloc: Global, definition: &[u8]) -> Result<Declarations, Failure>
    ensures value { Reads result (declarations_in definition.now) }
{
    let value = read_json(alloc, definition)?;
    Ok(readers::read_definition(alloc, &value)?)
}

/// Reads a tree in JSON, over the names that a definition declares.
pub(crate) fn read_target(alloc: Global, scope: &Scope, tree: &[u8]) -> Result<Declared, Failure>
    ensures value { Reads result (tree_in scope.now tree.now) }
{
    let value = read_json(alloc, tree)?;
    Ok(read_declared(alloc, scope, &value)?)
}
