//! The forms of leaves: a value, an argument, an operation, a site.

ghost use Rattle.std.specs.Prelude.{◌≡◌, IfOk};
ghost use Rattle.serde_json.specs.View.{view};
ghost use Rattle.mh_json.specs.TreeData.{constant_data, identity_data, operation_data, invocation_data};

use crate::values::value_json;
use crate::writer::Writer;
use mh_type::{Kind, Op, Value as Constant};
use serde_json::{Value, json};
use std::alloc::{AllocError, Global};

// Returns the form of a constant: its kind and its value.
pub(crate) fn constant_json(alloc: Global, value: &Constant) -> Result<Value, AllocError>
    ensures value { IfOk result (λ v. view v ≡ constant_data value.now) }
{
    let kind = value.kind().name();
    let value = value_json(alloc, value)?;
    json!(in alloc; ["const", kind, value])
}

// Returns the form of the identity of a kind.
pub(crate) fn identity_json(alloc: Global, kind: Kind) -> Result<Value, AllocError>
    ensures value { IfOk result (λ v. view v ≡ identity_data kind) }
{
    json!(in alloc; ["id", kind.name()])
}

// Returns the form of an operation.
pub(crate) fn operation_json(alloc: Global, op: Op) -> Result<Value, AllocError>
    ensures value { IfOk result (λ v. view v ≡ operation_data op) }
{
    json!(in alloc; ["op", op.name()])
}

impl Writer<'_> {
    // Returns the form of an invocation, with the name of its site.
    pub(crate) fn invocation(&self, site: u32) -> Result<Value, AllocError>
        ensures value { IfOk result (λ v. view v ≡ invocation_data self.now.definition.now site) }
    {
        json!(in self.alloc; ["invoke", self.site_name(site)])
    }
}
