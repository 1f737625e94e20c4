//! Leaves of trees in JSON.
ghost use Rattle.std.specs.Prelude.{◌≡◌, map};
ghost use Rattle.serde_json.specs.View.{view};
ghost use Rattle.mh_json.specs.Gives.{Gives};
ghost use Rattle.mh_json.specs.Trees.{part, constant_from, identity_from, op_from, ref_from, invoke_from, shared_name_of, site_name_of};

use crate::json::scope::Scope;
use crate::json::shape::text;
use crate::json::values::{read_constant, read_kind, read_op};
use crate::json::wanted::{Named, Wanted, Word};
use crate::key::Key;
use crate::misread::{Misread, at};
use mh_tree::Handle;
use serde_json::Value;
use std::alloc::Global;

/// Reads a constant of a kind.
pub(crate) fn read_leaf_constant(
    alloc: Global,
    scope: &Scope,
    args: &[Value],
) -> Result<Handle, Misread>
    ensures value { Gives (λ x. x) result (constant_from (map (part scope.now) args.now)) }
{
    let [kind, value] = args else {
        return Err(Misread::bad_shape(Wanted::PartsOf(Word::Const)));
    };
    let kind = at(alloc, Key::Item(1), read_kind(kind))?;
    let value = at(alloc, Key::Item(2), read_constant(alloc, kind, value))?;
    Ok(Handle::constant(alloc, &value)?)
}

/// Reads the identity of a kind.
pub(crate) fn read_identity(alloc: Global, scope: &Scope, args: &[Value]) -> Result<Handle, Misread>
    ensures value { Gives (λ x. x) result (identity_from (map (part scope.now) args.now)) }
{
    let [kind] = args else {
        return Err(Misread::bad_shape(Wanted::PartsOf(Word::Id)));
    };
    let kind = at(alloc, Key::Item(1), read_kind(kind))?;
    Ok(Handle::identity(alloc, kind)?)
}

/// Reads a leaf operation.
pub(crate) fn read_operation(
    alloc: Global,
    scope: &Scope,
    args: &[Value],
) -> Result<Handle, Misread>
    ensures value { Gives (λ x. x) result (op_from (map (part scope.now) args.now)) }
{
    let [name] = args else {
        return Err(Misread::bad_shape(Wanted::PartsOf(Word::Op)));
    };
    let op = at(alloc, Key::Item(1), read_op(name))?;
    Ok(Handle::op(alloc, op)?)
}

/// Returns the shared tree of a name, which must be declared earlier.
fn read_shared_name(scope: &Scope, value: &Value) -> Result<Handle, Misread>
    ensures value { Gives (λ x. x) result (shared_name_of scope.now (view value.now)) }
{
    scope.tree_named(text(value, Wanted::NameOf(Named::Shared))?)
}

/// Returns an invocation of the site of a name, which must be declared earlier.
fn read_site_name(alloc: Global, scope: &Scope, value: &Value) -> Result<Handle, Misread>
    ensures value { Gives (λ x. x) result (site_name_of scope.now (view value.now)) }
{
    scope.invocation_named(alloc, text(value, Wanted::NameOf(Named::Site))?)
}

/// Reads a reference to a shared tree that is declared earlier.
pub(crate) fn read_ref(alloc: Global, scope: &Scope, args: &[Value]) -> Result<Handle, Misread>
    ensures value { Gives (λ x. x) result (ref_from scope.now (map (part scope.now) args.now)) }
{
    let [name] = args else {
        return Err(Misread::bad_shape(Wanted::PartsOf(Word::Ref)));
    };
    at(alloc, Key::Item(1), read_shared_name(scope, name))
}

/// Reads an invocation of a site that is declared earlier.
pub(crate) fn read_invocation(
    alloc: Global,
    scope: &Scope,
    args: &[Value],
) -> Result<Handle, Misread>
    ensures value { Gives (λ x. x) result (invoke_from scope.now (map (part scope.now) args.now)) }
{
    let [name] = args else {
        return Err(Misread::bad_shape(Wanted::PartsOf(Word::Invoke)));
    };
    at(alloc, Key::Item(1), read_site_name(alloc, scope, name))
}
