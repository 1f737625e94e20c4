//! The shared trees of a definition.
ghost use Rattle.std.specs.Prelude.{◌≡◌, map};
ghost use Rattle.serde_json.specs.View.{view};
ghost use Rattle.mh_json.specs.Gives.{Gives};
ghost use Rattle.mh_json.specs.Shared.{new_name, shared_from, shared_in, shared_of, scope_of};

use crate::json::scope::{Scope, Shared};
use crate::json::shape::{list, text};
use crate::json::trees::read_tree;
use crate::json::wanted::Wanted;
use crate::key::{Field, Key};
use crate::misread::{Misread, at};
use mh_site::{Name, Names};
use serde_json::Value;
use std::alloc::Global;

/// Reads a lawful name that no earlier shared tree has.
pub fn read_new_name(alloc: Global, names: &Names, value: &Value) -> Result<Name, Misread>
    ensures value { Gives (λ x. x) result (new_name names.now (view value.now)) }
{
    let name = Name::new(alloc, text(value, Wanted::NewName)?)?;
    if !name.is_lawful() || names.contains(name.as_str()) {
        return Err(Misread::bad_shape(Wanted::NewName));
    }
    Ok(name)
}

/// Reads a name and the tree that it names.
fn read_pair(alloc: Global, scope: &Scope, parts: &[Value]) -> Result<Shared, Misread>
    ensures value { Gives (λ x. x) result (shared_from scope.now (map view parts.now)) }
{
    let [name, tree] = parts else {
        return Err(Misread::bad_shape(Wanted::SharedPair));
    };
    let name = at(
        alloc,
        Key::Item(0),
        read_new_name(alloc, &scope.names, name),
    )?;
    let tree = at(alloc, Key::Item(1), read_tree(alloc, scope, tree))?;
    Ok(Shared { name, tree })
}

/// Reads a shared tree, which may refer to those before it.
pub fn read_shared(alloc: Global, scope: &Scope, value: &Value) -> Result<Shared, Misread>
    ensures value { Gives (λ x. x) result (shared_of scope.now (view value.now)) }
{
    read_pair(alloc, scope, list(value, Wanted::SharedPair)?)
}

/// Adds shared trees to the names that the trees of a definition may use.
pub fn read_scope(alloc: Global, scope: Scope, value: &Value) -> Result<Scope, Misread>
    ensures value { Gives (λ x. x) result (scope_of scope (view value.now)) }
{
    let pairs = list(value, Wanted::List)?;
    let mut scope = scope;
    for (i, pair) in pairs.iter().enumerate() {
        let shared = at(alloc, Key::Item(i), read_shared(alloc, &scope, pair))?;
        scope.add(shared)?;
    }
    Ok(scope)
}

/// Returns the names that the trees of a definition may use: those of its points, and of its shared
/// trees if it has the key `shared`.
pub fn read_shared_trees(alloc: Global, points: Names, definition: &Value) -> Result<Scope, Misread>
    ensures value { Gives (λ x. x) result (shared_in points (view definition.now)) }
{
    let scope = Scope::new(alloc, points);
    match definition.get(Field::Shared.name()) {
        Some(pairs) => at(
            alloc,
            Key::Member(Field::Shared),
            read_scope(alloc, scope, pairs),
        ),
        None => Ok(scope),
    }
}
