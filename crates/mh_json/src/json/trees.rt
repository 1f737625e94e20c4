//! Trees in JSON. Children are built from left to right before their parent.
ghost use Rattle.std.specs.Prelude.{◌≡◌, map, drop};
ghost use Rattle.serde_json.specs.View.{view};
ghost use Rattle.mh_type.specs.declared.kind.Kind.{Kind};
ghost use Rattle.mh_json.specs.Gives.{Gives};
ghost use Rattle.mh_json.specs.Values.{values_for};
ghost use Rattle.mh_json.specs.Trees.{part, tree_of, declared_of, filter_of, filters_of, form_named, insert_from, drop_from, permute_from, filter_from, return_from, fold_from, guard_from, point_from};

use crate::json::leaves::{
    read_identity, read_invocation, read_leaf_constant, read_operation, read_ref,
};
use crate::json::points::read_named_point;
use crate::json::scope::Scope;
use crate::json::shape::{parameter, read_places, text};
use crate::json::values::{read_kinds, read_type, read_values};
use crate::json::wanted::{Wanted, Word};
use crate::key::Key;
use crate::misread::{Misread, at};
use mh_site::Listing;
use mh_tree::{Declared, Handle};
use mh_type::{Kind, Value as Constant};
use serde_json::Value;
use std::alloc::Global;

/// Returns the kinds from an index on, and none if it is past the last.
fn kinds_from(kinds: &[Kind], place: usize) -> &[Kind]
    ensures value { result.now ≡ drop place kinds.now }
{
    &kinds[place.min(kinds.len())..]
}

/// Reads values for the parameters of a tree from an index on.
fn read_inserted(
    alloc: Global,
    target: &Handle,
    position: usize,
    value: &Value,
) -> Result<Listing<Constant>, Misread>
    ensures value { Gives (λ x. x) result
        (values_for (drop position target.now.signature.parameters) (view value.now)) }
{
    read_values(
        alloc,
        kinds_from(target.method_type().parameters(), position),
        value,
    )
}

#[cycle(tree)]
fn read_insert(alloc: Global, scope: &Scope, args: &[Value]) -> Result<Handle, Misread>
    ensures value { Gives (λ x. x) result (insert_from (map (part scope.now) args.now)) }
{
    let [target, position, values] = args else {
        return Err(Misread::bad_shape(Wanted::PartsOf(Word::Insert)));
    };
    let target = at(alloc, Key::Item(1), read_tree(alloc, scope, target))?;
    let position = at(alloc, Key::Item(2), parameter(position))?;
    let values = at(
        alloc,
        Key::Item(3),
        read_inserted(alloc, &target, position, values),
    )?;
    Ok(Handle::insert(alloc, &target, position, values.as_slice())?)
}

#[cycle(tree)]
fn read_drop(alloc: Global, scope: &Scope, args: &[Value]) -> Result<Handle, Misread>
    ensures value { Gives (λ x. x) result (drop_from (map (part scope.now) args.now)) }
{
    let [target, position, kinds] = args else {
        return Err(Misread::bad_shape(Wanted::PartsOf(Word::Drop)));
    };
    let target = at(alloc, Key::Item(1), read_tree(alloc, scope, target))?;
    let position = at(alloc, Key::Item(2), parameter(position))?;
    let kinds = at(alloc, Key::Item(3), read_kinds(alloc, kinds))?;
    Ok(Handle::drop(alloc, &target, position, kinds.as_slice())?)
}

#[cycle(tree)]
fn read_permute(alloc: Global, scope: &Scope, args: &[Value]) -> Result<Handle, Misread>
    ensures value { Gives (λ x. x) result (permute_from (map (part scope.now) args.now)) }
{
    let [target, new_type, reorder] = args else {
        return Err(Misread::bad_shape(Wanted::PartsOf(Word::Permute)));
    };
    let target = at(alloc, Key::Item(1), read_tree(alloc, scope, target))?;
    let new_type = at(alloc, Key::Item(2), read_type(new_type))?;
    let reorder = at(alloc, Key::Item(3), read_places(alloc, reorder))?;
    Ok(Handle::permute(alloc, &target, &new_type, reorder.as_slice())?)
}

#[cycle(tree)]
fn read_filter(alloc: Global, scope: &Scope, args: &[Value]) -> Result<Handle, Misread>
    ensures value { Gives (λ x. x) result (filter_from (map (part scope.now) args.now)) }
{
    let [target, position, filters] = args else {
        return Err(Misread::bad_shape(Wanted::PartsOf(Word::Filter)));
    };
    let target = at(alloc, Key::Item(1), read_tree(alloc, scope, target))?;
    let position = at(alloc, Key::Item(2), parameter(position))?;
    let filters = at(alloc, Key::Item(3), read_filters(alloc, scope, filters))?;
    Ok(Handle::filter(alloc, &target, position, filters.as_slice())?)
}

/// Reads a list of filters, each a tree or `null`.
#[cycle(tree)]
pub fn read_filters(
    alloc: Global,
    scope: &Scope,
    value: &Value,
) -> Result<Listing<Option<Handle>>, Misread>
    ensures value { Gives (λ x. x) result (filters_of scope.now (view value.now)) }
{
    let Value::Array(items) = value else {
        return Err(Misread::bad_shape(Wanted::List));
    };
    let items = items.as_slice();
    let mut filters = Vec::new(alloc);
    for (i, item) in items.iter().enumerate() {
        filters.push(at(alloc, Key::Item(i), read_filter_or_none(alloc, scope, item))?)?;
    }
    Ok(Listing::from_vec(filters))
}

/// Reads a filter: a tree, or `null` for none.
#[cycle(tree)]
pub fn read_filter_or_none(
    alloc: Global,
    scope: &Scope,
    value: &Value,
) -> Result<Option<Handle>, Misread>
    ensures value { Gives (λ x. x) result (filter_of scope.now (view value.now)) }
{
    if value.is_null() {
        return Ok(None);
    }
    Ok(Some(read_tree(alloc, scope, value)?))
}

#[cycle(tree)]
fn read_filter_return(alloc: Global, scope: &Scope, args: &[Value]) -> Result<Handle, Misread>
    ensures value { Gives (λ x. x) result (return_from (map (part scope.now) args.now)) }
{
    let [target, filter] = args else {
        return Err(Misread::bad_shape(Wanted::PartsOf(Word::Return)));
    };
    let target = at(alloc, Key::Item(1), read_tree(alloc, scope, target))?;
    let filter = at(alloc, Key::Item(2), read_tree(alloc, scope, filter))?;
    Ok(Handle::filter_return(alloc, &target, &filter)?)
}

#[cycle(tree)]
fn read_fold(alloc: Global, scope: &Scope, args: &[Value]) -> Result<Handle, Misread>
    ensures value { Gives (λ x. x) result (fold_from (map (part scope.now) args.now)) }
{
    let [target, combiner] = args else {
        return Err(Misread::bad_shape(Wanted::PartsOf(Word::Fold)));
    };
    let target = at(alloc, Key::Item(1), read_tree(alloc, scope, target))?;
    let combiner = at(alloc, Key::Item(2), read_tree(alloc, scope, combiner))?;
    Ok(Handle::fold(alloc, &target, &combiner)?)
}

#[cycle(tree)]
fn read_guard(alloc: Global, scope: &Scope, args: &[Value]) -> Result<Handle, Misread>
    ensures value { Gives (λ x. x) result (guard_from (map (part scope.now) args.now)) }
{
    let [test, target, fallback] = args else {
        return Err(Misread::bad_shape(Wanted::PartsOf(Word::Guard)));
    };
    let test = at(alloc, Key::Item(1), read_tree(alloc, scope, test))?;
    let target = at(alloc, Key::Item(2), read_tree(alloc, scope, target))?;
    let fallback = at(alloc, Key::Item(3), read_tree(alloc, scope, fallback))?;
    Ok(Handle::guard(alloc, &test, &target, &fallback)?)
}

#[cycle(tree)]
fn read_branches(alloc: Global, scope: &Scope, args: &[Value]) -> Result<Handle, Misread>
    ensures value { Gives (λ x. x) result (point_from scope.now (map (part scope.now) args.now)) }
{
    let [name, target, fallback] = args else {
        return Err(Misread::bad_shape(Wanted::PartsOf(Word::Point)));
    };
    let point = at(alloc, Key::Item(1), read_named_point(scope, name))?;
    let target = at(alloc, Key::Item(2), read_tree(alloc, scope, target))?;
    let fallback = at(alloc, Key::Item(3), read_tree(alloc, scope, fallback))?;
    Ok(Handle::point(alloc, point, &target, &fallback)?)
}

/// Reads the arguments of a tree's word.
#[cycle(tree)]
fn read_form(alloc: Global, scope: &Scope, word: &str, args: &[Value]) -> Result<Handle, Misread>
    ensures value { Gives (λ x. x) result
        (form_named scope.now word.now (map (part scope.now) args.now)) }
{
    match word {
        "const" => read_leaf_constant(alloc, scope, args),
        "id" => read_identity(alloc, scope, args),
        "op" => read_operation(alloc, scope, args),
        "ref" => read_ref(alloc, scope, args),
        "insert" => read_insert(alloc, scope, args),
        "drop" => read_drop(alloc, scope, args),
        "permute" => read_permute(alloc, scope, args),
        "filter" => read_filter(alloc, scope, args),
        "return" => read_filter_return(alloc, scope, args),
        "fold" => read_fold(alloc, scope, args),
        "guard" => read_guard(alloc, scope, args),
        "point" => read_branches(alloc, scope, args),
        "invoke" => read_invocation(alloc, scope, args),
        _ => Err(Misread::bad_shape(Wanted::TreeWord)),
    }
}

/// Reads a tree, over the names that it may use.
#[cycle(tree)]
pub fn read_tree(alloc: Global, scope: &Scope, value: &Value) -> Result<Handle, Misread>
    ensures value { Gives (λ x. x) result (tree_of scope.now (view value.now)) }
{
    let Value::Array(items) = value else {
        return Err(Misread::bad_shape(Wanted::Tree));
    };
    let [head, args @ ..] = items.as_slice() else {
        return Err(Misread::bad_shape(Wanted::Tree));
    };
    match text(head, Wanted::TreeWord) {
        Ok(word) => read_form(alloc, scope, word, args),
        Err(misread) => Err(misread.behind(alloc, Key::Item(0))),
    }
}

/// Reads a tree within the limits of declared trees.
pub fn read_declared(alloc: Global, scope: &Scope, value: &Value) -> Result<Declared, Misread>
    ensures value { Gives (λ x. x) result (declared_of scope.now (view value.now)) }
{
    Ok(Declared::new(&read_tree(alloc, scope, value)?)?)
}
