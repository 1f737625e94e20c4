//! The names that a tree may use at its place.
use crate::values::{items_at, known, named_behind, version_of};
use mh_base::NoMemory;
use mh_json::readers::{Scope, Sited, point_names, read_points, read_shared, read_site};
use mh_json::{Field, Key};
use serde_json::Value;
use std::alloc::Global;

/// Returns the first values of a list, at most `most`.
fn first_of(values: &[Value], most: usize) -> &[Value] {
    &values[..most.min(values.len())]
}

/// Returns the names of the points, and of the first shared trees, of a definition.
fn shared_before(
    alloc: Global,
    definition: &Value,
    most: usize,
) -> Result<Option<Scope>, NoMemory> {
    let Some(points) = definition.get(Field::Points.name()) else {
        return Ok(None);
    };
    let Some(points) = known(read_points(alloc, points))? else {
        return Ok(None);
    };
    let mut scope = Scope::new(alloc, point_names(alloc, points.as_slice())?);
    for pair in first_of(items_at(definition, Field::Shared), most) {
        let Some(shared) = known(read_shared(alloc, &scope, pair))? else {
            return Ok(None);
        };
        if scope.add(shared).is_err() {
            return Err(NoMemory);
        }
    }
    Ok(Some(scope))
}

/// Returns the first sites of a definition, and the names that a tree after them may use.
pub(crate) fn sites_before(
    alloc: Global,
    definition: &Value,
    most: usize,
) -> Result<Option<Sited>, NoMemory> {
    let version = version_of(Some(definition))?;
    let Some(scope) = shared_before(alloc, definition, usize::MAX)? else {
        return Ok(None);
    };
    let mut sited = Sited::new(alloc, scope);
    for site in first_of(items_at(definition, Field::Sites), most) {
        let Some(site) = known(read_site(alloc, version, &sited.scope, site))? else {
            return Ok(None);
        };
        if sited.add(site).is_err() {
            return Err(NoMemory);
        }
    }
    Ok(Some(sited))
}

/// Returns the names that a tree at the end of a path from a script may use: in the definition
/// those declared before it, in the events all. Sites are not read if the tree invokes none.
pub(crate) fn scope_at(
    alloc: Global,
    script: &Value,
    path: &[Key],
    tree: &Value,
) -> Result<Option<Scope>, NoMemory> {
    let Some(definition) = script.get(Field::Definition.name()) else {
        return Ok(None);
    };
    if let [_, Key::Member(Field::Shared), Key::Item(pair), ..] = path {
        return shared_before(alloc, definition, *pair);
    }
    if named_behind(alloc, "invoke", tree)?.is_empty() {
        return shared_before(alloc, definition, usize::MAX);
    }
    let sites = match path {
        [_, Key::Member(Field::Sites), Key::Item(site), ..] => *site,
        _ => usize::MAX,
    };
    match sites_before(alloc, definition, sites)? {
        Some(sited) => Ok(Some(sited.scope)),
        None => Ok(None),
    }
}
