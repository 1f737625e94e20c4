//! Explanations of trees that their constructors reject.
use crate::said::{Part, parameters_of, say};
use crate::scope::scope_at;
use crate::spot::Spot;
use crate::values::{items, known};
use crate::words::numbered;
use mh_base::NoMemory;
use mh_json::Wanted;
use mh_json::readers::{Scope, place, read_filter_or_none, read_tree, read_type, read_value};
use mh_tree::{DEEPEST, DEEPEST_DECLARED, Handle, LARGEST, LARGEST_DECLARED, TreeFault};
use mh_type::{Kind, MOST_PARAMETERS, MethodType, begins_with};
use serde_json::Value;
use std::alloc::Global;

/// Explains why the constructor of a tree rejects it.
pub(crate) fn why_refused(
    alloc: Global,
    cause: TreeFault,
    spot: &Spot<'_>,
) -> Result<String, NoMemory> {
    let Some(scope) = scope_at(alloc, spot.input, spot.path, spot.value)? else {
        return Ok(String::new(alloc));
    };
    match cause {
        TreeFault::TooManyParameters => {
            say!(
                alloc,
                "a tree has at most _ parameters",
                Part::Number(MOST_PARAMETERS)
            )
        }
        TreeFault::TooDeep => why_too_deep(alloc, &scope, spot.value),
        TreeFault::TooLarge => why_too_large(alloc, &scope, spot.value),
        _ => why_misfit(alloc, cause, &scope, items(spot.value)),
    }
}

/// Returns the tree of a part, if it is one.
fn tree(alloc: Global, scope: &Scope, value: &Value) -> Result<Option<Handle>, NoMemory> {
    known(read_tree(alloc, scope, value))
}

fn why_too_deep(alloc: Global, scope: &Scope, value: &Value) -> Result<String, NoMemory> {
    match tree(alloc, scope, value)? {
        Some(tree) => say!(
            alloc,
            "the tree is _ deep, and here at most _",
            Part::Number(tree.depth()),
            Part::Number(DEEPEST_DECLARED)
        ),
        None => say!(alloc, "a tree is at most _ deep", Part::Number(DEEPEST)),
    }
}

fn why_too_large(alloc: Global, scope: &Scope, value: &Value) -> Result<String, NoMemory> {
    match tree(alloc, scope, value)? {
        Some(tree) => say!(
            alloc,
            "the tree has _ nodes, and here at most _",
            Part::Number(tree.size()),
            Part::Number(LARGEST_DECLARED)
        ),
        None => say!(alloc, "a tree has at most _ nodes", Part::Number(LARGEST)),
    }
}

/// Explains why the parts of a tree do not fit, by the word with which it begins.
fn why_misfit(
    alloc: Global,
    cause: TreeFault,
    scope: &Scope,
    items: &[Value],
) -> Result<String, NoMemory> {
    match items {
        [_, target, second] => why_two(alloc, scope, word_of(items), target, second),
        [_, first, second, third] => {
            why_three(alloc, cause, scope, word_of(items), first, second, third)
        }
        _ => Ok(String::new(alloc)),
    }
}

/// Returns the word with which a tree begins.
fn word_of(items: &[Value]) -> &str {
    match items {
        [head, ..] => head.as_str().unwrap_or(""),
        [] => "",
    }
}

/// Explains why two trees do not fit.
fn why_two(
    alloc: Global,
    scope: &Scope,
    word: &str,
    target: &Value,
    second: &Value,
) -> Result<String, NoMemory> {
    let Some(target) = tree(alloc, scope, target)? else {
        return Ok(String::new(alloc));
    };
    let Some(second) = tree(alloc, scope, second)? else {
        return Ok(String::new(alloc));
    };
    let (target, second) = (target.method_type(), second.method_type());
    match word {
        "return" => why_no_return(alloc, target, second),
        _ => say!(
            alloc,
            "the parameters of the target _ do not begin with the result and the parameters of the combiner _",
            Part::Type(target),
            Part::Type(second)
        ),
    }
}

fn why_no_return<'a>(
    alloc: Global,
    target: &'a MethodType,
    filter: &'a MethodType,
) -> Result<String, NoMemory> {
    if filter.count() != 1 {
        return why_not_unary(alloc, "the filter", filter);
    }
    let (target, filter) = (Part::Type(target), Part::Type(filter));
    say!(alloc, "the target is _, and the filter _", target, filter)
}

fn why_not_unary<'a>(
    alloc: Global,
    what: &'a str,
    filter: &'a MethodType,
) -> Result<String, NoMemory> {
    let (what, of) = (Part::Text(what), parameters_of(filter));
    say!(
        alloc,
        "_ is _ and has _, not 1",
        what,
        Part::Type(filter),
        of
    )
}

/// Explains why a tree and two more parts do not fit.
fn why_three(
    alloc: Global,
    cause: TreeFault,
    scope: &Scope,
    word: &str,
    first: &Value,
    second: &Value,
    third: &Value,
) -> Result<String, NoMemory> {
    let Some(first) = tree(alloc, scope, first)? else {
        return why_branches(alloc, scope, second, third);
    };
    let target = first.method_type();
    match word {
        "insert" => why_no_insertion(alloc, target, second, items(third)),
        "drop" => why_no_drop(alloc, target, second),
        "permute" => why_no_permutation(alloc, cause, target, second, items(third)),
        "filter" => why_no_filters(alloc, scope, target, second, items(third)),
        _ => why_no_guard(alloc, scope, cause, target, second, third),
    }
}

/// Explains why the two trees of a point do not fit.
fn why_branches(
    alloc: Global,
    scope: &Scope,
    target: &Value,
    fallback: &Value,
) -> Result<String, NoMemory> {
    let Some(target) = tree(alloc, scope, target)? else {
        return Ok(String::new(alloc));
    };
    let Some(fallback) = tree(alloc, scope, fallback)? else {
        return Ok(String::new(alloc));
    };
    let (target, fallback) = (target.method_type(), fallback.method_type());
    let hint = drop_hint_of(alloc, target, fallback)?;
    say!(
        alloc,
        "the target is _, and the fallback __",
        Part::Type(target),
        Part::Type(fallback),
        Part::Text(hint.as_str())
    )
}

/// Returns what to write so that two branches have the same parameters, if one of them lacks the
/// last ones of the other.
fn drop_hint_of(
    alloc: Global,
    target: &MethodType,
    fallback: &MethodType,
) -> Result<String, NoMemory> {
    if target.ret() != fallback.ret() {
        return Ok(String::new(alloc));
    }
    if target.count() < fallback.count() {
        return drop_hint(alloc, "TARGET", target, fallback.parameters());
    }
    drop_hint(alloc, "FALLBACK", fallback, target.parameters())
}

/// Returns what to write so that a branch has the parameters of the given kinds, if it lacks the
/// last ones alone.
fn drop_hint(
    alloc: Global,
    name: &'static str,
    branch: &MethodType,
    wanted: &[Kind],
) -> Result<String, NoMemory> {
    let own = branch.count();
    if own >= wanted.len() || !begins_with(wanted, branch.parameters()) {
        return Ok(String::new(alloc));
    }
    let kinds = listed_kinds(alloc, &wanted[own..])?;
    say!(
        alloc,
        "; write [\"drop\",_,_,_] to add the missing parameters",
        Part::Text(name),
        Part::Number(own),
        Part::Text(kinds.as_str())
    )
}

/// Returns kinds as a list of JSON.
fn listed_kinds(alloc: Global, kinds: &[Kind]) -> Result<String, NoMemory> {
    let mut list = String::new(alloc);
    let mut before = '[';
    for kind in kinds {
        write!(list, "{before}\"{kind}\"")?;
        before = ',';
    }
    list.push(']')?;
    Ok(list)
}

fn why_no_guard(
    alloc: Global,
    scope: &Scope,
    cause: TreeFault,
    test: &MethodType,
    target: &Value,
    fallback: &Value,
) -> Result<String, NoMemory> {
    if cause == TreeFault::NotBoolean {
        let result = Part::Kind(test.ret());
        return say!(
            alloc,
            "the test is _, and returns _, not boolean",
            Part::Type(test),
            result
        );
    }
    let Some(branch) = tree(alloc, scope, target)? else {
        return Ok(String::new(alloc));
    };
    let branch = branch.method_type();
    if !branch.begins_with(test.parameters()) {
        let hint = drop_hint(alloc, "TARGET", branch, test.parameters())?;
        return say!(
            alloc,
            "the test is _, and the target _ does not begin with its parameters_",
            Part::Type(test),
            Part::Type(branch),
            Part::Text(hint.as_str())
        );
    }
    why_branches(alloc, scope, target, fallback)
}

/// Explains that a position, with this number of parts there, is beyond the parameters.
fn why_past<'a>(
    alloc: Global,
    target: &'a MethodType,
    position: usize,
    parts: Part<'a>,
) -> Result<String, NoMemory> {
    let (position, of) = (Part::Number(position), parameters_of(target));
    say!(
        alloc,
        "position _ with _ is past the _ of _",
        position,
        parts,
        of,
        Part::Type(target)
    )
}

/// Returns the position that a value denotes, or the greatest if it denotes none.
fn place_or_last(value: &Value) -> Result<usize, NoMemory> {
    Ok(known(place(value, Wanted::Nothing))?.unwrap_or(usize::MAX))
}

/// Returns the kinds of `count` parameters from a position on, or `None` if there are fewer.
fn kinds_at(target: &MethodType, position: usize, count: usize) -> Option<&[Kind]> {
    let kinds = target.parameters();
    if position > kinds.len() || count > kinds.len() - position {
        return None;
    }
    Some(&kinds[position..position + count])
}

fn why_no_insertion<'a>(
    alloc: Global,
    target: &'a MethodType,
    position: &Value,
    values: &'a [Value],
) -> Result<String, NoMemory> {
    let position = place_or_last(position)?;
    let Some(kinds) = kinds_at(target, position, values.len()) else {
        return why_past(
            alloc,
            target,
            position,
            Part::Counted(values.len(), "value", "values"),
        );
    };
    for (kind, value) in kinds.iter().zip(values) {
        if let Some(read) = known(read_value(alloc, Some(*kind), value))? {
            let own = read.kind();
            if own != *kind {
                return say!(
                    alloc,
                    "_ is of kind _, and stands for a parameter of _ of kind _",
                    Part::Value(value),
                    Part::Kind(own),
                    Part::Type(target),
                    Part::Kind(*kind)
                );
            }
        }
    }
    Ok(String::new(alloc))
}

fn why_no_drop(alloc: Global, target: &MethodType, position: &Value) -> Result<String, NoMemory> {
    let position = Part::Number(place_or_last(position)?);
    let (of, target) = (parameters_of(target), Part::Type(target));
    say!(alloc, "position _ is past the _ of _", position, of, target)
}

fn why_no_permutation(
    alloc: Global,
    cause: TreeFault,
    target: &MethodType,
    new_type: &Value,
    reorder: &[Value],
) -> Result<String, NoMemory> {
    let Some(new_type) = known(read_type(new_type))? else {
        return Ok(String::new(alloc));
    };
    if cause == TreeFault::TypeMismatch {
        let (target, new_type) = (Part::Type(target), Part::Type(&new_type));
        return say!(alloc, "_ in this order is not _", target, new_type);
    }
    if reorder.len() != target.count() {
        let numbers = Part::Counted(reorder.len(), "number", "numbers");
        let of = parameters_of(target);
        return say!(
            alloc,
            "the list has _, and _ _",
            numbers,
            Part::Type(target),
            of
        );
    }
    let last = numbered(alloc, new_type.count(), "parameter", "parameters")?;
    let (new_type, last) = (Part::Type(&new_type), Part::Text(last.as_str()));
    say!(
        alloc,
        "the list has a number past the end of _, where _",
        new_type,
        last
    )
}

fn why_no_filters(
    alloc: Global,
    scope: &Scope,
    target: &MethodType,
    position: &Value,
    filters: &[Value],
) -> Result<String, NoMemory> {
    let position = place_or_last(position)?;
    let Some(kinds) = kinds_at(target, position, filters.len()) else {
        let filters = Part::Counted(filters.len(), "filter", "filters");
        return why_past(alloc, target, position, filters);
    };
    if let Some(why) = why_some_not_unary(alloc, scope, filters)? {
        return Ok(why);
    }
    for (kind, filter) in kinds.iter().zip(filters) {
        if let Some(Some(filter)) = known(read_filter_or_none(alloc, scope, filter))? {
            let filter = filter.method_type();
            if filter.ret() != *kind {
                return why_other_result(alloc, filter, target, *kind);
            }
        }
    }
    Ok(String::new(alloc))
}

/// Explains why a filter does not fit a parameter of a target, which is not of the kind that it
/// returns.
fn why_other_result<'a>(
    alloc: Global,
    filter: &'a MethodType,
    target: &'a MethodType,
    kind: Kind,
) -> Result<String, NoMemory> {
    say!(
        alloc,
        "the filter _ stands for a parameter of _ of kind _",
        Part::Type(filter),
        Part::Type(target),
        Part::Kind(kind)
    )
}

/// Explains why the first filter that does not have exactly one parameter does not fit.
fn why_some_not_unary(
    alloc: Global,
    scope: &Scope,
    filters: &[Value],
) -> Result<Option<String>, NoMemory> {
    for filter in filters {
        if let Some(Some(filter)) = known(read_filter_or_none(alloc, scope, filter))? {
            let filter = filter.method_type();
            if filter.count() != 1 {
                return Ok(Some(why_not_unary(alloc, "a filter", filter)?));
            }
        }
    }
    Ok(None)
}
