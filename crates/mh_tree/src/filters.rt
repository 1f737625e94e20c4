//! The constructors that filter the arguments and the result of a target.

ghost use Rattle.std.specs.Prelude.{◌≡◌, ◌+◌, ◌*◌, ◌≤◌, ◌++◌, true, Ok, Err, take, drop, length, map, option_map, IfSome, IfOk, IfErr, MatchResult};
ghost use Rattle.std.specs.List.{All, list_all};
ghost use Rattle.mh_base.specs.Tests.{Refuses};
ghost use Rattle.mh_tree.specs.Constructors.{refusals, filter_made, filter_return_made, is_unary, return_kinds as kinds_returned, taken_kinds, plain_filters};
ghost use Rattle.mh_tree.specs.Limits.{deepest as deepest_tree, total_size as total_of, greatest_bound as greatest_of, greatest_site as greatest_site_of, greatest_depth, most_nodes};
ghost use Rattle.mh_tree.specs.TreeOf.{filter_trees};
ghost use Rattle.mh_tree.specs.Handle.{IsSound};
ghost use Rattle.mh_tree.specs.Tree.{filter as filter_tree, filter_return as filter_return_tree};
ghost use Rattle.mh_type.specs.Limits.{most_parameters};

use crate::fault::TreeFault;
use crate::handle::Handle;
use crate::limits::within_limits;
use crate::node::{Node, with_parameter};
use mh_base::NoMemory;
use mh_type::{Kind, MethodType, same_kinds};
use std::alloc::Global;
use std::sync::Arc;

impl Handle {
    /// Returns the target with filtered arguments (`MethodHandles.filterArguments`).
    ///
    /// *Type*: that of the target, with each filter's parameter in place of the target's parameter
    /// that the filter computes. The filters are for the parameters from `position` on; an absent
    /// one leaves its argument unchanged.
    ///
    /// *Pseudo-code*: `adapter(a.., x, y, .., b..) = target(a.., filters[0](x), filters[1](y), ..,
    /// b..)`, with `position` arguments `a`. Filters run from left to right. If one throws, this is
    /// the outcome, and nothing after it runs.
    ///
    /// *Example*: `ladd` with the filter `i2l` at position 1 is of type `(long,int)long`, and
    /// returns `long 3` for `long 1` and `int 2`. The list of filters may be empty: the handle is
    /// then the target in one more node.
    ///
    /// *Errors*: `BadPosition` if `position + filters.len()`, as an unbounded number, exceeds the
    /// target's number of parameters; `NotUnary` if a filter does not have exactly one parameter;
    /// `TypeMismatch` if a filter does not return the kind of the parameter at its position;
    /// `TooDeep`, `TooLarge`, and `NoMemory`.
    pub fn filter(
        alloc: Global,
        target: &Handle,
        position: usize,
        filters: &[Option<Handle>],
    ) -> Result<Handle, TreeFault>
        ensures value { IfOk result (λ h. filter_made target.now position filters.now ≡ Ok h) }
        ensures refused { IfErr result (λ e. Refuses (refusals
            (filter_made target.now position filters.now)) e) }
    {
        let method_type = filter_type(target, position, filters)?;
        let root = Node::Filter {
            target: target.root_owner()?,
            position,
            filters: owners(alloc, filters)?,
        };
        let depth = 1 + target.depth().max(deepest(filters));
        let size = 1 + (target.size() + total_size(filters));
        let bound = target.point_bound().max(greatest_bound(filters));
        let sites = target.site_bound().max(greatest_site(filters));
        Handle::of(alloc, root, method_type, depth, size, bound, sites)
    }

    /// Returns the target with a filtered result (`MethodHandles.filterReturnValue`).
    ///
    /// *Type*: that of the target, with the filter's return kind.
    ///
    /// *Pseudo-code*: `adapter(a..) = filter(target(a..))`. If the target throws, this is the
    /// outcome, and the filter does not run.
    ///
    /// *Example*: `iadd` with the filter `i2l` is of type `(int,int)long`, and returns `long 3` for
    /// `int 1` and `int 2`.
    ///
    /// *Errors*: `NotUnary` if the filter does not have exactly one parameter; `TypeMismatch` if
    /// that parameter is not of the kind that the target returns; `TooDeep`, `TooLarge`, and
    /// `NoMemory`.
    pub fn filter_return(
        alloc: Global,
        target: &Handle,
        filter: &Handle,
    ) -> Result<Handle, TreeFault>
        ensures value { IfOk result (λ h. filter_return_made target.now filter.now ≡ Ok h) }
        ensures refused { IfErr result (λ e. Refuses (refusals
            (filter_return_made target.now filter.now)) e) }
    {
        let method_type = filter_return_type(target, filter)?;
        let root = Node::FilterReturn {
            target: target.root_owner()?,
            filter: filter.root_owner()?,
        };
        let depth = 1 + target.depth().max(filter.depth());
        let size = 1 + (target.size() + filter.size());
        let bound = target.point_bound().max(filter.point_bound());
        let sites = target.site_bound().max(filter.site_bound());
        Handle::of(alloc, root, method_type, depth, size, bound, sites)
    }
}

// Returns the type of the target with these filters of its arguments, if they may be.
fn filter_type(
    target: &Handle,
    position: usize,
    filters: &[Option<Handle>],
) -> Result<MethodType, TreeFault>
    ensures value { MatchResult result (λ m. filter_made target.now position filters.now ≡ Ok
        (record {
          tree = filter_tree target.now.tree position
              (plain_filters filters.now);
          signature = m;
        }))
        (λ e. filter_made target.now position filters.now ≡ Err e) }
    ensures sound { IfOk result (λ m. IsSound (filter_tree target.now.tree position
        (plain_filters filters.now)) m) }
    ensures few { IfOk result (λ m. length filters.now ≤ most_parameters) }
{
    let old = target.method_type();
    let parameters = old.parameters();
    if filters.len() > parameters.len() || position > parameters.len() - filters.len() {
        return Err(TreeFault::BadPosition);
    }
    if !are_unary(filters) {
        return Err(TreeFault::NotUnary);
    }
    if !return_kinds(filters, &parameters[position..]) {
        return Err(TreeFault::TypeMismatch);
    }
    let depth = 1 + target.depth().max(deepest(filters));
    let size = 1 + (target.size() + total_size(filters));
    within_limits(type_before(old, position, filters), depth, size)
}

// Returns the type of the target with this filter of its result, if it may be.
fn filter_return_type(target: &Handle, filter: &Handle) -> Result<MethodType, TreeFault>
    ensures value { MatchResult result (λ m. filter_return_made target.now filter.now ≡ Ok
        (record { tree = filter_return_tree target.now.tree filter.now.tree; signature = m }))
        (λ e. filter_return_made target.now filter.now ≡ Err e) }
    ensures sound { IfOk result (λ m. IsSound (filter_return_tree target.now.tree filter.now.tree)
        m) }
{
    let old = target.method_type();
    let last = filter.method_type();
    if last.count() != 1 {
        return Err(TreeFault::NotUnary);
    }
    if !same_kinds(last.parameters(), &[old.ret()]) {
        return Err(TreeFault::TypeMismatch);
    }
    let depth = 1 + target.depth().max(filter.depth());
    let size = 1 + (target.size() + filter.size());
    within_limits(old.returning(last.ret()), depth, size)
}

// Returns whether each filter that is present has one parameter.
fn are_unary(filters: &[Option<Handle>]) -> bool
    ensures value { result ≡ list_all is_unary filters.now }
{
    for filter in filters {
        if let Some(filter) = filter {
            if filter.method_type().count() != 1 {
                return false;
            }
        }
    }
    true
}

// Returns whether each filter that is present returns the kind at its index.
fn return_kinds(filters: &[Option<Handle>], kinds: &[Kind]) -> bool
    requires enough { length filters.now ≤ length kinds.now }
    ensures value { result ≡ kinds_returned filters.now kinds.now }
{
    for (index, filter) in filters.iter().enumerate() {
        if let Some(filter) = filter {
            if !filter.method_type().ret().is(kinds[index]) {
                return false;
            }
        }
    }
    true
}

// Returns the target's type with each filter's parameter in its place.
fn type_before(target: &MethodType, position: usize, filters: &[Option<Handle>]) -> MethodType
    requires inside { position + length filters.now ≤ length target.now.parameters }
    requires unary { list_all is_unary filters.now ≡ true }
    ensures value { result ≡ record {
      ret = target.now.ret;
      parameters = take position
          target.now.parameters ++ taken_kinds filters.now (drop position target.now.parameters);
    } }
    ensures sound { All (λ o. IfSome o (λ f. IsSound f.tree f.signature)) filters.now }
{
    let mut made = target.copy();
    for (index, filter) in filters.iter().enumerate() {
        if let Some(filter) = filter {
            let kind = filter.method_type().parameter(0);
            made = with_parameter(&made, position + index, kind);
        }
    }
    made
}

// Returns the depth of the deepest filter, or 0.
fn deepest(filters: &[Option<Handle>]) -> usize
    ensures value { result ≡ deepest_tree (plain_filters filters.now) }
    ensures shallow { result ≤ greatest_depth }
{
    let mut deepest = 0;
    for filter in filters {
        if let Some(filter) = filter {
            deepest = deepest.max(filter.depth());
        }
    }
    deepest
}

// Returns the number of nodes of all filters.
fn total_size(filters: &[Option<Handle>]) -> usize
    requires few { length filters.now ≤ most_parameters }
    ensures value { result ≡ total_of (plain_filters filters.now) }
    ensures small { result ≤ length filters.now * most_nodes }
{
    let mut total = 0;
    for filter in filters {
        if let Some(filter) = filter {
            total += filter.size();
        }
    }
    total
}

// Returns the greatest point bound of the filters, or 0.
fn greatest_bound(filters: &[Option<Handle>]) -> usize
    ensures value { result ≡ greatest_of (plain_filters filters.now) }
{
    let mut greatest = 0;
    for filter in filters {
        if let Some(filter) = filter {
            greatest = greatest.max(filter.point_bound());
        }
    }
    greatest
}

// Returns the greatest site bound of the filters, or 0.
fn greatest_site(filters: &[Option<Handle>]) -> usize
    ensures value { result ≡ greatest_site_of (plain_filters filters.now) }
{
    let mut greatest = 0;
    for filter in filters {
        if let Some(filter) = filter {
            greatest = greatest.max(filter.site_bound());
        }
    }
    greatest
}

// Returns another owner of each filter's tree.
fn owners(alloc: Global, filters: &[Option<Handle>]) -> Result<Vec<Option<Arc<Node>>>, NoMemory>
    ensures value { IfOk result (λ v. filter_trees v.items ≡ map
        (option_map (λ f. f.tree)) filters.now) }
{
    let mut owned = Vec::new(alloc);
    for filter in filters {
        let filter = match filter {
            None => None,
            Some(filter) => Some(filter.root_owner()?),
        };
        owned.push(filter).map_err(|_| NoMemory)?;
    }
    Ok(owned)
}
