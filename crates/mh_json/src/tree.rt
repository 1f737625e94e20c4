//! The forms of trees. Subtrees are written from left to right before the tree that contains them.

ghost use Rattle.std.specs.Prelude.{◌≡◌, ◌≤◌, Some, IfOk, string_bytes, option_map};
ghost use Rattle.std.specs.Arc.{arc_value};
ghost use Rattle.serde_json.specs.Data.{array};
ghost use Rattle.serde_json.specs.Read.{read};
ghost use Rattle.serde_json.specs.View.{view};
ghost use Rattle.mh_tree.specs.Limits.{depth, greatest_declared_depth};
ghost use Rattle.mh_tree.specs.Tree.{filters_of, insert, discard, permute, filter, filter_return, fold, guard, point as point_tree};
ghost use Rattle.mh_tree.specs.TreeOf.{tree_of, filter_trees};
ghost use Rattle.mh_json.specs.TreeData.{tree_data, filters_data, filter_data, tree_text};

use crate::leaf::{constant_json, identity_json, operation_json};
use crate::values::{kinds_json, places_json, values_json};
use crate::writer::Writer;
use mh_site::Definition;
use mh_tree::{Handle, Node};
use mh_type::{Kind, MethodType, Value as Constant};
use serde_json::{Value, json};
use std::alloc::{AllocError, Global};
use std::sync::Arc;

impl Writer<'_> {
    // Returns a tree as JSON.
    #[cycle(tree)]
    fn tree(&self, node: &Node) -> Result<Value, AllocError>
        ensures value { IfOk result (λ v. view v
            ≡ tree_data self.now.definition.now (tree_of node.now)) }
    {
        match node {
            Node::Constant(value) => constant_json(self.alloc, value),
            Node::Identity(kind) => identity_json(self.alloc, *kind),
            Node::Operation(op) => operation_json(self.alloc, *op),
            Node::Invoke { site, .. } => self.invocation(*site),
            Node::Insert {
                target,
                position,
                values,
            } => self.insert(target, *position, values),
            Node::Drop {
                target,
                position,
                kinds,
            } => self.discard(target, *position, kinds),
            Node::Permute {
                target,
                new_type,
                reorder,
            } => self.permute(target, new_type, reorder),
            Node::Filter {
                target,
                position,
                filters,
            } => self.filter(target, *position, filters),
            Node::FilterReturn { target, filter } => self.filter_return(target, filter),
            Node::Fold { target, combiner } => self.fold(target, combiner),
            Node::Guard {
                test,
                target,
                fallback,
            } => self.guard(test, target, fallback),
            Node::Point {
                point,
                target,
                fallback,
            } => self.point(*point, target, fallback),
        }
    }

    // Returns the form of an insertion of values into a target.
    #[cycle(tree)]
    fn insert(
        &self,
        target: &Node,
        position: usize,
        values: &[Constant],
    ) -> Result<Value, AllocError>
        ensures value { IfOk result (λ v. view v
            ≡ tree_data self.now.definition.now (insert (tree_of target.now) position values.now)) }
    {
        let target = self.tree(target)?;
        let values = values_json(self.alloc, values)?;
        json!(in self.alloc; ["insert", target, position, values])
    }

    // Returns the form of a target that drops parameters of these kinds.
    #[cycle(tree)]
    fn discard(&self, target: &Node, position: usize, kinds: &[Kind]) -> Result<Value, AllocError>
        ensures value { IfOk result (λ v. view v
            ≡ tree_data self.now.definition.now (discard (tree_of target.now) position kinds.now)) }
    {
        let target = self.tree(target)?;
        let kinds = kinds_json(self.alloc, kinds)?;
        json!(in self.alloc; ["drop", target, position, kinds])
    }

    // Returns the form of a target that takes its arguments in another order.
    #[cycle(tree)]
    fn permute(
        &self,
        target: &Node,
        new_type: &MethodType,
        reorder: &[usize],
    ) -> Result<Value, AllocError>
        ensures value { IfOk result (λ v. view v ≡ tree_data self.now.definition.now
            (permute (tree_of target.now) new_type.now reorder.now)) }
    {
        let target = self.tree(target)?;
        let new_type = new_type.write(self.alloc).map_err(|_| AllocError)?;
        let reorder = places_json(self.alloc, reorder)?;
        json!(in self.alloc; ["permute", target, new_type, reorder])
    }

    // Returns the form of a target with filters of its arguments.
    #[cycle(tree)]
    fn filter(
        &self,
        target: &Node,
        position: usize,
        filters: &[Option<Arc<Node>>],
    ) -> Result<Value, AllocError>
        ensures value { IfOk result (λ v. view v ≡ tree_data self.now.definition.now
            (filter (tree_of target.now) position (filters_of (filter_trees filters.now)))) }
    {
        let target = self.tree(target)?;
        let filters = self.filters(filters)?;
        json!(in self.alloc; ["filter", target, position, filters])
    }

    // Returns a JSON array of filters.
    #[cycle(tree)]
    fn filters(&self, filters: &[Option<Arc<Node>>]) -> Result<Value, AllocError>
        ensures value { IfOk result (λ v. view v ≡ array
            (filters_data self.now.definition.now (filters_of (filter_trees filters.now)))) }
    {
        let mut list = Vec::new(self.alloc);
        for filter in filters {
            list.push(self.filter_or_null(filter)?)?;
        }
        Ok(Value::Array(list))
    }

    // Returns a filter, or `null` for none.
    #[cycle(tree)]
    fn filter_or_null(&self, filter: &Option<Arc<Node>>) -> Result<Value, AllocError>
        ensures value { IfOk result (λ v. view v ≡ filter_data self.now.definition.now
            (option_map (λ f. tree_of (arc_value f)) filter.now)) }
    {
        match filter {
            Some(filter) => self.tree(filter),
            None => Ok(Value::Null),
        }
    }

    // Returns the form of a target with a filter of its result.
    #[cycle(tree)]
    fn filter_return(&self, target: &Node, filter: &Node) -> Result<Value, AllocError>
        ensures value { IfOk result (λ v. view v ≡ tree_data self.now.definition.now
            (filter_return (tree_of target.now) (tree_of filter.now))) }
    {
        let target = self.tree(target)?;
        let filter = self.tree(filter)?;
        json!(in self.alloc; ["return", target, filter])
    }

    // Returns the form of a target whose first argument is the result of a combiner.
    #[cycle(tree)]
    fn fold(&self, target: &Node, combiner: &Node) -> Result<Value, AllocError>
        ensures value { IfOk result (λ v. view v ≡ tree_data self.now.definition.now
            (fold (tree_of target.now) (tree_of combiner.now))) }
    {
        let target = self.tree(target)?;
        let combiner = self.tree(combiner)?;
        json!(in self.alloc; ["fold", target, combiner])
    }

    // Returns the form of two branches and the test that chooses one.
    #[cycle(tree)]
    fn guard(&self, test: &Node, target: &Node, fallback: &Node) -> Result<Value, AllocError>
        ensures value { IfOk result (λ v. view v ≡ tree_data self.now.definition.now
            (guard (tree_of test.now) (tree_of target.now) (tree_of fallback.now))) }
    {
        let test = self.tree(test)?;
        let target = self.tree(target)?;
        let fallback = self.tree(fallback)?;
        json!(in self.alloc; ["guard", test, target, fallback])
    }

    // Returns the form of two branches and the name of the point that chooses one.
    #[cycle(tree)]
    fn point(&self, point: u32, target: &Node, fallback: &Node) -> Result<Value, AllocError>
        ensures value { IfOk result (λ v. view v ≡ tree_data self.now.definition.now
            (point_tree point (tree_of target.now) (tree_of fallback.now))) }
    {
        let target = self.tree(target)?;
        let fallback = self.tree(fallback)?;
        json!(in self.alloc; ["point", self.point_name(point), target, fallback])
    }
}

/// Returns a tree as compact JSON, in the form in which a definition declares it: points and sites
/// have their names in this definition, and a shared subtree is written out at each place. The
/// number of a point or site that is not in the definition gets the empty name; the trees of the
/// definition's own sites, and those that a world of it runs, have no such number.
///
/// serde_json reads the text of every tree within the limits of declared trees; a deeper tree may
/// be nested too deep for it.
///
/// Time and memory are linear in the tree's size and the lengths of its texts. Fails only if memory
/// runs out.
pub fn tree_json(
    alloc: Global,
    definition: &Definition,
    tree: &Handle,
) -> Result<String, AllocError>
    ensures value { IfOk result (λ s. string_bytes s ≡ tree_text definition.now tree.now.tree) }
    ensures reads_back { IfOk result (λ s. depth tree.now.tree ≤ greatest_declared_depth
        → read (string_bytes s) ≡ Some (tree_data definition.now tree.now.tree)) }
{
    let writer = Writer { alloc, definition };
    let value = writer.tree(tree.root())?;
    value.to_string(alloc)
}
