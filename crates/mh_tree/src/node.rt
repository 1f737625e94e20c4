//! The nodes of a handle tree.

ghost use Rattle.std.specs.Prelude.{◌≡◌, ◌<◌, ◌≤◌, List, drop, length, slice_set};
ghost use Rattle.mh_type.specs.declared.kind.Kind.{Kind};
ghost use Rattle.mh_type.specs.Signature.{Signature};
ghost use Rattle.mh_tree.specs.Tree.{filters_of};
ghost use Rattle.mh_tree.specs.TreeOf.{tree_of, filter_trees};
ghost use Rattle.mh_tree.specs.TypeOf.{type_of, filtered_kinds};
ghost use Rattle.mh_tree.specs.Typing.{IsTyped, AreTyped};
ghost use Rattle.mh_type.specs.Limits.{most_parameters};

use mh_type::{Kind, MethodType, Op, Value};
use std::sync::Arc;

/// A tree of combinators, with one variant for each. A node is one of several owners of its parts,
/// with other nodes and handles. A node by itself is not a handle: `Handle` lends nodes of trees
/// that are typed and within limits.
#[derive(Debug, Drop)]
pub enum Node {
    /// `MethodHandles.constant`.
    Constant(Value),
    /// `MethodHandles.identity`.
    Identity(Kind),
    /// A leaf operation.
    Operation(Op),
    /// `MethodHandles.insertArguments`.
    Insert {
        target: Arc<Node>,
        position: usize,
        values: Vec<Value>,
    },
    /// `MethodHandles.dropArguments`.
    Drop {
        target: Arc<Node>,
        position: usize,
        kinds: Vec<Kind>,
    },
    /// `MethodHandles.permuteArguments`.
    Permute {
        target: Arc<Node>,
        new_type: MethodType,
        reorder: Vec<usize>,
    },
    /// `MethodHandles.filterArguments`; `None` in place of a filter leaves the argument unchanged.
    Filter {
        target: Arc<Node>,
        position: usize,
        filters: Vec<Option<Arc<Node>>>,
    },
    /// `MethodHandles.filterReturnValue`.
    FilterReturn {
        target: Arc<Node>,
        filter: Arc<Node>,
    },
    /// `MethodHandles.foldArguments`.
    Fold {
        target: Arc<Node>,
        combiner: Arc<Node>,
    },
    /// `MethodHandles.guardWithTest`.
    Guard {
        test: Arc<Node>,
        target: Arc<Node>,
        fallback: Arc<Node>,
    },
    /// `SwitchPoint.guardWithTest`.
    Point {
        point: u32,
        target: Arc<Node>,
        fallback: Arc<Node>,
    },
    /// `MutableCallSite.dynamicInvoker`.
    Invoke {
        site: u32,
        method_type: MethodType,
    },
}

impl Node {
    /// Returns the type of the node's tree. The tree must be typed, as that of each node of a
    /// handle's tree is. The type is computed from the parts, in time linear in the size.
    pub fn method_type(&self) -> MethodType
        requires typed { (m : Signature) × IsTyped (tree_of self.now) m }
        ensures value { result ≡ type_of (tree_of self.now) }
        ensures is { IsTyped (tree_of self.now) result }
    {
        self.computed_type()
    }

    // Returns whether the node has no parts.
    pub(crate) fn is_leaf(&self) -> bool {
        match self {
            Node::Constant(_) | Node::Identity(_) | Node::Operation(_) | Node::Invoke { .. } =>
                true,
            _ => false,
        }
    }

    // Returns the type, computed from the parts.
    #[cycle(types)]
    fn computed_type(&self) -> MethodType
        requires typed { (m : Signature) × IsTyped (tree_of self.now) m }
        ensures value { result ≡ type_of (tree_of self.now) }
    {
        match self {
            Node::Constant(value) => MethodType::nullary(value.kind()),
            Node::Identity(kind) => MethodType::unary(*kind, *kind),
            Node::Operation(op) => op.op_type(),
            Node::Insert {
                target,
                position,
                values,
            } => target.computed_type().remove(*position, values.len()),
            Node::Drop {
                target,
                position,
                kinds,
            } => {
                let Ok(made) = target.computed_type().insert(*position, kinds) else {
                    unreachable!()
                };
                made
            }
            Node::Permute { new_type, .. } => new_type.copy(),
            Node::Invoke { method_type, .. } => method_type.copy(),
            Node::Filter {
                target,
                position,
                filters,
            } => filtered_type(target.computed_type(), *position, filters),
            Node::FilterReturn { target, filter } => {
                target
                    .computed_type()
                    .returning(filter.computed_type().ret())
            }
            Node::Fold { target, .. } => target.computed_type().remove(0, 1),
            Node::Guard { target, .. } | Node::Point { target, .. } => target.computed_type(),
        }
    }
}

// Returns the target's type with each filter's parameter in its place.
#[cycle(types)]
fn filtered_type(target: MethodType, position: usize, filters: &[Option<Arc<Node>>]) -> MethodType
    requires typed { (new : List Kind) × AreTyped (filters_of (filter_trees filters.now))
        (drop position target.parameters) new }
    requires few { length target.parameters ≤ most_parameters }
    ensures value { result ≡ record {
      ret = target.ret;
      parameters = filtered_kinds
          (filters_of (filter_trees filters.now)) position target.parameters;
    } }
{
    let mut made = target;
    for (index, filter) in filters.iter().enumerate() {
        if let Some(filter) = filter {
            let kind = filter.computed_type().parameter(0);
            made = with_parameter(&made, position + index, kind);
        }
    }
    made
}

// Returns the type with the kind of one parameter replaced.
pub(crate) fn with_parameter(method_type: &MethodType, place: usize, kind: Kind) -> MethodType
    requires inside { place < length method_type.now.parameters }
    requires few { length method_type.now.parameters ≤ most_parameters }
    ensures value { result ≡ record {
      ret = method_type.now.ret;
      parameters = slice_set
          method_type.now.parameters place kind;
    } }
{
    let Ok(made) = method_type.remove(place, 1).insert(place, &[kind]) else {
        unreachable!()
    };
    made
}
