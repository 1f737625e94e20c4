//! Key tests among nodes.

ghost use Rattle.std.specs.Prelude.{◌≡◌, option_copied};
ghost use Rattle.mh_tree.specs.TreeOf.{tree_of};
ghost use Rattle.mh_pic.specs.Keys.{decided, equality_kind as kind_of_equality, first_key as first_key_in, key_in as key_in_tree, one_of_kind as one_of};

use mh_tree::Node;
use mh_type::{Kind, Op, Value, same_kinds, same_value};

// Returns the kind whose equality an operation is.
fn equality_kind(op: Op) -> Option<Kind>
    ensures value { result ≡ kind_of_equality op }
{
    match op {
        Op::Ieq => Some(Kind::Int),
        Op::Leq => Some(Kind::Long),
        Op::Beq => Some(Kind::Boolean),
        Op::Seq => Some(Kind::Text),
        _ => None,
    }
}

// Returns the key of a test of the first argument, or `None` for any other tree.
fn first_key(node: &Node) -> Option<&Value>
    ensures value { option_copied result ≡ first_key_in (tree_of node.now) }
{
    let Node::Insert {
        target,
        position,
        values,
    } = node
    else {
        return None;
    };
    let Node::Operation(op) = &**target else {
        return None;
    };
    if *position != 1 {
        return None;
    }
    one_of_kind(equality_kind(*op), values)
}

// Returns the only value of a list, if it has the kind.
fn one_of_kind(kind: Option<Kind>, values: &[Value]) -> Option<&Value>
    ensures value { option_copied result ≡ one_of kind values.now }
{
    let kind = kind?;
    match values {
        [value] if value.kind().is(kind) => Some(value),
        _ => None,
    }
}

/// Returns the key of a key test after these kinds, or `None` for any other tree.
pub fn key_in<'a>(node: &'a Node, before: &[Kind]) -> Option<&'a Value>
    ensures value { option_copied result ≡ key_in_tree before.now (tree_of node.now) }
{
    if before.is_empty() {
        return first_key(node);
    }
    let Node::Drop {
        target,
        position,
        kinds,
    } = node
    else {
        return None;
    };
    if *position != 0 || !same_kinds(before, kinds) {
        return None;
    }
    first_key(target)
}

/// Returns the answer of a key test if the argument is `key`, given the key that it tests. Returns
/// `None` if there is no such test, or if its key is of another kind.
pub fn decide_by_key(key: &Value, tested: Option<&Value>) -> Option<bool>
    ensures value { result ≡ decided key.now (option_copied tested.entry) }
{
    let tested = tested?;
    if tested.kind().is(key.kind()) {
        Some(same_value(key, tested))
    } else {
        None
    }
}
