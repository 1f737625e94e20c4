//! The limits of a handle's tree.

ghost use Rattle.std.specs.Prelude.{◌≡◌, ◌≤◌, Ok, Err, length, IfOk, MatchResult};
ghost use Rattle.mh_tree.specs.Constructors.{within_limits as made_within_limits};
ghost use Rattle.mh_tree.specs.Handle.{IsSound};
ghost use Rattle.mh_tree.specs.Limits.{depth as tree_depth, size as tree_size};
ghost use Rattle.mh_tree.specs.Tree.{Tree};
ghost use Rattle.mh_tree.specs.Typing.{IsTyped};
ghost use Rattle.mh_type.specs.Limits.{most_parameters};

use crate::fault::TreeFault;
use mh_type::MethodType;

/// The greatest depth of a handle's tree.
pub const DEEPEST: usize = 96;

/// The greatest size of a handle's tree.
pub const LARGEST: usize = 262_144;

// Returns the type of a tree of this depth and this size, if it may be made. `TooDeep` comes before
// `TooLarge`; a `MethodType` has at most 16 parameters anyway.
pub(crate) fn within_limits(
    method_type: MethodType,
    depth: usize,
    size: usize,
) -> Result<MethodType, TreeFault>
    requires few { length method_type.parameters ≤ most_parameters }
    ensures value { (t : Tree) → depth ≡ tree_depth t → size ≡ tree_size t
        → MatchResult result (λ m. made_within_limits (record { tree = t; signature = method_type })
        ≡ Ok (record { tree = t; signature = m }))
        (λ e. made_within_limits (record { tree = t; signature = method_type }) ≡ Err e) }
    ensures sound { (t : Tree) → depth ≡ tree_depth t → size ≡ tree_size t → IsTyped t method_type
        → IfOk result (λ m. IsSound t m) }
{
    if depth > DEEPEST {
        return Err(TreeFault::TooDeep);
    }
    if size > LARGEST {
        return Err(TreeFault::TooLarge);
    }
    Ok(method_type)
}
