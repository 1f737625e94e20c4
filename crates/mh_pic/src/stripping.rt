//! Removing needed points from trees.

ghost use Rattle.std.specs.Prelude.{◌≡◌, IfOk};
ghost use Rattle.std.specs.Option.{is_some};
ghost use Rattle.mh_tree.specs.TreeOf.{tree_of};
ghost use Rattle.mh_pic.specs.Specialised.{names, stripped};
ghost use Rattle.mh_pic.specs.Outcomes.{made_or};

use crate::resolving::resolve;
use mh_base::NoMemory;
use mh_tree::Node;
use std::alloc::Global;
use std::sync::Arc;

/// Returns the tree with each needed point replaced by its target, or `None` if and only if it
/// names none of them, so that a caller keeps the old part. The result shares the parts that do not
/// change. It takes time linear in the size, times the number of needs at each point, and no time
/// without needs. Fails only with `NoMemory`.
pub fn strip(alloc: Global, node: &Node, needs: &[u32]) -> Result<Option<Arc<Node>>, NoMemory>
    ensures value { IfOk result (λ o. made_or o (tree_of node.now) ≡ stripped needs.now
        (tree_of node.now)) }
    ensures made { IfOk result (λ o. is_some o ≡ names needs.now (tree_of node.now)) }
{
    resolve(alloc, node, needs, true)
}
