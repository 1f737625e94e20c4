//! Laws of invocations. The function computes nothing.

ghost use Rattle.std.specs.Prelude.{◌≡◌, ℕ, suc, Bool, List};
ghost use Rattle.mh_type.specs.declared.value.Value.{Value};
ghost use Rattle.mh_type.specs.Signature.{Signature};
ghost use Rattle.mh_tree.specs.Handle.{TypedTree};
ghost use Rattle.mh_tree.specs.Limits.{greatest_level};
ghost use Rattle.mh_tree.specs.Meaning.{mean, steps};
ghost use Rattle.mh_tree.specs.Sites.{IsLawful, MayInvoke, target_at, with_sites};
ghost use Rattle.mh_tree.specs.Tree.{Tree};

/// Proves that, if each site has a tree, and the trees are lawful, an invocation of a site means
/// the site's tree on the same arguments, and takes the tree's steps besides its own.
pub fn invocations_mean_trees()
    ensures means { (valid : List Bool) → (levels : List ℕ) → (targets : List TypedTree)
        → (t : Tree) → IsLawful levels targets t → (s : ℕ) → (n : Signature)
        → MayInvoke levels targets (suc greatest_level) s n → (a : List Value)
        → (with_sites valid targets).calls s a
        ≡ mean (with_sites valid targets) (target_at targets s).tree a }
    ensures costs { (valid : List Bool) → (levels : List ℕ) → (targets : List TypedTree)
        → (t : Tree) → IsLawful levels targets t → (s : ℕ) → (n : Signature)
        → MayInvoke levels targets (suc greatest_level) s n → (a : List Value)
        → (with_sites valid targets).call_steps s a
        ≡ steps (with_sites valid targets) (target_at targets s).tree a }
{}
