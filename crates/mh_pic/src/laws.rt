//! Laws of the definitions: the behaviour of specialised trees and chains, for every tree. The
//! functions compute nothing.

ghost use Rattle.std.specs.Prelude.{◌≡◌, ◌<◌, ◌≤◌, ℕ, Bool, false, true, List, Some, length, map, take};
ghost use Rattle.mh_type.specs.declared.kind.Kind.{Kind};
ghost use Rattle.mh_type.specs.declared.outcome.Outcome.TheVariants as outcome;
ghost use Rattle.mh_type.specs.declared.value.Value.{Value};
ghost use Rattle.mh_type.specs.declared.value.Value.TheVariants as value;
ghost use Rattle.mh_type.specs.Kinds.{kind_of};
ghost use Rattle.mh_type.specs.Signature.{Signature};
ghost use Rattle.mh_tree.specs.Arity.{arity};
ghost use Rattle.mh_tree.specs.Limits.{depth, size, point_bound, greatest_declared_depth, most_declared_nodes};
ghost use Rattle.mh_tree.specs.Meaning.{mean, steps, argument};
ghost use Rattle.mh_tree.specs.Tree.{Tree};
ghost use Rattle.mh_tree.specs.Typing.{IsTyped, kind_at};
ghost use Rattle.mh_type.specs.Values.{same_value};
ghost use Rattle.mh_pic.specs.Keys.{key_test, key_in};
ghost use Rattle.mh_pic.specs.Specialised.{AreValid, NamesNone, Resolves, Retires, retired, retired_tree, specialised};
ghost use Rattle.mh_pic.specs.Chains.{PlainEntry, IsFaithful, AreFaithful, HaveKind, HaveFewNeeds, HaveNeedsBelow, chain};
ghost use Rattle.mh_type.specs.Limits.{most_parameters};
ghost use Rattle.mh_pic.specs.Limits.{most_entries, deepest_chain, most_chain_nodes};
ghost use Rattle.mh_tree.specs.Environment.{Environment};
ghost use Rattle.mh_tree.specs.Handle.{TypedTree};
ghost use Rattle.mh_tree.specs.Sites.{InvokesBelow, IsLawful, target_at, with_sites};
ghost use Rattle.mh_type.specs.Fits.{Fits};

/// Proves that a key test answers whether the argument at the key position is its key, if it is of
/// the key's kind; and that `key_in` returns the key of each key test, and none for any other tree.
pub fn key_tests_ask_for_keys()
    ensures answers { (v : Environment) → (kinds : List Kind) → (key : Value) → (a : List Value)
        → length kinds < length a → kind_of (argument a (length kinds)) ≡ kind_of key
        → mean v (key_test kinds key) (take (arity (key_test kinds key)) a) ≡ outcome.Value
        (value.Boolean (same_value (argument a (length kinds)) key)) }
    ensures equal { (x : Value) → (y : Value) → same_value x y ≡ true → x ≡ y }
    ensures shown { (kinds : List Kind) → (key : Value)
        → key_in kinds (key_test kinds key) ≡ Some key }
    ensures alone { (kinds : List Kind) → (t : Tree) → (key : Value) → key_in kinds t ≡ Some key
        → t ≡ key_test kinds key }
{}

/// Proves that a specialised tree has the type of its tree and names no need; that it is no deeper
/// and no larger, and names no other point. If all needs are valid and the argument at the key
/// position is the key, it returns what the tree returns, in at most as many steps.
pub fn specialised_trees_agree()
    ensures same { (needs : List ℕ) → (kinds : List Kind) → (key : Value) → (v : Environment)
        → AreValid v needs → (a : List Value) → length kinds < length a
        → argument a (length kinds) ≡ key → (t : Tree)
        → mean v (specialised needs kinds key t) a ≡ mean v t a }
    ensures quick { (needs : List ℕ) → (kinds : List Kind) → (key : Value) → (v : Environment)
        → AreValid v needs → (a : List Value) → length kinds < length a
        → argument a (length kinds) ≡ key → (t : Tree)
        → steps v (specialised needs kinds key t) a ≤ steps v t a }
    ensures typed { (needs : List ℕ) → (kinds : List Kind) → (key : Value) → (t : Tree)
        → (m : Signature) → IsTyped t m → IsTyped (specialised needs kinds key t) m }
    ensures unnamed { (needs : List ℕ) → (kinds : List Kind) → (key : Value) → (t : Tree)
        → NamesNone needs (specialised needs kinds key t) }
    ensures shallow { (needs : List ℕ) → (kinds : List Kind) → (key : Value) → (t : Tree)
        → depth (specialised needs kinds key t) ≤ depth t }
    ensures small { (needs : List ℕ) → (kinds : List Kind) → (key : Value) → (t : Tree)
        → size (specialised needs kinds key t) ≤ size t }
    ensures bound { (needs : List ℕ) → (kinds : List Kind) → (key : Value) → (t : Tree)
        → point_bound (specialised needs kinds key t) ≤ point_bound t }
{}

/// Proves that a tree in which points are replaced by their fallbacks has the type of its tree and
/// names none of them; it is the tree itself if that named none of them. It is no deeper and no
/// larger, names no other point, and invokes what its tree invokes. It returns what the tree
/// returned when these points were invalid, in at most as many steps, whether they are now valid or
/// not; and so does each site's tree, if these points are replaced in all sites' trees.
pub fn retired_points_keep_meaning()
    ensures same { (ps : List ℕ) → (v : Environment) → (w : Environment) → Resolves false ps v w
        → (t : Tree) → (m : Signature) → IsTyped t m → (a : List Value)
        → mean w (retired ps t) a ≡ mean v t a }
    ensures quick { (ps : List ℕ) → (v : Environment) → (w : Environment) → Resolves false ps v w
        → (t : Tree) → (m : Signature) → IsTyped t m → (a : List Value)
        → steps w (retired ps t) a ≤ steps v t a }
    ensures sites { (ps : List ℕ) → (old : List Bool) → (new : List Bool)
        → (targets : List TypedTree) → Retires ps old new
        → ((s : ℕ) → s < length targets → IsTyped (target_at targets s).tree
        (target_at targets s).signature)
        → Resolves false ps (with_sites old targets)
        (with_sites new (map (retired_tree ps) targets)) }
    ensures typed { (ps : List ℕ) → (t : Tree) → (m : Signature) → IsTyped t m
        → IsTyped (retired ps t) m }
    ensures unnamed { (ps : List ℕ) → (t : Tree) → NamesNone ps (retired ps t) }
    ensures stays { (ps : List ℕ) → (t : Tree) → NamesNone ps t → retired ps t ≡ t }
    ensures shallow { (ps : List ℕ) → (t : Tree) → depth (retired ps t) ≤ depth t }
    ensures small { (ps : List ℕ) → (t : Tree) → size (retired ps t) ≤ size t }
    ensures bound { (ps : List ℕ) → (t : Tree) → point_bound (retired ps t) ≤ point_bound t }
    ensures invokes { (ps : List ℕ) → (t : Tree) → (levels : List ℕ) → (targets : List TypedTree)
        → (l : ℕ) → InvokesBelow levels targets l t → InvokesBelow levels targets l (retired ps t) }
{}

/// Proves that a chain has the type of its base, and returns what its base returns, whichever
/// points are valid. It names only points of its base and of its needs, and invokes what its base
/// invokes. With at most 4 entries of at most 8 needs, over a declared tree, it is at most 76 deep
/// and has at most 151,600 nodes.
pub fn chains_are_faithful()
    ensures faithful { (m : Signature) → (q : ℕ) → q < length m.parameters
        → length m.parameters ≤ most_parameters → (base : Tree) → IsTyped base m
        → (entries : List PlainEntry) → HaveKind (kind_at m.parameters q) entries
        → IsFaithful (chain (take q m.parameters) base entries) base m }
    ensures deep { (kinds : List Kind) → (base : Tree) → (entries : List PlainEntry)
        → HaveFewNeeds entries → length entries ≤ most_entries
        → depth base ≤ greatest_declared_depth → depth (chain kinds base entries) ≤ deepest_chain }
    ensures large { (kinds : List Kind) → (base : Tree) → (entries : List PlainEntry)
        → HaveFewNeeds entries → length entries ≤ most_entries → size base ≤ most_declared_nodes
        → size (chain kinds base entries) ≤ most_chain_nodes }
    ensures bound { (kinds : List Kind) → (base : Tree) → (entries : List PlainEntry) → (n : ℕ)
        → HaveNeedsBelow n entries → point_bound base ≤ n
        → point_bound (chain kinds base entries) ≤ n }
    ensures invokes { (kinds : List Kind) → (base : Tree) → (entries : List PlainEntry)
        → (levels : List ℕ) → (targets : List TypedTree) → (l : ℕ)
        → InvokesBelow levels targets l base
        → InvokesBelow levels targets l (chain kinds base entries) }
{}

/// Proves that every lawful tree keeps its meaning if faithful trees replace the sites' bases.
pub fn faithful_trees_keep_meaning()
    ensures same { (valid : List Bool) → (levels : List ℕ) → (trees : List TypedTree)
        → (bases : List TypedTree) → AreFaithful trees bases → (t : Tree) → (m : Signature)
        → IsTyped t m → IsLawful levels bases t → (a : List Value) → Fits m a
        → mean (with_sites valid trees) t a ≡ mean (with_sites valid bases) t a }
{}
