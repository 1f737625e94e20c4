//! Testing whether trees invoke only sites that they may.

ghost use Rattle.std.specs.Prelude.{◌≡◌, ◌↔◌, ◌<◌, ◌≤◌, ℕ, All, IsTrue, length};
ghost use Rattle.mh_eval.specs.inner.Lawful.{may_invoke as may_be_invoked};
ghost use Rattle.mh_tree.specs.Limits.{greatest_level};
ghost use Rattle.mh_tree.specs.Sites.{IsLawful, InvokesBelow, level_at, target_at};
ghost use Rattle.mh_tree.specs.Typing.{IsTyped};
ghost use Rattle.mh_tree.specs.TreeOf.{tree_of};

use crate::evaluator::DEEPEST_LEVEL;
use mh_tree::{Handle, InvocationTest, Node, each_invocation};
use mh_type::MethodType;

/// Returns whether each level is at most 3, each site's tree invokes only sites of lower levels,
/// and each invocation, also in the handle's tree, is of a known site and has the type of its tree.
/// Linear in the size of all trees. That a handle's tree has its type is guaranteed by the handle
/// itself.
pub fn lawful(levels: &[u8], targets: &[Handle], handle: &Handle) -> bool
    ensures decides { IsTrue result ↔ IsLawful levels.now targets.now handle.now.tree }
{
    let are_low = are_low(levels);
    let are_lower = are_lower(levels, targets);
    let is_lawful = invokes_below(levels, targets, DEEPEST_LEVEL, handle.root());
    are_low && are_lower && is_lawful
}

// Returns whether each level is at most 3.
fn are_low(levels: &[u8]) -> bool
    ensures all { IsTrue result ↔ All (λ l. l ≤ greatest_level) levels.now }
{
    levels.iter().all(|level| *level < DEEPEST_LEVEL)
}

// Returns whether each site's tree invokes only sites of lower levels, with their types.
fn are_lower(levels: &[u8], targets: &[Handle]) -> bool
    ensures all { IsTrue result ↔ ((s : ℕ) → s < length targets.now → InvokesBelow
        levels.now targets.now (level_at levels.now s) (target_at targets.now s).tree) }
    ensures typed { IsTrue result → (s : ℕ) → s < length targets.now → IsTyped
        (target_at targets.now s).tree (target_at targets.now s).signature }
{
    for (site, target) in targets.iter().enumerate() {
        let level = level_of(levels, site);
        if !invokes_below(levels, targets, level, target.root()) {
            return false;
        }
    }
    true
}

// Returns the level of a site, or 0 if it has none.
fn level_of(levels: &[u8], site: usize) -> u8
    ensures value { result ≡ level_at levels.now site }
{
    match levels.get(site) {
        Some(level) => *level,
        None => 0,
    }
}

// Returns whether a tree invokes only sites below a level, with their types.
fn invokes_below(levels: &[u8], targets: &[Handle], level: u8, node: &Node) -> bool
    ensures decides { IsTrue result ↔ InvokesBelow levels.now targets.now level
        (tree_of node.now) }
{
    let test = Below {
        levels,
        targets,
        level,
    };
    each_invocation(&test, node)
}

// Tests that an invocation names a site below a level, and has the type of its tree.
#[derive(Clone, Copy)]
struct Below<'a> {
    levels: &'a [u8],
    targets: &'a [Handle],
    level: u8,
}

impl<'a> InvocationTest for Below<'a> {
    ghost use Rattle.mh_eval.specs.inner.Lawful.{may_invoke};

    ghost holds = { λ t s n. may_invoke t.levels.now t.targets.now t.level s n };

    fn passes(&self, site: u32, method_type: &MethodType) -> bool {
        may_invoke(
            self.levels,
            self.targets,
            self.level,
            site as usize,
            method_type,
        )
    }
}

// Returns whether a site is below a level and its tree has the type.
fn may_invoke(
    levels: &[u8],
    targets: &[Handle],
    level: u8,
    site: usize,
    method_type: &MethodType,
) -> bool
    ensures value { result ≡ may_be_invoked levels.now targets.now level site method_type.now }
{
    if site >= targets.len() || site >= levels.len() {
        return false;
    }
    levels[site] < level && method_type.equals(targets[site].method_type())
}
