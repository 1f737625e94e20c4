//! Chains of key tests: as trees, and as prepared handles.
ghost use Rattle.std.specs.Prelude.{◌≡◌, take, IfOk, ◌<◌, ◌≤◌, length};
ghost use Rattle.mh_tree.specs.Handle.{IsDeclared};
ghost use Rattle.mh_pic.specs.Chains.{chain as chain_of, IsFaithful, MayChain, points as points_of};
ghost use Rattle.mh_type.specs.Kinds.{kind_of};
ghost use Rattle.mh_tree.specs.Limits.{depth, size};
ghost use Rattle.mh_tree.specs.Tree.{guard as guard_tree};
ghost use Rattle.mh_tree.specs.Typing.{kind_at};
ghost use Rattle.mh_pic.specs.Keys.{key_test as key_test_of};
ghost use Rattle.mh_pic.specs.Specialised.{specialised};
ghost use Rattle.mh_type.specs.Limits.{most_parameters};
ghost use Rattle.mh_base.specs.Limits.{most_needs};
ghost use Rattle.mh_pic.specs.Limits.{deepest_chain, most_chain_nodes};

use crate::entry::Entry;
use crate::fault::expect_made;
use crate::key_tests::key_test;
use crate::specialising::specialise_changed;
use mh_base::NoMemory;
use mh_code::Prepared;
use mh_tree::{Declared, Handle};
use std::alloc::Global;

/// Returns the inline cache of a site with this base tree (Hölzle, Chambers and Ungar, Optimizing
/// Dynamically-Typed Object-Oriented Languages With Polymorphic Inline Caches, 1991).
///
/// *Type*: that of the base.
///
/// *Pseudo-code*: for the entries in order, `adapter(a..) = if a[key_place] == key { if
/// valid[needs[0]] && .. { specialised(a..) } else { base(a..) } } else { the rest of the entries,
/// and finally base(a..) }`, where `specialised` is the result of `specialise` for the base.
///
/// *Example*: over a base of type `(int)int` with point 0, the single entry with key 1 and need 0
/// makes `guard(ieq with 1 inserted, point(0, the base specialised for 1 without point 0, base),
/// base)`.
///
/// The handle returns what the base returns, whichever points are valid. It takes time linear in
/// the size of the base, for each entry. `may_chain` tests the preconditions: there are at most 4
/// entries, each with at most 8 needs; the key position is that of a parameter, and each key is of
/// its kind.
pub fn chain(
    alloc: Global,
    base: &Declared,
    key_place: usize,
    entries: &[Entry],
) -> Result<Handle, NoMemory>
    requires may { MayChain base.now.signature key_place entries.now }
    ensures value { IfOk result (λ h. h ≡ record {
      tree = chain_of
          (take key_place base.now.signature.parameters) base.now.tree entries.now;
      signature
          = base.now.signature;
    }) }
    ensures faithful { IfOk result (λ h. IsFaithful h.tree base.now.tree base.now.signature) }
{
    let base = base.handle();
    // The type is the tree's, and has at most 16 parameters.
    let _typed = base.method_type().parameters();
    let cache = chain_over(alloc, base, key_place, entries)?;
    Ok(cache)
}

// Returns the cache over a base that is within the limits of declared trees.
fn chain_over(
    alloc: Global,
    base: &Handle,
    key_place: usize,
    entries: &[Entry],
) -> Result<Handle, NoMemory>
    requires declared { IsDeclared base.now }
    requires may { MayChain base.now.signature key_place entries.now }
    ensures value { IfOk result (λ h. h ≡ record {
      tree = chain_of
          (take key_place base.now.signature.parameters) base.now.tree entries.now;
      signature
          = base.now.signature;
    }) }
{
    let prepared = Prepared::new(alloc, base)?;
    let chained = prepared_chain(alloc, &prepared, key_place, entries)?;
    let cache = handle_of(&chained)?;
    Ok(cache)
}

// Returns the handle without its code.
fn handle_of(prepared: &Prepared) -> Result<Handle, NoMemory>
    ensures value { IfOk result (λ h. h ≡ prepared.now) }
{
    prepared.handle().share()
}

/// Returns the inline cache of `chain` with its code. The code of the base is shared: only key
/// tests and specialised trees are prepared. The base must be within the limits of declared trees;
/// the other preconditions are those of `chain`. An installation installs these caches.
pub fn prepared_chain(
    alloc: Global,
    base: &Prepared,
    key_place: usize,
    entries: &[Entry],
) -> Result<Prepared, NoMemory>
    requires declared { IsDeclared base.now }
    requires may { MayChain base.now.signature key_place entries.now }
    ensures value { IfOk result (λ p. p ≡ record {
      tree = chain_of
          (take key_place base.now.signature.parameters) base.now.tree entries.now;
      signature
          = base.now.signature;
    }) }
    ensures faithful { IfOk result (λ p. IsFaithful p.tree base.now.tree base.now.signature) }
{
    // The type is the tree's, and has at most 16 parameters.
    let _typed = base.handle().method_type().parameters();
    let cache = link_all(alloc, base, key_place, entries)?;
    Ok(cache)
}

// Returns the guards of all entries, the last over the base.
fn link_all(
    alloc: Global,
    base: &Prepared,
    key_place: usize,
    entries: &[Entry],
) -> Result<Prepared, NoMemory>
    requires declared { IsDeclared base.now }
    requires may { MayChain base.now.signature key_place entries.now }
    ensures value { IfOk result (λ p. p ≡ record {
      tree = chain_of
          (take key_place base.now.signature.parameters) base.now.tree entries.now;
      signature
          = base.now.signature;
    }) }
{
    let Some((entry, rest)) = entries.split_first() else {
        return base.share();
    };
    let others = link_all(alloc, base, key_place, rest)?;
    let cache = link(alloc, base, key_place, entry, &others)?;
    Ok(cache)
}

// Returns the guard of an entry over the cache of the others.
fn link(
    alloc: Global,
    base: &Prepared,
    key_place: usize,
    entry: &Entry,
    others: &Prepared,
) -> Result<Prepared, NoMemory>
    requires declared { IsDeclared base.now }
    requires inside { key_place < length base.now.signature.parameters }
    requires key { kind_of entry.now.key ≡ kind_at base.now.signature.parameters key_place }
    requires few_needs { length entry.now.needs ≤ most_needs }
    requires same { others.now.signature ≡ base.now.signature }
    requires shallow { depth others.now.tree ≤ deepest_chain }
    requires small { size others.now.tree ≤ most_chain_nodes }
    ensures value { IfOk result (λ p. p ≡ record {
      tree = guard_tree
          (key_test_of (take key_place base.now.signature.parameters) entry.now.key)
          (points_of entry.now.needs (specialised entry.now.needs
          (take key_place base.now.signature.parameters) entry.now.key base.now.tree) base.now.tree)
          others.now.tree;
      signature = base.now.signature;
    }) }
{
    let handle = base.handle();
    let before = &handle.method_type().parameters()[..key_place];
    let test = Prepared::new(alloc, &key_test(alloc, before, entry.key())?)?;
    let target = specialised_base(alloc, base, key_place, entry)?;
    let target = points(alloc, entry.needs(), &target, base)?;
    let cache = expect_made(Prepared::guard(alloc, &test, &target, others))?;
    Ok(cache)
}

// Returns the base specialised for an entry, with its code, which is the base's if the tree is the
// same.
fn specialised_base(
    alloc: Global,
    base: &Prepared,
    key_place: usize,
    entry: &Entry,
) -> Result<Prepared, NoMemory>
    requires inside { key_place < length base.now.signature.parameters }
    ensures value { IfOk result (λ p. p ≡ record {
      tree = specialised entry.now.needs
          (take key_place base.now.signature.parameters) entry.now.key base.now.tree;
      signature = base.now.signature;
    }) }
{
    match specialise_changed(alloc, base.handle(), entry.needs(), key_place, entry.key())? {
        Some(made) => Prepared::new(alloc, &made),
        None => base.share(),
    }
}

// Returns the handle that runs the target while all these points are valid, and otherwise the base.
fn points(
    alloc: Global,
    needs: &[u32],
    target: &Prepared,
    base: &Prepared,
) -> Result<Prepared, NoMemory>
    requires first { IsDeclared target.now }
    requires second { IsDeclared base.now }
    requires same { target.now.signature ≡ base.now.signature }
    requires parameters { length base.now.signature.parameters ≤ most_parameters }
    requires few { length needs.now ≤ most_needs }
    ensures value { IfOk result (λ p. p ≡ record {
      tree = points_of needs.now target.now.tree
          base.now.tree;
      signature = base.now.signature;
    }) }
{
    let Some((need, rest)) = needs.split_first() else {
        return target.share();
    };
    let inner = points(alloc, rest, target, base)?;
    let switched = expect_made(Prepared::point(alloc, *need, &inner, base))?;
    Ok(switched)
}
