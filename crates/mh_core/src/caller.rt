//! Calls of a site: the tests, the answer and the hit, as all callers of a world share them.

ghost use Rattle.std.specs.Prelude.{◌≡◌, ◌<◌, ◌↔◌, List, length, slice_set, IfErr, IfOk, IfSome, IfNone, IsOk, IsTrue, OnOk};
ghost use Rattle.mh_eval.specs.Entered.{EntersPlain};
ghost use Rattle.mh_ledger.specs.Ledgers.{AreHeld, Holds, LedgerState, TotalsState, at, with_hit};
ghost use Rattle.mh_tree.specs.Meaning.{mean, steps};
ghost use Rattle.mh_site.specs.Defined.{DefinitionData};
ghost use Rattle.mh_site.specs.Worlds.{environment_of_bases, environment_of_links, linked_sites, state_at};
ghost use Rattle.mh_core.specs.Callers.{IsCallable, RefusesCallee};
ghost use Rattle.mh_core.specs.Hits.{IsHitLink};
ghost use Rattle.mh_core.specs.Standing.{IsWorldOf};

use crate::hits::hit_link;
use mh_base::NoMemory;
use mh_eval::fits;
use mh_ledger::Ledger;
use mh_run::{Here, Stack, run};
use mh_site::{Definition, World};
use mh_type::{Outcome, Value};
use thiserror::Error;

/// The reason why a site cannot be called with some arguments.
#[derive(Clone, Copy, Debug, PartialEq, Eq, Error)]
pub enum CalleeFault {
    /// The site does not exist.
    #[error("NoSite")]
    NoSite,
    /// The arguments do not fit the site's type.
    #[error("WrongType")]
    WrongType,
}

/// Returns the link that a call hits, or `None` if it hits none. At most four keys are compared.
///
/// Fails with `NoSite` if there is no such site, and with `WrongType` if the arguments do not fit
/// its type.
#[inline(always)]
pub fn test_callee(
    definition: &Definition,
    site: usize,
    arguments: &[Value],
) -> Result<Option<usize>, CalleeFault>
    ensures callable { OnOk result (IsCallable definition.now site arguments.now) }
    ensures link { IfOk result (IsHitLink definition.now site arguments.now) }
    ensures refused { IfErr result (RefusesCallee definition.now site arguments.now) }
{
    if site >= definition.sites().len() {
        return Err(CalleeFault::NoSite);
    }
    if !fits(definition.method_type(site), arguments) {
        return Err(CalleeFault::WrongType);
    }
    Ok(hit_link(definition, site, arguments))
}

/// Returns whether a ledger has room for the hit of a call. It always has if the call hits no link.
#[inline(always)]
pub fn has_room(ledger: &Ledger, link: Option<usize>) -> bool
    requires inside { IfSome link (λ j. j < length ledger.now.unflushed) }
    ensures decides { IsTrue result
        ↔ IfSome link (λ j. at ledger.now.unflushed j < ledger.now.limit) }
{
    // Names the invariant of the ledger for the proof.
    let _limit = ledger.limit();
    match link {
        Some(link) => !ledger.is_full(link),
        None => true,
    }
}

/// Counts the hit of a call for which a ledger has room: one more hit of the link, and of no other.
/// A ledger that totals hold remains held.
#[inline(always)]
pub fn count(ledger: &mut Ledger, link: Option<usize>)
    requires room { IfSome link (λ j. (j < length ledger.old.unflushed)
        × (at ledger.old.unflushed j < ledger.old.limit)) }
    ensures hit { IfSome link (λ j. ledger.new ≡ with_hit ledger.old j) }
    ensures none { IfNone link (ledger.new ≡ ledger.old) }
    ensures all { IfSome link (λ _. (t : TotalsState) → (ledgers : List LedgerState)
        → Holds t ledger.old → AreHeld t ledgers
        → AreHeld t (slice_set ledgers ledger.old.worker ledger.new)) }
{
    if let Some(link) = link {
        // The ledger has room, so this does not fail.
        let _counted = ledger.hit(link);
    }
}

/// Returns the outcome of a call of a site in a world of a definition, and the number of nodes
/// evaluated (`MutableCallSite.dynamicInvoker`). It runs the site's linked tree, over the linked
/// trees. The outcome is what the site's base tree means over the base trees.
///
/// Fails only with `NoMemory`, and never if no node that is evaluated has String in its type.
#[inline(always)]
pub fn evaluate(
    stack: &mut Stack,
    world: &World,
    site: usize,
    arguments: &[Value],
) -> Result<(Outcome, u128), NoMemory>
    requires callable { (d : DefinitionData) × (IsWorldOf d world.now
        × IsCallable d site arguments.now) }
    ensures outcome { IfOk result (λ r. r.0 ≡ mean (environment_of_bases world.now)
        (state_at world.now site).base.tree arguments.now) }
    ensures steps { IfOk result (λ r. r.1 ≡ steps (environment_of_links world.now)
        (state_at world.now site).linked.tree arguments.now) }
    ensures memory { EntersPlain (linked_sites world.now) (state_at world.now site).linked.tree
        arguments.now → IsOk result }
{
    let here = Here {
        valid: world.valid(),
        targets: world.prepared_all(),
    };
    run(stack, &here, world.prepared(site), arguments)
}
