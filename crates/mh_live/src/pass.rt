//! Passes, through which workers make calls without a lock.

ghost use Rattle.std.specs.Prelude.{◌≡◌, ◌+◌, ◌<◌, ◌≤◌, ◌⊎◌, ◌∷◌, ℕ, [], length, true, false, IfOk, IfErr, IfSome, IfNone, IsOk, OnOk, OnErr};
ghost use mathlib.Core.List.{IsPrefix};
ghost use Rattle.left_right.specs.Sides.{view as view_of};
ghost use Rattle.mh_type.specs.Fits.{Fits};
ghost use Rattle.mh_tree.specs.Meaning.{mean, steps};
ghost use Rattle.mh_ledger.specs.Ledgers.{at, made, with_hit};
ghost use Rattle.mh_site.specs.Defined.{site_at};
ghost use Rattle.mh_site.specs.Links.{links};
ghost use Rattle.mh_site.specs.Worlds.{environment_of_bases, environment_of_links, state_at};
ghost use Rattle.mh_core.specs.Callers.{Counts, IsCallable};
ghost use Rattle.mh_live.specs.Calls.{MayCall, AnswersBy, RefusesCall, IsKeptOut, IsUntried, TakesNoMemory};
ghost use Rattle.mh_live.specs.Rules.{Stands, newcomer, world_after};

use crate::call_fault::CallFault;
use crate::front::{Front, ListName};
use crate::published::Published;
use crate::receipt::Receipt;
use crate::rule::{Sees, WorldReader};
use core::mem::replace_with;
use mh_base::NoMemory;
use mh_core::{count, evaluate, has_room, test_callee};
use mh_ledger::Ledger;
use mh_run::Stack;
use mh_site::Definition;
use mh_type::{Outcome, Value};
use std::fmt;
use std::marker::Model;

/// The handle through which one worker makes calls. A call takes no lock and waits for no other
/// thread.
///
/// A pass that is inside a call delays the next change of the world, and everything that waits for
/// that change; a pass between calls delays nothing.
#[derive(Drop)]
pub struct Pass<N: ListName> {
    reader: WorldReader<N>,
    front: Front<N>,
    pub(crate) ledger: Ledger,
    stack: Stack,
    definition: Definition,
}

impl<N: ListName> Model for Pass<N> {
    ghost use Rattle.std.specs.Prelude.{◌≡◌, length};
    ghost use Rattle.mh_site.specs.Links.{links};
    ghost use Rattle.left_right.specs.Sides.{view as view_of};
    ghost use Rattle.mh_live.specs.Passes.{PassState, coded_pass};

    ghost Value = { PassState };

    ghost coded = { coded_pass };

    ghost view = { λ p. record {
      seen = p.front;
      ledger = p.ledger;
      entered = (view_of p.reader.place).entered;
    } };

    ghost invariant = { λ p. (p.definition ≡ N.definition) × (length p.ledger.unflushed ≡ length (links N.definition)) };
}

/// Shows its worker, and the list of controls that it has seen.
impl<N: ListName> fmt::Debug for Pass<N> {
    fn fmt<W: fmt::Write>(&self, f: &mut fmt::Formatter<W>) -> fmt::Result {
        let (worker, front) = (self.worker(), &self.front);
        write!(f, "Pass(worker {worker}, {front:?})")
    }
}

/// The result of a call.
#[derive(Debug, Drop)]
pub struct PassAnswer {
    /// The value returned, or the exception thrown.
    pub outcome: Outcome,
    /// The number of nodes evaluated.
    pub steps: u128,
    /// The number of controls of the list whose world answered the call.
    pub front: u64,
}

// The site to call with its arguments, and the stack to evaluate it on.
#[derive(Drop)]
struct Request<'a> {
    stack: &'a mut Stack,
    site: usize,
    arguments: &'a [Value],
}

// The list whose world was entered, and the result of the site in that world.
#[derive(Drop)]
struct Visited<N: ListName> {
    front: Front<N>,
    given: Result<(Outcome, u128), NoMemory>,
}

// Enters once, evaluates by the one world that is published then, and leaves. Returns `None` if the
// world could not be entered.
fn visit<N: ListName>(
    reader: WorldReader<N>,
    request: Request<'_>,
) -> (WorldReader<N>, Option<Visited<N>>)
    requires callable { IsCallable N.definition request.site request.arguments.now }
    ensures outcome { IfSome result.1
        (λ v. IfOk v.given (λ r. let w = world_after N.definition v.front in
        r.0 ≡ mean (environment_of_bases w) (state_at w request.entry.site).base.tree
        request.entry.arguments.now)) }
    ensures steps { IfSome result.1
        (λ v. IfOk v.given (λ r. let w = world_after N.definition v.front in
        r.1 ≡ steps (environment_of_links w) (state_at w request.entry.site).linked.tree
        request.entry.arguments.now)) }
    ensures memory { IfSome result.1
        (λ v. TakesNoMemory N.definition v.front request.entry.site request.entry.arguments.now
        → IsOk v.given) }
    ensures entered { IfSome result.1 (λ v. (view_of result.0.place).entered
        ≡ v.front ∷ (view_of reader.place).entered) }
    ensures outside { IfNone result.1 (view_of result.0.place ≡ view_of reader.place) }
{
    match reader.enter_as::<Sees<N>>() {
        Ok(reading) => {
            let entered = reading.get();
            let front = Front::of(&entered.past, entered.world.front());
            let Request {
                stack,
                site,
                arguments,
            } = request;
            let given = evaluate(stack, &entered.world, site, arguments);
            (reading.leave(), Some(Visited { front, given }))
        }
        Err(reader) => (reader, None),
    }
}

impl<N: ListName> Pass<N> {
    /// Returns the pass of a worker, which has seen no control.
    pub(crate) fn new(
        reader: WorldReader<N>,
        front: Front<N>,
        ledger: Ledger,
        stack: Stack,
        definition: Definition,
    ) -> Pass<N>
        requires definition { definition ≡ N.definition }
        requires links { length ledger.unflushed ≡ length (links N.definition) }
        requires reader { view_of reader.place ≡ newcomer }
        ensures value { result ≡ record { seen = front; ledger = ledger; entered = [] } }
    {
        Pass {
            reader,
            front,
            ledger,
            stack,
            definition,
        }
    }

    /// Returns the number of its worker, from 0.
    pub fn worker(&self) -> usize
        ensures value { result ≡ self.now.ledger.worker }
    {
        self.ledger.worker()
    }

    /// Returns the number of links.
    pub fn links(&self) -> usize
        ensures count { result ≡ length self.now.ledger.unflushed }
        ensures links { result ≡ length (links N.definition) }
    {
        self.ledger.links()
    }

    /// Returns the number of hits of a link that its calls made, flushed or not.
    pub fn made(&self, link: usize) -> u64
        requires inside { link < length self.now.ledger.unflushed }
        ensures value { result ≡ made self.now.ledger link }
    {
        self.ledger.made(link)
    }

    /// Returns the number of hits of a link since its last flush.
    pub fn unflushed(&self, link: usize) -> u64
        requires inside { link < length self.now.ledger.unflushed }
        ensures value { result ≡ at self.now.ledger.unflushed link }
    {
        self.ledger.unflushed(link)
    }

    /// Returns the list of controls that it has seen or learnt.
    pub fn front(&self) -> &Front<N>
        ensures value { result.now ≡ self.now.seen }
    {
        &self.front
    }

    /// Returns its worker's ledger.
    pub fn ledger(&self) -> &Ledger
        ensures value { result.now ≡ self.now.ledger }
    {
        &self.ledger
    }

    /// Calls a site (`MutableCallSite.dynamicInvoker`), without a lock and without waiting.
    ///
    /// The call, and the sites that its trees invoke, are answered by one world: the one after a
    /// single list of controls that begins with all that this pass has seen or learnt. The outcome
    /// is what the site's base tree means over the base trees, and the steps are those of its
    /// linked tree over the linked trees. If the argument at the site's key position is the key of
    /// one of its links, the ledger counts a hit of that link.
    ///
    /// Fails with
    /// - `NoSite` if the site does not exist;
    /// - `WrongType` if the arguments do not fit the site's type;
    /// - `LedgerFull` if the ledger has no room for the hit;
    /// - `NotEntered` if the office has ended or the published world is behind what this pass has
    ///   seen;
    /// - `NoMemory` otherwise, and never if no node that is evaluated has String in its type. Then
    ///   the pass may have seen more controls than before.
    ///
    /// On failure, no hit is counted.
    pub fn call(&mut self, site: usize, arguments: &[Value]) -> Result<PassAnswer, CallFault>
        ensures passes { OnOk result (MayCall N.definition self.old.ledger site arguments.now) }
        ensures answer { IfOk result (λ answer. AnswersBy N.definition self.new.seen site
            arguments.now answer) }
        ensures seen { IsPrefix self.old.seen self.new.seen }
        ensures counted { OnOk result
            (Counts N.definition site arguments.now self.old.ledger self.new.ledger) }
        ensures refused { IfErr result
            (λ told. RefusesCall N.definition self.old.ledger site arguments.now told) }
        ensures kept { OnErr result (self.new.ledger ≡ self.old.ledger) }
        ensures untried { IfErr result (λ told. IsUntried told → self.new ≡ self.old) }
        ensures entered { OnOk result (self.new.entered ≡ self.new.seen ∷ self.old.entered) }
        ensures outside { IfErr result (λ told. told ≡ CallFault.NotEntered
            → IsKeptOut self.old self.new) }
        ensures visited { IfErr result (λ told. told ≡ CallFault.NoMemory
            → self.new.entered ≡ self.new.seen ∷ self.old.entered) }
        ensures memory { IfErr result (λ told. told ≡ CallFault.NoMemory
            → TakesNoMemory N.definition self.new.seen site arguments.now → ⊥) }
    {
        let link = test_callee(&self.definition, site, arguments)?;
        // Names the invariant of the ledger for the proof.
        let _limit = self.ledger.limit();
        if !has_room(&self.ledger, link) {
            return Err(CallFault::LedgerFull);
        }
        let (outcome, steps) = self.enter(site, arguments)?;
        count(&mut self.ledger, link);
        Ok(PassAnswer {
            outcome,
            steps,
            front: self.front.len(),
        })
    }

    // Returns the result of the site by one world that is not behind what was seen.
    fn enter(&mut self, site: usize, arguments: &[Value]) -> Result<(Outcome, u128), CallFault>
        requires callable { IsCallable N.definition site arguments.now }
        ensures outcome { IfOk result (λ r. let w = world_after N.definition self.new.seen in
            r.0 ≡ mean (environment_of_bases w) (state_at w site).base.tree arguments.now) }
        ensures steps { IfOk result (λ r. let w = world_after N.definition self.new.seen in
            r.1 ≡ steps (environment_of_links w) (state_at w site).linked.tree arguments.now) }
        ensures seen { IsPrefix self.old.seen self.new.seen }
        ensures ledger { self.new.ledger ≡ self.old.ledger }
        ensures told { IfErr result (λ told. (told ≡ CallFault.NotEntered)
            ⊎ (told ≡ CallFault.NoMemory)) }
        ensures entered { OnOk result (self.new.entered ≡ self.new.seen ∷ self.old.entered) }
        ensures outside { IfErr result (λ told. told ≡ CallFault.NotEntered
            → IsKeptOut self.old self.new) }
        ensures visited { IfErr result (λ told. told ≡ CallFault.NoMemory
            → self.new.entered ≡ self.new.seen ∷ self.old.entered) }
        ensures memory { IfErr result (λ told. told ≡ CallFault.NoMemory
            → TakesNoMemory N.definition self.new.seen site arguments.now → ⊥) }
    {
        let request = Request {
            stack: &mut self.stack,
            site,
            arguments,
        };
        let Some(visited) = replace_with(&mut self.reader, request, visit::<N>) else {
            return Err(CallFault::NotEntered);
        };
        let Visited { front, given } = visited;
        if front.len() < self.front.len() {
            return Err(CallFault::NotEntered);
        }
        self.front.compare(&front);
        self.front = front;
        match given {
            Ok(answered) => Ok(answered),
            Err(_) => Err(CallFault::NoMemory),
        }
    }

    /// Makes sure that the pass sees the event of a receipt: from now on no call is answered by a
    /// list that is shorter than the receipt's.
    pub fn learn(&mut self, receipt: &Receipt<N>)
        ensures one { (self.new.seen ≡ self.old.seen) ⊎ (self.new.seen ≡ receipt.now.front) }
        ensures seen { IsPrefix self.old.seen self.new.seen }
        ensures learnt { IsPrefix receipt.now.front self.new.seen }
        ensures ledger { self.new.ledger ≡ self.old.ledger }
        ensures entered { self.new.entered ≡ self.old.entered }
    {
        self.front = self.front.longer(receipt.front());
    }
}
