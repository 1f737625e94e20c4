//! Callers, through which threads make calls.

ghost use Rattle.std.specs.Prelude.{◌≡◌, length, IfErr, IfOk, OnErr, OnOk};
ghost use Rattle.std.specs.Arc.{arc_value};
ghost use Rattle.mh_base.specs.Tests.{Passes, Refuses};
ghost use Rattle.mh_ledger.specs.Ledgers.{Holds};
ghost use Rattle.mh_site.specs.Links.{links};
ghost use Rattle.mh_core.specs.Books.{IsBook};
ghost use Rattle.mh_core.specs.Callers.{Counts};
ghost use Rattle.mh_core.specs.Legal.{answer_of_call};
ghost use Rattle.mh_core.specs.Runtimes.{TakesNoMemory};
ghost use Rattle.mh_core.specs.declared.reply.Reply.TheVariants.{Called};
ghost use Rattle.mh_share.specs.Callers.{call_tests, caller_by};
ghost use Rattle.mh_share.specs.Desks.{RefusesLook};
ghost use Rattle.mh_share.specs.Renewals.{with_ledger};

use crate::desk::Desk;
use crate::shown::Shown;
use mh_core::{NoMemory, Refusal, count, evaluate, has_room, test_callee};
use mh_ledger::Ledger;
use mh_run::Stack;
use mh_site::{Definition, World};
use mh_type::{Outcome, Value};
use std::alloc::Global;
use std::fmt;
use std::marker::Model;
use std::mem::swap;
use std::sync::Arc;

/// The handle through which one thread makes calls: the world of its last look, the ledger of its
/// worker, and a stack. It takes no lock, and waits for no other thread.
///
/// A contract sees the book as it was when that world was shown, and the ledger.
#[derive(Drop)]
pub struct Caller {
    pub(crate) shown: Arc<Shown>,
    pub(crate) ledger: Ledger,
    stack: Stack,
}

impl Model for Caller {
    ghost use Rattle.std.specs.Prelude.{◌≡◌, length};
    ghost use Rattle.std.specs.Arc.{arc_value};
    ghost use Rattle.mh_site.specs.Links.{links};
    ghost use Rattle.mh_share.specs.Callers.{CallerState, coded_caller};

    ghost Value = { CallerState };

    ghost coded = { coded_caller };

    ghost view = { λ c. record { shown = arc_value c.shown; ledger = c.ledger } };

    ghost invariant = { λ c. (length c.ledger.unflushed
        ≡ length (links (arc_value c.shown).definition)) };
}

/// Shows its worker.
impl fmt::Debug for Caller {
    fn fmt<W: fmt::Write>(&self, f: &mut fmt::Formatter<W>) -> fmt::Result {
        write!(f, "Caller(worker {})", self.worker())
    }
}

impl Caller {
    // Returns the caller of a worker, with a shown world. Fails only if an allocation is refused.
    pub(crate) fn new(alloc: Global, shown: Arc<Shown>, ledger: Ledger) -> Result<Caller, NoMemory>
        requires links { length ledger.unflushed ≡ length (links (arc_value shown).definition) }
        ensures value { IfOk result (λ c. c ≡ caller_by (arc_value shown) ledger) }
    {
        let stack = Stack::new(alloc)?;
        Ok(Caller {
            shown,
            ledger,
            stack,
        })
    }

    /// Returns the number of its worker, from 0.
    pub fn worker(&self) -> usize
        ensures value { result ≡ self.now.ledger.worker }
    {
        self.ledger.worker()
    }

    /// Returns the definition, as of its last look.
    pub fn definition(&self) -> &Definition
        ensures value { result.now ≡ self.now.shown.definition }
        ensures book { IsBook self.now.shown }
    {
        self.shown.definition()
    }

    /// Returns the world of its last look, which answers its calls.
    pub fn world(&self) -> &World
        ensures value { result.now ≡ self.now.shown.world }
        ensures book { IsBook self.now.shown }
    {
        self.shown.world()
    }

    /// Returns its worker's ledger.
    pub fn ledger(&self) -> &Ledger
        ensures value { result.now ≡ self.now.ledger }
        ensures links { length self.now.ledger.unflushed ≡ length (links self.now.shown.definition) }
    {
        &self.ledger
    }

    /// Exchanges its ledger for another one, with as many links.
    pub fn exchange(&mut self, ledger: &mut Ledger)
        requires links { length ledger.old.unflushed ≡ length self.old.ledger.unflushed }
        ensures given { ledger.new ≡ self.old.ledger }
        ensures taken { self.new ≡ with_ledger self.old ledger.old }
    {
        swap(&mut self.ledger, ledger);
    }

    /// Returns the outcome of a call of a site, and the number of nodes evaluated
    /// (`MutableCallSite.dynamicInvoker`), after the records of its last look. The outcome is what
    /// the site's base tree means over the base trees, the steps are those of its linked tree over
    /// the linked trees, and the hit of its link is counted in the ledger. It takes no lock.
    ///
    /// Fails with the first that applies of `NoSite`, `WrongType` and `LedgerFull`, and otherwise
    /// only with `NoMemory`, which is not reported if no node that is evaluated has String in its
    /// type; then nothing changes.
    pub fn call(&mut self, site: usize, arguments: &[Value]) -> Result<(Outcome, u128), Refusal>
        ensures passes { OnOk result (Passes (call_tests self.old site arguments.now)) }
        ensures answer { IfOk result (λ p. Called p.0 p.1
            ≡ answer_of_call self.old.shown.definition self.old.shown.records site arguments.now) }
        ensures counted { OnOk result (Counts self.old.shown.definition site arguments.now
            self.old.ledger self.new.ledger) }
        ensures shown { self.new.shown ≡ self.old.shown }
        ensures refused { IfErr result (λ told. Refuses (call_tests self.old site arguments.now) told) }
        ensures kept { OnErr result (self.new ≡ self.old) }
        ensures memory { TakesNoMemory self.old.shown site arguments.now
            → IfErr result (λ told. told ≡ Refusal.NoMemory → ⊥) }
    {
        let link = test_callee(self.shown.definition(), site, arguments)?;
        if !has_room(&self.ledger, link) {
            return Err(Refusal::LedgerFull);
        }
        let Ok((outcome, steps)) = evaluate(&mut self.stack, self.shown.world(), site, arguments)
        else {
            return Err(Refusal::NoMemory);
        };
        count(&mut self.ledger, link);
        Ok((outcome, steps))
    }

    /// Looks at the world that a desk shows: from now on its calls are answered by that world. The
    /// ledger is not changed. O(1); the previous world is freed by the last of its callers.
    ///
    /// Fails with `NoWorker` if the ledger is not one that the desk holds, and otherwise only with
    /// `NoMemory`, if a reference count is refused; then nothing changes.
    pub fn look(&mut self, desk: &Desk) -> Result<(), Refusal>
        ensures held { OnOk result (Holds desk.now.book.totals self.old.ledger) }
        ensures looks { OnOk result (self.new ≡ record {
          shown = desk.now.shown;
          ledger = self.old.ledger;
        }) }
        ensures refused { IfErr result (RefusesLook desk.now.book self.old.ledger) }
        ensures kept { OnErr result (self.new ≡ self.old) }
    {
        self.shown = desk.shown_to(&self.ledger)?;
        Ok(())
    }
}
