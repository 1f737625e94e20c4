//! Machines: runtimes whose calls are in their history, too.

ghost use Rattle.std.specs.Prelude.{◌≡◌, ◌<◌, ◌≤◌, ◌+◌, length, IfErr, IfOk, IsTrue, OnErr, ◌↔◌};
ghost use Rattle.mh_cert.specs.Plans.{Matches};
ghost use Rattle.mh_core.specs.declared.event.Event.TheVariants.{Call, Flush, Publish};
ghost use Rattle.mh_core.specs.declared.reply.Reply.TheVariants.{Called, Refused};
ghost use Rattle.mh_core.specs.Steps.{IsAccepted, IsNoCall, IsRefused, call_reply, reply_of};
ghost use Rattle.mh_core.specs.Headline.{IsHeadline};
ghost use Rattle.mh_core.specs.Histories.{event_of, records};
ghost use Rattle.mh_core.specs.Legal.{MachineState, Step, Run, TakesNoMemory, opened_machine};
ghost use Rattle.mh_core.specs.Pending.{IsNoFlush};
ghost use Rattle.mh_core.specs.Problems.{IsTaken, problem_at};
ghost use Rattle.mh_core.specs.Rows.{HasRoomForPlan};

use crate::arguments::Arguments;
use crate::book::Book;
use crate::event::Event;
use crate::history::History;
use crate::limits::Limits;
use crate::record::Record;
use crate::refusal::Refusal;
use crate::reply::Reply;
use crate::runtime::Runtime;
use crate::shared_plan::SharedPlan;
use mh_base::NoMemory;
use mh_site::Definition;
use mh_type::Outcome;
use std::alloc::Global;
use std::fmt;
use std::marker::Model;

/// A runtime with the history of its accepted events, including its calls.
///
/// A contract sees the constant parts, and the history, newest first. At run time the book stores
/// its records, and the machine the number of all events; the other events exist only in the
/// proofs, so that a call takes no memory that stays.
#[derive(Drop)]
pub struct Machine {
    pub(crate) alloc: Global,
    pub(crate) runtime: Runtime,
    pub(crate) history: History,
}

impl Model for Machine {
    ghost use Rattle.mh_core.specs.Legal.{MachineState};
    ghost use Rattle.mh_core.specs.Machines.{IsMachine, coded_machine, machine_of};

    ghost Value = { MachineState };

    ghost coded = { coded_machine };

    ghost view = { λ m. machine_of m.runtime m.history };

    ghost invariant = { λ m. IsMachine m.runtime m.history };
}

/// Shows the number of accepted calls, and the book.
impl fmt::Debug for Machine {
    fn fmt<W: fmt::Write>(&self, f: &mut fmt::Formatter<W>) -> fmt::Result {
        let (calls, book) = (self.calls(), self.book());
        write!(f, "Machine({calls} calls, {book:?})")
    }
}

impl Machine {
    /// Returns the machine of a definition with this many workers, and with the empty history.
    /// Fails only if an allocation or a reference count is refused.
    pub fn open(
        alloc: Global,
        definition: &Definition,
        workers: u32,
        limits: Limits,
    ) -> Result<Machine, NoMemory>
        ensures value { IfOk result (λ m. m ≡ opened_machine definition.now workers limits) }
    {
        let runtime = Runtime::open(alloc, definition, workers, limits)?;
        runtime.book().kept();
        let history = History::new();
        Ok(Machine {
            alloc,
            runtime,
            history,
        })
    }

    /// Returns the book, whose records are those of the history.
    pub fn book(&self) -> &Book
        ensures definition { result.now.definition ≡ self.now.setting.definition }
        ensures limits { result.now.limits ≡ self.now.setting.limits }
        ensures records { result.now.records
            ≡ records self.now.setting.definition self.now.history }
    {
        self.runtime.book()
    }

    /// Returns the number of accepted calls.
    pub fn calls(&self) -> usize
        ensures count { length (records self.now.setting.definition self.now.history) + result
            ≡ length self.now.history }
    {
        self.history.len() - self.book().records().len()
    }

    /// Returns the number of accepted events.
    pub fn accepted(&self) -> usize
        ensures count { result ≡ length self.now.history }
    {
        self.history.len()
    }

    /// Returns the number of workers.
    pub fn workers(&self) -> u32
        ensures value { result ≡ self.now.setting.workers }
    {
        self.runtime.workers()
    }

    /// Applies one event, and returns its reply. If a test fails or memory is refused, nothing
    /// changes. A call is not refused with `NoMemory` if no node that it evaluates has String in
    /// its type.
    pub fn step(&mut self, event: Event) -> Reply
        ensures step { Step self.old.setting self.old.history event result self.new.history }
        ensures setting { self.new.setting ≡ self.old.setting }
        ensures memory { TakesNoMemory self.old.setting self.old.history event
            → result ≡ Refused Refusal.NoMemory → ⊥ }
    {
        match event {
            Event::Call {
                worker,
                site,
                arguments,
            } => called(self.call(worker, site, arguments)),
            other => replied(self.change(other)),
        }
    }

    /// Returns the outcome of a worker's call of a site, and the number of nodes evaluated
    /// (`MutableCallSite.dynamicInvoker`). It runs the site's linked tree and counts the hit of the
    /// link. It does the same as `step` of the call.
    ///
    /// Fails with the first that applies of `NoWorker`, `NoSite`, `WrongType`, `HistoryFull` and
    /// `LedgerFull`, and otherwise only with `NoMemory`; then nothing changes.
    #[inline(always)]
    pub fn call(
        &mut self,
        worker: u32,
        site: usize,
        arguments: Arguments,
    ) -> Result<(Outcome, u128), Refusal>
        ensures accepted { IfOk result (λ p. IsAccepted self.old (Call worker site arguments)
            (Called p.0 p.1) self.new) }
        ensures refused { IfErr result (λ told. IsRefused self.old (Call worker site arguments)
            told self.new) }
        ensures memory { TakesNoMemory self.old.setting self.old.history
            (Call worker site arguments) → IfErr result (λ told. told ≡ Refusal.NoMemory → ⊥) }
    {
        let values = arguments.as_slice();
        let link = self
            .runtime
            .test_callee(self.is_full(), worker, site, values)?;
        let (outcome, steps) = self.runtime.answer(worker, site, link, values)?;
        self.history.add_call(worker, site, arguments);
        Ok((outcome, steps))
    }

    /// Publishes a plan that is known to match the problem of a snapshot, and returns the reply of
    /// `step`. It does the same as `step` of the publication, but does not check the plan again.
    /// O(1).
    ///
    /// Fails with `HistoryFull`, also if there are 1,024 plans, and otherwise only with `NoMemory`;
    /// then nothing changes.
    pub fn publish_for(&mut self, snapshot: usize, plan: SharedPlan) -> Result<Reply, Refusal>
        requires taken { IsTaken (records self.old.setting.definition self.old.history) snapshot }
        requires matching { Matches (problem_at self.old.setting.definition
            (records self.old.setting.definition self.old.history) snapshot) plan }
        ensures accepted { IfOk result (λ reply. IsAccepted self.old (Publish snapshot plan) reply
            self.new) }
        ensures refused { IfErr result (λ told. IsRefused self.old (Publish snapshot plan) told
            self.new) }
        ensures early { IfErr result (λ told. told ≡ Refusal.NoMemory → HasRoomForPlan
            self.old.setting.limits (length self.old.history)
            (records self.old.setting.definition self.old.history)) }
    {
        let calls = self.calls();
        let reply = self.runtime.publish_behind(calls, snapshot, plan)?;
        self.history.add_newest(self.runtime.book());
        Ok(reply)
    }

    // Applies an event other than a call. It is a function apart from `step`, which therefore
    // reserves no stack slots for its results.
    #[inline(never)]
    fn change(&mut self, event: Event) -> Result<Reply, Refusal>
        requires other { IsNoCall event }
        ensures accepted { IfOk result (λ reply. IsAccepted self.old event reply self.new) }
        ensures refused { IfErr result (λ told. IsRefused self.old event told self.new) }
    {
        match event {
            Event::Call { .. } => unreachable!(),
            Event::Flush { worker } => self.flush(worker),
            Event::Target { site, tree } => self.take(Record::Targeted { site, tree }),
            Event::Invalidate { points } => self.take(Record::Invalidated { points }),
            Event::Snapshot => self.take(Record::Snapped),
            Event::Publish { snapshot, plan } => self.take(Record::Published { snapshot, plan }),
            Event::Install { plan } => self.take(Record::Installed { plan }),
        }
    }

    // Adds the hits of a worker since its last flush to the totals.
    fn flush(&mut self, worker: u32) -> Result<Reply, Refusal>
        ensures accepted { IfOk result (λ reply. IsAccepted self.old (Flush worker) reply
            self.new) }
        ensures refused { IfErr result (λ told. IsRefused self.old (Flush worker) told self.new) }
    {
        let calls = self.calls();
        self.runtime.flush_behind(calls, worker)?;
        self.history.add_newest(self.runtime.book());
        Ok(Reply::Done)
    }

    // Has the book take a record after the accepted calls.
    fn take(&mut self, entry: Record) -> Result<Reply, Refusal>
        requires other { IsNoFlush entry }
        ensures accepted { IfOk result (λ reply. IsAccepted self.old (event_of entry) reply
            self.new) }
        ensures refused { IfErr result (λ told. IsRefused self.old (event_of entry) told
            self.new) }
    {
        let calls = self.calls();
        let reply = self.runtime.accept(calls, entry)?;
        self.history.add_newest(self.runtime.book());
        Ok(reply)
    }

    // Returns whether the limit of events is reached.
    fn is_full(&self) -> bool
        ensures decides { IsTrue result
            ↔ (self.now.setting.limits.history ≤ length self.now.history) }
    {
        self.history.len() as u64 >= self.book().limits().history()
    }

    /// Applies the events in order, and returns their replies: each call that is not refused
    /// returns what its site's unspecialised tree means at that step, and each published plan is
    /// best for its snapshot (`headline`).
    ///
    /// Fails only if there is no memory for the replies; this is reported before the first event,
    /// and nothing changes.
    pub fn run(&mut self, events: Vec<Event>) -> Result<Vec<Reply>, NoMemory>
        ensures headline { IfOk result (λ replies. IsHeadline self.old.setting
            self.old.history events.items replies.items self.new.history) }
        ensures run { IfOk result (λ replies. Run self.old.setting self.old.history events.items
            replies.items self.new.history) }
        ensures setting { self.new.setting ≡ self.old.setting }
        ensures refused { OnErr result (self.new ≡ self.old) }
    {
        self.book().kept();
        let mut replies = Vec::with_capacity(self.alloc, events.len())?;
        for event in events {
            let reply = self.step(event);
            replies.push_reserved(reply);
        }
        Ok(replies)
    }
}

// Returns the reply to a call.
#[inline(always)]
fn called(answer: Result<(Outcome, u128), Refusal>) -> Reply
    ensures value { result ≡ call_reply answer }
{
    match answer {
        Ok((outcome, steps)) => Reply::Called { outcome, steps },
        Err(refusal) => Reply::Refused(refusal),
    }
}

// Returns the reply to any other event.
fn replied(answer: Result<Reply, Refusal>) -> Reply
    ensures value { result ≡ reply_of answer }
{
    match answer {
        Ok(reply) => reply,
        Err(refusal) => Reply::Refused(refusal),
    }
}
