//! The value behind a caller's handle: the caller, and the text that its last call returned.

ghost use Rattle.std.specs.Prelude.{◌≡◌, ◌≤◌, ◌<◌, Some, None, length, vec_capacity, IfErr, IfOk, OnErr, OnOk};
ghost use Rattle.mh_ledger.specs.Ledgers.{at};
ghost use Rattle.mh_share.specs.Callers.{call_tests};
ghost use Rattle.mh_type.specs.Limits.{most_parameters};
ghost use Rattle.mhlink_c.specs.Callers.{CallerAnswers, RefusesToLook, looks, opened_held_caller};
ghost use Rattle.mhlink_c.specs.Calls.{AsksForNone, RefusesCall, WithValues};
ghost use Rattle.mhlink_c.specs.Desks.{Holds};
ghost use Rattle.mhlink_c.specs.Statuses.{no_memory};
ghost use Rattle.mhlink_c.specs.Texts.{HasNoText};
ghost use Rattle.mhlink_c.specs.declared.failure.Failure.TheVariants.{Unknown};

use crate::desk::HeldDesk;
use crate::failure::Failure;
use crate::host::answers::hits_in;
use crate::host::room_for_arguments;
use crate::value::{MhlinkReply, MhlinkValue, read_values, reply_of, share_text, text_of};
use mh_core::{Text, Value};
use mh_share::Caller;
use std::alloc::Global;
use std::marker::Model;

/// A caller for C. A contract sees the caller and the text.
#[derive(Drop)]
pub(crate) struct HeldCaller {
    pub(crate) caller: Caller,
    given: Option<Text>,
    // The arguments of the last call, with room for those of any call.
    arguments: Vec<Value>,
}

impl Model for HeldCaller {
    ghost use Rattle.mhlink_c.specs.Callers.{HeldCallerState, coded_held_caller};

    ghost Value = { HeldCallerState };

    ghost coded = { coded_held_caller };

    ghost use Rattle.std.specs.Prelude.{◌≤◌, vec_capacity};
    ghost use Rattle.mh_type.specs.Limits.{most_parameters};

    ghost view = { λ h. record { caller = h.caller; given = h.given } };

    ghost invariant = { λ h. most_parameters ≤ vec_capacity h.arguments };
}

impl HeldCaller {
    /// Returns a caller that has made no call.
    pub(crate) fn over(alloc: Global, caller: Caller) -> Result<HeldCaller, Failure>
        ensures value { IfOk result (λ held. held ≡ opened_held_caller caller) }
        ensures refused { IfErr result (λ e. e ≡ no_memory) }
    {
        let arguments = room_for_arguments(alloc)?;
        Ok(HeldCaller {
            caller,
            given: None,
            arguments,
        })
    }

    /// Calls a site. A text is kept until the next call.
    pub(crate) fn call(
        &mut self,
        alloc: Global,
        site: usize,
        given: &[MhlinkValue],
        texts: &[u8],
    ) -> Result<MhlinkReply, Failure>
        ensures answer { IfOk result (λ reply. WithValues given.now texts.now
            (CallerAnswers self.old site reply self.new)) }
        ensures refused { IfErr result (RefusesCall (call_tests self.old.caller site) given.now
            texts.now) }
        ensures shown { self.new.caller.shown ≡ self.old.caller.shown }
        ensures kept { OnErr result (self.new ≡ self.old) }
        ensures memory { AsksForNone self.old.caller.shown site given.now texts.now
            → IfErr result (λ e. e ≡ no_memory → ⊥) }
    {
        read_values(&mut self.arguments, alloc, given, texts)?;
        let arguments = self.arguments.as_slice();
        let (outcome, steps) = self.caller.call(site, arguments)?;
        let reply = reply_of(&outcome, steps);
        self.given = text_of(outcome);
        Ok(reply)
    }

    /// Returns another owner of the text that the last call returned.
    pub(crate) fn text(&self) -> Result<Text, Failure>
        ensures value { IfOk result (λ text. self.now.given ≡ Some text) }
        ensures refused { IfErr result (HasNoText self.now.given) }
    {
        share_text(&self.given)
    }

    /// Returns the unflushed hits of a link.
    pub(crate) fn hits(&self, link: usize) -> Result<u64, Failure>
        ensures value { IfOk result (λ n. n ≡ at self.now.caller.ledger.unflushed link) }
        ensures inside { OnOk result (link < length self.now.caller.ledger.unflushed) }
        ensures unknown { IfErr result (λ e. (e ≡ Unknown)
            × (link < length self.now.caller.ledger.unflushed → ⊥)) }
    {
        hits_in(self.caller.ledger(), link)
    }

    /// Has the caller use the published state of a desk from now on.
    pub(crate) fn look(&mut self, desk: &HeldDesk) -> Result<(), Failure>
        ensures held { OnOk result (Holds desk.now self.old.caller.ledger) }
        ensures looks { OnOk result (self.new ≡ looks desk.now self.old) }
        ensures refused { IfErr result (RefusesToLook desk.now self.old.caller.ledger) }
        ensures kept { OnErr result (self.new ≡ self.old) }
    {
        self.caller.look(&desk.desk)?;
        Ok(())
    }
}
