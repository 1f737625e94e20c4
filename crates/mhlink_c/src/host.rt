//! The value behind a machine's handle: a runtime, the names that its definition declares, and the
//! text that the last call returned.

ghost use Rattle.std.specs.Prelude.{◌≡◌, ◌≤◌, Some, None, vec_capacity, IfErr, IfOk, OnErr};
ghost use Rattle.mh_type.specs.Limits.{most_parameters};
ghost use Rattle.mh_core.specs.Runtimes.{call_tests};
ghost use Rattle.mhlink_c.specs.Calls.{Answers, AsksForNone, RefusesCall, WithValues};
ghost use Rattle.mhlink_c.specs.Opening.{AreLimits, Opens, RefusesOpening, limits_of, opened_host};
ghost use Rattle.mhlink_c.specs.Statuses.{no_memory};
ghost use Rattle.mhlink_c.specs.Texts.{HasNoText};
ghost use Rattle.mhlink_c.specs.declared.failure.Failure.TheVariants.{BadLimits};

pub(crate) mod answers;

use crate::failure::Failure;
use crate::texts::{MhlinkLimits, read_definition};
use crate::value::{MhlinkReply, MhlinkValue, read_values, reply_of, share_text, text_of};
use mh_base::MOST_WORKERS;
use mh_core::{Limits, MOST_PARAMETERS, Runtime, Text, Value};
use mh_json::readers::{Declarations, Scope};
use std::alloc::Global;
use std::marker::Model;

/// A runtime for C. A contract sees the runtime, the names and the text.
#[derive(Drop)]
pub(crate) struct Host {
    pub(crate) runtime: Runtime,
    pub(crate) scope: Scope,
    given: Option<Text>,
    // The arguments of the last call, with room for those of any call.
    arguments: Vec<Value>,
}

impl Model for Host {
    ghost use Rattle.mhlink_c.specs.Hosts.{HostState, coded_host};

    ghost Value = { HostState };

    ghost coded = { coded_host };

    ghost use Rattle.std.specs.Prelude.{◌≤◌, vec_capacity};
    ghost use Rattle.mh_type.specs.Limits.{most_parameters};

    ghost view = { λ h. record { runtime = h.runtime; scope = h.scope; given = h.given } };

    ghost invariant = { λ h. most_parameters ≤ vec_capacity h.arguments };
}

// Returns the limits, if each and the number of workers is in its range.
pub(crate) fn limits_for(workers: usize, given: &MhlinkLimits) -> Result<Limits, Failure>
    ensures value { IfOk result (λ l. (l ≡ limits_of given.now) × AreLimits workers given.now) }
    ensures bad { IfErr result (λ e. (AreLimits workers given.now → ⊥) × (e ≡ BadLimits)) }
{
    let limits = given.limits()?;
    if workers == 0 || workers > MOST_WORKERS as usize {
        return Err(Failure::BadLimits);
    }
    Ok(limits)
}

// Returns a list with room for the arguments of any call.
pub(crate) fn room_for_arguments(alloc: Global) -> Result<Vec<Value>, Failure>
    ensures room { IfOk result (λ v. most_parameters ≤ vec_capacity v) }
    ensures refused { IfErr result (λ e. e ≡ no_memory) }
{
    Ok(Vec::with_capacity(alloc, MOST_PARAMETERS)?)
}

impl Host {
    /// Opens the host of a definition in JSON.
    pub(crate) fn open(
        alloc: Global,
        definition: &[u8],
        workers: u32,
        limits: &MhlinkLimits,
    ) -> Result<Host, Failure>
        ensures opened { IfOk result (λ host. Opens definition.now workers limits.now
            (λ d. host ≡ opened_host d workers limits.now)) }
        ensures refused { IfErr result (RefusesOpening definition.now workers limits.now) }
    {
        let limits = limits_for(workers as usize, limits)?;
        let arguments = room_for_arguments(alloc)?;
        let Declarations { definition, scope } = read_definition(alloc, definition)?;
        let runtime = Runtime::open(alloc, &definition, workers, limits)?;
        Ok(Host::over(runtime, scope, arguments))
    }

    // Makes the host of a runtime and of the names of its definition, with room for the arguments
    // of calls.
    pub(crate) fn over(runtime: Runtime, scope: Scope, arguments: Vec<Value>) -> Host
        requires room { most_parameters ≤ vec_capacity arguments }
        ensures value { result ≡ record { runtime = runtime; scope = scope; given = None } }
    {
        Host {
            runtime,
            scope,
            given: None,
            arguments,
        }
    }

    /// Calls a site as a worker. A text is kept until the next call.
    pub(crate) fn call(
        &mut self,
        alloc: Global,
        worker: u32,
        site: usize,
        given: &[MhlinkValue],
        texts: &[u8],
    ) -> Result<MhlinkReply, Failure>
        ensures answer { IfOk result (λ reply. WithValues given.now texts.now
            (Answers self.old worker site reply self.new)) }
        ensures refused { IfErr result (RefusesCall (call_tests self.old.runtime worker site)
            given.now texts.now) }
        ensures book { self.new.runtime.book ≡ self.old.runtime.book }
        ensures scope { self.new.scope ≡ self.old.scope }
        ensures kept { OnErr result (self.new ≡ self.old) }
        ensures memory { AsksForNone self.old.runtime.book site given.now texts.now
            → IfErr result (λ e. e ≡ no_memory → ⊥) }
    {
        read_values(&mut self.arguments, alloc, given, texts)?;
        let arguments = self.arguments.as_slice();
        let (outcome, steps) = self.runtime.call(worker, site, arguments)?;
        let reply = reply_of(&outcome, steps);
        self.given = text_of(outcome);
        Ok(reply)
    }

    /// Returns another owner of the text that the last call returned.
    pub(crate) fn text(&self) -> Result<Text, Failure>
        ensures value { IfOk result (λ text. self.now.given ≡ Some text) }
        ensures refused { IfErr result (HasNoText self.now.given) }
    {
        share_text(&self.given)
    }
}
