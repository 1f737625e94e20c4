//! The events of a run that were refused.
ghost use Rattle.std.specs.Prelude.{◌≡◌, ◌++◌, [], false, true, List};
ghost use Rattle.mh_text.specs.Refused.{refusal_in, refused_at};
ghost use Rattle.mh_json.specs.declared.refused.RefusedEvent.{RefusedEvent as Refused};

use mh_core::{Refusal, Reply};
use mh_json::RefusedEvent;
use std::alloc::Global;

/// The refused events of a run so far, or none of them, if memory ran out for one.
#[derive(Drop)]
pub(crate) struct RefusedEvents {
    events: Vec<RefusedEvent>,
    has_all: bool,
}

impl RefusedEvents {
    /// Returns an empty list of refused events.
    pub(crate) fn new(alloc: Global) -> RefusedEvents
        ensures all { result.has_all ≡ true }
        ensures none { result.events.items ≡ [] }
    {
        RefusedEvents {
            events: Vec::new(alloc),
            has_all: true,
        }
    }

    /// Adds the event with this number, if it was refused.
    pub(crate) fn add(&mut self, event: u64, refusal: Option<Refusal>)
        ensures all { (before : List Refused) → (self.old.has_all ≡ true → self.old.events.items ≡ before)
            → self.new.has_all ≡ true
            → self.new.events.items ≡ before ++ refused_at event refusal }
        ensures none { (self.old.has_all ≡ false → self.old.events.items ≡ [])
            → self.new.has_all ≡ false → self.new.events.items ≡ [] }
    {
        let Some(refusal) = refusal else {
            return;
        };
        if !self.has_all {
            return;
        }
        if self.events.push(RefusedEvent { event, refusal }).is_err() {
            self.events.clear();
            self.has_all = false;
        }
    }

    /// Returns the refused events, in order.
    pub(crate) fn into_events(self) -> Vec<RefusedEvent>
        ensures value { result.items ≡ self.events.items }
    {
        self.events
    }
}

/// Returns the reason why an event was refused, if it was.
pub(crate) fn refusal_of(reply: &Reply) -> Option<Refusal>
    ensures value { result ≡ refusal_in reply.now }
{
    match reply {
        Reply::Refused(refusal) => Some(*refusal),
        _ => None,
    }
}
