//! The events that a machine accepted. They exist only in the proofs: at run time only their number
//! is stored.

ghost use Rattle.std.specs.Prelude.{◌≡◌, ◌<◌, ◌∷◌, [], List, length};
ghost use Rattle.mh_core.specs.declared.event.Event.TheVariants.{Call};
ghost use Rattle.mh_core.specs.declared.record.Record.{Record as RecordData};
ghost use Rattle.mh_core.specs.Histories.{event_of};
ghost use Rattle.mh_core.specs.Limits.{most_events};

use crate::arguments::Arguments;
use crate::book::Book;
use crate::record::Record;
use std::marker::Model;
use std::mem::replace;
use std::snapshot::Snapshot;

/// The newest accepted event, and those before it.
#[derive(Drop)]
pub(crate) enum Past {
    /// No event was accepted.
    Opening,
    /// A call was accepted.
    Called {
        worker: u32,
        site: usize,
        arguments: Arguments,
        before: Snapshot<Past>,
    },
    /// Any other event was accepted, of which a book has a record.
    Recorded {
        entry: Snapshot<Record>,
        before: Snapshot<Past>,
    },
}

/// The accepted events. It takes the memory of one number, however many there are.
///
/// A contract sees the events, newest first.
#[derive(Drop)]
pub(crate) struct History {
    count: usize,
    past: Snapshot<Past>,
}

impl Model for History {
    ghost use Rattle.std.specs.Prelude.{◌≡◌, List, length};
    ghost use Rattle.mh_core.specs.declared.event.Event.{Event};
    ghost use Rattle.mh_core.specs.Histories.{coded_events};
    ghost use Rattle.mh_core.specs.Pasts.{history_events};

    ghost Value = { List Event };

    ghost coded = { coded_events };

    ghost view = { history_events };

    ghost invariant = { λ h. h.count ≡ length (history_events h) };
}

impl History {
    /// Returns the history of a machine that was just opened.
    pub(crate) fn new() -> History
        ensures value { result ≡ [] }
    {
        let past = Snapshot::of(&Past::Opening);
        History { count: 0, past }
    }

    /// Returns the number of events.
    #[inline(always)]
    pub(crate) fn len(&self) -> usize
        ensures value { result ≡ length self.now }
    {
        self.count
    }

    /// Adds one call.
    #[inline(always)]
    pub(crate) fn add_call(&mut self, worker: u32, site: usize, arguments: Arguments)
        requires room { length self.old < most_events }
        ensures value { self.new ≡ Call worker site arguments ∷ self.old }
    {
        let before = take(&mut self.past);
        self.past = Snapshot::of(&Past::Called {
            worker,
            site,
            arguments,
            before,
        });
        self.count += 1;
    }

    /// Adds one event, of which a book has just taken the record.
    pub(crate) fn add_newest(&mut self, book: &Book)
        requires room { length self.old < most_events }
        requires newest { 0 < length book.now.records }
        ensures value { (e : RecordData) → (r : List RecordData) → book.now.records ≡ e ∷ r
            → self.new ≡ event_of e ∷ self.old }
    {
        let entry = Snapshot::of(book.newest());
        let before = take(&mut self.past);
        self.past = Snapshot::of(&Past::Recorded { entry, before });
        self.count += 1;
    }
}

// Takes the past out, and leaves an empty one.
#[inline(always)]
fn take(past: &mut Snapshot<Past>) -> Snapshot<Past>
    ensures value { result.value ≡ past.old.value }
{
    replace(past, Snapshot::of(&Past::Opening))
}
