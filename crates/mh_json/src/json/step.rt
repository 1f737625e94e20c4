//! The steps of a script.
ghost use Rattle.std.specs.Prelude.{◌≡◌};
ghost use Rattle.mh_json.specs.StepNumbers.{number_named, number_in};

use mh_core::Event;

/// One step of a script.
#[derive(Debug, Drop)]
pub enum Step {
    /// An event of the machine.
    Ask(Event),
    /// Computes a plan for the problem of the snapshot with this number and publishes it. The event
    /// is known only when the step runs.
    Plan { snapshot: usize },
}

impl Step {
    /// Returns the number that the step names, counted from 1: that of the snapshot that a plan is
    /// for, or of the plan that is installed. Returns 0 if the step names none.
    pub fn number(&self) -> usize
        ensures value { result ≡ number_named self.now }
    {
        match self {
            Step::Ask(event) => number_of(event),
            Step::Plan { snapshot } => *snapshot,
        }
    }
}

fn number_of(event: &Event) -> usize
    ensures value { result ≡ number_in event.now }
{
    match event {
        Event::Publish { snapshot, .. } => *snapshot,
        Event::Install { plan } => *plan,
        _ => 0,
    }
}
