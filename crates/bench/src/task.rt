//! Tasks of the planner.

/// A task: what to compute for a problem.
#[derive(Clone, Copy, PartialEq, Eq)]
pub(crate) enum Task {
    /// Computes its parts.
    Parts,
    /// Computes a maximum flow of the whole.
    Flow,
    /// Computes its best plan, part by part, on one worker.
    Plan,
    /// Computes the scale of costs up to which each link is chosen.
    Sweep,
}

impl Task {
    /// Returns the task of a word.
    pub(crate) fn named(word: &str) -> Option<Task> {
        match word {
            "parts" => Some(Task::Parts),
            "flow" => Some(Task::Flow),
            "plan" => Some(Task::Plan),
            "sweep" => Some(Task::Sweep),
            _ => None,
        }
    }
}
