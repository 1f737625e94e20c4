//! Reports of progress.

/// A receiver of reports, called by the worker that plans a part when it begins and when it ends.
/// Parts are numbered from 0, in the order of `Problem::parts`.
pub trait Gate: Sync {
    /// Reports that the planning of a part begins.
    fn enter(&self, part: usize);

    /// Reports that the planning of a part is over, also if it ran out of memory.
    fn leave(&self, part: usize);
}

/// A gate that does nothing.
#[derive(Clone, Copy, Debug)]
pub struct OpenGate;

impl Gate for OpenGate {
    fn enter(&self, _part: usize) {}

    fn leave(&self, _part: usize) {}
}
