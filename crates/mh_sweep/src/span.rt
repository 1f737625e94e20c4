//! Two scales of costs, in thousandths.

ghost use Rattle.std.specs.Prelude.{◌<◌, ◌+◌};

/// The scales between which links are open, in thousandths of the costs.
#[derive(Clone, Copy, Debug, PartialEq, Eq)]
pub(crate) struct Span {
    /// The scale at which all of them are chosen.
    pub(crate) first: u32,
    /// The scale at which none of them is chosen.
    pub(crate) last: u32,
}

impl Span {
    /// Returns the scale in the middle.
    pub(crate) fn middle(self) -> u32
        requires wide { self.first + 1 < self.last }
        ensures above { self.first < result }
        ensures below { result < self.last }
    {
        self.first + (self.last - self.first) / 2
    }
}
