//! Paths from the source to the sink, stored from their end.

/// A step of a path forth over one row of a link to a point, and back over another row of that
/// link.
#[derive(Clone, Copy, Debug)]
pub struct Turn {
    /// The row that leads to the point, by number.
    pub forth: usize,
    /// The row whose flow is taken back, by number.
    pub back: usize,
}

/// A path from the source to the sink, stored from its end: the last point, the turns down to the
/// first link, and the row of that link over which it begins.
#[derive(Debug, Drop)]
pub struct Path {
    /// The point from which the path goes to the sink.
    pub point: usize,
    /// The turns, from the last to the first.
    pub turns: Vec<Turn>,
    /// The row over which the path begins, by number.
    pub first: usize,
}
