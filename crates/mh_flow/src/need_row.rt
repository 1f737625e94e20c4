//! The flow over a need.

/// A need of a link, and the amount that the flow carries over it.
#[derive(Clone, Copy, Debug)]
pub struct NeedRow {
    /// The link, by number.
    pub link: u32,
    /// The point that it needs, by number.
    pub point: u32,
    /// The amount that the flow carries from the link to the point.
    pub amount: u64,
}
