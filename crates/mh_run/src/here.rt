//! The context of a call.

use mh_code::Prepared;

/// The validity of the points, and the tree of each site.
#[derive(Clone, Copy, Debug)]
pub struct Here<'a> {
    /// For each point, by number, whether it is valid.
    pub valid: &'a [bool],
    /// The tree of each site.
    pub targets: &'a [Prepared],
}
