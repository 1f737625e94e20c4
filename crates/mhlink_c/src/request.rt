//! Requests from C to a machine or a desk, other than calls. An answer is a number.

use crate::value::MhlinkValue;

/// A query, which changes nothing.
#[derive(Drop)]
pub(crate) enum Question<'a> {
    /// The number of the site with this name.
    Site(&'a [u8]),
    /// The number of the point with this name.
    Point(&'a [u8]),
    /// The number of a site's link with this key, with the bytes of a String.
    Link {
        site: usize,
        key: MhlinkValue,
        text: &'a [u8],
    },
    /// The flushed hits of a link.
    Total(usize),
    /// The number of links installed at a site.
    Linked(usize),
    /// A property of a point, a site, a link or a plan; `place` selects an element if it is a list.
    Detail {
        detail: u32,
        number: usize,
        place: usize,
    },
}

/// A change, which is recorded.
#[derive(Drop)]
pub(crate) enum Change<'a> {
    /// Gives a site this tree, in JSON. The answer is 0.
    Target { site: usize, tree: &'a [u8] },
    /// Invalidates these points. The answer is 0.
    Invalidate(&'a [u32]),
    /// Takes a snapshot. The answer is its number.
    Snapshot,
    /// Computes and publishes the optimal plan for a snapshot. The answer is the plan's number.
    Plan(usize),
    /// Publishes this plan, in JSON, for a snapshot. The answer is the plan's number.
    Offer { snapshot: usize, plan: &'a [u8] },
    /// Installs a plan. The answer is the number of sites that it links.
    Install(usize),
}
