//! Links of a site.

use mh_base::Listing;
use mh_type::Value;

/// An entry that the inline cache of a site may hold (Hölzle, Chambers and Ungar, Optimizing
/// Dynamically-Typed Object-Oriented Languages With Polymorphic Inline Caches, 1991): it is for the
/// calls whose argument at the key position is `when`.
#[derive(Debug, Drop)]
pub struct Link {
    /// The key, of the kind of the parameter at the key position. The keys of a site differ.
    pub when: Value,
    /// The gain of one hit: 0 to 2^20 in a definition.
    pub weight: u64,
    /// The cost of the link alone, which a plan pays besides the costs of its points: 0 to 2^40 in
    /// a definition, and 0 in one of version 1.
    pub charge: u64,
    /// The numbers of the points that must be valid while the link is installed: at most 8, each
    /// once.
    pub needs: Listing<u32>,
}
