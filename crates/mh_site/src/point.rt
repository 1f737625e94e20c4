//! Switch points.

use crate::name::Name;

/// A switch point (`java.lang.invoke.SwitchPoint`, Java SE 17), and the cost of relying on it.
#[derive(Debug, Drop)]
pub struct Point {
    /// The name: 1 to 64 bytes in a definition, and different from those of all other points.
    pub name: Name,
    /// The cost: 0 to 2^40 in a definition, in the units of gains.
    pub cost: u64,
}
