//! Versions of definitions.

ghost use Rattle.std.specs.Prelude.{◌≡◌};
ghost use Rattle.mh_site.specs.Limits.{most_points as points_at_most, most_sites as sites_at_most};

/// The version of a definition. In version 1 no link has a charge, and there are at most 1,024
/// points and 1,024 sites; in version 2 links have charges, and both limits are four times as
/// large.
#[derive(Clone, Copy, Debug, PartialEq, Eq)]
pub enum Version {
    One,
    Two,
}

impl Version {
    /// Returns the greatest number of points of a definition of this version.
    pub fn most_points(self) -> usize
        ensures value { result ≡ points_at_most self }
    {
        match self {
            Version::One => 1024,
            Version::Two => 4096,
        }
    }

    /// Returns the greatest number of sites of a definition of this version.
    pub fn most_sites(self) -> usize
        ensures value { result ≡ sites_at_most self }
    {
        match self {
            Version::One => 1024,
            Version::Two => 4096,
        }
    }
}
