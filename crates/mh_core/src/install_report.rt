//! Reports of installations.

ghost use Rattle.std.specs.Prelude.{◌≡◌, filter, length};
ghost use Rattle.std.specs.Fmt.{WritesOnOk};
ghost use Rattle.mh_core.specs.Display.{is_linked, is_skipped, invalid_text};

use mh_base::{Listing, Numbers};
use std::fmt;

/// The result of an installation for a site.
#[derive(Clone, Copy, Debug, PartialEq, Eq)]
pub enum Linkage {
    /// Its calls run an inline cache of this many links, at least one, over its base tree.
    Linked(usize),
    /// Its calls run its base tree.
    Unlinked,
    /// It was retargeted since the snapshot of the plan, so it was not changed.
    Skipped,
}

/// A site, by number, and the result of an installation for it.
#[derive(Clone, Copy, Debug, PartialEq, Eq)]
pub struct SiteLinkage {
    /// The number of the site.
    pub site: usize,
    /// The result for the site.
    pub linkage: Linkage,
}

/// The result of an installation for each site that has a link in the plan or held links before.
#[derive(Debug, Drop)]
pub struct InstallReport {
    /// The sites, ascending.
    pub sites: Listing<SiteLinkage>,
    /// The links of the plan, by number and ascending, that were not linked because a point that
    /// they need is invalid. The links of skipped sites are not among them.
    pub left_out: Listing<u32>,
}

impl InstallReport {
    /// Returns the number of sites that were linked.
    pub fn linked(&self) -> usize
        ensures value { result ≡ length (filter is_linked self.now.sites) }
    {
        count_linked(self.sites.as_slice())
    }

    /// Returns the number of sites that were skipped.
    pub fn skipped(&self) -> usize
        ensures value { result ≡ length (filter is_skipped self.now.sites) }
    {
        count_skipped(self.sites.as_slice())
    }
}

// Returns how many of these sites were linked.
fn count_linked(sites: &[SiteLinkage]) -> usize
    ensures value { result ≡ length (filter is_linked sites.now) }
{
    let mut count = 0;
    for site in sites {
        if let Linkage::Linked(_) = site.linkage {
            count += 1;
        }
    }
    count
}

// Returns how many of these sites were skipped.
fn count_skipped(sites: &[SiteLinkage]) -> usize
    ensures value { result ≡ length (filter is_skipped sites.now) }
{
    let mut count = 0;
    for site in sites {
        if let Linkage::Skipped = site.linkage {
            count += 1;
        }
    }
    count
}

/// Writes the numbers of linked and of skipped sites, and the links that were left out, as `linked
/// 2 skipped 0 invalid 3,4`.
impl fmt::Display for InstallReport {
    ghost use Rattle.std.specs.Prelude.{Some};
    ghost use Rattle.mh_core.specs.Display.{report_text};

    ghost output = { λ report. Some (report_text report) };

    fn fmt<W: fmt::Write>(&self, f: &mut fmt::Formatter<W>) -> fmt::Result {
        let (linked, skipped) = (self.linked(), self.skipped());
        write!(f, "linked {linked} skipped {skipped}")?;
        write_invalid(self.left_out.as_slice(), f)
    }
}

// Writes the links that were left out, or nothing if there are none.
fn write_invalid<W: fmt::Write>(numbers: &[u32], f: &mut fmt::Formatter<W>) -> fmt::Result
    ensures text { WritesOnOk W.write_str_gives f.old result (invalid_text numbers.now) f.new }
{
    let [_, ..] = numbers else {
        return Ok(());
    };
    let links = Numbers { numbers };
    write!(f, " invalid {links}")
}
