//! Versions of definitions and problems, and the charges that links have in version 2.
ghost use Rattle.std.specs.Prelude.{◌≡◌};
ghost use Rattle.serde_json.specs.View.{view};
ghost use Rattle.mh_json.specs.Gives.{Gives};
ghost use Rattle.mh_json.specs.Versions.{version_of, charge_of, most_links as links_at_most};

use crate::json::shape::{amount, count, member_or};
use crate::json::wanted::Wanted;
use crate::key::Field;
use crate::misread::Misread;
use mh_network::MOST_LINKS;
use mh_site::Version;
use serde_json::Value;
use std::alloc::Global;

/// Reads a version: 1 or 2.
pub fn read_version(value: &Value) -> Result<Version, Misread>
    ensures value { Gives (λ x. x) result (version_of (view value.now)) }
{
    match count(value, 2, Wanted::Version)? {
        1 => Ok(Version::One),
        2 => Ok(Version::Two),
        _ => Err(Misread::bad_shape(Wanted::Version)),
    }
}

/// Reads the charge of a link: 0 to `lawful`, default 0. Version 1 ignores the key.
pub(crate) fn read_charge(
    alloc: Global,
    version: Version,
    link: &Value,
    lawful: u64,
) -> Result<u64, Misread>
    ensures value { Gives (λ x. x) result (charge_of version (view link.now)) }
{
    let Version::Two = version else {
        return Ok(0);
    };
    member_or(
        alloc,
        link,
        Field::Charge,
        0,
        |charge| amount(charge, lawful),
    )
}

/// Returns the most links of a problem of this version.
pub fn most_links(version: Version) -> usize
    ensures value { result ≡ links_at_most version }
{
    match version {
        Version::One => 4096,
        Version::Two => MOST_LINKS,
    }
}
