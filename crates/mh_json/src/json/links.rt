//! The links of a site.
ghost use Rattle.std.specs.Prelude.{◌≡◌};
ghost use Rattle.serde_json.specs.View.{view};
ghost use Rattle.mh_json.specs.Gives.{Gives};
ghost use Rattle.mh_json.specs.Script.{link_of, links_of};

use crate::json::points::read_named_points;
use crate::json::scope::Scope;
use crate::json::shape::{amount, each, member};
use crate::json::values::read_value;
use crate::json::versions::read_charge;
use crate::key::Field;
use crate::misread::Misread;
use mh_site::{GREATEST_CHARGE, GREATEST_WEIGHT, Link, Listing, Version};
use mh_type::Kind;
use serde_json::Value;
use std::alloc::Global;

/// Reads a link: its key, which has this kind, its weight, its charge and its needs.
pub fn read_link(
    alloc: Global,
    version: Version,
    scope: &Scope,
    kind: Option<Kind>,
    value: &Value,
) -> Result<Link, Misread>
    ensures value { Gives (λ x. x) result (link_of version scope.now.points kind
        (view value.now)) }
{
    let when = member(
        alloc,
        value,
        Field::When,
        |when| read_value(alloc, kind, when),
    )?;
    let weight = member(
        alloc,
        value,
        Field::Weight,
        |weight| amount(weight, GREATEST_WEIGHT),
    )?;
    let charge = read_charge(alloc, version, value, GREATEST_CHARGE)?;
    let needs = member(
        alloc,
        value,
        Field::Needs,
        |needs| read_named_points(alloc, scope, needs),
    )?;
    Ok(Link {
        when,
        weight,
        charge,
        needs,
    })
}

/// Reads the links of a site, whose keys have this kind.
pub fn read_links(
    alloc: Global,
    version: Version,
    scope: &Scope,
    kind: Option<Kind>,
    value: &Value,
) -> Result<Listing<Link>, Misread>
    ensures value { Gives (λ x. x) result (links_of version scope.now.points kind
        (view value.now)) }
{
    each(
        alloc,
        value,
        |link| read_link(alloc, version, scope, kind, link),
    )
}
