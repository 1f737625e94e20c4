//! The additions of a text in JSON to a definition.

ghost use Rattle.std.specs.Prelude.{◌≡◌, fold, IfErr, IfOk};
ghost use Rattle.serde_json.specs.View.{view};
ghost use Rattle.mh_json.specs.Gives.{Gives};
ghost use Rattle.mh_json.specs.Script.{with_site};
ghost use Rattle.mh_json.specs.declared.fault.InputFault.TheVariants.{NoMemory};
ghost use Rattle.mhlink_c.specs.Further.{further_in, further_of, names_of_all as all_names, scope_over as scope_with};
ghost use Rattle.mhlink_c.specs.Inputs.{Reads};

use crate::failure::Failure;
use mh_core::{Definition, Listing, Point, Site};
use mh_json::readers::{
    Scope, Sited, member, point_names, read_json, read_points, read_shared_trees, read_site_list,
};
use mh_json::{Field, Misread};
use mh_site::{Names, Version};
use serde_json::Value;
use std::alloc::{AllocError, Global};

/// Points and sites to be appended to a definition, and the names that later trees may use.
#[derive(Drop)]
pub(crate) struct Further {
    /// The points.
    pub(crate) points: Listing<Point>,
    /// The sites.
    pub(crate) sites: Listing<Site>,
    /// The names of all points and sites, and of the shared trees of the text.
    pub(crate) scope: Scope,
}

/// The additions of a text in JSON to a definition.
pub(crate) fn read_further(
    alloc: Global,
    definition: &Definition,
    text: &[u8],
) -> Result<Further, Failure>
    ensures value { Reads result (further_in definition.now text.now) }
{
    let value = read_json(alloc, text)?;
    Ok(read_value(alloc, definition, &value)?)
}

// Reads the additions of a JSON value to a definition.
fn read_value(alloc: Global, definition: &Definition, value: &Value) -> Result<Further, Misread>
    ensures value { Gives (λ x. x) result (further_of definition.now (view value.now)) }
{
    let points = member(
        alloc,
        value,
        Field::Points,
        |points| read_points(alloc, points),
    )?;
    let scope = scope_over(alloc, definition, points.as_slice(), value)?;
    let Sited { scope, sites } = read_site_list(alloc, Version::Two, scope, value)?;
    Ok(Further {
        points,
        sites,
        scope,
    })
}

// Returns the names that the first site may use: of all points, of the shared trees, and of the
// sites of the definition.
fn scope_over(
    alloc: Global,
    definition: &Definition,
    points: &[Point],
    value: &Value,
) -> Result<Scope, Misread>
    ensures value { Gives (λ x. x) result
        (scope_with definition.now points.now (view value.now)) }
{
    let names = names_of_all(alloc, definition.points(), points)?;
    let scope = read_shared_trees(alloc, names, value)?;
    let scope = with_sites(scope, definition.sites())?;
    Ok(scope)
}

// Returns the names of points, followed by these.
fn names_of_all(alloc: Global, own: &[Point], more: &[Point]) -> Result<Names, AllocError>
    ensures value { IfOk result (λ names. names ≡ all_names own.now more.now) }
{
    let mut names = point_names(alloc, own)?;
    for point in more {
        names.add(point.name.as_str())?;
    }
    Ok(names)
}

// Returns the names, followed by those of these sites.
fn with_sites(scope: Scope, sites: &[Site]) -> Result<Scope, Misread>
    ensures value { IfOk result (λ all. all ≡ fold with_site scope sites.now) }
    ensures refused { IfErr result (λ e. e.fault ≡ NoMemory) }
{
    let mut all = scope;
    for site in sites {
        all.add_site(site)?;
    }
    Ok(all)
}
