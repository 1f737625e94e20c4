//! The points of a script, and their names.
ghost use Rattle.std.specs.Prelude.{◌≡◌, IfOk};
ghost use Rattle.serde_json.specs.View.{view};
ghost use Rattle.mh_json.specs.Gives.{Gives};
ghost use Rattle.mh_json.specs.Shape.{text_of};
ghost use Rattle.mh_json.specs.Script.{point_of, points_of, point_names_of, named_points_of};
ghost use Rattle.mh_json.specs.Trees.{named_point_of};

use crate::json::scope::Scope;
use crate::json::shape::{amount, each, member, text};
use crate::json::wanted::{Named, Wanted};
use crate::key::Field;
use crate::misread::Misread;
use mh_site::{GREATEST_COST, Listing, Name, Names, Point};
use serde_json::Value;
use std::alloc::{AllocError, Global};

/// Reads a name.
pub fn read_name(alloc: Global, value: &Value) -> Result<Name, Misread>
    ensures value { Gives (λ x. x) result (text_of (view value.now)) }
{
    Ok(Name::new(alloc, text(value, Wanted::Text)?)?)
}

/// Reads a point: its name, then its cost.
pub fn read_point(alloc: Global, value: &Value) -> Result<Point, Misread>
    ensures value { Gives (λ x. x) result (point_of (view value.now)) }
{
    let name = member(alloc, value, Field::Name, |name| read_name(alloc, name))?;
    let cost = member(
        alloc,
        value,
        Field::Cost,
        |cost| amount(cost, GREATEST_COST),
    )?;
    Ok(Point { name, cost })
}

/// Reads the points of a definition.
pub fn read_points(alloc: Global, value: &Value) -> Result<Listing<Point>, Misread>
    ensures value { Gives (λ x. x) result (points_of (view value.now)) }
{
    each(alloc, value, |point| read_point(alloc, point))
}

/// The names of the points, by number.
pub fn point_names(alloc: Global, points: &[Point]) -> Result<Names, AllocError>
    ensures value { IfOk result (λ names. names ≡ point_names_of points.now) }
{
    let mut names = Names::new(alloc);
    for point in points {
        names.add(point.name.as_str())?;
    }
    Ok(names)
}

/// Returns the number of a point by its name, or one past the last number if no point has the name.
pub fn read_named_point(scope: &Scope, value: &Value) -> Result<u32, Misread>
    ensures value { Gives (λ x. x) result (named_point_of scope.now.points (view value.now)) }
{
    Ok(scope.point_number(text(value, Wanted::NameOf(Named::Point))?))
}

/// Reads a list of names of points, and returns their numbers.
pub fn read_named_points(
    alloc: Global,
    scope: &Scope,
    value: &Value,
) -> Result<Listing<u32>, Misread>
    ensures value { Gives (λ x. x) result (named_points_of scope.now.points (view value.now)) }
{
    each(alloc, value, |name| read_named_point(scope, name))
}
