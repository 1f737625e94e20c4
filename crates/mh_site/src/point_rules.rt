//! The rules of points, in the order in which they are tested.

ghost use Rattle.std.specs.Prelude.{◌≡◌, Some, None, IfSome, MatchResult, map};
ghost use Rattle.std.specs.List.{list_any};
ghost use Rattle.mh_base.specs.Listed.{first_failing};
ghost use Rattle.mh_site.specs.Definitions.{names_point};
ghost use Rattle.mh_site.specs.Places.{placed_point_tests, placed_points};

use crate::fault::DefinitionFault;
use crate::names::{Names, with_one_more};
use crate::place::{DefinitionMisfit, PointPart, demand_of_point};
use crate::point::Point;
use std::alloc::Global;

/// The greatest cost of a point.
pub const GREATEST_COST: u64 = 1 << 40;

// Runs the tests of all points, in order. If memory is refused, names are compared one by one.
pub(crate) fn test_points(alloc: Global, points: &[Point]) -> Result<(), DefinitionMisfit>
    ensures value { MatchResult result (λ _. first_failing (placed_points points.now) ≡ None)
        (λ m. first_failing (placed_points points.now) ≡ Some m) }
{
    let mut seen = Some(Names::new(alloc));
    for (index, point) in points.iter().enumerate() {
        test_point(index, seen.as_ref(), &points[..index], point)?;
        seen = with_one_more(seen, point.name.as_str());
    }
    Ok(())
}

// Runs the tests of the point with this number, which comes after the earlier ones. Their names are
// in the table, if there is one.
fn test_point(
    index: usize,
    seen: Option<&Names>,
    earlier: &[Point],
    point: &Point,
) -> Result<(), DefinitionMisfit>
    requires seen { IfSome seen (λ names. names.now ≡ map (λ p. p.name) earlier.now) }
    ensures value { MatchResult result
        (λ _. first_failing (placed_point_tests index earlier.now point.now) ≡ None)
        (λ m. first_failing (placed_point_tests index earlier.now point.now) ≡ Some m) }
{
    demand_of_point(
        point.name.is_lawful(),
        DefinitionFault::BadName,
        index,
        PointPart::Name,
    )?;
    demand_of_point(
        !is_seen(seen, earlier, point.name.as_str()),
        DefinitionFault::NameTwice,
        index,
        PointPart::Whole,
    )?;
    demand_of_point(
        point.cost <= GREATEST_COST,
        DefinitionFault::CostTooLarge,
        index,
        PointPart::Cost,
    )
}

// Returns whether an earlier point has this name, using the table of their names if there is one.
fn is_seen(seen: Option<&Names>, earlier: &[Point], name: &str) -> bool
    requires seen { IfSome seen (λ names. names.now ≡ map (λ p. p.name) earlier.now) }
    ensures value { result ≡ list_any (names_point name.now) earlier.now }
{
    match seen {
        Some(names) => names.contains(name),
        None => is_point_name(earlier, name),
    }
}

// Returns whether a point has this name.
fn is_point_name(points: &[Point], name: &str) -> bool
    ensures value { result ≡ list_any (names_point name.now) points.now }
{
    for point in points {
        if name == point.name.as_str() {
            return true;
        }
    }
    false
}
