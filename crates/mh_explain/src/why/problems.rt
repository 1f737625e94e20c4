//! Explanations of links and costs that do not make a problem.
use crate::spot::Spot;
use crate::values::known;
use crate::words::{numbered, why_too_many};
use mh_base::NoMemory;
use mh_json::readers::{most_links, read_rows};
use mh_json::{Field, Key};
use mh_network::{GREATEST_SUM, LinkRow, MOST_NEEDS, ProblemFault};
use mh_site::Version;
use std::alloc::Global;

/// Explains why links and costs do not make a problem.
pub(crate) fn why_none(
    alloc: Global,
    cause: ProblemFault,
    spot: &Spot<'_>,
) -> Result<String, NoMemory> {
    let Some(problem) = spot.problem() else {
        return Ok(String::new(alloc));
    };
    let Some(rows) = known(read_rows(alloc, problem))? else {
        return Ok(String::new(alloc));
    };
    let (links, costs) = (rows.links.as_slice(), rows.costs.as_slice());
    let version = rows.version;
    match cause {
        ProblemFault::NoMemory => Ok(String::new(alloc)),
        ProblemFault::GainTooLarge => why_gains(alloc, links),
        ProblemFault::CostTooLarge => why_costs(alloc, links, costs),
        ProblemFault::TooManyLinks => {
            let (most, later) = (most_links(version), most_links(Version::Two));
            why_too_many(alloc, "links", links.len(), most, later)
        }
        ProblemFault::TooManyPoints => {
            let (most, later) = (version.most_points(), Version::Two.most_points());
            why_too_many(alloc, "points", costs.len(), most, later)
        }
        ProblemFault::NeedOutOfRange
        | ProblemFault::NeedsNotAscending
        | ProblemFault::TooManyNeeds => match link_in(spot.path, links) {
            Some((link, row)) => {
                let needs = why_needs(alloc, cause, row.needs.as_slice(), costs.len())?;
                Ok(format!(in alloc; "links[{link}] {needs}")?)
            }
            None => Ok(String::new(alloc)),
        },
    }
}

/// Returns the link whose needs are at the end of a path, with its number.
fn link_in<'a>(path: &[Key], links: &'a [LinkRow]) -> Option<(usize, &'a LinkRow)> {
    let [.., Key::Item(link), Key::Member(Field::Needs)] = path else {
        return None;
    };
    Some((*link, links.get(*link)?))
}

fn why_gains(alloc: Global, links: &[LinkRow]) -> Result<String, NoMemory> {
    let mut sum: u128 = 0;
    for link in links {
        if link.eligible {
            sum = sum.saturating_add(u128::from(link.gain));
        }
    }
    Ok(format!(in alloc;
        "the gains of the links that may be chosen add up to {sum}, past {GREATEST_SUM}"
    )?)
}

fn why_costs(alloc: Global, links: &[LinkRow], costs: &[u64]) -> Result<String, NoMemory> {
    let mut sum: u128 = 0;
    for cost in costs {
        sum = sum.saturating_add(u128::from(*cost));
    }
    let charges = sum_of_charges(links);
    let all = sum.saturating_add(charges);
    Ok(format!(in alloc; "the costs and charges add up to {all}, past {GREATEST_SUM}")?)
}

fn sum_of_charges(links: &[LinkRow]) -> u128 {
    let mut sum: u128 = 0;
    for link in links {
        sum = sum.saturating_add(u128::from(link.charge));
    }
    sum
}

/// Explains what is wrong with the needs of a link, given the number of points.
fn why_needs(
    alloc: Global,
    cause: ProblemFault,
    needs: &[u32],
    points: usize,
) -> Result<String, NoMemory> {
    match cause {
        ProblemFault::NeedOutOfRange => {
            let need = need_past(needs, points);
            let points = numbered(alloc, points, "point", "points")?;
            Ok(format!(in alloc; "needs point {need}, and {points}")?)
        }
        ProblemFault::NeedsNotAscending => {
            let (before, need) = descent(needs);
            Ok(format!(in alloc; "needs point {need} behind point {before}, and needs ascend")?)
        }
        _ => {
            let found = needs.len();
            Ok(format!(in alloc; "has {found} needs, and at most {MOST_NEEDS} may be")?)
        }
    }
}

/// Returns the first need that is not the number of a point.
fn need_past(needs: &[u32], points: usize) -> u32 {
    for need in needs {
        if *need as usize >= points {
            return *need;
        }
    }
    0
}

/// Returns the first two consecutive needs that are not ascending.
fn descent(needs: &[u32]) -> (u32, u32) {
    let mut last = 0;
    for (i, need) in needs.iter().enumerate() {
        if i > 0 && *need <= last {
            return (last, *need);
        }
        last = *need;
    }
    (last, last)
}
