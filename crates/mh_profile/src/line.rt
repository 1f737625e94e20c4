//! Reading a line of a profile: a point, or a link.
ghost use Rattle.std.specs.Prelude.{◌≡◌, codes};
ghost use Rattle.serde_json.specs.Find.{get};
ghost use Rattle.serde_json.specs.View.{view};
ghost use Rattle.mh_json.specs.Gives.{Gives};
ghost use Rattle.mh_profile.specs.Lines.{is_blank};
ghost use Rattle.mh_profile.specs.Profiles.{amount_of, amount_where, eligible_where, entry_of, link_of, needs_among, needs_where, place_named, places_named, point_of, row_of, text_of_line};

use crate::names::PointNames;
use crate::profile::Profile;
use mh_base::are_below;
use mh_json::readers::{count, each, parse_json, part, text};
use mh_json::{Field, InputFault, Misread, Wanted};
use mh_network::{LinkRow, Listing};
use serde_json::Value;
use std::alloc::Global;

/// The greatest amount of a line: 2^63 - 1.
const MOST: u64 = 0x7fff_ffff_ffff_ffff;

/// Reads an amount whose key is required.
fn amount(value: &Value, key: Field) -> Result<u64, Misread>
    ensures value { Gives (λ x. x) result (amount_of key (view value.now)) }
{
    count(part(value, key)?, MOST, Wanted::up_to(MOST))
}

/// Reads the charge of a link, 0 by default.
fn charge(link: &Value) -> Result<u64, Misread>
    ensures value { Gives (λ x. x) result
        (amount_where (get (codes "charge") (view link.now))) }
{
    match link.get("charge") {
        Some(charge) => count(charge, MOST, Wanted::up_to(MOST)),
        None => Ok(0),
    }
}

/// Reads whether a link is eligible, true by default.
fn eligible(link: &Value) -> Result<bool, Misread>
    ensures value { Gives (λ x. x) result
        (eligible_where (get (codes "eligible") (view link.now))) }
{
    match link.get("eligible") {
        Some(eligible) => eligible.as_bool().ok_or(Misread::of(InputFault::BadShape)),
        None => Ok(true),
    }
}

/// Returns the number of the point that a value names, or the number of points if it names none.
fn place(points: &PointNames, name: &Value) -> Result<u32, Misread>
    ensures value { Gives (λ x. x) result (place_named points.now (view name.now)) }
{
    Ok(points.place(text(name, Wanted::Text)?) as u32)
}

/// Returns the numbers of the points that a list names.
fn named_places(alloc: Global, points: &PointNames, names: &Value) -> Result<Listing<u32>, Misread>
    ensures value { Gives (λ x. x) result (places_named points.now (view names.now)) }
{
    each(alloc, names, |name| place(points, name))
}

/// Returns the points that were named, ascending, if each exists and none was named twice.
fn needs_among_points(points: usize, named: Listing<u32>) -> Result<Listing<u32>, Misread>
    ensures value { Gives (λ x. x) result (needs_among points named) }
{
    if !are_below(named.as_slice(), points) {
        return Err(Misread::of(InputFault::UnknownPoint));
    }
    let count = named.len();
    let mut needs = named.into_vec();
    needs.sort_unstable();
    needs.dedup();
    let needs = Listing::from_vec(needs);
    if needs.len() == count {
        Ok(needs)
    } else {
        Err(Misread::of(InputFault::NeedTwice))
    }
}

/// Reads the points that a link needs, none by default.
fn needs(alloc: Global, points: &PointNames, link: &Value) -> Result<Listing<u32>, Misread>
    ensures value { Gives (λ x. x) result (needs_where points.now (get (codes "needs") (view link.now))) }
{
    let Some(names) = link.get("needs") else {
        return Ok(Listing::from_vec(Vec::new(alloc)));
    };
    let named = named_places(alloc, points, names)?;
    needs_among_points(points.len(), named)
}

/// Reads a link: its gain, its charge, whether it is eligible, and its needs.
fn read_row(alloc: Global, points: &PointNames, link: &Value) -> Result<LinkRow, Misread>
    ensures value { Gives (λ x. x) result (row_of points.now (view link.now)) }
{
    let gain = amount(link, Field::Gain)?;
    let charge = charge(link)?;
    let eligible = eligible(link)?;
    let needs = needs(alloc, points, link)?;
    Ok(LinkRow {
        gain,
        eligible,
        needs,
        charge,
    })
}

/// Adds the point of line `line` to a profile.
fn read_point(profile: Profile, line: u64, value: &Value, name: &Value) -> Result<Profile, Misread>
    ensures value { Gives (λ x. x) result (point_of line profile (view value.now) (view name.now)) }
{
    let name = text(name, Wanted::Text)?;
    let cost = amount(value, Field::Cost)?;
    profile.with_point(line, name, cost)
}

/// Adds the link of line `line` to a profile.
fn read_link(
    alloc: Global,
    profile: Profile,
    line: u64,
    value: &Value,
    name: &Value,
) -> Result<Profile, Misread>
    ensures value { Gives (λ x. x) result (link_of line profile (view value.now) (view name.now)) }
{
    let name = text(name, Wanted::Text)?;
    let row = read_row(alloc, &profile.points, value)?;
    profile.with_link(line, name, row)
}

/// Adds the point or the link of line `line` to a profile.
fn read_entry(alloc: Global, profile: Profile, line: u64, value: &Value) -> Result<Profile, Misread>
    ensures value { Gives (λ x. x) result (entry_of line profile (view value.now)) }
{
    if let Some(name) = value.get("point") {
        return read_point(profile, line, value, name);
    }
    match value.get("link") {
        Some(name) => read_link(alloc, profile, line, value, name),
        None => Err(Misread::of(InputFault::BadShape)),
    }
}

/// Returns whether bytes are white space.
fn blank(bytes: &[u8]) -> bool
    ensures value { result ≡ is_blank bytes.now }
{
    bytes
        .iter()
        .all(|byte| matches!(*byte, b' ' | b'\t' | b'\r'))
}

/// Adds what line `line`, with these bytes, declares to a profile.
pub(crate) fn read_line(
    alloc: Global,
    profile: Profile,
    line: u64,
    bytes: &[u8],
) -> Result<Profile, Misread>
    ensures value { Gives (λ x. x) result (text_of_line line profile bytes.now) }
{
    if blank(bytes) {
        return Ok(profile);
    }
    let value = parse_json(alloc, bytes)?;
    read_entry(alloc, profile, line, &value)
}
