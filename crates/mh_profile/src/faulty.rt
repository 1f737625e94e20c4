//! The line of a profile that has its fault, for explanations.
ghost use Rattle.std.specs.Prelude.{◌≡◌, ◌≢◌, ◌<◌, ◌≤◌, ◌==◌, ◌⊎◌, ℕ, length, slice_index_or, string_bytes, IfSome, IsTrue, Err, Some};
ghost use Rattle.std.specs.List.{HoldsAt, IsFirstMatchOrLen};
ghost use Rattle.serde_json.specs.Find.{as_str};
ghost use Rattle.serde_json.specs.View.{view};
ghost use Rattle.mh_json.specs.Gives.{at_place};
ghost use Rattle.mh_json.specs.declared.fault.TextFault.TheVariants.{Input};
ghost use Rattle.mh_profile.specs.Faulty.{is_new, IsFaulty, IsUnknown};
ghost use Rattle.mh_profile.specs.Profiles.{text_of_line};

use crate::claim::{last_line_start, line_count, read_lines};
use crate::line::read_line;
use crate::names::PointNames;
use crate::profile::Profile;
use mh_json::readers::{list, parse_json};
use mh_json::{InputFault, Wanted};
use mh_network::Listing;
use serde_json::Value;
use std::alloc::Global;

/// A line that has a fault, and the names of the points before it.
#[derive(Drop)]
pub struct FaultyLine {
    /// Its number, from 1.
    pub number: u64,
    /// Its bytes, without its end.
    pub bytes: Listing<u8>,
    /// The names of the points of the lines before it.
    pub points: PointNames,
}

/// Returns the number of the first line that has a fault, or 0 if none has one or memory ran out.
fn faulty_number(alloc: Global, lines: &[u8]) -> u64 {
    match read_lines(alloc, lines) {
        Ok(_) => 0,
        Err(fault) => fault.at,
    }
}

/// Returns the index at which the line of this number ends, or the length if there are fewer lines.
fn line_stop(lines: &[u8], number: u64) -> usize
    ensures inside { result ≤ length lines.now }
    ensures ended { (result ≡ length lines.now) ⊎ (slice_index_or lines.now result 0 ≡ 10) }
{
    let mut ended: u64 = 0;
    let mut at = 0;
    while at < lines.len() {
        if lines[at] == b'\n' {
            ended = ended.saturating_add(1);
            if ended == number {
                return at;
            }
        }
        at += 1;
    }
    at
}

/// Returns whether the next line, with these bytes, has this fault.
#[tactic(auto, using(crate::proofs::LineFaults::line_fault))]
fn has_fault(alloc: Global, profile: Profile, number: u64, bytes: &[u8], fault: InputFault) -> bool
    requires of_line { fault ≢ InputFault.NoMemory }
    ensures value { IsTrue result → at_place number (text_of_line number profile bytes.now)
        ≡ Err (record { kind = Input fault; at = number }) }
{
    match read_line(alloc, profile, number, bytes) {
        Ok(_) => false,
        Err(misread) => misread.fault() == fault,
    }
}

/// Returns a copy of bytes, unless memory runs out.
fn copied(alloc: Global, bytes: &[u8]) -> Option<Listing<u8>>
    ensures value { IfSome result (λ copy. copy ≡ bytes.now) }
{
    let mut copy = Vec::new(alloc);
    copy.extend_from_slice(bytes).ok()?;
    Some(Listing::from_vec(copy))
}

/// Returns the first line that has a fault, if the fault is this one.
///
/// Returns `None` if the fault has no line: memory ran out, a line or all lines are too long, or a
/// sum exceeds its limit; and if memory runs out here.
pub fn faulty_line(alloc: Global, lines: &[u8], fault: InputFault) -> Option<FaultyLine>
    ensures value { IfSome result (IsFaulty lines.now fault) }
{
    if fault == InputFault::NoMemory {
        return None;
    }
    let number = faulty_number(alloc, lines);
    let whole = &lines[..line_stop(lines, number)];
    let start = last_line_start(whole);
    let (before, bytes) = (&whole[..start], &whole[start..]);
    if line_count(before) != number {
        return None;
    }
    let Ok(profile) = read_lines(alloc, before) else {
        return None;
    };
    if !has_fault(alloc, profile, number, bytes, fault) {
        return None;
    }
    // The reading of the line took the profile.
    let Ok(profile) = read_lines(alloc, before) else {
        return None;
    };
    Some(FaultyLine {
        number,
        bytes: copied(alloc, bytes)?,
        points: profile.points,
    })
}

/// Returns whether a value is the name of no point.
fn is_new_name(points: &PointNames, value: &Value) -> bool
    ensures value { result ≡ is_new points.now (as_str (view value.now)) }
{
    match value.as_str() {
        Some(name) => !points.contains(name),
        None => false,
    }
}

/// Returns the index of the first need that names no point, or the length if each names one.
fn new_place(points: &PointNames, needs: &[Value]) -> usize
    ensures inside { result ≤ length needs.now }
    ensures value { IsFirstMatchOrLen (λ v. is_new points.now (as_str (view v))) needs.now result }
{
    let mut at = 0;
    while at < needs.len() {
        if is_new_name(points, &needs[at]) {
            return at;
        }
        at += 1;
    }
    at
}

/// Returns the first need that names no point.
fn new_name<'a>(points: &PointNames, needs: &'a [Value]) -> Option<&'a str>
    ensures value { IfSome result (λ name. (at : ℕ) × (at < length needs.now)
        × IsFirstMatchOrLen (λ v. is_new points.now (as_str (view v))) needs.now at
        × HoldsAt (λ v. as_str (view v) ≡ Some name.now) needs.now at) }
{
    let at = new_place(points, needs);
    if at < needs.len() {
        needs[at].as_str()
    } else {
        None
    }
}

impl FaultyLine {
    /// Returns the first name among its needs that no point before it has, or `None` if there is
    /// none or memory runs out.
    pub fn unknown_need(&self, alloc: Global) -> Option<String>
        ensures value { IfSome result (λ name. IsUnknown self.now (string_bytes name)) }
    {
        let Ok(value) = parse_json(alloc, self.bytes.as_slice()) else {
            return None;
        };
        let Ok(needs) = list(value.get("needs")?, Wanted::List) else {
            return None;
        };
        let name = new_name(&self.points, needs)?;
        String::from_str(alloc, name).ok()
    }
}
