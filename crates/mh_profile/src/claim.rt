//! Claims: a profile, followed by a line that claims to be an optimal plan of it.
ghost use Rattle.std.specs.Prelude.{◌≡◌, ◌≢◌, ◌⊎◌, ◌==◌, ◌<◌, ◌≤◌, ◌+◌, IfOk, IfErr, IfSome, OnOk, List, ℕ, length};
ghost use Rattle.std.specs.Io.KnownBytes.{IsAtEnd};
ghost use Rattle.std.specs.List.{IsAfterLastMatch};
ghost use Rattle.serde_json.specs.View.{view};
ghost use Rattle.mh_text.specs.Bytes.{HasFailed, LosesAtMost};
ghost use Rattle.mh_json.specs.Gives.{at_place, no_memory, too_long, Gives, GivesAt, IsOfInput, outside};
ghost use Rattle.mh_text.specs.Honest.{IsHonestReading};
ghost use Rattle.mh_text.specs.Output.{IsUnread};
ghost use Rattle.mh_json.specs.declared.fault.TextFault.TheVariants.{ReadFailed};
ghost use Rattle.mh_profile.specs.Claims.{claimed_plan, plan_in_line, is_said, IsClaim, IsClaimFault, IsParted, IsReadClaim, IsReadClaimFault};
ghost use Rattle.mh_profile.specs.Limits.{most_in_claim};
ghost use Rattle.mh_profile.specs.Lines.{lines_of};
ghost use Rattle.mh_profile.specs.Profiles.{profile_of};

use crate::profile::Profile;
use crate::reader::{LineReader, placed};
use mh_cert::Plan;
use mh_json::readers::{parse_json, read_plan_value};
use mh_json::{Fault, Misread};
use mh_network::Problem;
use mh_text::{Watched, read_up_to};
use serde_json::Value;
use std::alloc::Global;
use std::io::Read;

/// The most bytes of a profile together with the line of its plan: twice those of a profile.
const LIMIT: usize = 134_217_728;

/// A problem, and a claimed optimal plan of it.
#[derive(Drop)]
pub(crate) struct Claim {
    pub(crate) problem: Problem,
    pub(crate) plan: Plan,
}

/// Returns whether a byte is neither white space nor the end of a line.
fn says_something(byte: u8) -> bool
    ensures value { result ≡ is_said byte }
{
    !matches!(byte, b' ' | b'\t' | b'\r' | b'\n')
}

/// Returns the number of bytes before the white space at the end.
fn said_len(bytes: &[u8]) -> usize
    ensures inside { result ≤ length bytes.now }
    ensures value { IsAfterLastMatch is_said bytes.now result }
{
    let mut end = bytes.len();
    while end > 0 && !says_something(bytes[end - 1]) {
        end -= 1;
    }
    end
}

/// Returns the index at which the last line begins.
pub(crate) fn last_line_start(bytes: &[u8]) -> usize
    ensures inside { result ≤ length bytes.now }
    ensures value { IsAfterLastMatch (λ b. b == 10) bytes.now result }
{
    let mut start = bytes.len();
    while start > 0 && bytes[start - 1] != b'\n' {
        start -= 1;
    }
    start
}

/// Returns the last line that is not white space, and the bytes before it.
fn part(input: &[u8]) -> (&[u8], &[u8])
    ensures value { IsParted input.now result.0.now result.1.now }
{
    let said = &input[..said_len(input)];
    let start = last_line_start(said);
    (&said[..start], &said[start..])
}

/// Returns the number of lines in these bytes, including one that has begun.
pub(crate) fn line_count(bytes: &[u8]) -> u64
    ensures value { result ≡ length (lines_of bytes.now) }
{
    let mut number = 1;
    for byte in bytes {
        if *byte == b'\n' {
            number += 1;
        }
    }
    number
}

/// Reads the plan at the key `plan` of a value, or the value itself if it has no such key.
fn read_claimed(alloc: Global, value: &Value) -> Result<Plan, Misread>
    ensures value { Gives (λ x. x) result (claimed_plan (view value.now)) }
{
    match value.get("plan") {
        Some(plan) => read_plan_value(alloc, plan),
        None => read_plan_value(alloc, value),
    }
}

/// Reads the plan of a line.
fn read_plan_line(alloc: Global, line: &[u8]) -> Result<Plan, Misread>
    ensures value { Gives (λ x. x) result (plan_in_line line.now) }
{
    let value = parse_json(alloc, line)?;
    read_claimed(alloc, &value)
}

/// Reads the plan of line `number`.
fn read_numbered_plan(alloc: Global, number: u64, line: &[u8]) -> Result<Plan, Fault>
    ensures value { GivesAt (λ x. x) result (at_place number (plan_in_line line.now)) }
    ensures kind { IfErr result (λ e. IsOfInput e.kind) }
{
    match read_plan_line(alloc, line) {
        Ok(plan) => Ok(plan),
        Err(misread) => Err(placed(misread.fault(), number)),
    }
}

/// Reads the profile in these lines.
pub(crate) fn read_lines(alloc: Global, lines: &[u8]) -> Result<Profile, Fault>
    ensures value { GivesAt (λ x. x) result (profile_of lines.now) }
    ensures kind { IfErr result (λ e. IsOfInput e.kind) }
{
    LineReader::new(alloc).take(lines)?.finish()
}

/// Reads the problem in these lines, and the plan in the line that follows them.
fn read_parts(alloc: Global, lines: &[u8], line: &[u8]) -> Result<Claim, Fault>
    ensures ok { IfOk result (λ claim. IsClaim lines.now line.now claim.problem claim.plan) }
    ensures kind { IfErr result (λ e. IsOfInput e.kind) }
    ensures failed { IfErr result (λ e. (e ≡ outside no_memory) ⊎ IsClaimFault lines.now line.now e) }
{
    let problem = read_lines(alloc, lines)?.into_problem()?.problem;
    let plan = read_numbered_plan(alloc, line_count(lines), line)?;
    Ok(Claim { problem, plan })
}

/// Returns the lines of the profile in an input that ends with a plan.
pub fn claimed_lines(input: &[u8]) -> &[u8]
    ensures value { (line : List ℕ) × IsParted input.now result.now line }
{
    part(input).0
}

/// Reads the input of a profile and a plan into memory.
///
/// It is read to its end, or to the first byte past 134,217,728, and is then too long.
pub fn keep_claim<R: Read>(alloc: Global, reader: &mut Watched<R>) -> Result<Vec<u8>, Fault>
    ensures ok { IfOk result (λ input. IfSome (R.remaining reader.old.inner)
        (λ bytes. input.items ≡ bytes)) }
    ensures short { IfOk result (λ input. length input.items ≤ most_in_claim) }
    ensures long { IfErr result (λ e. (e ≡ outside no_memory) ⊎ (e ≡ outside ReadFailed)
        ⊎ ((e ≡ outside too_long) × IfSome (R.remaining reader.old.inner)
        (λ bytes. most_in_claim < length bytes))) }
    ensures failed { IfErr result (IsUnread IsReadClaimFault (R.remaining reader.old.inner)
        (HasFailed reader.old.failures reader.new.failures)) }
    ensures honest { IsHonestReading result reader.old.failures reader.new.failures }
    ensures others { IfErr result (λ e. e.kind ≢ ReadFailed
        → reader.new.failures ≡ reader.old.failures) }
    ensures end { OnOk result (IsAtEnd (R.remaining reader.new.inner)) }
    ensures most { LosesAtMost (most_in_claim + 1) (R.remaining reader.old.inner)
        (R.remaining reader.new.inner) }
{
    Ok(read_up_to(alloc, reader, LIMIT)?)
}

/// Reads the problem and the plan in an input.
pub(crate) fn read_claim<R: Read>(alloc: Global, reader: &mut Watched<R>) -> Result<Claim, Fault>
    ensures ok { IfOk result (λ claim. IfSome (R.remaining reader.old.inner)
        (λ input. IsReadClaim input claim.problem claim.plan)) }
    ensures failed { IfErr result (IsUnread IsReadClaimFault (R.remaining reader.old.inner)
        (HasFailed reader.old.failures reader.new.failures)) }
    ensures honest { IsHonestReading result reader.old.failures reader.new.failures }
    ensures others { IfErr result (λ e. e.kind ≢ ReadFailed
        → reader.new.failures ≡ reader.old.failures) }
    ensures end { OnOk result (IsAtEnd (R.remaining reader.new.inner)) }
    ensures most { LosesAtMost (most_in_claim + 1) (R.remaining reader.old.inner)
        (R.remaining reader.new.inner) }
{
    let input = keep_claim(alloc, reader)?;
    let (lines, line) = part(&input);
    read_parts(alloc, lines, line)
}
