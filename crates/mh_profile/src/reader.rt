//! Reading lines from bytes as they come.
ghost use Rattle.std.specs.Prelude.{◌≡◌, ◌∷◌, ◌++◌, ◌≤◌, ◌+◌, ◌⊎◌, ◌==◌, ◌&&◌, [], List, ℕ, length, nat_le, IfOk, IfErr, IfSome, IfNone};
ghost use Rattle.mh_json.specs.Inputs.{most_bytes};
ghost use Rattle.std.specs.List.{position};
ghost use Rattle.mh_json.specs.Gives.{no_memory, at_place, GivesAt, IsOfInput, outside};
ghost use Rattle.mh_json.specs.declared.fault.TextFault.TheVariants as text;
ghost use Rattle.mh_profile.specs.Limits.{most_in_all};
ghost use Rattle.mh_profile.specs.Lines.{IsInLine};
ghost use Rattle.mh_profile.specs.Profiles.{profile_of, text_of_line};
ghost use Rattle.mh_profile.specs.Readers.{resumed, taken_by, IsBegun, IsReading, Takes};

use crate::line::read_line;
use crate::profile::Profile;
use mh_base::Listing;
use mh_json::{Fault, InputFault, TextFault};
use std::alloc::Global;

/// The most bytes of a line, without its end.
const LONGEST_LINE: usize = 1_048_576;

/// The most bytes of all lines together.
pub(crate) const LIMIT: u64 = 67_108_864;

/// A profile, as far as its lines were read. It holds the line that has begun, and no other.
#[derive(Drop)]
pub struct LineReader {
    alloc: Global,
    /// The contents of the lines read so far.
    profile: Profile,
    /// The bytes of the line that has begun.
    line: Listing<u8>,
    /// The number of that line, from 1.
    number: u64,
    /// The number of bytes before that line.
    offset: u64,
}

/// Returns the index at which the first line of bytes ends.
fn line_end(bytes: &[u8]) -> Option<usize>
    ensures value { result ≡ position (λ b. b == 10) bytes.now }
{
    bytes.iter().position(|byte| *byte == b'\n')
}

/// Returns the first line of bytes, and the bytes after its end, if a line ends in them.
fn split_line(bytes: &[u8]) -> Option<(&[u8], &[u8])>
    ensures found { IfSome result (λ parts. IsInLine parts.0.now
        × (bytes.now ≡ (parts.0.now ++ 10 ∷ []) ++ parts.1.now)) }
    ensures none { IfNone result (IsInLine bytes.now) }
{
    match line_end(bytes) {
        Some(end) => Some((&bytes[..end], &bytes[end + 1..])),
        None => None,
    }
}

/// Returns the fault of line `at`; running out of memory is a fault of no line.
pub(crate) fn placed(fault: InputFault, at: u64) -> Fault
    ensures memory { fault ≡ InputFault.NoMemory → result ≡ outside no_memory }
    ensures other { (fault ≡ InputFault.NoMemory → ⊥)
        → result ≡ record { kind = text.Input fault; at = at } }
    ensures kind { result.kind ≡ text.Input fault }
{
    let kind = TextFault::Input(fault);
    match fault {
        InputFault::NoMemory => Fault { kind, at: 0 },
        _ => Fault { kind, at },
    }
}

/// Adds what line `number`, with these bytes, declares to a profile.
fn read_numbered(
    alloc: Global,
    profile: Profile,
    number: u64,
    bytes: &[u8],
) -> Result<Profile, Fault>
    ensures value { GivesAt (λ x. x) result (at_place number (text_of_line number profile bytes.now)) }
    ensures kind { IfErr result (λ e. IsOfInput e.kind) }
{
    match read_line(alloc, profile, number, bytes) {
        Ok(profile) => Ok(profile),
        Err(misread) => Err(placed(misread.fault(), number)),
    }
}

/// Returns whether a line of this length, after so many bytes, is within the limits.
fn is_within(offset: u64, length: usize) -> bool
    requires started { offset ≤ most_in_all + 1 }
    ensures value { result ≡ (nat_le length most_bytes && nat_le (offset + length) most_in_all) }
{
    length <= LONGEST_LINE && offset + length as u64 <= LIMIT
}

impl LineReader {
    /// Returns a reader before the first line.
    pub fn new(alloc: Global) -> LineReader
        ensures value { (input : List ℕ) → resumed result input ≡ profile_of input }
        ensures reading { IsReading result }
        ensures none { taken_by result ≡ 0 }
    {
        LineReader {
            alloc,
            profile: Profile::new(alloc),
            line: Listing::from_vec(Vec::new(alloc)),
            number: 1,
            offset: 0,
        }
    }

    /// Appends bytes to the line that has begun.
    fn with_part(self, part: &[u8]) -> Result<LineReader, Fault>
        requires begun { IsBegun self }
        requires whole { IsInLine part.now }
        ensures reading { IfOk result IsReading }
        ensures counts { IfOk result (λ next. taken_by next ≡ taken_by self + length part.now) }
        ensures takes { Takes self part.now result }
        ensures kind { IfErr result (λ e. IsOfInput e.kind) }
    {
        let LineReader {
            alloc,
            profile,
            line,
            number,
            offset,
        } = self;
        let mut line = line.into_vec();
        line.extend_from_slice(part)?;
        let line = Listing::from_vec(line);
        if !is_within(offset, line.len()) {
            return Err(Fault {
                kind: TextFault::Input(InputFault::TooLong),
                at: number,
            });
        }
        Ok(LineReader {
            alloc,
            profile,
            line,
            number,
            offset,
        })
    }

    /// Ends the line that has begun, and reads it.
    fn with_end(self) -> Result<LineReader, Fault>
        requires reading { IsReading self }
        ensures begun { IfOk result IsBegun }
        ensures counts { IfOk result (λ next. taken_by next ≡ taken_by self + 1) }
        ensures takes { Takes self (10 ∷ []) result }
        ensures kind { IfErr result (λ e. IsOfInput e.kind) }
    {
        let LineReader {
            alloc,
            profile,
            line,
            number,
            offset,
        } = self;
        let profile = read_numbered(alloc, profile, number, line.as_slice())?;
        let offset = offset + line.len() as u64 + 1;
        let mut line = line.into_vec();
        line.clear();
        Ok(LineReader {
            alloc,
            profile,
            line: Listing::from_vec(line),
            number: number + 1,
            offset,
        })
    }

    /// Appends the rest of the line that has begun, and reads it.
    fn with_line(self, part: &[u8]) -> Result<LineReader, Fault>
        requires begun { IsBegun self }
        requires whole { IsInLine part.now }
        ensures begun { IfOk result IsBegun }
        ensures counts { IfOk result (λ next. taken_by next ≡ taken_by self + length part.now + 1) }
        ensures takes { Takes self (part.now ++ 10 ∷ []) result }
        ensures kind { IfErr result (λ e. IsOfInput e.kind) }
    {
        self.with_part(part)?.with_end()
    }

    /// Takes more bytes, with any number of ends of lines.
    ///
    /// Fails with the first fault of the lines that end in them, with `TooLong` as soon as a line,
    /// or all lines, exceed their limit, or if memory runs out.
    pub fn take(self, bytes: &[u8]) -> Result<LineReader, Fault>
        requires reading { IsReading self }
        ensures reading { IfOk result IsReading }
        ensures counts { IfOk result (λ next. taken_by next ≡ taken_by self + length bytes.now) }
        ensures takes { Takes self bytes.now result }
        ensures kind { IfErr result (λ e. IsOfInput e.kind) }
    {
        let mut reader = self;
        let mut rest = bytes;
        while let Some((part, more)) = split_line(rest) {
            reader = reader.with_line(part)?;
            rest = more;
        }
        reader.with_part(rest)
    }

    /// Returns the profile, of which the line that has begun is the last.
    pub fn finish(self) -> Result<Profile, Fault>
        requires reading { IsReading self }
        ensures value { GivesAt (λ x. x) result (resumed self []) }
        ensures kind { IfErr result (λ e. IsOfInput e.kind) }
    {
        let LineReader {
            alloc,
            profile,
            line,
            number,
            ..
        } = self;
        read_numbered(alloc, profile, number, line.as_slice())
    }
}
