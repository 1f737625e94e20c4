//! Inputs of lines that are kept in memory, so that their fault can be explained.
ghost use Rattle.std.specs.Prelude.{◌≡◌, ◌≢◌, ◌<◌, ◌≤◌, ◌+◌, ◌⊎◌, ◌++◌, ℕ, List, length, Err, IfErr, IfOk, IfSome, IsErrOf, OnOk};
ghost use Rattle.std.specs.Io.KnownBytes.{Consumes, IsAtEnd};
ghost use Rattle.mh_text.specs.Bytes.{HasFailed, LosesAtMost};
ghost use Rattle.mh_json.specs.Gives.{no_memory, IsOfInput, outside};
ghost use Rattle.mh_text.specs.Honest.{IsHonestReading};
ghost use Rattle.mh_text.specs.Output.{IsUnread};
ghost use Rattle.mh_json.specs.declared.fault.TextFault.TheVariants.{ReadFailed};
ghost use Rattle.mh_profile.specs.Inputs.{IsProfileFault};
ghost use Rattle.mh_profile.specs.Limits.{most_in_all};
ghost use Rattle.mh_profile.specs.Profiles.{profile_of};

use crate::reader::{LIMIT, LineReader};
use mh_json::{Fault, InputFault, TextFault};
use mh_text::Watched;
use std::alloc::Global;
use std::io::Read;

/// Reads an input to its end, or to the first byte past the limit of all lines.
fn read_front<R: Read>(alloc: Global, reader: &mut Watched<R>) -> Result<Vec<u8>, TextFault>
    ensures taken { IfOk result (λ front. Consumes (R.remaining reader.old.inner)
        (R.remaining reader.new.inner) front.items) }
    ensures whole { IfOk result (λ front. length front.items ≤ most_in_all
        → IsAtEnd (R.remaining reader.new.inner)) }
    ensures most { LosesAtMost (most_in_all + 1) (R.remaining reader.old.inner)
        (R.remaining reader.new.inner) }
    ensures kept { OnOk result (reader.new.failures ≡ reader.old.failures) }
    ensures failed { IsErrOf result TextFault.ReadFailed
        → HasFailed reader.old.failures reader.new.failures }
    ensures others { IfErr result (λ e. e ≢ TextFault.ReadFailed
        → reader.new.failures ≡ reader.old.failures) }
    ensures kinds { IfErr result (λ e. (e ≡ no_memory) ⊎ (e ≡ TextFault.ReadFailed)) }
{
    let mut front = Vec::new(alloc);
    let mut buffer = [0u8; 8192];
    while front.len() as u64 <= LIMIT {
        let room = (LIMIT as usize + 1 - front.len()).min(buffer.len());
        let part = &mut buffer[..room];
        let n = reader.read(part)?;
        if n == 0 {
            return Ok(front);
        }
        front.extend_from_slice(&part[..n])?;
    }
    Ok(front)
}

/// Returns the first fault of lines that begin with more bytes than the limit.
fn fault_of_long(alloc: Global, front: &[u8]) -> Fault
    ensures value { (result ≡ outside no_memory)
        ⊎ ((rest : List ℕ) → profile_of (front.now ++ rest) ≡ Err result) }
    ensures kind { IsOfInput result.kind }
{
    if let Err(fault) = LineReader::new(alloc).take(front) {
        return fault;
    }
    // No reader of lines takes so many.
    Fault::from(InputFault::NoMemory)
}

/// Reads the input of a profile into memory.
///
/// It is read to its end, or to the first byte past 67,108,864. If it is longer, this fails with
/// the first fault of its lines, as `read_profile` does.
#[tactic(auto, using(crate::proofs::Longer::longer_front))]
pub fn keep_profile<R: Read>(alloc: Global, reader: &mut Watched<R>) -> Result<Vec<u8>, Fault>
    ensures ok { IfOk result (λ input. IfSome (R.remaining reader.old.inner)
        (λ bytes. input.items ≡ bytes)) }
    ensures short { IfOk result (λ input. length input.items ≤ most_in_all) }
    ensures long { IfErr result (λ e. (e ≡ outside no_memory) ⊎ (e ≡ outside ReadFailed)
        ⊎ IfSome (R.remaining reader.old.inner) (λ bytes. most_in_all < length bytes)) }
    ensures failed { IfErr result (IsUnread IsProfileFault (R.remaining reader.old.inner)
        (HasFailed reader.old.failures reader.new.failures)) }
    ensures honest { IsHonestReading result reader.old.failures reader.new.failures }
    ensures others { IfErr result (λ e. e.kind ≢ TextFault.ReadFailed
        → reader.new.failures ≡ reader.old.failures) }
    ensures end { OnOk result (IsAtEnd (R.remaining reader.new.inner)) }
    ensures most { LosesAtMost (most_in_all + 1) (R.remaining reader.old.inner)
        (R.remaining reader.new.inner) }
{
    let front = read_front(alloc, reader)?;
    if front.len() as u64 <= LIMIT {
        Ok(front)
    } else {
        Err(fault_of_long(alloc, &front))
    }
}
