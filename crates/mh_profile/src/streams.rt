//! Profiles from a reader.
ghost use Rattle.std.specs.Prelude.{◌≡◌, ◌≢◌, ◌+◌, Ok, List, ℕ, IfErr, IfOk, IfSome, OnOk};
ghost use Rattle.std.specs.Io.KnownBytes.{IsAtEnd};
ghost use Rattle.mh_text.specs.Bytes.{HasFailed, LosesAtMost};
ghost use Rattle.mh_text.specs.Honest.{IsHonestReading};
ghost use Rattle.mh_text.specs.Output.{IsUnread};
ghost use Rattle.mh_json.specs.declared.fault.TextFault.TheVariants.{ReadFailed};
ghost use Rattle.mh_profile.specs.Inputs.{IsFaultOfLines};
ghost use Rattle.mh_profile.specs.Limits.{most_at_once, most_in_all};
ghost use Rattle.mh_profile.specs.Profiles.{profile_of};

use crate::profile::Profile;
use crate::reader::LineReader;
use mh_json::Fault;
use mh_text::Watched;
use std::alloc::Global;
use std::io::Read;

/// Reads a profile.
///
/// The input is read in blocks of 8,192 bytes, to its end or to the block that shows its first
/// fault, and at most 67,117,056 bytes of it.
pub fn read_profile<R: Read>(alloc: Global, reader: &mut Watched<R>) -> Result<Profile, Fault>
    ensures ok { IfOk result (λ x. IfSome (R.remaining reader.old.inner)
        (λ input. profile_of input ≡ Ok x)) }
    ensures failed { IfErr result (IsUnread IsFaultOfLines (R.remaining reader.old.inner)
        (HasFailed reader.old.failures reader.new.failures)) }
    ensures honest { IsHonestReading result reader.old.failures reader.new.failures }
    ensures others { IfErr result (λ e. e.kind ≢ ReadFailed
        → reader.new.failures ≡ reader.old.failures) }
    ensures end { OnOk result (IsAtEnd (R.remaining reader.new.inner)) }
    ensures most { LosesAtMost (most_in_all + most_at_once) (R.remaining reader.old.inner)
        (R.remaining reader.new.inner) }
{
    let mut lines = LineReader::new(alloc);
    let mut buffer = [0u8; 8192];
    'chunks: loop {
        let n = reader.read(&mut buffer)?;
        if n == 0 {
            return lines.finish();
        }
        lines = lines.take(&buffer[..n])?;
    }
}
