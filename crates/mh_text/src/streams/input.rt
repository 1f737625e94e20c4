//! Reading the whole input.
ghost use Rattle.std.specs.Prelude.{◌≡◌, ◌≢◌, ◌<◌, ◌≤◌, ◌⊎◌, ◌+◌, ◌^◌, length, IfOk, IfErr, OnOk, OnErr, IfSome, IsErrOf};
ghost use Rattle.mh_text.specs.Bytes.{HasFailed, LosesAtMost};
ghost use Rattle.mh_json.specs.Inputs.{most_bytes};
ghost use Rattle.mh_json.specs.Gives.{no_memory, too_long};
ghost use Rattle.std.specs.Io.KnownBytes.{Consumes, IsAtEnd};

use crate::streams::watched::Watched;
use mh_json::{InputFault, LONGEST_INPUT, TextFault};
use std::alloc::Global;
use std::io::Read;

/// Reads the input to its end, or up to the first byte beyond a limit.
///
/// Fails if it has more bytes than that, if a read fails, or if memory runs out.
pub fn read_up_to<R: Read>(
    alloc: Global,
    reader: &mut Watched<R>,
    limit: usize,
) -> Result<Vec<u8>, TextFault>
    requires bounded { limit + 1 < 2 ^ 64 }
    ensures ok { IfOk result (λ input. IfSome (R.remaining reader.old.inner) (λ bytes. input.items
        ≡ bytes)) }
    ensures short { IfOk result (λ input. length input.items ≤ limit) }
    ensures long { IsErrOf result too_long
        → IfSome (R.remaining reader.old.inner) (λ bytes. limit < length bytes) }
    ensures kept { OnOk result (reader.new.failures ≡ reader.old.failures) }
    ensures failed { IsErrOf result TextFault.ReadFailed
        → HasFailed reader.old.failures reader.new.failures }
    ensures others { IfErr result (λ e. e ≢ TextFault.ReadFailed
        → reader.new.failures ≡ reader.old.failures) }
    ensures end { OnOk result (IsAtEnd (R.remaining reader.new.inner)) }
    ensures most { LosesAtMost (limit + 1) (R.remaining reader.old.inner)
        (R.remaining reader.new.inner) }
    ensures kinds { IfErr result (λ e. (e ≡ no_memory) ⊎ (e ≡ too_long)
        ⊎ (e ≡ TextFault.ReadFailed)) }
{
    let mut input = Vec::new(alloc);
    let mut buffer = [0u8; 8192];
    while input.len() <= limit {
        let room = (limit + 1 - input.len()).min(buffer.len());
        let part = &mut buffer[..room];
        let n = reader.read(part)?;
        if n == 0 {
            return Ok(input);
        }
        input.extend_from_slice(&part[..n])?;
    }
    Err(TextFault::Input(InputFault::TooLong))
}

/// Reads the input to its end, or up to the first byte beyond 1,048,576.
///
/// Fails if it has more bytes than that, if a read fails, or if memory runs out.
pub fn read_input<R: Read>(alloc: Global, reader: &mut Watched<R>) -> Result<Vec<u8>, TextFault>
    ensures ok { IfOk result (λ input. IfSome (R.remaining reader.old.inner) (λ bytes. input.items
        ≡ bytes)) }
    ensures short { IfOk result (λ input. length input.items ≤ most_bytes) }
    ensures long { IsErrOf result too_long
        → IfSome (R.remaining reader.old.inner) (λ bytes. most_bytes < length bytes) }
    ensures kept { OnOk result (reader.new.failures ≡ reader.old.failures) }
    ensures failed { IsErrOf result TextFault.ReadFailed
        → HasFailed reader.old.failures reader.new.failures }
    ensures others { IfErr result (λ e. e ≢ TextFault.ReadFailed
        → reader.new.failures ≡ reader.old.failures) }
    ensures end { OnOk result (IsAtEnd (R.remaining reader.new.inner)) }
    ensures most { LosesAtMost (most_bytes + 1) (R.remaining reader.old.inner)
        (R.remaining reader.new.inner) }
    ensures kinds { IfErr result (λ e. (e ≡ no_memory) ⊎ (e ≡ too_long)
        ⊎ (e ≡ TextFault.ReadFailed)) }
{
    read_up_to(alloc, reader, LONGEST_INPUT)
}
