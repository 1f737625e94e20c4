//! Copies of bytes and numbers into the caller's buffers.

ghost use Rattle.std.specs.Prelude.{◌≡◌, ◌≤◌, drop, length, take, IfErr, OnErr, OnOk};
ghost use Rattle.mhlink_c.specs.Buffers.{IsCopied, IsTooShort};
ghost use Rattle.mhlink_c.specs.declared.failure.Failure.TheVariants.{Short};

use crate::failure::Failure;

/// Copies items to the beginning of a buffer, if they fit, and counts them. The rest of the buffer
/// is left unmodified.
///
/// Fails with `Short` if the buffer is shorter; then it is left unmodified.
pub(crate) fn copy<T: Copy>(from: &[T], buffer: &mut [T], count: &mut usize) -> Result<(), Failure>
    ensures copied { OnOk result (IsCopied from.now count.new buffer.new) }
    ensures rest { OnOk result (drop count.new buffer.new ≡ drop count.new buffer.old) }
    ensures short { IfErr result (λ e. (e ≡ Short) × IsTooShort from.now count.new buffer.old) }
    ensures same { OnErr result (buffer.new ≡ buffer.old) }
{
    *count = from.len();
    if buffer.len() < from.len() {
        return Err(Failure::Short);
    }
    fill(from, buffer);
    Ok(())
}

/// Copies items to the beginning of a buffer that has room for them.
pub(crate) fn fill<T: Copy>(from: &[T], buffer: &mut [T])
    requires room { length from.now ≤ length buffer.old }
    ensures items { take (length from.now) buffer.new ≡ from.now }
    ensures rest { drop (length from.now) buffer.new ≡ drop (length from.now) buffer.old }
{
    buffer[..from.len()].copy_from_slice(from);
}
