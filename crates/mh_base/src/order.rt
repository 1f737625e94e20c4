//! Tests in an order: the first that fails is reported.

ghost use Rattle.std.specs.Prelude.{◌≡◌, MatchResult, true, false};

/// Returns `Ok` if a test passes, and otherwise its fault.
pub fn demand<E: Drop>(passes: bool, fault: E) -> Result<(), E>
    ensures value { MatchResult result (λ _. passes ≡ true) (λ e. (passes ≡ false) × (e ≡ fault)) }
{
    if passes { Ok(()) } else { Err(fault) }
}
