//! The scales of costs in the lines of a profile's plan.
ghost use Rattle.std.specs.Prelude.{◌≡◌, ◌<◌, length, string_bytes, IfOk, IfSome};
ghost use Rattle.mh_profile.specs.Sweeps.{swept_text, thousandths_text, until_text};

use mh_base::NoMemory;
use mh_network::Problem;
use mh_sweep::Sweep;
use std::alloc::Global;

/// Writes a number of thousandths as a decimal with three digits after the point.
fn thousandths(alloc: Global, number: u32) -> Result<String, NoMemory>
    ensures value { IfOk result (λ s. string_bytes s ≡ thousandths_text number) }
{
    let whole = number / 1000;
    let (tenths, hundredths) = (number / 100 % 10, number / 10 % 10);
    let last = number % 10;
    Ok(format!(in alloc; "{whole}.{tenths}{hundredths}{last}")?)
}

/// Writes up to which scale a sweep goes, and nothing if there is none.
pub(crate) fn swept_part(alloc: Global, sweep: &Option<Sweep>) -> Result<String, NoMemory>
    ensures value { IfOk result (λ s. string_bytes s ≡ swept_text sweep.now) }
{
    let Some(sweep) = sweep else {
        return Ok(String::new(alloc));
    };
    let most = thousandths(alloc, sweep.most)?;
    Ok(format!(in alloc; " sweep {most}")?)
}

/// Writes up to which scale a link is selected, and nothing if there is no sweep or the link is not
/// eligible.
pub(crate) fn until_part(
    alloc: Global,
    problem: &Problem,
    sweep: &Option<Sweep>,
    link: usize,
) -> Result<String, NoMemory>
    requires inside { link < length problem.now.links }
    requires counted { IfSome sweep.now (λ s. length s.until ≡ length problem.now.links) }
    ensures value { IfOk result (λ s. string_bytes s ≡ until_text problem.now sweep.now link) }
{
    let Some(sweep) = sweep else {
        return Ok(String::new(alloc));
    };
    if !problem.eligible(link) {
        return Ok(String::new(alloc));
    }
    let until = thousandths(alloc, sweep.until.as_slice()[link])?;
    Ok(format!(in alloc; " until {until}")?)
}
