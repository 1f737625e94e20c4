//! Printing the results of calls.

use crate::definition::F;
use crate::events::call;
use mh_core::Runtime;

/// Calls a site, and prints the int that it returns.
pub(crate) fn tell_call(
    rt: &impl Print,
    runtime: &mut Runtime,
    site: usize,
    argument: i32,
) -> anyhow::Result<()> {
    let name = if site == F { "f" } else { "g" };
    match call(runtime, site, argument) {
        Some(number) => println!(rt; "{name}({argument}): {number}")?,
        None => println!(rt; "{name}({argument}): no int")?,
    }
    Ok(())
}
