//! Prints the state before, between and after the two times that work is done.

use std::fmt;

/// Prints that all is ready: from here on, an allocation may be refused.
pub(crate) fn tell_opened(rt: &impl Print) -> anyhow::Result<()> {
    println!(rt; "opened")?;
    Ok(())
}

/// Prints that the work is done: from here on, no allocation is refused. Prints its result.
pub(crate) fn tell_worked<T: fmt::Debug, E: fmt::Display>(
    rt: &impl Print,
    told: &Result<T, E>,
) -> anyhow::Result<()> {
    println!(rt; "worked")?;
    tell_result(rt, "first", told)
}

/// Prints the result of the work when it is done again.
pub(crate) fn tell_again<T: fmt::Debug, E: fmt::Display>(
    rt: &impl Print,
    told: &Result<T, E>,
) -> anyhow::Result<()> {
    tell_result(rt, "again", told)
}

fn tell_result<T: fmt::Debug, E: fmt::Display>(
    rt: &impl Print,
    when: &str,
    told: &Result<T, E>,
) -> anyhow::Result<()> {
    match told {
        Ok(value) => println!(rt; "{when} {value:?}")?,
        Err(fault) => println!(rt; "{when} refused {fault}")?,
    }
    Ok(())
}

/// Prints a part of the state.
pub(crate) fn tell_part<T: fmt::Debug>(
    rt: &impl Print,
    name: &str,
    part: &T,
) -> anyhow::Result<()> {
    println!(rt; "state {name} {part:?}")?;
    Ok(())
}
