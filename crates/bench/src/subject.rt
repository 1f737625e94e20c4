//! The call of a script that is timed.

use crate::called::Called;
use anyhow::Context;
use mh_core::{Arguments, Definition, Event};
use mh_json::{Script, Step, read_script};
use mh_tree::Handle;
use std::alloc::Global;

/// A call of a script, with the trees, levels and points of its definition.
#[derive(Drop)]
pub(crate) struct Subject {
    pub(crate) definition: Definition,
    pub(crate) site: usize,
    pub(crate) arguments: Arguments,
    targets: Vec<Handle>,
    levels: Vec<u8>,
    valid: Vec<bool>,
}

impl Subject {
    /// Reads the event at a place of a script. Fails if it is not a call of a site.
    pub(crate) fn read(alloc: Global, input: &[u8], place: usize) -> anyhow::Result<Subject> {
        let Script {
            definition,
            steps,
            ..
        } = read_script(alloc, input)?;
        let event = steps.into_vec().into_iter().nth(place);
        let Some(
            Step::Ask(
                Event::Call {
                    site,
                    arguments,
                    ..
                },
            ),
        ) = event
        else {
            anyhow::bail!("there is no call at this place");
        };
        Ok(Subject {
            targets: targets(alloc, &definition)?,
            levels: levels(alloc, &definition)?,
            valid: valid(alloc, &definition)?,
            definition,
            site,
            arguments,
        })
    }

    /// Returns the call. Fails if the site does not exist.
    pub(crate) fn called(&self) -> anyhow::Result<Called<'_>> {
        let handle = self.targets.get(self.site).context("no such site")?;
        Ok(Called {
            valid: self.valid.as_slice(),
            levels: self.levels.as_slice(),
            targets: self.targets.as_slice(),
            handle,
            arguments: self.arguments.as_slice(),
        })
    }
}

/// Reads the number of events of a script.
pub(crate) fn count(alloc: Global, input: &[u8]) -> anyhow::Result<usize> {
    let script = read_script(alloc, input)?;
    Ok(script.steps.len())
}

/// Returns the tree of each site.
fn targets(alloc: Global, definition: &Definition) -> anyhow::Result<Vec<Handle>> {
    let mut targets = Vec::new(alloc);
    for site in definition.sites() {
        targets.push(site.target.handle().share()?)?;
    }
    Ok(targets)
}

/// Returns the level of each site.
fn levels(alloc: Global, definition: &Definition) -> anyhow::Result<Vec<u8>> {
    let mut levels = Vec::new(alloc);
    for site in definition.sites() {
        levels.push(u8::try_from(site.level)?)?;
    }
    Ok(levels)
}

/// Returns `true` for each point.
fn valid(alloc: Global, definition: &Definition) -> anyhow::Result<Vec<bool>> {
    let mut valid = Vec::new(alloc);
    for _ in definition.points() {
        valid.push(true)?;
    }
    Ok(valid)
}
