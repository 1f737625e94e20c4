//! Snapshots that lack the hits of calls before them.
use crate::values::{items, items_at};
use crate::why::has_links;
use mh_base::NoMemory;
use mh_json::Field;
use serde_json::Value;
use std::alloc::Global;

/// The workers that made calls since their last flush, in the order of these calls.
#[derive(Drop)]
struct Callers {
    workers: Vec<u64>,
}

impl Callers {
    /// Reads an event that is not a snapshot.
    fn add(&mut self, script: &Value, event: &Value) -> Result<(), NoMemory> {
        let Some(worker) = event.get(1).and_then(Value::as_u64) else {
            return Ok(());
        };
        match event.get(0).and_then(Value::as_str) {
            Some("call") if calls_links(script, event) => {
                if !self.workers.as_slice().contains(&worker) {
                    self.workers.push(worker)?;
                }
            }
            Some("flush") => self.workers.retain(|caller| *caller != worker),
            _ => {}
        }
        Ok(())
    }
}

/// Returns whether a call is of a site with links.
fn calls_links(script: &Value, call: &Value) -> bool {
    match call.get(2).and_then(Value::as_str) {
        Some(site) => has_links(script, site),
        None => false,
    }
}

/// Returns a note for the first snapshot of a script that comes before the flush of a worker with
/// calls, or nothing if there is none.
///
/// Fails only if memory runs out.
pub fn unflushed_calls(alloc: Global, script: &Value) -> Result<String, NoMemory> {
    let mut callers = Callers {
        workers: Vec::new(alloc),
    };
    for (i, event) in items_at(script, Field::Events).iter().enumerate() {
        let is_snapshot = items(event).first().and_then(Value::as_str) == Some("snapshot");
        match callers.workers.first() {
            Some(worker) if is_snapshot => return note(alloc, i, *worker),
            _ => callers.add(script, event)?,
        }
    }
    Ok(String::new(alloc))
}

/// Returns the note for a snapshot and a worker.
fn note(alloc: Global, event: usize, worker: u64) -> Result<String, NoMemory> {
    Ok(format!(in alloc;
        "note: events[{event}] does not count the hits of worker {worker} since its last flush; put [\"flush\",{worker}] before it\n"
    )?)
}
