//! The indices of keys in a list, by key.

ghost use Rattle.std.specs.Prelude.{◌<◌, All, IfOk, length};
ghost use Rattle.mh_flow.specs.Carried.{number_at};
ghost use Rattle.mh_flow.specs.Chains.{IsChained};

use mh_base::NoMemory;
use std::alloc::Global;

/// The indices of each key, from the last to the first. An index is stored plus one, and 0 means
/// that there is none.
#[derive(Drop)]
pub(crate) struct Chain {
    /// For each key, its last index.
    pub(crate) last: Vec<usize>,
    /// For each index, the index before it that has the same key.
    pub(crate) before: Vec<usize>,
}

/// Returns the indices of each key below `count`.
pub(crate) fn chain_of(alloc: Global, keys: &[u32], count: usize) -> Result<Chain, NoMemory>
    requires inside { All (λ k. k < count) keys.now }
    ensures value { IfOk result (λ c. IsChained (number_at keys.now)
        (length keys.now) count c.last.items c.before.items) }
{
    let mut last = vec![in alloc; 0; count]?;
    let mut before = Vec::with_capacity(alloc, keys.len())?;
    for at in 0..keys.len() {
        let key = keys[at] as usize;
        before.push(last[key])?;
        last[key] = at + 1;
    }
    Ok(Chain { last, before })
}
