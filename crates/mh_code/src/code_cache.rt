//! Sharing code that was made recently.

ghost use Rattle.std.specs.Prelude.{◌≡◌, IfOk, IfSome};

use crate::comparing::same_handle;
use crate::prepared::Prepared;
use mh_base::NoMemory;
use mh_tree::Handle;
use std::alloc::Global;
use std::fmt;

/// The number of handles that a cache keeps.
const MOST_KEPT: usize = 32;

/// A cache of the handles prepared last: equal handles that are prepared by one cache share their
/// code. It keeps the last 32, and finds one in time linear in the size of its tree.
#[derive(Drop)]
pub struct CodeCache {
    alloc: Global,
    kept: Vec<Prepared>,
    next: usize,
}

/// Shows the number of handles kept.
impl fmt::Debug for CodeCache {
    fn fmt<W: fmt::Write>(&self, f: &mut fmt::Formatter<W>) -> fmt::Result {
        write!(f, "CodeCache({} kept)", self.kept.len())
    }
}

impl CodeCache {
    /// Returns an empty cache, whose code will be in this allocator's memory.
    pub fn new(alloc: Global) -> CodeCache {
        CodeCache {
            alloc,
            kept: Vec::new(alloc),
            next: 0,
        }
    }

    /// Returns the handle with its code: that of an equal handle, if the cache keeps one; otherwise
    /// new code as by `Prepared::new`, which it keeps. Fails only with `NoMemory`.
    pub fn prepare(&mut self, handle: &Handle) -> Result<Prepared, NoMemory>
        ensures value { IfOk result (λ p. p ≡ handle.now) }
    {
        if let Some(prepared) = self.find(handle) {
            return Ok(prepared);
        }
        let prepared = Prepared::new(self.alloc, handle)?;
        self.keep(&prepared);
        Ok(prepared)
    }

    /// Does what `prepare` does, given another handle with its code, which is shared if the handles
    /// are equal. Linear in the size of the trees. Fails only with `NoMemory`.
    pub fn prepare_again(&mut self, other: &Prepared, handle: &Handle) -> Result<Prepared, NoMemory>
        ensures value { IfOk result (λ p. p ≡ handle.now) }
    {
        if same_handle(other.handle(), handle) {
            return other.share();
        }
        self.prepare(handle)
    }

    // Returns another owner of an equal handle with its code, if one is kept and can be shared.
    fn find(&self, handle: &Handle) -> Option<Prepared>
        ensures value { IfSome result (λ p. p ≡ handle.now) }
    {
        for kept in &self.kept {
            if same_handle(kept.handle(), handle) {
                return kept.share().ok();
            }
        }
        None
    }

    // Keeps a handle, in place of the oldest if the cache is full. If there is no memory to keep
    // it, it is not kept.
    fn keep(&mut self, prepared: &Prepared) {
        let Ok(kept) = prepared.share() else {
            return;
        };
        if self.kept.len() < MOST_KEPT {
            let _kept = self.kept.push(kept);
            return;
        }
        if let Some(oldest) = self.kept.get_mut(self.next) {
            *oldest = kept;
        }
        self.next = if self.next < MOST_KEPT - 1 {
            self.next + 1
        } else {
            0
        };
    }
}
