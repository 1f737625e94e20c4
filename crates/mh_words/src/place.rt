//! The context of a piece of prepared code.

ghost use Rattle.std.specs.Prelude.{◌≡◌, ◌+◌, ◌∷◌, [], ◌++◌, ◌≤◌, take, length, IfOk};

use crate::known::Known;
use crate::stop::Stop;
use mh_type::MethodType;
use std::alloc::Global;

/// The type of the code, what is known of the locals, the steps of the way that leads to a piece,
/// and how many pieces more may follow one another.
#[derive(Clone, Copy)]
pub(crate) struct Place<'a> {
    pub(crate) of: &'a MethodType,
    pub(crate) locals: &'a [Known],
    pub(crate) before: u64,
    pub(crate) depth: u32,
}

impl<'a> Place<'a> {
    // Returns the place after a piece that takes `steps` steps.
    pub(crate) fn after(&self, steps: u32) -> Result<Place<'a>, Stop>
        ensures value { IfOk result (λ p. (p.of ≡ self.now.of) × (p.locals ≡ self.now.locals)
            × (p.before ≡ self.now.before + steps) × (p.depth + 1 ≡ self.now.depth)) }
    {
        let Some(before) = self.before.checked_add(u64::from(steps)) else {
            return Err(Stop::Unfit);
        };
        if self.depth == 0 {
            return Err(Stop::Unfit);
        }
        Ok(Place {
            of: self.of,
            locals: self.locals,
            before,
            depth: self.depth - 1,
        })
    }
}

// Returns the locals before `place`, followed by `last`.
pub(crate) fn with_local(
    alloc: Global,
    locals: &[Known],
    place: u32,
    last: Known,
) -> Result<Vec<Known>, Stop>
    ensures value { IfOk result (λ v. v.items ≡ take place locals.now ++ last ∷ []) }
    ensures inside { IfOk result (λ _. place ≤ length locals.now) }
{
    let count = place as usize;
    if count > locals.len() {
        return Err(Stop::Unfit);
    }
    let mut all = Vec::new(alloc);
    for local in &locals[..count] {
        all.push(*local).map_err(|_| Stop::NoMemory)?;
    }
    all.push(last).map_err(|_| Stop::NoMemory)?;
    Ok(all)
}
