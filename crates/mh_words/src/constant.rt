//! Constants as answers.

/// A constant answer, and the number of steps that lead to it.
#[derive(Clone, Copy, Debug)]
pub struct Constant {
    pub word: i64,
    pub steps: u64,
}
