//! Reading a stream to its end, and writing the result to another.

pub(crate) mod check;
pub(crate) mod claim;
pub(crate) mod failing;
pub(crate) mod input;
pub(crate) mod planning;
pub(crate) mod refused;
pub(crate) mod run;
pub(crate) mod stepping;
pub(crate) mod watched;
