//! Laws about types that cross threads.

ghost use Rattle.mh_type.specs.Laws.Crossing.{ValuesCross};

/// Proves that kinds, method types, operations and values can be sent to another thread and shared
/// between threads, alone and as parts of other values.
pub fn values_cross_threads()
    ensures values { ValuesCross }
{}
