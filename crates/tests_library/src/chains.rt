//! Tests of inline caches as trees, which no program makes without their code.

use crate::examples::{Given, example, int, walked};
use crate::failed::Failed;
use mh_pic::{Entry, chain, may_chain, specialise};
use mh_tree::{Declared, Handle};
use mh_type::Value;
use std::alloc::Global;
use std::test::Fail;

/// Returns the chain of an entry for 1, which needs the point 0, over the example.
fn chain_of_one(alloc: Global) -> Result<Handle, Failed> {
    let base = Declared::new(&example(alloc)?)?;
    let entries = vec![in alloc; Entry::new(Value::Int(1), Vec::from_slice(alloc, &[0])?)]?;
    if !may_chain(base.handle().method_type(), 0, entries.as_slice()) {
        return Err(Failed);
    }
    Ok(chain(alloc, &base, 0, entries.as_slice())?)
}

/// Returns its results for 1 and for 2, and for 1 if its point is not valid.
fn chain_gives(alloc: Global) -> Result<[Given; 3], Failed> {
    let cache = chain_of_one(alloc)?;
    Ok([
        walked(alloc, &[true], &cache, &[Value::Int(1)])?,
        walked(alloc, &[true], &cache, &[Value::Int(2)])?,
        walked(alloc, &[false], &cache, &[Value::Int(1)])?,
    ])
}

#[test]
fn a_chain_of_one_key_runs(rt: HostRuntime) -> Result<(), Fail> {
    assert_eq!(rt;
        chain_gives(rt.alloc())?,
        [int(100, 6), int(3, 9), int(-1, 6)]
    );
    Ok(())
}

/// Returns the size of the example specialised for 1.
fn size_for_one(alloc: Global) -> Result<usize, Failed> {
    let handle = example(alloc)?;
    if handle.method_type().count() == 0 {
        return Err(Failed);
    }
    Ok(specialise(alloc, &handle, &[0], 0, &Value::Int(1))?.size())
}

#[test]
fn a_key_decides_its_test(rt: HostRuntime) -> Result<(), Fail> {
    assert_eq!(rt; size_for_one(rt.alloc())?, 2);
    Ok(())
}
