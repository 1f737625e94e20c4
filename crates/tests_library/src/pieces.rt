//! Tests of code: the pieces that are made of trees, and their runs.

use crate::examples::{Given, hundred, int, op, prepared_example, prepared_guard, read, with_one};
use crate::failed::Failed;
use mh_code::{Code, CodeCache, Piece, Prepared};
use mh_eval::{fits, lawful};
use mh_run::{Here, Stack, run};
use mh_tree::Handle;
use mh_type::{Op, Value};
use std::alloc::Global;
use std::test::Fail;

/// The kind of a piece, with its steps.
#[derive(Clone, Copy, Debug, PartialEq, Eq)]
enum Kindred {
    Leaf(u32),
    Apply(u32),
    Put(u32),
    Let(u32),
    Case(i32, u32),
    Point(u32),
    Go(u32),
    Switch(usize),
    Other,
}

/// Returns the kind of a piece.
fn kindred_of(piece: &Piece) -> Kindred {
    match piece {
        Piece::Leaf { steps, .. } => Kindred::Leaf(*steps),
        Piece::Apply { steps, .. } => Kindred::Apply(*steps),
        Piece::Put { steps, .. } => Kindred::Put(*steps),
        Piece::Let { steps, .. } => Kindred::Let(*steps),
        Piece::Case { test, steps, .. } => Kindred::Case(test.key, *steps),
        Piece::Point { steps, .. } => Kindred::Point(*steps),
        Piece::Go { steps, .. } => Kindred::Go(*steps),
        Piece::Switch { index, .. } => Kindred::Switch(index.rows().len()),
        _ => Kindred::Other,
    }
}

/// Returns the kinds of the first piece, and of the pieces that it chooses from or continues with.
fn first_pieces(code: &Code) -> (Kindred, Kindred, Kindred) {
    match code.entry() {
        Piece::Case {
            target,
            fallback,
            ..
        }
        | Piece::Point {
            target,
            fallback,
            ..
        } => (
            kindred_of(code.entry()),
            kindred_of(target),
            kindred_of(fallback),
        ),
        Piece::Let { then, .. } | Piece::Put { then, .. } => {
            (kindred_of(code.entry()), kindred_of(then), Kindred::Other)
        }
        other => (kindred_of(other), Kindred::Other, Kindred::Other),
    }
}

/// Returns the code of a guard, all parts of which are prepared with it: 100 for 1, and otherwise
/// one more.
fn whole_guard(alloc: Global) -> Result<Prepared, Failed> {
    let test = with_one(alloc, Op::Ieq)?;
    let next = with_one(alloc, Op::Iadd)?;
    let guard = Handle::guard(alloc, &test, &hundred(alloc)?, &next)?;
    Ok(Prepared::new(alloc, &guard)?)
}

/// Returns the `not` of whether an int is 1, as a filter of the result.
fn not_of_result(alloc: Global) -> Result<Handle, Failed> {
    let test = with_one(alloc, Op::Ieq)?;
    Ok(Handle::filter_return(alloc, &test, &op(alloc, Op::Not)?)?)
}

/// Returns the same as a filter of the argument.
fn not_of_argument(alloc: Global) -> Result<Handle, Failed> {
    let filters = [Some(with_one(alloc, Op::Ieq)?)];
    Ok(Handle::filter(alloc, &op(alloc, Op::Not)?, 0, &filters)?)
}

/// Returns the code of the negation of one more.
fn negated(alloc: Global) -> Result<Prepared, Failed> {
    let next = with_one(alloc, Op::Iadd)?;
    let negated = Handle::filter_return(alloc, &next, &op(alloc, Op::Ineg)?)?;
    Ok(Prepared::new(alloc, &negated)?)
}

/// Returns the result of code for one int.
fn ran(alloc: Global, valid: &[bool], code: &Prepared, argument: i32) -> Result<Given, Failed> {
    let arguments = [Value::Int(argument)];
    if !fits(code.handle().method_type(), &arguments) {
        return Err(Failed);
    }
    if code.handle().point_bound() > valid.len() {
        return Err(Failed);
    }
    if !lawful(&[], &[], code.handle()) {
        return Err(Failed);
    }
    let mut stack = Stack::new(alloc)?;
    let here = Here {
        valid,
        targets: &[],
    };
    let (outcome, steps) = run(&mut stack, &here, code, &arguments)?;
    Ok(read(&outcome, steps))
}

#[test]
fn a_guard_on_a_key_is_one_piece(rt: HostRuntime) -> Result<(), Fail> {
    let code = whole_guard(rt.alloc())?;
    let pieces = (Kindred::Case(1, 3), Kindred::Leaf(2), Kindred::Apply(2));
    assert_eq!(rt; first_pieces(code.code()), pieces);
    Ok(())
}

/// Returns the code of a guard on a test: 100 if it holds, and otherwise one more.
fn guard_on(alloc: Global, test: Handle) -> Result<Prepared, Failed> {
    let next = with_one(alloc, Op::Iadd)?;
    let guard = Handle::guard(alloc, &test, &hundred(alloc)?, &next)?;
    Ok(Prepared::new(alloc, &guard)?)
}

/// The first pieces of a guard on a test, and its results for 1 and for 7.
type Guarded = ((Kindred, Kindred, Kindred), [Given; 2]);

fn guarded(alloc: Global, code: &Prepared) -> Result<Guarded, Failed> {
    let given = [ran(alloc, &[], code, 1)?, ran(alloc, &[], code, 7)?];
    Ok((first_pieces(code.code()), given))
}

#[test]
fn a_guard_on_a_not_exchanges_its_branches(rt: HostRuntime) -> Result<(), Fail> {
    let alloc = rt.alloc();
    let pieces = (Kindred::Case(1, 5), Kindred::Apply(2), Kindred::Leaf(2));
    let wanted = (pieces, [int(2, 7), int(100, 7)]);
    let of_result = guarded(alloc, &guard_on(alloc, not_of_result(alloc)?)?)?;
    assert_eq!(rt; of_result, wanted);
    let of_argument = guarded(alloc, &guard_on(alloc, not_of_argument(alloc)?)?)?;
    assert_eq!(rt; of_argument, wanted);
    Ok(())
}

#[test]
fn a_guard_goes_on_with_the_first_pieces(rt: HostRuntime) -> Result<(), Fail> {
    let code = prepared_guard(rt.alloc())?;
    let pieces = (Kindred::Case(1, 3), Kindred::Leaf(2), Kindred::Apply(2));
    assert_eq!(rt; first_pieces(code.code()), pieces);
    Ok(())
}

#[test]
fn a_point_goes_on_with_the_first_pieces(rt: HostRuntime) -> Result<(), Fail> {
    let code = prepared_example(rt.alloc())?.share()?;
    let pieces = (Kindred::Point(1), Kindred::Case(1, 3), Kindred::Apply(1));
    assert_eq!(rt; first_pieces(code.code()), pieces);
    Ok(())
}

#[test]
fn a_value_becomes_a_local(rt: HostRuntime) -> Result<(), Fail> {
    let code = negated(rt.alloc())?;
    let pieces = (Kindred::Let(3), Kindred::Apply(1), Kindred::Other);
    assert_eq!(rt; first_pieces(code.code()), pieces);
    Ok(())
}

#[test]
fn a_guard_below_a_point_runs(rt: HostRuntime) -> Result<(), Fail> {
    let alloc = rt.alloc();
    let code = prepared_example(alloc)?;
    assert_eq!(rt; ran(alloc, &[true], &code, 1)?, int(100, 6));
    assert_eq!(rt; ran(alloc, &[true], &code, 7)?, int(8, 6));
    assert_eq!(rt; ran(alloc, &[false], &code, 7)?, int(-7, 2));
    Ok(())
}

/// Returns the result for 1 of a guard that a cache prepares, and the result for 7 of an equal one
/// that has its code from there.
fn both_cached_give(alloc: Global) -> Result<(Given, Given), Failed> {
    let mut cache = CodeCache::new(alloc);
    let first = cache.prepare(whole_guard(alloc)?.handle())?;
    let second = cache.prepare(whole_guard(alloc)?.handle())?;
    Ok((ran(alloc, &[], &first, 1)?, ran(alloc, &[], &second, 7)?))
}

#[test]
fn equal_handles_of_a_cache_run(rt: HostRuntime) -> Result<(), Fail> {
    assert_eq!(rt; both_cached_give(rt.alloc())?, (int(100, 5), int(8, 5)));
    Ok(())
}
