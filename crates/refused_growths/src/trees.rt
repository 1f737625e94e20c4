//! Makes trees by the constructors, and a chain.

use crate::script::Input;
use crate::telling::{tell_again, tell_opened, tell_part, tell_worked};
use mh_live::mh_core::{Declared, Handle, Kind, MethodType, Op, Prepared, Text, TreeFault, Value};
use mh_pic::{Entry, chain, may_chain};
use std::alloc::Global;

/// A constructor, or another way to make a tree.
#[derive(Clone, Copy, Debug, PartialEq, Eq)]
pub(crate) enum Maker {
    Constant,
    Identity,
    Operation,
    Invocation,
    Insertion,
    Dropping,
    Permutation,
    Filters,
    ReturnFilter,
    Fold,
    Guard,
    Point,
    Declaration,
    Preparation,
    Chain,
}

/// The trees and the text from which trees are made.
#[derive(Debug, Drop)]
struct Parts {
    text: Value,
    negation: Handle,
    sum: Handle,
    test: Handle,
}

/// Makes the parts.
fn make_parts(alloc: Global) -> anyhow::Result<Parts> {
    Ok(Parts {
        text: Value::Text(Text::new(alloc, "text")?),
        negation: Handle::op(alloc, Op::Ineg)?,
        sum: Handle::op(alloc, Op::Iadd)?,
        test: equals_one(alloc)?,
    })
}

/// The lists from which trees are made, and the base of a chain.
#[derive(Debug, Drop)]
struct Lists {
    filters: Vec<Option<Handle>>,
    entries: Vec<Entry>,
    base: Declared,
}

/// Makes the lists. The base of a chain is the negation.
fn make_lists(alloc: Global) -> anyhow::Result<Lists> {
    Ok(Lists {
        filters: filters(alloc)?,
        entries: entries(alloc)?,
        base: declared_negation(alloc)?,
    })
}

/// Makes the test of whether an int is 1.
fn equals_one(alloc: Global) -> Result<Handle, TreeFault> {
    Handle::insert(alloc, &Handle::op(alloc, Op::Ieq)?, 1, &[Value::Int(1)])
}

/// Makes a list of a filter and no filter.
fn filters(alloc: Global) -> anyhow::Result<Vec<Option<Handle>>> {
    let negation = Handle::op(alloc, Op::Ineg)?;
    Ok(vec![in alloc; Some(negation), None]?)
}

/// Makes the negation, and declares it.
fn declared_negation(alloc: Global) -> anyhow::Result<Declared> {
    let negation = Handle::op(alloc, Op::Ineg)?;
    Ok(Declared::new(&negation)?)
}

/// Makes two entries, of which one needs a point and the other two.
fn entries(alloc: Global) -> anyhow::Result<Vec<Entry>> {
    let first = Entry::new(Value::Int(1), Vec::from_slice(alloc, &[0])?);
    let second = Entry::new(Value::Int(2), Vec::from_slice(alloc, &[0, 1])?);
    Ok(vec![in alloc; first, second]?)
}

/// Makes a tree of parts and lists.
fn make(alloc: Global, maker: Maker, parts: &Parts, lists: &Lists) -> Result<Handle, TreeFault> {
    let unary = MethodType::unary(Kind::Int, Kind::Int);
    match maker {
        Maker::Constant => Handle::constant(alloc, &parts.text),
        Maker::Identity => Handle::identity(alloc, Kind::Text),
        Maker::Operation => Handle::op(alloc, Op::Concat),
        Maker::Invocation => Handle::invoke(alloc, 0, &unary),
        Maker::Insertion => Handle::insert(alloc, &parts.sum, 1, &[Value::Int(1)]),
        Maker::Dropping => Handle::drop(alloc, &parts.negation, 1, &[Kind::Long]),
        Maker::Permutation => Handle::permute(alloc, &parts.sum, &unary, &[0, 0]),
        Maker::Filters => Handle::filter(alloc, &parts.sum, 0, lists.filters.as_slice()),
        Maker::ReturnFilter => Handle::filter_return(alloc, &parts.sum, &parts.negation),
        Maker::Fold => Handle::fold(alloc, &parts.sum, &parts.negation),
        Maker::Guard => Handle::guard(alloc, &parts.test, &parts.negation, &parts.negation),
        Maker::Point => Handle::point(alloc, 0, &parts.negation, &parts.negation),
        Maker::Declaration => Ok(Declared::new(&parts.negation)?.handle().share()?),
        Maker::Preparation => Ok(Prepared::new(alloc, &parts.test)?.handle().share()?),
        Maker::Chain => make_chain(alloc, &lists.base, lists.entries.as_slice()),
    }
}

/// Makes a chain of entries over a base.
fn make_chain(alloc: Global, base: &Declared, entries: &[Entry]) -> Result<Handle, TreeFault> {
    if !may_chain(base.handle().method_type(), 0, entries) {
        return Err(TreeFault::BadPosition);
    }
    Ok(chain(alloc, base, 0, entries)?)
}

/// Makes a tree, and makes it again.
pub(crate) fn try_maker(rt: &impl Print, input: Input<'_>, maker: Maker) -> anyhow::Result<()> {
    let parts = make_parts(input.alloc)?;
    let lists = make_lists(input.alloc)?;
    try_parts(rt, input.alloc, maker, &parts, &lists)
}

fn try_parts(
    rt: &impl Print,
    alloc: Global,
    maker: Maker,
    parts: &Parts,
    lists: &Lists,
) -> anyhow::Result<()> {
    tell_parts(rt, parts, lists)?;
    tell_opened(rt)?;
    tell_worked(rt, &make(alloc, maker, parts, lists))?;
    tell_parts(rt, parts, lists)?;
    tell_again(rt, &make(alloc, maker, parts, lists))?;
    tell_parts(rt, parts, lists)
}

fn tell_parts(rt: &impl Print, parts: &Parts, lists: &Lists) -> anyhow::Result<()> {
    tell_part(rt, "parts", parts)?;
    tell_part(rt, "lists", lists)
}
