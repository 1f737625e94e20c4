//! Lists of operands.

ghost use Rattle.std.specs.Prelude.{◌≡◌, ◌∷◌, IsTrue, [], ◌++◌, take, drop, map, ◌+◌, slice_set, IfOk, IfSome, OnOk};
ghost use Rattle.std.specs.List.{range_with_len};
ghost use Rattle.mh_tree.specs.declared.operand.Operand.TheVariants.{Argument, Constant, Local};
ghost use Rattle.mh_tree.specs.Prepared.{leading_arguments, operand_at};

use mh_base::NoMemory;
use mh_tree::Operand;
use mh_type::{Value, same_value};
use std::alloc::Global;

// The greatest number of arguments of a call.
const WIDEST: u32 = 16;

// Returns a copy of an operand.
pub(crate) fn same(operand: &Operand) -> Result<Operand, NoMemory>
    ensures value { IfOk result (λ o. o ≡ operand.now) }
{
    Ok(match operand {
        Operand::Argument(place) => Operand::Argument(*place),
        Operand::Local(place) => Operand::Local(*place),
        Operand::Constant(value) => Operand::Constant(value.share().map_err(|_| NoMemory)?),
    })
}

// Returns whether two operands are equal.
fn is_same(one: &Operand, other: &Operand) -> bool
    ensures same { IsTrue result → one.now ≡ other.now }
{
    match (one, other) {
        (Operand::Argument(place), Operand::Argument(another)) => *place == *another,
        (Operand::Local(place), Operand::Local(another)) => *place == *another,
        (Operand::Constant(value), Operand::Constant(another)) => same_value(value, another),
        _ => false,
    }
}

// Returns whether two lists of operands are equal.
pub(crate) fn same_operands(some: &[Operand], others: &[Operand]) -> bool
    ensures same { IsTrue result → some.now ≡ others.now }
{
    if some.len() != others.len() {
        return false;
    }
    for (index, operand) in some.iter().enumerate() {
        if !is_same(operand, &others[index]) {
            return false;
        }
    }
    true
}

// Returns the operand at an index.
pub(crate) fn at(operands: &[Operand], place: usize) -> Result<Operand, NoMemory>
    ensures value { IfOk result (λ o. o ≡ operand_at operands.now place) }
{
    match operands.get(place) {
        Some(operand) => same(operand),
        None => Ok(Operand::Constant(Value::Boolean(false))),
    }
}

// Appends operands to a list.
fn append(list: &mut Vec<Operand>, operands: &[Operand]) -> Result<(), NoMemory>
    ensures value { OnOk result (list.new.items ≡ list.old.items ++ operands.now) }
{
    for operand in operands {
        list.push(same(operand)?).map_err(|_| NoMemory)?;
    }
    Ok(())
}

// Returns a copy of the operands.
pub(crate) fn copied(alloc: Global, operands: &[Operand]) -> Result<Vec<Operand>, NoMemory>
    ensures value { IfOk result (λ v. v.items ≡ operands.now) }
{
    let mut list = Vec::new(alloc);
    append(&mut list, operands)?;
    Ok(list)
}

// Appends constants to a list.
fn append_constants(list: &mut Vec<Operand>, values: &[Value]) -> Result<(), NoMemory>
    ensures value { OnOk result (list.new.items ≡ list.old.items ++ map Constant values.now) }
{
    for value in values {
        let value = value.share().map_err(|_| NoMemory)?;
        list.push(Operand::Constant(value)).map_err(|_| NoMemory)?;
    }
    Ok(())
}

// Returns `count` leading arguments as operands.
pub(crate) fn arguments(alloc: Global, count: u32) -> Result<Vec<Operand>, NoMemory>
    ensures value { IfOk result (λ v. v.items ≡ map Argument (range_with_len 0 count)) }
{
    let mut list = Vec::new(alloc);
    for place in 0..count {
        list.push(Operand::Argument(place)).map_err(|_| NoMemory)?;
    }
    Ok(list)
}

// Returns the operands with constants inserted.
pub(crate) fn put_in(
    alloc: Global,
    operands: &[Operand],
    position: usize,
    values: &[Value],
) -> Result<Vec<Operand>, NoMemory>
    ensures value { IfOk result (λ v. v.items ≡ take position operands.now
        ++ (map Constant values.now ++ drop position operands.now)) }
{
    let (before, after) = parts(operands, position);
    let mut list = Vec::new(alloc);
    append(&mut list, before)?;
    append_constants(&mut list, values)?;
    append(&mut list, after)?;
    Ok(list)
}

// Returns the operands without `count` of them from an index on.
pub(crate) fn taken_out(
    alloc: Global,
    operands: &[Operand],
    position: usize,
    count: usize,
) -> Result<Vec<Operand>, NoMemory>
    ensures value { IfOk result (λ v. v.items ≡ take position operands.now ++ drop
        (position + count) operands.now) }
{
    let mut list = Vec::new(alloc);
    append(&mut list, parts(operands, position).0)?;
    append(&mut list, behind(operands, position, count))?;
    Ok(list)
}

// Returns the operands at these indices.
pub(crate) fn reordered(
    alloc: Global,
    operands: &[Operand],
    places: &[usize],
) -> Result<Vec<Operand>, NoMemory>
    ensures value { IfOk result (λ v. v.items ≡ map (operand_at operands.now) places.now) }
{
    let mut list = Vec::new(alloc);
    for place in places {
        list.push(at(operands, *place)?).map_err(|_| NoMemory)?;
    }
    Ok(list)
}

// Returns a local followed by the operands.
pub(crate) fn local_first(
    alloc: Global,
    local: u32,
    operands: &[Operand],
) -> Result<Vec<Operand>, NoMemory>
    ensures value { IfOk result (λ v. v.items ≡ Local local ∷ operands.now) }
{
    let mut list = Vec::new(alloc);
    list.push(Operand::Local(local)).map_err(|_| NoMemory)?;
    append(&mut list, operands)?;
    Ok(list)
}

// Returns the operands with a local in place of one of them.
pub(crate) fn with_local(
    alloc: Global,
    operands: &[Operand],
    place: usize,
    local: u32,
) -> Result<Vec<Operand>, NoMemory>
    ensures value { IfOk result (λ v. v.items ≡ slice_set operands.now place (Local local)) }
{
    let mut list = Vec::new(alloc);
    append(&mut list, operands)?;
    if place < list.len() {
        list[place] = Operand::Local(local);
    }
    Ok(list)
}

// Returns the number of operands, if they are the leading arguments in order.
pub(crate) fn leading(operands: &[Operand]) -> Option<u32>
    ensures value { IfSome result (λ n. operands.now ≡ leading_arguments n) }
{
    let mut count = 0;
    for operand in operands {
        match operand {
            Operand::Argument(place) if *place == count && count < WIDEST => count += 1,
            _ => return None,
        }
    }
    Some(count)
}

// Returns the operands before an index, and the others.
pub(crate) fn parts(operands: &[Operand], place: usize) -> (&[Operand], &[Operand])
    ensures before { result.0.now ≡ take place operands.now }
    ensures after { result.1.now ≡ drop place operands.now }
{
    let place = place.min(operands.len());
    (&operands[..place], &operands[place..])
}

// Returns the operands after `count` of them from an index on.
fn behind(operands: &[Operand], position: usize, count: usize) -> &[Operand]
    ensures value { result.now ≡ drop (position + count) operands.now }
{
    parts(parts(operands, position).1, count).1
}
