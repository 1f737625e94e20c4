//! Frames of arguments: the values on the stack from an index on.

ghost use Rattle.std.specs.Prelude.{◌≡◌, ◌+◌, ◌<◌, ◌≤◌, ◌∷◌, [], length, take, drop, map, vec_capacity, IfOk, IsOk};
ghost use Rattle.std.specs.List.{All};
ghost use Rattle.mh_eval.specs.Entered.{IsPlainKind};
ghost use Rattle.mh_eval.specs.Frames.{Extends};
ghost use Rattle.mh_tree.specs.Meaning.{argument, put_in, taken_out};
ghost use Rattle.mh_type.specs.Kinds.{kind_of};

use mh_base::NoMemory;
use mh_type::Value;

// Returns another owner of a value.
fn owner(value: &Value) -> Result<Value, NoMemory>
    ensures value { IfOk result (λ v. v ≡ value.now) }
    ensures quiet { IsPlainKind (kind_of value.now) → IsOk result }
{
    match value {
        Value::Int(number) => Ok(Value::Int(*number)),
        Value::Long(number) => Ok(Value::Long(*number)),
        Value::Boolean(truth) => Ok(Value::Boolean(*truth)),
        Value::Text(text) => match text.share() {
            Ok(text) => Ok(Value::Text(text)),
            Err(_) => Err(NoMemory),
        },
    }
}

// Pushes a value on the stack.
pub(crate) fn put(stack: &mut Vec<Value>, value: Value) -> Result<(), NoMemory>
    ensures extends { Extends result stack.old.items stack.new.items (value ∷ [])
        (vec_capacity stack.old) (vec_capacity stack.new) }
{
    match stack.push(value) {
        Ok(()) => Ok(()),
        Err(_) => Err(NoMemory),
    }
}

// Pushes another owner of a value that is on the stack.
fn put_copy(stack: &mut Vec<Value>, place: usize) -> Result<(), NoMemory>
    requires inside { place < length stack.old.items }
    ensures extends { Extends result stack.old.items stack.new.items
        (argument stack.old.items place ∷ []) (vec_capacity stack.old) (vec_capacity stack.new) }
{
    let value = owner(&stack[place])?;
    put(stack, value)
}

/// Appends another owner of a value to a list. If memory is refused, the list does not change; this
/// never happens for a value other than a text if there is room.
pub fn put_owner(stack: &mut Vec<Value>, value: &Value) -> Result<(), NoMemory>
    ensures extends { Extends result stack.old.items stack.new.items (value.now ∷ [])
        (vec_capacity stack.old) (vec_capacity stack.new) }
{
    let value = owner(value)?;
    put(stack, value)
}

// Pushes further owners of values.
pub(crate) fn put_values(stack: &mut Vec<Value>, values: &[Value]) -> Result<(), NoMemory>
    ensures extends { Extends result stack.old.items stack.new.items values.now
        (vec_capacity stack.old) (vec_capacity stack.new) }
{
    for value in values {
        put_owner(stack, value)?;
    }
    Ok(())
}

// Pushes further owners of the values from index `first` up to `end`.
pub(crate) fn put_copies(stack: &mut Vec<Value>, first: usize, end: usize) -> Result<(), NoMemory>
    requires inside { end ≤ length stack.old.items }
    requires some { first ≤ end }
    ensures extends { Extends result stack.old.items stack.new.items
        (drop first (take end stack.old.items)) (vec_capacity stack.old) (vec_capacity stack.new) }
{
    for place in first..end {
        put_copy(stack, place)?;
    }
    Ok(())
}

// Pushes further owners of the arguments at these positions, where the arguments begin at index
// `from`.
pub(crate) fn put_reordered(
    stack: &mut Vec<Value>,
    from: usize,
    reorder: &[usize],
) -> Result<(), NoMemory>
    requires inside { All (λ i. i < length (drop from stack.old.items)) reorder.now }
    ensures extends { Extends result stack.old.items stack.new.items
        (map (argument (drop from stack.old.items)) reorder.now) (vec_capacity stack.old)
        (vec_capacity stack.new) }
{
    for place in reorder {
        put_copy(stack, from + *place)?;
    }
    Ok(())
}

// Pushes the arguments, which begin at index `from`, with these values inserted before a position.
pub(crate) fn put_inserted(
    stack: &mut Vec<Value>,
    from: usize,
    position: usize,
    values: &[Value],
) -> Result<(), NoMemory>
    requires inside { from + position ≤ length stack.old.items }
    ensures extends { Extends result stack.old.items stack.new.items
        (put_in (drop from stack.old.items) position values.now) (vec_capacity stack.old)
        (vec_capacity stack.new) }
{
    let end = stack.len();
    put_copies(stack, from, from + position)?;
    put_values(stack, values)?;
    put_copies(stack, from + position, end)?;
    Ok(())
}

// Pushes the arguments, which begin at index `from`, without `count` of them from a position on.
pub(crate) fn put_taken_out(
    stack: &mut Vec<Value>,
    from: usize,
    position: usize,
    count: usize,
) -> Result<(), NoMemory>
    requires inside { from + (position + count) ≤ length stack.old.items }
    ensures extends { Extends result stack.old.items stack.new.items
        (taken_out (drop from stack.old.items) position count) (vec_capacity stack.old)
        (vec_capacity stack.new) }
{
    let end = stack.len();
    put_copies(stack, from, from + position)?;
    put_copies(stack, from + (position + count), end)?;
    Ok(())
}

// Pushes a value followed by the arguments, which begin at index `from`.
pub(crate) fn put_first(stack: &mut Vec<Value>, from: usize, value: Value) -> Result<(), NoMemory>
    requires inside { from ≤ length stack.old.items }
    ensures extends { Extends result stack.old.items stack.new.items
        (value ∷ drop from stack.old.items) (vec_capacity stack.old) (vec_capacity stack.new) }
{
    let end = stack.len();
    put(stack, value)?;
    put_copies(stack, from, end)?;
    Ok(())
}
