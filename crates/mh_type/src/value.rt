//! Values.

ghost use Rattle.std.specs.Prelude.{◌≡◌, ◌↔◌, map, IfOk, IfErr, IsTrue};
ghost use Rattle.mh_type.specs.Kinds.{kind_of};
ghost use Rattle.mh_type.specs.Values.{same_value as values_same};

use crate::fault::TypeFault;
use crate::kind::Kind;
use crate::text::Text;
use std::alloc::Global;

/// A value of one of the four kinds.
#[derive(Debug, PartialEq, Eq, Drop)]
pub enum Value {
    Int(i32),
    Long(i64),
    Boolean(bool),
    Text(Text),
}

impl Value {
    /// Returns the kind of the value.
    pub fn kind(&self) -> Kind
        ensures value { result ≡ kind_of self.now }
    {
        match self {
            Value::Int(_) => Kind::Int,
            Value::Long(_) => Kind::Long,
            Value::Boolean(_) => Kind::Boolean,
            Value::Text(_) => Kind::Text,
        }
    }

    /// Returns a copy of the value; a text gets another owner. Fails only with `NoMemory`, and only
    /// for a text.
    pub fn share(&self) -> Result<Value, TypeFault>
        ensures value { IfOk result (λ v. v ≡ self.now) }
        ensures refused { IfErr result (λ e. (e ≡ TypeFault.NoMemory)
            × (kind_of self.now ≡ Kind.Text)) }
    {
        Ok(match self {
            Value::Int(number) => Value::Int(*number),
            Value::Long(number) => Value::Long(*number),
            Value::Boolean(truth) => Value::Boolean(*truth),
            Value::Text(text) => Value::Text(text.share()?),
        })
    }
}

/// Returns whether there is exactly one value for each kind, of that kind, in order.
pub fn have_kinds(values: &[Value], kinds: &[Kind]) -> bool
    ensures same { IsTrue result ↔ (map kind_of values.now ≡ kinds.now) }
{
    if values.len() != kinds.len() {
        return false;
    }
    for (index, value) in values.iter().enumerate() {
        if value.kind() != kinds[index] {
            return false;
        }
    }
    true
}

/// Returns whether both values are equal, that is, of the same kind and equal.
pub fn same_value(one: &Value, other: &Value) -> bool
    ensures value { result ≡ values_same one.now other.now }
    ensures same { IsTrue result ↔ (one.now ≡ other.now) }
{
    match (one, other) {
        (Value::Int(x), Value::Int(y)) => *x == *y,
        (Value::Long(x), Value::Long(y)) => *x == *y,
        (Value::Boolean(x), Value::Boolean(y)) => *x == *y,
        (Value::Text(x), Value::Text(y)) => x.as_str() == y.as_str(),
        _ => false,
    }
}

/// Returns copies of the values; each text gets another owner. Fails only with `NoMemory`.
pub fn copy_values(alloc: Global, values: &[Value]) -> Result<Vec<Value>, TypeFault>
    ensures value { IfOk result (λ v. v.items ≡ values.now) }
    ensures refused { IfErr result (λ e. e ≡ TypeFault.NoMemory) }
{
    let mut copied = Vec::new(alloc);
    for value in values {
        let value = value.share()?;
        copied.push(value).map_err(|_| TypeFault::NoMemory)?;
    }
    Ok(copied)
}
