//! The arguments of calls.

ghost use Rattle.std.specs.Prelude.{◌≡◌, ◌∷◌, [], length};

use mh_type::Value;
use std::marker::Model;

/// The arguments of a call, in order. Up to two are stored in place, so that a call with few
/// arguments does not allocate memory for them.
///
/// A contract sees them as a list.
#[derive(Debug, Drop)]
pub struct Arguments {
    values: Values,
}

// The storage of the values.
#[derive(Debug, Drop)]
pub(crate) enum Values {
    None,
    One([Value; 1]),
    Two([Value; 2]),
    Many(Vec<Value>),
}

impl Model for Arguments {
    ghost use Rattle.std.specs.Prelude.{List};
    ghost use Rattle.mh_type.specs.declared.value.Value.{Value as Held};

    ghost Value = { List Held };

    ghost use Rattle.mh_core.specs.Arguments.{arguments};

    ghost view = { arguments };
}

impl Arguments {
    /// Returns the arguments of a call without arguments.
    pub fn none() -> Arguments
        ensures value { result ≡ [] }
    {
        Arguments {
            values: Values::None,
        }
    }

    /// Returns the arguments of a call with one argument.
    pub fn one(value: Value) -> Arguments
        ensures value { result ≡ value ∷ [] }
    {
        Arguments {
            values: Values::One([value]),
        }
    }

    /// Returns the arguments of a call with two arguments.
    pub fn two(first: Value, second: Value) -> Arguments
        ensures value { result ≡ first ∷ second ∷ [] }
    {
        Arguments {
            values: Values::Two([first, second]),
        }
    }

    /// Returns the arguments of a call with any number of arguments. More than two stay in the
    /// vector.
    pub fn from_vec(mut values: Vec<Value>) -> Arguments
        ensures value { result ≡ values.items }
    {
        if values.len() > 2 {
            return Arguments {
                values: Values::Many(values),
            };
        }
        match (values.pop(), values.pop()) {
            (Some(second), Some(first)) => Arguments::two(first, second),
            (Some(only), None) => Arguments::one(only),
            (None, _) => Arguments::none(),
        }
    }

    /// Returns the values.
    pub fn as_slice(&self) -> &[Value]
        ensures value { result.now ≡ self.now }
    {
        match &self.values {
            Values::None => &[],
            Values::One(value) => value,
            Values::Two(values) => values,
            Values::Many(values) => values.as_slice(),
        }
    }

    /// Returns the number of values.
    pub fn len(&self) -> usize
        ensures value { result ≡ length self.now }
    {
        self.as_slice().len()
    }
}
