//! The texts of kinds, operations, method types, values and outcomes.

ghost use Rattle.std.specs.Prelude.{Some, ◌∷◌, ◌<◌, All};
ghost use Rattle.std.specs.Fmt.{WritesOnOk};
ghost use Rattle.std.specs.List.{flat_map};
ghost use Rattle.mh_type.specs.Kinds.{kind_name};
ghost use Rattle.mh_type.specs.Written.{listed, written};
ghost use Rattle.mh_type.specs.Display.{op_name, escaped, quoted, value_text, throw_name, outcome_text};

use crate::kind::Kind;
use crate::method_type::MethodType;
use crate::operation::Op;
use crate::outcome::{Outcome, Throw};
use crate::value::Value;
use std::fmt;

/// Writes the name, as `int`.
impl fmt::Display for Kind {
    ghost output = { λ kind. Some (kind_name kind) };

    fn fmt<W: fmt::Write>(&self, f: &mut fmt::Formatter<W>) -> fmt::Result {
        f.write_str(self.name())
    }
}

/// Writes the name, as `iadd`.
impl fmt::Display for Op {
    ghost output = { λ op. Some (op_name op) };

    fn fmt<W: fmt::Write>(&self, f: &mut fmt::Formatter<W>) -> fmt::Result {
        f.write_str(self.name())
    }
}

/// Writes the text of the type, as `(int,String)long`, which `MethodType::parse` reads.
impl fmt::Display for MethodType {
    ghost output = { λ m. Some (written m) };

    fn fmt<W: fmt::Write>(&self, f: &mut fmt::Formatter<W>) -> fmt::Result {
        f.write_str("(")?;
        write_kinds(self.parameters(), f)?;
        f.write_str(")")?;
        f.write_str(self.ret().name())
    }
}

// Writes the names of kinds, with commas between them.
fn write_kinds<W: fmt::Write>(kinds: &[Kind], f: &mut fmt::Formatter<W>) -> fmt::Result
    ensures text { WritesOnOk W.write_str_gives f.old result (listed kinds.now) f.new }
{
    let [first, others @ ..] = kinds else {
        return Ok(());
    };
    f.write_str(first.name())?;
    write_more(others, f)
}

// Writes a comma and a name for each of these kinds.
fn write_more<W: fmt::Write>(kinds: &[Kind], f: &mut fmt::Formatter<W>) -> fmt::Result
    ensures text { WritesOnOk W.write_str_gives f.old result
        (flat_map (λ k. 44 ∷ kind_name k) kinds.now) f.new }
{
    for kind in kinds {
        f.write_str(",")?;
        f.write_str(kind.name())?;
    }
    Ok(())
}

/// Writes the kind and the value, as `int -1`, `boolean true`, or `String "ab"`, with a backslash
/// before each quote and backslash.
impl fmt::Display for Value {
    ghost output = { λ value. Some (value_text value) };

    fn fmt<W: fmt::Write>(&self, f: &mut fmt::Formatter<W>) -> fmt::Result {
        match self {
            Value::Int(number) => write!(f, "int {number}"),
            Value::Long(number) => write!(f, "long {number}"),
            Value::Boolean(true) => write!(f, "boolean true"),
            Value::Boolean(false) => write!(f, "boolean false"),
            Value::Text(text) => {
                f.write_str("String ")?;
                write_quoted(text.as_str().as_bytes(), f)
            }
        }
    }
}

// Writes ASCII bytes between quotes, with a backslash before each quote and backslash.
fn write_quoted<W: fmt::Write>(text: &[u8], f: &mut fmt::Formatter<W>) -> fmt::Result
    requires ascii { All (λ b. b < 128) text.now }
    ensures text { WritesOnOk W.write_str_gives f.old result (quoted text.now) f.new }
{
    f.write_char('"')?;
    write_escaped(text, f)?;
    f.write_char('"')
}

// Writes ASCII bytes, with a backslash before each quote and backslash.
fn write_escaped<W: fmt::Write>(text: &[u8], f: &mut fmt::Formatter<W>) -> fmt::Result
    requires ascii { All (λ b. b < 128) text.now }
    ensures text { WritesOnOk W.write_str_gives f.old result (flat_map escaped text.now) f.new }
{
    for byte in text {
        if *byte == b'"' || *byte == b'\\' {
            f.write_char('\\')?;
        }
        f.write_char(char::from(*byte))?;
    }
    Ok(())
}

/// Writes the name of the exception, as `ArithmeticException`.
impl fmt::Display for Throw {
    ghost output = { λ thrown. Some (throw_name thrown) };

    fn fmt<W: fmt::Write>(&self, f: &mut fmt::Formatter<W>) -> fmt::Result {
        match self {
            Throw::ArithmeticException => write!(f, "ArithmeticException"),
            Throw::TextTooLong => write!(f, "TextTooLong"),
        }
    }
}

/// Writes the value, or `thrown` and the exception.
impl fmt::Display for Outcome {
    ghost output = { λ outcome. Some (outcome_text outcome) };

    fn fmt<W: fmt::Write>(&self, f: &mut fmt::Formatter<W>) -> fmt::Result {
        match self {
            Outcome::Value(value) => write!(f, "{value}"),
            Outcome::Thrown(thrown) => write!(f, "thrown {thrown}"),
        }
    }
}
