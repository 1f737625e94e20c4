//! The leaf operations.

ghost use Rattle.std.specs.Prelude.{◌≡◌, [], ◌∷◌, Some};
ghost use Rattle.mh_type.specs.Operations.{op_signature, op_named};
ghost use Rattle.mh_type.specs.Display.{op_name};

use crate::kind::Kind;
use crate::method_type::MethodType;

/// A leaf operation. The results are defined as in the Java Language Specification, Java SE 17:
/// sums, differences, products and negations wrap (15.18.2, 15.17.1, 15.15.4), division truncates
/// towards zero and throws if the divisor is zero (15.17.2), the remainder has the dividend's sign
/// (15.17.3), and conversions widen (5.1.2) or keep the low bits (5.1.3).
#[derive(Clone, Copy, Debug, PartialEq, Eq)]
pub enum Op {
    Iadd,
    Isub,
    Imul,
    Idiv,
    Irem,
    Ineg,
    Ieq,
    Ilt,
    Ladd,
    Lsub,
    Lmul,
    Ldiv,
    Lrem,
    Lneg,
    Leq,
    Llt,
    I2l,
    L2i,
    Not,
    Beq,
    Concat,
    Seq,
    Len,
}

impl Op {
    /// Returns the name of the operation, as `iadd`. `from_name` is its inverse.
    pub fn name(self) -> &'static str
        ensures value { result.now ≡ op_name self }
        ensures read { op_named result.now ≡ Some self }
    {
        match self {
            Op::Iadd => "iadd",
            Op::Isub => "isub",
            Op::Imul => "imul",
            Op::Idiv => "idiv",
            Op::Irem => "irem",
            Op::Ineg => "ineg",
            Op::Ieq => "ieq",
            Op::Ilt => "ilt",
            Op::Ladd => "ladd",
            Op::Lsub => "lsub",
            Op::Lmul => "lmul",
            Op::Ldiv => "ldiv",
            Op::Lrem => "lrem",
            Op::Lneg => "lneg",
            Op::Leq => "leq",
            Op::Llt => "llt",
            Op::I2l => "i2l",
            Op::L2i => "l2i",
            Op::Not => "not",
            Op::Beq => "beq",
            Op::Concat => "concat",
            Op::Seq => "seq",
            Op::Len => "len",
        }
    }

    /// Returns the operation with a name, as `iadd`, or `None` if there is none.
    pub fn from_name(name: &str) -> Option<Op>
        ensures value { result ≡ op_named name.now }
    {
        match name {
            "iadd" => Some(Op::Iadd),
            "isub" => Some(Op::Isub),
            "imul" => Some(Op::Imul),
            "idiv" => Some(Op::Idiv),
            "irem" => Some(Op::Irem),
            "ineg" => Some(Op::Ineg),
            "ieq" => Some(Op::Ieq),
            "ilt" => Some(Op::Ilt),
            "ladd" => Some(Op::Ladd),
            "lsub" => Some(Op::Lsub),
            "lmul" => Some(Op::Lmul),
            "ldiv" => Some(Op::Ldiv),
            "lrem" => Some(Op::Lrem),
            "lneg" => Some(Op::Lneg),
            "leq" => Some(Op::Leq),
            "llt" => Some(Op::Llt),
            "i2l" => Some(Op::I2l),
            "l2i" => Some(Op::L2i),
            "not" => Some(Op::Not),
            "beq" => Some(Op::Beq),
            "concat" => Some(Op::Concat),
            "seq" => Some(Op::Seq),
            "len" => Some(Op::Len),
            _ => None,
        }
    }

    /// Returns the operation's type.
    pub fn op_type(self) -> MethodType
        ensures value { result ≡ op_signature self }
    {
        match self {
            Op::Iadd | Op::Isub | Op::Imul | Op::Idiv | Op::Irem => binary(Kind::Int, Kind::Int),
            Op::Ineg => MethodType::unary(Kind::Int, Kind::Int),
            Op::Ieq | Op::Ilt => binary(Kind::Int, Kind::Boolean),
            Op::Ladd | Op::Lsub | Op::Lmul | Op::Ldiv | Op::Lrem => binary(Kind::Long, Kind::Long),
            Op::Lneg => MethodType::unary(Kind::Long, Kind::Long),
            Op::Leq | Op::Llt => binary(Kind::Long, Kind::Boolean),
            Op::I2l => MethodType::unary(Kind::Int, Kind::Long),
            Op::L2i => MethodType::unary(Kind::Long, Kind::Int),
            Op::Not => MethodType::unary(Kind::Boolean, Kind::Boolean),
            Op::Beq => binary(Kind::Boolean, Kind::Boolean),
            Op::Concat => binary(Kind::Text, Kind::Text),
            Op::Seq => binary(Kind::Text, Kind::Boolean),
            Op::Len => MethodType::unary(Kind::Text, Kind::Int),
        }
    }
}

// Returns the type with two parameters of a kind.
fn binary(kind: Kind, ret: Kind) -> MethodType
    ensures value { result ≡ record { ret = ret; parameters = kind ∷ kind ∷ [] } }
{
    let mut made = MethodType::unary(kind, ret);
    made.push(kind);
    made
}
