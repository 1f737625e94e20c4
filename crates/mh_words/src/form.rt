//! The forms of operations on numbers.

ghost use Rattle.std.specs.Prelude.{◌≡◌};
ghost use Rattle.mh_words.specs.inner.Forms.{form_of as form_of_op};

use crate::operation::WordOperation;
use mh_type::{Kind, Op};

/// An operation on two words of a kind, and the kind of its result.
#[derive(Clone, Copy, Debug)]
pub(crate) struct Form {
    pub(crate) operation: WordOperation,
    pub(crate) takes: Kind,
    pub(crate) returns: Kind,
}

// Returns the form of an operation on two numbers or booleans, or `None` for any other operation.
pub(crate) fn form_of(op: Op) -> Option<Form>
    ensures value { result ≡ form_of_op op }
{
    let (operation, takes, returns) = match op {
        Op::Iadd => (WordOperation::IntAdd, Kind::Int, Kind::Int),
        Op::Isub => (WordOperation::IntSubtract, Kind::Int, Kind::Int),
        Op::Imul => (WordOperation::IntMultiply, Kind::Int, Kind::Int),
        Op::Idiv => (WordOperation::IntDivide, Kind::Int, Kind::Int),
        Op::Irem => (WordOperation::IntRemainder, Kind::Int, Kind::Int),
        Op::Ieq => (WordOperation::Equal, Kind::Int, Kind::Boolean),
        Op::Ilt => (WordOperation::Less, Kind::Int, Kind::Boolean),
        Op::Ladd => (WordOperation::LongAdd, Kind::Long, Kind::Long),
        Op::Lsub => (WordOperation::LongSubtract, Kind::Long, Kind::Long),
        Op::Lmul => (WordOperation::LongMultiply, Kind::Long, Kind::Long),
        Op::Ldiv => (WordOperation::LongDivide, Kind::Long, Kind::Long),
        Op::Lrem => (WordOperation::LongRemainder, Kind::Long, Kind::Long),
        Op::Leq => (WordOperation::Equal, Kind::Long, Kind::Boolean),
        Op::Llt => (WordOperation::Less, Kind::Long, Kind::Boolean),
        Op::Beq => (WordOperation::Equal, Kind::Boolean, Kind::Boolean),
        _ => return None,
    };
    Some(Form {
        operation,
        takes,
        returns,
    })
}
