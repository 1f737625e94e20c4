//! Finds the source of each operand and operation of prepared code.

ghost use Rattle.std.specs.Prelude.{◌≡◌, ◌≤◌, ◌<◌, ◌∷◌, ℕ, ℤ, List, [], length, IfSome, IfOk};
ghost use Rattle.mh_code.specs.PieceOf.{key_source as source_of_key};
ghost use Rattle.mh_code.specs.Routine.{operand as operand_of, operation as operation_of};
ghost use Rattle.mh_tree.specs.Running.{value_of};
ghost use Rattle.mh_tree.specs.declared.operand.Operand.{Operand as OperandData};
ghost use Rattle.mh_words.specs.Operations.{result as result_of};
ghost use Rattle.mh_words.specs.Running.{source_word};
ghost use Rattle.mh_words.specs.inner.Agrees.{AllBelow, input_word};
ghost use Rattle.mh_words.specs.inner.Lowered.{Computes, Copies, IsKeySlot, Makes, Reads, Tests};

use crate::calculating::calculate;
use crate::form::form_of;
use crate::input::Input;
use crate::known::Known;
use crate::made::Made;
use crate::operation::WordOperation;
use crate::place::Place;
use crate::slot::Slot;
use crate::stop::Stop;
use crate::word_source::WordSource;
use crate::word_test::WordTest;
use crate::words::word_of;
use mh_code::KeyTest;
use mh_tree::Operand;
use mh_type::{Kind, MethodType, Op};

// Returns what is known of an argument, or `None` for a text.
fn argument(of: &MethodType, place: u32) -> Option<Known>
    ensures value { IfSome result (λ k. (ks : List Known) → Reads of.now ks
        (OperandData.Argument place) k) }
{
    let at = place as usize;
    if at >= of.count() {
        return None;
    }
    let kind = of.parameter(at);
    if kind.is(Kind::Text) {
        return None;
    }
    let input = Input::Read(Slot::new(at as u8));
    Some(Known { kind, input })
}

// Returns what is known of an operand, or `None` for a text.
fn known(place: &Place<'_>, operand: &Operand) -> Option<Known>
    ensures value { IfSome result (λ k. Reads place.now.of.now place.now.locals.now operand.now k) }
{
    match operand {
        Operand::Argument(number) => argument(place.of, *number),
        Operand::Local(number) => Some(*place.locals.get(*number as usize)?),
        Operand::Constant(value) => {
            let input = Input::Constant(word_of(value)?);
            let kind = value.kind();
            Some(Known { kind, input })
        }
    }
}

// Returns the source that reads an input.
fn source_of(input: Input) -> WordSource
    ensures value { Copies result input }
{
    match input {
        Input::Read(slot) => WordSource::Copy(slot),
        Input::Constant(word) => WordSource::Constant(word),
    }
}

// Returns the input that a source reads, if it only reads one.
pub(crate) fn input_of(source: &WordSource) -> Option<Input>
    ensures value { IfSome result (λ j. Copies source.now j) }
{
    match source {
        WordSource::Copy(slot) => Some(Input::Read(*slot)),
        WordSource::Constant(word) => Some(Input::Constant(*word)),
        _ => None,
    }
}

// Returns the source of an operation on two inputs. An operation on two constants is a constant;
// returns `None` if it throws.
fn apply(operation: WordOperation, first: Input, second: Input) -> Option<WordSource>
    ensures value { IfSome result (λ s. (f : List ℤ) → source_word f s
        ≡ result_of operation (input_word f first) (input_word f second)) }
{
    Some(match (first, second) {
        (Input::Read(first), Input::Read(second)) => WordSource::Apply {
            operation,
            first,
            second,
        },
        (Input::Read(first), Input::Constant(second)) => WordSource::ApplyRight {
            operation,
            first,
            second,
        },
        (Input::Constant(first), Input::Read(second)) => WordSource::ApplyLeft {
            operation,
            first,
            second,
        },
        (Input::Constant(first), Input::Constant(second)) => {
            WordSource::Constant(calculate(operation, first, second)?)
        }
    })
}

// Returns `None` if a word is not of this kind.
fn demand(known: Known, kind: Kind) -> Option<()>
    ensures same { IfSome result (λ _. known.kind ≡ kind) }
{
    if known.kind.is(kind) { Some(()) } else { None }
}

// Returns the source of an operation on a number or a boolean, or `None` for any other operation.
fn one(op: Op, first: Known) -> Option<Made>
    ensures value { IfSome result (λ y. (k : Known) → Computes op first k y) }
{
    let zero = Input::Constant(0);
    match op {
        Op::Ineg => {
            demand(first, Kind::Int)?;
            let source = apply(WordOperation::IntSubtract, zero, first.input)?;
            let kind = Kind::Int;
            Some(Made { kind, source })
        }
        Op::Lneg => {
            demand(first, Kind::Long)?;
            let source = apply(WordOperation::LongSubtract, zero, first.input)?;
            let kind = Kind::Long;
            Some(Made { kind, source })
        }
        Op::I2l => {
            demand(first, Kind::Int)?;
            let source = source_of(first.input);
            let kind = Kind::Long;
            Some(Made { kind, source })
        }
        Op::L2i => {
            demand(first, Kind::Long)?;
            let source = apply(WordOperation::LongToInt, first.input, first.input)?;
            let kind = Kind::Int;
            Some(Made { kind, source })
        }
        Op::Not => {
            demand(first, Kind::Boolean)?;
            let source = apply(WordOperation::Equal, first.input, zero)?;
            let kind = Kind::Boolean;
            Some(Made { kind, source })
        }
        _ => None,
    }
}

// Returns the source of an operation on two numbers or booleans, or `None` for any other operation.
fn two(op: Op, first: Known, second: Known) -> Option<Made>
    ensures value { IfSome result (λ y. Computes op first second y) }
{
    let form = form_of(op)?;
    demand(first, form.takes)?;
    demand(second, form.takes)?;
    let source = apply(form.operation, first.input, second.input)?;
    Some(Made {
        kind: form.returns,
        source,
    })
}

// Returns the source of an operation, or `None` for an operation on texts.
fn operation(op: Op, first: Known, second: Known) -> Option<Made>
    ensures value { IfSome result (λ y. Computes op first second y) }
{
    match one(op, first) {
        Some(made) => Some(made),
        None => two(op, first, second),
    }
}

// Returns the source of an operand.
pub(crate) fn operand_source(place: &Place<'_>, operand: &Operand) -> Result<Made, Stop>
    ensures value { IfOk result (λ y. Makes place.now.of.now place.now.locals.now
        (operand_of operand.now) y) }
{
    let Some(known) = known(place, operand) else {
        return Err(Stop::Unfit);
    };
    Ok(Made {
        kind: known.kind,
        source: source_of(known.input),
    })
}

// Returns the source of an operation on operands.
pub(crate) fn operation_source(
    place: &Place<'_>,
    op: Op,
    first: &Operand,
    second: &Operand,
) -> Result<Made, Stop>
    ensures value { IfOk result (λ y. Makes place.now.of.now place.now.locals.now
        (operation_of op first.now second.now) y) }
{
    let Some(first) = known(place, first) else {
        return Err(Stop::Unfit);
    };
    let Some(second) = known(place, second) else {
        return Err(Stop::Unfit);
    };
    match operation(op, first, second) {
        Some(made) => Ok(made),
        None => Err(Stop::Unfit),
    }
}

// Returns the source of a key's test.
pub(crate) fn key_source(place: &Place<'_>, test: KeyTest) -> Result<Made, Stop>
    ensures value { IfOk result (λ y. Makes place.now.of.now place.now.locals.now
        (source_of_key test) y) }
{
    let Some(first) = argument(place.of, test.place) else {
        return Err(Stop::Unfit);
    };
    let second = Known {
        kind: Kind::Int,
        input: Input::Constant(i64::from(test.key)),
    };
    match two(Op::Ieq, first, second) {
        Some(made) => Ok(made),
        None => Err(Stop::Unfit),
    }
}

// Returns the slot of an int argument that keys are compared with.
pub(crate) fn key_slot(place: &Place<'_>, number: u32) -> Result<Slot, Stop>
    ensures value { IfOk result (λ s. IsKeySlot place.now.of.now place.now.locals.now number s) }
{
    let Some(known) = argument(place.of, number) else {
        return Err(Stop::Unfit);
    };
    if !known.kind.is(Kind::Int) {
        return Err(Stop::Unfit);
    }
    match known.input {
        Input::Read(slot) => Ok(slot),
        Input::Constant(_) => Err(Stop::Unfit),
    }
}

// Returns the test whose truth is the boolean of a source.
pub(crate) fn test_of(source: &WordSource) -> Result<WordTest, Stop>
    ensures value { IfOk result (λ t. Tests source.now t) }
{
    match source {
        WordSource::Copy(slot) => Ok(WordTest::True(*slot)),
        WordSource::Apply {
            operation: WordOperation::Equal,
            first,
            second,
        } => Ok(WordTest::Equal(*first, *second)),
        WordSource::Apply {
            operation: WordOperation::Less,
            first,
            second,
        } => Ok(WordTest::Less(*first, *second)),
        WordSource::ApplyRight {
            operation: WordOperation::Equal,
            first,
            second,
        } => Ok(WordTest::Is(*first, *second)),
        WordSource::ApplyRight {
            operation: WordOperation::Less,
            first,
            second,
        } => Ok(WordTest::Below(*first, *second)),
        WordSource::ApplyLeft {
            operation: WordOperation::Equal,
            first,
            second,
        } => Ok(WordTest::Is(*second, *first)),
        WordSource::ApplyLeft {
            operation: WordOperation::Less,
            first,
            second,
        } => Ok(WordTest::Above(*second, *first)),
        _ => Err(Stop::Unfit),
    }
}

// Returns the place of the first slot after all slots of arguments and of locals.
pub(crate) fn first_free(locals: &[Known]) -> u8
    ensures above { AllBelow result locals.now }
    ensures behind { 16 ≤ result }
    ensures few { result ≤ 64 }
{
    let Some((local, rest)) = locals.split_first() else {
        return 16;
    };
    let free = first_free(rest);
    match local.input {
        Input::Read(slot) if slot.place >= free => slot.place + 1,
        _ => free,
    }
}
