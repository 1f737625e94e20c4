//! Lowering prepared code to code over words.

ghost use Rattle.std.specs.Prelude.{◌≡◌, ◌+◌, ◌≤◌, ℕ, drop, get_or, take, IfOk};
ghost use Rattle.std.specs.Arc.{arc_value};
ghost use Rattle.mh_code.specs.PieceOf.{chain as chain_of, routine_of, routines};
ghost use Rattle.mh_code.specs.Routine.{Source, keep as keep_routine, pick as pick_routine, point as point_routine};
ghost use Rattle.mh_words.specs.Routine.{give as give_word};
ghost use Rattle.mh_words.specs.RoutineOf.{word_routine};
ghost use Rattle.mh_words.specs.Limits.{argument_slots};
ghost use Rattle.mh_words.specs.inner.Agrees.{AllBelow};
ghost use Rattle.mh_words.specs.inner.Lowered.{IsKeySlot, Lowers, Makes};
ghost use Rattle.mh_words.specs.inner.Switches.{tests as tests_of};

use crate::calculating::is_true;
use crate::input::Input;
use crate::keyed::{Keyed, Tests};
use crate::known::Known;
use crate::made::Made;
use crate::maker::{Maker, choose, own};
use crate::piece::WordPiece;
use crate::place::{Place, with_local};
use crate::slot::{FRAME_LENGTH, Slot};
use crate::sources::{
    first_free, input_of, key_slot, key_source, operand_source, operation_source, test_of,
};
use crate::stop::Stop;
use crate::switching::switch;
use crate::word_source::WordSource;
use mh_code::{Piece, Row};
use mh_type::Kind;
use std::sync::Arc;

// The two pieces that a test chooses between.
#[derive(Clone, Copy)]
struct Branches<'a> {
    target: &'a Piece,
    fallback: &'a Piece,
}

// A chain of tests of one argument, and their targets.
#[derive(Clone, Copy)]
struct Chain<'a> {
    place: u32,
    rows: &'a [Row],
    targets: &'a [Arc<Piece>],
    otherwise: &'a Piece,
}

// Makes the piece that answers with the word of a source.
fn give(maker: &mut Maker, made: &Made, place: &Place<'_>) -> Result<Arc<WordPiece>, Stop>
    ensures value { IfOk result (λ a. word_routine (arc_value a)
        ≡ give_word place.now.before made.now.source) }
    ensures kind { IfOk result (λ _. made.now.kind ≡ place.now.of.now.ret) }
{
    if !made.kind.is(place.of.ret()) {
        return Err(Stop::Unfit);
    }
    let piece = WordPiece::Answer {
        source: made.source,
        steps: place.before,
    };
    own(maker, piece)
}

// Lowers a piece.
#[cycle(lower)]
pub(crate) fn lower_piece(
    maker: &mut Maker,
    piece: &Piece,
    place: &Place<'_>,
) -> Result<Arc<WordPiece>, Stop>
    ensures lowers { IfOk result (λ a. Lowers place.now.of.now place.now.locals.now
        (word_routine (arc_value a)) (routine_of piece.now) place.now.before) }
{
    match piece {
        Piece::Leaf { operand, steps } => {
            let place = place.after(*steps)?;
            let made = operand_source(&place, operand)?;
            give(maker, &made, &place)
        }
        Piece::Apply {
            op,
            first,
            second,
            steps,
        } => {
            let place = place.after(*steps)?;
            let made = operation_source(&place, *op, first, second)?;
            give(maker, &made, &place)
        }
        Piece::Put {
            operand,
            local,
            then,
            steps,
        } => {
            let place = place.after(*steps)?;
            let made = operand_source(&place, operand)?;
            lower_kept(maker, &made, *local, then, &place)
        }
        Piece::Let {
            op,
            first,
            second,
            local,
            then,
            steps,
        } => {
            let place = place.after(*steps)?;
            let made = operation_source(&place, *op, first, second)?;
            lower_kept(maker, &made, *local, then, &place)
        }
        Piece::Truth {
            operand,
            target,
            fallback,
            steps,
        } => {
            let place = place.after(*steps)?;
            let made = operand_source(&place, operand)?;
            let branches = Branches { target, fallback };
            lower_choice(maker, &made, branches, &place)
        }
        Piece::Test {
            op,
            first,
            second,
            target,
            fallback,
            steps,
        } => {
            let place = place.after(*steps)?;
            let made = operation_source(&place, *op, first, second)?;
            let branches = Branches { target, fallback };
            lower_choice(maker, &made, branches, &place)
        }
        Piece::Case {
            test,
            target,
            fallback,
            steps,
        } => {
            let place = place.after(*steps)?;
            let made = key_source(&place, *test)?;
            let branches = Branches { target, fallback };
            lower_choice(maker, &made, branches, &place)
        }
        Piece::Switch {
            place: number,
            index,
            targets,
            otherwise,
        } => {
            let place = place.after(0)?;
            let chain = Chain {
                place: *number,
                rows: index.rows(),
                targets,
                otherwise,
            };
            lower_switch(maker, chain, &place)
        }
        Piece::Point {
            point,
            target,
            fallback,
            steps,
        } => {
            let place = place.after(*steps)?;
            let branches = Branches { target, fallback };
            lower_point(maker, *point, branches, &place)
        }
        Piece::Go { code, steps } => lower_piece(maker, code.entry(), &place.after(*steps)?),
        Piece::Invoke { .. } | Piece::Forward { .. } | Piece::Call { .. } => Err(Stop::Unfit),
    }
}

// Lowers the piece that follows a source whose value becomes a local.
#[cycle(lower)]
fn lower_kept(
    maker: &mut Maker,
    made: &Made,
    local: u32,
    then: &Piece,
    place: &Place<'_>,
) -> Result<Arc<WordPiece>, Stop>
    ensures lowers { IfOk result (λ a. (x : Source) (s b : ℕ) → place.now.before ≡ b + s
        → Makes place.now.of.now place.now.locals.now x made.now
        → Lowers place.now.of.now place.now.locals.now (word_routine (arc_value a))
        (keep_routine s x local (routine_of then.now)) b) }
{
    let kind = made.kind;
    if let Some(input) = input_of(&made.source) {
        let locals = with_local(maker.alloc, place.locals, local, Known { kind, input })?;
        let inner = Place {
            locals: &locals,
            ..*place
        };
        return lower_piece(maker, then, &inner);
    }
    let slot = slot_for(place.locals, local)?;
    let input = Input::Read(slot);
    let locals = with_local(maker.alloc, place.locals, local, Known { kind, input })?;
    let inner = Place {
        locals: &locals,
        ..*place
    };
    let then = lower_piece(maker, then, &inner)?;
    let piece = WordPiece::Let {
        source: made.source,
        slot,
        then,
        steps: place.before,
    };
    own(maker, piece)
}

// Lowers a choice by the truth of a source.
#[cycle(lower)]
fn lower_choice(
    maker: &mut Maker,
    made: &Made,
    branches: Branches<'_>,
    place: &Place<'_>,
) -> Result<Arc<WordPiece>, Stop>
    ensures lowers { IfOk result (λ a. (x : Source) (s b : ℕ) → place.now.before ≡ b + s
        → Makes place.now.of.now place.now.locals.now x made.now
        → Lowers place.now.of.now place.now.locals.now (word_routine (arc_value a))
        (pick_routine s x (routine_of branches.entry.target.now) (routine_of branches.entry.fallback.now)) b) }
{
    if !made.kind.is(Kind::Boolean) {
        return Err(Stop::Unfit);
    }
    if let WordSource::Constant(word) = made.source {
        if is_true(word) {
            return lower_piece(maker, branches.target, place);
        }
        return lower_piece(maker, branches.fallback, place);
    }
    let test = test_of(&made.source)?;
    let target = lower_piece(maker, branches.target, place)?;
    let fallback = lower_piece(maker, branches.fallback, place)?;
    choose(maker, test, target, fallback)
}

// Lowers a chain of tests.
#[cycle(lower)]
fn lower_switch(
    maker: &mut Maker,
    chain: Chain<'_>,
    place: &Place<'_>,
) -> Result<Arc<WordPiece>, Stop>
    ensures lowers { IfOk result (λ a. Lowers place.now.of.now place.now.locals.now
        (word_routine (arc_value a)) (chain_of chain.entry.place chain.entry.rows.now
        (routines chain.entry.targets.now) (routine_of chain.entry.otherwise.now))
        place.now.before) }
{
    let slot = key_slot(place, chain.place)?;
    let tests = lower_rows(maker, slot, chain, place)?;
    switch(maker, slot, tests)
}

// Lowers the targets of a chain of tests, the last first.
#[cycle(lower)]
fn lower_rows(
    maker: &mut Maker,
    slot: Slot,
    chain: Chain<'_>,
    place: &Place<'_>,
) -> Result<Tests, Stop>
    requires slot { IsKeySlot place.now.of.now place.now.locals.now chain.place slot }
    ensures lowers { IfOk result (λ t. Lowers place.now.of.now place.now.locals.now
        (tests_of slot (word_routine (arc_value t.otherwise)) t.keyed.items)
        (chain_of chain.entry.place chain.entry.rows.now
        (routines chain.entry.targets.now) (routine_of chain.entry.otherwise.now))
        place.now.before) }
{
    let target = first_target(chain.targets, chain.otherwise);
    let Some((row, rows)) = chain.rows.split_first() else {
        let otherwise = lower_piece(maker, target, place)?;
        let keyed = Vec::new(maker.alloc);
        return Ok(Tests { keyed, otherwise });
    };
    let inner = place.after(row.steps)?;
    let target = lower_piece(maker, target, &inner)?;
    let rest = Chain {
        rows,
        targets: without_first(chain.targets),
        ..chain
    };
    let Tests {
        mut keyed,
        otherwise,
    } = lower_rows(maker, slot, rest, &inner)?;
    let key = i64::from(row.key);
    keyed
        .push(Keyed { key, target })
        .map_err(|_| Stop::NoMemory)?;
    Ok(Tests { keyed, otherwise })
}

// Lowers a choice by a point.
#[cycle(lower)]
fn lower_point(
    maker: &mut Maker,
    point: u32,
    branches: Branches<'_>,
    place: &Place<'_>,
) -> Result<Arc<WordPiece>, Stop>
    ensures lowers { IfOk result (λ a. (s b : ℕ) → place.now.before ≡ b + s
        → Lowers place.now.of.now place.now.locals.now (word_routine (arc_value a))
        (point_routine s point (routine_of branches.entry.target.now)
        (routine_of branches.entry.fallback.now)) b) }
{
    let target = lower_piece(maker, branches.target, place)?;
    let fallback = lower_piece(maker, branches.fallback, place)?;
    let piece = WordPiece::Point {
        point,
        target,
        fallback,
    };
    own(maker, piece)
}

// Returns a slot that is neither an argument's nor that of a local with a lower number.
fn slot_for(locals: &[Known], local: u32) -> Result<Slot, Stop>
    ensures free { IfOk result (λ s. AllBelow s.place (take local locals.now)) }
    ensures behind { IfOk result (λ s. argument_slots ≤ s.place) }
{
    let local = local as usize;
    if local > locals.len() {
        return Err(Stop::Unfit);
    }
    let free = first_free(&locals[..local]);
    if free as usize >= FRAME_LENGTH {
        return Err(Stop::Unfit);
    }
    Ok(Slot::new(free))
}

// Returns the first target of a chain, or the piece after all tests if there is none.
fn first_target<'a>(targets: &'a [Arc<Piece>], otherwise: &'a Piece) -> &'a Piece
    ensures value { routine_of result.now ≡ get_or (routines targets.now) 0
        (routine_of otherwise.now) }
{
    match targets.first() {
        Some(target) => target,
        None => otherwise,
    }
}

// Returns the targets without the first.
fn without_first(targets: &[Arc<Piece>]) -> &[Arc<Piece>]
    ensures value { routines result.now ≡ drop 1 (routines targets.now) }
{
    match targets.split_first() {
        Some((_, rest)) => rest,
        None => targets,
    }
}
