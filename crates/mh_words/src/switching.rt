//! Makes chains of tests of one slot: tables, halves and single tests.

ghost use Rattle.std.specs.Prelude.{◌≡◌, ◌+ℤ◌, pos, IsTrue, IfOk, IfSome};
ghost use Rattle.std.specs.Arc.{arc_value};
ghost use Rattle.mh_words.specs.RoutineOf.{constants, word_routine, word_routines};
ghost use Rattle.mh_words.specs.inner.Switches.{AllWithin, Same, keys_below, keys_from, target_of, tests as tests_of};

use crate::constant::Constant;
use crate::keyed::{Keyed, Tests};
use crate::maker::{Maker, choose, own, share};
use crate::piece::WordPiece;
use crate::slot::Slot;
use crate::stop::Stop;
use crate::tables::place_in;
use crate::word_source::WordSource;
use crate::word_test::WordTest;
use std::alloc::Global;
use std::sync::Arc;

// The fewest tests that become a table.
const FEWEST: usize = 3;

// The greatest number of entries of a table.
const WIDEST: usize = 256;

// The greatest number of tests that are made one after another.
const MOST_IN_TURN: usize = 4;

// The greatest number of halvings.
const MOST_HALVINGS: u32 = 8;

// Makes the piece of tests: a table if their keys lie close together, a piece for each test if they
// are few, and otherwise two halves, split by whether the word is less than a middle key.
pub(crate) fn switch(maker: &mut Maker, slot: Slot, tests: Tests) -> Result<Arc<WordPiece>, Stop>
    ensures same { IfOk result (λ a. Same (word_routine (arc_value a)) (tests_of slot
        (word_routine (arc_value tests.otherwise)) tests.keyed.items)) }
{
    halve(maker, slot, tests, MOST_HALVINGS)
}

// Does what `switch` does, with at most `halvings` halvings.
#[tactic(auto, using(crate::proofs::Entries::same_is))]
fn halve(maker: &mut Maker, slot: Slot, tests: Tests, halvings: u32) -> Result<Arc<WordPiece>, Stop>
    ensures same { IfOk result (λ a. Same (word_routine (arc_value a)) (tests_of slot
        (word_routine (arc_value tests.otherwise)) tests.keyed.items)) }
{
    if let Some((least, count)) = close_keys(&tests.keyed) {
        return table(maker, slot, &tests, least, count);
    }
    if halvings == 0 || tests.keyed.len() <= MOST_IN_TURN {
        return chain(maker, slot, tests);
    }
    let pivot = middle_of(&tests.keyed);
    let (below, above) = parted(maker.alloc, tests, pivot)?;
    let target = halve(maker, slot, below, halvings - 1)?;
    let fallback = halve(maker, slot, above, halvings - 1)?;
    choose(maker, WordTest::Below(slot, pivot), target, fallback)
}

// Returns the least key and the number of keys that a table covers from it on, if the keys lie
// close together.
fn close_keys(keyed: &[Keyed]) -> Option<(i64, usize)>
    ensures within { IfSome result (λ s. AllWithin s.0 s.1 keyed.now) }
{
    if keyed.len() < FEWEST {
        return None;
    }
    let (least, count) = span_of(keyed)?;
    if count > WIDEST || !are_within(keyed, least, count) {
        return None;
    }
    Some((least, count))
}

// Splits tests by whether their keys are less than the pivot.
fn parted(alloc: Global, tests: Tests, pivot: i64) -> Result<(Tests, Tests), Stop>
    ensures below { IfOk result (λ r. r.0.keyed.items ≡ keys_below pivot tests.keyed.items) }
    ensures above { IfOk result (λ r. r.1.keyed.items ≡ keys_from pivot tests.keyed.items) }
    ensures otherwise { IfOk result (λ r. (arc_value r.0.otherwise ≡ arc_value tests.otherwise)
        × (arc_value r.1.otherwise ≡ arc_value tests.otherwise)) }
{
    let Tests { keyed, otherwise } = tests;
    let mut below = Vec::new(alloc);
    let mut above = Vec::new(alloc);
    for one in keyed {
        if one.key < pivot {
            below.push(one).map_err(|_| Stop::NoMemory)?;
        } else {
            above.push(one).map_err(|_| Stop::NoMemory)?;
        }
    }
    let other = share(&otherwise)?;
    let below = Tests {
        keyed: below,
        otherwise,
    };
    let above = Tests {
        keyed: above,
        otherwise: other,
    };
    Ok((below, above))
}

// Returns a key that about half of the keys are less than.
fn middle_of(keyed: &[Keyed]) -> i64 {
    let mut middle = 0;
    let mut nearest = usize::MAX;
    for one in keyed {
        let below = keyed.iter().filter(|other| other.key < one.key).count();
        let off = below.abs_diff(keyed.len() / 2);
        if off < nearest {
            nearest = off;
            middle = one.key;
        }
    }
    middle
}

// Makes a piece for each test.
#[tactic(auto, using(crate::proofs::Entries::tests_pushed))]
fn chain(maker: &mut Maker, slot: Slot, tests: Tests) -> Result<Arc<WordPiece>, Stop>
    ensures value { IfOk result (λ a. word_routine (arc_value a) ≡ tests_of slot
        (word_routine (arc_value tests.otherwise)) tests.keyed.items) }
{
    let Tests { keyed, otherwise } = tests;
    let mut piece = otherwise;
    for Keyed { key, target } in keyed {
        piece = choose(maker, WordTest::Is(slot, key), target, piece)?;
    }
    Ok(piece)
}

// Makes a table of `count` keys from `least` on.
fn table(
    maker: &mut Maker,
    slot: Slot,
    tests: &Tests,
    least: i64,
    count: usize,
) -> Result<Arc<WordPiece>, Stop>
    requires within { AllWithin least count tests.now.keyed.items }
    ensures same { IfOk result (λ a. Same (word_routine (arc_value a)) (tests_of slot
        (word_routine (arc_value tests.now.otherwise)) tests.now.keyed.items)) }
{
    let mut targets = Vec::new(maker.alloc);
    for place in 0..count {
        let Some(key) = key_at(least, place) else {
            return Err(Stop::Unfit);
        };
        let target = target(key, &tests.keyed, &tests.otherwise);
        targets.push(share(target)?).map_err(|_| Stop::NoMemory)?;
    }
    let otherwise = share(&tests.otherwise)?;
    if let Some(answers) = constants_of(maker.alloc, &targets)? {
        let piece = WordPiece::Answers {
            slot,
            least,
            answers,
            otherwise,
        };
        return own(maker, piece);
    }
    let piece = WordPiece::Table {
        slot,
        least,
        targets,
        otherwise,
    };
    own(maker, piece)
}

// Returns the constants with which pieces answer, if each answers with one.
fn constants_of(alloc: Global, targets: &[Arc<WordPiece>]) -> Result<Option<Vec<Constant>>, Stop>
    ensures value { IfOk result (λ o. IfSome o (λ v. constants v.items
        ≡ word_routines targets.now)) }
{
    let mut answers = Vec::new(alloc);
    for target in targets {
        let WordPiece::Answer { source, steps } = &**target else {
            return Ok(None);
        };
        let WordSource::Constant(word) = source else {
            return Ok(None);
        };
        let answer = Constant {
            word: *word,
            steps: *steps,
        };
        answers.push(answer).map_err(|_| Stop::NoMemory)?;
    }
    Ok(Some(answers))
}

// Returns the key at a place of a table.
fn key_at(least: i64, place: usize) -> Option<i64>
    ensures value { IfSome result (λ k. k ≡ least +ℤ pos place) }
{
    least.checked_add(i64::try_from(place).ok()?)
}

// Returns the piece that follows if the slot has this word.
fn target<'a>(word: i64, keyed: &'a [Keyed], otherwise: &'a Arc<WordPiece>) -> &'a Arc<WordPiece>
    ensures value { word_routine (arc_value result.now) ≡ target_of word
        (word_routine (arc_value otherwise.now)) keyed.now }
{
    let Some((first, rest)) = keyed.split_first() else {
        return otherwise;
    };
    if first.key == word {
        return target(word, rest, &first.target);
    }
    target(word, rest, otherwise)
}

// Returns whether each key is one of the `count` keys from `least` on.
fn are_within(keyed: &[Keyed], least: i64, count: usize) -> bool
    ensures within { IsTrue result → AllWithin least count keyed.now }
{
    let Some((first, rest)) = keyed.split_first() else {
        return true;
    };
    if place_in(first.key, least, count).is_none() {
        return false;
    }
    are_within(rest, least, count)
}

// Returns the least key, and the number of keys from it up to the greatest.
fn span_of(keyed: &[Keyed]) -> Option<(i64, usize)> {
    let mut least = i64::MAX;
    let mut most = i64::MIN;
    for one in keyed {
        least = least.min(one.key);
        most = most.max(one.key);
    }
    let count = usize::try_from(most.checked_sub(least)?).ok()?;
    Some((least, count.checked_add(1)?))
}
