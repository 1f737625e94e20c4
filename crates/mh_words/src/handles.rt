//! Code over words of prepared handles.

ghost use Rattle.std.specs.Prelude.{IfOk, IfSome};
ghost use Rattle.mh_words.specs.Means.{Means};

use crate::lowering::lower_piece;
use crate::maker::Maker;
use crate::place::Place;
use crate::slot::ARGUMENT_SLOTS;
use crate::stop::Stop;
use crate::word_code::WordCode;
use mh_base::NoMemory;
use mh_code::Prepared;
use std::alloc::Global;

// The greatest number of pieces of code over words.
const MOST_PIECES: u32 = 4096;

// The greatest number of pieces that follow one another.
const DEEPEST: u32 = 200;

/// Lowers the code of a prepared handle to code over words. Returns `None` if the code reads a text,
/// invokes a site, or would take more than 4,096 pieces, 200 on one way or 48 slots of locals.
/// Fails only with `NoMemory`.
pub fn lower(alloc: Global, handle: &Prepared) -> Result<Option<WordCode>, NoMemory>
    ensures means { IfOk result (λ o. IfSome o (λ w. Means w handle.now)) }
{
    let method_type = handle.handle().method_type();
    if method_type.count() > ARGUMENT_SLOTS {
        return Ok(None);
    }
    let place = Place {
        of: method_type,
        locals: &[],
        before: 0,
        depth: DEEPEST,
    };
    let mut maker = Maker {
        alloc,
        left: MOST_PIECES,
    };
    match lower_piece(&mut maker, handle.code().entry(), &place) {
        Ok(entry) => Ok(Some(WordCode::new(method_type.ret(), entry))),
        Err(Stop::NoMemory) => Err(NoMemory),
        Err(Stop::Unfit) => Ok(None),
    }
}
