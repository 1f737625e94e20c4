//! The known word that was most likely meant by an unknown one.
ghost use Rattle.std.specs.Prelude.{All, IfNone, IfOk, IfSome, map};
ghost use Rattle.mh_explain.specs.Near.{IsNear, IsNearest};

use mh_base::NoMemory;
use std::alloc::Global;
use strsim::levenshtein;

/// The greatest number of edits between a word and the one that was meant.
const MOST_EDITS: usize = 2;

/// Returns the nearest of the words within two edits, the first if several are equally near. For a
/// word of two letters, only words within one edit count, and for a word of one letter no other
/// word does, since most short words are near to such words.
///
/// Fails only if memory runs out.
pub fn nearest<'a>(
    alloc: Global,
    word: &str,
    known: &[&'a str],
) -> Result<Option<&'a str>, NoMemory>
    ensures nearest { IfOk result (λ found. IfSome found
        (λ name. IsNearest word.now (map (λ n. n.now) known.now) name.now)) }
    ensures none { IfOk result (λ found. IfNone found
        (All (λ n. IsNear word.now n.now → ⊥) known.now)) }
{
    let mut found: Option<&'a str> = None;
    let mut least = MOST_EDITS + 1;
    for name in known {
        let edits = levenshtein(alloc, word, *name)?;
        if edits < least && edits < word.len() {
            least = edits;
            found = Some(*name);
        }
    }
    Ok(found)
}
