//! Shared texts.

ghost use Rattle.std.specs.Prelude.{◌≡◌, ◌≤◌, ◌+◌, ◌++◌, ◌↔◌, length, true, IsTrue, IfOk, IfErr, OnOk};
ghost use Rattle.mh_type.specs.Printable.{IsText, RefusesText, RefusesConcat, is_text as is_text_bytes};
ghost use Rattle.mh_type.specs.Characters.{bytes_of};
ghost use Rattle.mh_type.specs.Limits.{longest_text};

use crate::fault::TypeFault;
use arrayvec::ArrayString;
use std::alloc::{AllocError, Global};
use std::fmt;
use std::marker::Model;
use std::sync::Arc;

/// The greatest number of bytes of a text.
pub const LONGEST_TEXT: usize = 65536;

/// The greatest number of bytes of a text that takes a single block of memory.
const LONGEST_INLINE: usize = 32;

/// A text that its owners share: at most 65,536 bytes of printable ASCII. Up to 32 bytes are stored
/// next to the reference count.
#[derive(Drop)]
pub struct Text {
    shared: Arc<Characters>,
}

// The characters of a text.
#[derive(Drop)]
enum Characters {
    // Up to 32 bytes, stored next to the reference count.
    Inline(ArrayString<LONGEST_INLINE>),
    // More bytes, in a block of their own.
    Apart(String),
}

impl Model for Text {
    ghost use Rattle.std.specs.Prelude.{List, ℕ};
    ghost use Rattle.std.specs.Arc.{arc_value};
    ghost use Rattle.mh_type.specs.Characters.{bytes_of};
    ghost use Rattle.mh_type.specs.Printable.{IsText};

    ghost Value = { List ℕ };

    ghost view = { λ t. bytes_of (arc_value t.shared) };

    ghost invariant = { λ t. IsText (bytes_of (arc_value t.shared)) };
}

impl Text {
    /// Returns the text of these bytes.
    ///
    /// Fails with `BadText` if and only if there are more than 65,536 bytes or one is not in 0x20
    /// to 0x7E, and with `NoMemory` if an allocation is refused.
    #[tactic(auto, using(crate::proofs::Texts::is_text_from, crate::proofs::Texts::is_text_not, crate::proofs::Texts::then_nothing))]
    pub fn new(alloc: Global, text: &str) -> Result<Text, TypeFault>
        ensures value { IfOk result (λ t. (t ≡ text.now) × (is_text_bytes text.now ≡ true)) }
        ensures refused { IfErr result (λ e. RefusesText text.now e) }
    {
        if !is_text(text) {
            return Err(TypeFault::BadText);
        }
        let characters = joined(alloc, text, "").map_err(|_| TypeFault::NoMemory)?;
        let shared = Arc::new(alloc, characters).map_err(|_| TypeFault::NoMemory)?;
        Ok(Text { shared })
    }

    /// Returns the concatenation of two texts. It writes each byte once, into memory of exactly the
    /// size needed.
    ///
    /// Fails with `BadText` if and only if they have more than 65,536 bytes together, and otherwise
    /// only with `NoMemory`, if an allocation is refused.
    #[tactic(auto, using(crate::proofs::Texts::concat_is_text))]
    pub fn concat(alloc: Global, some: &Text, more: &Text) -> Result<Text, TypeFault>
        ensures value { IfOk result (λ t. t ≡ some.now ++ more.now) }
        ensures short { OnOk result (length some.now + length more.now ≤ longest_text) }
        ensures refused { IfErr result (λ e. RefusesConcat some.now more.now e) }
    {
        let (some, more) = (some.as_str(), more.as_str());
        if some.len() + more.len() > LONGEST_TEXT {
            return Err(TypeFault::BadText);
        }
        let characters = joined(alloc, some, more).map_err(|_| TypeFault::NoMemory)?;
        let shared = Arc::new(alloc, characters).map_err(|_| TypeFault::NoMemory)?;
        Ok(Text { shared })
    }

    /// Returns another owner of the text. Fails only with `NoMemory`.
    pub fn share(&self) -> Result<Text, TypeFault>
        ensures value { IfOk result (λ t. t ≡ self.now) }
        ensures refused { IfErr result (λ e. e ≡ TypeFault.NoMemory) }
    {
        let shared = Arc::try_clone(&self.shared).map_err(|_| TypeFault::NoMemory)?;
        Ok(Text { shared })
    }

    /// Returns the bytes.
    pub fn as_str(&self) -> &str
        ensures value { result.now ≡ self.now }
        ensures is_text { IsText self.now }
    {
        self.shared.as_str()
    }
}

impl Characters {
    // Returns the bytes.
    fn as_str(&self) -> &str
        ensures value { result.now ≡ bytes_of self.now }
    {
        match self {
            Characters::Inline(text) => text.as_str(),
            Characters::Apart(text) => text.as_str(),
        }
    }
}

// Returns the concatenation of two texts, with each byte written once.
fn joined(alloc: Global, some: &str, more: &str) -> Result<Characters, AllocError>
    requires short { length some.now + length more.now ≤ longest_text }
    ensures value { IfOk result (λ c. bytes_of c ≡ some.now ++ more.now) }
{
    let length = some.len() + more.len();
    if length <= LONGEST_INLINE {
        let mut text = ArrayString::new();
        text.push_str(some);
        text.push_str(more);
        return Ok(Characters::Inline(text));
    }
    let mut text = String::with_capacity(alloc, length)?;
    text.push_str(some)?;
    text.push_str(more)?;
    Ok(Characters::Apart(text))
}

impl PartialEq for Text {
    ghost use Rattle.std.specs.Str.{bytes_eq};
    ghost use Rattle.std.proofs.Common.{rules};
    ghost use Rattle.std.specs.Cmp.Rules.{comparing};

    ghost eq = { bytes_eq };

    ghost laws = { Prim.search (comparing, rules) };

    fn eq(&self, other: &Text) -> bool {
        self.as_str() == other.as_str()
    }
}

impl Eq for Text {
    ghost use Rattle.std.proofs.Common.{rules};
    ghost use Rattle.std.specs.Cmp.Rules.{comparing};

    ghost laws = { Prim.search (comparing, rules) };
}

impl fmt::Debug for Text {
    fn fmt<W: fmt::Write>(&self, f: &mut fmt::Formatter<W>) -> fmt::Result {
        fmt::Debug::fmt(self.as_str(), f)
    }
}

// Returns whether these bytes make a text.
fn is_text(text: &str) -> bool
    ensures decides { IsTrue result ↔ IsText text.now }
{
    text.len() <= LONGEST_TEXT && text.bytes().all(|byte| (0x20..=0x7E).contains(&byte))
}
