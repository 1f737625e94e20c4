//! Names of points and sites.

ghost use Rattle.std.specs.Prelude.{◌≡◌, IfOk};
ghost use Rattle.std.specs.List.{list_all};
ghost use Rattle.mh_site.specs.Names.{is_name as is_lawful, begins_name as may_begin, continues_name as may_continue};

use std::alloc::{AllocError, Global};
use std::marker::Model;

/// The greatest number of bytes of a lawful name.
pub const LONGEST_NAME: usize = 64;

/// A text that owns its bytes. `Definition::new` tests whether it is a lawful name.
#[derive(Debug, Drop)]
pub struct Name {
    text: String,
}

impl Model for Name {
    ghost use Rattle.std.specs.Prelude.{List, ℕ, string_bytes};

    ghost Value = { List ℕ };

    ghost view = { λ a. string_bytes a.text };
}

impl Name {
    /// Returns a copy of the text.
    pub fn new(alloc: Global, text: &str) -> Result<Name, AllocError>
        ensures value { IfOk result (λ name. name ≡ text.now) }
    {
        Ok(Name {
            text: String::from_str(alloc, text)?,
        })
    }

    /// Returns the bytes.
    pub fn as_str(&self) -> &str
        ensures value { result.now ≡ self.now }
    {
        self.text.as_str()
    }

    /// Returns whether this is a lawful name: 1 to 64 bytes, of which the first is a letter or `_`,
    /// and the others are letters, digits, `_`, `.` and `-`, all ASCII.
    pub fn is_lawful(&self) -> bool
        ensures value { result ≡ is_lawful self.now }
    {
        is_name(self.as_str().as_bytes())
    }
}

// Returns whether bytes make a lawful name.
fn is_name(name: &[u8]) -> bool
    ensures value { result ≡ is_lawful name.now }
{
    let [first, rest @ ..] = name else {
        return false;
    };
    rest.len() < LONGEST_NAME && begins_name(*first) && all_continue(rest)
}

// Returns whether each byte is allowed in a name after the first byte.
fn all_continue(bytes: &[u8]) -> bool
    ensures value { result ≡ list_all may_continue bytes.now }
{
    bytes.iter().all(|byte| continues_name(*byte))
}

fn begins_name(byte: u8) -> bool
    ensures value { result ≡ may_begin byte }
{
    matches!(byte, b'A'..=b'Z' | b'a'..=b'z' | b'_')
}

fn continues_name(byte: u8) -> bool
    ensures value { result ≡ may_continue byte }
{
    begins_name(byte) || matches!(byte, b'0'..=b'9' | b'.' | b'-')
}
