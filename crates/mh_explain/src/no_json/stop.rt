//! The reason why a text is not valid JSON, given the bytes before and after the place where
//! reading it stopped.
use crate::no_json::levels::Level;

/// The reason why `//` and `#` are not valid.
pub(crate) const COMMENTS: &str = "JSON has no comments";

const QUOTES: &str = "write strings in double quotes";

const KEY: &str = "write keys in double quotes";

const NO_KEY: &str = "a key is missing before this";

const NO_VALUE: &str = "a value is missing before this";

const NO_COLON: &str = "a colon and a value are missing before this";

const COMMA_BEFORE: &str = "remove the comma before this";

const COMMA_HERE: &str = "remove this comma";

const SEMICOLON: &str = "separate the parts of a list or an object with commas, not with ;";

const NOT_FINITE: &str = "JSON has no NaN and no infinity";

const TOO_LARGE: &str = "the number before this is too large";

const NOTHING: &str = "JSON does not allow this here";

/// A place where a text, which is not a JSON value up to there, cannot continue as it does.
#[derive(Clone, Copy)]
pub(crate) struct Stop<'a> {
    pub(crate) before: &'a [u8],
    pub(crate) rest: &'a [u8],
    /// The innermost list or object that is open there.
    pub(crate) level: Option<Level>,
}

impl Stop<'_> {
    /// Returns the reason why the text cannot continue as it does.
    pub(crate) fn reason(&self) -> &'static str {
        match self.rest {
            [b'/' | b'#', ..] => return COMMENTS,
            [b'\'' | b'`', ..] | [0xe2, 0x80, 0x98..=0x9f, ..] => return QUOTES,
            [0xc2, 0xa0, ..] => return "this is a no-break space; JSON has plain spaces only",
            _ => {}
        }
        let is_object = matches!(self.level, Some(Level { is_list: false, .. }));
        match last_of(self.before) {
            None => self.reason_at_start(),
            Some(last @ (b'{' | b',')) if is_object => self.reason_at_key(last),
            Some(last @ (b'[' | b',' | b':')) => self.reason_at_value(last),
            Some(last) => self.reason_behind(last),
        }
    }

    /// Returns the reason why a text cannot begin as it does.
    fn reason_at_start(&self) -> &'static str {
        match self.rest {
            [b'"', ..] => reason_in_string(self.rest),
            _ => "expected a JSON object, which begins with {",
        }
    }

    /// Returns the reason why a key cannot begin as it does, after a bracket or a comma.
    fn reason_at_key(&self, last: u8) -> &'static str {
        match self.rest {
            [b',', ..] => COMMA_HERE,
            [b':', ..] => NO_KEY,
            [b'}', ..] if last == b',' => COMMA_BEFORE,
            [b']' | b'}', ..] => self.reason_crossed(),
            [b'"', ..] => reason_in_string(self.rest),
            _ => KEY,
        }
    }

    /// Returns the reason why a value cannot begin as it does, after a bracket, a comma or a colon.
    fn reason_at_value(&self, last: u8) -> &'static str {
        match self.rest {
            [b',' | b']' | b'}', ..] if last == b':' => NO_VALUE,
            [b',', ..] => COMMA_HERE,
            [b':', ..] if last == b':' => "remove this colon",
            [b':', ..] => NO_KEY,
            [b']', ..] if last == b',' => COMMA_BEFORE,
            [b']' | b'}', ..] => self.reason_crossed(),
            [b'(', ..] => "write lists in []",
            _ => reason_in_value(self.rest),
        }
    }

    /// Returns the reason why the text cannot continue as it does after a value or a key.
    fn reason_behind(&self, last: u8) -> &'static str {
        let Some(level) = self.level else {
            return NOTHING;
        };
        match self.rest {
            [b'}', ..] if level.is_list => self.reason_crossed(),
            [b']', ..] if !level.is_list => self.reason_crossed(),
            [b':', ..] if level.is_list => "a list has no keys; write objects in {}",
            [b';', ..] => SEMICOLON,
            [byte, ..] if level.is_list || level.has_colon => self.reason_behind_value(last, *byte),
            [_, ..] if last != b'"' => KEY,
            [b'=', ..] => "separate a key from its value with a colon, not with =",
            [byte, ..] if begins(*byte) => "a colon is missing before this",
            _ => NO_COLON,
        }
    }

    /// Returns the reason why a byte is not allowed after a value.
    fn reason_behind_value(&self, last: u8, byte: u8) -> &'static str {
        if has_exponent(self.before) && !begins(byte) {
            return TOO_LARGE;
        }
        if self.before.ends_with(b"\"") && byte.is_ascii_alphanumeric() {
            return "a string ends before this; is a \" missing, or the \\ before a \" inside of one?";
        }
        match byte {
            b':' => "remove this colon",
            _ if begins(byte) && ends_a_value(last) => "a comma is missing before this",
            _ => NOTHING,
        }
    }

    /// Returns the reason why a bracket of the other kind closes nothing.
    fn reason_crossed(&self) -> &'static str {
        match self.level {
            Some(Level { is_list: true, .. }) => "a list is open here, which ends with ]",
            Some(Level { is_list: false, .. }) => "an object is open here, which ends with }",
            None => NOTHING,
        }
    }
}

/// Returns whether JSON allows a byte as white space between its tokens.
pub(crate) fn is_white(byte: u8) -> bool {
    byte == b' ' || byte == b'\t' || byte == b'\n' || byte == b'\r'
}

/// Returns the last byte that is not white space.
fn last_of(before: &[u8]) -> Option<u8> {
    let mut last = None;
    for byte in before {
        if !is_white(*byte) {
            last = Some(*byte);
        }
    }
    last
}

/// Returns whether a value or a key may begin with a byte, or was meant to.
fn begins(byte: u8) -> bool {
    let is_word = byte.is_ascii_alphanumeric() || byte == b'-' || byte == b'_';
    is_word || byte == b'"' || byte == b'[' || byte == b'{'
}

/// Returns whether a JSON value may end with a byte.
fn ends_a_value(byte: u8) -> bool {
    byte.is_ascii_alphanumeric() || byte == b'"' || byte == b']' || byte == b'}'
}

/// Returns whether a text ends with a number that has an exponent.
fn has_exponent(before: &[u8]) -> bool {
    for byte in before.iter().rev() {
        match *byte {
            b'e' | b'E' => return true,
            b'0'..=b'9' | b'+' | b'-' | b'.' => {}
            _ => return false,
        }
    }
    false
}

/// Returns the reason why a value cannot be written as it is.
fn reason_in_value(rest: &[u8]) -> &'static str {
    if rest.starts_with(b"NaN") || rest.starts_with(b"Inf") || rest.starts_with(b"-Inf") {
        return NOT_FINITE;
    }
    match rest {
        [b'"', ..] => reason_in_string(rest),
        [b'N' | b'T' | b'F', ..] => "write null, true and false in lower case",
        [b'0'..=b'9' | b'-' | b'+' | b'.', ..] => reason_in_number(rest),
        [byte, ..] if byte.is_ascii_alphabetic() || *byte == b'_' => {
            "JSON has the words null, true and false only; write strings in double quotes"
        }
        _ => "no JSON value begins like this",
    }
}

/// Returns the reason why a number cannot be written as it is.
fn reason_in_number(rest: &[u8]) -> &'static str {
    if let [b'0', b'0'..=b'9', ..] | [b'-', b'0', b'0'..=b'9', ..] = rest {
        return "a JSON number does not begin with 0";
    }
    match behind_number(rest) {
        Some(b';') => SEMICOLON,
        Some(byte) if byte.is_ascii_alphabetic() || byte == b'_' => {
            "a JSON number has decimal digits only, no letters"
        }
        _ if is_whole(rest) => TOO_LARGE,
        _ => "a JSON number has digits before and after its dot, and no + before them",
    }
}

/// Returns whether a text begins with a whole number, which is a JSON value: then reading stopped
/// because of the number before it.
fn is_whole(rest: &[u8]) -> bool {
    for byte in rest {
        match *byte {
            b'0'..=b'9' => {}
            b'.' | b'-' | b'+' | b'e' | b'E' => return false,
            _ => return true,
        }
    }
    false
}

/// Returns the first byte that is not part of a number.
fn behind_number(rest: &[u8]) -> Option<u8> {
    for byte in rest {
        match *byte {
            b'0'..=b'9' | b'+' | b'-' | b'.' | b'e' | b'E' => {}
            other => return Some(other),
        }
    }
    None
}

/// Returns the reason why a string cannot be written as it is.
fn reason_in_string(rest: &[u8]) -> &'static str {
    for byte in rest {
        match *byte {
            0..=0x1f => return "a string has no line breaks or tabs; write \\n and \\t",
            b'\\' => return "an escape in this string is not valid JSON",
            _ => {}
        }
    }
    "this string is not valid JSON"
}
