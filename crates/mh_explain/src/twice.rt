//! Keys that occur twice in an object, of which the JSON crate keeps one.
use crate::words::printable;
use mh_base::NoMemory;
use std::alloc::Global;

/// The greatest number of notes.
const MOST_NOTES: usize = 10;

/// The greatest number of keys of an object that are compared with later ones. An object that is
/// read has fewer.
const MOST_KEYS: usize = 32;

/// A walk over a JSON text, up to some byte.
#[derive(Drop)]
struct Walk<'a> {
    text: &'a [u8],
    /// The keys of each object that is open, and none for a list.
    open: Vec<Vec<&'a [u8]>>,
    /// The last string that ended, without its quotes.
    last: &'a [u8],
    /// The index after the quote of the string that is open.
    string: Option<usize>,
    is_escaped: bool,
    notes: String,
    noted: usize,
}

impl<'a> Walk<'a> {
    /// Reads the byte at an index.
    fn go_on(&mut self, alloc: Global, at: usize, byte: u8) -> Result<(), NoMemory> {
        if let Some(start) = self.string {
            self.go_on_in_string(start, at, byte);
            return Ok(());
        }
        match byte {
            b'"' => self.string = at.checked_add(1),
            b'{' | b'[' => self.open.push(Vec::new(alloc))?,
            b'}' | b']' => {
                self.open.pop();
            }
            b':' => self.add_key(alloc, at)?,
            _ => {}
        }
        Ok(())
    }

    /// Reads a byte of the string that began at `start`.
    fn go_on_in_string(&mut self, start: usize, at: usize, byte: u8) {
        if byte == b'"' && !self.is_escaped {
            self.last = self.text.get(start..at).unwrap_or(&[]);
            self.string = None;
        }
        self.is_escaped = byte == b'\\' && !self.is_escaped;
    }

    /// Adds the last string, which a colon follows, to the keys of the innermost object.
    fn add_key(&mut self, alloc: Global, at: usize) -> Result<(), NoMemory> {
        let key = self.last;
        let Some(keys) = self.open.last_mut() else {
            return Ok(());
        };
        if keys.as_slice().contains(&key) {
            return self.note(alloc, key, at);
        }
        if keys.len() < MOST_KEYS {
            keys.push(key)?;
        }
        Ok(())
    }

    /// Notes that a key, which ends before an index, occurs for the second time.
    fn note(&mut self, alloc: Global, key: &[u8], at: usize) -> Result<(), NoMemory> {
        if self.noted < MOST_NOTES {
            self.noted += 1;
            let shown = printable(alloc, key)?;
            let line = line_of(self.text, at);
            write!(
                self.notes,
                "note: the key \"{shown}\" occurs again in its object on line {line}; the last one counts\n"
            )?;
        }
        Ok(())
    }
}

/// Returns the number of the line of an index, from 1.
fn line_of(text: &[u8], at: usize) -> usize {
    let mut line: usize = 1;
    for byte in &text[..at.min(text.len())] {
        if *byte == b'\n' {
            line = line.saturating_add(1);
        }
    }
    line
}

/// Returns a note for each key of a JSON text that occurs twice in an object, at most 10.
///
/// Fails only if memory runs out.
pub fn keys_twice(alloc: Global, text: &[u8]) -> Result<String, NoMemory> {
    let mut walk = Walk {
        text,
        open: Vec::new(alloc),
        last: &[],
        string: None,
        is_escaped: false,
        notes: String::new(alloc),
        noted: 0,
    };
    for (at, byte) in text.iter().enumerate() {
        walk.go_on(alloc, at, *byte)?;
    }
    Ok(walk.notes)
}
