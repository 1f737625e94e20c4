//! The lists and objects that a text leaves open.
use mh_base::NoMemory;
use std::alloc::Global;

/// A list or an object that is open at a place of a text.
#[derive(Clone, Copy)]
pub(crate) struct Level {
    pub(crate) is_list: bool,
    /// True if there is a colon after its last comma.
    pub(crate) has_colon: bool,
}

/// The lists, objects and strings that a text leaves open, up to the first bracket, colon or comma
/// that is not allowed where it is.
#[derive(Drop)]
pub(crate) struct Levels {
    /// The open lists and objects, from the outermost to the innermost.
    levels: Vec<Level>,
    pub(crate) is_in_string: bool,
    is_escaped: bool,
}

impl Levels {
    /// Returns what a text leaves open, and how many of its bytes were read.
    pub(crate) fn by(alloc: Global, text: &[u8]) -> Result<(Levels, usize), NoMemory> {
        let mut levels = Levels {
            levels: Vec::new(alloc),
            is_in_string: false,
            is_escaped: false,
        };
        for (i, byte) in text.iter().enumerate() {
            if !levels.is_in_string && !levels.has_place_for(*byte) {
                return Ok((levels, i));
            }
            levels.go_on(*byte)?;
        }
        Ok((levels, text.len()))
    }

    /// Returns how many lists and objects are open.
    pub(crate) fn depth(&self) -> usize {
        self.levels.len()
    }

    /// Returns the innermost list or object that is open.
    pub(crate) fn innermost(&self) -> Option<Level> {
        self.levels.as_slice().last().copied()
    }

    /// Returns whether a byte, if it is a bracket, a colon or a comma, is allowed here.
    fn has_place_for(&self, byte: u8) -> bool {
        let Some(level) = self.innermost() else {
            return byte != b']' && byte != b'}';
        };
        match byte {
            b'[' | b'{' | b',' => level.is_list || level.has_colon,
            b']' => level.is_list,
            b'}' => !level.is_list,
            b':' => !level.is_list && !level.has_colon,
            _ => true,
        }
    }

    /// Reads one more byte.
    fn go_on(&mut self, byte: u8) -> Result<(), NoMemory> {
        if self.is_in_string {
            self.is_in_string = byte != b'"' || self.is_escaped;
            self.is_escaped = byte == b'\\' && !self.is_escaped;
            return Ok(());
        }
        match byte {
            b'"' => self.is_in_string = true,
            b'[' | b'{' => self.levels.push(Level {
                is_list: byte == b'[',
                has_colon: false,
            })?,
            b']' | b'}' => {
                self.levels.pop();
            }
            b':' | b',' => self.set_colon(byte == b':'),
            _ => {}
        }
        Ok(())
    }

    /// Reads a colon or a comma.
    fn set_colon(&mut self, has_colon: bool) {
        if let Some(level) = self.levels.last_mut() {
            level.has_colon = has_colon;
        }
    }
}
