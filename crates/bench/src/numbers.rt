//! The numbers of a text.

ghost use Rattle.std.specs.Prelude.{◌≡◌, IfOk, length};

use anyhow::Context;
use std::alloc::Global;
use std::str::SplitWhitespace;

/// Decimal numbers separated by white space, read one after another.
#[derive(Drop)]
pub(crate) struct Numbers<'a> {
    words: SplitWhitespace<'a>,
}

impl<'a> Numbers<'a> {
    /// Returns the numbers of a text, from its start.
    pub(crate) fn of(text: &'a str) -> Numbers<'a> {
        Numbers {
            words: text.split_whitespace(),
        }
    }

    /// Reads the next number. Fails at the end of the text, and if the next word is not a number
    /// below 2^64.
    pub(crate) fn next(&mut self) -> anyhow::Result<u64> {
        let word = self.words.next().context("a number is missing")?;
        let number = word.parse::<u64>()?;
        Ok(number)
    }

    /// Reads the next numbers, this many.
    pub(crate) fn list(&mut self, alloc: Global, count: u64) -> anyhow::Result<Vec<u64>>
        ensures count { IfOk result (λ list. length list.items ≡ count) }
    {
        let mut list = Vec::new(alloc);
        for _ in 0..count {
            list.push(self.next()?)?;
        }
        Ok(list)
    }
}
