//! Finding the test of a chain that an int passes, by a guess or by binary search.

ghost use Rattle.std.specs.Prelude.{◌≡◌, ◌+◌, ◌<◌, ◌≤◌, ◌++◌, ◌∷◌, [], length, IfOk};
ghost use Rattle.mh_code.specs.inner.Entries.{AreEntries, AreRising, IsFound, guess_count};
ghost use Rattle.mh_code.specs.Rows.{row_of, steps_to, all_steps, most_rows};
ghost use Rattle.mh_type.specs.declared.value.Value.TheVariants.{Int};

use mh_base::NoMemory;
use std::alloc::Global;
use std::marker::Model;

/// A test of a chain.
#[derive(Clone, Copy, Debug)]
pub struct Row {
    /// The number that an int is compared with.
    pub key: i32,
    /// The steps that the test takes.
    pub steps: u32,
}

// A number, the first row that has it, and the steps of the rows up to that one.
#[derive(Clone, Copy)]
struct Entry {
    key: i32,
    row: usize,
    steps: u64,
}

// The number of guesses of an index: twice its greatest number of tests.
const GUESSES: usize = 128;

// 2^32 divided by the golden ratio, which spreads consecutive numbers as evenly as possible.
const GOLDEN: u32 = 2_654_435_769;

/// The tests of a chain, at most 64, in its order, and a way to find the first that an int passes:
/// by a guess, which is right for all consecutive numbers and for most others, and otherwise by as
/// many comparisons as the number of tests has binary digits.
#[derive(Drop)]
pub struct Index {
    rows: Vec<Row>,
    entries: Vec<Entry>,
    total: u64,
    // The index, among the entries, at which the numbers of a guess may be found. It is checked
    // when it is used.
    guesses: [u8; GUESSES],
}

impl Model for Index {
    ghost use Rattle.std.specs.Prelude.{◌≡◌, ◌≤◌, ◌*◌, List, length};
    ghost use Rattle.mh_code.specs.declared.index.Row.{Row as Kept};
    ghost use Rattle.mh_code.specs.inner.Entries.{AreEntries};
    ghost use Rattle.mh_code.specs.Rows.{all_steps};

    ghost Value = { List Kept };

    ghost view = { λ i. i.rows.items };

    ghost invariant = { λ i. AreEntries i.rows.items i.entries.items
        × (i.total ≡ all_steps i.rows.items)
        × (i.total ≤ length i.rows.items * 4294967295) };
}

impl Index {
    // Returns an index without tests.
    #[tactic(auto, using(crate::proofs::Entries::entries_empty))]
    pub(crate) fn new(alloc: Global) -> Index
        ensures value { result ≡ [] }
    {
        Index {
            rows: Vec::new(alloc),
            entries: Vec::new(alloc),
            total: 0,
            guesses: [0; GUESSES],
        }
    }

    // Returns the index with one more test at the end.
    pub(crate) fn with(self, row: Row) -> Result<Index, NoMemory>
        requires few { length self < most_rows }
        ensures value { IfOk result (λ i. i ≡ self ++ row ∷ []) }
    {
        let Index {
            mut rows,
            entries,
            total,
            guesses,
        } = self;
        let total = total + u64::from(row.steps);
        let entries = with_entry(entries, &rows, row, total)?;
        rows.push(row).map_err(|_| NoMemory)?;
        Ok(Index {
            rows,
            entries,
            total,
            guesses,
        })
    }

    // Returns the index with more tests at the end.
    pub(crate) fn with_all(self, rows: &[Row]) -> Result<Index, NoMemory>
        requires few { length self + length rows.now ≤ most_rows }
        ensures value { IfOk result (λ i. i ≡ self ++ rows.now) }
    {
        let mut index = self;
        for row in rows {
            index = index.with(*row)?;
        }
        Ok(index)
    }

    // Returns the index with guesses for its numbers. If several numbers share a guess, it is for
    // the greatest.
    pub(crate) fn guessing(self) -> Index
        ensures value { result ≡ self }
    {
        let mut guesses = [0; GUESSES];
        for (at, entry) in (0..=u8::MAX).zip(self.entries.iter()) {
            guesses[guess_of(entry.key)] = at;
        }
        Index { guesses, ..self }
    }

    /// Returns the tests, in the order of the chain.
    #[inline(always)]
    pub fn rows(&self) -> &[Row]
        ensures value { result.now ≡ self.now }
    {
        &self.rows
    }

    /// Returns the steps of all tests.
    #[inline(always)]
    pub fn steps(&self) -> u64
        ensures value { result ≡ all_steps self.now }
    {
        self.total
    }

    /// Returns the index of the first test that an int passes, and the steps of the tests up to and
    /// including it. If it passes none, returns the number of tests, and the steps of all.
    #[inline(never)]
    pub fn find(&self, number: i32) -> (usize, u64)
        ensures row { result.0 ≡ row_of (Int number) self.now }
        ensures steps { result.1 ≡ steps_to (Int number) self.now }
    {
        let guess = usize::from(self.guesses[guess_of(number)]);
        match locate(&self.entries, guess, number) {
            Ok(at) => {
                let entry = self.entries[at];
                (entry.row, entry.steps)
            }
            Err(_) => (self.rows.len(), self.total),
        }
    }
}

// Returns the entries of some rows and one more after them, given the steps of all of them.
fn with_entry(
    entries: Vec<Entry>,
    rows: &[Row],
    row: Row,
    steps: u64,
) -> Result<Vec<Entry>, NoMemory>
    requires entries { AreEntries rows.now entries.items }
    requires steps { steps ≡ all_steps rows.now + row.steps }
    ensures entries { IfOk result (λ v. AreEntries (rows.now ++ row ∷ []) v.items) }
{
    match search(&entries, row.key) {
        Ok(_) => Ok(entries),
        Err(at) => {
            let entry = Entry {
                key: row.key,
                row: rows.len(),
                steps,
            };
            let mut entries = entries;
            entries.insert(at, entry).map_err(|_| NoMemory)?;
            Ok(entries)
        }
    }
}

// Returns the guess of a number: the highest seven binary digits of its hash. Up to 89 consecutive
// numbers have different guesses.
#[inline(always)]
fn guess_of(number: i32) -> usize
    ensures inside { result < guess_count }
{
    (number.cast_unsigned().wrapping_mul(GOLDEN) >> 25) as usize
}

// Returns the index of a number among ascending ones, either at the guess, or by binary search.
#[inline(always)]
fn locate(entries: &[Entry], guess: usize, key: i32) -> Result<usize, usize>
    requires rising { AreRising entries.now }
    ensures found { IsFound entries.now key result }
{
    match entries.get(guess) {
        Some(entry) if entry.key == key => Ok(guess),
        _ => search(entries, key),
    }
}

// Returns the index of a number among ascending ones, or the index at which it would be inserted.
// The number of halvings depends only on how many there are.
#[inline(never)]
fn search(entries: &[Entry], key: i32) -> Result<usize, usize>
    requires rising { AreRising entries.now }
    ensures found { IsFound entries.now key result }
{
    let mut low = 0;
    let mut count = entries.len();
    while count > 1 {
        let half = count / 2;
        let middle = low + half;
        low = if entries[middle].key <= key {
            middle
        } else {
            low
        };
        count -= half;
    }
    match entries.get(low) {
        Some(entry) if entry.key == key => Ok(low),
        Some(entry) if entry.key < key => Err(low + 1),
        _ => Err(low),
    }
}
