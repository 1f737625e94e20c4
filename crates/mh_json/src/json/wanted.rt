//! Expected forms of parts that could not be read.
use crate::key::Field;
use mh_type::Kind;

/// The first word of a list: the first thirteen are of trees, the others of events.
#[derive(Clone, Copy, Debug)]
pub enum Word {
    Const,
    Id,
    Op,
    Insert,
    Drop,
    Permute,
    Filter,
    Return,
    Fold,
    Guard,
    Point,
    Ref,
    Invoke,
    Call,
    Flush,
    Target,
    Invalidate,
    Snapshot,
    Offer,
    Install,
    Plan,
}

/// A thing that inputs name by a number, counted from 0.
#[derive(Clone, Copy, Debug)]
pub enum Numbered {
    Worker,
    Link,
    Point,
    Snapshot,
    Plan,
}

/// A thing that inputs name by its name.
#[derive(Clone, Copy, Debug)]
pub enum Named {
    Point,
    Site,
    Shared,
}

/// The expected form of a part that could not be read. It is for messages only: no contract
/// mentions it. If readers accept more than is lawful, it is the lawful form.
#[derive(Clone, Copy, Debug)]
pub enum Wanted {
    /// Nothing: the fault says enough.
    Nothing,
    /// JSON. Reading stopped at this line and column, or the input ended too early.
    Json {
        line: usize,
        column: usize,
        is_cut: bool,
    },
    /// This key, which the object lacks, or an object that has it.
    Missing(Field),
    /// A string.
    Text,
    /// `true` or `false`.
    Truth,
    /// A list.
    List,
    /// A whole number in this range.
    Number {
        least: u64,
        most: u64,
    },
    /// A signed whole number of 64 bits.
    Signed,
    /// The number of a thing of this sort.
    NumberOf(Numbered),
    /// The name of a thing of this sort.
    NameOf(Named),
    /// The name of a kind.
    Kind,
    /// The name of a leaf operation.
    Operation,
    /// The text of a method type.
    MethodType,
    /// A version: 1 or 2.
    Version,
    /// A number of workers, 1 to 64.
    Workers,
    /// An object of limits, each in its range.
    Limits,
    /// A key place, or `null`.
    KeyPlace,
    /// A lawful name that no earlier shared tree has.
    NewName,
    /// A value of any kind.
    Value,
    /// A value of this kind.
    Constant(Kind),
    /// A tree: a list that begins with a word.
    Tree,
    /// A word that heads a tree.
    TreeWord,
    /// An event: a list that begins with a word.
    Event,
    /// A word that heads an event.
    EventWord,
    /// As many arguments as this word takes.
    PartsOf(Word),
    /// A list of a name and a tree.
    SharedPair,
    /// A list of a link, a point and an amount.
    FlowRow,
    /// A list of a link and an amount.
    ChargeRow,
}

impl Wanted {
    /// Returns the form of a whole number from 0 to a maximum.
    pub const fn up_to(most: u64) -> Wanted {
        Wanted::Number { least: 0, most }
    }
}
