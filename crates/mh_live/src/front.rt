//! The one list of controls. It exists only in the proofs; at run time, threads share one word, its
//! length.

ghost use Rattle.std.specs.Prelude.{◌≡◌, ◌+◌, ◌<◌, ◌≤◌, ◌++◌, ◌∷◌, ◌⊎◌, [], length, IfSome, None as none_of};
ghost use mathlib.Core.List.{IsPrefix};
ghost use Rattle.mh_live.specs.Limits.{most_controls};
ghost use Rattle.mh_live.specs.Pasts.{head_of};

use logbook::{Gain, Offer, Plain, Play, Rule, Seen, Start, Word};
use mh_site::Control;
use std::fmt;
use std::marker::{Brand, Model, PhantomData};

/// The rule of the list: the word is its length.
pub struct Law;

impl Rule<Control, u64> for Law {
    ghost use Rattle.std.specs.Prelude.{[]};
    ghost use base.Fml.{ftrue};
    ghost use Rattle.mh_live.specs.Pasts.{IsKept};

    ghost holds = { λ cells log. IsKept cells log };

    ghost first = { [] };

    ghost hinted = { λ n log. Unit {0} };

    ghost shows = { λ log. [] };

    ghost keeps = { λ names log. ftrue };

    ghost moves = { λ ask before after answer. Unit {0} };
}

/// A marker: callers trade nothing.
pub struct Nothing;

impl Gain<Control, u64> for Nothing {
    ghost use base.Fml.{ftrue};

    ghost after = { λ names about answer. ftrue };
}

/// A marker of the step that adds a control.
pub struct Add;

impl Play<Control, u64> for Add {
    ghost use Rattle.mh_live.specs.Pasts.{Adds};

    ghost then = { Adds };
}

impl Plain<Control, Control, u64> for Add {
    ghost use Rattle.std.specs.Prelude.{None};

    ghost ask = { λ control. control };

    ghost state = { λ control. None };
}

/// A prefix of the list that was reached. It has no bytes, and can be copied.
pub type Past = Seen<Control, u64, Law>;

/// A control that is to be added. It has no bytes.
pub type Intent = Offer<Control, u64, Law, Nothing>;

/// The identity of a list of controls, with its definition, its limits and its number of workers:
/// an opening makes a list, and its office, passes and receipts all carry its name. A caller takes
/// the name as a type parameter, and chooses it when it opens.
pub trait ListName {
    ghost use Rattle.std.specs.Prelude.{ℕ};
    ghost use Rattle.logbook.specs.Pages.{Book};
    ghost use Rattle.mh_site.specs.Defined.{DefinitionData};
    ghost use Rattle.mh_core.specs.Limits.{LimitsData};

    ghost book: { Book };

    ghost definition: { DefinitionData };

    ghost limits: { LimitsData };

    ghost workers: { ℕ };
}

impl ListName for Brand {
    ghost use Rattle.std.specs.Prelude.{[]};

    ghost book = { record { number = 0; log_name = 0; cells_name = 0 } };

    ghost definition = { record { points = []; sites = [] } };

    ghost limits = { record { history = 0; ledger = 0; total = 0 } };

    ghost workers = { 0 };
}

/// The word that counts the controls.
#[derive(Drop)]
pub struct Head<N: ListName> {
    word: Word<Control, u64, Law>,
    of: PhantomData<N>,
    ghost head_is: { word ≡ head_of N.book },
}

/// A new list, which has no name yet.
#[derive(Drop)]
pub struct Unnamed {
    word: Word<Control, u64, Law>,
    past: Past,
    pub ghost empty: { (past.log ≡ []) × (past.names ≡ []) },
    pub ghost head_is: { word ≡ head_of past.book },
}

impl Unnamed {
    /// Returns an empty list, different from every other.
    pub fn new() -> Unnamed {
        let (past, mut first, _second) = Seen::open(Start::alone(), 0, 0);
        Unnamed {
            word: Word::tracked(0, &mut first),
            past,
        }
    }

    /// Returns the list under its name: the word, and the front without controls.
    pub fn with_name<N: ListName>(self) -> (Head<N>, Front<N>)
        requires name { self.past.book ≡ N.book }
        ensures value { result.1 ≡ [] }
    {
        let Unnamed { word, past } = self;
        let of = PhantomData;
        (
            Head { word, of },
            Front {
                count: 0,
                past,
                of: PhantomData,
            },
        )
    }
}

/// A prefix of the list of controls that was reached. Contracts see it as its controls, oldest
/// first. It takes 8 bytes whatever its length.
#[derive(Drop)]
pub struct Front<N: ListName> {
    count: u64,
    past: Past,
    of: PhantomData<N>,
}

impl<N: ListName> Model for Front<N> {
    ghost use Rattle.std.specs.Prelude.{◌≡◌, List, [], length};
    ghost use Rattle.mh_site.specs.declared.control.Control.{Control};
    ghost use Rattle.mh_live.specs.Pasts.{coded_controls};

    ghost Value = { List Control };

    ghost coded = { coded_controls };

    ghost view = { λ f. f.past.log };

    ghost invariant = { λ f. (f.count ≡ length f.past.log) × (f.past.book ≡ N.book) × (f.past.names ≡ []) };
}

/// Shows the number of its controls.
impl<N: ListName> fmt::Debug for Front<N> {
    fn fmt<W: fmt::Write>(&self, f: &mut fmt::Formatter<W>) -> fmt::Result {
        write!(f, "Front({} controls)", self.len())
    }
}

impl<N: ListName> Front<N> {
    /// Returns the number of its controls.
    pub fn len(&self) -> u64
        ensures value { result ≡ length self.now }
    {
        self.count
    }

    /// Returns the same front.
    pub fn copy(&self) -> Front<N>
        ensures value { result ≡ self.now }
    {
        Front {
            count: self.count,
            past: self.past.again(),
            of: PhantomData,
        }
    }

    /// States that, of two fronts of one list, the one that is not longer is a prefix of the other.
    /// It does nothing at run time: a caller calls it for its clauses.
    pub fn compare(&self, other: &Front<N>)
        ensures shorter { length self.now ≤ length other.now → IsPrefix self.now other.now }
        ensures longer { length other.now ≤ length self.now → IsPrefix other.now self.now }
    {
        let mut both = self.past.again();
        both.learn(&other.past);
        let _ = &other.count;
    }

    /// Returns the longer of two fronts, of which the other is a prefix.
    pub fn longer(&self, other: &Front<N>) -> Front<N>
        ensures one { (result ≡ self.now) ⊎ (result ≡ other.now) }
        ensures this { IsPrefix self.now result }
        ensures that { IsPrefix other.now result }
    {
        self.compare(other);
        if self.count < other.count {
            other.copy()
        } else {
            self.copy()
        }
    }

    /// Returns the prefix itself, for a value that is published.
    pub fn past(&self) -> Past
        ensures value { (result.log ≡ self.now) × (result.book ≡ N.book) × (result.names ≡ []) }
    {
        self.past.again()
    }

    /// Returns the front of a prefix with this length.
    pub fn of(past: &Past, count: u64) -> Front<N>
        requires past { (count ≡ length past.now.log) × (past.now.book ≡ N.book)
            × (past.now.names ≡ []) }
        ensures value { result ≡ past.now.log }
    {
        Front {
            count,
            past: past.again(),
            of: PhantomData,
        }
    }

    /// Returns the control as one that is to be added.
    pub fn intend(&self, control: &Control) -> Intent
        ensures value { (result.ask ≡ control.now) × (result.state ≡ none_of)
            × (result.names ≡ []) }
    {
        self.past.plain::<Nothing, Control, Add>(control)
    }

    /// Returns the front with the control appended, or `None` if the list is longer than this
    /// front.
    pub fn with_control(&self, head: &Head<N>, mut intent: Intent) -> Option<Front<N>>
        requires room { length self.now < most_controls }
        requires intent { (intent.state ≡ none_of) × (intent.names ≡ []) }
        ensures value { IfSome result (λ f. f ≡ self.now ++ intent.ask ∷ []) }
    {
        let mut past = self.past.again();
        let mut pen = past.no_pen();
        let found = head.word.compare_exchange::<Add, Nothing>(
            self.count,
            self.count + 1,
            &mut past,
            &mut intent,
            &mut pen,
        );
        if found != self.count {
            return None;
        }
        Some(Front {
            count: self.count + 1,
            past,
            of: PhantomData,
        })
    }
}
