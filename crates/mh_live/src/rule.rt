//! The rule over the published world.

use crate::front::ListName;
use crate::published::{Publication, Published, View};
use crossbeam_utils::rule::{Outcome, Protocol};
use left_right::reader::Reader;
use left_right::writer::Writer;
use std::marker::PhantomData;

/// Each published world is the replay of a prefix of the list that `N` names, its trees are of
/// their sites' types and mean what the base trees mean, and no reader enters a list shorter than
/// one that it has seen.
pub struct Fronts<N: ListName> {
    of: PhantomData<N>,
}

impl<N: ListName> Protocol<Published, View> for Fronts<N> {
    ghost use Rattle.mh_live.specs.Rules.{Keeps, newcomer};

    ghost holds = { Keeps N.book N.definition };

    ghost first = { newcomer };
}

/// The transitions: a reader that enters, and a writer that publishes.
pub struct Sees<N: ListName> {
    of: PhantomData<N>,
}

impl<N: ListName> Outcome<Published, View> for Sees<N> {
    ghost use Rattle.mh_live.specs.Rules.{Looks};

    ghost then = { Looks N.book N.definition };
}

/// The reader with which a pass enters the published world.
pub type WorldReader<N> = Reader<Published, View, Fronts<N>>;

/// The writer with which an office publishes.
pub type WorldWriter<N> = Writer<Published, Publication, View, Fronts<N>>;
