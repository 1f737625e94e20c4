//! Sources of words of a given kind.

use crate::word_source::WordSource;
use mh_type::Kind;

/// A source, and the kind of its values.
#[derive(Clone, Copy, Debug)]
pub(crate) struct Made {
    pub(crate) kind: Kind,
    pub(crate) source: WordSource,
}
