//! Facts known about a local.

use crate::input::Input;
use mh_type::Kind;

/// The kind of a value, and where its word is found.
#[derive(Clone, Copy, Debug)]
pub(crate) struct Known {
    pub(crate) kind: Kind,
    pub(crate) input: Input,
}
