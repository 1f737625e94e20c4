//! A part of an input that could not be read.
use crate::objects::{Object, object_at};
use mh_json::{Field, InputForm, Key, Wanted};
use serde_json::Value;

/// A part of an input that could not be read, and the form that was expected there.
#[derive(Clone, Copy)]
pub(crate) struct Spot<'a> {
    pub(crate) form: InputForm,
    pub(crate) input: &'a Value,
    /// The keys that lead from the input to the part.
    pub(crate) path: &'a [Key],
    pub(crate) value: &'a Value,
    pub(crate) wanted: Wanted,
}

impl<'a> Spot<'a> {
    /// Returns the object that is read there, if one is.
    pub(crate) fn object(&self) -> Option<Object> {
        object_at(self.form, self.path)
    }

    /// Returns the problem that the input contains, if it is not a script.
    pub(crate) fn problem(&self) -> Option<&'a Value> {
        match self.form {
            InputForm::Script => None,
            InputForm::Problem => Some(self.input),
            InputForm::Claim => self.input.get(Field::Problem.name()),
        }
    }
}
