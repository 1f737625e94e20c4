//! Sentences from templates.
use mh_base::NoMemory;
use mh_type::{Kind, MethodType};
use serde_json::Value;
use std::alloc::Global;
use std::fmt;

/// A replacement for a hole of a template.
#[derive(Clone, Copy)]
pub(crate) enum Part<'a> {
    Text(&'a str),
    Number(usize),
    Kind(Kind),
    Type(&'a MethodType),
    Value(&'a Value),
    /// A count and its noun, in the singular and the plural.
    Counted(usize, &'static str, &'static str),
}

impl fmt::Display for Part<'_> {
    fn fmt<W: fmt::Write>(&self, f: &mut fmt::Formatter<W>) -> fmt::Result {
        match self {
            Part::Text(text) => write!(f, "{text}"),
            Part::Number(number) => write!(f, "{number}"),
            Part::Kind(kind) => write!(f, "{kind}"),
            Part::Type(method_type) => write!(f, "{method_type}"),
            Part::Value(value) => write!(f, "{value}"),
            Part::Counted(1, one, _) => write!(f, "1 {one}"),
            Part::Counted(count, _, many) => write!(f, "{count} {many}"),
        }
    }
}

/// Returns the number of parameters of a type.
pub(crate) fn parameters_of<'a>(of: &MethodType) -> Part<'a> {
    Part::Counted(of.count(), "parameter", "parameters")
}

/// Returns a template with parts in place of its holes, which are written `_`, in their order.
pub(crate) fn said(alloc: Global, template: &str, parts: &[Part<'_>]) -> Result<String, NoMemory> {
    let mut text = String::new(alloc);
    let mut left = parts.iter();
    for piece in template.split('_') {
        text.push_str(piece)?;
        if let Some(part) = left.next() {
            text.push_str(part.to_string(alloc)?.as_str())?;
        }
    }
    Ok(text)
}

/// Returns a sentence, from a template and the parts for its holes.
macro_rules! say {
    ($alloc:expr, $template:expr $(, $part:expr)* $(,)?) => {
        crate::said::said($alloc, $template, &[$($part),*])
    };
}

pub(crate) use say;
