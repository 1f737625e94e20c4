//! The four kinds of value.

ghost use Rattle.std.specs.Prelude.{◌≡◌, ◌↔◌, IsTrue};
ghost use Rattle.mh_type.specs.Kinds.{kind_name, kind_named, kind_eq};

/// A kind of value. Int and Long are Java's `int` and `long`, two's complement of 32 and 64 bits;
/// Text is a shared text of printable ASCII, written `String`.
#[derive(Clone, Copy, Debug, PartialEq, Eq)]
pub enum Kind {
    Int,
    Long,
    Boolean,
    Text,
}

impl Kind {
    /// Returns the name of the kind: `int`, `long`, `boolean` or `String`.
    pub fn name(self) -> &'static str
        ensures value { result.now ≡ kind_name self }
    {
        match self {
            Kind::Int => "int",
            Kind::Long => "long",
            Kind::Boolean => "boolean",
            Kind::Text => "String",
        }
    }

    /// Returns the kind with a name, or `None` if there is none.
    pub fn from_name(name: &str) -> Option<Kind>
        ensures value { result ≡ kind_named name.now }
    {
        match name {
            "int" => Some(Kind::Int),
            "long" => Some(Kind::Long),
            "boolean" => Some(Kind::Boolean),
            "String" => Some(Kind::Text),
            _ => None,
        }
    }

    /// Returns whether both kinds are equal.
    pub fn is(self, other: Kind) -> bool
        ensures value { result ≡ kind_eq self other }
        ensures same { IsTrue result ↔ (self ≡ other) }
    {
        self == other
    }
}
