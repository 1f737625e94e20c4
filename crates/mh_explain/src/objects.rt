//! The objects of an input: the known keys of each, and its name.
ghost use Rattle.std.specs.Prelude.{◌≡◌};
ghost use Rattle.mh_explain.specs.Unread.{link_keys as keys_of_link, row_keys as keys_of_row};

use mh_json::{Field, InputForm, Key};
use mh_site::Version;
use serde_json::Value;

/// The known keys of a script.
pub(crate) const SCRIPT_KEYS: &[Field] = &[
    Field::Definition,
    Field::Workers,
    Field::Limits,
    Field::Events,
];

/// The known keys of a definition.
pub(crate) const DEFINITION_KEYS: &[Field] = &[
    Field::Version,
    Field::Points,
    Field::Shared,
    Field::Sites,
];

/// The known keys of a point.
pub(crate) const POINT_KEYS: &[Field] = &[Field::Name, Field::Cost];

/// The known keys of a site.
pub(crate) const SITE_KEYS: &[Field] = &[
    Field::Name,
    Field::Type,
    Field::Level,
    Field::Key,
    Field::Target,
    Field::Links,
];

/// The known keys of the limits of a script.
pub(crate) const LIMIT_KEYS: &[Field] = &[Field::History, Field::Ledger, Field::Total];

/// The known keys of a problem.
pub(crate) const PROBLEM_KEYS: &[Field] = &[Field::Version, Field::Costs, Field::Links];

/// The known keys of a problem with a plan.
pub(crate) const CLAIM_KEYS: &[Field] = &[Field::Problem, Field::Plan];

/// The known keys of a plan.
pub(crate) const PLAN_KEYS: &[Field] = &[
    Field::Links,
    Field::Points,
    Field::Value,
    Field::Flow,
    Field::Charges,
];

/// Returns the known keys of a link of a site. The key `name` is known, but not read: it is for
/// readers of the input.
pub(crate) fn link_keys(version: Version) -> &'static [Field]
    ensures value { result.now ≡ keys_of_link version }
{
    match version {
        Version::One => &[Field::When, Field::Weight, Field::Needs, Field::Name],
        Version::Two => &[
            Field::When,
            Field::Weight,
            Field::Needs,
            Field::Name,
            Field::Charge,
        ],
    }
}

/// Returns the known keys of a link of a problem, as of a link of a site.
pub(crate) fn row_keys(version: Version) -> &'static [Field]
    ensures value { result.now ≡ keys_of_row version }
{
    match version {
        Version::One => &[Field::Gain, Field::Eligible, Field::Needs, Field::Name],
        Version::Two => &[
            Field::Gain,
            Field::Eligible,
            Field::Needs,
            Field::Name,
            Field::Charge,
        ],
    }
}

/// An object that some form of input has.
#[derive(Clone, Copy)]
pub(crate) enum Object {
    Script,
    Definition,
    Limits,
    Point,
    Site,
    Link,
    Problem,
    Row,
    Claim,
    Plan,
}

impl Object {
    /// Returns the known keys of the object.
    pub(crate) fn keys(self, version: Version) -> &'static [Field] {
        match self {
            Object::Script => SCRIPT_KEYS,
            Object::Definition => DEFINITION_KEYS,
            Object::Limits => LIMIT_KEYS,
            Object::Point => POINT_KEYS,
            Object::Site => SITE_KEYS,
            Object::Link => link_keys(version),
            Object::Problem => PROBLEM_KEYS,
            Object::Row => row_keys(version),
            Object::Claim => CLAIM_KEYS,
            Object::Plan => PLAN_KEYS,
        }
    }

    /// Returns the name of the object, with an article.
    pub(crate) fn noun(self) -> &'static str {
        match self {
            Object::Script => "a script",
            Object::Definition => "a definition",
            Object::Limits => "limits",
            Object::Point => "a point",
            Object::Site => "a site",
            Object::Link | Object::Row => "a link",
            Object::Problem => "a problem",
            Object::Claim => "a problem with a plan",
            Object::Plan => "a plan",
        }
    }

    /// Returns an example of the object.
    pub(crate) fn example(self) -> &'static str {
        match self {
            Object::Script => {
                r#"{"definition":{"version":2,"points":[],"sites":[]},"workers":1,"events":[]}"#
            }
            Object::Definition => r#"{"version":2,"points":[],"sites":[]}"#,
            Object::Limits => r#"{"history":1048576}"#,
            Object::Point => r#"{"name":"p","cost":1}"#,
            Object::Site => r#"{"name":"f","type":"(int)int","target":["op","ineg"]}"#,
            Object::Link => r#"{"when":1,"weight":1,"needs":["p"]}"#,
            Object::Problem => r#"{"version":2,"costs":[1],"links":[]}"#,
            Object::Row => r#"{"gain":1,"needs":[0]}"#,
            Object::Claim => {
                r#"{"problem":{"version":2,"costs":[],"links":[]},"plan":{"links":[],"points":[],"value":0,"flow":[]}}"#
            }
            Object::Plan => {
                r#"{"links":[],"points":[],"value":0,"flow":[]}, as mhlink plan --certificate writes it"#
            }
        }
    }
}

/// Returns the object that an input of a form is.
pub(crate) fn object_of(form: InputForm) -> Object {
    match form {
        InputForm::Script => Object::Script,
        InputForm::Problem => Object::Problem,
        InputForm::Claim => Object::Claim,
    }
}

/// Returns the object that an item of a list with this key is.
fn item_at(form: InputForm, field: Field) -> Option<Object> {
    match (field, form) {
        (Field::Points, _) => Some(Object::Point),
        (Field::Sites, _) => Some(Object::Site),
        (Field::Links, InputForm::Script) => Some(Object::Link),
        (Field::Links, _) => Some(Object::Row),
        _ => None,
    }
}

/// Returns the object that a member with this key is.
fn member_at(field: Field) -> Option<Object> {
    match field {
        Field::Definition => Some(Object::Definition),
        Field::Limits => Some(Object::Limits),
        Field::Problem => Some(Object::Problem),
        Field::Plan => Some(Object::Plan),
        _ => None,
    }
}

/// Returns the object at the end of a path, if one is read there. Of the events, only an offer
/// contains an object, which is its plan.
pub(crate) fn object_at(form: InputForm, path: &[Key]) -> Option<Object> {
    match path {
        [] => Some(object_of(form)),
        [.., Key::Member(field), Key::Item(_)] => item_at(form, *field),
        [.., Key::Member(field)] => member_at(*field),
        [.., Key::Item(_)] => Some(Object::Plan),
    }
}

/// Returns whether a value has a key that only lines of a profile have.
pub(crate) fn is_profile_line(value: &Value) -> bool {
    value.get("point").is_some() || value.get("link").is_some()
}
