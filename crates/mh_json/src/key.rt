//! Keys into a JSON value.
ghost use Rattle.std.specs.Prelude.{◌≡◌, option_map};
ghost use Rattle.serde_json.specs.View.{view};
ghost use Rattle.mh_json.specs.Keys.{child, field_name};

use serde_json::Value;

/// A key of an object in an input.
#[derive(Clone, Copy, Debug, PartialEq, Eq)]
pub enum Field {
    Charge,
    Charges,
    Cost,
    Costs,
    Definition,
    Eligible,
    Events,
    Flow,
    Gain,
    History,
    Key,
    Ledger,
    Level,
    Limits,
    Links,
    Name,
    Needs,
    Plan,
    Points,
    Problem,
    Shared,
    Sites,
    Target,
    Total,
    Type,
    Value,
    Version,
    Weight,
    When,
    Workers,
}

impl Field {
    /// Returns the key as text.
    pub fn name(self) -> &'static str
        ensures value { result.now ≡ field_name self }
    {
        match self {
            Field::Charge => "charge",
            Field::Charges => "charges",
            Field::Cost => "cost",
            Field::Costs => "costs",
            Field::Definition => "definition",
            Field::Eligible => "eligible",
            Field::Events => "events",
            Field::Flow => "flow",
            Field::Gain => "gain",
            Field::History => "history",
            Field::Key => "key",
            Field::Ledger => "ledger",
            Field::Level => "level",
            Field::Limits => "limits",
            Field::Links => "links",
            Field::Name => "name",
            Field::Needs => "needs",
            Field::Plan => "plan",
            Field::Points => "points",
            Field::Problem => "problem",
            Field::Shared => "shared",
            Field::Sites => "sites",
            Field::Target => "target",
            Field::Total => "total",
            Field::Type => "type",
            Field::Value => "value",
            Field::Version => "version",
            Field::Weight => "weight",
            Field::When => "when",
            Field::Workers => "workers",
        }
    }
}

/// A step into a JSON value.
#[derive(Clone, Copy, Debug, PartialEq, Eq)]
pub enum Key {
    /// The member of an object at this key.
    Member(Field),
    /// The item of an array at this index, counted from 0.
    Item(usize),
}

impl Key {
    /// Returns the part of a value at this step.
    pub fn find(self, value: &Value) -> Option<&Value>
        ensures value { option_map (λ v. view v.now) result ≡ child self (view value.now) }
    {
        match self {
            Key::Member(field) => value.get(field.name()),
            Key::Item(number) => value.get(number),
        }
    }
}
