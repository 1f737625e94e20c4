//! The keys of an input that are not read.
ghost use Rattle.std.specs.Prelude.{◌≡◌, ◌∷◌, [], map, option_map, Some, None, if◌then◌else◌, IfOk, OnOk};
ghost use Rattle.serde_json.specs.View.{view, members_view};
ghost use Rattle.mh_explain.specs.declared.unread.Reach.TheVariants.{At};
ghost use Rattle.mh_explain.specs.Unread.{first_along, first_in, first_of, first_unread_in, first_where, has_other, is_read as is_among, offered_in, or_later, version_in, objects_of, script_objects, problem_objects, claim_objects};

use crate::near::nearest;
use crate::objects::{
    CLAIM_KEYS, DEFINITION_KEYS, LIMIT_KEYS, PLAN_KEYS, POINT_KEYS, PROBLEM_KEYS, SCRIPT_KEYS,
    SITE_KEYS, link_keys, row_keys,
};
use crate::path::{ShownPath, longer};
use crate::values::{items, version_of};
use mh_base::NoMemory;
use mh_json::{Field, InputForm, Key};
use mh_site::Version;
use serde_json::{Map, Value};
use std::alloc::Global;

/// A step from a value to values inside it.
#[derive(Clone, Copy, Debug, PartialEq, Eq)]
pub(crate) enum Reach {
    /// To the value of an object's key.
    At(Field),
    /// To each item of a list.
    Each,
    /// To the plan of each event that offers one.
    Offered,
}

/// The keys of an input that are not read.
#[derive(Drop)]
pub struct UnreadKeys {
    /// A line for each, as `note: definition.sites[9].lnks is not read; did you mean "links"?`.
    pub notes: String,
    /// The number of the event that contains the first one, from 1, or 0 if it is outside the
    /// events; `None` if each key is read.
    pub first: Option<u64>,
}

/// Returns whether a key is one of those that are read.
pub(crate) fn is_read(keys: &[Field], key: &str) -> bool
    ensures value { result ≡ is_among keys.now key.now }
{
    for known in keys {
        if key == known.name() {
            return true;
        }
    }
    false
}

/// Returns the plan that an event offers.
fn offered(event: &Value) -> Option<&Value>
    ensures value { option_map (λ v. view v.now) result ≡ offered_in (view event.now) }
{
    match event.get(0).and_then(Value::as_str) {
        Some("offer") => event.get(2),
        _ => None,
    }
}

/// The current search: the keys that are read of objects of one kind, the keys that lead to a
/// value, and the number of the event that contains it, or 0.
#[derive(Clone, Copy)]
struct Look<'a> {
    keys: &'a [Field],
    path: &'a [Key],
    event: u64,
}

impl UnreadKeys {
    /// Returns an empty list of keys.
    fn new(alloc: Global) -> UnreadKeys
        ensures first { result.first ≡ None }
    {
        UnreadKeys {
            notes: String::new(alloc),
            first: None,
        }
    }

    /// Adds a key that an object has there.
    fn add(&mut self, alloc: Global, look: &Look<'_>, key: &str) -> Result<(), NoMemory>
        ensures first { OnOk result (self.new.first ≡ or_later self.old.first
            (Some look.now.event)) }
    {
        let note = note(alloc, look, key)?;
        self.notes.push_str(note.as_str())?;
        if self.first.is_none() {
            self.first = Some(look.event);
        }
        Ok(())
    }

    /// Adds the keys of an object that are not read.
    fn add_members(
        &mut self,
        alloc: Global,
        look: &Look<'_>,
        members: &Map<String, Value>,
    ) -> Result<(), NoMemory>
        ensures first { OnOk result (self.new.first ≡ or_later self.old.first
            (if has_other look.now.keys.now (members_view members.now.entries)
            then Some look.now.event else None)) }
    {
        for (key, _member) in members.iter() {
            if !is_read(look.keys, key.as_str()) {
                self.add(alloc, look, key.as_str())?;
            }
        }
        Ok(())
    }

    /// Adds the keys of a value that are not read, if it is an object.
    fn add_here(&mut self, alloc: Global, look: &Look<'_>, value: &Value) -> Result<(), NoMemory>
        ensures first { OnOk result (self.new.first ≡ or_later self.old.first
            (first_along look.now.keys.now [] look.now.event (view value.now))) }
    {
        match value {
            Value::Object(members) => self.add_members(alloc, look, members),
            _ => Ok(()),
        }
    }

    /// Adds the keys that are not read of the objects at the end of these steps.
    #[cycle(along)]
    fn add_along(
        &mut self,
        alloc: Global,
        look: &Look<'_>,
        steps: &[Reach],
        value: &Value,
    ) -> Result<(), NoMemory>
        ensures first { OnOk result (self.new.first ≡ or_later self.old.first
            (first_along look.now.keys.now steps.now look.now.event (view value.now))) }
    {
        let [step, rest @ ..] = steps else {
            return self.add_here(alloc, look, value);
        };
        match step {
            Reach::At(field) => self.add_at(alloc, look, *field, rest, value),
            Reach::Each => self.add_each(alloc, look, rest, items(value)),
            Reach::Offered => self.add_offered(alloc, look, rest, items(value)),
        }
    }

    /// Does the same from the value of a key.
    #[cycle(along)]
    fn add_at(
        &mut self,
        alloc: Global,
        look: &Look<'_>,
        field: Field,
        steps: &[Reach],
        value: &Value,
    ) -> Result<(), NoMemory>
        ensures first { OnOk result (self.new.first ≡ or_later self.old.first
            (first_along look.now.keys.now (At field ∷ steps.now) look.now.event (view value.now))) }
    {
        let Some(inner) = value.get(field.name()) else {
            return Ok(());
        };
        let path = longer(alloc, look.path, Key::Member(field))?;
        let look = Look {
            keys: look.keys,
            path: &path,
            event: look.event,
        };
        self.add_along(alloc, &look, steps, inner)
    }

    /// Does the same from each item of a list.
    #[cycle(along)]
    fn add_each(
        &mut self,
        alloc: Global,
        look: &Look<'_>,
        steps: &[Reach],
        items: &[Value],
    ) -> Result<(), NoMemory>
        ensures first { OnOk result (self.new.first ≡ or_later self.old.first
            (first_in (λ _. first_along look.now.keys.now steps.now look.now.event) 1 (map view items.now))) }
    {
        for (i, item) in items.iter().enumerate() {
            let path = longer(alloc, look.path, Key::Item(i))?;
            let look = Look {
                keys: look.keys,
                path: &path,
                event: look.event,
            };
            self.add_along(alloc, &look, steps, item)?;
        }
        Ok(())
    }

    /// Does the same from the plan of each event that offers one.
    #[cycle(along)]
    fn add_offered(
        &mut self,
        alloc: Global,
        look: &Look<'_>,
        steps: &[Reach],
        events: &[Value],
    ) -> Result<(), NoMemory>
        ensures first { OnOk result (self.new.first ≡ or_later self.old.first
            (first_in (λ i event. first_where (first_along look.now.keys.now steps.now i) (offered_in event)) 1 (map view events.now))) }
    {
        for (i, event) in events.iter().enumerate() {
            let Some(plan) = offered(event) else {
                continue;
            };
            let mut path = longer(alloc, look.path, Key::Item(i))?;
            path.push(Key::Item(2))?;
            let look = Look {
                keys: look.keys,
                path: &path,
                event: i as u64 + 1,
            };
            self.add_along(alloc, &look, steps, plan)?;
        }
        Ok(())
    }

    /// Does the same for the objects of one kind of an input.
    fn add_objects(
        &mut self,
        alloc: Global,
        steps: &[Reach],
        keys: &[Field],
        value: &Value,
    ) -> Result<(), NoMemory>
        ensures first { OnOk result (self.new.first ≡ or_later self.old.first
            (first_along keys.now steps.now 0 (view value.now))) }
    {
        let look = Look {
            keys,
            path: &[],
            event: 0,
        };
        self.add_along(alloc, &look, steps, value)
    }
}

/// Returns the note about a key that is not read.
fn note(alloc: Global, look: &Look<'_>, key: &str) -> Result<String, NoMemory> {
    let mut note = String::new(alloc);
    let place = ShownPath { keys: look.path };
    write!(note, "note: {place}")?;
    push_key(alloc, &mut note, look.path.is_empty(), key)?;
    note.push_str(" is not read")?;
    if is_of_version_2(look.keys, key) {
        note.push_str("; version 2 reads it\n")?;
        return Ok(note);
    }
    let names = names(alloc, look.keys)?;
    if let Some(meant) = nearest(alloc, key, &names)? {
        write!(note, "; did you mean \"{meant}\"?")?;
    }
    note.push('\n')?;
    Ok(note)
}

/// Returns whether a key is the charge of a link of version 1, which has needs.
fn is_of_version_2(keys: &[Field], key: &str) -> bool {
    key == Field::Charge.name() && is_read(keys, Field::Needs.name())
}

/// Returns the names of keys.
fn names(alloc: Global, keys: &[Field]) -> Result<Vec<&'static str>, NoMemory> {
    let mut names = Vec::new(alloc);
    for key in keys {
        names.push(key.name())?;
    }
    Ok(names)
}

/// Appends a key to a path, in brackets if it is not a plain name.
fn push_key(alloc: Global, text: &mut String, is_first: bool, key: &str) -> Result<(), NoMemory> {
    if !is_plain(key) {
        let quoted = Value::String(String::from_str(alloc, key)?);
        write!(text, "[{quoted}]")?;
        return Ok(());
    }
    if !is_first {
        text.push('.')?;
    }
    text.push_str(key)?;
    Ok(())
}

/// Returns whether a key consists only of letters, digits, `_` and `-`.
pub(crate) fn is_plain(key: &str) -> bool {
    for byte in key.as_bytes() {
        if !byte.is_ascii_alphanumeric() && *byte != b'_' && *byte != b'-' {
            return false;
        }
    }
    !key.is_empty()
}

/// Returns the version of an input, which says whether charges are read.
pub(crate) fn version_of_input(form: InputForm, value: &Value) -> Result<Version, NoMemory>
    ensures value { IfOk result (λ v. v ≡ version_in form (view value.now)) }
{
    match form {
        InputForm::Script => version_of(value.get("definition")),
        InputForm::Problem => version_of(Some(value)),
        InputForm::Claim => version_of(value.get("problem")),
    }
}

impl UnreadKeys {
    /// Adds the keys of a script that are not read.
    fn add_script(
        &mut self,
        alloc: Global,
        version: Version,
        script: &Value,
    ) -> Result<(), NoMemory>
        ensures first { OnOk result (self.new.first ≡ or_later self.old.first
            (first_of (script_objects version) (view script.now))) }
    {
        let definition = Reach::At(Field::Definition);
        let (points, sites) = (Reach::At(Field::Points), Reach::At(Field::Sites));
        let (links, limits) = (Reach::At(Field::Links), Reach::At(Field::Limits));
        let events = Reach::At(Field::Events);
        self.add_objects(alloc, &[], SCRIPT_KEYS, script)?;
        self.add_objects(alloc, &[definition], DEFINITION_KEYS, script)?;
        self.add_objects(
            alloc,
            &[definition, points, Reach::Each],
            POINT_KEYS,
            script,
        )?;
        self.add_objects(alloc, &[definition, sites, Reach::Each], SITE_KEYS, script)?;
        let to_links = [definition, sites, Reach::Each, links, Reach::Each];
        self.add_objects(alloc, &to_links, link_keys(version), script)?;
        self.add_objects(alloc, &[limits], LIMIT_KEYS, script)?;
        self.add_objects(alloc, &[events, Reach::Offered], PLAN_KEYS, script)?;
        Ok(())
    }

    /// Adds the keys of a problem that are not read.
    fn add_problem(
        &mut self,
        alloc: Global,
        version: Version,
        problem: &Value,
    ) -> Result<(), NoMemory>
        ensures first { OnOk result (self.new.first ≡ or_later self.old.first
            (first_of (problem_objects version) (view problem.now))) }
    {
        let links = Reach::At(Field::Links);
        self.add_objects(alloc, &[], PROBLEM_KEYS, problem)?;
        self.add_objects(alloc, &[links, Reach::Each], row_keys(version), problem)
    }

    /// Adds the keys of a problem and a plan that are not read.
    fn add_claim(&mut self, alloc: Global, version: Version, claim: &Value) -> Result<(), NoMemory>
        ensures first { OnOk result (self.new.first ≡ or_later self.old.first
            (first_of (claim_objects version) (view claim.now))) }
    {
        let problem = Reach::At(Field::Problem);
        let (links, plan) = (Reach::At(Field::Links), Reach::At(Field::Plan));
        self.add_objects(alloc, &[], CLAIM_KEYS, claim)?;
        self.add_objects(alloc, &[problem], PROBLEM_KEYS, claim)?;
        self.add_objects(
            alloc,
            &[problem, links, Reach::Each],
            row_keys(version),
            claim,
        )?;
        self.add_objects(alloc, &[plan], PLAN_KEYS, claim)
    }

    /// Adds the keys of an input that are not read.
    fn add_input(
        &mut self,
        alloc: Global,
        form: InputForm,
        version: Version,
        input: &Value,
    ) -> Result<(), NoMemory>
        ensures first { OnOk result (self.new.first ≡ or_later self.old.first
            (first_of (objects_of form version) (view input.now))) }
    {
        match form {
            InputForm::Script => self.add_script(alloc, version, input),
            InputForm::Problem => self.add_problem(alloc, version, input),
            InputForm::Claim => self.add_claim(alloc, version, input),
        }
    }
}

/// Returns the keys of a JSON value that are not read when it is read as a form.
///
/// A part that is not of the form that is read there counts as having none. Fails only if memory
/// runs out.
pub fn unread_keys(alloc: Global, form: InputForm, value: &Value) -> Result<UnreadKeys, NoMemory>
    ensures first { IfOk result (λ unread. unread.first ≡ first_unread_in form (view value.now)) }
{
    let version = version_of_input(form, value)?;
    let mut unread = UnreadKeys::new(alloc);
    unread.add_input(alloc, form, version, value)?;
    Ok(unread)
}
