//! Explanations of refused events.
use crate::found::cut;
use crate::path::ShownPath;
use crate::scope::scope_at;
use crate::values::{items, items_at, known, named_behind};
use crate::why::definitions::Site;
use crate::why::names::{is_among, names_of};
use crate::words::{counted, meant, numbered, quoted};
use mh_base::NoMemory;
use mh_core::{
    LARGEST_LEDGER, LARGEST_TOTAL, LONGEST_HISTORY, MOST_PLANS, MOST_SNAPSHOTS, Refusal,
};
use mh_json::readers::{read_declared, read_value};
use mh_json::{Field, Key};
use mh_network::GREATEST_SUM;
use mh_tree::Declared;
use mh_type::{Kind, MethodType};
use serde_json::Value;
use std::alloc::Global;

/// The reason why a test of an event failed.
#[derive(Drop)]
struct Reason {
    /// The numbers of the items that lead from the event to the part that failed.
    items: Vec<usize>,
    why: String,
}

impl Reason {
    /// Returns a reason about the event itself.
    fn of_event(alloc: Global, why: String) -> Reason {
        Reason {
            items: Vec::new(alloc),
            why,
        }
    }

    /// Returns a reason about an item of the event.
    fn of_item(alloc: Global, item: usize, why: String) -> Result<Reason, NoMemory> {
        let mut items = Vec::new(alloc);
        items.push(item)?;
        Ok(Reason { items, why })
    }

    /// Returns a reason about an item of a list that is an item of the event.
    fn of_item_in(
        alloc: Global,
        list: usize,
        item: usize,
        why: String,
    ) -> Result<Reason, NoMemory> {
        let mut items = Vec::new(alloc);
        items.push(list)?;
        items.push(item)?;
        Ok(Reason { items, why })
    }
}

/// Returns the lines about the part of the event with this number, from 1, that failed a test, and
/// about that test.
pub(crate) fn reasons_of_event(
    alloc: Global,
    script: &Value,
    event: u64,
    refusal: Refusal,
) -> Result<String, NoMemory> {
    let Some(place) = usize::try_from(event).ok().and_then(|it| it.checked_sub(1)) else {
        return Ok(String::new(alloc));
    };
    let Some(event) = items_at(script, Field::Events).get(place) else {
        return Ok(String::new(alloc));
    };
    let parts = items(event);
    let reason = Event { script, parts }.why(alloc, refusal)?;
    let part = part_at(event, reason.items.as_slice());
    let found = cut(alloc, part.to_string(alloc)?)?;
    let keys = keys_to(alloc, place, reason.items.as_slice())?;
    let path = ShownPath {
        keys: keys.as_slice(),
    };
    let why = reason.why;
    Ok(format!(in alloc; "  where: {path}\n  found: {found}\n  why:   {why}\n")?)
}

/// Returns the value at the end of these items, as far as they lead.
fn part_at<'a>(event: &'a Value, items: &[usize]) -> &'a Value {
    let mut part = event;
    for item in items {
        part = match part.get(*item) {
            Some(next) => next,
            None => return part,
        };
    }
    part
}

/// Returns the keys of a part of an event.
fn keys_to(alloc: Global, place: usize, items: &[usize]) -> Result<Vec<Key>, NoMemory> {
    let mut keys = Vec::new(alloc);
    keys.push(Key::Member(Field::Events))?;
    keys.push(Key::Item(place))?;
    for item in items {
        keys.push(Key::Item(*item))?;
    }
    Ok(keys)
}

/// A refused event of a script.
#[derive(Clone, Copy)]
struct Event<'a> {
    script: &'a Value,
    /// Its word, and the items after it.
    parts: &'a [Value],
}

impl<'a> Event<'a> {
    /// Explains which of its tests failed.
    fn why(&self, alloc: Global, refusal: Refusal) -> Result<Reason, NoMemory> {
        match refusal {
            Refusal::NoWorker => self.why_no_worker(alloc),
            Refusal::NoSite => self.why_no_site(alloc),
            Refusal::NoPoint => self.why_no_point(alloc),
            Refusal::WrongType => self.why_wrong_type(alloc),
            Refusal::WrongLevel => self.why_wrong_level(alloc),
            Refusal::NoSnapshot => self.of_number(
                alloc,
                "no snapshot of this number was taken before",
            ),
            Refusal::NoPlan => self.of_number(alloc, "no plan of this number was published before"),
            Refusal::OldPlan(newest) => {
                let why = format!(in alloc;
                    "the newest plan is {newest}, and no other is installed"
                )?;
                Reason::of_item(alloc, 1, why)
            }
            Refusal::PlanRefused(fault) => {
                let why = format!(in alloc;
                    "it does not match the problem of the snapshot: {fault}"
                )?;
                Reason::of_item(alloc, 2, why)
            }
            Refusal::NoMemory
            | Refusal::HistoryFull
            | Refusal::LedgerFull
            | Refusal::TotalTooLarge
            | Refusal::GainTooLarge => Ok(Reason::of_event(alloc, self.why_full(alloc, refusal)?)),
        }
    }

    /// Explains which limit is reached.
    fn why_full(&self, alloc: Global, refusal: Refusal) -> Result<String, NoMemory> {
        Ok(match refusal {
            Refusal::HistoryFull => self.why_history_full(alloc)?,
            Refusal::LedgerFull => {
                let most = self.limit(Field::Ledger, u64::from(LARGEST_LEDGER));
                format!(in alloc;
                    "the hits of the link that the worker holds are at their limit, {most}; a flush takes them"
                )?
            }
            Refusal::TotalTooLarge => {
                let most = self.limit(Field::Total, LARGEST_TOTAL);
                format!(in alloc; "the worker's hits would take a total past its limit, {most}")?
            }
            Refusal::GainTooLarge => {
                format!(in alloc; "the gains of all links add up to more than {GREATEST_SUM}")?
            }
            _ => String::from_str(alloc, "memory ran out")?,
        })
    }

    fn why_history_full(&self, alloc: Global) -> Result<String, NoMemory> {
        let most = self.limit(Field::History, LONGEST_HISTORY);
        Ok(match self.word() {
            "snapshot" => format!(in alloc;
                "the history is at its limit, {most}, or the snapshots are, {MOST_SNAPSHOTS}"
            )?,
            "offer" | "plan" => format!(in alloc;
                "the history is at its limit, {most}, or the plans are, {MOST_PLANS}"
            )?,
            _ => format!(in alloc; "the history is at its limit, {most}")?,
        })
    }

    /// Returns a limit of the script, or the greatest if the script does not give one.
    fn limit(&self, field: Field, greatest: u64) -> u64 {
        self.script
            .get(Field::Limits.name())
            .and_then(|limits| limits.get(field.name()))
            .and_then(Value::as_u64)
            .unwrap_or(greatest)
    }

    fn word(&self) -> &'a str {
        self.parts.first().and_then(Value::as_str).unwrap_or("")
    }

    /// Returns the name at an item.
    fn name_at(&self, item: usize) -> &'a str {
        self.parts.get(item).and_then(Value::as_str).unwrap_or("")
    }

    fn definition(&self) -> Option<&'a Value> {
        self.script.get(Field::Definition.name())
    }

    /// Returns a reason about the number after the word.
    fn of_number(&self, alloc: Global, why: &str) -> Result<Reason, NoMemory> {
        Reason::of_item(alloc, 1, String::from_str(alloc, why)?)
    }

    fn why_no_worker(&self, alloc: Global) -> Result<Reason, NoMemory> {
        let workers = self.script.get(Field::Workers.name());
        let workers = workers.and_then(Value::as_u64).unwrap_or(0) as usize;
        Reason::of_item(alloc, 1, numbered(alloc, workers, "worker", "workers")?)
    }

    /// Returns the index of the name of the site, which comes after the worker in a call.
    fn place_of_site(&self) -> usize {
        if self.word() == "call" { 2 } else { 1 }
    }

    fn why_no_site(&self, alloc: Global) -> Result<Reason, NoMemory> {
        let place = self.place_of_site();
        let sites = names_of(alloc, self.script, Field::Sites)?;
        let why = why_unknown(alloc, self.name_at(place), &sites, "site", "sites")?;
        Reason::of_item(alloc, place, why)
    }

    fn why_no_point(&self, alloc: Global) -> Result<Reason, NoMemory> {
        let points = names_of(alloc, self.script, Field::Points)?;
        if self.word() == "target" {
            return self.why_no_point_in_tree(alloc, &points);
        }
        let names = self.parts.get(1).map_or(&[][..], items);
        for (i, name) in names.iter().enumerate() {
            let name = name.as_str().unwrap_or("");
            if !is_among(name, &points) {
                let why = why_unknown(alloc, name, &points, "point", "points")?;
                return Reason::of_item_in(alloc, 1, i, why);
            }
        }
        self.of_number(alloc, "")
    }

    fn why_no_point_in_tree(&self, alloc: Global, points: &[&str]) -> Result<Reason, NoMemory> {
        let mut why = String::new(alloc);
        if let Some(tree) = self.parts.get(2) {
            for name in named_behind(alloc, "point", tree)? {
                if why.is_empty() && !is_among(name, points) {
                    why = why_unknown(alloc, name, points, "point", "points")?;
                }
            }
        }
        Reason::of_item(alloc, 2, why)
    }

    /// Returns the site that the event names.
    fn site(&self) -> Option<Site<'a>> {
        Site::named(self.definition()?, self.name_at(self.place_of_site()))
    }

    fn why_wrong_type(&self, alloc: Global) -> Result<Reason, NoMemory> {
        let method_type = match self.site() {
            Some(site) => site.method_type()?,
            None => None,
        };
        let Some(method_type) = method_type else {
            return Ok(Reason::of_event(alloc, String::new(alloc)));
        };
        if self.word() == "target" {
            return self.why_other_type(alloc, &method_type);
        }
        self.why_unfit(alloc, &method_type)
    }

    /// Explains why the arguments of a call do not fit a type.
    fn why_unfit(&self, alloc: Global, method_type: &MethodType) -> Result<Reason, NoMemory> {
        let arguments = self.parts.get(3).map_or(&[][..], items);
        let parameters = method_type.parameters();
        if arguments.len() != parameters.len() {
            let wanted = counted(alloc, parameters.len(), "argument", "arguments")?;
            let found = arguments.len();
            let why = format!(in alloc;
                "a call of {method_type} has {wanted}, and this one {found}"
            )?;
            return Reason::of_item(alloc, 3, why);
        }
        for (i, (argument, wanted)) in arguments.iter().zip(parameters).enumerate() {
            if let Some(kind) = other_kind(alloc, argument, *wanted)? {
                let why = format!(in alloc;
                    "argument {i} is of kind {kind}, and parameter {i} of {method_type} is {wanted}"
                )?;
                return Reason::of_item_in(alloc, 3, i, why);
            }
        }
        Ok(Reason::of_event(alloc, String::new(alloc)))
    }

    /// Explains why a tree is not of its site's type.
    fn why_other_type(&self, alloc: Global, method_type: &MethodType) -> Result<Reason, NoMemory> {
        let why = match self.tree(alloc)? {
            Some(tree) => {
                let other = tree.handle().method_type();
                format!(in alloc; "the site is {method_type}, and this tree {other}")?
            }
            None => String::new(alloc),
        };
        Reason::of_item(alloc, 2, why)
    }

    /// Returns the tree of a retargeting.
    fn tree(&self, alloc: Global) -> Result<Option<Declared>, NoMemory> {
        let Some(tree) = self.parts.get(2) else {
            return Ok(None);
        };
        let path = [Key::Member(Field::Events)];
        match scope_at(alloc, self.script, &path, tree)? {
            Some(scope) => known(read_declared(alloc, &scope, tree)),
            None => Ok(None),
        }
    }

    fn why_wrong_level(&self, alloc: Global) -> Result<Reason, NoMemory> {
        let why = match (self.site(), self.parts.get(2)) {
            (Some(site), Some(tree)) => site.why_not_lower(alloc, tree)?,
            _ => None,
        };
        let name = quoted(alloc, self.name_at(1))?;
        let why = match why {
            Some(why) => format!(in alloc; "the site {name} {why}")?,
            None => String::new(alloc),
        };
        Reason::of_item(alloc, 2, why)
    }
}

/// Returns the kind of an argument, if it is not the kind that is expected.
fn other_kind(alloc: Global, argument: &Value, wanted: Kind) -> Result<Option<Kind>, NoMemory> {
    let Some(value) = known(read_value(alloc, Some(wanted), argument))? else {
        return Ok(None);
    };
    let kind = value.kind();
    Ok(if kind == wanted { None } else { Some(kind) })
}

/// Explains that nothing of this sort has a name.
fn why_unknown(
    alloc: Global,
    name: &str,
    known: &[&str],
    one: &str,
    many: &str,
) -> Result<String, NoMemory> {
    let shown = quoted(alloc, name)?;
    let others = meant(alloc, name, known, one, many)?;
    Ok(format!(in alloc; "no {one} has the name {shown}; {others}")?)
}
