//! Explanations of definitions that are not lawful.
use crate::scope::scope_at;
use crate::spot::Spot;
use crate::values::{items, items_at, known, named_behind, version_of};
use crate::why::names::{is_among, names_in, why_unlawful};
use crate::words::{meant, quoted, why_too_many};
use mh_base::NoMemory;
use mh_json::readers::{place, read_declared, read_type, read_value};
use mh_json::{Field, Key, Wanted};
use mh_site::{
    DefinitionFault, GREATEST_CHARGE, GREATEST_COST, GREATEST_LEVEL, GREATEST_WEIGHT, MOST_LINKS,
    MOST_NEEDS, Version,
};
use mh_type::{Kind, MethodType, same_value};
use serde_json::Value;
use std::alloc::Global;

/// Explains why a definition is not lawful, by the part that has the fault.
pub(crate) fn why_definition(
    alloc: Global,
    cause: DefinitionFault,
    spot: &Spot<'_>,
) -> Result<String, NoMemory> {
    let Some(definition) = spot.input.get(Field::Definition.name()) else {
        return Ok(String::new(alloc));
    };
    match spot.path {
        [_, Key::Member(Field::Sites), Key::Item(number), ..] => {
            let site = Site {
                definition,
                number: *number,
            };
            site.why(alloc, cause, spot)
        }
        [_, Key::Member(Field::Points), Key::Item(number), ..] => {
            why_point(alloc, cause, definition, *number, spot.value)
        }
        [_, Key::Member(list)] => why_long(alloc, *list, definition, items(spot.value).len()),
        _ => Ok(String::new(alloc)),
    }
}

/// Explains that there are too many points or sites.
fn why_long(
    alloc: Global,
    list: Field,
    definition: &Value,
    found: usize,
) -> Result<String, NoMemory> {
    let version = version_of(Some(definition))?;
    let (what, most, later) = match list {
        Field::Points => ("points", version.most_points(), Version::Two.most_points()),
        _ => ("sites", version.most_sites(), Version::Two.most_sites()),
    };
    why_too_many(alloc, what, found, most, later)
}

/// Returns the name of an item of a list.
fn name_of(item: &Value) -> &str {
    item.get(Field::Name.name())
        .and_then(Value::as_str)
        .unwrap_or("")
}

/// Explains that an item of a list has the name of an earlier one, with both numbers.
fn why_name_twice(
    alloc: Global,
    list: Field,
    items: &[Value],
    item: usize,
) -> Result<String, NoMemory> {
    let name = items.get(item).map(name_of);
    let one = items.iter().position(|other| Some(name_of(other)) == name);
    let (list, one) = (list.name(), one.unwrap_or(item));
    Ok(format!(in alloc; "{list}[{one}] and {list}[{item}] have one name")?)
}

/// Explains why a point is not lawful, by this part of it.
fn why_point(
    alloc: Global,
    cause: DefinitionFault,
    definition: &Value,
    number: usize,
    part: &Value,
) -> Result<String, NoMemory> {
    let points = items_at(definition, Field::Points);
    match cause {
        DefinitionFault::NameTwice => why_name_twice(alloc, Field::Points, points, number),
        DefinitionFault::BadName => {
            let why = why_unlawful(alloc, part.as_str().unwrap_or(""))?;
            Ok(format!(in alloc; "a point: {why}")?)
        }
        DefinitionFault::CostTooLarge => {
            let name = quoted(alloc, points.get(number).map_or("", name_of))?;
            let cost = number_of(part);
            Ok(format!(in alloc; "the point {name} costs {cost}, past {GREATEST_COST}")?)
        }
        _ => Ok(String::new(alloc)),
    }
}

fn number_of(value: &Value) -> u64 {
    value.as_u64().unwrap_or(0)
}

/// A site of a definition.
#[derive(Clone, Copy)]
pub(crate) struct Site<'a> {
    definition: &'a Value,
    number: usize,
}

impl<'a> Site<'a> {
    /// Returns the first site with a name.
    pub(crate) fn named(definition: &'a Value, name: &str) -> Option<Site<'a>> {
        let sites = items_at(definition, Field::Sites);
        let number = sites.iter().position(|site| name_of(site) == name)?;
        Some(Site { definition, number })
    }

    /// Explains why the site is not lawful.
    fn why(
        &self,
        alloc: Global,
        cause: DefinitionFault,
        spot: &Spot<'_>,
    ) -> Result<String, NoMemory> {
        match cause {
            DefinitionFault::NameTwice => {
                why_name_twice(alloc, Field::Sites, self.sites(), self.number)
            }
            DefinitionFault::BadName => {
                let why = why_unlawful(alloc, spot.value.as_str().unwrap_or(""))?;
                Ok(format!(in alloc; "a site: {why}")?)
            }
            _ => match self.why_part(alloc, cause, spot)? {
                Some(why) => {
                    let name = quoted(alloc, self.value().map_or("", name_of))?;
                    Ok(format!(in alloc; "the site {name} {why}")?)
                }
                None => Ok(String::new(alloc)),
            },
        }
    }

    fn sites(&self) -> &'a [Value] {
        items_at(self.definition, Field::Sites)
    }

    fn value(&self) -> Option<&'a Value> {
        self.sites().get(self.number)
    }

    /// Returns the value of the site's key.
    fn part(&self, field: Field) -> Option<&'a Value> {
        self.value()?.get(field.name())
    }

    fn level(&self) -> u64 {
        self.part(Field::Level).map_or(0, number_of)
    }

    /// Returns the site's type, if it can be read.
    pub(crate) fn method_type(&self) -> Result<Option<MethodType>, NoMemory> {
        match self.part(Field::Type) {
            Some(text) => known(read_type(text)),
            None => Ok(None),
        }
    }

    /// Explains what is wrong with a part of the site.
    fn why_part(
        &self,
        alloc: Global,
        cause: DefinitionFault,
        spot: &Spot<'_>,
    ) -> Result<Option<String>, NoMemory> {
        match spot.path {
            [_, _, _, Key::Member(Field::Links), Key::Item(link), ..] => {
                self.why_link(alloc, cause, *link, spot.value)
            }
            [_, _, _, Key::Member(Field::Links)] => {
                let links = items(spot.value).len();
                Ok(Some(format!(in alloc; "has {links} links, and at most {MOST_LINKS} may be")?))
            }
            [_, _, _, Key::Member(Field::Level)] => {
                let level = self.level();
                Ok(Some(format!(in alloc; "has level {level}, past {GREATEST_LEVEL}")?))
            }
            [_, _, _, Key::Member(Field::Target)] => self.why_target(alloc, cause, spot),
            _ => self.why_no_place(alloc),
        }
    }

    /// Explains why the key position is not valid.
    fn why_no_place(&self, alloc: Global) -> Result<Option<String>, NoMemory> {
        let Some(place) = self.part(Field::Key).and_then(Value::as_u64) else {
            return Ok(Some(String::from_str(
                alloc,
                "has links, and no \"key\", the place of the parameter that tells them apart",
            )?));
        };
        let Some(method_type) = self.method_type()? else {
            return Ok(None);
        };
        Ok(Some(format!(in alloc;
            "has the key place {place}, past the parameters of {method_type}"
        )?))
    }

    fn why_target(
        &self,
        alloc: Global,
        cause: DefinitionFault,
        spot: &Spot<'_>,
    ) -> Result<Option<String>, NoMemory> {
        match cause {
            DefinitionFault::NoPoint => {
                let names = named_behind(alloc, "point", spot.value)?;
                self.why_no_point(alloc, &names)
            }
            DefinitionFault::TypeMismatch => self.why_other_type(alloc, spot),
            DefinitionFault::WrongLevel => self.why_not_lower(alloc, spot.value),
            _ => Ok(None),
        }
    }

    fn why_other_type(&self, alloc: Global, spot: &Spot<'_>) -> Result<Option<String>, NoMemory> {
        let Some(scope) = scope_at(alloc, spot.input, spot.path, spot.value)? else {
            return Ok(None);
        };
        let target = known(read_declared(alloc, &scope, spot.value))?;
        let (Some(own), Some(target)) = (self.method_type()?, target) else {
            return Ok(None);
        };
        let target = target.handle().method_type();
        Ok(Some(format!(in alloc; "is {own}, and its target {target}")?))
    }

    /// Explains that a target invokes a site that is not of a lower level, by the first such site.
    pub(crate) fn why_not_lower(
        &self,
        alloc: Global,
        target: &Value,
    ) -> Result<Option<String>, NoMemory> {
        let own = self.level();
        for name in named_behind(alloc, "invoke", target)? {
            if let Some(other) = Site::named(self.definition, name) {
                let level = other.level();
                if level >= own {
                    let shown = quoted(alloc, name)?;
                    return Ok(Some(format!(in alloc;
                        "of level {own} invokes {shown} of level {level}, which has to be lower"
                    )?));
                }
            }
        }
        Ok(None)
    }

    /// Explains that a name is not that of a point, by the first such name.
    fn why_no_point(&self, alloc: Global, names: &[&str]) -> Result<Option<String>, NoMemory> {
        let points = names_in(alloc, self.definition, Field::Points)?;
        for name in names {
            if !is_among(name, &points) {
                let others = meant(alloc, name, &points, "point", "points")?;
                let shown = quoted(alloc, name)?;
                return Ok(Some(format!(in alloc;
                    "names the point {shown}, which is not there; {others}"
                )?));
            }
        }
        Ok(None)
    }

    /// Explains what is wrong with a link, or with this part of it.
    fn why_link(
        &self,
        alloc: Global,
        cause: DefinitionFault,
        link: usize,
        part: &Value,
    ) -> Result<Option<String>, NoMemory> {
        match cause {
            DefinitionFault::NoPoint => self.why_no_point(alloc, &texts_in(alloc, part)?),
            DefinitionFault::KeyMismatch => self.why_other_kind(alloc, link, part),
            DefinitionFault::KeyTwice => self.why_key_twice(alloc, link),
            _ => match why_many(alloc, cause, part)? {
                Some(why) => Ok(Some(format!(in alloc; "has {why} in links[{link}]")?)),
                None => Ok(None),
            },
        }
    }

    /// Explains that the key of a link is not of the kind of the parameter at the key position.
    fn why_other_kind(
        &self,
        alloc: Global,
        link: usize,
        when: &Value,
    ) -> Result<Option<String>, NoMemory> {
        let place = self.part(Field::Key).map_or(0, number_of);
        let (Some(method_type), Some(wanted)) = (self.method_type()?, self.key_kind()?) else {
            return Ok(None);
        };
        let Some(key) = known(read_value(alloc, Some(wanted), when))? else {
            return Ok(None);
        };
        let kind = key.kind();
        Ok(Some(format!(in alloc;
            "has a key of kind {kind} in links[{link}], and parameter {place} of {method_type} is {wanted}"
        )?))
    }

    /// Returns the kind of the parameter at the key position.
    fn key_kind(&self) -> Result<Option<Kind>, NoMemory> {
        let place = self
            .part(Field::Key)
            .and_then(|key| place(key, Wanted::KeyPlace).ok());
        let (Some(place), Some(method_type)) = (place, self.method_type()?) else {
            return Ok(None);
        };
        Ok(method_type.parameters().get(place).copied())
    }

    /// Explains that a link has the key of an earlier one, with both numbers.
    fn why_key_twice(&self, alloc: Global, link: usize) -> Result<Option<String>, NoMemory> {
        let kind = self.key_kind()?;
        let Some(links) = self.part(Field::Links).map(items) else {
            return Ok(None);
        };
        let Some(key) = links.get(link).map(|link| key_of(alloc, kind, link)) else {
            return Ok(None);
        };
        let Some(key) = key? else {
            return Ok(None);
        };
        for (i, earlier) in links.iter().enumerate() {
            if let Some(other) = key_of(alloc, kind, earlier)? {
                if same_value(&other, &key) {
                    return Ok(Some(format!(in alloc;
                        "has one key in links[{i}] and links[{link}]"
                    )?));
                }
            }
        }
        Ok(None)
    }
}

/// Returns whether the first site with a name has links.
pub(crate) fn has_links(script: &Value, name: &str) -> bool {
    let Some(definition) = script.get(Field::Definition.name()) else {
        return false;
    };
    match Site::named(definition, name).and_then(|site| site.part(Field::Links)) {
        Some(links) => !items(links).is_empty(),
        None => false,
    }
}

/// Returns the key of a link.
fn key_of(
    alloc: Global,
    kind: Option<Kind>,
    link: &Value,
) -> Result<Option<mh_type::Value>, NoMemory> {
    match link.get(Field::When.name()) {
        Some(when) => known(read_value(alloc, kind, when)),
        None => Ok(None),
    }
}

/// Explains that a part of a link exceeds its limit.
fn why_many(
    alloc: Global,
    cause: DefinitionFault,
    part: &Value,
) -> Result<Option<String>, NoMemory> {
    let number = number_of(part);
    Ok(match cause {
        DefinitionFault::TooManyNeeds => {
            let needs = items(part).len();
            Some(format!(in alloc; "{needs} needs, more than {MOST_NEEDS},")?)
        }
        DefinitionFault::WeightTooLarge => {
            Some(format!(in alloc; "the weight {number}, past {GREATEST_WEIGHT},")?)
        }
        DefinitionFault::ChargeTooLarge => {
            Some(format!(in alloc; "the charge {number}, past {GREATEST_CHARGE},")?)
        }
        DefinitionFault::NeedTwice => match twice(&texts_in(alloc, part)?) {
            Some(name) => {
                let name = quoted(alloc, name)?;
                Some(format!(in alloc; "the need {name} twice")?)
            }
            None => None,
        },
        _ => None,
    })
}

/// Returns the texts in a list.
fn texts_in(alloc: Global, list: &Value) -> Result<Vec<&str>, NoMemory> {
    let mut texts = Vec::new(alloc);
    for item in items(list) {
        if let Some(text) = item.as_str() {
            texts.push(text)?;
        }
    }
    Ok(texts)
}

/// Returns the first text that also occurs before.
fn twice<'a>(texts: &[&'a str]) -> Option<&'a str> {
    for (i, text) in texts.iter().enumerate() {
        if is_among(text, &texts[..i]) {
            return Some(text);
        }
    }
    None
}
