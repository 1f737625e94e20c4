//! The sites of a script, and their names.
ghost use Rattle.std.specs.Prelude.{◌≡◌, IfErr, OnErr, OnOk};
ghost use Rattle.serde_json.specs.View.{view};
ghost use Rattle.mh_json.specs.declared.fault.InputFault.TheVariants.{NoMemory};
ghost use Rattle.mh_json.specs.Gives.{Gives};
ghost use Rattle.mh_json.specs.Script.{place_or_none, key_kind as kind_of_key, linked_of, none_sited, one_sited, site_of, sites_in, sites_of};

use crate::fault::InputFault;
use crate::json::links::read_links;
use crate::json::points::read_name;
use crate::json::scope::Scope;
use crate::json::shape::{amount, list, member, member_or, part, place};
use crate::json::trees::read_declared;
use crate::json::values::{kind_at, read_type};
use crate::json::wanted::Wanted;
use crate::key::{Field, Key};
use crate::misread::{Misread, at};
use mh_site::{GREATEST_LEVEL, Link, Listing, Site, Version};
use mh_type::{Kind, MethodType};
use serde_json::Value;
use std::alloc::Global;

/// Reads an index, or `null` for none.
pub fn read_place_or_none(value: &Value) -> Result<Option<usize>, Misread>
    ensures value { Gives (λ x. x) result (place_or_none (view value.now)) }
{
    if value.is_null() {
        return Ok(None);
    }
    Ok(Some(place(value, Wanted::KeyPlace)?))
}

/// Returns the kind of the parameter at the key position, or `None` without one.
pub fn key_kind(method_type: &MethodType, key: Option<usize>) -> Option<Kind>
    ensures value { result ≡ kind_of_key method_type.now key }
{
    kind_at(method_type.parameters(), key?)
}

/// Reads the links of a site, whose keys have this kind. The key `links` is optional.
#[tactic(auto, unfolding(crate::specs::Script::linked_of))]
fn read_linked(
    alloc: Global,
    version: Version,
    scope: &Scope,
    kind: Option<Kind>,
    site: &Value,
) -> Result<Listing<Link>, Misread>
    ensures value { Gives (λ x. x) result (linked_of version scope.now.points kind
        (view site.now)) }
{
    let none = Listing::from_vec(Vec::new(alloc));
    member_or(
        alloc,
        site,
        Field::Links,
        none,
        |links| read_links(alloc, version, scope, kind, links),
    )
}

/// Reads a site: its name, its type, its level, its key position, its target and its links.
pub fn read_site(
    alloc: Global,
    version: Version,
    scope: &Scope,
    value: &Value,
) -> Result<Site, Misread>
    ensures value { Gives (λ x. x) result (site_of version scope.now (view value.now)) }
{
    let name = member(alloc, value, Field::Name, |name| read_name(alloc, name))?;
    let method_type = member(alloc, value, Field::Type, read_type)?;
    let level = member_or(
        alloc,
        value,
        Field::Level,
        0,
        |level| amount(level, GREATEST_LEVEL),
    )?;
    let key = member_or(alloc, value, Field::Key, None, read_place_or_none)?;
    let target = member(
        alloc,
        value,
        Field::Target,
        |tree| read_declared(alloc, scope, tree),
    )?;
    let links = read_linked(alloc, version, scope, key_kind(&method_type, key), value)?;
    Ok(Site {
        name,
        method_type,
        level,
        key,
        target,
        links,
    })
}

/// The sites of a definition read so far, and the names that later trees may use.
#[derive(Drop)]
pub struct Sited {
    pub scope: Scope,
    pub sites: Listing<Site>,
}

impl Sited {
    /// Returns a list without sites.
    pub fn new(alloc: Global, scope: Scope) -> Sited
        ensures value { result ≡ none_sited scope }
    {
        Sited {
            scope,
            sites: Listing::from_vec(Vec::new(alloc)),
        }
    }

    /// Appends a site. If memory runs out, nothing changes.
    pub fn add(&mut self, site: Site) -> Result<(), Misread>
        ensures value { OnOk result (self.new ≡ one_sited self.old site) }
        ensures refused { IfErr result (λ e. e.fault ≡ NoMemory) }
        ensures kept { OnErr result (self.new ≡ self.old) }
    {
        let at = self.sites.len();
        self.sites.push(site)?;
        if self.scope.add_site(&self.sites.as_slice()[at]).is_err() {
            self.sites.items.pop();
            return Err(Misread::of(InputFault::NoMemory));
        }
        Ok(())
    }
}

/// Reads the sites of a definition. The target of each may invoke the sites before it.
pub fn read_sites(
    alloc: Global,
    version: Version,
    scope: Scope,
    value: &Value,
) -> Result<Sited, Misread>
    ensures value { Gives (λ x. x) result (sites_of version scope (view value.now)) }
{
    let sites = list(value, Wanted::List)?;
    let mut sited = Sited::new(alloc, scope);
    for (i, site) in sites.iter().enumerate() {
        let read = at(
            alloc,
            Key::Item(i),
            read_site(alloc, version, &sited.scope, site),
        )?;
        sited.add(read)?;
    }
    Ok(sited)
}

/// Reads the sites of a definition, at the key `sites`.
pub fn read_site_list(
    alloc: Global,
    version: Version,
    scope: Scope,
    definition: &Value,
) -> Result<Sited, Misread>
    ensures value { Gives (λ x. x) result (sites_in version scope (view definition.now)) }
{
    let sites = part(definition, Field::Sites)?;
    at(
        alloc,
        Key::Member(Field::Sites),
        read_sites(alloc, version, scope, sites),
    )
}
