//! Hits of links.

ghost use Rattle.std.specs.Prelude.{◌≡◌, ◌<◌, ℕ, length, slice_index_or, true, false, IfOk, IfSome, IfNone};
ghost use Rattle.std.specs.List.{position};
ghost use Rattle.mh_type.specs.Fits.{Fits};
ghost use Rattle.mh_type.specs.declared.value.Value.TheVariants.{Boolean};
ghost use Rattle.mh_site.specs.Defined.{site_at};
ghost use Rattle.mh_site.specs.Links.{links as links_of};
ghost use Rattle.mh_type.specs.Values.{same_value as values_same};
ghost use Rattle.mh_core.specs.Hits.{hits as is_hit};
ghost use Rattle.mh_core.specs.Records.{hits_in};

use mh_base::NoMemory;
use mh_site::{Definition, Link, Listing};
use mh_type::{Value, same_value};
use std::alloc::Global;

/// Returns the link that a call hits: the one of its site whose key is the argument at the key
/// position. At most four keys are compared.
pub fn hit_link(definition: &Definition, site: usize, arguments: &[Value]) -> Option<usize>
    requires inside { site < length definition.now.sites }
    requires fits { Fits (site_at definition.now site).method_type arguments.now }
    ensures hit { IfSome result (λ j. (j < length (links_of definition.now))
        × (is_hit definition.now site arguments.now j ≡ true)) }
    ensures alone { IfSome result (λ j. (i : ℕ) → is_hit definition.now site arguments.now i ≡ true
        → i ≡ j) }
    ensures none { IfNone result ((i : ℕ) → is_hit definition.now site arguments.now i ≡ false) }
{
    // Names the invariant of the definition for the proof.
    let _count = definition.link_count();
    let key = definition.key(site)?;
    let place = place_of(definition.links(site), argument(arguments, key))?;
    Some(definition.first_link(site) + place)
}

fn argument(arguments: &[Value], place: usize) -> &Value
    requires inside { place < length arguments.now }
    ensures value { result.now ≡ slice_index_or arguments.now place (Boolean false) }
{
    &arguments[place]
}

// Returns the index of the first link with this key.
fn place_of(links: &[Link], key: &Value) -> Option<usize>
    ensures value { result ≡ position (λ l. values_same l.when key.now) links.now }
{
    links.iter().position(|link| same_value(&link.when, key))
}

// Returns the links that were hit, each with its number of hits, given the number of hits of each
// link.
pub(crate) fn hits_of(alloc: Global, counts: &[u64]) -> Result<Listing<(usize, u64)>, NoMemory>
    ensures value { IfOk result (λ hits. hits ≡ hits_in counts.now) }
{
    let mut hits = Vec::new(alloc);
    for (link, count) in counts.iter().enumerate() {
        if *count != 0 {
            hits.push((link, *count))?;
        }
    }
    Ok(Listing::from_vec(hits))
}
