//! Numbers of names and keys.

ghost use Rattle.std.specs.Prelude.{◌≡◌, ◌<◌, ℕ, length, slice_index_or, IfErr, IfOk, IfNone, IfSome};
ghost use Rattle.mh_core.specs.Defined.{no_link};
ghost use Rattle.mhlink_c.specs.Questions.{HasNoLink, IsLink, IsPoint, IsSite};
ghost use Rattle.mhlink_c.specs.declared.failure.Failure.TheVariants.{Unknown};

use crate::failure::Failure;
use mh_core::{Definition, Link, Value};
use mh_type::same_value;

/// Returns the number of the site with this name.
pub(crate) fn site_number(definition: &Definition, name: &[u8]) -> Result<u64, Failure>
    ensures value { IfOk result (IsSite definition.now name.now) }
    ensures unknown { IfErr result (λ e. (e ≡ Unknown)
        × ((s : ℕ) → IsSite definition.now name.now s → ⊥)) }
{
    for site in 0..definition.sites().len() {
        if definition.site_name(site).as_bytes() == name {
            return Ok(site as u64);
        }
    }
    Err(Failure::Unknown)
}

/// Returns the number of the point with this name.
pub(crate) fn point_number(definition: &Definition, name: &[u8]) -> Result<u64, Failure>
    ensures value { IfOk result (IsPoint definition.now name.now) }
    ensures unknown { IfErr result (λ e. (e ≡ Unknown)
        × ((p : ℕ) → IsPoint definition.now name.now p → ⊥)) }
{
    for point in 0..definition.points().len() {
        if definition.point_name(point).as_bytes() == name {
            return Ok(point as u64);
        }
    }
    Err(Failure::Unknown)
}

/// Returns the number of a site's link with this key.
pub(crate) fn link_number(definition: &Definition, site: usize, key: &Value) -> Result<u64, Failure>
    ensures value { IfOk result (IsLink definition.now site key.now) }
    ensures unknown { IfErr result (λ e. (e ≡ Unknown) × HasNoLink definition.now site key.now) }
{
    if site >= definition.sites().len() {
        return Err(Failure::Unknown);
    }
    // Reading it names the definition's invariants for the proof.
    let _count = definition.link_count();
    match place_of(definition.links(site), key) {
        Some(place) => Ok((definition.first_link(site) + place) as u64),
        None => Err(Failure::Unknown),
    }
}

// Returns the index of the first link with this key.
fn place_of(links: &[Link], key: &Value) -> Option<usize>
    ensures inside { IfSome result (λ k. k < length links.now) }
    ensures key { IfSome result (λ k. (slice_index_or links.now k no_link).when ≡ key.now) }
    ensures none { IfNone result ((k : ℕ) → k < length links.now
        → (slice_index_or links.now k no_link).when ≡ key.now → ⊥) }
{
    for (place, link) in links.iter().enumerate() {
        if same_value(&link.when, key) {
            return Some(place);
        }
    }
    None
}
