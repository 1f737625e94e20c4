//! Reports: the state of each point, site and link, with a line for each.
ghost use Rattle.std.specs.Prelude.{◌≡◌, ◌++◌, ◌<◌, ◌≤◌, string_bytes, length, map, slice_index_or, IfOk, OnOk};
ghost use Rattle.std.specs.List.{All, flat_map};
ghost use Rattle.mh_network.specs.Selection.{member};
ghost use Rattle.mh_site.specs.Links.{links as links_of, link_at, site_of};
ghost use Rattle.mh_core.specs.Installations.{kept};
ghost use Rattle.mh_core.specs.Records.{numbers};
ghost use Rattle.mh_text.specs.Report.{ended, most_unflushed, validity_text, yes_text, charge_text as charge_of, links_needing as needing, point_text as text_of_point, site_text as text_of_site, declared_text as text_declared, link_text as text_of_link, tables_text, unflushed_in, head_text as head_of, report_text};

use mh_base::Numbers;
use mh_core::{Book, Machine};
use std::alloc::{AllocError, Global};

/// Appends a line.
fn push_line(out: &mut String, text: &str) -> Result<(), AllocError>
    ensures value { OnOk result (string_bytes out.new ≡ string_bytes out.old ++ ended text.now) }
{
    out.push_str(text)?;
    out.push('\n')
}

fn validity(valid: bool) -> &'static str
    ensures value { result.now ≡ validity_text valid }
{
    if valid { "valid" } else { "invalid" }
}

fn yes(yes: bool) -> &'static str
    ensures value { result.now ≡ yes_text yes }
{
    if yes { "yes" } else { "no" }
}

/// Returns the text of the charge of a link, which is empty if the charge is 0.
fn charge_text(alloc: Global, charge: u64) -> Result<String, AllocError>
    ensures value { IfOk result (λ s. string_bytes s ≡ charge_of charge) }
{
    if charge == 0 {
        return Ok(String::new(alloc));
    }
    format!(in alloc; " charge {charge}")
}

/// Returns whether a link needs a point.
fn needs(book: &Book, link: usize, point: usize) -> bool
    requires inside { link < length (links_of book.now.definition) }
    ensures value { result ≡ member (link_at book.now.definition link).1.needs point }
{
    let needs = book.declared_link(link).needs.as_slice();
    needs.iter().any(|need| *need as usize == point)
}

/// Returns the links that need a point.
fn links_needing(alloc: Global, book: &Book, point: usize) -> Result<Vec<u32>, AllocError>
    ensures value { IfOk result (λ v. v.items ≡ needing book.now.definition point) }
{
    let mut links = Vec::new(alloc);
    for link in 0..book.definition().link_count() {
        if needs(book, link, point) {
            links.push(link as u32)?;
        }
    }
    Ok(links)
}

/// Returns the line of a point, without its end.
fn point_text(alloc: Global, book: &Book, point: usize) -> Result<String, AllocError>
    requires inside { point < length book.now.definition.points }
    ensures value { IfOk result (λ s. string_bytes s
        ≡ text_of_point book.now.definition book.now.records point) }
{
    let definition = book.definition();
    let name = definition.point_name(point);
    let cost = definition.cost(point);
    let validity = validity(book.is_valid(point));
    let needing = links_needing(alloc, book, point)?;
    let links = Numbers {
        numbers: needing.as_slice(),
    };
    format!(in alloc; "point {name} cost {cost} {validity} links {links}")
}

/// Returns the line of a site, without its end.
fn site_text(alloc: Global, book: &Book, site: usize) -> Result<String, AllocError>
    requires inside { site < length book.now.definition.sites }
    ensures value { IfOk result (λ s. string_bytes s
        ≡ text_of_site book.now.definition book.now.records site) }
{
    let definition = book.definition();
    let name = definition.site_name(site);
    let method_type = definition.method_type(site);
    let retargeted = book.retargetings(site);
    let installed = book.installed(site).len();
    format!(in alloc;
        "site {name} type {method_type} retargeted {retargeted} installed {installed}"
    )
}

/// Returns whether a link's site holds it.
fn is_installed(book: &Book, link: usize) -> bool
    requires inside { link < length (links_of book.now.definition) }
    ensures value { result ≡ member (kept book.now.definition book.now.records
        (site_of book.now.definition link)) link }
{
    let site = book.definition().site_of(link);
    book.installed(site).iter().any(|held| *held == link)
}

/// Returns the declared parts of a link, with which its line begins.
fn declared_text(alloc: Global, book: &Book, link: usize) -> Result<String, AllocError>
    requires inside { link < length (links_of book.now.definition) }
    ensures value { IfOk result (λ s. string_bytes s
        ≡ text_declared book.now.definition link) }
{
    let definition = book.definition();
    let site = definition.site_name(definition.site_of(link));
    let declared = book.declared_link(link);
    let (when, weight) = (&declared.when, declared.weight);
    format!(in alloc; "link {link} site {site} when {when} weight {weight}")
}

/// Returns the line of a link, without its end.
fn link_text(alloc: Global, book: &Book, link: usize, unflushed: u128) -> Result<String, AllocError>
    requires inside { link < length (links_of book.now.definition) }
    requires few { unflushed ≤ most_unflushed }
    ensures value { IfOk result (λ s. string_bytes s
        ≡ text_of_link book.now.definition book.now.records unflushed link) }
{
    let declared = declared_text(alloc, book, link)?;
    let (flushed, rest) = (book.total(link), unflushed);
    let hits = u128::from(flushed) + unflushed;
    let gain = book.gain(link);
    let held = yes(is_installed(book, link));
    let charge = charge_text(alloc, book.declared_link(link).charge)?;
    format!(in alloc;
        "{declared} hits {hits} flushed {flushed} unflushed {rest} gain {gain} installed {held}{charge}"
    )
}

/// Appends the line of each point.
fn push_points(out: &mut String, alloc: Global, book: &Book) -> Result<(), AllocError>
    ensures value { OnOk result (string_bytes out.new ≡ string_bytes out.old
        ++ flat_map (λ p. ended (text_of_point book.now.definition book.now.records p))
        (numbers (length book.now.definition.points))) }
{
    for point in 0..book.definition().points().len() {
        push_line(out, point_text(alloc, book, point)?.as_str())?;
    }
    Ok(())
}

/// Appends the line of each site.
fn push_sites(out: &mut String, alloc: Global, book: &Book) -> Result<(), AllocError>
    ensures value { OnOk result (string_bytes out.new ≡ string_bytes out.old
        ++ flat_map (λ s. ended (text_of_site book.now.definition book.now.records s))
        (numbers (length book.now.definition.sites))) }
{
    for site in 0..book.definition().sites().len() {
        push_line(out, site_text(alloc, book, site)?.as_str())?;
    }
    Ok(())
}

/// Appends the line of each link.
fn push_links(
    out: &mut String,
    alloc: Global,
    book: &Book,
    unflushed: &[u128],
) -> Result<(), AllocError>
    requires links { length unflushed.now ≡ length (links_of book.now.definition) }
    requires few { All (λ n. n ≤ most_unflushed) unflushed.now }
    ensures value { OnOk result (string_bytes out.new ≡ string_bytes out.old
        ++ flat_map (λ j. ended (text_of_link book.now.definition book.now.records
        (slice_index_or unflushed.now j 0) j)) (numbers (length (links_of book.now.definition)))) }
{
    for link in 0..unflushed.len() {
        push_line(out, link_text(alloc, book, link, unflushed[link])?.as_str())?;
    }
    Ok(())
}

/// Appends a line for each point, site and link of a book, in their order, given the number of
/// unflushed hits of each link: `point a cost 5 valid links 0,1`, then `site f type (int)int
/// retargeted 0 installed 1`, then `link 0 site f when int 1 weight 3 hits 3 flushed 2 unflushed 1
/// gain 6 installed yes`, followed by ` charge 4` if the link has a charge. O(points * links).
pub fn push_tables(
    out: &mut String,
    alloc: Global,
    book: &Book,
    unflushed: &[u128],
) -> Result<(), AllocError>
    requires links { length unflushed.now ≡ length (links_of book.now.definition) }
    requires few { All (λ n. n ≤ most_unflushed) unflushed.now }
    ensures value { OnOk result (string_bytes out.new ≡ string_bytes out.old
        ++ tables_text book.now.definition book.now.records unflushed.now) }
{
    push_points(out, alloc, book)?;
    push_sites(out, alloc, book)?;
    push_links(out, alloc, book, unflushed)
}

/// Returns for each link the hits that the workers of a machine have not flushed.
fn unflushed_hits(alloc: Global, machine: &Machine) -> Result<Vec<u128>, AllocError>
    ensures value { IfOk result (λ v. v.items ≡ unflushed_in machine.now) }
    ensures few { IfOk result (λ v. All (λ n. n ≤ most_unflushed) v.items) }
{
    let mut unflushed = Vec::new(alloc);
    for link in 0..machine.book().definition().link_count() {
        unflushed.push(machine.unflushed(link))?;
    }
    Ok(unflushed)
}

/// Returns the first line, without its end.
fn head_text(alloc: Global, machine: &Machine) -> Result<String, AllocError>
    ensures value { IfOk result (λ s. string_bytes s ≡ head_of machine.now) }
{
    let calls = machine.calls();
    let events = machine.accepted();
    let snapshots = machine.book().snapshot_count();
    let plans = machine.book().plan_count();
    format!(in alloc; "report calls {calls} events {events} snapshots {snapshots} plans {plans}")
}

/// Returns the report of a machine: `report calls 4 events 9 snapshots 1 plans 1`, and the lines of
/// its book (see `push_tables`). Fails only if an allocation is refused.
pub fn report_lines(alloc: Global, machine: &Machine) -> Result<String, AllocError>
    ensures value { IfOk result (λ s. string_bytes s ≡ report_text machine.now) }
{
    let mut lines = String::new(alloc);
    push_line(&mut lines, head_text(alloc, machine)?.as_str())?;
    let unflushed = unflushed_hits(alloc, machine)?;
    push_tables(&mut lines, alloc, machine.book(), &unflushed)?;
    Ok(lines)
}
