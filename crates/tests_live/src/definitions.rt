//! The definitions that the tests open, and the trees that they give to a site.

ghost use Rattle.std.specs.Prelude.{◌<◌, ◌≤◌};

use mh_core::Limits;
use mh_live::Opening;
use mh_site::{Definition, Link, Listing, Name, Point, Site, Version};
use mh_tree::{Declared, Handle};
use mh_type::{Kind, MethodType, Op, Value};
use std::alloc::Global;
use std::test::Fail;

/// Returns the tree that negates the argument: 1 step.
pub(crate) fn negation(alloc: Global) -> Result<Declared, Fail> {
    Ok(Declared::new(&Handle::op(alloc, Op::Ineg)?)?)
}

/// Returns the tree that adds one to the argument: 2 steps.
pub(crate) fn successor(alloc: Global) -> Result<Declared, Fail> {
    Ok(Declared::new(&with_one(alloc, Op::Iadd)?)?)
}

/// Returns a tree of the type (int,int)int.
pub(crate) fn sum(alloc: Global) -> Result<Declared, Fail> {
    Ok(Declared::new(&Handle::op(alloc, Op::Iadd)?)?)
}

/// Returns an operation with 1 inserted as its second argument.
fn with_one(alloc: Global, op: Op) -> Result<Handle, Fail> {
    let mut one = Vec::new(alloc);
    one.push(Value::Int(1))?;
    Ok(Handle::insert(alloc, &Handle::op(alloc, op)?, 1, &one)?)
}

/// Returns the tree that, while the point 0 is valid, returns 100 for 1 and one more for any other
/// int, and otherwise the argument negated.
fn guarded(alloc: Global) -> Result<Declared, Fail> {
    let hundred = Handle::constant(alloc, &Value::Int(100))?;
    let hundred = Handle::drop(alloc, &hundred, 0, &[Kind::Int])?;
    let equal = with_one(alloc, Op::Ieq)?;
    let guard = Handle::guard(alloc, &equal, &hundred, &with_one(alloc, Op::Iadd)?)?;
    let point = Handle::point(alloc, 0, &guard, &Handle::op(alloc, Op::Ineg)?)?;
    Ok(Declared::new(&point)?)
}

/// Returns the link of the calls with this key, with this weight, which needs these points.
fn link(alloc: Global, key: i32, weight: u64, needs: &[u32]) -> Result<Link, Fail> {
    Ok(Link {
        when: Value::Int(key),
        weight,
        charge: 0,
        needs: Listing::from_vec(Vec::from_slice(alloc, needs)?),
    })
}

fn point(alloc: Global, name: &str, cost: u64) -> Result<Point, Fail> {
    Ok(Point {
        name: Name::new(alloc, name)?,
        cost,
    })
}

/// Returns the list of a site f of the type (int)int with these links, whose keys are those of its
/// only argument.
fn site_of(alloc: Global, target: Declared, links: Vec<Link>) -> Result<Listing<Site>, Fail> {
    let mut sites = Listing::from_vec(Vec::new(alloc));
    sites.push(Site {
        name: Name::new(alloc, "f")?,
        method_type: MethodType::new(Kind::Int, &[Kind::Int])?,
        level: 0,
        key: Some(0),
        target,
        links: Listing::from_vec(links),
    })?;
    Ok(sites)
}

/// Returns the definition of no points, and of the negation with a link for 1 that gains 3.
pub(crate) fn plain(alloc: Global) -> Result<Definition, Fail> {
    let mut links = Vec::new(alloc);
    links.push(link(alloc, 1, 3, &[])?)?;
    let sites = site_of(alloc, negation(alloc)?, links)?;
    let made = Definition::new(
        alloc,
        Version::Two,
        Listing::from_vec(Vec::new(alloc)),
        sites,
    )?;
    Ok(made)
}

/// Returns a site of the type (int)int without links.
fn bare_site(alloc: Global, name: &str, level: u64, target: Declared) -> Result<Site, Fail> {
    Ok(Site {
        name: Name::new(alloc, name)?,
        method_type: MethodType::unary(Kind::Int, Kind::Int),
        level,
        key: None,
        target,
        links: Listing::from_vec(Vec::new(alloc)),
    })
}

/// Returns the invocation of a site of the type (int)int.
fn invocation(alloc: Global, site: u32) -> Result<Declared, Fail> {
    let method_type = MethodType::unary(Kind::Int, Kind::Int);
    Ok(Declared::new(&Handle::invoke(alloc, site, &method_type)?)?)
}

/// Returns the definition of a site f with a link for 1 that gains 3, which invokes g, which
/// invokes h, which negates.
fn invoking(alloc: Global) -> Result<Definition, Fail> {
    let mut links = Vec::new(alloc);
    links.push(link(alloc, 1, 3, &[])?)?;
    let mut sites = Vec::new(alloc);
    sites.push(Site {
        name: Name::new(alloc, "f")?,
        method_type: MethodType::unary(Kind::Int, Kind::Int),
        level: 2,
        key: Some(0),
        target: invocation(alloc, 1)?,
        links: Listing::from_vec(links),
    })?;
    sites.push(bare_site(alloc, "g", 1, invocation(alloc, 2)?)?)?;
    sites.push(bare_site(alloc, "h", 0, negation(alloc)?)?)?;
    let points = Listing::from_vec(Vec::new(alloc));
    let made = Definition::new(alloc, Version::Two, points, Listing::from_vec(sites))?;
    Ok(made)
}

/// Returns the points `a` of cost 5 and `b` of cost 7.
fn points(alloc: Global) -> Result<Listing<Point>, Fail> {
    let mut points = Listing::from_vec(Vec::new(alloc));
    points.push(point(alloc, "a", 5)?)?;
    points.push(point(alloc, "b", 7)?)?;
    Ok(points)
}

/// Returns the definition of two points, and of the guarded tree with a link for 1, which needs
/// `a`, and one for 2, which needs both.
fn pointed(alloc: Global) -> Result<Definition, Fail> {
    let mut links = Vec::new(alloc);
    links.push(link(alloc, 1, 3, &[0])?)?;
    links.push(link(alloc, 2, 1, &[0, 1])?)?;
    let sites = site_of(alloc, guarded(alloc)?, links)?;
    let made = Definition::new(alloc, Version::Two, points(alloc)?, sites)?;
    Ok(made)
}

/// Returns these limits.
fn limits(history: u64, ledger: u64, total: u64) -> Result<Limits, Fail> {
    match Limits::new(history, ledger, total) {
        Some(limits) => Ok(limits),
        None => Err(Fail::from("the limits are out of range")),
    }
}

/// Opens the negation for `workers` workers, with room for `history` events and `ledger` unflushed
/// hits.
pub(crate) fn open_plain(
    alloc: Global,
    workers: u32,
    history: u64,
    ledger: u64,
) -> Result<Opening, Fail>
    requires some { 0 < workers }
    requires few { workers ≤ 64 }
{
    let limits = limits(history, ledger, 1 << 30)?;
    Ok(Opening::new(alloc, &plain(alloc)?, workers, limits)?)
}

/// Opens the negation two invocations below the site 0, in the same way.
pub(crate) fn open_invoking(
    alloc: Global,
    workers: u32,
    history: u64,
    ledger: u64,
) -> Result<Opening, Fail>
    requires some { 0 < workers }
    requires few { workers ≤ 64 }
{
    let limits = limits(history, ledger, 1 << 30)?;
    Ok(Opening::new(alloc, &invoking(alloc)?, workers, limits)?)
}

/// Opens the guarded tree for two workers, with room for `history` events.
pub(crate) fn open_pointed(alloc: Global, history: u64) -> Result<Opening, Fail> {
    let limits = limits(history, 9, 9)?;
    Ok(Opening::new(alloc, &pointed(alloc)?, 2, limits)?)
}
