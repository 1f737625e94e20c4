//! The functions of a desk. The host orders their calls by a lock of its own.

ghost use Rattle.std.specs.Prelude.{◌≡◌, ◌≢◌, ◌<◌, ℕ, Some, None, length, true, IfErr, IfOk, OnErr, OnOk};
ghost use Rattle.mh_core.specs.Installations.{kept};
ghost use Rattle.mh_core.specs.Ledgers.{at};
ghost use Rattle.mh_core.specs.Records.{plans, snapshots};
ghost use Rattle.mh_core.specs.Value.{Value as AnyValue};
ghost use Rattle.mh_core.specs.declared.record.Record.TheVariants.{Invalidated, Snapped, Installed};
ghost use Rattle.mh_ledger.specs.Ledgers.{settled};
ghost use Rattle.mhlink_c.specs.Callers.{with_ledger};
ghost use Rattle.mhlink_c.specs.Changes.{Installs, MakesChange, PublishesBest, PublishesOffer, RefusesBest, RefusesChange, RefusesInvalidation, RefusesOffer, RefusesRecord, RefusesTarget, Retargets, TakesSnapshot};
ghost use Rattle.mhlink_c.specs.Crossing.{IsValue};
ghost use Rattle.mhlink_c.specs.Details.{detail_at};
ghost use Rattle.mhlink_c.specs.Desks.{DeskFlushes, DeskRecords, Holds, RefusesDeskFlush, shows};
ghost use Rattle.mhlink_c.specs.Questions.{IsLink, IsPoint, IsSite, IsUnknown, IsUnknownLink, Tells};
ghost use Rattle.mhlink_c.specs.Renewals.{IsUsed};
ghost use Rattle.mhlink_c.specs.Statuses.{no_memory, part_of, status_of};
ghost use Rattle.mhlink_c.specs.declared.failure.Failure.{Failure as FaultOf};
ghost use Rattle.mhlink_c.specs.declared.failure.Failure.TheVariants.{Unknown};

use crate::books::answer;
use crate::caller_handle::MhlinkCaller;
use crate::desk_handle::MhlinkDesk;
use crate::failure::{Failure, status, write_answer, write_change};
use crate::renewing::{MhlinkUsed, used_of};
use crate::request::{Change, Question};
use crate::value::MhlinkValue;
use core::mem::{replace, replace_with};
use std::alloc::Global;

// Writes the answer to a query to `out`, if there is an answer.
fn look_up(alloc: Global, desk: &mut MhlinkDesk, question: Question<'_>, out: &mut u64) -> u32
    requires full { desk.old.full ≡ true }
    ensures full { desk.new.full ≡ true }
    ensures same { desk.new.value ≡ desk.old.value }
    ensures tells { result ≡ 0 → Tells desk.old.value.desk.book question.entry out.new }
    ensures unknown { result ≢ 0 → (e : FaultOf) × ((result ≡ status_of e)
        × IsUnknown desk.old.value.desk.book question.entry e) }
    ensures untouched { result ≢ 0 → out.new ≡ out.old }
{
    write_answer(replace_with(desk, (alloc, question), look_held), out)
}

fn look_held(desk: MhlinkDesk, asked: (Global, Question<'_>)) -> (MhlinkDesk, Result<u64, Failure>)
    requires full { desk.full ≡ true }
    ensures full { result.0.full ≡ true }
    ensures same { result.0.value ≡ desk.value }
    ensures tells { IfOk result.1 (λ n. Tells desk.value.desk.book asked.entry.1 n) }
    ensures unknown { IfErr result.1 (IsUnknown desk.value.desk.book asked.entry.1) }
{
    let held = desk.into_box();
    let (alloc, question) = asked;
    let answer = answer(alloc, held.desk.book(), question);
    (MhlinkDesk::of(held), answer)
}

// Makes a change. Writes its answer to `out` if there is one, and otherwise its fault's detail to
// `part`.
fn make_change(
    alloc: Global,
    desk: &mut MhlinkDesk,
    change: Change<'_>,
    out: &mut u64,
    part: &mut u64,
) -> u32
    requires full { desk.old.full ≡ true }
    ensures full { desk.new.full ≡ true }
    ensures makes { result ≡ 0 → MakesChange (DeskRecords desk.old.value desk.new.value)
        desk.old.value.desk.book desk.old.value.scope change.entry out.new }
    ensures no_part { result ≡ 0 → part.new ≡ 0 }
    ensures refused { result ≢ 0 → (e : FaultOf) × ((result ≡ status_of e)
        × ((part.new ≡ part_of e)
        × RefusesChange desk.old.value.desk.book desk.old.value.scope change.entry e)) }
    ensures kept { result ≢ 0 → desk.new.value ≡ desk.old.value }
    ensures untouched { result ≢ 0 → out.new ≡ out.old }
{
    write_change(replace_with(desk, (alloc, change), change_held), out, part)
}

fn change_held(desk: MhlinkDesk, made: (Global, Change<'_>)) -> (MhlinkDesk, Result<u64, Failure>)
    requires full { desk.full ≡ true }
    ensures full { result.0.full ≡ true }
    ensures makes { IfOk result.1 (MakesChange (DeskRecords desk.value result.0.value)
        desk.value.desk.book desk.value.scope made.entry.1) }
    ensures refused { IfErr result.1 (RefusesChange desk.value.desk.book desk.value.scope
        made.entry.1) }
    ensures kept { OnErr result.1 (result.0.value ≡ desk.value) }
{
    let mut held = desk.into_box();
    let (alloc, change) = made;
    let answer = held.change(alloc, change);
    (MhlinkDesk::of(held), answer)
}

/// Replaces the tree of a site, as `mhlink_target` does. Callers use it from their next look after
/// the next show on.
#[unsafe(no_mangle)]
pub extern "C" fn mhlink_desk_target(
    alloc: Global,
    desk: &mut MhlinkDesk,
    site: usize,
    tree: &[u8],
    part: &mut u64,
) -> u32
    requires full { desk.old.full ≡ true }
    ensures full { desk.new.full ≡ true }
    ensures taken { result ≡ 0 → Retargets (DeskRecords desk.old.value desk.new.value)
        desk.old.value.scope site tree.now }
    ensures no_part { result ≡ 0 → part.new ≡ 0 }
    ensures refused { result ≢ 0 → (e : FaultOf) × ((result ≡ status_of e)
        × ((part.new ≡ part_of e)
        × RefusesTarget desk.old.value.desk.book desk.old.value.scope site tree.now e)) }
    ensures kept { result ≢ 0 → desk.new.value ≡ desk.old.value }
{
    let mut nothing = 0;
    make_change(
        alloc,
        desk,
        Change::Target { site, tree },
        &mut nothing,
        part,
    )
}

/// Invalidates points together and for good, as `mhlink_invalidate` does. Callers know it from
/// their next look after the next show on.
#[unsafe(no_mangle)]
pub extern "C" fn mhlink_desk_invalidate(
    alloc: Global,
    desk: &mut MhlinkDesk,
    points: &[u32],
) -> u32
    requires full { desk.old.full ≡ true }
    ensures full { desk.new.full ≡ true }
    ensures taken { result ≡ 0 → DeskRecords desk.old.value desk.new.value
        (Invalidated points.now) }
    ensures refused { result ≢ 0 → (e : FaultOf) × ((result ≡ status_of e)
        × RefusesInvalidation desk.old.value.desk.book points.now e) }
    ensures kept { result ≢ 0 → desk.new.value ≡ desk.old.value }
{
    let (mut nothing, mut part) = (0, 0);
    make_change(
        alloc,
        desk,
        Change::Invalidate(points),
        &mut nothing,
        &mut part,
    )
}

/// Takes a snapshot of the totals, as `mhlink_snapshot` does.
#[unsafe(no_mangle)]
pub extern "C" fn mhlink_desk_snapshot(
    alloc: Global,
    desk: &mut MhlinkDesk,
    number: &mut u64,
) -> u32
    requires full { desk.old.full ≡ true }
    ensures full { desk.new.full ≡ true }
    ensures taken { result ≡ 0 → TakesSnapshot (DeskRecords desk.old.value desk.new.value)
        desk.old.value.desk.book number.new }
    ensures refused { result ≢ 0 → (e : FaultOf) × ((result ≡ status_of e)
        × RefusesRecord desk.old.value.desk.book Snapped e) }
    ensures kept { result ≢ 0 → desk.new.value ≡ desk.old.value }
    ensures untouched { result ≢ 0 → number.new ≡ number.old }
{
    let mut part = 0;
    make_change(alloc, desk, Change::Snapshot, number, &mut part)
}

/// Computes the optimal plan for a snapshot and publishes it, as `mhlink_plan` does.
#[unsafe(no_mangle)]
pub extern "C" fn mhlink_desk_plan(
    alloc: Global,
    desk: &mut MhlinkDesk,
    snapshot: usize,
    number: &mut u64,
) -> u32
    requires full { desk.old.full ≡ true }
    ensures full { desk.new.full ≡ true }
    ensures taken { result ≡ 0 → PublishesBest (DeskRecords desk.old.value desk.new.value)
        desk.old.value.desk.book snapshot number.new }
    ensures refused { result ≢ 0 → (e : FaultOf) × ((result ≡ status_of e)
        × RefusesBest desk.old.value.desk.book snapshot e) }
    ensures kept { result ≢ 0 → desk.new.value ≡ desk.old.value }
    ensures untouched { result ≢ 0 → number.new ≡ number.old }
{
    let mut part = 0;
    make_change(alloc, desk, Change::Plan(snapshot), number, &mut part)
}

/// Publishes the caller's plan for a snapshot, as `mhlink_offer` does.
#[unsafe(no_mangle)]
pub extern "C" fn mhlink_desk_offer(
    alloc: Global,
    desk: &mut MhlinkDesk,
    snapshot: usize,
    plan: &[u8],
    number: &mut u64,
    part: &mut u64,
) -> u32
    requires full { desk.old.full ≡ true }
    ensures full { desk.new.full ≡ true }
    ensures taken { result ≡ 0 → PublishesOffer (DeskRecords desk.old.value desk.new.value)
        desk.old.value.desk.book snapshot plan.now number.new }
    ensures no_part { result ≡ 0 → part.new ≡ 0 }
    ensures refused { result ≢ 0 → (e : FaultOf) × ((result ≡ status_of e)
        × ((part.new ≡ part_of e)
        × RefusesOffer desk.old.value.desk.book snapshot plan.now e)) }
    ensures kept { result ≢ 0 → desk.new.value ≡ desk.old.value }
    ensures untouched { result ≢ 0 → number.new ≡ number.old }
{
    make_change(alloc, desk, Change::Offer { snapshot, plan }, number, part)
}

/// Installs the newest plan, as `mhlink_install` does. Callers call through it from their next look
/// after the next show on.
#[unsafe(no_mangle)]
pub extern "C" fn mhlink_desk_install(
    alloc: Global,
    desk: &mut MhlinkDesk,
    plan: usize,
    linked: &mut u64,
    part: &mut u64,
) -> u32
    requires full { desk.old.full ≡ true }
    ensures full { desk.new.full ≡ true }
    ensures taken { result ≡ 0 → Installs (DeskRecords desk.old.value desk.new.value)
        desk.old.value.desk.book plan linked.new }
    ensures no_part { result ≡ 0 → part.new ≡ 0 }
    ensures refused { result ≢ 0 → (e : FaultOf) × ((result ≡ status_of e)
        × ((part.new ≡ part_of e)
        × RefusesRecord desk.old.value.desk.book (Installed plan) e)) }
    ensures kept { result ≢ 0 → desk.new.value ≡ desk.old.value }
    ensures untouched { result ≢ 0 → linked.new ≡ linked.old }
{
    make_change(alloc, desk, Change::Install(plan), linked, part)
}

fn show_held(desk: MhlinkDesk, _: ()) -> (MhlinkDesk, Result<(), Failure>)
    requires full { desk.full ≡ true }
    ensures full { result.0.full ≡ true }
    ensures shows { OnOk result.1 (result.0.value ≡ shows desk.value) }
    ensures refused { IfErr result.1 (λ e. e ≡ no_memory) }
    ensures kept { OnErr result.1 (result.0.value ≡ desk.value) }
{
    let mut held = desk.into_box();
    let answer = held.show();
    (MhlinkDesk::of(held), answer)
}

/// Publishes the current state to callers; each uses it from its next look on. If memory runs out,
/// the state that was published before stays.
#[unsafe(no_mangle)]
pub extern "C" fn mhlink_desk_show(desk: &mut MhlinkDesk) -> u32
    requires full { desk.old.full ≡ true }
    ensures full { desk.new.full ≡ true }
    ensures shows { result ≡ 0 → desk.new.value ≡ shows desk.old.value }
    ensures refused { result ≢ 0 → result ≡ status_of no_memory }
    ensures kept { result ≢ 0 → desk.new.value ≡ desk.old.value }
{
    status(replace_with(desk, (), show_held))
}

fn flush_held(
    desk: MhlinkDesk,
    caller: MhlinkCaller,
) -> (MhlinkDesk, (MhlinkCaller, Result<(), Failure>))
    requires full { (desk.full ≡ true) × (caller.full ≡ true) }
    ensures full { (result.0.full ≡ true) × (result.1.0.full ≡ true) }
    ensures held { OnOk result.1.1 (Holds desk.value caller.value.caller.ledger) }
    ensures flushed { OnOk result.1.1
        (DeskFlushes desk.value caller.value.caller.ledger result.0.value) }
    ensures settled { OnOk result.1.1 (result.1.0.value
        ≡ with_ledger caller.value (settled caller.value.caller.ledger)) }
    ensures refused { IfErr result.1.1 (RefusesDeskFlush desk.value caller.value.caller.ledger) }
    ensures kept { OnErr result.1.1 ((result.0.value ≡ desk.value)
        × (result.1.0.value ≡ caller.value)) }
{
    let (mut desk, mut caller) = (desk.into_box(), caller.into_box());
    let answer = desk.flush(&mut caller);
    (MhlinkDesk::of(desk), (MhlinkCaller::of(caller), answer))
}

/// Adds the hits of a caller since its last flush to the totals. The state of its last look stays.
///
/// Fails with 13 if the caller is not one of this desk, and then as `mhlink_flush` does; neither
/// changes.
#[unsafe(no_mangle)]
pub extern "C" fn mhlink_desk_flush(
    alloc: Global,
    desk: &mut MhlinkDesk,
    caller: &mut MhlinkCaller,
) -> u32
    requires full { (desk.old.full ≡ true) × (caller.old.full ≡ true) }
    ensures full { (desk.new.full ≡ true) × (caller.new.full ≡ true) }
    ensures held { result ≡ 0 → Holds desk.old.value caller.old.value.caller.ledger }
    ensures flushed { result ≡ 0
        → DeskFlushes desk.old.value caller.old.value.caller.ledger desk.new.value }
    ensures settled { result ≡ 0 → caller.new.value
        ≡ with_ledger caller.old.value (settled caller.old.value.caller.ledger) }
    ensures refused { result ≢ 0 → (e : FaultOf) × ((result ≡ status_of e)
        × RefusesDeskFlush desk.old.value caller.old.value.caller.ledger e) }
    ensures kept { result ≢ 0 → (desk.new.value ≡ desk.old.value)
        × (caller.new.value ≡ caller.old.value) }
{
    let taken = replace(caller, MhlinkCaller::hollow(alloc));
    let (given, answer) = replace_with(desk, taken, flush_held);
    *caller = given;
    status(answer)
}

/// Stores the flushed hits of a link by all callers.
#[unsafe(no_mangle)]
pub extern "C" fn mhlink_desk_total(
    alloc: Global,
    desk: &mut MhlinkDesk,
    link: usize,
    total: &mut u64,
) -> u32
    requires full { desk.old.full ≡ true }
    ensures full { desk.new.full ≡ true }
    ensures same { desk.new.value ≡ desk.old.value }
    ensures value { result ≡ 0 → total.new ≡ at desk.old.value.desk.book.totals.total link }
    ensures inside { result ≡ 0 → link < length desk.old.value.desk.book.totals.total }
    ensures unknown { result ≢ 0 → (result ≡ status_of Unknown)
        × (link < length desk.old.value.desk.book.totals.total → ⊥) }
    ensures untouched { result ≢ 0 → total.new ≡ total.old }
{
    look_up(alloc, desk, Question::Total(link), total)
}

/// Stores the number of links installed at a site, by the current records.
#[unsafe(no_mangle)]
pub extern "C" fn mhlink_desk_linked(
    alloc: Global,
    desk: &mut MhlinkDesk,
    site: usize,
    links: &mut u64,
) -> u32
    requires full { desk.old.full ≡ true }
    ensures full { desk.new.full ≡ true }
    ensures same { desk.new.value ≡ desk.old.value }
    ensures inside { result ≡ 0 → site < length desk.old.value.desk.book.definition.sites }
    ensures value { result ≡ 0 → links.new ≡ length (kept desk.old.value.desk.book.definition
        desk.old.value.desk.book.records site) }
    ensures unknown { result ≢ 0 → (result ≡ status_of Unknown)
        × (site < length desk.old.value.desk.book.definition.sites → ⊥) }
    ensures untouched { result ≢ 0 → links.new ≡ links.old }
{
    look_up(alloc, desk, Question::Linked(site), links)
}

/// Stores the property `detail` of the point, site, link or plan `number`. `place` selects an
/// element if the property is a list. It changes nothing.
#[unsafe(no_mangle)]
pub extern "C" fn mhlink_desk_detail(
    alloc: Global,
    desk: &mut MhlinkDesk,
    detail: u32,
    number: usize,
    place: usize,
    told: &mut u64,
) -> u32
    requires full { desk.old.full ≡ true }
    ensures full { desk.new.full ≡ true }
    ensures same { desk.new.value ≡ desk.old.value }
    ensures value { result ≡ 0 → detail_at desk.old.value.desk.book detail number place
        ≡ Some told.new }
    ensures unknown { result ≢ 0 → (result ≡ status_of Unknown)
        × (detail_at desk.old.value.desk.book detail number place ≡ None) }
    ensures untouched { result ≢ 0 → told.new ≡ told.old }
{
    let question = Question::Detail {
        detail,
        number,
        place,
    };
    look_up(alloc, desk, question, told)
}

/// Stores the number of the site with this name.
#[unsafe(no_mangle)]
pub extern "C" fn mhlink_desk_site(
    alloc: Global,
    desk: &mut MhlinkDesk,
    name: &[u8],
    number: &mut u64,
) -> u32
    requires full { desk.old.full ≡ true }
    ensures full { desk.new.full ≡ true }
    ensures same { desk.new.value ≡ desk.old.value }
    ensures value { result ≡ 0 → IsSite desk.old.value.desk.book.definition name.now number.new }
    ensures unknown { result ≢ 0 → (result ≡ status_of Unknown)
        × ((s : ℕ) → IsSite desk.old.value.desk.book.definition name.now s → ⊥) }
    ensures untouched { result ≢ 0 → number.new ≡ number.old }
{
    look_up(alloc, desk, Question::Site(name), number)
}

/// Stores the number of the point with this name.
#[unsafe(no_mangle)]
pub extern "C" fn mhlink_desk_point(
    alloc: Global,
    desk: &mut MhlinkDesk,
    name: &[u8],
    number: &mut u64,
) -> u32
    requires full { desk.old.full ≡ true }
    ensures full { desk.new.full ≡ true }
    ensures same { desk.new.value ≡ desk.old.value }
    ensures value { result ≡ 0 → IsPoint desk.old.value.desk.book.definition name.now number.new }
    ensures unknown { result ≢ 0 → (result ≡ status_of Unknown)
        × ((p : ℕ) → IsPoint desk.old.value.desk.book.definition name.now p → ⊥) }
    ensures untouched { result ≢ 0 → number.new ≡ number.old }
{
    look_up(alloc, desk, Question::Point(name), number)
}

/// Stores the number of a site's link with this key; `text` has the bytes of a String.
#[unsafe(no_mangle)]
pub extern "C" fn mhlink_desk_link(
    alloc: Global,
    desk: &mut MhlinkDesk,
    site: usize,
    key: &MhlinkValue,
    text: &[u8],
    number: &mut u64,
) -> u32
    requires full { desk.old.full ≡ true }
    ensures full { desk.new.full ≡ true }
    ensures same { desk.new.value ≡ desk.old.value }
    ensures value { result ≡ 0 → (x : AnyValue) × (IsValue key.now text.now x
        × IsLink desk.old.value.desk.book.definition site x number.new) }
    ensures unknown { result ≢ 0 → (e : FaultOf) × ((result ≡ status_of e)
        × IsUnknownLink desk.old.value.desk.book.definition site key.now text.now e) }
    ensures untouched { result ≢ 0 → number.new ≡ number.old }
{
    let key = *key;
    look_up(alloc, desk, Question::Link { site, key, text }, number)
}

fn used_held(desk: MhlinkDesk, _: ()) -> (MhlinkDesk, MhlinkUsed)
    requires full { desk.full ≡ true }
    ensures full { result.0.full ≡ true }
    ensures same { result.0.value ≡ desk.value }
    ensures used { IsUsed desk.value.desk.book result.1 }
{
    let held = desk.into_box();
    let used = used_of(held.desk.book());
    (MhlinkDesk::of(held), used)
}

/// Stores the usage of a desk's history in `used`. Always succeeds.
#[unsafe(no_mangle)]
pub extern "C" fn mhlink_desk_used(desk: &mut MhlinkDesk, used: &mut MhlinkUsed) -> u32
    requires full { desk.old.full ≡ true }
    ensures full { desk.new.full ≡ true }
    ensures same { desk.new.value ≡ desk.old.value }
    ensures answered { result ≡ 0 }
    ensures records { used.new.records ≡ length desk.old.value.desk.book.records }
    ensures snapshots { used.new.snapshots ≡ snapshots desk.old.value.desk.book.records }
    ensures plans { used.new.plans ≡ plans desk.old.value.desk.book.records }
{
    *used = replace_with(desk, (), used_held);
    0
}
