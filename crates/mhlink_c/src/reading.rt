//! Queries of a machine: numbers of names, hits, and texts.

ghost use Rattle.std.specs.Prelude.{◌≡◌, ◌≢◌, ◌⊎◌, ◌<◌, ℕ, List, Some, None, drop, length, string_bytes, true, IfErr, IfOk, OnOk};
ghost use Rattle.mh_core.specs.Installations.{kept};
ghost use Rattle.mh_core.specs.Ledgers.{at, ledger_at};
ghost use Rattle.mh_core.specs.Value.{Value as AnyValue};
ghost use Rattle.mhlink_c.specs.Buffers.{IsCopied, IsTooShort};
ghost use Rattle.mhlink_c.specs.Changes.{HasNoBest};
ghost use Rattle.mhlink_c.specs.Crossing.{IsValue};
ghost use Rattle.mhlink_c.specs.Details.{detail_at};
ghost use Rattle.mhlink_c.specs.Questions.{IsLink, IsPoint, IsSite, IsUnknownLink};
ghost use Rattle.mhlink_c.specs.Statuses.{no_memory, status_of};
ghost use Rattle.mhlink_c.specs.Texts.{HasNoText, IsCertificate, IsUncopied, report_of};
ghost use Rattle.mhlink_c.specs.declared.failure.Failure.{Failure as FaultOf};
ghost use Rattle.mhlink_c.specs.declared.failure.Failure.TheVariants.{Short, Unknown};

use crate::buffers::copy;
use crate::failure::{Failure, status, write_answer};
use crate::handle::MhlinkMachine;
use crate::held::look_up;
use crate::request::Question;
use crate::value::MhlinkValue;
use core::mem::replace_with;
use mh_core::Text;
use std::alloc::Global;

/// Stores the number of the site with this name.
#[unsafe(no_mangle)]
pub extern "C" fn mhlink_site(
    alloc: Global,
    machine: &mut MhlinkMachine,
    name: &[u8],
    number: &mut u64,
) -> u32
    requires full { machine.old.full ≡ true }
    ensures full { machine.new.full ≡ true }
    ensures same { machine.new.value ≡ machine.old.value }
    ensures value { result ≡ 0 → IsSite machine.old.value.runtime.book.definition name.now number.new }
    ensures unknown { result ≢ 0 → (result ≡ status_of Unknown)
        × ((s : ℕ) → IsSite machine.old.value.runtime.book.definition name.now s → ⊥) }
    ensures untouched { result ≢ 0 → number.new ≡ number.old }
{
    look_up(alloc, machine, Question::Site(name), number)
}

/// Stores the number of the point with this name.
#[unsafe(no_mangle)]
pub extern "C" fn mhlink_point(
    alloc: Global,
    machine: &mut MhlinkMachine,
    name: &[u8],
    number: &mut u64,
) -> u32
    requires full { machine.old.full ≡ true }
    ensures full { machine.new.full ≡ true }
    ensures same { machine.new.value ≡ machine.old.value }
    ensures value { result ≡ 0 → IsPoint machine.old.value.runtime.book.definition name.now
        number.new }
    ensures unknown { result ≢ 0 → (result ≡ status_of Unknown)
        × ((p : ℕ) → IsPoint machine.old.value.runtime.book.definition name.now p → ⊥) }
    ensures untouched { result ≢ 0 → number.new ≡ number.old }
{
    look_up(alloc, machine, Question::Point(name), number)
}

/// Stores the number of a site's link with this key; `text` has the bytes of a String.
#[unsafe(no_mangle)]
pub extern "C" fn mhlink_link(
    alloc: Global,
    machine: &mut MhlinkMachine,
    site: usize,
    key: &MhlinkValue,
    text: &[u8],
    number: &mut u64,
) -> u32
    requires full { machine.old.full ≡ true }
    ensures full { machine.new.full ≡ true }
    ensures same { machine.new.value ≡ machine.old.value }
    ensures value { result ≡ 0 → (x : AnyValue) × (IsValue key.now text.now x
        × IsLink machine.old.value.runtime.book.definition site x number.new) }
    ensures unknown { result ≢ 0 → (e : FaultOf) × ((result ≡ status_of e)
        × IsUnknownLink machine.old.value.runtime.book.definition site key.now text.now e) }
    ensures untouched { result ≢ 0 → number.new ≡ number.old }
{
    let key = *key;
    look_up(alloc, machine, Question::Link { site, key, text }, number)
}

fn hits_held(machine: MhlinkMachine, asked: (u32, usize)) -> (MhlinkMachine, Result<u64, Failure>)
    requires full { machine.full ≡ true }
    ensures full { result.0.full ≡ true }
    ensures same { result.0.value ≡ machine.value }
    ensures value { IfOk result.1 (λ n. n
        ≡ at (ledger_at machine.value.runtime.ledgers asked.0).unflushed asked.1) }
    ensures inside { OnOk result.1 ((asked.0 < length machine.value.runtime.ledgers)
        × (asked.1 < length (ledger_at machine.value.runtime.ledgers asked.0).unflushed)) }
    ensures unknown { IfErr result.1 (λ e. (e ≡ Unknown)
        × (asked.0 < length machine.value.runtime.ledgers
        → asked.1 < length (ledger_at machine.value.runtime.ledgers asked.0).unflushed → ⊥)) }
{
    let host = machine.into_box();
    let (worker, link) = asked;
    let hits = host.hits(worker, link);
    (MhlinkMachine::of(host), hits)
}

/// Stores the hits of a link by a worker's calls since its last flush.
#[unsafe(no_mangle)]
pub extern "C" fn mhlink_hits(
    machine: &mut MhlinkMachine,
    worker: u32,
    link: usize,
    hits: &mut u64,
) -> u32
    requires full { machine.old.full ≡ true }
    ensures full { machine.new.full ≡ true }
    ensures same { machine.new.value ≡ machine.old.value }
    ensures untouched { result ≢ 0 → hits.new ≡ hits.old }
    ensures value { result ≡ 0 → hits.new
        ≡ at (ledger_at machine.old.value.runtime.ledgers worker).unflushed link }
    ensures inside { result ≡ 0 → (worker < length machine.old.value.runtime.ledgers)
        × (link < length (ledger_at machine.old.value.runtime.ledgers worker).unflushed) }
    ensures unknown { result ≢ 0 → (result ≡ status_of Unknown)
        × (worker < length machine.old.value.runtime.ledgers
        → link < length (ledger_at machine.old.value.runtime.ledgers worker).unflushed → ⊥) }
{
    write_answer(replace_with(machine, (worker, link), hits_held), hits)
}

/// Stores the flushed hits of a link by all workers.
#[unsafe(no_mangle)]
pub extern "C" fn mhlink_total(
    alloc: Global,
    machine: &mut MhlinkMachine,
    link: usize,
    total: &mut u64,
) -> u32
    requires full { machine.old.full ≡ true }
    ensures full { machine.new.full ≡ true }
    ensures same { machine.new.value ≡ machine.old.value }
    ensures untouched { result ≢ 0 → total.new ≡ total.old }
    ensures value { result ≡ 0 → total.new
        ≡ at machine.old.value.runtime.book.totals.total link }
    ensures inside { result ≡ 0 → link < length machine.old.value.runtime.book.totals.total }
    ensures unknown { result ≢ 0 → (result ≡ status_of Unknown)
        × (link < length machine.old.value.runtime.book.totals.total → ⊥) }
{
    look_up(alloc, machine, Question::Total(link), total)
}

/// Stores the number of links installed at a site: 0 if its calls run its base tree.
#[unsafe(no_mangle)]
pub extern "C" fn mhlink_linked(
    alloc: Global,
    machine: &mut MhlinkMachine,
    site: usize,
    links: &mut u64,
) -> u32
    requires full { machine.old.full ≡ true }
    ensures full { machine.new.full ≡ true }
    ensures same { machine.new.value ≡ machine.old.value }
    ensures inside { result ≡ 0 → site < length machine.old.value.runtime.book.definition.sites }
    ensures value { result ≡ 0 → links.new ≡ length (kept machine.old.value.runtime.book.definition
        machine.old.value.runtime.book.records site) }
    ensures unknown { result ≢ 0 → (result ≡ status_of Unknown)
        × (site < length machine.old.value.runtime.book.definition.sites → ⊥) }
    ensures untouched { result ≢ 0 → links.new ≡ links.old }
{
    look_up(alloc, machine, Question::Linked(site), links)
}

/// Stores the property `detail` of the point, site, link or plan `number`. `place` selects an
/// element if the property is a list. It changes nothing.
#[unsafe(no_mangle)]
pub extern "C" fn mhlink_detail(
    alloc: Global,
    machine: &mut MhlinkMachine,
    detail: u32,
    number: usize,
    place: usize,
    told: &mut u64,
) -> u32
    requires full { machine.old.full ≡ true }
    ensures full { machine.new.full ≡ true }
    ensures same { machine.new.value ≡ machine.old.value }
    ensures value { result ≡ 0 → detail_at machine.old.value.runtime.book detail number place
        ≡ Some told.new }
    ensures unknown { result ≢ 0 → (result ≡ status_of Unknown)
        × (detail_at machine.old.value.runtime.book detail number place ≡ None) }
    ensures untouched { result ≢ 0 → told.new ≡ told.old }
{
    let question = Question::Detail {
        detail,
        number,
        place,
    };
    look_up(alloc, machine, question, told)
}

// Returns another owner of the text that the last call returned.
fn text_held(machine: MhlinkMachine, _: ()) -> (MhlinkMachine, Result<Text, Failure>)
    requires full { machine.full ≡ true }
    ensures full { result.0.full ≡ true }
    ensures same { result.0.value ≡ machine.value }
    ensures text { IfOk result.1 (λ text. machine.value.given ≡ Some text) }
    ensures refused { IfErr result.1 (HasNoText machine.value.given) }
{
    let host = machine.into_box();
    let text = host.text();
    (MhlinkMachine::of(host), text)
}

/// Copies the text that the last call returned, and stores its number of bytes in `length`, also if
/// the buffer is too short. There is a text after a call whose reply is a String, until the next
/// call. The rest of the buffer is left unmodified.
#[unsafe(no_mangle)]
pub extern "C" fn mhlink_text(
    machine: &mut MhlinkMachine,
    buffer: &mut [u8],
    length: &mut usize,
) -> u32
    requires full { machine.old.full ≡ true }
    ensures full { machine.new.full ≡ true }
    ensures same { machine.new.value ≡ machine.old.value }
    ensures copied { result ≡ 0 → (text : List ℕ) × ((machine.old.value.given ≡ Some text)
        × IsCopied text length.new buffer.new) }
    ensures refused { result ≢ 0 → (e : FaultOf) × ((result ≡ status_of e)
        × (HasNoText machine.old.value.given e ⊎ IsUncopied
        (λ text. machine.old.value.given ≡ Some text) length.new buffer.old e)) }
    ensures untouched { result ≢ 0 → buffer.new ≡ buffer.old }
    ensures rest { result ≡ 0 → drop length.new buffer.new ≡ drop length.new buffer.old }
    ensures uncounted { result ≢ 0 → result ≢ status_of Short → length.new ≡ length.old }
{
    match replace_with(machine, (), text_held) {
        Ok(text) => status(copy(text.as_str().as_bytes(), buffer, length)),
        Err(fault) => fault.number(),
    }
}

// Returns the certificate of the optimal plan for a snapshot.
fn certificate_held(
    machine: MhlinkMachine,
    asked: (Global, usize),
) -> (MhlinkMachine, Result<String, Failure>)
    requires full { machine.full ≡ true }
    ensures full { result.0.full ≡ true }
    ensures same { result.0.value ≡ machine.value }
    ensures text { IfOk result.1 (λ text. IsCertificate machine.value.runtime asked.1
        (string_bytes text)) }
    ensures refused { IfErr result.1 (HasNoBest machine.value.runtime.book asked.1) }
{
    let host = machine.into_box();
    let (alloc, snapshot) = asked;
    let certificate = host.certificate(alloc, snapshot);
    (MhlinkMachine::of(host), certificate)
}

/// Copies the optimal plan for a snapshot with the flow that proves it optimal, as JSON for
/// `mhlink_offer` and `mhlink check`, and stores its number of bytes in `length`, also if the
/// buffer is too short. The rest of the buffer is left unmodified.
#[unsafe(no_mangle)]
pub extern "C" fn mhlink_certificate(
    alloc: Global,
    machine: &mut MhlinkMachine,
    snapshot: usize,
    buffer: &mut [u8],
    length: &mut usize,
) -> u32
    requires full { machine.old.full ≡ true }
    ensures full { machine.new.full ≡ true }
    ensures same { machine.new.value ≡ machine.old.value }
    ensures copied { result ≡ 0 → (text : List ℕ) × (IsCertificate machine.old.value.runtime
        snapshot text × IsCopied text length.new buffer.new) }
    ensures refused { result ≢ 0 → (e : FaultOf) × ((result ≡ status_of e)
        × (HasNoBest machine.old.value.runtime.book snapshot e ⊎ IsUncopied
        (IsCertificate machine.old.value.runtime snapshot) length.new buffer.old e)) }
    ensures untouched { result ≢ 0 → buffer.new ≡ buffer.old }
    ensures rest { result ≡ 0 → drop length.new buffer.new ≡ drop length.new buffer.old }
    ensures uncounted { result ≢ 0 → result ≢ status_of Short → length.new ≡ length.old }
{
    match replace_with(machine, (alloc, snapshot), certificate_held) {
        Ok(text) => status(copy(text.as_bytes(), buffer, length)),
        Err(fault) => fault.number(),
    }
}

// Returns the report of a machine.
fn report_held(machine: MhlinkMachine, alloc: Global) -> (MhlinkMachine, Result<String, Failure>)
    requires full { machine.full ≡ true }
    ensures full { result.0.full ≡ true }
    ensures same { result.0.value ≡ machine.value }
    ensures text { IfOk result.1 (λ text. string_bytes text ≡ report_of machine.value.runtime) }
    ensures refused { IfErr result.1 (λ e. e ≡ no_memory) }
{
    let host = machine.into_box();
    let report = host.report(alloc);
    (MhlinkMachine::of(host), report)
}

/// Copies a line for each point, site and link, as `mhlink run --report` prints them, and stores
/// their number of bytes in `length`, also if the buffer is too short. The rest of the buffer is
/// left unmodified.
#[unsafe(no_mangle)]
pub extern "C" fn mhlink_report(
    alloc: Global,
    machine: &mut MhlinkMachine,
    buffer: &mut [u8],
    length: &mut usize,
) -> u32
    requires full { machine.old.full ≡ true }
    ensures full { machine.new.full ≡ true }
    ensures same { machine.new.value ≡ machine.old.value }
    ensures copied { result ≡ 0 → IsCopied (report_of machine.old.value.runtime) length.new
        buffer.new }
    ensures refused { result ≢ 0 → (e : FaultOf) × ((result ≡ status_of e)
        × ((e ≡ no_memory) ⊎ IsUncopied
        (λ text. text ≡ report_of machine.old.value.runtime) length.new buffer.old e)) }
    ensures untouched { result ≢ 0 → buffer.new ≡ buffer.old }
    ensures rest { result ≡ 0 → drop length.new buffer.new ≡ drop length.new buffer.old }
    ensures uncounted { result ≢ 0 → result ≢ status_of Short → length.new ≡ length.old }
{
    match replace_with(machine, alloc, report_held) {
        Ok(text) => status(copy(text.as_bytes(), buffer, length)),
        Err(fault) => fault.number(),
    }
}
