//! The parts of an office and its passes.

ghost use Rattle.std.specs.Prelude.{◌≡◌, ◌+◌, ◌<◌, ◌≤◌, [], length, map, drop, vec_capacity, IfOk, IfErr};
ghost use Rattle.std.specs.List.{All};
ghost use Rattle.mh_ledger.specs.Ledgers.{AreHeld};
ghost use Rattle.mh_site.specs.Lawful.{IsDefinition};
ghost use Rattle.mh_site.specs.Links.{links};
ghost use Rattle.mh_site.specs.Worlds.{opened};
ghost use Rattle.mh_core.specs.Books.{opened_book};
ghost use Rattle.mh_base.specs.Limits.{most_workers};
ghost use Rattle.mh_live.specs.Passes.{new_pass, new_passes};
ghost use Rattle.mh_live.specs.Rules.{Stands};

use crate::front::{Front, ListName, Unnamed};
use crate::live::Live;
use crate::office::{Office, leak};
use crate::open_fault::OpenFault;
use crate::pass::Pass;
use crate::published::Published;
use crate::rule::WorldWriter;
use mh_core::{Book, Limits};
use mh_ledger::Ledger;
use mh_run::Stack;
use mh_site::{Definition, World};
use std::alloc::{AllocError, Global};
use std::fmt;
use std::marker::Model;

/// The parts of an office and its passes, with a new list of controls, which has no name yet.
#[derive(Drop)]
pub struct Opening {
    list: Unnamed,
    book: Book,
    ledgers: Vec<Ledger>,
    first: World,
    second: World,
    definition: Definition,
    workers: u32,
    alloc: Global,
}

impl Model for Opening {
    ghost use Rattle.std.specs.Prelude.{◌≡◌, ◌<◌, ◌≤◌};
    ghost use Rattle.mh_live.specs.Openings.{OpeningState, IsOpening, coded_opening};

    ghost Value = { OpeningState };

    ghost coded = { coded_opening };

    ghost view = { λ o. record {
      name = o.list.past.book;
      definition = o.book.definition;
      workers = o.workers;
      limits = o.book.limits;
    } };

    ghost invariant = { λ o. IsOpening record {
      name = o.list.past.book;
      definition = o.book.definition;
      workers = o.workers;
      limits = o.book.limits;
    } o.book o.ledgers.items o.first o.second o.definition };
}

/// Shows the number of workers, and the definition.
impl fmt::Debug for Opening {
    fn fmt<W: fmt::Write>(&self, f: &mut fmt::Formatter<W>) -> fmt::Result {
        let (workers, definition) = (self.workers, &self.definition);
        write!(f, "Opening({workers} workers, {definition:?})")
    }
}

impl Opening {
    /// Makes the parts of the office of a definition and of the passes of `workers` workers, 1 to
    /// 64. Fails only if an allocation or a reference count is refused.
    pub fn new(
        alloc: Global,
        definition: &Definition,
        workers: u32,
        limits: Limits,
    ) -> Result<Opening, OpenFault>
        requires workers { (0 < workers) × (workers ≤ most_workers) }
        ensures definition { IfOk result (λ o. o.definition ≡ definition.now) }
        ensures workers { IfOk result (λ o. o.workers ≡ workers) }
        ensures limits { IfOk result (λ o. o.limits ≡ limits) }
        ensures refused { IfErr result (λ e. e ≡ OpenFault.NoMemory) }
    {
        // Names the invariant of the definition for the proof.
        let _sites = definition.sites();
        let shared = definition.share()?;
        let first = World::open(alloc, definition)?;
        let second = first.share()?;
        let (book, ledgers) = Book::open(alloc, definition, workers, limits)?;
        Ok(Opening {
            list: Unnamed::new(),
            book,
            ledgers,
            first,
            second,
            definition: shared,
            workers,
            alloc,
        })
    }

    /// Returns the office, and a pass for each worker, in order. `N` names this opening: its book,
    /// its definition, its limits and its number of workers.
    ///
    /// Fails with `NoMemory`, which leaks nothing, or with `NoReader` if no reader of the published
    /// world can be made, which leaks its two worlds.
    pub fn open<N: ListName>(self) -> Result<(Live<N>, Vec<Pass<N>>), OpenFault>
        requires name { self.name ≡ N.book }
        requires definition { self.definition ≡ N.definition }
        requires limits { self.limits ≡ N.limits }
        requires workers { self.workers ≡ N.workers }
        ensures passes { IfOk result (λ t. t.1.items
            ≡ new_passes self.definition self.limits.ledger self.workers) }
        ensures held { IfOk result (λ t. AreHeld
            (opened_book self.definition self.workers self.limits).totals
            (map (λ p. p.ledger) t.1.items)) }
    {
        let Opening {
            list,
            book,
            ledgers,
            first,
            second,
            definition,
            workers,
            alloc,
        } = self;
        // The parts of passes are made before the published world, which could not be freed here.
        let seats = make_seats(alloc, ledgers, &definition)?;
        let passes = Vec::with_capacity(alloc, seats.len())?;
        let (head, front) = list.with_name::<N>();
        let writer = desk(alloc, first, second, &front, workers as usize)?;
        match seat_all(&writer, &front, seats, passes) {
            Ok(passes) => Ok((Live::new(Office::new(book, head, front, writer)), passes)),
            Err(fault) => {
                leak(writer);
                Err(fault)
            }
        }
    }
}

// The parts of a pass other than its reader.
#[derive(Drop)]
struct Seat {
    ledger: Ledger,
    stack: Stack,
    definition: Definition,
}

// Returns the writer of the published world, with no control.
fn desk<N: ListName>(
    alloc: Global,
    first: World,
    second: World,
    front: &Front<N>,
    workers: usize,
) -> Result<WorldWriter<N>, AllocError>
    requires worlds { (first ≡ opened N.definition) × (second ≡ opened N.definition) }
    requires lawful { IsDefinition N.definition }
    requires front { front.now ≡ [] }
    requires workers { (0 < workers) × (workers ≤ most_workers) }
    ensures writer { IfOk result (λ w. Stands N.book N.definition w.desk.shown.value
        × (w.desk.shown.value.past.log ≡ []) × (drop w.behind w.log.items ≡ [])) }
{
    let past = front.past();
    let first = Published {
        world: first,
        past: past.again(),
    };
    let second = Published {
        world: second,
        past,
    };
    WorldWriter::<N>::new(alloc, first, second, workers)
}

// Returns a seat for each ledger, in order.
fn make_seats(
    alloc: Global,
    ledgers: Vec<Ledger>,
    definition: &Definition,
) -> Result<Vec<Seat>, OpenFault>
    ensures ledgers { IfOk result (λ v. map (λ s. s.ledger) v.items ≡ ledgers.items) }
    ensures definition { IfOk result (λ v. All (λ s. s.definition ≡ definition.now) v.items) }
{
    let mut seats = Vec::new(alloc);
    for ledger in ledgers {
        seats.push(Seat {
            ledger,
            stack: Stack::new(alloc)?,
            definition: definition.share()?,
        })?;
    }
    Ok(seats)
}

// Returns a pass for each seat, in order, in the room that is reserved for them.
fn seat_all<N: ListName>(
    writer: &WorldWriter<N>,
    front: &Front<N>,
    seats: Vec<Seat>,
    mut passes: Vec<Pass<N>>,
) -> Result<Vec<Pass<N>>, OpenFault>
    requires front { front.now ≡ [] }
    requires definition { All (λ s. s.definition ≡ N.definition) seats.items }
    requires links { All (λ s. length s.ledger.unflushed ≡ length (links N.definition)) seats.items }
    requires empty { passes.items ≡ [] }
    requires room { length seats.items ≤ vec_capacity passes }
    ensures passes { IfOk result (λ v. v.items ≡ map (λ s. new_pass s.ledger) seats.items) }
    ensures full { IfErr result (λ e. e ≡ OpenFault.NoReader) }
{
    for seat in seats {
        let Ok(reader) = writer.factory().reader() else {
            return Err(OpenFault::NoReader);
        };
        let Seat {
            ledger,
            stack,
            definition,
        } = seat;
        passes.push_reserved(Pass::new(reader, front.copy(), ledger, stack, definition));
    }
    Ok(passes)
}
