//! The core: a book of accepted records, with the state that follows from them, and a machine that
//! answers events by the meaning of the sites' trees and by the hits of their links.
//!
//! It also exports the types of the crates below that its functions use, so that an embedder
//! depends on this crate only:
//!
//! ```
//! let mut machine = Machine::open(alloc, &definition, 1, limits)?;
//! let arguments = Arguments::one(Value::Int(1));
//! match machine.step(Event::Call { worker: 0, site: 0, arguments }) {
//!     Reply::Called { outcome, steps } => tell(&outcome, steps),
//!     Reply::Refused(refusal) => anyhow::bail!("{refusal}"),
//!     _ => anyhow::bail!("no answer to a call"),
//! }
//! ```
#![tactic(auto)]

mod arguments;
mod book;
mod caller;
mod crossing;
mod event;
mod extending;
mod flush;
mod history;
mod hits;
mod install_report;
mod laws;
mod limits;
mod machine;
mod problem;
mod record;
mod refusal;
mod renewing;
mod reply;
mod resuming;
mod runtime;
mod shared_plan;
mod snapshot;
mod state;
mod succession;
mod used;

pub use arguments::Arguments;
pub use book::Book;
pub use book::change::PendingChange;
pub use caller::{CalleeFault, count, evaluate, has_room, test_callee};
pub use crossing::runtimes_cross_threads;
pub use event::Event;
pub use extending::ExtensionFault;
pub use hits::hit_link;
pub use install_report::{InstallReport, Linkage, SiteLinkage};
pub use laws::{
    every_run_is_right, legal_worlds_stand, published_plans_are_best, records_look_back,
    totals_are_sums,
};
pub use limits::{
    LARGEST_LEDGER, LARGEST_TOTAL, LONGEST_HISTORY, Limits, MOST_PLANS, MOST_SNAPSHOTS,
};
pub use machine::Machine;
pub use mh_base::{Listing, NoMemory};
pub use mh_cert::{CheckFault, Plan};
pub use mh_code::Prepared;
pub use mh_ledger::{Ledger, OldHits, Totals};
pub use mh_network::{LinkRow, Problem, ProblemFault};
pub use mh_site::{
    Control, Definition, DefinitionFault, GREATEST_CHARGE, GREATEST_COST, GREATEST_WEIGHT,
    LONGEST_NAME, Link, MOST_LINKS, MOST_NEEDS, Name, Point, Site, Version, World,
};
pub use mh_tree::{
    DEEPEST, DEEPEST_DECLARED, Declared, Handle, LARGEST, LARGEST_DECLARED, TreeFault,
};
pub use mh_type::{
    Kind, LONGEST_TEXT, MOST_PARAMETERS, MethodType, Op, Outcome, Text, Throw, TypeFault, Value,
};
pub use record::Record;
pub use refusal::Refusal;
pub use renewing::Renewal;
pub use reply::Reply;
pub use resuming::ResumptionFault;
pub use runtime::Runtime;
pub use shared_plan::SharedPlan;
pub use succession::Succession;
pub use used::Used;
