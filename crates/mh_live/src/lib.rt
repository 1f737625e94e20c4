//! Running threads over a book: many threads make calls concurrently without a lock, and one thread
//! at a time, under a lock, changes the world.
//!
//! An `Opening` returns a `Live`, which all threads share, and a `Pass` for each worker. There are
//! two copies of the world. Calls read one of them; a change is applied to the other, which calls
//! read from then on, and then to the first. So a call is answered by one world, takes no lock,
//! allocates nothing for that world, and counts no owner of a tree.
//!
//! All changes of a world are in one list of controls, and each published world is the replay of a
//! prefix of this list. Of any two lists that passes have seen or that receipts name, the shorter
//! is a prefix of the longer (`Front::compare`): a pass that has learnt a receipt is never answered
//! by a world before it. `every_answer_is_right` states the promise for all calls and plans.
//!
//! The crate also exports the types of the crates below that its functions use, and the whole of
//! mh_core under its own name:
//!
//! ```
//! let opening = Opening::new(alloc, &definition, 2, limits)?;
//! let (live, passes) = opening.open::<Brand>()?;
//! for mut pass in passes {
//!     let receipt = live.set_target(rt, 0, successor(alloc)?)?;
//!     pass.learn(&receipt);
//!     let PassAnswer { outcome, steps, front } = pass.call(0, &[Value::Int(1)])?;
//!     let receipt = live.flush(rt, &mut pass)?;
//! }
//! ```
#![tactic(auto)]

mod call_fault;
mod crossing;
mod flush_fault;
mod front;
mod laws;
mod live;
mod office;
mod open_fault;
mod opening;
mod pass;
mod published;
mod publishing;
mod receipt;
mod roll_call;
mod rule;
mod settle_fault;
mod settled;

pub use call_fault::CallFault;
pub use crossing::cross_threads;
pub use flush_fault::FlushFault;
pub use front::{Front, ListName};
pub use laws::{every_answer_is_right, every_settled_answer_is_right};
pub use live::Live;
pub use mh_base::MOST_WORKERS;
pub use mh_core;
pub use mh_core::{
    Book, Declared, Definition, Ledger, Limits, Listing, Outcome, Plan, Problem, Refusal, Reply,
    SharedPlan, Value,
};
pub use office::Office;
pub use open_fault::OpenFault;
pub use opening::Opening;
pub use pass::{Pass, PassAnswer};
pub use receipt::Receipt;
pub use settle_fault::SettleFault;
pub use settled::{Settled, Unsettled};
