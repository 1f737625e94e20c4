//! The promise for running threads, in one statement.

ghost use Rattle.mh_live.specs.Headline.{IsLiveHeadline};

use crate::front::{Front, ListName};
use crate::office::Office;
use crate::pass::Pass;
use crate::settled::Settled;
use mh_core::published_plans_are_best;

/// States the headline for running threads, for an office and a pass at any time, whatever threads
/// did before. Each call that the pass answered, by a list no longer than the office's
/// (`PassAnswer::front`, `Front::len`), returned what its site's unspecialised tree means in a
/// state of the office, whatever caches are installed; no call returns to a state before that of an
/// earlier call or of a receipt that the pass had learnt. Each plan that the office published has
/// the greatest gain less cost among all sets of eligible links with their points, for the totals
/// of the snapshot that it names, and carries a flow that shows it.
///
/// Clause `answer` of `Pass::call` says that a call was answered by a list, and clause `seen` of
/// later calls that the pass has seen this list since.
pub fn every_answer_is_right<N: ListName>(office: &Office<N>, pass: &Pass<N>)
    ensures headline { IsLiveHeadline N.definition office.now.book.records office.now.published
        pass.now.seen }
{
    office.front().compare(pass.front());
    published_plans_are_best(office.book());
}

/// States the headline for running threads after all passes are returned: for the book that they
/// leave, and for the list that a pass had seen (`Pass::front`).
pub fn every_settled_answer_is_right<N: ListName>(settled: &Settled<N>, seen: &Front<N>)
    ensures headline { IsLiveHeadline N.definition settled.now.book.records settled.now.front
        seen.now }
{
    settled.links();
    settled.front().compare(seen);
    published_plans_are_best(settled.book());
}
