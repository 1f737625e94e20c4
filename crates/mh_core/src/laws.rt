//! Laws of the definitions.

ghost use Rattle.std.specs.Prelude.{◌≡◌, ◌++◌, ◌∷◌, ◌<◌, ℕ, List, length};
ghost use Rattle.mh_network.specs.Selection.{IsBest, member};
ghost use Rattle.mh_cert.specs.Plans.{Matches};
ghost use Rattle.mh_cert.specs.declared.plan.Plan.{Plan};
ghost use Rattle.mh_site.specs.Defined.{DefinitionData};
ghost use Rattle.mh_site.specs.Lawful.{IsDefinition};
ghost use Rattle.mh_site.specs.Worlds.{state_at};
ghost use Rattle.mh_core.specs.declared.record.Record.{Record};
ghost use Rattle.mh_core.specs.declared.record.Record.TheVariants.{Published};
ghost use Rattle.mh_core.specs.Problems.{problem_at};
ghost use Rattle.mh_site.specs.Links.{links};
ghost use Rattle.mh_core.specs.declared.event.Event.{Event};
ghost use Rattle.mh_core.specs.declared.reply.Reply.{Reply};
ghost use Rattle.mh_core.specs.Headline.{IsHeadline};
ghost use Rattle.mh_core.specs.Histories.{records};
ghost use Rattle.mh_core.specs.Legal.{Run};
ghost use Rattle.mh_core.specs.Hits.{total_calls};
ghost use Rattle.mh_core.specs.Books.{Legal};
ghost use Rattle.mh_core.specs.Installations.{linked, kept};
ghost use Rattle.mh_core.specs.Limits.{LimitsData};
ghost use Rattle.mh_core.specs.Records.{base, total, version, valid_points};
ghost use Rattle.mh_core.specs.Replayed.{world};
ghost use Rattle.mh_core.specs.Standing.{AreStanding};

use crate::book::Book;
use crate::machine::Machine;

/// Proves the headline: over every interleaving of calls, flushes, retargetings, invalidations,
/// snapshots, publications and installations, each accepted call returns what its site's
/// unspecialised tree means at that step, whatever caches are installed; and each published plan
/// has the greatest gain less cost among all sets of eligible links with their points, for the
/// totals of the snapshot that it names, and carries a flow that shows it.
///
/// `run` promises such a run after the history of a machine, which is empty if the machine was just
/// opened.
pub fn every_run_is_right(machine: &Machine)
    ensures headline { (events : List Event) → (replies : List Reply) → (h : List Event)
        → Run machine.now.setting machine.now.history events replies h
        → IsHeadline machine.now.setting machine.now.history events replies h }
{
    machine.book().kept();
}

/// Proves that the world after any records has, at each site and of each point, what looking back
/// through the records finds.
pub fn records_look_back()
    ensures sites { (d : DefinitionData) → (r : List Record) → (s : ℕ) → s < length d.sites
        → state_at (world d r) s ≡ record
        { base = base d r s; linked = linked d r s; kept = kept d r s; version = version r s } }
    ensures points { (d : DefinitionData) → (r : List Record)
        → (world d r).valid ≡ valid_points d r }
{}

/// Proves that in the world after legal records, the trees of each site have its type and name only
/// declared points, and that the linked tree, which calls run, has the outcomes of the base tree.
pub fn legal_worlds_stand()
    ensures trees { (d : DefinitionData) → (l : LimitsData) → (r : List Record) → IsDefinition d
        → Legal d l r → AreStanding d (world d r) }
{}

/// Proves that the totals after the records of a history are its hits that a flush of the same
/// worker follows.
pub fn totals_are_sums()
    ensures value { (d : DefinitionData) → (h : List Event) → (j : ℕ) → j < length (links d)
        → total_calls d h j ≡ total (records d h) j }
{}

/// Proves that each plan that a book has published matches the problem of the snapshot that it
/// names, and is best for it: no set of eligible links gains more, less the costs of the points
/// that it needs (Rhys 1970, Picard 1976). The problem is that of the totals, and of the valid
/// points, when the snapshot was taken.
pub fn published_plans_are_best(book: &Book)
    ensures matching { (newer older : List Record) → (n : ℕ) → (plan : Plan)
        → book.now.records ≡ newer ++ Published n plan ∷ older
        → Matches (problem_at book.now.definition older n) plan }
    ensures best { (newer older : List Record) → (n : ℕ) → (plan : Plan)
        → book.now.records ≡ newer ++ Published n plan ∷ older
        → IsBest (problem_at book.now.definition older n) (member plan.links) }
{
    book.kept();
}
