//! Laws of the definitions.

ghost use Rattle.mh_cert.specs.Plans.{Matches};
ghost use Rattle.mh_cert.specs.declared.plan.Plan.{Plan};
ghost use Rattle.mh_network.specs.Problems.{IsProblem};
ghost use Rattle.mh_network.specs.Selection.{IsBest, member};

use mh_network::Problem;

/// Proves the law that the checker depends on: the links of a matching plan are best, that is, no
/// set of eligible links is worth more (weak duality of flows and cuts: Ford and Fulkerson 1956,
/// Picard 1976).
pub fn matching_is_best(problem: &Problem)
    ensures problem { IsProblem problem.now }
    ensures best { (plan : Plan) → Matches problem.now plan
        → IsBest problem.now (member plan.links) }
{
    let _ = problem.links();
}
