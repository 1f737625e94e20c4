//! Laws about the plans of profiles.
ghost use Rattle.mh_cert.specs.Plans.{Matches};
ghost use Rattle.mh_cert.specs.declared.plan.Plan.{Plan};
ghost use Rattle.mh_network.specs.Problems.{IsProblem, ProblemData};
ghost use Rattle.mh_profile.specs.Slack.{StaysBest};

/// Proves that the links of a plan that matches its problem remain optimal if the cost of a
/// selected point rises, or that of another point falls, by at most the slack on its line. Another
/// set may then be optimal too. Beyond the slack they may still be optimal, by another flow.
pub fn links_stay_best_within_slack()
    ensures best { (P : ProblemData) → IsProblem P → (plan : Plan) → Matches P plan
        → StaysBest P plan }
{}
