//! A problem with a plan that is claimed to be optimal.
ghost use Rattle.serde_json.specs.View.{view};
ghost use Rattle.mh_json.specs.Claims.{claim_read};
ghost use Rattle.mh_json.specs.Gives.{Gives};

use crate::json::plan::read_plan_value;
use crate::json::problem::read_problem_value;
use crate::json::shape::member;
use crate::key::Field;
use crate::misread::Misread;
use mh_cert::Plan;
use mh_network::Problem;
use serde_json::Value;
use std::alloc::Global;

/// A problem and the plan that is claimed to be optimal for it.
#[derive(Drop)]
pub struct Claim {
    pub problem: Problem,
    pub plan: Plan,
}

/// Reads a problem, makes it, and then reads a plan.
pub(crate) fn read_placed_claim(alloc: Global, value: &Value) -> Result<Claim, Misread>
    ensures value { Gives (λ x. x) result (claim_read (view value.now)) }
{
    let problem = member(
        alloc,
        value,
        Field::Problem,
        |problem| read_problem_value(alloc, problem),
    )?;
    let plan = member(
        alloc,
        value,
        Field::Plan,
        |plan| read_plan_value(alloc, plan),
    )?;
    Ok(Claim { problem, plan })
}
