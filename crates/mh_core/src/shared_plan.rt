//! Plans with several owners.

ghost use Rattle.std.specs.Prelude.{◌≡◌, IfOk};
ghost use Rattle.std.specs.Arc.{arc_value};

use mh_base::NoMemory;
use mh_cert::Plan;
use std::alloc::Global;
use std::marker::Model;
use std::sync::Arc;

/// A plan that an event, a record and a reply share: it is stored once. To copy it, use `share`.
#[derive(Debug, Drop)]
pub struct SharedPlan {
    plan: Arc<Plan>,
}

impl Model for SharedPlan {
    ghost use Rattle.std.specs.Arc.{arc_value};
    ghost use Rattle.mh_cert.specs.declared.plan.Plan.{Plan};

    ghost Value = { Plan };

    ghost view = { λ p. arc_value p.plan };
}

impl SharedPlan {
    /// Returns the first owner of a plan. Fails only if an allocation is refused.
    pub fn new(alloc: Global, plan: Plan) -> Result<SharedPlan, NoMemory>
        ensures value { IfOk result (λ p. p ≡ plan) }
    {
        let plan = Arc::new(alloc, plan).map_err(|_| NoMemory)?;
        Ok(SharedPlan { plan })
    }

    /// Returns another owner of the plan. Fails only if a reference count is refused.
    pub fn share(&self) -> Result<SharedPlan, NoMemory>
        ensures value { IfOk result (λ p. p ≡ self.now) }
    {
        let plan = Arc::try_clone(&self.plan).map_err(|_| NoMemory)?;
        Ok(SharedPlan { plan })
    }

    /// Returns the plan.
    pub fn plan(&self) -> &Plan
        ensures value { result.now ≡ self.now }
    {
        &self.plan
    }
}

// A published plan, and the number of its snapshot.
#[derive(Debug, Drop)]
pub(crate) struct PublishedPlan {
    pub(crate) snapshot: usize,
    pub(crate) plan: SharedPlan,
}

impl Model for PublishedPlan {
    ghost use Rattle.mh_core.specs.Installations.{PublishedPlan as Seen};
    ghost use Rattle.mh_core.specs.PlanTables.{coded_published};

    ghost Value = { Seen };

    ghost coded = { coded_published };

    ghost view = { λ p. record { snapshot = p.snapshot; plan = p.plan } };
}
