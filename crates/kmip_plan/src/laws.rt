//! What holds of the keys of every plan, and of a plan that prolongs another.
ghost use Rattle.kmip_plan.specs.Laws.{PlanLaws};
ghost use Rattle.kmip_plan.specs.Plans.{IsLawful};

use crate::plan::Plan;

/// What holds of the keys and the chains of all plans, one law a field. It does nothing.
pub fn the_laws_of_plans_hold()
    ensures { PlanLaws }
{}

/// A plan is lawful. It does nothing.
pub fn a_plan_is_lawful(plan: &Plan)
    ensures { IsLawful plan.now }
{
    plan.keys(); // proof
}
