//! A plan, and the text that it was read from.
ghost use Rattle.std.specs.Prelude.{◌≡◌, IfOk, Ok, string_bytes};
ghost use Rattle.kmip_plan.specs.Reading.{plan_read};

use kmip_plan::{Plan, PlanFault, read_plan};
use std::alloc::Global;
use std::marker::Model;

/// A plan, and the text that it was read from. A contract sees the text.
#[derive(Drop)]
pub struct PlanFile {
    text: String,
    plan: Plan,
}

impl Model for PlanFile {
    ghost use Rattle.std.specs.Prelude.{◌≡◌, List, Ok, string_bytes, ℕ};
    ghost use Rattle.kmip_plan.specs.Reading.{plan_read};

    ghost Value = { List ℕ };

    ghost view = { λ f. string_bytes f.text };

    ghost invariant = { λ f. plan_read (string_bytes f.text) ≡ Ok f.plan };
}

impl PlanFile {
    /// The plan that a text is.
    ///
    /// # Errors
    /// The text again, and its first fault, or that memory ran out.
    pub fn read(alloc: Global, text: String) -> Result<PlanFile, (String, PlanFault)>
        // It is the file of this text.
        ensures { IfOk result (λ file. file ≡ string_bytes text) }
    {
        match read_plan(alloc, text.as_str()) {
            Ok(plan) => Ok(PlanFile { text, plan }),
            Err(fault) => Err((text, fault)),
        }
    }

    /// The text.
    pub fn text(&self) -> &str
        // It is the text that was read.
        ensures { result.now ≡ self.now }
    {
        self.text.as_str()
    }

    /// The plan.
    pub fn plan(&self) -> &Plan
        // It is the plan that the text is.
        ensures { plan_read self.now ≡ Ok result.now }
    {
        &self.plan
    }

    /// The text, and the plan.
    pub fn into_parts(self) -> (String, Plan)
        // The plan is the one that the text is.
        ensures { plan_read (string_bytes result.0) ≡ Ok result.1 }
    {
        (self.text, self.plan)
    }
}
