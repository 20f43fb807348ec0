//! A field that each key of a plan has.
ghost use Rattle.std.specs.Prelude.{◌≡◌};
ghost use Rattle.kmip_plan.specs.Faults.{field_word};
ghost use Rattle.kmip_plan.specs.declared.plan_fault.PlanFault.TheVariants as faults;

/// A field that each key of a plan has.
#[derive(Clone, Copy, Debug)]
pub enum Field {
    Name,
    Algorithm,
    Length,
    Usage,
    Target,
}

impl Field {
    /// The field's name in a plan.
    pub fn word(self) -> &'static str
        ensures { result.now ≡ field_word self }
    {
        match self {
            Field::Name => "name",
            Field::Algorithm => "algorithm",
            Field::Length => "length",
            Field::Usage => "usage",
            Field::Target => "target",
        }
    }
}
