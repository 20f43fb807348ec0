//! What a variable of the environment says in the place of an option.
ghost use Rattle.std.specs.Prelude.{◌≡◌, ◌==◌, ◌↔◌, IsTrue, if◌then◌else◌, string_len};
ghost use Rattle.kmip_choices.specs.declared.variable.Variable.TheVariants.{Absent, Is};

/// What a variable of the environment says in the place of an option that is absent.
#[derive(Drop)]
pub enum Variable {
    /// Nothing: there is none, or it is empty.
    Absent,
    /// That the option has this value.
    Is(String),
    /// Nothing that can be read: its value is no UTF-8.
    NoText,
}

impl Variable {
    /// What a variable with this value says: an empty one is as none.
    pub fn of(value: String) -> Variable
        ensures { result ≡ (if string_len value == 0 then Absent else Is value) }
    {
        if value.is_empty() {
            Variable::Absent
        } else {
            Variable::Is(value)
        }
    }

    /// Whether it says nothing.
    pub fn is_absent(&self) -> bool
        ensures { IsTrue result ↔ (self.now ≡ Absent) }
    {
        matches!(self, Variable::Absent)
    }
}
