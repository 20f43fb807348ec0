//! Why a key can't be brought to its target.
ghost use Rattle.std.specs.Prelude.{◌≡◌};
ghost use Rattle.kmip_client.specs.Faults.{clash_number, clash_name};

/// Why a key can't be brought to its target: what the server has under its name is not the plan's.
#[derive(Clone, Copy, Debug, PartialEq, Eq)]
pub enum Clash {
    /// The object of this name is no symmetric key with the plan's attributes.
    Attributes,
    /// It is in a state that the way to the target does not lead through.
    State,
    /// More than one object has the name.
    TwoObjects,
}

impl Clash {
    /// The number of the clash, 1 to 3. Takes no memory.
    pub fn number(self) -> u32
        ensures { result ≡ clash_number self }
    {
        match self {
            Clash::Attributes => 1,
            Clash::State => 2,
            Clash::TwoObjects => 3,
        }
    }

    /// The name of the clash, as it is printed. Takes no memory.
    pub fn name(self) -> &'static str
        ensures { result.now ≡ clash_name self }
    {
        match self {
            Clash::Attributes => "Attributes",
            Clash::State => "State",
            Clash::TwoObjects => "TwoObjects",
        }
    }
}
