//! Why a run stops.
ghost use Rattle.std.specs.Prelude.{◌≡◌, ◌≢◌, IsTrue, false};
ghost use Rattle.kmip_runs.specs.Stops.{is_all_finished, stop_number, stop_name};

/// Why a run stops.
#[derive(Clone, Copy, PartialEq, Eq)]
pub enum Stop {
    /// Every key of the plan is finished.
    AllFinished,
    /// As many exchanges were made as it may make, and some key is still worked on.
    Limit,
    /// No key is worked on any more, and some key is in conflict.
    Conflict,
    /// There was no memory.
    NoMemory,
}

impl Stop {
    /// The number, 1 to 4. Takes no memory.
    pub fn number(self) -> u32
        ensures { result ≡ stop_number self }
    {
        match self {
            Stop::AllFinished => 1,
            Stop::Limit => 2,
            Stop::Conflict => 3,
            Stop::NoMemory => 4,
        }
    }

    /// The name, as it is printed. Takes no memory.
    pub fn name(self) -> &'static str
        ensures { result.now ≡ stop_name self }
    {
        match self {
            Stop::AllFinished => "AllFinished",
            Stop::Limit => "Limit",
            Stop::Conflict => "Conflict",
            Stop::NoMemory => "NoMemory",
        }
    }

    /// Whether each key of the plan is finished, so that nothing is left to do.
    pub fn is_all_finished(self) -> bool
        ensures { result ≡ is_all_finished self }
    {
        match self {
            Stop::AllFinished => true,
            Stop::Limit | Stop::Conflict | Stop::NoMemory => false,
        }
    }
    /// Whether memory ran out, so that the run has no end to tell of.
    pub fn is_no_memory(self) -> bool
        // It is true only where memory ran out.
        ensures at { IsTrue result → self ≡ Stop.NoMemory }
        // It is false only where memory did not run out.
        ensures not { result ≡ false → self ≢ Stop.NoMemory }
    {
        match self {
            Stop::NoMemory => true,
            Stop::AllFinished | Stop::Limit | Stop::Conflict => false,
        }
    }
}
