//! How a simulation ended.
ghost use Rattle.std.specs.Prelude.{◌≡◌};
ghost use Rattle.kmip_sim_command.specs.SimReport.{campaign_outcome, sim_outcome};

use kmip_simulation::Simulation;
use kmip_ttlv::NoMemory;

/// How a simulation ended, unless memory ran out before it began.
#[derive(Drop)]
pub enum SimEnd {
    /// The further plan does not prolong the plan.
    ProlongsNot,
    /// The script is refused for the line of this number, from 1. It is 0 if `prolong` stands more or
    /// less often than it has to, or `crash` beside it.
    ScriptRefused(usize),
    /// The disk of the run of this number, from 1, does not allow the crash that the script has for it.
    CrashRefused(usize),
    /// The runs of the script were made. If memory ran out in one, this has the runs before it.
    Ran(Simulation),
}

impl SimEnd {
    /// Returns true if something is refused, or the last run left a key unfinished. Takes no memory.
    ///
    /// # Errors
    /// If memory ran out in a run.
    pub fn outcome(&self) -> Result<bool, NoMemory>
        ensures { result ≡ sim_outcome self.now }
    {
        match self {
            SimEnd::ProlongsNot => Ok(true),
            SimEnd::ScriptRefused(_) | SimEnd::CrashRefused(_) => Ok(true),
            SimEnd::Ran(simulation) => campaign_outcome(simulation),
        }
    }
}

/// Returns true if the last run of a simulation left a key unfinished.
///
/// # Errors
/// If memory ran out in a run.
fn campaign_outcome(simulation: &Simulation) -> Result<bool, NoMemory>
    ensures { result ≡ campaign_outcome simulation.now.end }
{
    match simulation.end.fault {
        None => Ok(!simulation.is_finished()),
        Some(NoMemory) => Err(NoMemory),
    }
}
