//! A plan is carried out over a link, and what is known is kept after each exchange.
ghost use Rattle.kmip_run_command.specs.Course.{run_state};
ghost use Rattle.kmip_run_command.specs.Runs.{RunsPlan, run_change};

use crate::run_end::RunEnd;
use kmip_client::Client;
use kmip_protocol::Link;
use kmip_runs::{Keeper, Observer, Patience, SaveFault, Stop, carry_out};
use kmip_ttlv::NoMemory;
use std::alloc::Global;

/// Carries out a plan as `run` does, from what the client knows, and prints nothing. Makes at most `limit` exchanges.
/// Returns how the run ended: it stopped, or what was known could not be saved.
///
/// # Errors
/// If memory runs out. What the keeper was given stays.
pub fn run_to_end<L: Link, K: Keeper, E: Patience, O: Observer>(
    alloc: Global,
    client: &mut Client<'_>,
    limit: usize,
    link: &mut L,
    keeper: &mut K,
    patience: &mut E,
    observer: &mut O,
) -> Result<RunEnd, NoMemory>
    ensures { RunsPlan client.old limit
        (run_change
        (run_state (L.seen link.old) (K.kept keeper.old) (E.has_given_up patience.old)
        (E.asked patience.old))
        (run_state (L.seen link.new) (K.kept keeper.new) (E.has_given_up patience.new)
        (E.asked patience.new)))
        result client.new }
{
    let (ended, exchanges) = carry_out(alloc, client, link, keeper, patience, observer, limit);
    match ended {
        Ok(Stop::NoMemory) | Err(SaveFault::NoMemory) => Err(NoMemory),
        Ok(stop) => Ok(RunEnd::Stopped { stop, exchanges }),
        Err(SaveFault::Output) => Ok(RunEnd::Unwritten),
    }
}
