//! What a run begins with.
ghost use Rattle.std.specs.Prelude.{◌≡◌, List, IfOk, option_map};
ghost use Rattle.kmip_objects.specs.Objects.{Object};
ghost use Rattle.kmip_client.specs.Clients.{ClientState};
ghost use Rattle.kmip_client.specs.Held.{Held};
ghost use Rattle.kmip_progress.specs.Reading.{GivesProgress};
ghost use Rattle.kmip_run_command.specs.Course.{IsTrueText};
ghost use Rattle.kmip_run_command.specs.RunEnds.{begin_knowns};

use kmip_client::Client;
use kmip_plan::Plan;
use kmip_progress::{Progress, ProgressFault};
use std::alloc::Global;

/// A client for the plan, with what the text of a saved progress says, or with nothing known where
/// there is no text.
///
/// # Errors
/// Why the text is no progress of the plan, the first fault of the text; want of memory otherwise.
pub fn begin<'p>(
    alloc: Global,
    plan: &'p Plan,
    saved: Option<&str>,
) -> Result<Client<'p>, ProgressFault>
    // What the client knows, or the fault, is exactly what `begin_knowns` gives for the text. Only want
    // of memory is told otherwise.
    ensures exact { GivesProgress (λ (client : ClientState). client.knowns) result
        (begin_knowns plan.now (option_map (λ text. text.now) saved.entry)) }
    // The client's plan is this one.
    ensures keys { IfOk result (λ client. client.keys ≡ plan.now) }
    // The first key is next.
    ensures next { IfOk result (λ client. client.next ≡ 0) }
    // Where the text says what is true of some objects, what the client knows is true of them.
    ensures held { (objects : List Object)
        → IsTrueText objects plan.now (option_map (λ text. text.now) saved.entry)
        → IfOk result (λ client. Held objects client.keys client.knowns) }
{
    let begun = match saved {
        None => Client::fresh(alloc, plan),
        Some(text) => {
            let progress = Progress::read_text(alloc, plan, text)?;
            Client::resume(alloc, plan, &progress)
        }
    };
    begun.map_err(|_want| ProgressFault::NoMemory)
}
