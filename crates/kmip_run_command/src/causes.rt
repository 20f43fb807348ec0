//! What stands in the way of a run.
ghost use Rattle.std.specs.Prelude.{◌≡◌};
ghost use Rattle.std.specs.List.{list_any};
ghost use Rattle.kmip_run_command.specs.Causes.{cause_of, is_conflict, look_cause, silence_cause};

use kmip_client::Verdict;
use kmip_report::Cause;
use kmip_runs::Stop;
use kmip_tally::{RunTally, Unanswered};

/// What stands in the way of a run that ended so; nothing if each key is finished.
pub(crate) fn cause_of(stop: Stop, verdicts: &[Verdict], tally: &RunTally) -> Option<Cause>
    ensures { result ≡ cause_of stop verdicts.now tally.now }
{
    if stop.is_all_finished() {
        None
    } else if has_conflict(verdicts) {
        Some(Cause::Conflict)
    } else if tally.refused > 0 {
        Some(Cause::Refused)
    } else if tally.lost > 0 {
        Some(silence_cause(tally))
    } else {
        look_cause(tally.unanswered)
    }
}

/// What stands in the way if some exchanges brought no reply.
fn silence_cause(tally: &RunTally) -> Cause
    ensures { result ≡ silence_cause tally.now }
{
    if tally.lost < tally.exchanges {
        Cause::Unanswered
    } else {
        Cause::Unreachable
    }
}

/// What stands in the way of a look before a run.
fn look_cause(unanswered: Option<Unanswered>) -> Option<Cause>
    ensures { result ≡ look_cause unanswered }
{
    match unanswered {
        None => None,
        Some(Unanswered::NoReply) => Some(Cause::Unreachable),
        Some(Unanswered::Refused) => Some(Cause::Refused),
    }
}

/// Whether some key is in conflict.
fn has_conflict(verdicts: &[Verdict]) -> bool
    ensures { result ≡ list_any is_conflict verdicts.now }
{
    verdicts.iter().any(|verdict| is_conflict(*verdict))
}

fn is_conflict(verdict: Verdict) -> bool
    ensures { result ≡ is_conflict verdict }
{
    match verdict {
        Verdict::Conflict(_) => true,
        Verdict::Working | Verdict::Finished => false,
    }
}
