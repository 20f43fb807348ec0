//! What holds of runs after a crash, as the contract of a function that does nothing.
ghost use Rattle.kmip_run_command.specs.Laws.{CrashesLeaveGoodFiles, TheNextRunBeginsWell};

use kmip_client::laws::the_laws_of_clients_hold;
use kmip_protocol::Link;
use kmip_runs::Keeper;

/// A run may be killed, or its machine may stop, at any time. If the disk keeps the rules, the next run is as good
/// as the first. So are any number of runs, one after the other.
pub fn runs_follow_crashes<L: Link, K: Keeper>()
    // A crash leaves no file, or a true progress.
    ensures good { CrashesLeaveGoodFiles L.seen K.kept }
    // The next run begins with it as well as the first one began.
    ensures next { TheNextRunBeginsWell L.seen K.kept }
{
    the_laws_of_clients_hold(); // proof
}
