//! The lock of a run.
ghost use Rattle.std.specs.Prelude.{◌≡◌, IfOk, OnOk, true};
ghost use Rattle.kmip_desk.specs.Desks.{IsLocked};

use crate::desk::Desk;
use crate::run_fault::RunFault;
use crate::run_watch::RunWatch;

/// How long a run waits before it tries the lock again, in milliseconds (own).
pub const LOCK_PAUSE_MILLISECONDS: u64 = 100;

/// How often it tries the lock in a second.
const TRIES_A_SECOND: u64 = 1_000 / LOCK_PAUSE_MILLISECONDS;

/// Takes the lock. If another run holds it, that is waited for, so many seconds at most.
///
/// # Errors
/// If it cannot be taken.
pub(crate) fn take_lock<D: Desk, W: RunWatch>(
    desk: &mut D,
    watch: &mut W,
    most_seconds: u64,
) -> Result<(), RunFault>
    ensures { (D.view desk.old).lawful → OnOk result (IsLocked (D.view desk.new)) }
{
    if tried(desk)? {
        return Ok(());
    }
    if most_seconds > 0 {
        watch.waits_for_lock();
    }
    for _ in 0..most_seconds.saturating_mul(TRIES_A_SECOND) {
        desk.wait();
        if tried(desk)? {
            return Ok(());
        }
    }
    Err(RunFault::InUse)
}

/// Tries the lock. Returns whether it is taken.
///
/// # Errors
/// If it cannot be taken.
fn tried<D: Desk>(desk: &mut D) -> Result<bool, RunFault>
    ensures lawful { (D.view desk.old).lawful → (D.view desk.new).lawful }
    ensures locked { (D.view desk.old).lawful → IfOk result (λ taken.
        taken ≡ true → IsLocked (D.view desk.new)) }
{
    match desk.take_lock() {
        Ok(taken) => Ok(taken),
        Err(error) => Err(RunFault::Unlocked(error)),
    }
}
