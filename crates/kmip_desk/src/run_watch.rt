//! Is told of a run, and tells it what only the machine knows.
ghost use Rattle.std.specs.Prelude.{◌≢◌};

use crate::origin::Origin;
use crate::run_fault::RunFault;
use crate::run_look::RunLook;
use kmip_client::Client;
use kmip_look::Pause;
use kmip_protocol::ExchangeObserver;
use kmip_refresh::KeyLook;
use kmip_report::ExitStatus;
use kmip_run_command::Counting;
use kmip_runs::Observer;
use kmip_ttlv::NoMemory;
use std::io;

/// Is told of a run as it goes on, tells it the time and what its looks need, and says why a run did not begin.
pub trait RunWatch: Observer + Counting {
    /// What waits before a question of a look is sent again.
    type Pause: Pause + Drop;

    /// What is told of each exchange of a look.
    type Looker: ExchangeObserver + Drop;

    /// The seconds since the start of 1970.
    ///
    /// # Errors
    /// If the clock does not tell the time.
    fn seconds(&self) -> io::Result<u64>;

    /// Another run holds the lock, and is waited for.
    fn waits_for_lock(&mut self);

    /// All keys are finished by the progress, so the server is not asked.
    fn is_not_asked(&mut self, origin: Option<&Origin>);

    /// The run begins with what this client knows. First it looks at so many keys, if it looks.
    ///
    /// # Errors
    /// If memory runs out.
    fn begins(&mut self, client: &Client<'_>, looked_at: Option<usize>) -> Result<(), NoMemory>;

    /// What the next look is given.
    ///
    /// # Errors
    /// If the system gives no random bytes.
    fn look(&mut self) -> io::Result<RunLook<Self::Pause, Self::Looker>>;

    /// A look ended. If it is silent, some key got no answer as no reply came. Returns whether the run looks again
    /// then.
    fn looked(&mut self, pause: Self::Pause, looks: &[KeyLook], is_silent: bool) -> bool;

    /// The server agrees with the progress.
    fn agrees(&mut self, looks: &[KeyLook]);

    /// The server contradicts the progress, of which this client knows what it says.
    fn contradicts(&mut self, client: &Client<'_>, looks: &[KeyLook]);

    /// The server did not say whether it agrees. The report of that is about to be printed.
    fn is_unanswered(&mut self, looks: &[KeyLook]);

    /// The server did not say whether it agrees, and the report of that was printed.
    fn tell_unanswered(&mut self, looks: &[KeyLook]);

    /// The first exchange of the run itself is about to be made, if there is one.
    fn runs(&mut self, client: &Client<'_>);

    /// The run did not begin: prints why, and returns how the program ends.
    fn refused(&mut self, fault: RunFault) -> ExitStatus
        // It does not end with `Done`.
        ensures { result ≢ ExitStatus.Done };
}
