//! What a run tells, and is told, on this machine.

use crate::disagreeing::{report_gone, report_unanswered};
use crate::last_answer::LastAnswer;
use crate::look_pause::LookPause;
use crate::look_watcher::LookWatcher;
use crate::looking::{new_mark, tell_given_up};
use crate::refusing::Refusing;
use crate::repeating::Repeating;
use crate::running::first_wait;
use kmip_account::{Account, RunObserver};
use kmip_batch_items::Reply;
use kmip_client::{Client, Listener, Part};
use kmip_desk::{Origin, RunFault, RunLook, RunWatch};
use kmip_look::{Pause, Why};
use kmip_protocol::NoReplyReason;
use kmip_refresh::{Agreement, KeyLook};
use kmip_report::ExitStatus;
use kmip_run_command::Counting;
use kmip_run_files::{MachineKeeper, MetricsFile, now, origin_text};
use kmip_runs::{ExchangeNews, Observer};
use kmip_tally::{RunTally, Unanswered};
use kmip_trouble::Contradiction;
use kmip_ttlv::NoMemory;
use std::alloc::Global;
use std::io;

/// Reports a run on standard error and in its file of metrics, and gives it the time and the random bytes of this
/// machine.
#[derive(Drop)]
pub(crate) struct MachineWatch<'a> {
    account: &'a Account<'a>,
    refusing: Refusing<'a>,
    observer: RunObserver<'a>,
    metrics: Option<MetricsFile<'a>>,
    last: &'a LastAnswer,
    /// The waits of the looks, between two of them.
    pause: Option<LookPause<'a, &'a HostRuntime>>,
    repeating: Repeating<&'a HostRuntime>,
    /// At how many keys it looks.
    count: usize,
    /// How the server contradicts the progress, if it does.
    contradiction: Option<Contradiction>,
    /// Whether the run itself has begun, after its look.
    has_run: bool,
}

impl<'a> MachineWatch<'a> {
    /// That of a run with this account, which has not begun.
    ///
    /// # Errors
    /// If memory runs out.
    pub(crate) fn new(
        account: &'a Account<'a>,
        refusing: Refusing<'a>,
        last: &'a LastAnswer,
    ) -> Result<Self, NoMemory> {
        Ok(MachineWatch {
            account,
            refusing,
            observer: RunObserver::new(account)?,
            metrics: None,
            last,
            pause: None,
            repeating: Repeating::new(account.rt(), refusing.options().give_up),
            count: 0,
            contradiction: None,
            has_run: false,
        })
    }

    /// Writes the metrics of the run that has ended, and reports why keys are not finished, and that the run was given
    /// up, if it was. It reports nothing if the progress could not be saved, or the run failed. What there is no memory
    /// for is left out.
    pub(crate) fn end(&self, keeper: &MachineKeeper<'_>, has_given_up: bool, status: ExitStatus) {
        let findings = self.observer.findings();
        if self.has_run && keeper.refusals() == 0 && !matches!(status, ExitStatus::Failed(_)) {
            let _ = self.account.tell_unfinished(findings);
            if has_given_up {
                self.account.tell_given_up();
            }
        }
        if let Some(metrics) = &self.metrics {
            metrics.end(self.account, findings, status == ExitStatus::Done);
        }
    }
}

impl<'a> RunWatch for MachineWatch<'a> {
    type Pause = LookPause<'a, &'a HostRuntime>;

    type Looker = LookWatcher<'a>;

    fn seconds(&self) -> io::Result<u64> {
        now(self.account.rt())
    }

    fn waits_for_lock(&mut self) {
        let path = self.refusing.options().progress.as_str();
        let _ = self
            .account
            .rt()
            .eprintln(format_args!("waiting for {path}: another run has it"));
    }

    fn is_not_asked(&mut self, origin: Option<&Origin>) {
        let _ = tell_not_asked(
            self.account,
            self.refusing.options().progress.as_str(),
            origin,
        );
    }

    fn begins(&mut self, client: &Client<'_>, looked_at: Option<usize>) -> Result<(), NoMemory> {
        let (rt, options) = (self.account.rt(), self.refusing.options());
        self.observer.begin(client)?;
        self.last.note(rt);
        self.repeating = Repeating::new(rt, options.give_up);
        self.count = looked_at.unwrap_or(0);
        self.metrics = MetricsFile::of(rt, options, self.refusing.plan());
        if let Some(metrics) = &self.metrics {
            metrics.begin(self.account, self.observer.findings());
        }
        Ok(())
    }

    fn look(&mut self) -> io::Result<RunLook<Self::Pause, Self::Looker>> {
        let (rt, options) = (self.account.rt(), self.refusing.options());
        let mark = new_mark(rt)?;
        let pause = match self.pause.take() {
            Some(pause) => pause,
            None => LookPause::new(rt, self.last, first_wait(options), options.give_up),
        };
        let log = self.account.log();
        let observer = LookWatcher::new(log, self.last, mark, self.count, None);
        Ok(RunLook {
            mark,
            pause,
            observer,
        })
    }

    fn looked(&mut self, pause: Self::Pause, looks: &[KeyLook], is_silent: bool) -> bool {
        let mut pause = pause;
        self.account.log().end_line();
        if !is_silent {
            return false;
        }
        let is_repeated = self.repeating.goes_on(answered(looks)) && pause.again();
        if !is_repeated {
            tell_given_up(self.account.rt(), self.refusing.options().give_up);
        }
        self.pause = Some(pause);
        is_repeated
    }

    fn agrees(&mut self, looks: &[KeyLook]) {
        report_gone(self.account, looks);
    }

    fn contradicts(&mut self, client: &Client<'_>, looks: &[KeyLook]) {
        self.contradiction = self.refusing.contradiction(client, looks).ok();
    }

    fn is_unanswered(&mut self, looks: &[KeyLook]) {
        self.observer.note_unanswered(unanswered(looks));
    }

    fn tell_unanswered(&mut self, looks: &[KeyLook]) {
        report_unanswered(self.account, looks);
    }

    fn runs(&mut self, client: &Client<'_>) {
        if self.count > 0 {
            self.account.begin_run();
        } else {
            self.account.show_start(client);
        }
        self.has_run = true;
    }

    fn refused(&mut self, fault: RunFault) -> ExitStatus {
        self.account.end_line();
        self.refusing.tell(fault, self.contradiction.take())
    }
}

impl<'a> Counting for MachineWatch<'a> {
    fn tally(&mut self, alloc: Global, client: &Client<'_>) -> Result<RunTally, NoMemory> {
        self.observer.tally(alloc, client)
    }
}

impl<'a> Listener for MachineWatch<'a> {
    fn replied(&mut self, replies: &[Reply]) {
        self.observer.replied(replies);
    }
}

impl<'a> Observer for MachineWatch<'a> {
    fn asked(&mut self, parts: &[Part]) {
        self.observer.asked(parts);
    }

    fn missed(&mut self, reason: &NoReplyReason<'_>) {
        self.observer.missed(reason);
    }

    fn learned(&mut self, client: &Client<'_>, news: ExchangeNews) {
        self.observer.learned(client, news);
    }

    fn ended(&mut self) {
        self.observer.ended();
    }
}

/// Says that the server is not asked, as all keys are finished by the progress at the path.
fn tell_not_asked(account: &Account<'_>, path: &str, origin: Option<&Origin>) -> io::Result<()> {
    let rt = account.rt();
    let alloc = rt.alloc();
    let from = match origin {
        Some(origin) => origin_text(rt, origin)?,
        None => String::new(alloc),
    };
    let keys = match account.plan().count() {
        1 => String::from_str(alloc, "the key is finished")?,
        count => format!(in alloc; "all {count} keys are finished")?,
    };
    let _ = rt.eprintln(format_args!(
        "the server was not asked: {path}{from} says that {keys}; kmipctl look asks the server"
    ));
    Ok(())
}

/// The number of keys about which the look got an answer.
fn answered(looks: &[KeyLook]) -> usize {
    looks
        .iter()
        .filter(|look| look.agreement != Agreement::Unanswered)
        .count()
}

/// Why a look got no answer about some key; none if the replies cannot be read.
fn unanswered(looks: &[KeyLook]) -> Option<Unanswered> {
    if looks.iter().any(|look| is_refused(look)) {
        Some(Unanswered::Refused)
    } else if looks.iter().any(|look| is_unheard(look)) {
        Some(Unanswered::NoReply)
    } else {
        None
    }
}

/// Whether the server refused to say something about the key.
fn is_refused(look: &KeyLook) -> bool {
    look.agreement == Agreement::Unanswered && matches!(look.looked.why, Why::Refused(_))
}

/// Whether no reply about the key came.
fn is_unheard(look: &KeyLook) -> bool {
    look.agreement == Agreement::Unanswered
        && matches!(look.looked.why, Why::NoReply | Why::NotAsked)
}
