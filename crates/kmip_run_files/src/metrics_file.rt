//! The file that a collector of metrics reads of a run.

use crate::metrics_place::MetricsPlace;
use crate::saved::now;
use kmip_account::Account;
use kmip_choices::RunOptions;
use kmip_desk::PlanFile;
use kmip_run_record::{Findings, LastTimes, Metrics};
use kmip_ttlv::NoMemory;
use sha2::{Digest, Sha256};
use std::alloc::{AllocError, Global};
use std::io::{self, Error, ErrorKind};

/// How many bytes of the digest of a plan are written (own).
const DIGEST_BYTES: usize = 8;

/// The file that a collector of metrics reads of a run. A failure to write it changes nothing of the run: it is
/// reported on standard error, once.
#[derive(Drop)]
pub struct MetricsFile<'a> {
    rt: &'a HostRuntime,
    place: MetricsPlace<'a>,
    /// The path of the plan, as the command line has it.
    plan: &'a str,
    /// The first digits of the digest of the plan's text.
    digest: String,
    /// The times in the file as this run found it.
    last: LastTimes,
}

impl<'a> MetricsFile<'a> {
    /// That of a run of this plan; none if none is asked for, or it cannot be used, which is reported.
    pub fn of(
        rt: &'a HostRuntime,
        options: &'a RunOptions,
        plan: &PlanFile,
    ) -> Option<MetricsFile<'a>> {
        let path = match &options.metrics {
            Some(path) => path.as_str(),
            None => return None,
        };
        let progress = Some(options.progress.as_str());
        let place = MetricsPlace::of(rt, path, options.plan.as_str(), progress)?;
        let (digest, last) = match read(rt, &place, plan) {
            Ok(read) => read,
            Err(error) => {
                place.report(&error);
                return None;
            }
        };
        Some(MetricsFile {
            rt,
            place,
            plan: options.plan.as_str(),
            digest,
            last,
        })
    }

    /// Writes that the run begins.
    pub fn begin(&self, account: &Account<'_>, findings: &Findings) {
        self.report(account, self.write(account, findings, true, false));
    }

    /// Writes that the run has ended, with all keys finished or not.
    pub fn end(&self, account: &Account<'_>, findings: &Findings, is_finished: bool) {
        self.report(account, self.write(account, findings, false, is_finished));
    }

    /// Reports why the file could not be written, unless that was reported before.
    fn report(&self, account: &Account<'_>, written: io::Result<()>) {
        if let Err(error) = written {
            if self.place.is_first() {
                account.end_line();
                self.place.report(&error);
            }
        }
    }

    /// Writes the metrics of the run.
    fn write(
        &self,
        account: &Account<'_>,
        findings: &Findings,
        is_in_progress: bool,
        is_finished: bool,
    ) -> io::Result<()> {
        let tally = match account.tally(findings) {
            Ok(tally) => tally,
            Err(NoMemory) => return Err(Error::from(ErrorKind::OutOfMemory)),
        };
        let answered = account.log().seconds_since_answer();
        let metrics = Metrics {
            plan: self.plan,
            is_in_progress,
            standing: findings.standing(),
            tally: &tally,
            digest: self.digest.as_str(),
            last: self.last.renewed(now(self.rt)?, answered, is_finished),
        };
        let text = metrics.text(self.rt.alloc())?;
        self.place.write(text.as_str())
    }
}

/// The digest of the plan, and the times in the file of metrics.
fn read(
    rt: &HostRuntime,
    place: &MetricsPlace<'_>,
    plan: &PlanFile,
) -> io::Result<(String, LastTimes)> {
    let digest = digest_of(rt.alloc(), plan.text())?;
    let last = match place.text()? {
        Some(text) => Metrics::last_times(text.as_str()),
        None => Metrics::last_times(""),
    };
    Ok((digest, last))
}

/// The first digits of the SHA-256 digest of a text, in hexadecimal.
fn digest_of(alloc: Global, text: &str) -> Result<String, AllocError> {
    let digest = Sha256::digest(text.as_bytes());
    hex::encode(alloc, &digest[..DIGEST_BYTES])
}
