//! The file that a collector of metrics reads of a look.

use crate::metrics_place::MetricsPlace;
use crate::saved::now;
use kmip_account::ExchangeLog;
use kmip_choices::LookOptions;
use kmip_run_record::{LookCounts, LookMetrics};
use std::io;

/// The file that a collector of metrics reads of a look. A failure to write it changes nothing of the look: it is
/// reported on standard error.
#[derive(Drop)]
pub struct LookMetricsFile<'a> {
    rt: &'a HostRuntime,
    place: MetricsPlace<'a>,
    /// The path of the plan, as the command line has it.
    plan: &'a str,
}

impl<'a> LookMetricsFile<'a> {
    /// That of a look; none if none is asked for, or it cannot be used, which is reported.
    pub fn of(rt: &'a HostRuntime, options: &'a LookOptions) -> Option<LookMetricsFile<'a>> {
        let path = match &options.metrics {
            Some(path) => path.as_str(),
            None => return None,
        };
        let place = MetricsPlace::of(rt, path, options.plan.as_str(), None)?;
        Some(LookMetricsFile {
            rt,
            place,
            plan: options.plan.as_str(),
        })
    }

    /// Writes the metrics of a look that has ended.
    pub fn write(&self, log: &ExchangeLog<'_>, counts: LookCounts) {
        if let Err(error) = self.write_text(log, counts) {
            self.place.report(&error);
        }
    }

    fn write_text(&self, log: &ExchangeLog<'_>, counts: LookCounts) -> io::Result<()> {
        let before = match self.place.text()? {
            Some(text) => LookMetrics::last_times(text.as_str()),
            None => LookMetrics::last_times(""),
        };
        let (now, answered) = (now(self.rt)?, log.seconds_since_answer());
        let metrics = LookMetrics {
            plan: self.plan,
            counts,
            spent: log.spent(),
            milliseconds: log.milliseconds(),
            last: before.renewed(now, answered, counts.is_finished()),
        };
        let text = metrics.text(self.rt.alloc())?;
        self.place.write(text.as_str())
    }
}
