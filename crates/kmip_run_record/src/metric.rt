//! A metric: its name and what it says.

/// The name of a metric, without the `kmipctl_` of all, and what it says.
#[derive(Clone, Copy)]
pub(crate) struct Metric(pub(crate) &'static str, pub(crate) &'static str);

impl Metric {
    /// The value of its first sample in a text of metrics, if the text has one that is a whole number.
    pub(crate) fn value_in(self, text: &str) -> Option<u64> {
        let Metric(name, _help) = self;
        for line in text.lines() {
            let Some(rest) = line.strip_prefix("kmipctl_") else {
                continue;
            };
            let Some(behind) = rest.strip_prefix(name) else {
                continue;
            };
            if behind.starts_with('{') || behind.starts_with(' ') {
                let (_labels, value) = behind.rsplit_once(' ')?;
                return value.parse::<u64>().ok();
            }
        }
        None
    }
}
