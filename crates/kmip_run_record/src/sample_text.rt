//! Samples of metrics, in the text format of Prometheus.

use crate::metric::Metric;
use std::alloc::{AllocError, Global};

/// Samples of metrics in the text format of Prometheus, each a gauge with the label of a plan.
///
/// Source: Prometheus, Exposition formats, Text-based format.
#[derive(Drop)]
pub(crate) struct SampleText {
    alloc: Global,
    /// The label of the plan, as `plan="plan.toml"`.
    label: String,
    text: String,
}

impl SampleText {
    /// No sample yet, of the plan at this path.
    ///
    /// # Errors
    /// If memory runs out.
    pub(crate) fn new(alloc: Global, plan: &str) -> Result<Self, AllocError> {
        let mut label = String::from_str(alloc, "plan=\"")?;
        push_escaped(plan, &mut label)?;
        label.push_str("\"")?;
        Ok(SampleText {
            alloc,
            label,
            text: String::new(alloc),
        })
    }

    /// The text of the samples.
    pub(crate) fn into_text(self) -> String {
        self.text
    }

    /// Appends a metric of one value.
    ///
    /// # Errors
    /// If memory runs out.
    pub(crate) fn push_gauge(&mut self, metric: Metric, value: u64) -> Result<(), AllocError> {
        self.push_head(metric)?;
        let (Metric(name, _help), label) = (metric, &self.label);
        let sample = format!(in self.alloc; "kmipctl_{name}{{{label}}} {value}\n")?;
        self.text.push_str(sample.as_str())
    }

    /// Appends a time since the start of 1970, in seconds; nothing if it is not known.
    ///
    /// # Errors
    /// If memory runs out.
    pub(crate) fn push_time(
        &mut self,
        metric: Metric,
        time: Option<u64>,
    ) -> Result<(), AllocError> {
        match time {
            Some(time) => self.push_gauge(metric, time),
            None => Ok(()),
        }
    }

    /// Appends a metric of a time in milliseconds, which is written in seconds.
    ///
    /// # Errors
    /// If memory runs out.
    pub(crate) fn push_milliseconds(
        &mut self,
        metric: Metric,
        milliseconds: u64,
    ) -> Result<(), AllocError> {
        self.push_head(metric)?;
        let (Metric(name, _help), label) = (metric, &self.label);
        let (seconds, rest) = (milliseconds / 1000, milliseconds % 1000);
        let sample = format!(in self.alloc; "kmipctl_{name}{{{label}}} {seconds}.{rest:03}\n")?;
        self.text.push_str(sample.as_str())
    }

    /// Appends a metric with a value for each of these values of a further label.
    ///
    /// # Errors
    /// If memory runs out.
    pub(crate) fn push_each(
        &mut self,
        metric: Metric,
        further: &str,
        values: &[(&str, u64)],
    ) -> Result<(), AllocError> {
        self.push_head(metric)?;
        let Metric(name, _help) = metric;
        for (word, value) in values {
            let label = &self.label;
            let sample = format!(in self.alloc;
                "kmipctl_{name}{{{label},{further}=\"{word}\"}} {value}\n"
            )?;
            self.text.push_str(sample.as_str())?;
        }
        Ok(())
    }

    /// Appends what a metric says, and its type.
    fn push_head(&mut self, metric: Metric) -> Result<(), AllocError> {
        let Metric(name, help) = metric;
        let head = format!(in self.alloc;
            "# HELP kmipctl_{name} {help}\n# TYPE kmipctl_{name} gauge\n"
        )?;
        self.text.push_str(head.as_str())
    }
}

/// Appends the value of a label, in which a backslash, a quotation mark and a line feed are escaped.
fn push_escaped(value: &str, text: &mut String) -> Result<(), AllocError> {
    for character in value.chars() {
        match character {
            '\\' => text.push_str("\\\\")?,
            '"' => text.push_str("\\\"")?,
            '\n' => text.push_str("\\n")?,
            other => text.push(other)?,
        }
    }
    Ok(())
}
