//! What a run is to do.

use crate::plan_file::PlanFile;
use kmip_choices::RunOptions;
use kmip_report::Form;

/// What a run is to do.
#[derive(Clone, Copy)]
pub struct RunJob<'a> {
    /// The plan to carry out, and the text that it was read from.
    pub plan: &'a PlanFile,
    pub options: &'a RunOptions,
    /// The server, as it stands in the text that says where a progress was saved.
    pub server: &'a str,
    /// In which form its end is printed.
    pub form: Form,
}
