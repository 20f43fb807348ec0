//! The command `list`, over files.

use crate::reading::{plan_at, text_within};
use crate::recalling::{judge_attributes, progress_file_at};
use crate::saved::saved_text;
use kmip_choices::ListOptions;
use kmip_desk::{Origin, PlanFile};
use kmip_explaining::RefusedProgress;
use kmip_files::{MOST_PROGRESS_BYTES, ProgressFile};
use kmip_plan::Key;
use kmip_plan_report::{run_list, run_progress_refusal};
use kmip_progress::{Progress, ProgressFault};
use kmip_report::ExitStatus;
use kmip_trouble::{Trouble, plan_name, standard_output};
use kmip_ttlv::NoMemory;
use std::alloc::Global;
use std::io::{self, ErrorKind};

/// The command `list`: the plan is read first, then the progress, and then what says where that was
/// kept. No lock is taken, as the file is whole at any instant. If the progress is listed, standard
/// error has against which server it was kept, and when.
///
/// # Errors
/// What ends it before anything is printed.
pub fn list_progress(rt: &HostRuntime, options: &ListOptions) -> Result<ExitStatus, Trouble> {
    let plan = plan_at(rt, options.plan.as_str())?;
    let path = options.progress.as_str();
    let file = progress_file_at(rt, path)?;
    let saved = text_within(rt, path, MOST_PROGRESS_BYTES)?;
    let progress = match Progress::read_text(rt.alloc(), plan.plan(), saved.as_str()) {
        Ok(progress) => progress,
        Err(ProgressFault::NoMemory) => return Err(Trouble::from(NoMemory)),
        Err(fault) => return Ok(refuse(rt, options, &plan, saved.as_str(), fault)),
    };
    let line = origin_line(&file, plan.plan().keys())?;
    let form = options.format.form();
    let mut output = standard_output(rt);
    let status = run_list(rt.alloc(), form, plan.plan(), &progress, &mut output);
    if status == ExitStatus::Done {
        let _ = rt.eprintln(line.as_str());
    }
    Ok(status)
}

/// Prints that the text of a progress file is refused for this fault, and explains it on standard
/// error.
fn refuse(
    rt: &HostRuntime,
    options: &ListOptions,
    plan: &PlanFile,
    saved: &str,
    fault: ProgressFault,
) -> ExitStatus {
    let path = options.progress.as_str();
    let mut output = standard_output(rt);
    let form = options.format.form();
    let status = run_progress_refusal(rt.alloc(), form, fault, Some(path), &mut output);
    if status == ExitStatus::Refused {
        let refused = RefusedProgress {
            plan_path: plan_name(options.plan.as_str()),
            plan: plan.text(),
            path,
            text: saved,
        };
        refused.explain(rt);
    }
    status
}

/// The line that says against which server and when the progress of these keys was kept.
///
/// # Errors
/// If the progress was saved for other attributes, or memory runs out.
fn origin_line(file: &ProgressFile<'_, HostRuntime>, keys: &[Key]) -> Result<String, Trouble> {
    let rt = file.system();
    match known_origin(file)? {
        Known::Origin(origin) => {
            judge_attributes(file, &origin, keys)?;
            Ok(saved_text(rt, &origin)?)
        }
        Known::Nothing => {
            let path = file.given_path();
            let line = format!(in rt.alloc(); "the server of {path} is not known")?;
            Ok(line)
        }
        Known::Unreadable(why) => Ok(why),
    }
}

/// What is known of where a progress was saved.
#[derive(Drop)]
enum Known {
    Origin(Origin),
    /// There is no file that says so.
    Nothing,
    /// The file that should say so cannot be used: the line that says why.
    Unreadable(String),
}

/// What is known of where the progress was saved. A file that cannot be used does not keep it from being listed.
///
/// # Errors
/// If memory runs out.
fn known_origin(file: &ProgressFile<'_, HostRuntime>) -> io::Result<Known> {
    let alloc = file.system().alloc();
    let path = file.origin_path()?;
    match file.read_origin() {
        Ok(None) => Ok(Known::Nothing),
        Ok(Some(text)) => match Origin::read(alloc, text)? {
            Some(origin) => Ok(Known::Origin(origin)),
            None => unreadable(
                alloc,
                path.as_str(),
                "it does not say where a progress was saved",
            ),
        },
        Err(error) if error.kind() == ErrorKind::OutOfMemory => Err(error),
        Err(error) => {
            let why = format!(in alloc; "{error}")?;
            unreadable(alloc, path.as_str(), why.as_str())
        }
    }
}

/// The file at the path cannot be used, for this reason.
fn unreadable(alloc: Global, path: &str, why: &str) -> io::Result<Known> {
    let line = format!(in alloc; "{path}: {why}; run needs --believe to use the progress")?;
    Ok(Known::Unreadable(line))
}
