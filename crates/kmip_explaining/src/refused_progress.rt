//! Why a text is not a progress file, in one line.

use crate::recalling::push_other_plan;
use crate::valuing::{push_place, push_quoted};
use kmip_plan::{Plan, read_plan};
use kmip_progress::{Progress, ProgressFault};
use kmip_ttlv::NoMemory;
use std::alloc::Global;

/// What to do about a progress file that cannot be read.
const RESTORE: &str =
    "restore the file from a backup, or run with --afresh, which searches for each key and creates those that are missing";

/// A plan and the progress file that is refused for it, with the paths of both.
#[derive(Clone, Copy)]
pub struct RefusedProgress<'a> {
    /// The path of the plan, as it is printed.
    pub plan_path: &'a str,
    /// The text of the plan.
    pub plan: &'a str,
    /// The path of the progress file, as it was given.
    pub path: &'a str,
    /// The text of the progress file.
    pub text: &'a str,
}

impl<'a> RefusedProgress<'a> {
    /// Prints on standard error, in one line, why the file is refused for the plan, and what to do. Prints
    /// nothing if it is not refused, or if memory runs out. It has no clause.
    pub fn explain(self, rt: &HostRuntime) {
        if let Ok(Some(line)) = self.line(rt.alloc()) {
            let _ = rt.eprintln(line.as_str());
        }
    }

    /// The line that says why the file is refused; none if it is not, or if no line of it shows why.
    fn line(self, alloc: Global) -> Result<Option<String>, NoMemory> {
        let Ok(plan) = read_plan(alloc, self.plan) else {
            return Ok(None);
        };
        let mut line = String::new(alloc);
        match Progress::read_text(alloc, &plan, self.text) {
            Ok(_) => {}
            Err(ProgressFault::NoMemory) => return Err(NoMemory),
            Err(ProgressFault::Cut) => self.push_cut(&mut line)?,
            Err(ProgressFault::BadText) => self.push_bad(alloc, &plan, &mut line)?,
            Err(ProgressFault::OtherPlan) => push_other_plan(alloc, &plan, self, &mut line)?,
        }
        Ok(if line.is_empty() { None } else { Some(line) })
    }

    /// Appends that the end of the file is missing.
    fn push_cut(self, out: &mut String) -> Result<(), NoMemory> {
        push_place(out, self.path, None)?;
        let length = self.text.len();
        write!(
            out,
            "cut off: the line \"end\" with the number of keys is missing after {length} bytes; {RESTORE}"
        )?;
        Ok(())
    }

    /// Appends which line is not one of a progress file.
    fn push_bad(self, alloc: Global, plan: &Plan, out: &mut String) -> Result<(), NoMemory> {
        let Some(head) = self.text.lines().next() else {
            return Ok(());
        };
        if !is_read(alloc, plan, head, None)? {
            return self.push_line(1, head, "not the first line", out);
        }
        for (index, line) in self.text.lines().enumerate().skip(1) {
            if !line.starts_with("end ") && !is_read(alloc, plan, head, Some(line))? {
                return self.push_line(index.saturating_add(1), line, "not a line", out);
            }
        }
        push_place(out, self.path, None)?;
        write!(
            out,
            "the last line counts another number of keys; {RESTORE}"
        )?;
        Ok(())
    }

    /// Appends that the line of this number is not what it should be.
    fn push_line(
        self,
        number: usize,
        line: &str,
        fault: &str,
        out: &mut String,
    ) -> Result<(), NoMemory> {
        push_place(out, self.path, Some(number))?;
        push_quoted(out, line)?;
        write!(out, " is {fault} of a progress file; {RESTORE}")?;
        Ok(())
    }
}

/// True if a progress file with this first line, and this line of a key, if there is one, has no line that
/// cannot be read.
///
/// # Errors
/// If memory runs out.
fn is_read(alloc: Global, plan: &Plan, head: &str, key: Option<&str>) -> Result<bool, NoMemory> {
    let mut text = String::new(alloc);
    text.push_str(head)?;
    match key {
        Some(key) => write!(text, "\n{key}\nend 1\n")?,
        None => text.push_str("\nend 0\n")?,
    }
    match Progress::read_text(alloc, plan, text.as_str()) {
        Ok(_) | Err(ProgressFault::OtherPlan) => Ok(true),
        Err(ProgressFault::BadText | ProgressFault::Cut) => Ok(false),
        Err(ProgressFault::NoMemory) => Err(NoMemory),
    }
}
