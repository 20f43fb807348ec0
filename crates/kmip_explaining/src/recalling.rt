//! Why a progress is of another plan, in one line.

use crate::placing::{Sought, line_of};
use crate::refused_progress::RefusedProgress;
use crate::valuing::{KEEP_THE_ORDER, push_key, push_place, push_quoted};
use kmip_objects::standard::{
    REVOCATION_AFFILIATION_CHANGED, REVOCATION_CESSATION_OF_OPERATION,
    REVOCATION_PRIVILEGE_WITHDRAWN, REVOCATION_SUPERSEDED, REVOCATION_UNSPECIFIED,
};
use kmip_plan::{Key, Plan, Target};
use kmip_ttlv::NoMemory;
use std::alloc::Global;

/// What a line of a progress says of its key, but for the identifier.
#[derive(Clone, Copy)]
struct Noted<'a> {
    name: &'a str,
    target: &'a str,
    /// The number of the reason, which lines of format 1 do not have.
    reason: Option<&'a str>,
    done: &'a str,
}

impl<'a> Noted<'a> {
    /// What the words of a line say; none where there are too few.
    fn of(line: &'a str) -> Option<Self> {
        let mut words = line.split(' ');
        let (name, target) = (words.next()?, words.next()?);
        let (third, fourth) = (words.next()?, words.next()?);
        let (reason, done) = match words.next() {
            Some(_) => (Some(third), fourth),
            None => (None, third),
        };
        Some(Noted {
            name,
            target,
            reason,
            done,
        })
    }

    /// In what the line does not speak of this key, which has its name.
    fn difference(self, key: &Key) -> Option<Unlike> {
        let target = Target::from_word(self.target)?;
        if !target.leads_on(key.target) {
            Some(Unlike::Target)
        } else if target.is_revoked() && !self.has_reason(key.reason) {
            Some(Unlike::Reason)
        } else if self.done.parse::<usize>().ok()? > target.chain_length() {
            Some(Unlike::Done)
        } else {
            None
        }
    }

    /// Whether this is the reason of the line, if it has one.
    fn has_reason(self, reason: u32) -> bool {
        match self.reason {
            Some(word) => word.parse::<u32>().ok() == Some(reason),
            None => true,
        }
    }

    /// The reason of the line in the words of a plan, or its number where it has no word.
    fn reason_word(self) -> &'a str {
        let number = self.reason.unwrap_or("1");
        match number.parse::<u32>().ok().and_then(reason_word) {
            Some(word) => word,
            None => number,
        }
    }
}

/// Appends at which key a progress file is of another plan; nothing if no line of it shows that.
pub(crate) fn push_other_plan(
    alloc: Global,
    plan: &Plan,
    refused: RefusedProgress<'_>,
    out: &mut String,
) -> Result<(), NoMemory> {
    let recalled = Recalled {
        path: refused.plan_path,
        text: refused.plan,
        plan,
        progress_path: refused.path,
    };
    recalled.push_line(alloc, refused.text, out)
}

/// The word of a plan for a Revocation Reason Code.
fn reason_word(code: u32) -> Option<&'static str> {
    match code {
        REVOCATION_UNSPECIFIED => Some("unspecified"),
        REVOCATION_AFFILIATION_CHANGED => Some("affiliation-changed"),
        REVOCATION_SUPERSEDED => Some("superseded"),
        REVOCATION_CESSATION_OF_OPERATION => Some("cessation-of-operation"),
        REVOCATION_PRIVILEGE_WITHDRAWN => Some("privilege-withdrawn"),
        _ => None,
    }
}

/// In what the line of a progress does not speak of the key of its name.
#[derive(Clone, Copy)]
enum Unlike {
    Target,
    Reason,
    /// More steps are done than lead to the target of the line.
    Done,
}

impl Unlike {
    /// The field of the plan that it is about.
    fn field(self) -> &'static str {
        match self {
            Unlike::Target | Unlike::Done => "target",
            Unlike::Reason => "reason",
        }
    }
}

/// A plan and a progress of another plan, with where they come from.
#[derive(Clone, Copy)]
struct Recalled<'a> {
    path: &'a str,
    text: &'a str,
    plan: &'a Plan,
    progress_path: &'a str,
}

impl<'a> Recalled<'a> {
    /// Appends at which key the progress is of another plan; nothing where no line says it.
    fn push_line(self, alloc: Global, saved: &str, out: &mut String) -> Result<(), NoMemory> {
        for (index, line) in saved.lines().skip(1).enumerate() {
            let Some(noted) = Noted::of(line) else {
                return Ok(());
            };
            match self.plan.key(index) {
                Some(key) if key.attrs.name.as_str() == noted.name => {
                    if let Some(unlike) = noted.difference(key) {
                        return self.push_unlike(alloc, index, key, noted, unlike, out);
                    }
                }
                Some(_) | None => return self.push_misplaced(alloc, index, noted.name, out),
            }
        }
        Ok(())
    }

    /// Appends that the key of a line stands at another place, or is not there.
    fn push_misplaced(
        self,
        alloc: Global,
        index: usize,
        name: &str,
        out: &mut String,
    ) -> Result<(), NoMemory> {
        let mut keys = self.plan.keys().iter();
        let from = self.progress_path;
        match keys.position(|key| key.attrs.name.as_str() == name) {
            Some(now) => {
                self.push_head(alloc, now, name, "name", out)?;
                let before = index.saturating_add(1);
                write!(out, "it was key {before} in {from}: {KEEP_THE_ORDER}")?;
            }
            None => {
                push_place(out, self.path, None)?;
                push_quoted(out, name)?;
                write!(out, " of {from} is missing: {KEEP_THE_ORDER}")?;
            }
        }
        Ok(())
    }

    /// Appends in what a line does not speak of its key.
    fn push_unlike(
        self,
        alloc: Global,
        index: usize,
        key: &Key,
        noted: Noted<'_>,
        unlike: Unlike,
        out: &mut String,
    ) -> Result<(), NoMemory> {
        self.push_head(alloc, index, noted.name, unlike.field(), out)?;
        let from = self.progress_path;
        let (target, done) = (noted.target, noted.done);
        match unlike {
            Unlike::Target => {
                let now = key.target.word();
                write!(
                    out,
                    "the target is \"{now}\", and was \"{target}\" in {from}: \"{target}\" does not lead to it"
                )?;
            }
            Unlike::Reason => {
                let now = reason_word(key.reason).unwrap_or("none");
                let before = noted.reason_word();
                write!(
                    out,
                    "the reason is \"{now}\", and was \"{before}\" in {from}: it must not change"
                )?;
            }
            Unlike::Done => write!(
                out,
                "{done} of its steps are done in {from}: that is more than lead to \"{target}\""
            )?,
        }
        Ok(())
    }

    /// Appends the place of a key's field, and the key.
    fn push_head(
        self,
        alloc: Global,
        index: usize,
        name: &str,
        field: &str,
        out: &mut String,
    ) -> Result<(), NoMemory> {
        let place = index.saturating_add(1);
        let line = match line_of(alloc, self.text, Sought::Field(place, field))? {
            Some(line) => Some(line),
            None => line_of(alloc, self.text, Sought::Key(place))?,
        };
        push_place(out, self.path, line)?;
        push_key(out, place, Some(name))?;
        Ok(())
    }
}
