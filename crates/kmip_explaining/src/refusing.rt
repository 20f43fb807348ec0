//! Why a text is no plan, in one line: where it is wrong, what stands there, and what may stand there.

use crate::explanation::Explanation;
use crate::lawful::{
    ALGORITHMS, NAMES, REASONS, TARGETS, TOO_MANY, USAGES, is_never_revoked, lengths_of, no_usage,
    twice,
};
use crate::mended::Mended;
use crate::placing::{Sought, field_at, key_at, line_of, name_of};
use crate::valuing::{push_key, push_place, push_quoted, push_value};
use kmip_plan::{PlanFault, read_plan};
use kmip_ttlv::NoMemory;
use std::alloc::{AllocError, Global};
use toml::{Table, Value};

/// What the reader of TOML says before `L, column C`.
const BEFORE_A_LINE: &str = "TOML parse error at line ";

/// How many faults of a plan are reported (own).
const MOST_FAULTS: usize = 20;

/// Reports on standard error why the text of the file at this path is not a plan: its first fault, and then others,
/// a line each. Nothing if it is a plan, or memory runs out. It has no clause.
pub fn tell_refusal(rt: &HostRuntime, path: &str, plan: &str) {
    if let Ok(Some(line)) = refusal_line(rt.alloc(), path, plan) {
        let _ = rt.eprintln(line.as_str());
        let _ = tell_others(rt, path, plan);
    }
}

/// Reports the faults of a plan after the first one.
fn tell_others(rt: &HostRuntime, path: &str, plan: &str) -> Result<(), NoMemory> {
    let alloc = rt.alloc();
    let Some(mut mended) = Mended::of(alloc, plan)? else {
        return Ok(());
    };
    let Ok(table) = toml::table_from_str(alloc, plan) else {
        return Ok(());
    };
    for number in 0..=MOST_FAULTS {
        let Some(fault) = mended.fault()? else {
            return Ok(());
        };
        if number == MOST_FAULTS {
            let _ = rt.eprintln(format_args!("{path}: there are more faults"));
        } else if number > 0 {
            let mut line = String::new(alloc);
            let refused = Refused {
                table: &table,
                fault: &fault,
            };
            refused.push_line(alloc, path, plan, &mut line)?;
            let _ = rt.eprintln(line.as_str());
        }
        if !mended.mend(&fault)? {
            return Ok(());
        }
    }
    Ok(())
}

/// The line that says why a text is no plan; none where it is one.
fn refusal_line(alloc: Global, path: &str, plan: &str) -> Result<Option<String>, NoMemory> {
    let Some(fault) = read_plan(alloc, plan).err() else {
        return Ok(None);
    };
    let mut line = String::new(alloc);
    match toml::table_from_str(alloc, plan) {
        Ok(table) => {
            let refused = Refused {
                table: &table,
                fault: &fault,
            };
            refused.push_line(alloc, path, plan, &mut line)?;
        }
        Err(fault) if fault.is_memory() => return Err(NoMemory),
        Err(fault) => push_misread(alloc, path, &fault, &mut line)?,
    }
    Ok(Some(line))
}

/// Finds at which line a text has this fault, by which it is not a plan, and says why it is one.
///
/// # Errors
/// If memory runs out.
pub fn explained(alloc: Global, plan: &str, fault: &PlanFault) -> Result<Explanation, NoMemory> {
    let mut why = String::new(alloc);
    let line = match toml::table_from_str(alloc, plan) {
        Ok(table) => {
            let refused = Refused {
                table: &table,
                fault,
            };
            refused.push_why(&mut why)?;
            refused.line(alloc, plan)?
        }
        Err(fault) if fault.is_memory() => return Err(NoMemory),
        Err(fault) => {
            why.push_str(fault.message())?;
            line_misread(alloc, &fault)?
        }
    };
    Ok(Explanation { line, why })
}

/// The line at which a text is no TOML.
fn line_misread(alloc: Global, fault: &toml::de::Error) -> Result<Option<usize>, AllocError> {
    let told = format!(in alloc; "{fault}")?;
    let line = place_in(told.as_str()).and_then(|(line, _)| line.parse::<usize>().ok());
    Ok(line)
}

/// Appends where a text is no TOML, and why.
fn push_misread(
    alloc: Global,
    path: &str,
    fault: &toml::de::Error,
    out: &mut String,
) -> Result<(), AllocError> {
    let told = format!(in alloc; "{fault}")?;
    out.push_str(path)?;
    out.push_str(":")?;
    if let Some((line, column)) = place_in(told.as_str()) {
        write!(out, "{line}:{column}:")?;
    }
    write!(out, " {}", fault.message())
}

/// The line and the column in what the reader of TOML tells of a fault.
fn place_in(told: &str) -> Option<(&str, &str)> {
    let (head, _) = told.split_once('\n')?;
    head.strip_prefix(BEFORE_A_LINE)?.split_once(", column ")
}

/// The table that a text is, and why it is no plan.
#[derive(Clone, Copy)]
struct Refused<'a> {
    table: &'a Table,
    fault: &'a PlanFault,
}

impl<'a> Refused<'a> {
    /// The key that is at fault, be it a table or not.
    fn key(self) -> Option<&'a Value> {
        key_at(self.table, self.fault.place()?)
    }

    /// A field of that key.
    fn field(self, field: &str) -> Option<&'a Value> {
        field_at(self.key()?, field)
    }

    /// The algorithm of that key, and the lengths that it may have, where it is one of the profile.
    fn algorithm(self) -> Option<(&'a str, &'static str)> {
        let word = self.field("algorithm")?.as_str()?;
        Some((word, lengths_of(word)?))
    }

    /// The index of the usage of that key that is at fault: the first element that is none, else the
    /// first word that stands there before.
    fn wrong_usage(self) -> Option<usize> {
        let usages = self.field("usage")?.as_array()?;
        no_usage(usages).or_else(|| twice(usages))
    }

    /// What of the text is at fault; none where nothing is there.
    fn sought(self) -> Option<Sought<'a>> {
        match self.fault {
            PlanFault::Toml | PlanFault::NoMemory => None,
            PlanFault::NoKeys => Some(Sought::Top("key")),
            PlanFault::TooMany => Some(Sought::Key(TOO_MANY)),
            PlanFault::Missing(_, place) => Some(Sought::Key(*place)),
            PlanFault::Unknown(word, 0) => Some(Sought::Top(word.as_str())),
            PlanFault::Unknown(word, place) => Some(Sought::Field(*place, word.as_str())),
            PlanFault::BadName(place) | PlanFault::SameName(place) => {
                Some(Sought::Field(*place, "name"))
            }
            PlanFault::BadLength(place) => match self.algorithm() {
                Some(_) => Some(Sought::Field(*place, "length")),
                None => Some(Sought::Field(*place, "algorithm")),
            },
            PlanFault::BadUsage(place) => match self.wrong_usage() {
                Some(index) => Some(Sought::Element(*place, "usage", index)),
                None => Some(Sought::Field(*place, "usage")),
            },
            PlanFault::BadTarget(place) => Some(Sought::Field(*place, "target")),
            PlanFault::BadReason(place) => Some(Sought::Field(*place, "reason")),
        }
    }

    /// The line of the text at which that begins; none where it cannot be told.
    fn line(self, alloc: Global, plan: &str) -> Result<Option<usize>, NoMemory> {
        match self.sought() {
            Some(sought) => line_of(alloc, plan, sought),
            None => Ok(None),
        }
    }

    /// Appends the whole line.
    fn push_line(
        self,
        alloc: Global,
        path: &str,
        plan: &str,
        out: &mut String,
    ) -> Result<(), NoMemory> {
        let line = self.line(alloc, plan)?;
        push_place(out, path, line)?;
        if let Some(key) = self.key() {
            let name = match self.fault {
                PlanFault::BadName(_) => None,
                _ => name_of(key),
            };
            push_key(out, self.fault.place().unwrap_or(0), name)?;
        }
        self.push_why(out)
    }

    /// Appends what is wrong, and what may stand there. A text whose table was read is TOML, so that it
    /// is none can be want of memory alone.
    fn push_why(self, out: &mut String) -> Result<(), NoMemory> {
        match self.fault {
            PlanFault::Toml | PlanFault::NoMemory => return Err(NoMemory),
            PlanFault::NoKeys => self.push_no_keys(out)?,
            PlanFault::TooMany => self.push_too_many(out)?,
            PlanFault::Missing(field, _) => self.push_missing(field.word(), out)?,
            PlanFault::Unknown(word, place) => push_unknown(word.as_str(), *place, out)?,
            PlanFault::BadName(_) => self.push_wrong("name", NAMES, out)?,
            PlanFault::BadLength(_) => self.push_suite(out)?,
            PlanFault::BadUsage(_) => self.push_usage(out)?,
            PlanFault::BadTarget(_) => self.push_wrong("target", TARGETS, out)?,
            PlanFault::BadReason(_) => self.push_reason(out)?,
            PlanFault::SameName(place) => self.push_same(*place, out)?,
        }
        Ok(())
    }

    /// Appends that there are no keys, or what stands in their place.
    fn push_no_keys(self, out: &mut String) -> Result<(), AllocError> {
        match self.table.get("key") {
            Some(value) => {
                out.push_str("\"key\" is ")?;
                push_value(out, Some(value))?;
            }
            None => out.push_str("there is no key")?,
        }
        out.push_str(": a plan has at least one [[key]]")
    }

    /// Appends how many keys there are.
    fn push_too_many(self, out: &mut String) -> Result<(), AllocError> {
        let count = match self.table.get("key") {
            Some(Value::Array(keys)) => keys.len(),
            Some(_) | None => 0,
        };
        write!(out, "there are {count} keys: a plan has at most 1000")
    }

    /// Appends that a field is missing, or that the key is no table, which has none.
    fn push_missing(self, field: &str, out: &mut String) -> Result<(), AllocError> {
        match self.key() {
            Some(Value::Table(_)) | None => write!(out, "there is no {field}")?,
            Some(value) => {
                out.push_str("it is ")?;
                push_value(out, Some(value))?;
            }
        }
        out.push_str(": a key needs name, algorithm, length, usage and target")
    }

    /// Appends what stands in a field, and what may stand there.
    fn push_wrong(self, field: &str, lawful: &str, out: &mut String) -> Result<(), AllocError> {
        write!(out, "the {field} is ")?;
        push_value(out, self.field(field))?;
        write!(out, ": it must be {lawful}")
    }

    /// Appends what is wrong with the algorithm, or with the length where the algorithm is lawful.
    fn push_suite(self, out: &mut String) -> Result<(), AllocError> {
        let Some((algorithm, lengths)) = self.algorithm() else {
            return self.push_wrong("algorithm", ALGORITHMS, out);
        };
        out.push_str("the length is ")?;
        push_value(out, self.field("length"))?;
        write!(out, ": for {algorithm} it must be {lengths}")
    }

    /// Appends what is wrong with the usage: the first element that is none, else the first word that
    /// stands there before, else all of it.
    fn push_usage(self, out: &mut String) -> Result<(), AllocError> {
        let Some(Value::Array(usages)) = self.field("usage") else {
            return self.push_wrong("usage", USAGES, out);
        };
        let Some(index) = self.wrong_usage() else {
            return self.push_wrong("usage", USAGES, out);
        };
        out.push_str("the usage has ")?;
        push_value(out, usages.as_slice().get(index))?;
        if no_usage(usages).is_none() {
            out.push_str(" twice")?;
        }
        write!(out, ": use {USAGES}")
    }

    /// Appends what is wrong with the reason, or that the target has none.
    fn push_reason(self, out: &mut String) -> Result<(), AllocError> {
        match self.field("target") {
            Some(Value::String(target)) if is_never_revoked(target.as_str()) => {
                out.push_str("the reason is ")?;
                push_value(out, self.field("reason"))?;
                write!(
                    out,
                    ": a key whose target is \"{target}\" must not have one"
                )
            }
            Some(_) | None => self.push_wrong("reason", REASONS, out),
        }
    }

    /// Appends which key before the one at this place has its name.
    fn push_same(self, place: usize, out: &mut String) -> Result<(), AllocError> {
        let name = self.key().and_then(name_of);
        for earlier in 1..place {
            if key_at(self.table, earlier).and_then(name_of) == name {
                return write!(
                    out,
                    "key {earlier} has the same name: each key needs its own"
                );
            }
        }
        out.push_str("another key has the same name: each key needs its own")
    }
}

/// Appends that a field is none of a key, or of a plan at place 0, and which there are.
fn push_unknown(word: &str, place: usize, out: &mut String) -> Result<(), AllocError> {
    push_quoted(out, word)?;
    if place == 0 {
        out.push_str(" is not a field of a plan, which has only [[key]]")
    } else {
        out.push_str(
            " is not a field of a key: the fields are name, algorithm, length, usage, target and reason",
        )
    }
}
