//! Why a plan does not prolong an earlier one, in one line.

use crate::placing::{Sought, field_at, key_at, line_of};
use crate::refusing::tell_refusal;
use crate::valuing::{KEEP_THE_ORDER, push_key, push_place, push_quoted, push_value};
use kmip_plan::{Key, Plan, read_plan};
use kmip_ttlv::NoMemory;
use std::alloc::{AllocError, Global};
use toml::{Table, Value};

/// A plan, the table that its text is, and where that comes from.
#[derive(Drop)]
struct Judged<'a> {
    path: &'a str,
    text: &'a str,
    table: Table,
    plan: Plan,
}

impl<'a> Judged<'a> {
    /// The plan of this text; none where it is no plan.
    fn new(alloc: Global, path: &'a str, text: &'a str) -> Result<Option<Self>, NoMemory> {
        let Ok(plan) = read_plan(alloc, text) else {
            return Ok(None);
        };
        match toml::table_from_str(alloc, text) {
            Ok(table) => Ok(Some(Judged {
                path,
                text,
                table,
                plan,
            })),
            Err(_) => Err(NoMemory),
        }
    }

    /// A field of the key of this index, from 0.
    fn field(&self, index: usize, field: &str) -> Option<&Value> {
        field_at(key_at(&self.table, index.checked_add(1)?)?, field)
    }
}

/// What of a key is not as it was in the earlier plan.
#[derive(Clone, Copy)]
enum Change {
    Algorithm,
    Length,
    Usage,
    Target,
    Reason,
}

impl Change {
    /// The field's name in a plan.
    fn word(self) -> &'static str {
        match self {
            Change::Algorithm => "algorithm",
            Change::Length => "length",
            Change::Usage => "usage",
            Change::Target => "target",
            Change::Reason => "reason",
        }
    }
}

/// The first thing by which a plan does not prolong an earlier one. A number is the index of a key, from
/// 0.
#[derive(Clone, Copy)]
enum Difference {
    /// The key of this index in the earlier plan is in the plan no more.
    Gone(usize),
    /// A key stands at another place than in the earlier plan.
    Moved { now: usize, before: usize },
    /// A field of a key is changed, and may not be.
    Changed(usize, Change),
}

/// Tells on standard error, in one line, why the plan of the first file does not prolong that of the
/// second, or why the second is no plan. Tells nothing where there is no memory, where it prolongs it,
/// and where the first is no plan. It has no clause.
pub fn tell_prolonging(
    rt: &HostRuntime,
    path: &str,
    plan: &str,
    earlier_path: &str,
    earlier: &str,
) {
    tell_refusal(rt, earlier_path, earlier);
    let alloc = rt.alloc();
    if let Ok(Some(line)) = difference_line(alloc, path, plan, earlier_path, earlier) {
        let _ = rt.eprintln(line.as_str());
    }
}

/// The line that says why a plan does not prolong another; none where one is no plan, or it does.
fn difference_line(
    alloc: Global,
    path: &str,
    plan: &str,
    earlier_path: &str,
    earlier: &str,
) -> Result<Option<String>, NoMemory> {
    let Some(new) = Judged::new(alloc, path, plan)? else {
        return Ok(None);
    };
    let Some(old) = Judged::new(alloc, earlier_path, earlier)? else {
        return Ok(None);
    };
    let Some(difference) = first_difference(new.plan.keys(), old.plan.keys()) else {
        return Ok(None);
    };
    let mut line = String::new(alloc);
    match difference {
        Difference::Gone(index) => push_gone(&new, &old, index, &mut line)?,
        Difference::Moved { now, before } => {
            push_head(alloc, &new, now, "name", &mut line)?;
            push_moved(&old, before, &mut line)?;
        }
        Difference::Changed(index, change) => {
            push_head(alloc, &new, index, change.word(), &mut line)?;
            push_changed(&new, &old, index, change, &mut line)?;
        }
    }
    Ok(Some(line))
}

/// The first thing by which some keys do not go on from older ones.
fn first_difference(new: &[Key], old: &[Key]) -> Option<Difference> {
    for (index, earlier) in old.iter().enumerate() {
        match new.get(index) {
            Some(later) if has_name(later, earlier) => {
                if let Some(change) = change_of(later, earlier) {
                    return Some(Difference::Changed(index, change));
                }
            }
            later => return Some(misplaced(new, old, index, earlier, later)),
        }
    }
    None
}

/// What became of the old key of this index, at which another key stands now, or none.
fn misplaced(
    new: &[Key],
    old: &[Key],
    index: usize,
    earlier: &Key,
    later: Option<&Key>,
) -> Difference {
    let Some(now) = new.iter().position(|key| has_name(key, earlier)) else {
        return Difference::Gone(index);
    };
    let before = later.and_then(|later| old.iter().position(|key| has_name(key, later)));
    match before {
        Some(before) => Difference::Moved { now: index, before },
        None => Difference::Moved { now, before: index },
    }
}

/// Whether two keys have one name.
fn has_name(key: &Key, other: &Key) -> bool {
    key.attrs.name.as_str() == other.attrs.name.as_str()
}

/// What keeps a key from going on from the old one of its name.
fn change_of(new: &Key, old: &Key) -> Option<Change> {
    if new.attrs.algorithm != old.attrs.algorithm {
        Some(Change::Algorithm)
    } else if new.attrs.length != old.attrs.length {
        Some(Change::Length)
    } else if new.attrs.usage != old.attrs.usage {
        Some(Change::Usage)
    } else if !old.target.leads_on(new.target) {
        Some(Change::Target)
    } else if old.target.is_revoked() && new.reason != old.reason {
        Some(Change::Reason)
    } else {
        None
    }
}

/// Appends that a key of the earlier plan is there no more.
fn push_gone(
    new: &Judged<'_>,
    old: &Judged<'_>,
    index: usize,
    out: &mut String,
) -> Result<(), AllocError> {
    push_place(out, new.path, None)?;
    push_value(out, old.field(index, "name"))?;
    let earlier = old.path;
    write!(out, " of {earlier} is missing: {KEEP_THE_ORDER}")
}

/// Appends the place of a key's field, and the key.
fn push_head(
    alloc: Global,
    new: &Judged<'_>,
    index: usize,
    field: &str,
    out: &mut String,
) -> Result<(), NoMemory> {
    let place = index.saturating_add(1);
    let sought = match new.field(index, field) {
        Some(_) => Sought::Field(place, field),
        None => Sought::Key(place),
    };
    let line = line_of(alloc, new.text, sought)?;
    push_place(out, new.path, line)?;
    push_key(out, place, new.field(index, "name").and_then(Value::as_str))?;
    Ok(())
}

/// Appends which place a key had.
fn push_moved(old: &Judged<'_>, before: usize, out: &mut String) -> Result<(), AllocError> {
    let place = before.saturating_add(1);
    let earlier = old.path;
    write!(out, "it was key {place} in {earlier}: {KEEP_THE_ORDER}")
}

/// Appends what a field was, and that it must not change so.
fn push_changed(
    new: &Judged<'_>,
    old: &Judged<'_>,
    index: usize,
    change: Change,
    out: &mut String,
) -> Result<(), AllocError> {
    let field = change.word();
    write!(out, "the {field} is ")?;
    push_field(new, index, field, out)?;
    out.push_str(", and was ")?;
    push_field(old, index, field, out)?;
    write!(out, " in {}: ", old.path)?;
    match change {
        Change::Target => {
            push_field(old, index, field, out)?;
            out.push_str(" does not lead to it")
        }
        Change::Algorithm | Change::Length | Change::Usage | Change::Reason => {
            out.push_str("it must not change")
        }
    }
}

/// Appends what stands in a field; a reason that is not given is the unspecified one.
fn push_field(
    judged: &Judged<'_>,
    index: usize,
    field: &str,
    out: &mut String,
) -> Result<(), AllocError> {
    match judged.field(index, field) {
        Some(value) => push_value(out, Some(value)),
        None => push_quoted(out, "unspecified"),
    }
}
