//! Texts of plans with a thousand keys, and of a million bytes and more.

use crate::asserting::{assert_number, assert_text};
use kmip_plan::{PlanFault, read_plan};
use std::alloc::{AllocError, Global};
use std::process::Abort;
use std::test::Fail;

/// How many bytes a long text has at least.
const LONG: usize = 1 << 20;

/// A front, a piece that is put behind it so many times, an end, and what is said of the text.
struct Row {
    front: &'static str,
    piece: &'static str,
    count: usize,
    end: &'static str,
    wanted: &'static str,
}

const ROWS: [Row; 20] = [
    // The keys are counted before they are looked at.
    Row {
        front: "",
        piece: "[[key]]\n",
        count: 1_000,
        end: "",
        wanted: "4 Missing name at key 1",
    },
    Row {
        front: "",
        piece: "[[key]]\n",
        count: 1_001,
        end: "",
        wanted: "3 TooMany",
    },
    Row {
        front: "key = [",
        piece: "3, ",
        count: 1_000,
        end: "]\n",
        wanted: "4 Missing name at key 1",
    },
    Row {
        front: "key = [",
        piece: "3, ",
        count: 1_001,
        end: "]\n",
        wanted: "3 TooMany",
    },
    Row {
        front: "",
        piece: "[[key]]\n",
        count: LONG / 8 + 1,
        end: "",
        wanted: "3 TooMany",
    },
    Row {
        front: "key = [",
        piece: "{}, ",
        count: LONG / 4 + 1,
        end: "]\n",
        wanted: "3 TooMany",
    },
    Row {
        front: "",
        piece: "[",
        count: LONG,
        end: "",
        wanted: "1 Toml",
    },
    Row {
        front: "key = ",
        piece: "[",
        count: LONG,
        end: "\n",
        wanted: "1 Toml",
    },
    Row {
        front: "key = ",
        piece: "{ a = ",
        count: LONG / 6 + 1,
        end: "\n",
        wanted: "1 Toml",
    },
    // TOML names no limit; the reader of it takes 80 levels.
    Row {
        front: "a",
        piece: ".a",
        count: LONG / 2 + 1,
        end: " = 1\n",
        wanted: "1 Toml",
    },
    Row {
        front: "[a",
        piece: ".a",
        count: LONG / 2 + 1,
        end: "]\n",
        wanted: "1 Toml",
    },
    Row {
        front: "[[key]]\nname = \"",
        piece: "k",
        count: LONG,
        end: "\"\nalgorithm = 1\nlength = 1\nusage = 1\ntarget = 1\n",
        wanted: "6 BadName at key 1",
    },
    Row {
        front: "[[key]]\nname = \"",
        piece: "\\u006B",
        count: LONG / 6 + 1,
        end: "\"\nalgorithm = 1\nlength = 1\nusage = 1\ntarget = 1\n",
        wanted: "6 BadName at key 1",
    },
    Row {
        front: "[[key]]\nname = \"k1\"\nalgorithm = \"AES\"\nlength = ",
        piece: "9",
        count: LONG,
        end: "\nusage = 1\ntarget = 1\n",
        wanted: "1 Toml",
    },
    Row {
        front: "[[key]]\nname = \"k1\"\nalgorithm = \"AES\"\nlength = 256\nusage = [",
        piece: "\"sign\", ",
        count: LONG / 8 + 1,
        end: "]\ntarget = 1\n",
        wanted: "8 BadUsage at key 1",
    },
    Row {
        front: "[[key]]\nname = \"k1\"\n",
        piece: "zeta.a = 1\nzeta.a = 1\n",
        count: LONG / 22 + 1,
        end: "",
        wanted: "1 Toml",
    },
    Row {
        front: "# ",
        piece: "-",
        count: LONG,
        end: "\n",
        wanted: "2 NoKeys",
    },
    Row {
        front: "#",
        piece: "-",
        count: LONG,
        end: "",
        wanted: "2 NoKeys",
    },
    Row {
        front: "",
        piece: "# nothing\n",
        count: LONG / 10 + 1,
        end: "",
        wanted: "2 NoKeys",
    },
    Row {
        front: "",
        piece: " \n",
        count: LONG / 2 + 1,
        end: "",
        wanted: "2 NoKeys",
    },
];

/// The text of a row.
fn text_of(alloc: Global, row: &Row) -> Result<String, AllocError> {
    let mut text = String::from_str(alloc, row.front)?;
    for _ in 0..row.count {
        text.push_str(row.piece)?;
    }
    text.push_str(row.end)?;
    Ok(text)
}

/// Writes a fault with its number, field and place.
fn push_fault(text: &mut String, fault: &PlanFault) -> Result<(), AllocError> {
    write!(text, "{} {}", fault.number(), fault.name())?;
    if let Some(field) = fault.field() {
        write!(text, " {field}")?;
    }
    if let Some(place) = fault.place() {
        write!(text, " at key {place}")?;
    }
    Ok(())
}

/// Why a text is refused; nothing where it is read.
fn refusal(alloc: Global, text: &str) -> Result<String, AllocError> {
    let mut said = String::new(alloc);
    if let Some(fault) = read_plan(alloc, text).err() {
        push_fault(&mut said, &fault)?;
    }
    Ok(said)
}

/// The text of a row is refused as it says.
fn judge(rt: &impl Abort, alloc: Global, row: &Row) -> Result<(), AllocError> {
    let text = text_of(alloc, row)?;
    let said = refusal(alloc, text.as_str())?;
    assert_text(rt, said.as_str(), row.wanted, row.piece);
    Ok(())
}

/// A thousand keys, each behind a comment of a thousand bytes.
fn padded_keys(alloc: Global) -> Result<String, AllocError> {
    let mut text = String::new(alloc);
    for number in 0..1_000 {
        write!(text, "# {:->1000}\n[[key]]\nname = \"k{number}\"\n", "")?;
        text.push_str(
            "algorithm = \"AES\"\nlength = 256\nusage = [\"sign\"]\ntarget = \"active\"\n",
        )?;
    }
    Ok(text)
}

/// A long text of a thousand keys is read.
fn judge_padded(rt: &impl Abort, alloc: Global) -> Result<(), Fail> {
    let text = padded_keys(alloc)?;
    assert!(rt; text.len() >= LONG);
    let plan = read_plan(alloc, text.as_str())?;
    assert_number(rt, plan.count(), 1_000, "a thousand keys among comments");
    Ok(())
}

#[test]
fn judges_long_texts(rt: HostRuntime) -> Result<(), Fail> {
    for row in &ROWS {
        judge(&rt, rt.alloc(), row)?;
    }
    judge_padded(&rt, rt.alloc())
}
