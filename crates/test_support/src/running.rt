//! Runs the rows of the files that a command line names, and says which of them are wrong.

use crate::rows::{Call, MARGIN, Row, rows_of};
use std::io::Write;
use std::process::ExitCode;
use std::test::Fail;
use std::{env, fs, io};

/// What a program does with its rows.
pub trait Driver {
    /// The calls of a row are carried out. What each tells is appended, a text for each in turn.
    ///
    /// # Errors
    /// Where a call can't be read, or can't be carried out.
    fn carry_out(rt: &HostRuntime, calls: &[Call<'_>], told: &mut Vec<String>) -> Result<(), Fail>;

    /// The calls of a row that is not asked for: what rows behind it may need is done.
    ///
    /// # Errors
    /// Where that can't be done.
    fn pass_over(rt: &HostRuntime, calls: &[Call<'_>]) -> Result<(), Fail>;
}

/// What a command line asks for.
#[derive(Drop)]
struct Order {
    /// What the names of the rows begin with that are run.
    name: String,
    /// The files of the rows, in this order.
    files: Vec<String>,
}

/// How many rows were run, and how many of them were wrong.
#[derive(Drop)]
struct Count {
    rows: usize,
    wrong: usize,
}

/// Runs the rows of the files that the command line names: all, or behind `--name` and a word those whose
/// names begin with it. Writes each call that tells something else than it has to, and how many rows there
/// were. The program is to end with a failure where a row is wrong, or where there is none.
///
/// # Errors
/// Where a file can't be read, a row can't be carried out, or memory runs out.
pub fn run_rows<D: Driver>(rt: &HostRuntime, report: &mut impl Write) -> Result<ExitCode, Fail> {
    let order = order_of(rt)?;
    let mut count = Count { rows: 0, wrong: 0 };
    for file in &order.files {
        let text = fs::read_to_string(rt, file.as_str())?;
        run_file::<D>(rt, report, &order, file.as_str(), text.as_str(), &mut count)?;
    }
    writeln!(report, "{} rows, {} wrong", count.rows, count.wrong)?;
    if count.rows == 0 || count.wrong > 0 {
        return Ok(ExitCode::FAILURE);
    }
    Ok(ExitCode::SUCCESS)
}

/// What the words of the command line ask for, behind the program's name.
fn order_of(rt: &HostRuntime) -> Result<Order, Fail> {
    let mut order = Order {
        name: String::new(rt.alloc()),
        files: Vec::new(rt.alloc()),
    };
    let mut is_name = false;
    for word in env::args(rt)?.skip(1) {
        if is_name {
            order.name = word;
            is_name = false;
        } else if word.as_str() == "--name" {
            is_name = true;
        } else {
            order.files.push(word)?;
        }
    }
    Ok(order)
}

/// Runs the rows of a file with this text that are asked for.
fn run_file<D: Driver>(
    rt: &HostRuntime,
    report: &mut impl Write,
    order: &Order,
    file: &str,
    text: &str,
    count: &mut Count,
) -> Result<(), Fail> {
    let rows = rows_of(rt.alloc(), text)?;
    for row in &rows {
        if !row.name.starts_with(order.name.as_str()) {
            D::pass_over(rt, row.calls.as_slice())?;
            continue;
        }
        count.rows = count.rows.saturating_add(1);
        if !is_right::<D>(rt, report, file, row)? {
            count.wrong = count.wrong.saturating_add(1);
        }
    }
    Ok(())
}

/// Runs a row, and says whether each of its calls tells what it has to. Writes which of them does not.
fn is_right<D: Driver>(
    rt: &HostRuntime,
    report: &mut impl Write,
    file: &str,
    row: &Row<'_>,
) -> Result<bool, Fail> {
    let mut told = Vec::new(rt.alloc());
    if let Err(fail) = D::carry_out(rt, row.calls.as_slice(), &mut told) {
        let (number, name) = (row.number, row.name);
        let _ = writeln!(report, "{file}:{number}: {name} can't be carried out");
        return Err(fail);
    }
    let mut is_right = true;
    for (place, call) in row.calls.as_slice().iter().enumerate() {
        let got = told.get(place).map_or("", |text| text.as_str());
        if call.wanted.as_str() != got {
            is_right = false;
            tell_wrong(report, file, row.name, call, got)?;
        }
    }
    Ok(is_right)
}

/// Writes where a call stands that tells something else than it has to, and both.
fn tell_wrong(
    report: &mut impl Write,
    file: &str,
    name: &str,
    call: &Call<'_>,
    got: &str,
) -> io::Result<()> {
    writeln!(report, "{file}:{}: {name}", call.number)?;
    writeln!(report, "  wanted:")?;
    tell_lines(report, call.wanted.as_str())?;
    writeln!(report, "  got:")?;
    tell_lines(report, got)
}

/// Writes lines as they stand in a file of rows below their call.
fn tell_lines(report: &mut impl Write, text: &str) -> io::Result<()> {
    for line in text.lines() {
        writeln!(report, "{MARGIN}{line}")?;
    }
    Ok(())
}
