//! Lines of a block that stand for longer ones.

use std::alloc::Global;
use std::test::Fail;

/// The text of these lines: `%0D` is a carriage return, `times COUNT: TEXT` the text so often, and
/// `numbers FROM..TO: TEXT` the text with each of the numbers.
pub(crate) fn text_of(alloc: Global, lines: &str) -> Result<String, Fail> {
    let mut text = String::new(alloc);
    for line in lines.lines() {
        if let Some(words) = line.strip_prefix("times ") {
            push_repeated(alloc, &mut text, words)?;
        } else if let Some(words) = line.strip_prefix("numbers ") {
            push_numbered(alloc, &mut text, words)?;
        } else {
            text.push_str(line.replace(alloc, "%0D", "\r")?.as_str())?;
            text.push('\n')?;
        }
    }
    Ok(text)
}

/// Appends a text so often as stands before it; `/` in it is a line feed.
fn push_repeated(alloc: Global, text: &mut String, words: &str) -> Result<(), Fail> {
    let (count, unit) = words.split_once(": ").ok_or("a count")?;
    let unit = unit.replace(alloc, "/", "\n")?;
    let repeated = unit.as_str().repeat(alloc, count.parse()?)?;
    text.push_str(repeated.as_str())?;
    Ok(())
}

/// Appends a text for each of the numbers before it; `/` in it is a line feed, and the number stands in the
/// place of `#`, or as the value of a Text String in that of `@`.
fn push_numbered(alloc: Global, text: &mut String, words: &str) -> Result<(), Fail> {
    let (numbers, unit) = words.split_once(": ").ok_or("numbers")?;
    let (from, to) = numbers.split_once("..").ok_or("two numbers")?;
    let (from, to): (u32, u32) = (from.parse()?, to.parse()?);
    let unit = unit.replace(alloc, "/", "\n")?;
    let mark = if unit.contains('#') { "#" } else { "@" };
    let (front, back) = unit.as_str().split_once(mark).ok_or("a place of a number")?;
    for number in from..to {
        let decimal = number.to_string(alloc)?;
        text.push_str(front)?;
        push_number(text, mark, decimal.as_str())?;
        text.push_str(back)?;
    }
    Ok(())
}

/// Appends one to eight decimal digits: in the place of `@` in hexadecimal, their count before them and zeros
/// behind them up to eight bytes.
fn push_number(text: &mut String, mark: &str, decimal: &str) -> Result<(), Fail> {
    if mark == "#" {
        text.push_str(decimal)?;
        return Ok(());
    }
    write!(text, "0000000{}", decimal.len())?;
    for digit in decimal.chars() {
        write!(text, "3{digit}")?;
    }
    for _ in decimal.len()..8 {
        text.push_str("00")?;
    }
    Ok(())
}
