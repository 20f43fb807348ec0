//! Every front of a text, and every change of one byte of it.

use crate::asserting::assert_text;
use crate::progresses::{assert_said, plan_of, said};
use kmip_plan::Plan;
use std::alloc::Global;
use std::process::Abort;
use std::test::Fail;

/// A text of three keys. The first has two steps of two done, the second three of three.
const TEXT: &str =
    "kmip-progress 2\nk1 active - 2 31\nk2 revoked 1 3 6b\nk3 created - 0 -\nend 3\n";

/// The bytes that give another progress, place by place: a count of 0 or 1 for the first key, of 0 to 2
/// for the second; and for each identifier another first digit below 8, since a byte from 80 to ff
/// alone is no UTF-8, or any other second digit.
const ACCEPTED: &str = "01\
    0124567\
    023456789abcdef\
    012\
    0123457\
    0123456789acdef";

/// Each proper front of the text is cut, and the whole is what is written.
fn cut(rt: &impl Abort, alloc: Global, plan: &Plan) -> Result<(), Fail> {
    let mut front = String::new(alloc);
    for letter in TEXT.chars() {
        assert_said(rt, alloc, plan, front.as_str(), "2 Cut")?;
        front.push(letter)?;
    }
    assert_said(rt, alloc, plan, front.as_str(), TEXT)
}

/// The text with another byte at a place.
fn changed(alloc: Global, place: usize, new: char) -> Result<String, Fail> {
    let mut text = String::new(alloc);
    for (here, letter) in TEXT.chars().enumerate() {
        text.push(if here == place { new } else { letter })?;
    }
    Ok(text)
}

/// Whether the change is read; it then says just what is written.
fn is_read(rt: &impl Abort, alloc: Global, plan: &Plan, text: &str) -> Result<bool, Fail> {
    let answer = said(alloc, plan, text)?;
    let refused = ["1 BadText", "2 Cut", "3 OtherPlan"];
    if refused.contains(&answer.as_str()) {
        return Ok(false);
    }
    assert_text(rt, answer.as_str(), text, "a change that is read");
    Ok(true)
}

/// Notes which bytes are read in the place of the letter at a place.
fn push_accepted(
    rt: &impl Abort,
    alloc: Global,
    plan: &Plan,
    place: usize,
    letter: char,
    accepted: &mut String,
) -> Result<(), Fail> {
    for new in '\0'..='\u{7f}' {
        if new == letter {
            continue;
        }
        let text = changed(alloc, place, new)?;
        if is_read(rt, alloc, plan, text.as_str())? {
            accepted.push(new)?;
        }
    }
    Ok(())
}

#[test]
fn reads_each_front_and_each_change(rt: HostRuntime) -> Result<(), Fail> {
    let plan = plan_of(rt.alloc(), "k1 active, k2 revoked, k3 created")?;
    cut(&rt, rt.alloc(), &plan)?;
    let mut accepted = String::new(rt.alloc());
    for (place, letter) in TEXT.chars().enumerate() {
        push_accepted(&rt, rt.alloc(), &plan, place, letter, &mut accepted)?;
    }
    assert_text(&rt, accepted.as_str(), ACCEPTED, "the bytes that are taken");
    Ok(())
}
