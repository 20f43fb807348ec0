//! The way of a key to its target: its steps, the states behind them, and how many exchanges it takes.

use crate::asserting::{assert_text, assert_true};
use crate::progresses::plan_of;
use kmip_plan::{
    Key, Plan, PlanFault, algorithm_word, bound, chain, chain_length, place_of, state_after,
};
use std::alloc::{AllocError, Global};
use std::process::Abort;
use std::test::Fail;

/// The key of a plan, and its way: each step with the number of the state behind it; behind how many steps
/// each state comes, of the numbers 0 to 7, where 0 is never; and the plan's bound.
const WAYS: [(&str, &str); 5] = [
    ("k1 created", "Create 1; 0 1 0 0 0 0 0 0; 3"),
    ("k1 active", "Create 1 Activate 2; 0 1 2 0 0 0 0 0; 4"),
    (
        "k1 revoked",
        "Create 1 Activate 2 Revoke 3; 0 1 2 3 0 0 0 0; 5",
    ),
    (
        "k1 destroyed",
        "Create 1 Activate 2 Revoke 3 Destroy 5; 0 1 2 3 0 4 0 0; 6",
    ),
    ("k1 discarded", "Create 1 Destroy 5; 0 1 0 0 0 2 0 0; 4"),
];

/// Writes the step at a place of the way, and the state behind it.
fn push_step(text: &mut String, key: &Key, place: usize) -> Result<(), AllocError> {
    if let Some(step) = chain(key, place) {
        write!(text, "{} ", step.word())?;
    }
    match state_after(key, place) {
        Some(state) => write!(text, "{} ", state.number()),
        None => text.push_str("no state "),
    }
}

/// Writes the way of a key.
fn push_way(text: &mut String, key: &Key) -> Result<(), AllocError> {
    for place in 1..=chain_length(key) {
        push_step(text, key, place)?;
    }
    text.pop();
    text.push(';')?;
    for state in 0..8 {
        write!(text, " {}", place_of(key, state).unwrap_or(0))?;
    }
    Ok(())
}

/// The way of a plan's first key, and the plan's bound.
fn way_and_bound(alloc: Global, plan: &Plan) -> Result<String, AllocError> {
    let mut text = String::new(alloc);
    if let Some(key) = plan.key(0) {
        push_way(&mut text, key)?;
    }
    write!(text, "; {}", bound(plan))?;
    Ok(text)
}

/// The one key of a plan has this way, and the plan this bound.
fn check_way(rt: &impl Abort, alloc: Global, words: &str, wanted: &str) -> Result<(), PlanFault> {
    let plan = plan_of(alloc, words)?;
    let text = way_and_bound(alloc, &plan)?;
    assert_text(rt, text.as_str(), wanted, words);
    assert_true(rt, plan.key(1).is_none(), words);
    assert_true(rt, plan.key_named("k1").is_some(), words);
    assert_true(rt, plan.key_named("k2").is_none(), words);
    Ok(())
}

#[test]
fn goes_each_way(rt: HostRuntime) -> Result<(), Fail> {
    for (key, way) in &WAYS {
        check_way(&rt, rt.alloc(), key, way)?;
    }
    assert_true(&rt, algorithm_word(1).is_none(), "no algorithm of plans");
    Ok(())
}
