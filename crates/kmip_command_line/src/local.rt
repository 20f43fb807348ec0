//! What the words of `check`, `sim` and `list` ask for.

use crate::command_option::BATCH_OPTION;
use crate::given::Given;
use crate::setting::Setting;
use crate::unchosen::Unchosen;
use crate::wrong_value::WrongValue;
use kmip_choices::{Choice, ListOptions, check_of, detail_of, simulation_of};
use std::alloc::Global;

/// The path that stands for standard input.
const INPUT: &str = "-";

/// What `check` is to do, by its words.
///
/// # Errors
/// If both plans are to come from standard input, a variable is not text, or memory runs out.
pub(crate) fn check_choice(alloc: Global, given: Given<'_, '_>) -> Result<Choice, Unchosen> {
    if given.flag("json-schema") {
        return Ok(Choice::PlanSchema);
    }
    let plan = given.setting(alloc, Setting::Plan)?;
    let earlier = given.options.get_str("after");
    if plan.as_str() == INPUT && earlier == Some(INPUT) {
        return Err(Unchosen::Wrong(WrongValue::InputTwice));
    }
    Ok(check_of(alloc, plan.as_str(), earlier, given.format())?)
}

/// What `sim` is to do, by its words.
pub(crate) fn sim_choice(alloc: Global, given: Given<'_, '_>) -> Result<Choice, Unchosen> {
    let plan = given.setting(alloc, Setting::Plan)?;
    let script = given.options.get_str("script").unwrap_or("");
    let detail = detail_of(given.flag("trace"), given.flag("diagram"));
    let further = given.options.get_str("then");
    let batch = given.number(&BATCH_OPTION);
    Ok(simulation_of(
        alloc,
        plan.as_str(),
        further,
        script,
        detail,
        batch,
        given.format(),
    )?)
}

/// What `list` is to do, by its words.
pub(crate) fn list_choice(alloc: Global, given: Given<'_, '_>) -> Result<Choice, Unchosen> {
    Ok(Choice::List(ListOptions {
        plan: given.setting(alloc, Setting::Plan)?,
        progress: given.setting(alloc, Setting::Progress)?,
        format: given.format(),
    }))
}
