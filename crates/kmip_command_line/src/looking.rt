//! What the words of `look` ask for.

use crate::command_option::{BATCH_OPTION, LOOK_GIVE_UP_OPTION, TIMEOUT_OPTION};
use crate::given::Given;
use crate::network::{peer_of, text_of};
use crate::setting::Setting;
use crate::unchosen::Unchosen;
use kmip_choices::{Choice, LookOptions};
use std::alloc::Global;

/// What `look` is to do, by its words.
pub(crate) fn look_choice(alloc: Global, given: Given<'_, '_>) -> Result<Choice, Unchosen> {
    Ok(Choice::Look(LookOptions {
        peer: peer_of(alloc, given)?,
        plan: given.setting(alloc, Setting::Plan)?,
        batch: given.number(&BATCH_OPTION),
        timeout: given.number(&TIMEOUT_OPTION),
        give_up: given.number(&LOOK_GIVE_UP_OPTION),
        is_verbose: given.flag("verbose"),
        format: given.format(),
        metrics: text_of(alloc, given.options.get_str("metrics"))?,
    }))
}
