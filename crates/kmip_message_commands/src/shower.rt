//! Shows the item that all the bytes of a message are.
ghost use Rattle.kmip_message_commands.specs.declared.form.Form.{Form};
ghost use Rattle.kmip_message_commands.specs.Private.{shows};

use crate::form::Form;
use crate::respond::Respond;
use crate::showing::show_message;
use kmip_ttlv::NoMemory;
use std::alloc::Global;

/// Shows the item that all the bytes of a message are.
#[derive(Drop)]
pub(crate) struct Shower {
    pub(crate) form: Form,
}

impl Respond for Shower {
    ghost State = { Form };

    ghost state = { λ s. s.form };

    ghost response = { shows };

    ghost IsReady = { λ _. Unit {0} };

    fn respond(
        &mut self,
        alloc: Global,
        message: &[u8],
        text: &mut Vec<u8>,
    ) -> Result<bool, NoMemory> {
        show_message(alloc, self.form, message, text)
    }

    fn is_over(&self) -> bool {
        false
    }

    fn stays_ready() {}
}
