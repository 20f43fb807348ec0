//! How a command responds to a message of its input.
ghost use Rattle.std.specs.Prelude.{◌≡◌, ◌++◌, ℕ, List, IfOk, OnOk};
ghost use Rattle.kmip_message_commands.specs.Private.{Response};

use kmip_ttlv::NoMemory;
use std::alloc::Global;

/// How a command responds to a message of its input.
pub(crate) trait Respond {
    /// What the responses depend on.
    ghost State: { Type 0 };

    /// The state that the command is in.
    ghost state: { Self → State };

    /// What is written for a message, the state after it, whether it is refused, and in which states
    /// the command is over: no line is looked at any more.
    ghost response: { Response State };

    /// What holds of the state between two messages.
    ghost IsReady: { State → Type 0 };

    /// Appends what is printed for the message, and says whether the message is refused.
    ///
    /// # Errors
    ///
    /// Where there is no memory; then the text may have grown by anything.
    fn respond(
        &mut self,
        alloc: Global,
        message: &[u8],
        text: &mut Vec<u8>,
    ) -> Result<bool, NoMemory>
        requires { IsReady (state self.old) }
        ensures text { OnOk result (text.new.items
            ≡ text.old.items ++ response.text (state self.old) message.now) }
        ensures after { OnOk result (state self.new
            ≡ response.after (state self.old) message.now) }
        ensures refused { IfOk result (λ r. r ≡ response.refuses message.now) };

    /// Whether the command is over: it looks at no further line.
    fn is_over(&self) -> bool
        ensures { result ≡ response.over (state self.now) };

    /// A message leaves the command ready for the next: a law, which does nothing.
    fn stays_ready()
        ensures { (s : State) (message : List ℕ) → IsReady s
            → IsReady (response.after s message) };
}
