//! What holds of what bytes ask and say.
ghost use Rattle.kmip_messages.specs.Laws.{MessageLaws};

/// What holds of all that bytes ask and say, one law a field. It does nothing.
pub fn the_laws_of_messages_hold()
    ensures { MessageLaws }
{}
