//! Why an exchange brought no replies to learn from.
use crate::link_fault::LinkFault;
use kmip_batch_items::MessageFault;

/// Why an exchange brought no replies to learn from.
#[derive(Clone, Copy)]
pub enum NoReplyReason<'a> {
    /// Nothing came: the request or its reply was lost.
    Lost,
    /// The link failed.
    Failed(LinkFault),
    /// These bytes came, which are not a message of replies.
    Unreadable(MessageFault, &'a [u8]),
    /// A reply came, and memory ran out reading it.
    NoMemory,
}
