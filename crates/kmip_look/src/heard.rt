//! What came of a message.

use crate::why::Why;
use kmip_batch_items::Reply;

/// What came of a message.
#[derive(Drop)]
pub(crate) struct Heard {
    /// The replies that came.
    pub(crate) replies: Vec<Reply>,
    /// What is said of a question that none of them answers: `NoReply` or `Unreadable`.
    pub(crate) why: Why,
}
