//! Who is lent the replies of a message before a client learns from them.
use kmip_batch_items::Reply;

/// Is lent the replies of each message before a client learns from them.
pub trait Listener {
    /// A message of these replies came. Nothing was learnt from them yet.
    fn replied(&mut self, replies: &[Reply]);
}
