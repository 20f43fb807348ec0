//! The Batch Items of a message.
ghost use Rattle.std.specs.Prelude.{◌≡◌, pos, length, IsTrue};
ghost use Rattle.kmip_ttlv.specs.Node.{node, integer};
ghost use Rattle.kmip_ttlv.specs.View.{view, views};
ghost use Rattle.kmip_batch_items.specs.Siblings.{contents};
ghost use Rattle.kmip_messages.specs.Members.{may_have, is_count, all_structures};

use kmip_batch_items::MessageFault;
use kmip_batch_items::standard::{MOST_QUESTIONS, TAG_BATCH_COUNT, TAG_BATCH_ITEM};
use kmip_ttlv::{Item, Tag};

/// How many Batch Items the message has.
pub(crate) fn count_of(message: &[Item]) -> usize
    ensures { result ≡ length (contents TAG_BATCH_ITEM (views message.now)) }
{
    let mut count = 0;
    for item in message {
        if item.tag().number() == TAG_BATCH_ITEM {
            count += 1;
        }
    }
    count
}

/// Whether a message may have this many Batch Items: one to eight.
pub(crate) fn may_have(there: usize) -> bool
    ensures { result ≡ may_have there }
{
    1 <= there && there <= MOST_QUESTIONS
}

/// Whether there are as many Batch Items as the Batch Count says, and a message may have them.
pub(crate) fn is_count(count: i32, there: usize) -> bool
    ensures { result ≡ is_count count there }
{
    may_have(there) && i64::from(count) == there as i64
}

/// The Batch Count of this many Batch Items.
pub(crate) fn count_item(there: usize) -> Item
    requires { IsTrue (may_have there) }
    ensures { view result ≡ node TAG_BATCH_COUNT (integer (pos there)) }
{
    Item::integer(Tag::new(TAG_BATCH_COUNT), there as i32)
}

/// Every Batch Item is a Structure.
pub(crate) fn all_structures(message: &[Item]) -> Result<(), MessageFault>
    ensures { result ≡ all_structures (contents TAG_BATCH_ITEM (views message.now)) }
{
    for item in message {
        if item.tag().number() == TAG_BATCH_ITEM {
            if item.as_structure().is_none() {
                return Err(MessageFault::WrongType(Tag::new(TAG_BATCH_ITEM)));
            }
        }
    }
    Ok(())
}
