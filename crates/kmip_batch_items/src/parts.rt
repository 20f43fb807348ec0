//! What both kinds of message have: their items, the Unique Batch Item ID, and Unique Identifiers.
ghost use Rattle.std.specs.Prelude.{◌≡◌, true, IsTrue, IfOk};
ghost use Rattle.std.specs.Option.{option_map_or};
ghost use Rattle.kmip_ttlv.specs.View.{view, views};
ghost use Rattle.kmip_objects.specs.Ranges.{is_identifier};
ghost use Rattle.kmip_batch_items.specs.Ranges.{is_batch_id};
ghost use Rattle.kmip_batch_items.specs.Reading.{Gives};
ghost use Rattle.kmip_batch_items.specs.Whole.{item_in};
ghost use Rattle.kmip_batch_items.specs.Parts.{message_at, id_format, identifier_format};

use crate::ranges::is_batch_id;
use crate::standard::{TAG_UNIQUE_BATCH_ITEM_ID, TAG_UNIQUE_IDENTIFIER};
use crate::{MessageFault, bytes_if_any, the_text, within};
use kmip_objects::is_identifier;
use kmip_ttlv::{Bytes, Item, Text, read};
use std::alloc::Global;

/// The item that all the bytes are.
///
/// # Errors
/// `Ttlv` with the first fault where no item stands at the front of the bytes, `NotMessage` where bytes
/// follow it, and `NoMemory` at want of memory.
#[tactic(auto, unfolding(crate::specs::Whole::item_in))]
pub fn whole_item(alloc: Global, bytes: &[u8]) -> Result<Item, MessageFault>
    ensures { Gives (λ i. view i) result (item_in bytes.now) }
{
    match read(alloc, bytes) {
        Ok((item, size)) => {
            if size == bytes.len() {
                Ok(item)
            } else {
                Err(MessageFault::NotMessage)
            }
        }
        Err(fault) => Err(MessageFault::from(fault)),
    }
}

/// The items of a message of this tag.
///
/// # Errors
/// `NotMessage` where the item is no Structure, or has another tag.
#[tactic(auto, unfolding(crate::specs::Parts::message_at))]
pub fn message_of(item: &Item, tag: u32) -> Result<&[Item], MessageFault>
    ensures { Gives (λ s. views s.now) result (message_at tag (view item.now)) }
{
    match item.as_structure() {
        Some(items) => {
            if item.tag().number() == tag {
                Ok(items)
            } else {
                Err(MessageFault::NotMessage)
            }
        }
        None => Err(MessageFault::NotMessage),
    }
}

/// The Unique Batch Item ID, where there is one.
#[tactic(auto, unfolding(crate::specs::Parts::id_format))]
pub(crate) fn id_of(alloc: Global, batch: &[Item]) -> Result<Option<Bytes>, MessageFault>
    ensures exact { Gives (λ o. o) result (id_format.read (views batch.now)) }
    ensures fits { IfOk result (λ o. IsTrue (option_map_or is_batch_id o true)) }
{
    match bytes_if_any(batch, TAG_UNIQUE_BATCH_ITEM_ID)? {
        None => Ok(None),
        Some(id) => {
            within(TAG_UNIQUE_BATCH_ITEM_ID, is_batch_id(id))?;
            let id = Bytes::copied(alloc, id)?;
            Ok(Some(id))
        }
    }
}

/// The one Unique Identifier.
#[tactic(auto, unfolding(crate::specs::Parts::identifier_format))]
pub(crate) fn identifier_of(alloc: Global, payload: &[Item]) -> Result<Text, MessageFault>
    ensures exact { Gives (λ s. s) result (identifier_format.read (views payload.now)) }
    ensures fits { IfOk result (λ s. IsTrue (is_identifier s)) }
{
    let uid = the_text(payload, TAG_UNIQUE_IDENTIFIER)?;
    within(TAG_UNIQUE_IDENTIFIER, is_identifier(uid))?;
    let uid = Text::copied(alloc, uid)?;
    Ok(uid)
}
