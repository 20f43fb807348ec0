//! Replies to bytes.
ghost use Rattle.std.specs.Prelude.{◌≡◌, pos, length, IsTrue, IfOk};
ghost use Rattle.kmip_ttlv.specs.Node.{node};
ghost use Rattle.kmip_ttlv.specs.Spelling.{canon};
ghost use Rattle.kmip_ttlv.specs.View.{view};
ghost use Rattle.kmip_batch_items.specs.Formats.{inside};
ghost use Rattle.kmip_messages.specs.Headers.{reply_header_parts_format};
ghost use Rattle.kmip_messages.specs.Items.{replies_in};
ghost use Rattle.kmip_messages.specs.Members.{may_have};
ghost use Rattle.kmip_messages.specs.Written.{replies_item, replies_fit};

use crate::members::count_item;
use kmip_batch_items::standard::{TAG_RESPONSE_HEADER, TAG_RESPONSE_MESSAGE, TAG_TIME_STAMP};
use kmip_batch_items::{Reply, push, version_item, write_answer};
use kmip_ttlv::{Item, NoMemory, Tag, write};
use std::alloc::Global;

/// The bytes of one message with these replies, in their order. It is written at `now`, in seconds
/// since the start of 1970.
///
/// # Errors
/// Where there is no memory for them.
pub fn write_reply(alloc: Global, replies: &[Reply], now: i64) -> Result<Vec<u8>, NoMemory>
    // The replies are one to eight, in their ranges and not too long together, as `reply_fits` tells.
    requires { IsTrue (replies_fit replies.now) }
    // The bytes are exactly the written form of `replies_item` at this time.
    ensures bytes { IfOk result (λ v. v.items ≡ canon (replies_item replies.now now)) }
    // The bytes say just these replies, in their order.
    ensures says { IfOk result (λ v. replies_in v.items ≡ replies.now) }
{
    let item = message_item(alloc, replies, now)?;
    let mut out = Vec::new(alloc);
    write(&item, &mut out)?;
    Ok(out)
}

/// The Response Message of the replies.
#[tactic(auto, unfolding(crate::specs::Headers::reply_header_format))]
fn message_item(alloc: Global, replies: &[Reply], now: i64) -> Result<Item, NoMemory>
    requires { IsTrue (may_have (length replies.now)) }
    ensures { IfOk result (λ i. view i ≡ replies_item replies.now now) }
{
    let header = header_item(alloc, replies.len(), now)?;
    let mut items = Vec::new(alloc);
    push(&mut items, header)?;
    for reply in replies {
        let item = write_answer(alloc, reply)?;
        push(&mut items, item)?;
    }
    Ok(Item::structure(Tag::new(TAG_RESPONSE_MESSAGE), items))
}

/// The Response Header of this many replies: version 2.1, the time, and their number.
#[tactic(auto, unfolding(crate::specs::Headers::reply_header_parts_format))]
fn header_item(alloc: Global, there: usize, now: i64) -> Result<Item, NoMemory>
    requires { IsTrue (may_have there) }
    ensures { IfOk result (λ i. view i ≡ node TAG_RESPONSE_HEADER
        (inside ((reply_header_parts_format now).write (pos there)))) }
{
    let version = version_item(alloc)?;
    let time = Item::date_time(Tag::new(TAG_TIME_STAMP), now);
    let items = vec![in alloc; version, time, count_item(there)]?;
    Ok(Item::structure(Tag::new(TAG_RESPONSE_HEADER), items))
}
