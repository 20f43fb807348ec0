//! Replies, from bytes.
ghost use Rattle.std.specs.Prelude.{◌≡◌, ℤ, pos, false, List, [], Ok, IsTrue, IfOk, IfErr};
ghost use Rattle.std.specs.List.{All};
ghost use Rattle.kmip_ttlv.specs.Fitting.{IsInRange};
ghost use Rattle.kmip_ttlv.specs.Node.{Node, content_of};
ghost use Rattle.kmip_ttlv.specs.Spelling.{canon, Spells};
ghost use Rattle.kmip_ttlv.specs.View.{view, views};
ghost use Rattle.kmip_batch_items.specs.Faults.{is_no_memory};
ghost use Rattle.kmip_batch_items.specs.Reading.{Gives};
ghost use Rattle.kmip_batch_items.specs.Siblings.{contents};
ghost use Rattle.kmip_batch_items.specs.declared.reply.Reply.{Reply};
ghost use Rattle.kmip_batch_items.specs.BatchItems.{answer_fits};
ghost use Rattle.kmip_batch_items.specs.ReplyFormats.{answered_format};
ghost use Rattle.kmip_messages.specs.Batches.{AreReplies, replies_at, replies_read};
ghost use Rattle.kmip_messages.specs.Headers.{reply_header_format};
ghost use Rattle.kmip_messages.specs.Items.{replies_in};
ghost use Rattle.kmip_messages.specs.Members.{member_in, members_in};
ghost use Rattle.kmip_messages.specs.Written.{replies_item, replies_fit};

use crate::members::{all_structures, count_of, is_count};
use kmip_batch_items::standard::{
    TAG_BATCH_COUNT, TAG_BATCH_ITEM, TAG_PROTOCOL_VERSION, TAG_PROTOCOL_VERSION_MAJOR,
    TAG_PROTOCOL_VERSION_MINOR, TAG_RESPONSE_HEADER, TAG_RESPONSE_MESSAGE, VERSION_MAJOR,
};
use kmip_batch_items::{
    MessageFault, Reply, check, message_of, read_answer, the_integer, the_structure, whole_item,
};
use kmip_ttlv::{Item, Tag};
use std::alloc::Global;

/// The replies of the message that all the bytes are, in their order.
///
/// # Errors
/// The first fault of the message or of one of its replies, which refuses the message whole, and
/// `NoMemory` at want of memory.
pub fn read_reply(alloc: Global, bytes: &[u8]) -> Result<Vec<Reply>, MessageFault>
    // What is read are the replies of a Response Message that all the bytes spell, one to eight.
    ensures found { IfOk result (λ v. (n : Node) × Spells n bytes.now × AreReplies v.items n) }
    // Such replies are read, and no others, unless memory runs out.
    ensures only { (rs : List Reply) (n : Node) → Spells n bytes.now → AreReplies rs n
        → Gives (λ v. v.items) result (Ok rs) }
    // What was written, at any time, is read back, unless memory runs out.
    ensures back { (rs : List Reply) (now : ℤ) → IsTrue (replies_fit rs)
        → IsInRange (replies_item rs now) → bytes.now ≡ canon (replies_item rs now)
        → Gives (λ v. v.items) result (Ok rs) }
    // It returns what `replies_read` gives, the replies or the first check that fails, unless memory ran out.
    ensures exact { Gives (λ v. v.items) result (replies_read bytes.now) }
    // Each reply is in its ranges, and each success stands under its own operation.
    ensures fits { IfOk result (λ v. All (λ r. IsTrue (answer_fits r)) v.items) }
    // The bytes say these replies, in their order.
    ensures says { IfOk result (λ v. replies_in bytes.now ≡ v.items) }
    // Bytes that are refused, but for want of memory, say nothing.
    ensures refused { IfErr result (λ e. is_no_memory e ≡ false → replies_in bytes.now
        ≡ []) }
{
    whole_replies(alloc, bytes)
}

/// The same, by the order of the checks.
#[tactic(auto, unfolding(crate::specs::Batches::replies_read))]
fn whole_replies(alloc: Global, bytes: &[u8]) -> Result<Vec<Reply>, MessageFault>
    ensures { Gives (λ v. v.items) result (replies_read bytes.now) }
{
    let item = whole_item(alloc, bytes)?;
    let replies = replies_of(alloc, &item)?;
    Ok(replies)
}

/// The replies of the message that an item is.
#[tactic(auto, unfolding(crate::specs::Batches::replies_at, crate::specs::Members::members_at))]
fn replies_of(alloc: Global, item: &Item) -> Result<Vec<Reply>, MessageFault>
    ensures { Gives (λ v. v.items) result (replies_at (view item.now)) }
{
    let message = message_of(item, TAG_RESPONSE_MESSAGE)?;
    let count = header_of(message)?;
    check(is_count(count, count_of(message)), MessageFault::BatchCount)?;
    all_structures(message)?;
    let replies = answers_of(alloc, message)?;
    Ok(replies)
}

/// The count of a reply's header, whose version is 2 with any minor number.
#[tactic(auto, unfolding(crate::specs::Headers::reply_header_format, crate::specs::Headers::reply_header_parts_format, kmip_batch_items::specs::ReplyFormats::any_version_parts_format))]
fn header_of(message: &[Item]) -> Result<i32, MessageFault>
    ensures { Gives (λ n. n) result ((reply_header_format (pos 0)).read (views message.now)) }
{
    let header = the_structure(message, TAG_RESPONSE_HEADER)?;
    let version = the_structure(header, TAG_PROTOCOL_VERSION)?;
    let major = the_integer(version, TAG_PROTOCOL_VERSION_MAJOR)?;
    the_integer(version, TAG_PROTOCOL_VERSION_MINOR)?;
    check(major == VERSION_MAJOR, MessageFault::Version)?;
    let count = the_integer(header, TAG_BATCH_COUNT)?;
    Ok(count)
}

/// The replies of the Batch Items of a message, in their order.
fn answers_of(alloc: Global, message: &[Item]) -> Result<Vec<Reply>, MessageFault>
    ensures { Gives (λ v. v.items) result
        (members_in answered_format.read (contents TAG_BATCH_ITEM (views message.now))) }
{
    let mut replies = Vec::new(alloc);
    for item in message {
        if item.tag().number() == TAG_BATCH_ITEM {
            let reply = answer_in(alloc, item)?;
            replies.push(reply)?;
        }
    }
    Ok(replies)
}

/// The reply that a Batch Item is.
#[tactic(auto, unfolding(crate::specs::Members::member_in))]
fn answer_in(alloc: Global, item: &Item) -> Result<Reply, MessageFault>
    ensures { Gives (λ r. r) result
        (member_in answered_format.read (content_of (view item.now))) }
{
    let Some(parts) = item.as_structure() else {
        return Err(MessageFault::WrongType(Tag::new(TAG_BATCH_ITEM)));
    };
    let reply = read_answer(alloc, parts)?;
    Ok(reply)
}
