//! Replies to bytes.
ghost use Rattle.std.specs.Prelude.{◌≡◌, ◌++◌, ◌∷◌, [], None, IfOk, OnOk};
ghost use Rattle.kmip_batch_items.specs.Formats.{inside};
ghost use Rattle.kmip_batch_items.specs.Parts.{identifier_format};
ghost use Rattle.kmip_batch_items.specs.BatchItems.{answer_item};
ghost use Rattle.kmip_ttlv.specs.Node.{node, enumeration};
ghost use Rattle.kmip_ttlv.specs.View.{view, views};
ghost use Rattle.kmip_batch_items.specs.ReplyFormats.{
  created_format,
  identifiers_format,
  object_format,
  outcome_format,
  answered_format,
};

use crate::attributes::attrs_item;
use crate::building::{push, push_enumeration, push_id, uid_item};
use crate::outcome::Outcome;
use crate::reply::Reply;
use crate::standard::{
    STATUS_OPERATION_FAILED, STATUS_SUCCESS, TAG_BATCH_ITEM, TAG_OBJECT_TYPE, TAG_OPERATION,
    TAG_RESPONSE_PAYLOAD, TAG_RESULT_REASON, TAG_RESULT_STATUS,
};
use kmip_objects::Attrs;
use kmip_objects::standard::OBJECT_TYPE_SYMMETRIC_KEY;
use kmip_ttlv::{Item, NoMemory, Tag, Text};
use std::alloc::Global;

/// The Batch Item that is the written form of a reply.
///
/// # Errors
/// Where there is no memory for it.
#[tactic(auto, unfolding(crate::specs::ReplyFormats::answered_format, crate::specs::ReplyFormats::outcome_format, crate::specs::ReplyFormats::success_format, crate::specs::Parts::id_format))]
pub fn write_answer(alloc: Global, reply: &Reply) -> Result<Item, NoMemory>
    ensures { IfOk result (λ i. view i ≡ answer_item reply.now) }
{
    let mut items = Vec::new(alloc);
    push_enumeration(&mut items, TAG_OPERATION, reply.operation)?;
    push_id(alloc, &mut items, &reply.id)?;
    push_outcome(alloc, &mut items, &reply.outcome)?;
    Ok(Item::structure(Tag::new(TAG_BATCH_ITEM), items))
}

/// Puts the status at the end, and then the reason or the payload.
#[tactic(auto, unfolding(crate::specs::ReplyFormats::outcome_format, crate::specs::ReplyFormats::success_format, crate::specs::ReplyFormats::success_of_format, crate::specs::ReplyFormats::answer_format, crate::specs::ReplyFormats::named_format, crate::specs::ReplyFormats::located_format, crate::specs::ReplyFormats::failed_format))]
fn push_outcome(alloc: Global, items: &mut Vec<Item>, outcome: &Outcome) -> Result<(), NoMemory>
    ensures { OnOk result
        (views items.new.items ≡ views items.old.items
        ++ (outcome_format None).write outcome.now) }
{
    match outcome {
        Outcome::Created(uid) => {
            let payload = created_items(alloc, uid)?;
            push_success(items, payload)?;
            Ok(())
        }
        Outcome::Located(uids) => {
            let payload = located_items(alloc, uids.as_slice())?;
            push_success(items, payload)?;
            Ok(())
        }
        Outcome::Attributes(uid, attrs) => {
            let payload = attributes_items(alloc, uid, attrs)?;
            push_success(items, payload)?;
            Ok(())
        }
        Outcome::Activated(uid) | Outcome::Revoked(uid) | Outcome::Destroyed(uid) => {
            let payload = identifier_items(alloc, uid)?;
            push_success(items, payload)?;
            Ok(())
        }
        Outcome::Failed(reason) => {
            push(
                items,
                Item::enumeration(Tag::new(TAG_RESULT_STATUS), STATUS_OPERATION_FAILED),
            )?;
            push_enumeration(items, TAG_RESULT_REASON, *reason)?;
            Ok(())
        }
    }
}

/// Puts the status Success and a payload of these items at the end.
fn push_success(items: &mut Vec<Item>, payload: Vec<Item>) -> Result<(), NoMemory>
    ensures { OnOk result
        (views items.new.items ≡ views items.old.items
        ++ node TAG_RESULT_STATUS (enumeration STATUS_SUCCESS)
        ∷ node TAG_RESPONSE_PAYLOAD (inside (views payload.items)) ∷ []) }
{
    push(
        items,
        Item::enumeration(Tag::new(TAG_RESULT_STATUS), STATUS_SUCCESS),
    )?;
    push(
        items,
        Item::structure(Tag::new(TAG_RESPONSE_PAYLOAD), payload),
    )?;
    Ok(())
}

/// The payload of a Create.
#[tactic(auto, unfolding(crate::specs::ReplyFormats::created_format, crate::specs::Parts::identifier_format))]
fn created_items(alloc: Global, uid: &Text) -> Result<Vec<Item>, NoMemory>
    ensures { IfOk result (λ v. views v.items ≡ created_format.write uid.now) }
{
    let object_type = Item::enumeration(Tag::new(TAG_OBJECT_TYPE), OBJECT_TYPE_SYMMETRIC_KEY);
    let uid = uid_item(alloc, uid)?;
    let items = vec![in alloc; object_type, uid]?;
    Ok(items)
}

/// The payload of a Locate.
#[tactic(auto, unfolding(crate::specs::ReplyFormats::identifiers_format, crate::specs::Parts::identifier_format))]
fn located_items(alloc: Global, uids: &[Text]) -> Result<Vec<Item>, NoMemory>
    ensures { IfOk result (λ v. views v.items ≡ identifiers_format.write uids.now) }
{
    let mut items = Vec::new(alloc);
    for uid in uids {
        let item = uid_item(alloc, uid)?;
        push(&mut items, item)?;
    }
    Ok(items)
}

/// The payload of a Get Attributes.
#[tactic(auto, unfolding(crate::specs::ReplyFormats::object_format, crate::specs::Parts::identifier_format))]
fn attributes_items(alloc: Global, uid: &Text, attrs: &Attrs) -> Result<Vec<Item>, NoMemory>
    ensures { IfOk result (λ v. views v.items
        ≡ object_format.write (uid.now, attrs.now)) }
{
    let uid = uid_item(alloc, uid)?;
    let attrs = attrs_item(alloc, attrs)?;
    let items = vec![in alloc; uid, attrs]?;
    Ok(items)
}

/// The payload of the operations that answer with an identifier alone.
#[tactic(auto, unfolding(crate::specs::Parts::identifier_format))]
fn identifier_items(alloc: Global, uid: &Text) -> Result<Vec<Item>, NoMemory>
    ensures { IfOk result (λ v. views v.items ≡ identifier_format.write uid.now) }
{
    let uid = uid_item(alloc, uid)?;
    let items = vec![in alloc; uid]?;
    Ok(items)
}
