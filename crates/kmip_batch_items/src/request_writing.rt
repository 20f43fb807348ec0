//! Requests to bytes.
ghost use Rattle.std.specs.Prelude.{◌≡◌, IfOk};
ghost use Rattle.kmip_ttlv.specs.Node.{node};
ghost use Rattle.kmip_ttlv.specs.View.{view, views};
ghost use Rattle.kmip_batch_items.specs.BatchItems.{question_item};
ghost use Rattle.kmip_batch_items.specs.Formats.{inside};
ghost use Rattle.kmip_batch_items.specs.Operations.{ask_operation};
ghost use Rattle.kmip_batch_items.specs.RequestFormats.{
  key_attrs_format,
  filter_format,
  create_format,
  locate_format,
  revoke_format,
  payload_format,
  item_format,
};
ghost use Rattle.kmip_batch_items.specs.declared.ask.Ask.TheVariants.{Locate, Revoke};

use crate::ask::Ask;
use crate::attributes::attrs_item;
use crate::building::{name_item, push, push_enumeration, push_id, push_integer, uid_item};
use crate::request::Request;
use crate::standard::{
    TAG_ATTRIBUTES, TAG_BATCH_ITEM, TAG_CRYPTOGRAPHIC_ALGORITHM, TAG_CRYPTOGRAPHIC_LENGTH,
    TAG_CRYPTOGRAPHIC_USAGE_MASK, TAG_OBJECT_TYPE, TAG_OPERATION, TAG_REQUEST_PAYLOAD,
    TAG_REVOCATION_REASON, TAG_REVOCATION_REASON_CODE, TAG_STORAGE_STATUS_MASK,
};
use kmip_objects::standard::OBJECT_TYPE_SYMMETRIC_KEY;
use kmip_objects::{Attrs, KeyAttrs};
use kmip_ttlv::{Item, NoMemory, Tag, Text};
use std::alloc::Global;

/// The Batch Item that is the written form of a request.
///
/// # Errors
/// Where there is no memory for it.
#[tactic(auto, unfolding(crate::specs::RequestFormats::item_format, crate::specs::RequestFormats::known_format, crate::specs::RequestFormats::asked_format, crate::specs::Parts::id_format))]
pub fn write_question(alloc: Global, request: &Request) -> Result<Item, NoMemory>
    ensures { IfOk result (λ i. view i ≡ question_item request.now) }
{
    let payload = ask_items(alloc, &request.ask)?;
    let mut items = Vec::new(alloc);
    push_enumeration(
        &mut items,
        TAG_OPERATION,
        Some(request.ask.operation().number()),
    )?;
    push_id(alloc, &mut items, &request.id)?;
    push(
        &mut items,
        Item::structure(Tag::new(TAG_REQUEST_PAYLOAD), payload),
    )?;
    Ok(Item::structure(Tag::new(TAG_BATCH_ITEM), items))
}

/// The payload's items.
#[tactic(auto, unfolding(crate::specs::RequestFormats::payload_format, crate::specs::Parts::identifier_format))]
fn ask_items(alloc: Global, ask: &Ask) -> Result<Vec<Item>, NoMemory>
    ensures { IfOk result (λ v. views v.items
        ≡ (payload_format (ask_operation ask.now)).write ask.now) }
{
    match ask {
        Ask::Create(attrs) => {
            let items = create_items(alloc, attrs)?;
            Ok(items)
        }
        Ask::Locate { mask, filter } => {
            let items = locate_items(alloc, *mask, filter)?;
            Ok(items)
        }
        Ask::GetAttributes(uid) | Ask::Activate(uid) | Ask::Destroy(uid) => {
            let uid = uid_item(alloc, uid)?;
            let items = vec![in alloc; uid]?;
            Ok(items)
        }
        Ask::Revoke(uid, code) => {
            let items = revoke_items(alloc, uid, *code)?;
            Ok(items)
        }
    }
}

/// The payload of a Create.
#[tactic(auto, unfolding(crate::specs::RequestFormats::create_format))]
fn create_items(alloc: Global, attrs: &KeyAttrs) -> Result<Vec<Item>, NoMemory>
    ensures { IfOk result (λ v. views v.items ≡ create_format.write attrs.now) }
{
    let object_type = Item::enumeration(Tag::new(TAG_OBJECT_TYPE), OBJECT_TYPE_SYMMETRIC_KEY);
    let attrs = key_attrs_item(alloc, attrs)?;
    let items = vec![in alloc; object_type, attrs]?;
    Ok(items)
}

/// The Attributes of a new key.
#[tactic(auto, unfolding(crate::specs::RequestFormats::key_attrs_format, crate::specs::RequestFormats::name_parts_format, crate::specs::ReplyFormats::any_name_parts_format))]
fn key_attrs_item(alloc: Global, attrs: &KeyAttrs) -> Result<Item, NoMemory>
    ensures { IfOk result (λ i. view i
        ≡ node TAG_ATTRIBUTES (inside (key_attrs_format.write attrs.now))) }
{
    let name = name_item(alloc, &attrs.name)?;
    let algorithm = Item::enumeration(Tag::new(TAG_CRYPTOGRAPHIC_ALGORITHM), attrs.algorithm);
    let length = Item::integer(Tag::new(TAG_CRYPTOGRAPHIC_LENGTH), attrs.length);
    let usage = Item::integer(Tag::new(TAG_CRYPTOGRAPHIC_USAGE_MASK), attrs.usage);
    let items = vec![in alloc; name, algorithm, length, usage]?;
    Ok(Item::structure(Tag::new(TAG_ATTRIBUTES), items))
}

/// The payload of a Locate.
#[tactic(auto, unfolding(crate::specs::RequestFormats::locate_format, crate::specs::RequestFormats::filter_format, crate::specs::RequestFormats::name_parts_format, crate::specs::ReplyFormats::attrs_format, crate::specs::ReplyFormats::any_name_parts_format))]
fn locate_items(alloc: Global, mask: Option<i32>, filter: &Attrs) -> Result<Vec<Item>, NoMemory>
    ensures { IfOk result (λ v. views v.items ≡ locate_format.write (Locate mask filter.now)) }
{
    let mut items = Vec::new(alloc);
    push_integer(&mut items, TAG_STORAGE_STATUS_MASK, mask)?;
    let filter = attrs_item(alloc, filter)?;
    push(&mut items, filter)?;
    Ok(items)
}

/// The payload of a Revoke.
#[tactic(auto, unfolding(crate::specs::RequestFormats::revoke_format, crate::specs::RequestFormats::reason_format, crate::specs::Parts::identifier_format))]
fn revoke_items(alloc: Global, uid: &Text, code: u32) -> Result<Vec<Item>, NoMemory>
    ensures { IfOk result (λ v. views v.items ≡ revoke_format.write (Revoke uid.now code)) }
{
    let uid = uid_item(alloc, uid)?;
    let code = Item::enumeration(Tag::new(TAG_REVOCATION_REASON_CODE), code);
    let parts = vec![in alloc; code]?;
    let reason = Item::structure(Tag::new(TAG_REVOCATION_REASON), parts);
    let items = vec![in alloc; uid, reason]?;
    Ok(items)
}
