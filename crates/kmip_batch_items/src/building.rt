//! The items that messages are built of.
ghost use Rattle.std.specs.Prelude.{◌≡◌, ◌++◌, ◌∷◌, ◌<◌, ◌^◌, [], IfOk, OnOk};
ghost use Rattle.kmip_ttlv.specs.Node.{node, integer, enumeration, text_string, byte_string};
ghost use Rattle.kmip_ttlv.specs.View.{view, views};
ghost use Rattle.kmip_batch_items.specs.Formats.{given, inside};
ghost use Rattle.kmip_batch_items.specs.ReplyFormats.{any_name_parts_format, any_version_parts_format};

use crate::standard::{
    NAME_TYPE_UNINTERPRETED_TEXT_STRING, TAG_NAME, TAG_NAME_TYPE, TAG_NAME_VALUE,
    TAG_PROTOCOL_VERSION, TAG_PROTOCOL_VERSION_MAJOR, TAG_PROTOCOL_VERSION_MINOR,
    TAG_UNIQUE_BATCH_ITEM_ID, TAG_UNIQUE_IDENTIFIER, VERSION_MAJOR, VERSION_MINOR,
};
use kmip_ttlv::{Bytes, Item, NoMemory, Tag, Text};
use std::alloc::Global;

/// The item of the Protocol Version 2.1, as a header has it.
///
/// # Errors
/// Where there is no memory for it.
#[tactic(auto, unfolding(crate::specs::ReplyFormats::any_version_parts_format))]
pub fn version_item(alloc: Global) -> Result<Item, NoMemory>
    ensures { IfOk result (λ i. view i
        ≡ node TAG_PROTOCOL_VERSION (inside (any_version_parts_format.write tt))) }
{
    let major = Item::integer(Tag::new(TAG_PROTOCOL_VERSION_MAJOR), VERSION_MAJOR);
    let minor = Item::integer(Tag::new(TAG_PROTOCOL_VERSION_MINOR), VERSION_MINOR);
    let items = vec![in alloc; major, minor]?;
    Ok(Item::structure(Tag::new(TAG_PROTOCOL_VERSION), items))
}

/// Puts the Unique Batch Item ID at the end, where there is one.
pub(crate) fn push_id(
    alloc: Global,
    items: &mut Vec<Item>,
    id: &Option<Bytes>,
) -> Result<(), NoMemory>
    ensures { OnOk result
        (views items.new.items ≡ views items.old.items
        ++ given (λ s. node TAG_UNIQUE_BATCH_ITEM_ID (byte_string s)) id.now) }
{
    match id {
        Some(id) => {
            let id = Bytes::copied(alloc, id.as_slice())?;
            push(
                items,
                Item::byte_string(Tag::new(TAG_UNIQUE_BATCH_ITEM_ID), id),
            )?;
            Ok(())
        }
        None => Ok(()),
    }
}

/// A Unique Identifier.
pub(crate) fn uid_item(alloc: Global, uid: &Text) -> Result<Item, NoMemory>
    ensures { IfOk result (λ i. view i
        ≡ node TAG_UNIQUE_IDENTIFIER (text_string uid.now)) }
{
    let uid = Text::copied(alloc, uid.as_str())?;
    Ok(Item::text_string(Tag::new(TAG_UNIQUE_IDENTIFIER), uid))
}

/// Puts a Name of this value at the end, where there is one.
pub(crate) fn push_name(
    alloc: Global,
    items: &mut Vec<Item>,
    name: &Option<Text>,
) -> Result<(), NoMemory>
    ensures { OnOk result
        (views items.new.items ≡ views items.old.items
        ++ given (λ s. node TAG_NAME (inside (any_name_parts_format.write s))) name.now) }
{
    match name {
        Some(name) => {
            let name = name_item(alloc, name)?;
            push(items, name)?;
            Ok(())
        }
        None => Ok(()),
    }
}

/// A Name, which is an uninterpreted text.
#[tactic(auto, unfolding(crate::specs::ReplyFormats::any_name_parts_format))]
pub(crate) fn name_item(alloc: Global, name: &Text) -> Result<Item, NoMemory>
    ensures { IfOk result (λ i. view i
        ≡ node TAG_NAME (inside (any_name_parts_format.write name.now))) }
{
    let value = Item::text_string(
        Tag::new(TAG_NAME_VALUE),
        Text::copied(alloc, name.as_str())?,
    );
    let kind = Item::enumeration(Tag::new(TAG_NAME_TYPE), NAME_TYPE_UNINTERPRETED_TEXT_STRING);
    let items = vec![in alloc; value, kind]?;
    Ok(Item::structure(Tag::new(TAG_NAME), items))
}

/// Puts an Enumeration with this tag at the end, where there is a value; else it adds nothing.
///
/// # Errors
/// Where there is no memory for it. Of the items nothing is promised then.
pub fn push_enumeration(items: &mut Vec<Item>, tag: u32, value: Option<u32>) -> Result<(), NoMemory>
    // The tag has three bytes.
    requires { tag < 2 ^ 24 }
    ensures { OnOk result
        (views items.new.items ≡ views items.old.items
        ++ given (λ n. node tag (enumeration n)) value) }
{
    match value {
        Some(number) => {
            push(items, Item::enumeration(Tag::new(tag), number))?;
            Ok(())
        }
        None => Ok(()),
    }
}

/// Puts an Integer at the end, where there is one.
pub(crate) fn push_integer(
    items: &mut Vec<Item>,
    tag: u32,
    value: Option<i32>,
) -> Result<(), NoMemory>
    requires { tag < 2 ^ 24 }
    ensures { OnOk result
        (views items.new.items ≡ views items.old.items
        ++ given (λ z. node tag (integer z)) value) }
{
    match value {
        Some(number) => {
            push(items, Item::integer(Tag::new(tag), number))?;
            Ok(())
        }
        None => Ok(()),
    }
}

/// Puts an item at the end.
///
/// # Errors
/// Where there is no memory for it. Of the items nothing is promised then.
pub fn push(items: &mut Vec<Item>, item: Item) -> Result<(), NoMemory>
    ensures { OnOk result (views items.new.items ≡ views items.old.items ++ view item ∷ []) }
{
    items.push(item)?;
    Ok(())
}
