//! The attributes of the profile in a message: how they are written, how many bytes they take, and
//! how they are read.
//!
//! Source: KMIP 2.1, Object Attributes, and Operations, Locate and Get Attributes.
ghost use Rattle.std.specs.Prelude.{◌≡◌, ◌+◌, ◌≤◌, false, IsTrue, IfOk};
ghost use Rattle.std.specs.Option.{option_map_or};
ghost use Rattle.kmip_ttlv.specs.Node.{node};
ghost use Rattle.kmip_ttlv.specs.View.{view, views};
ghost use Rattle.kmip_batch_items.specs.Formats.{inside};
ghost use Rattle.kmip_batch_items.specs.Reading.{Gives};
ghost use Rattle.kmip_objects.specs.Ranges.{is_name};
ghost use Rattle.kmip_batch_items.specs.MessageSizes.{IsCapped};
ghost use Rattle.kmip_batch_items.specs.ReplyFormats.{attrs_format};
ghost use Rattle.kmip_batch_items.specs.RequestFormats.{filter_format};

use crate::building::{push_enumeration, push_integer, push_name};
use crate::fitting::{name_size, number_size};
use crate::reply_reading::any_name_of;
use crate::request_reading::name_of;
use crate::standard::{
    FILTER_TAGS, TAG_ATTRIBUTES, TAG_CRYPTOGRAPHIC_ALGORITHM, TAG_CRYPTOGRAPHIC_LENGTH,
    TAG_CRYPTOGRAPHIC_USAGE_MASK, TAG_NAME, TAG_OBJECT_TYPE, TAG_STATE,
};
use crate::{MessageFault, enumeration_if_any, integer_if_any, only};
use kmip_objects::Attrs;
use kmip_ttlv::{Item, NoMemory, Tag};
use std::alloc::Global;

/// The Attributes that are given, in the written order.
#[tactic(auto, unfolding(crate::specs::ReplyFormats::attrs_format))]
pub(crate) fn attrs_item(alloc: Global, attrs: &Attrs) -> Result<Item, NoMemory>
    ensures { IfOk result (λ i. view i
        ≡ node TAG_ATTRIBUTES (inside (attrs_format.write attrs.now))) }
{
    let mut items = Vec::with_capacity(alloc, FILTER_TAGS.len())?;
    push_enumeration(&mut items, TAG_OBJECT_TYPE, attrs.object_type)?;
    push_name(alloc, &mut items, &attrs.name)?;
    push_enumeration(&mut items, TAG_CRYPTOGRAPHIC_ALGORITHM, attrs.algorithm)?;
    push_integer(&mut items, TAG_CRYPTOGRAPHIC_LENGTH, attrs.length)?;
    push_integer(&mut items, TAG_CRYPTOGRAPHIC_USAGE_MASK, attrs.usage)?;
    push_enumeration(&mut items, TAG_STATE, attrs.state)?;
    Ok(Item::structure(Tag::new(TAG_ATTRIBUTES), items))
}

/// How many bytes the Attributes take, or more than a message may have.
#[tactic(auto, unfolding(crate::specs::ReplyFormats::attrs_format))]
pub(crate) fn attrs_size(attrs: &Attrs) -> usize
    ensures size { IsCapped result (8 + (attrs_format.extent attrs.now).size) }
    ensures small { result ≤ 20000 }
{
    let numbers = number_size(&attrs.object_type)
        + number_size(&attrs.algorithm)
        + number_size(&attrs.length)
        + number_size(&attrs.usage)
        + number_size(&attrs.state);
    8 + numbers + name_size(&attrs.name)
}

/// The attributes to look for, the Name among them.
#[tactic(auto, unfolding(crate::specs::RequestFormats::filter_format))]
pub(crate) fn filter_of(alloc: Global, attributes: &[Item]) -> Result<Attrs, MessageFault>
    ensures exact { Gives (λ a. a) result (filter_format.read (views attributes.now)) }
    ensures fits { IfOk result (λ a. IsTrue (option_map_or is_name a.name false)) }
{
    only(&FILTER_TAGS, attributes)?;
    let object_type = enumeration_if_any(attributes, TAG_OBJECT_TYPE)?;
    let name = name_of(alloc, attributes)?;
    let algorithm = enumeration_if_any(attributes, TAG_CRYPTOGRAPHIC_ALGORITHM)?;
    let length = integer_if_any(attributes, TAG_CRYPTOGRAPHIC_LENGTH)?;
    let usage = integer_if_any(attributes, TAG_CRYPTOGRAPHIC_USAGE_MASK)?;
    let state = enumeration_if_any(attributes, TAG_STATE)?;
    Ok(Attrs {
        object_type,
        name: Some(name),
        algorithm,
        length,
        usage,
        state,
    })
}

/// The attributes of the profile that are given.
#[tactic(auto, unfolding(crate::specs::ReplyFormats::attrs_format))]
pub(crate) fn attrs_of(alloc: Global, attributes: &[Item]) -> Result<Attrs, MessageFault>
    ensures { Gives (λ a. a) result (attrs_format.read (views attributes.now)) }
{
    let object_type = enumeration_if_any(attributes, TAG_OBJECT_TYPE)?;
    let name = any_name_of(alloc, attributes)?;
    let algorithm = enumeration_if_any(attributes, TAG_CRYPTOGRAPHIC_ALGORITHM)?;
    let length = integer_if_any(attributes, TAG_CRYPTOGRAPHIC_LENGTH)?;
    let usage = integer_if_any(attributes, TAG_CRYPTOGRAPHIC_USAGE_MASK)?;
    let state = enumeration_if_any(attributes, TAG_STATE)?;
    Ok(Attrs {
        object_type,
        name,
        algorithm,
        length,
        usage,
        state,
    })
}
