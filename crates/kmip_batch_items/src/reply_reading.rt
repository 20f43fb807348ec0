//! Replies from bytes.
ghost use Rattle.std.specs.Prelude.{◌≡◌};
ghost use Rattle.kmip_ttlv.specs.Node.{content_of};
ghost use Rattle.kmip_ttlv.specs.View.{view, views};
ghost use Rattle.kmip_objects.specs.Ranges.{is_identifier};
ghost use Rattle.kmip_batch_items.specs.Formats.{texts, value_in, structure_of, optional_structure};
ghost use Rattle.kmip_batch_items.specs.Reading.{Gives};
ghost use Rattle.kmip_batch_items.specs.ReplyFormats.{
  any_name_parts_format,
  identifiers_format,
  object_format,
  named_format,
  answer_format,
  located_format,
  success_of_format,
  success_format,
  failed_format,
  is_status,
  outcome_format,
  answered_format,
};

use crate::attributes::attrs_of;
use crate::operation::Operation;
use crate::outcome::Outcome;
use crate::parts::{id_of, identifier_of};
use crate::reply::Reply;
use crate::standard::{
    NAME_TYPE_UNINTERPRETED_TEXT_STRING, STATUS_OPERATION_FAILED, STATUS_SUCCESS, TAG_ATTRIBUTES,
    TAG_NAME, TAG_NAME_TYPE, TAG_NAME_VALUE, TAG_OPERATION, TAG_RESPONSE_PAYLOAD,
    TAG_RESULT_REASON, TAG_RESULT_STATUS, TAG_UNIQUE_IDENTIFIER,
};
use crate::{
    MessageFault, enumeration_if_any, structure_if_any, the_enumeration, the_structure, the_text,
    within,
};
use kmip_objects::{Attrs, Texts, is_identifier};
use kmip_ttlv::{Item, Tag, Text};
use std::alloc::Global;

/// The reply that the items of a Batch Item are.
///
/// # Errors
/// The first fault of the items, and `NoMemory` at want of memory.
#[tactic(auto, unfolding(crate::specs::ReplyFormats::answered_format))]
pub fn read_answer(alloc: Global, batch: &[Item]) -> Result<Reply, MessageFault>
    ensures { Gives (λ r. r) result (answered_format.read (views batch.now)) }
{
    let id = id_of(alloc, batch)?;
    let operation = enumeration_if_any(batch, TAG_OPERATION)?;
    let outcome = outcome_of(alloc, operation, batch)?;
    Ok(Reply {
        operation,
        id,
        outcome,
    })
}

/// How the operation went.
#[tactic(auto, unfolding(crate::specs::ReplyFormats::outcome_format))]
fn outcome_of(
    alloc: Global,
    operation: Option<u32>,
    batch: &[Item],
) -> Result<Outcome, MessageFault>
    ensures { Gives (λ o. o) result ((outcome_format operation).read (views batch.now)) }
{
    let status = the_enumeration(batch, TAG_RESULT_STATUS)?;
    within(TAG_RESULT_STATUS, is_status(status))?;
    if status == STATUS_SUCCESS {
        let outcome = success_of(alloc, operation, batch)?;
        Ok(outcome)
    } else {
        let outcome = failure_of(batch)?;
        Ok(outcome)
    }
}

fn is_status(status: u32) -> bool
    ensures { result ≡ is_status status }
{
    status == STATUS_SUCCESS || status == STATUS_OPERATION_FAILED
}

/// A failure, with its reason where there is one.
#[tactic(auto, unfolding(crate::specs::ReplyFormats::failed_format))]
fn failure_of(batch: &[Item]) -> Result<Outcome, MessageFault>
    ensures { Gives (λ o. o) result (failed_format.read (views batch.now)) }
{
    let reason = enumeration_if_any(batch, TAG_RESULT_REASON)?;
    Ok(Outcome::Failed(reason))
}

/// A success of the operation of this number, which has to be one of the profile.
#[tactic(auto, unfolding(crate::specs::ReplyFormats::success_format, crate::specs::ReplyFormats::success_of_format))]
fn success_of(alloc: Global, number: Option<u32>, batch: &[Item]) -> Result<Outcome, MessageFault>
    ensures { Gives (λ o. o) result ((success_format number).read (views batch.now)) }
{
    let Some(number) = number else {
        return Err(MessageFault::Missing(Tag::new(TAG_OPERATION)));
    };
    let Some(operation) = Operation::with_number(number) else {
        return Err(MessageFault::UnknownOperation);
    };
    let outcome = answer_of(alloc, operation, batch)?;
    Ok(outcome)
}

/// The identifiers that a Locate found; without a payload none.
#[tactic(auto, unfolding(crate::specs::ReplyFormats::located_format))]
fn located_of(alloc: Global, batch: &[Item]) -> Result<Outcome, MessageFault>
    ensures { Gives (λ o. o) result (located_format.read (views batch.now)) }
{
    match structure_if_any(batch, TAG_RESPONSE_PAYLOAD)? {
        None => Ok(Outcome::Located(Texts::new(alloc))),
        Some(payload) => {
            let uids = identifiers_of(alloc, payload)?;
            Ok(Outcome::Located(uids))
        }
    }
}

/// The Unique Identifiers of a payload, of which there may be any number.
#[tactic(auto, unfolding(crate::specs::ReplyFormats::identifiers_format))]
fn identifiers_of(alloc: Global, payload: &[Item]) -> Result<Texts, MessageFault>
    ensures { Gives (λ t. t) result (identifiers_format.read (views payload.now)) }
{
    let mut uids = Vec::new(alloc);
    for item in payload {
        if item.tag().number() == TAG_UNIQUE_IDENTIFIER {
            let uid = identifier_in(alloc, item)?;
            uids.push(uid)?;
        }
    }
    Ok(Texts::from_vec(uids))
}

/// The identifier that an item is.
#[tactic(auto, unfolding(crate::specs::Formats::value_in))]
fn identifier_in(alloc: Global, item: &Item) -> Result<Text, MessageFault>
    ensures { Gives (λ t. t) result
        (value_in texts TAG_UNIQUE_IDENTIFIER is_identifier (content_of (view item.now))) }
{
    let Some(uid) = item.as_text_string() else {
        return Err(MessageFault::WrongType(Tag::new(TAG_UNIQUE_IDENTIFIER)));
    };
    within(TAG_UNIQUE_IDENTIFIER, is_identifier(uid))?;
    let uid = Text::copied(alloc, uid)?;
    Ok(uid)
}

/// What the payload of a success of this operation says.
#[tactic(auto, unfolding(crate::specs::ReplyFormats::answer_format, crate::specs::ReplyFormats::created_format, crate::specs::ReplyFormats::named_format))]
fn answer_of(alloc: Global, operation: Operation, batch: &[Item]) -> Result<Outcome, MessageFault>
    ensures { Gives (λ o. o) result ((answer_format operation).read (views batch.now)) }
{
    match operation {
        Operation::Create => {
            let uid = named_of(alloc, batch)?;
            Ok(Outcome::Created(uid))
        }
        Operation::Locate => {
            let outcome = located_of(alloc, batch)?;
            Ok(outcome)
        }
        Operation::GetAttributes => {
            let (uid, attrs) = object_of(alloc, batch)?;
            Ok(Outcome::Attributes(uid, attrs))
        }
        Operation::Activate => {
            let uid = named_of(alloc, batch)?;
            Ok(Outcome::Activated(uid))
        }
        Operation::Revoke => {
            let uid = named_of(alloc, batch)?;
            Ok(Outcome::Revoked(uid))
        }
        Operation::Destroy => {
            let uid = named_of(alloc, batch)?;
            Ok(Outcome::Destroyed(uid))
        }
    }
}

/// The identifier in the payload, which has to be there.
#[tactic(auto, unfolding(crate::specs::ReplyFormats::named_format))]
fn named_of(alloc: Global, batch: &[Item]) -> Result<Text, MessageFault>
    ensures { Gives (λ t. t) result (named_format.read (views batch.now)) }
{
    let payload = the_structure(batch, TAG_RESPONSE_PAYLOAD)?;
    let uid = identifier_of(alloc, payload)?;
    Ok(uid)
}

/// The identifier and the attributes that a Get Attributes answers.
#[tactic(auto, unfolding(crate::specs::ReplyFormats::object_format))]
fn object_of(alloc: Global, batch: &[Item]) -> Result<(Text, Attrs), MessageFault>
    ensures { Gives (λ p. p) result
        ((structure_of TAG_RESPONSE_PAYLOAD object_format).read (views batch.now)) }
{
    let payload = the_structure(batch, TAG_RESPONSE_PAYLOAD)?;
    let uid = identifier_of(alloc, payload)?;
    let attributes = the_structure(payload, TAG_ATTRIBUTES)?;
    let attrs = attrs_of(alloc, attributes)?;
    Ok((uid, attrs))
}

/// The Name Value, of any text, where there is a Name.
#[tactic(auto, unfolding(crate::specs::ReplyFormats::any_name_parts_format))]
pub(crate) fn any_name_of(alloc: Global, attributes: &[Item]) -> Result<Option<Text>, MessageFault>
    ensures { Gives (λ o. o) result
        ((optional_structure TAG_NAME any_name_parts_format).read (views attributes.now)) }
{
    match structure_if_any(attributes, TAG_NAME)? {
        None => Ok(None),
        Some(parts) => {
            let value = the_text(parts, TAG_NAME_VALUE)?;
            let kind = the_enumeration(parts, TAG_NAME_TYPE)?;
            within(TAG_NAME_TYPE, kind == NAME_TYPE_UNINTERPRETED_TEXT_STRING)?;
            let name = Text::copied(alloc, value)?;
            Ok(Some(name))
        }
    }
}
