//! Requests from bytes.
ghost use Rattle.std.specs.Prelude.{◌≡◌, ◌<◌, ◌&&◌, true, IsTrue, IfOk, IfErr};
ghost use Rattle.std.specs.Option.{option_map_or};
ghost use Rattle.std.specs.Ordering.{int_eq};
ghost use Rattle.kmip_ttlv.specs.View.{views};
ghost use Rattle.kmip_batch_items.specs.BatchItems.{question_at};
ghost use Rattle.kmip_objects.specs.Ranges.{is_name, attrs_fit};
ghost use Rattle.kmip_batch_items.specs.Ranges.{is_batch_id};
ghost use Rattle.kmip_batch_items.specs.RequestFits.{ask_fits, request_fits};
ghost use Rattle.kmip_batch_items.specs.Reading.{Gives};
ghost use Rattle.kmip_batch_items.specs.RequestFormats.{
  name_format,
  key_attrs_format,
  create_format,
  locate_format,
  revoke_format,
  payload_format,
  asked_format,
};

use crate::ask::Ask;
use crate::attributes::filter_of;
use crate::operation::Operation;
use crate::parts::{id_of, identifier_of};
use crate::refusal::Refusal;
use crate::request::Request;
use crate::standard::{
    KEY_TAGS, NAME_TYPE_UNINTERPRETED_TEXT_STRING, TAG_ATTRIBUTES, TAG_CRYPTOGRAPHIC_ALGORITHM,
    TAG_CRYPTOGRAPHIC_LENGTH, TAG_CRYPTOGRAPHIC_USAGE_MASK, TAG_NAME, TAG_NAME_TYPE,
    TAG_NAME_VALUE, TAG_OBJECT_TYPE, TAG_OPERATION, TAG_REQUEST_PAYLOAD, TAG_REVOCATION_REASON,
    TAG_REVOCATION_REASON_CODE, TAG_STORAGE_STATUS_MASK, VERSION_MAJOR, VERSION_MINOR,
};
use crate::{
    MessageFault, integer_if_any, only, the_enumeration, the_integer, the_structure, the_text,
    within,
};
use kmip_objects::standard::OBJECT_TYPE_SYMMETRIC_KEY;
use kmip_objects::{KeyAttrs, is_algorithm, is_length, is_name, is_revocation_code, is_usage};
use kmip_ttlv::{Item, Text};
use std::alloc::Global;

/// The question that the items of a Batch Item are: a request, or why it is refused.
///
/// # Errors
/// The fault of the Unique Batch Item ID or of the Operation, without which there is no question to
/// answer, and `NoMemory` at want of memory.
#[tactic(auto, unfolding(crate::specs::BatchItems::question_at, crate::specs::RequestFormats::known_format))]
pub fn read_question(
    alloc: Global,
    batch: &[Item],
) -> Result<Result<Request, Refusal>, MessageFault>
    // The question is a request, or its refusal with the first fault after the Operation and the Unique Batch
    // Item ID. There is none only where one of these is unlawful, unless memory runs out.
    ensures exact { Gives (λ q. q) result (question_at (views batch.now)) }
    // A request that is read is in its ranges.
    ensures fits { IfOk result (λ q. IfOk q (λ r. IsTrue (request_fits r))) }
    // A Unique Batch Item ID that a refusal carries is in its range.
    ensures carries { IfOk result (λ q.
        IfErr q (λ e. IsTrue (option_map_or is_batch_id e.id true))) }
{
    let id = id_of(alloc, batch)?;
    let operation = the_enumeration(batch, TAG_OPERATION)?;
    match ask_of(alloc, operation, batch) {
        Ok(ask) => Ok(Ok(Request { id, ask })),
        Err(MessageFault::NoMemory) => Err(MessageFault::NoMemory),
        Err(fault) => Ok(Err(Refusal {
            fault,
            operation: Some(operation),
            id,
        })),
    }
}

/// Whether this is the Protocol Version of a request, 2.1.
pub fn is_version(major: i32, minor: i32) -> bool
    ensures { result ≡ (int_eq major VERSION_MAJOR && int_eq minor VERSION_MINOR) }
{
    major == VERSION_MAJOR && minor == VERSION_MINOR
}

/// What the Batch Item asks whose Operation has this number.
#[tactic(auto, unfolding(crate::specs::RequestFormats::asked_format))]
fn ask_of(alloc: Global, number: u32, batch: &[Item]) -> Result<Ask, MessageFault>
    ensures exact { Gives (λ a. a) result ((asked_format number).read (views batch.now)) }
    ensures fits { IfOk result (λ a. IsTrue (ask_fits a)) }
{
    let Some(operation) = Operation::with_number(number) else {
        return Err(MessageFault::UnknownOperation);
    };
    let payload = the_structure(batch, TAG_REQUEST_PAYLOAD)?;
    let ask = payload_of(alloc, operation, payload)?;
    Ok(ask)
}

/// What the payload of an operation asks.
#[tactic(auto, unfolding(crate::specs::RequestFormats::payload_format))]
fn payload_of(alloc: Global, operation: Operation, payload: &[Item]) -> Result<Ask, MessageFault>
    ensures exact { Gives (λ a. a) result ((payload_format operation).read (views payload.now)) }
    ensures fits { IfOk result (λ a. IsTrue (ask_fits a)) }
{
    match operation {
        Operation::Create => {
            let attrs = create_of(alloc, payload)?;
            Ok(Ask::Create(attrs))
        }
        Operation::Locate => {
            let ask = locate_of(alloc, payload)?;
            Ok(ask)
        }
        Operation::GetAttributes => {
            let uid = identifier_of(alloc, payload)?;
            Ok(Ask::GetAttributes(uid))
        }
        Operation::Activate => {
            let uid = identifier_of(alloc, payload)?;
            Ok(Ask::Activate(uid))
        }
        Operation::Revoke => {
            let ask = revoke_of(alloc, payload)?;
            Ok(ask)
        }
        Operation::Destroy => {
            let uid = identifier_of(alloc, payload)?;
            Ok(Ask::Destroy(uid))
        }
    }
}

/// The attributes of the key that a Create asks for.
#[tactic(auto, unfolding(crate::specs::RequestFormats::create_format))]
fn create_of(alloc: Global, payload: &[Item]) -> Result<KeyAttrs, MessageFault>
    ensures exact { Gives (λ k. k) result (create_format.read (views payload.now)) }
    ensures fits { IfOk result (λ k. IsTrue (attrs_fit k)) }
{
    let object_type = the_enumeration(payload, TAG_OBJECT_TYPE)?;
    within(TAG_OBJECT_TYPE, object_type == OBJECT_TYPE_SYMMETRIC_KEY)?;
    let attributes = the_structure(payload, TAG_ATTRIBUTES)?;
    let attrs = key_attrs_of(alloc, attributes)?;
    Ok(attrs)
}

/// The four attributes of a new key.
#[tactic(auto, unfolding(crate::specs::RequestFormats::key_attrs_format))]
fn key_attrs_of(alloc: Global, attributes: &[Item]) -> Result<KeyAttrs, MessageFault>
    ensures exact { Gives (λ k. k) result (key_attrs_format.read (views attributes.now)) }
    ensures fits { IfOk result (λ k. IsTrue (attrs_fit k)) }
{
    only(&KEY_TAGS, attributes)?;
    let name = name_of(alloc, attributes)?;
    let algorithm = the_enumeration(attributes, TAG_CRYPTOGRAPHIC_ALGORITHM)?;
    within(TAG_CRYPTOGRAPHIC_ALGORITHM, is_algorithm(algorithm))?;
    let length = the_integer(attributes, TAG_CRYPTOGRAPHIC_LENGTH)?;
    within(TAG_CRYPTOGRAPHIC_LENGTH, is_length(algorithm, length))?;
    let usage = the_integer(attributes, TAG_CRYPTOGRAPHIC_USAGE_MASK)?;
    within(TAG_CRYPTOGRAPHIC_USAGE_MASK, is_usage(usage))?;
    Ok(KeyAttrs {
        name,
        algorithm,
        length,
        usage,
    })
}

/// The Name Value of the one Name, which is an uninterpreted text.
#[tactic(auto, unfolding(crate::specs::RequestFormats::name_parts_format))]
pub(crate) fn name_of(alloc: Global, attributes: &[Item]) -> Result<Text, MessageFault>
    ensures exact { Gives (λ s. s) result (name_format.read (views attributes.now)) }
    ensures fits { IfOk result (λ s. IsTrue (is_name s)) }
{
    let parts = the_structure(attributes, TAG_NAME)?;
    let value = the_text(parts, TAG_NAME_VALUE)?;
    within(TAG_NAME_VALUE, is_name(value))?;
    let kind = the_enumeration(parts, TAG_NAME_TYPE)?;
    within(TAG_NAME_TYPE, kind == NAME_TYPE_UNINTERPRETED_TEXT_STRING)?;
    let name = Text::copied(alloc, value)?;
    Ok(name)
}

/// A Locate: the mask and the attributes to look for.
#[tactic(auto, unfolding(crate::specs::RequestFormats::locate_format))]
fn locate_of(alloc: Global, payload: &[Item]) -> Result<Ask, MessageFault>
    ensures exact { Gives (λ a. a) result (locate_format.read (views payload.now)) }
    ensures fits { IfOk result (λ a. IsTrue (ask_fits a)) }
{
    let mask = integer_if_any(payload, TAG_STORAGE_STATUS_MASK)?;
    let attributes = the_structure(payload, TAG_ATTRIBUTES)?;
    let filter = filter_of(alloc, attributes)?;
    Ok(Ask::Locate { mask, filter })
}

/// A Revoke: the identifier and the reason's code.
#[tactic(auto, unfolding(crate::specs::RequestFormats::revoke_format, crate::specs::RequestFormats::reason_format))]
fn revoke_of(alloc: Global, payload: &[Item]) -> Result<Ask, MessageFault>
    ensures exact { Gives (λ a. a) result (revoke_format.read (views payload.now)) }
    ensures fits { IfOk result (λ a. IsTrue (ask_fits a)) }
{
    let uid = identifier_of(alloc, payload)?;
    let reason = the_structure(payload, TAG_REVOCATION_REASON)?;
    let code = the_enumeration(reason, TAG_REVOCATION_REASON_CODE)?;
    within(TAG_REVOCATION_REASON_CODE, is_revocation_code(code))?;
    Ok(Ask::Revoke(uid, code))
}
