//! Which requests and replies have their values in range, and how long a reply is. Nothing here takes
//! memory.
ghost use Rattle.std.specs.Prelude.{◌≡◌, ℕ, ◌+◌, ◌≤◌, ◌<◌, ◌==◌, true, false, Option};
ghost use Rattle.std.specs.List.{list_all};
ghost use Rattle.std.specs.Option.{option_map_or};
ghost use Rattle.kmip_ttlv.specs.Sizes.{size, padded};
ghost use Rattle.kmip_objects.specs.Ranges.{is_name, is_identifier};
ghost use Rattle.kmip_batch_items.specs.Ranges.{is_batch_id};
ghost use Rattle.kmip_batch_items.specs.RequestFits.{ask_fits, request_fits};
ghost use Rattle.kmip_batch_items.specs.Fits.{is_own, outcome_fits};
ghost use Rattle.kmip_batch_items.specs.BatchItems.{answer_fits, answer_item};
ghost use Rattle.kmip_batch_items.specs.Private.{number_size, text_size};
ghost use Rattle.kmip_batch_items.specs.MessageSizes.{IsCapped};
ghost use Rattle.kmip_batch_items.specs.Parts.{id_format};
ghost use Rattle.kmip_batch_items.specs.ReplyFormats.{any_name_format, identifiers_format, outcome_format};

use crate::ask::Ask;
use crate::attributes::attrs_size;
use crate::outcome::Outcome;
use crate::ranges::is_batch_id;
use crate::reply::Reply;
use crate::request::Request;
use crate::standard::{
    OPERATION_ACTIVATE, OPERATION_CREATE, OPERATION_DESTROY, OPERATION_GET_ATTRIBUTES,
    OPERATION_LOCATE, OPERATION_REVOKE,
};
use kmip_objects::{attrs_fit, is_identifier, is_name, is_revocation_code};
use kmip_ttlv::{Bytes, MAX_SIZE, Text};

/// Whether the values of a request are in their ranges, which is all that a written form needs. It
/// takes no memory.
pub fn request_fits(request: &Request) -> bool
    ensures { result ≡ request_fits request.now }
{
    id_fits(&request.id) && ask_fits(&request.ask)
}

/// Whether what is asked is in its ranges.
fn ask_fits(ask: &Ask) -> bool
    ensures { result ≡ ask_fits ask.now }
{
    match ask {
        Ask::Create(attrs) => attrs_fit(attrs),
        Ask::Locate { mask: _, filter } => is_named(&filter.name),
        Ask::GetAttributes(uid) | Ask::Activate(uid) | Ask::Destroy(uid) => {
            is_identifier(uid.as_str())
        }
        Ask::Revoke(uid, code) => is_identifier(uid.as_str()) && is_revocation_code(*code),
    }
}

/// Whether there is a name in its range.
fn is_named(name: &Option<Text>) -> bool
    ensures { result ≡ option_map_or is_name name.now false }
{
    match name {
        Some(name) => is_name(name.as_str()),
        None => false,
    }
}

/// Whether the values of a reply are in their ranges, whatever its length, and a success stands under
/// its own operation. It takes no memory.
pub fn answer_fits(reply: &Reply) -> bool
    ensures { result ≡ answer_fits reply.now }
{
    id_fits(&reply.id) && outcome_fits(reply.operation, &reply.outcome)
}

/// How many bytes the Batch Item of a reply takes. It takes no memory.
pub fn answer_size(reply: &Reply) -> usize
    // The size where a message may have that many bytes, else some number that is more than it may have.
    ensures size { IsCapped result (size (answer_item reply.now)) }
    // In no case is it more than 200,000, so that a sum of some of them does not overflow.
    ensures small { result ≤ 200000 }
{
    let operation = number_size(&reply.operation);
    let id = id_size(&reply.id);
    let outcome = outcome_size(&reply.outcome);
    8 + operation + id + outcome
}

/// Whether the Unique Batch Item ID is in its range, where there is one.
fn id_fits(id: &Option<Bytes>) -> bool
    ensures { result ≡ option_map_or is_batch_id id.now true }
{
    match id {
        Some(id) => is_batch_id(id.as_slice()),
        None => true,
    }
}

/// Whether the outcome stands under its own operation, with identifiers in their range.
fn outcome_fits(asked: Option<u32>, outcome: &Outcome) -> bool
    ensures { result ≡ outcome_fits asked outcome.now }
{
    match outcome {
        Outcome::Created(uid) => is_own(OPERATION_CREATE, asked) && is_identifier(uid.as_str()),
        Outcome::Located(uids) => {
            is_own(OPERATION_LOCATE, asked) && are_identifiers(uids.as_slice())
        }
        Outcome::Attributes(uid, _) => {
            is_own(OPERATION_GET_ATTRIBUTES, asked) && is_identifier(uid.as_str())
        }
        Outcome::Activated(uid) => is_own(OPERATION_ACTIVATE, asked) && is_identifier(uid.as_str()),
        Outcome::Revoked(uid) => is_own(OPERATION_REVOKE, asked) && is_identifier(uid.as_str()),
        Outcome::Destroyed(uid) => is_own(OPERATION_DESTROY, asked) && is_identifier(uid.as_str()),
        Outcome::Failed(_) => true,
    }
}

fn is_own(operation: u32, asked: Option<u32>) -> bool
    ensures { result ≡ is_own operation asked }
{
    match asked {
        Some(asked) => asked == operation,
        None => false,
    }
}

fn are_identifiers(uids: &[Text]) -> bool
    ensures { result ≡ list_all is_identifier uids.now }
{
    uids.iter().all(|uid| is_identifier(uid.as_str()))
}

/// How many bytes an outcome takes in its Batch Item, or more than a message may have.
#[tactic(auto, unfolding(crate::specs::ReplyFormats::outcome_format, crate::specs::ReplyFormats::success_format, crate::specs::ReplyFormats::success_of_format, crate::specs::ReplyFormats::answer_format, crate::specs::ReplyFormats::named_format, crate::specs::ReplyFormats::created_format, crate::specs::ReplyFormats::object_format, crate::specs::ReplyFormats::located_format, crate::specs::ReplyFormats::failed_format, crate::specs::Parts::identifier_format))]
fn outcome_size(outcome: &Outcome) -> usize
    ensures size { (asked : Option ℕ)
        → IsCapped result ((outcome_format asked).extent outcome.now).size }
    ensures small { result ≤ 100000 }
{
    match outcome {
        Outcome::Created(uid) => 40 + text_size(uid.as_str()),
        Outcome::Located(uids) => 24 + texts_size(uids.as_slice()),
        Outcome::Attributes(uid, attrs) => 24 + text_size(uid.as_str()) + attrs_size(attrs),
        Outcome::Activated(uid) | Outcome::Revoked(uid) | Outcome::Destroyed(uid) => {
            24 + text_size(uid.as_str())
        }
        Outcome::Failed(reason) => 16 + number_size(reason),
    }
}

/// How many bytes a Name takes, where there is one, or more than a message may have.
#[tactic(auto, unfolding(crate::specs::ReplyFormats::any_name_parts_format))]
pub(crate) fn name_size(name: &Option<Text>) -> usize
    ensures size { IsCapped result (any_name_format.extent name.now).size }
    ensures small { result ≤ 17000 }
{
    match name {
        Some(name) => 24 + text_size(name.as_str()),
        None => 0,
    }
}

/// How many bytes a Unique Batch Item ID takes, where there is one, or more than a message may
/// have.
#[tactic(auto, unfolding(crate::specs::Parts::id_format))]
fn id_size(id: &Option<Bytes>) -> usize
    ensures size { IsCapped result (id_format.extent id.now).size }
    ensures small { result ≤ 16400 }
{
    match id {
        Some(id) => padded_size(id.as_slice().len()),
        None => 0,
    }
}

/// How many bytes a number takes, where there is one.
pub(crate) fn number_size<T>(number: &Option<T>) -> usize
    ensures { result ≡ number_size number.now }
{
    match number {
        Some(_) => 16,
        None => 0,
    }
}

/// How many bytes the Unique Identifiers take together, or more than a message may have.
#[tactic(auto, unfolding(crate::specs::ReplyFormats::identifiers_format))]
fn texts_size(uids: &[Text]) -> usize
    ensures size { IsCapped result (identifiers_format.extent uids.now).size }
    ensures small { result ≤ 50000 }
{
    let mut size = 0;
    for uid in uids {
        size += text_size(uid.as_str());
        if size > MAX_SIZE {
            return size;
        }
    }
    size
}

/// How many bytes a Text String takes, or more than a message may have.
fn text_size(text: &str) -> usize
    ensures size { IsCapped result (text_size text.now) }
    ensures small { result ≤ 16400 }
{
    padded_size(text.len())
}

/// How many bytes an item takes whose value has this length, or more than a message may have.
fn padded_size(len: usize) -> usize
    ensures size { IsCapped result (8 + padded len) }
    ensures small { result ≤ 16400 }
{
    8 + len.min(MAX_SIZE).div_ceil(8) * 8
}
