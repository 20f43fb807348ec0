//! Requests to bytes.
ghost use Rattle.std.specs.Prelude.{◌≡◌, pos, not, nat_le, length, map, Ok, IsTrue, IfOk};
ghost use Rattle.kmip_ttlv.specs.Node.{node};
ghost use Rattle.kmip_ttlv.specs.Spelling.{canon};
ghost use Rattle.kmip_ttlv.specs.View.{view};
ghost use Rattle.kmip_batch_items.specs.Formats.{inside};
ghost use Rattle.kmip_messages.specs.Headers.{header_parts_format};
ghost use Rattle.kmip_messages.specs.Items.{parts_in, stops_in, requests_in};
ghost use Rattle.kmip_messages.specs.Members.{may_have};
ghost use Rattle.kmip_messages.specs.Written.{option_for, requests_item, requests_fit};

use crate::members::count_item;
use kmip_batch_items::standard::{
    CONTINUE, TAG_BATCH_ERROR_CONTINUATION_OPTION, TAG_REQUEST_HEADER, TAG_REQUEST_MESSAGE,
};
use kmip_batch_items::{Request, push, push_enumeration, version_item, write_question};
use kmip_ttlv::{Item, NoMemory, Tag, write};
use std::alloc::Global;

/// The bytes of one message with these requests, in their order. Where there are two or more, the
/// server is asked to go on after a failure.
///
/// # Errors
/// Where there is no memory for them.
pub fn write_request(alloc: Global, requests: &[Request]) -> Result<Vec<u8>, NoMemory>
    // The requests are one to eight and in their ranges, as `request_fits` tells.
    requires { IsTrue (requests_fit requests.now) }
    // The bytes are exactly the written form of `requests_item`.
    ensures bytes { IfOk result (λ v. v.items ≡ canon (requests_item requests.now)) }
    // The bytes ask just these requests, in their order.
    ensures asks { IfOk result (λ v. requests_in v.items ≡ requests.now) }
    // The questions of the bytes are these requests, in their order, and none is refused.
    ensures parts { IfOk result (λ v. parts_in v.items ≡ map Ok requests.now) }
    // The questions after a failure are left where there is one question alone, and not where there are more.
    ensures stops { IfOk result (λ v. stops_in v.items
        ≡ not (nat_le 2 (length requests.now))) }
{
    let item = message_item(alloc, requests)?;
    let mut out = Vec::new(alloc);
    write(&item, &mut out)?;
    Ok(out)
}

/// The Request Message of the requests.
#[tactic(auto, unfolding(crate::specs::Headers::header_format))]
fn message_item(alloc: Global, requests: &[Request]) -> Result<Item, NoMemory>
    requires { IsTrue (may_have (length requests.now)) }
    ensures { IfOk result (λ i. view i ≡ requests_item requests.now) }
{
    let header = header_item(alloc, requests.len())?;
    let mut items = Vec::new(alloc);
    push(&mut items, header)?;
    for request in requests {
        let item = write_question(alloc, request)?;
        push(&mut items, item)?;
    }
    Ok(Item::structure(Tag::new(TAG_REQUEST_MESSAGE), items))
}

/// The Request Header of this many questions.
#[tactic(auto, unfolding(crate::specs::Headers::header_parts_format, crate::specs::Headers::option_format, kmip_batch_items::specs::RequestFormats::version_parts_format, kmip_batch_items::specs::ReplyFormats::any_version_parts_format))]
fn header_item(alloc: Global, there: usize) -> Result<Item, NoMemory>
    requires { IsTrue (may_have there) }
    ensures { IfOk result (λ i. view i ≡ node TAG_REQUEST_HEADER
        (inside (header_parts_format.write (option_for there, pos there)))) }
{
    let version = version_item(alloc)?;
    let mut items = Vec::new(alloc);
    push(&mut items, version)?;
    push_enumeration(
        &mut items,
        TAG_BATCH_ERROR_CONTINUATION_OPTION,
        option_for(there),
    )?;
    push(&mut items, count_item(there))?;
    Ok(Item::structure(Tag::new(TAG_REQUEST_HEADER), items))
}

/// The Batch Error Continuation Option of this many questions.
fn option_for(there: usize) -> Option<u32>
    ensures { result ≡ option_for there }
{
    if 2 <= there { Some(CONTINUE) } else { None }
}
