//! Which requests and replies can be written in one message. Nothing here takes memory.
ghost use Rattle.std.specs.Prelude.{◌≡◌, pos, nat_le};
ghost use Rattle.std.specs.List.{list_all};
ghost use Rattle.kmip_ttlv.specs.Limits.{most_bytes};
ghost use Rattle.kmip_ttlv.specs.Sizes.{size};
ghost use Rattle.kmip_batch_items.specs.BatchItems.{answer_fits};
ghost use Rattle.kmip_batch_items.specs.RequestFits.{request_fits};
ghost use Rattle.kmip_messages.specs.Written.{requests_fit, replies_fit, replies_item};

use crate::members::may_have;
use kmip_batch_items::{Reply, Request, answer_fits, answer_size};
use kmip_ttlv::MAX_SIZE;

/// Whether the requests can be written in one message, as `write_request` asks: they are one to eight,
/// and their values are in their ranges. It takes no memory.
pub fn request_fits(requests: &[Request]) -> bool
    ensures { result ≡ requests_fit requests.now }
{
    may_have(requests.len()) && are_requests(requests)
}

/// Whether the values of all requests are in their ranges.
fn are_requests(requests: &[Request]) -> bool
    ensures { result ≡ list_all request_fits requests.now }
{
    requests
        .iter()
        .all(|request| kmip_batch_items::request_fits(request))
}

/// Whether the replies can be written in one message, as `write_reply` asks. They are one to eight,
/// their values are in their ranges, each success stands under its own operation, and the message has
/// at most 8,192 bytes. It takes no memory.
pub fn reply_fits(replies: &[Reply]) -> bool
    ensures { result ≡ replies_fit replies.now }
{
    may_have(replies.len()) && are_answers(replies) && is_short(replies)
}

/// Whether the values of all replies are in their ranges.
fn are_answers(replies: &[Reply]) -> bool
    ensures { result ≡ list_all answer_fits replies.now }
{
    replies.iter().all(|reply| answer_fits(reply))
}

/// The bytes of a reply's message before its first Batch Item.
const FRONT: usize = 88;

/// Whether the written message of the replies has at most 8,192 bytes.
fn is_short(replies: &[Reply]) -> bool
    ensures { result ≡ nat_le (size (replies_item replies.now (pos 0))) most_bytes }
{
    let mut size = FRONT;
    for reply in replies {
        size += answer_size(reply);
        if size > MAX_SIZE {
            return false;
        }
    }
    true
}
