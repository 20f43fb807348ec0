//! Messages of one question, and of one reply.

use kmip_batch_items::{Reply, Request};
use kmip_messages::{
    read_reply, read_request, reply_fits, request_fits, write_reply, write_request,
};
use std::alloc::Global;
use std::slice::from_ref;

/// The one request of a message; none where it asks another number, or is refused.
pub(crate) fn request_in(alloc: Global, message: &[u8]) -> Option<Request> {
    let batch = read_request(alloc, message).ok()?;
    let question = the_one(batch.items.into_vec())?;
    question.ok()
}

/// The one reply of a message; none where it has another number, or is no message of replies.
pub(crate) fn reply_in(alloc: Global, message: &[u8]) -> Option<Reply> {
    let replies = read_reply(alloc, message).ok()?;
    the_one(replies)
}

/// The message of one request; none where it can't be written.
pub(crate) fn request_bytes(alloc: Global, request: &Request) -> Option<Vec<u8>> {
    let requests = from_ref(request);
    if !request_fits(requests) {
        return None;
    }
    write_request(alloc, requests).ok()
}

/// The message of one reply; none where it can't be written.
pub(crate) fn reply_bytes(alloc: Global, reply: &Reply) -> Option<Vec<u8>> {
    let replies = from_ref(reply);
    if !reply_fits(replies) {
        return None;
    }
    write_reply(alloc, replies, 0).ok()
}

/// What there is, where that is one thing.
fn the_one<T: Drop>(mut all: Vec<T>) -> Option<T> {
    let last = all.pop();
    if all.is_empty() { last } else { None }
}
