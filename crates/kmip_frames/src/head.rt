//! The head of a message.
ghost use Rattle.std.specs.Prelude.{◌≡◌, ◌≤◌, ◌<◌, ◌^◌, length};
ghost use Rattle.kmip_frames.specs.Heads.{head_fault, is_message_tag, length_in};
ghost use Rattle.kmip_ttlv.specs.Limits.{head_size};
ghost use Rattle.kmip_frames.specs.Framing.{fault_in, size_needed};

use crate::frame_fault::FrameFault;
use byteorder::{BigEndian, ByteOrder};
use kmip_batch_items::standard::{TAG_REQUEST_MESSAGE, TAG_RESPONSE_MESSAGE};
use kmip_ttlv::{HEAD_SIZE, ItemType, MAX_SIZE};

/// The fault of the head that the bytes begin with: `None` where it is a message's, and also while
/// it is not whole.
#[tactic(auto, unfolding(crate::specs::Framing::fault_in))]
pub(crate) fn fault_of(bytes: &[u8]) -> Option<FrameFault>
    ensures { result ≡ fault_in bytes.now }
{
    if bytes.len() < HEAD_SIZE {
        return None;
    }
    fault_of_head(&bytes[..HEAD_SIZE])
}

/// How many bytes the message at the front takes, as far as the bytes say it: those of its head,
/// until that is whole and a message's.
#[tactic(auto, unfolding(crate::specs::Framing::size_needed))]
pub(crate) fn size_needed(bytes: &[u8]) -> usize
    ensures { result ≡ size_needed bytes.now }
{
    if bytes.len() < HEAD_SIZE {
        return HEAD_SIZE;
    }
    let head = &bytes[..HEAD_SIZE];
    if fault_of_head(head).is_some() {
        return HEAD_SIZE;
    }
    HEAD_SIZE + length_in(head)
}

/// Why the eight bytes are no head of a message, by the first check that fails.
#[tactic(auto, unfolding(crate::specs::Heads::head_fault))]
fn fault_of_head(head: &[u8]) -> Option<FrameFault>
    requires { head_size ≤ length head.now }
    ensures { result ≡ head_fault head.now }
{
    let tag = BigEndian::read_u24(head);
    if !has_message_tag(tag) || head[3] != ItemType::Structure.byte() {
        return Some(FrameFault::BadHead);
    }
    let len = length_in(head);
    if len % 8 != 0 {
        return Some(FrameFault::BadLength);
    }
    if HEAD_SIZE + len > MAX_SIZE {
        return Some(FrameFault::TooLong);
    }
    None
}

/// Whether a message has the tag.
fn has_message_tag(tag: u32) -> bool
    ensures { result ≡ is_message_tag tag }
{
    tag == TAG_REQUEST_MESSAGE || tag == TAG_RESPONSE_MESSAGE
}

/// How many bytes follow the head.
#[tactic(auto, unfolding(crate::specs::Heads::length_in))]
fn length_in(head: &[u8]) -> usize
    requires { head_size ≤ length head.now }
    ensures value { result ≡ length_in head.now }
    ensures small { result < 2 ^ 32 }
{
    BigEndian::read_u32(&head[4..]) as usize
}
