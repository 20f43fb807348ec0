//! A message that can't be read as replies.
ghost use Rattle.std.specs.Prelude.{◌≡◌, ◌≤◌, ◌-◌, take, drop};
ghost use Rattle.kmip_probe.specs.Unreadable.{version_in, version_of};

use crate::protocol_version::ProtocolVersion;
use kmip_batch_items::MessageFault;

/// Why a message can't be read as replies, and which version it says that it has.
#[derive(Clone, Copy)]
pub struct Unread {
    /// What is wrong with it; never want of memory.
    pub fault: MessageFault,
    /// Its Protocol Version, where its header begins with one.
    pub version: Option<ProtocolVersion>,
}

/// What stands before the major number in the bytes of a message: the head of the Protocol Version,
/// that of its first item, and the first three bytes of that item's value.
///
/// Source: KMIP 2.1, Message Structure; TTLV Encoding.
pub const VERSION_HEAD: [u8; 19] = [
    0x42, 0, 0x69, 1, 0, 0, 0, 0x20, 0x42, 0, 0x6A, 2, 0, 0, 0, 4, 0, 0, 0,
];

/// What stands between the two numbers: padding, the head of the second item, and the first three
/// bytes of its value.
pub const MINOR_HEAD: [u8; 15] = [0, 0, 0, 0, 0x42, 0, 0x6B, 2, 0, 0, 0, 4, 0, 0, 0];

/// The Protocol Version in the header of a message: none where the bytes have none at its place, or
/// one of its numbers is above 255.
pub fn version_in(bytes: &[u8]) -> Option<ProtocolVersion>
    ensures { result ≡ version_in bytes.now }
{
    if part_of(bytes, 16, 35) != VERSION_HEAD.as_slice()
        || part_of(bytes, 36, 51) != MINOR_HEAD.as_slice()
    {
        return None;
    }
    version_of(bytes.get(35).copied(), bytes.get(51).copied())
}

/// The version of these numbers, where both are there.
fn version_of(major: Option<u8>, minor: Option<u8>) -> Option<ProtocolVersion>
    ensures { result ≡ version_of major minor }
{
    match (major, minor) {
        (Some(major), Some(minor)) => Some(ProtocolVersion { major, minor }),
        (None, _) | (_, None) => None,
    }
}

/// The bytes from one place on and before another.
fn part_of(bytes: &[u8], from: usize, to: usize) -> &[u8]
    requires { from ≤ to }
    ensures { result.now ≡ take (to - from) (drop from bytes.now) }
{
    let end = to.min(bytes.len());
    &bytes[from.min(end)..end]
}
