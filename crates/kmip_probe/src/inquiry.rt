//! What a probe asks.
ghost use Rattle.std.specs.Prelude.{◌≡◌, ◌<◌, IfOk, option_map, slice_get};
ghost use Rattle.kmip_probe.specs.Inquiries.{ask_of, attributes_with, is_prefix, most_sends, name_of};

use crate::kind::Kind;
use crate::which::Which;
use Kind::{Activate, Create, Destroy, GetAttributes, Locate, Revoke};
use Which::{First, Second};
use kmip_batch_items::Ask;
use kmip_objects::standard::{ALGORITHM_AES, REVOCATION_UNSPECIFIED};
use kmip_objects::{Attrs, KeyAttrs, is_name};
use kmip_ttlv::{NoMemory, Text};
use std::alloc::Global;

/// How many characters a prefix has at most (own): two are left for what tells its names apart.
pub const PREFIX_MAX: usize = 62;

/// Cryptographic Length of a probe's keys, in bits.
pub const KEY_BITS: i32 = 256;

/// Cryptographic Usage Mask of a probe's keys: Encrypt and Decrypt.
pub const KEY_USAGE: i32 = 0xC;

/// A question of a probe: about which name, what is asked, and its place in `INQUIRIES`.
#[derive(Clone, Copy)]
pub struct Inquiry(pub Which, pub Kind, pub usize);

/// How many questions a probe has (own).
pub const QUESTIONS: usize = 25;

/// The most times that a message with a Locate is sent (own).
pub const MOST_SENDS: usize = 3;

/// The most messages that a probe sends (own): one for each question, and two more for each of the ten
/// that are a Locate.
pub const MOST_MESSAGES: usize = 45;

/// How many of the questions of a probe, the first ones, look whether its names are free (own).
pub const LOOKS: usize = 2;

// The place of each question in `INQUIRIES`, which is that of its answer among the answers (own).

/// Find whether the first name is free.
pub const LOOK_FIRST: usize = 0;

/// Find whether the second name is free.
pub const LOOK_SECOND: usize = 1;

/// Make the first object.
pub const CREATE_FIRST: usize = 2;

/// Make it again, which is to be refused.
pub const CREATE_AGAIN: usize = 3;

/// Find it by its name, without a mask.
pub const FIND_NEW: usize = 4;

/// Find it by the mask of on-line objects.
pub const FIND_NEW_ON_LINE: usize = 5;

/// Look for it by the mask of destroyed objects: it is none.
pub const FIND_NEW_DESTROYED: usize = 6;

/// Find it by the mask of every state.
pub const FIND_NEW_EVERYWHERE: usize = 7;

/// Get its attributes.
pub const READ_ATTRIBUTES: usize = 8;

/// Activate it.
pub const ACTIVATE_FIRST: usize = 9;

/// Activate it again, which is to be refused.
pub const ACTIVATE_AGAIN: usize = 10;

/// Revoke it.
pub const REVOKE_FIRST: usize = 11;

/// Revoke it again, which is to be refused.
pub const REVOKE_AGAIN: usize = 12;

/// Make the second object.
pub const CREATE_SECOND: usize = 13;

/// Activate the second object.
pub const ACTIVATE_SECOND: usize = 14;

/// Destroy it while it is active, which is to be refused.
pub const DESTROY_ACTIVE: usize = 15;

/// Destroy the first object.
pub const DESTROY_FIRST: usize = 16;

/// Destroy it again, which is to be refused.
pub const DESTROY_AGAIN: usize = 17;

/// Make an object of its name, which is to be refused.
pub const REUSE_NAME: usize = 18;

/// Find the destroyed object by its name, without a mask.
pub const FIND_GONE: usize = 19;

/// Look for it by the mask of on-line objects: it is none.
pub const FIND_GONE_ON_LINE: usize = 20;

/// Find it by the mask of destroyed objects.
pub const FIND_GONE_DESTROYED: usize = 21;

/// Find it by the mask of every state.
pub const FIND_GONE_EVERYWHERE: usize = 22;

/// Revoke the second object.
pub const REVOKE_SECOND: usize = 23;

/// Destroy the second object.
pub const DESTROY_SECOND: usize = 24;

/// The questions of a probe, in order.
pub const INQUIRIES: [Inquiry; QUESTIONS] = [
    Inquiry(First, Locate(Some(5)), LOOK_FIRST),
    Inquiry(Second, Locate(Some(5)), LOOK_SECOND),
    Inquiry(First, Create, CREATE_FIRST),
    Inquiry(First, Create, CREATE_AGAIN),
    Inquiry(First, Locate(None), FIND_NEW),
    Inquiry(First, Locate(Some(1)), FIND_NEW_ON_LINE),
    Inquiry(First, Locate(Some(4)), FIND_NEW_DESTROYED),
    Inquiry(First, Locate(Some(5)), FIND_NEW_EVERYWHERE),
    Inquiry(First, GetAttributes, READ_ATTRIBUTES),
    Inquiry(First, Activate, ACTIVATE_FIRST),
    Inquiry(First, Activate, ACTIVATE_AGAIN),
    Inquiry(First, Revoke, REVOKE_FIRST),
    Inquiry(First, Revoke, REVOKE_AGAIN),
    Inquiry(Second, Create, CREATE_SECOND),
    Inquiry(Second, Activate, ACTIVATE_SECOND),
    Inquiry(Second, Destroy, DESTROY_ACTIVE),
    Inquiry(First, Destroy, DESTROY_FIRST),
    Inquiry(First, Destroy, DESTROY_AGAIN),
    Inquiry(First, Create, REUSE_NAME),
    Inquiry(First, Locate(None), FIND_GONE),
    Inquiry(First, Locate(Some(1)), FIND_GONE_ON_LINE),
    Inquiry(First, Locate(Some(4)), FIND_GONE_DESTROYED),
    Inquiry(First, Locate(Some(5)), FIND_GONE_EVERYWHERE),
    Inquiry(Second, Revoke, REVOKE_SECOND),
    Inquiry(Second, Destroy, DESTROY_SECOND),
];

/// The question of a number, from 0; none after the last.
pub(crate) fn inquiry_at(number: usize) -> Option<Inquiry>
    ensures { result ≡ slice_get INQUIRIES number }
{
    entry_at(inquiries(), number)
}

/// The question at a place.
fn entry_at(inquiries: &[Inquiry], place: usize) -> Option<Inquiry>
    ensures { result ≡ slice_get inquiries.now place }
{
    inquiries.get(place).copied()
}

/// The questions, in order.
fn inquiries() -> &'static [Inquiry]
    ensures { result.now ≡ INQUIRIES }
{
    &INQUIRIES
}

/// The most times that a message with such a question is sent. A Locate changes nothing at a server, so it
/// does no harm if it was answered and its reply lost, or if it arrives twice.
pub(crate) fn most_sends(kind: Kind) -> usize
    ensures value { result ≡ most_sends kind }
    ensures some { 0 < result }
{
    match kind {
        Locate(_) => MOST_SENDS,
        Create | GetAttributes | Activate | Revoke | Destroy => 1,
    }
}

/// Whether a text can begin a probe's names: it is the name of a key, of at most `PREFIX_MAX`
/// characters.
pub fn is_prefix(text: &str) -> bool
    ensures { result ≡ is_prefix text.now }
{
    is_name(text) && text.len() <= PREFIX_MAX
}

/// A name of a probe: the prefix and `-1`, or the prefix and `-2`.
///
/// # Errors
/// Where there is no memory for it.
pub fn name_of(alloc: Global, which: Which, prefix: &str) -> Result<Text, NoMemory>
    ensures { IfOk result (λ name. name ≡ name_of which prefix.now) }
{
    let mut name = String::new(alloc);
    name.push_str(prefix)?;
    match which {
        First => name.push_str("-1")?,
        Second => name.push_str("-2")?,
    }
    Ok(Text::from_string(name))
}

/// What is asked about the object with the name, where it has this identifier; nothing where none is
/// known that the question needs.
///
/// # Errors
/// Where there is no memory for it.
pub(crate) fn ask_of(
    alloc: Global,
    kind: Kind,
    name: Text,
    uid: Option<&Text>,
) -> Result<Option<Ask>, NoMemory>
    ensures { IfOk result (λ ask. ask ≡ ask_of kind name (option_map (λ u. u.now) uid.entry)) }
{
    match (kind, uid) {
        (Locate(mask), _) => Ok(Some(Ask::Locate {
            mask,
            filter: Attrs::by_name(name),
        })),
        (Create, _) => Ok(Some(Ask::Create(attributes_with(name)))),
        (_, None) => Ok(None),
        (GetAttributes, Some(uid)) => {
            Ok(Some(Ask::GetAttributes(Text::copied(alloc, uid.as_str())?)))
        }
        (Activate, Some(uid)) => Ok(Some(Ask::Activate(Text::copied(alloc, uid.as_str())?))),
        (Revoke, Some(uid)) => {
            let uid = Text::copied(alloc, uid.as_str())?;
            Ok(Some(Ask::Revoke(uid, REVOCATION_UNSPECIFIED)))
        }
        (Destroy, Some(uid)) => Ok(Some(Ask::Destroy(Text::copied(alloc, uid.as_str())?))),
    }
}

/// The attributes of an object with the name.
fn attributes_with(name: Text) -> KeyAttrs
    ensures { result ≡ attributes_with name }
{
    KeyAttrs {
        name,
        algorithm: ALGORITHM_AES,
        length: KEY_BITS,
        usage: KEY_USAGE,
    }
}
