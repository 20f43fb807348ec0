//! What is asked about a key, and a message that asks about several.
ghost use Rattle.std.specs.Prelude.{◌≡◌, ◌<◌, [], IfOk};
ghost use Rattle.std.specs.Option.{unwrap_or};
ghost use Rattle.kmip_client.specs.Questions.{next_ask, step_ask, ask_about, id_of, request_about};
ghost use Rattle.kmip_client.specs.Private.{IsShaped};

use crate::parts::Parts;
use crate::{Knowledge, Phase};
use kmip_batch_items::{Ask, Request};
use kmip_objects::standard::{STORAGE_DESTROYED, STORAGE_ON_LINE};
use kmip_objects::{Attrs, Step};
use kmip_plan::{Key, chain};
use kmip_ttlv::{Bytes, NoMemory, Text};
use std::alloc::Global;

/// The Storage Status Mask of a Locate that finds objects that are on-line and that are destroyed,
/// which are all that a server of the profile has.
const EVERY_STATE: i32 = (STORAGE_ON_LINE + STORAGE_DESTROYED) as i32;

/// A message of one to eight questions that is to be sent.
#[derive(Drop)]
pub struct Question {
    /// What the message asks, question by question.
    pub parts: Parts,
    /// The message, as it is sent.
    pub bytes: Bytes,
}

/// The request, with its id.
pub(crate) fn request_about(
    alloc: Global,
    key: &Key,
    known: &Knowledge,
) -> Result<Request, NoMemory>
    requires { IsShaped key.now known.now }
    ensures { IfOk result (λ request. request ≡ request_about key.now known.now) }
{
    let ask = ask_about(alloc, key, known)?;
    let id = id_of(alloc, ask.operation().number(), key)?;
    Ok(Request { id: Some(id), ask })
}

/// The id of a question: its operation in one byte, and the key's name.
fn id_of(alloc: Global, operation: u32, key: &Key) -> Result<Bytes, NoMemory>
    requires { operation < 256 }
    ensures { IfOk result (λ id. id ≡ id_of operation key.now) }
{
    let mut id = vec![in alloc; operation as u8]?;
    id.extend_from_slice(key.attrs.name.as_str().as_bytes())?;
    Ok(Bytes::from_vec(id))
}

/// What the key's phase asks.
fn ask_about(alloc: Global, key: &Key, known: &Knowledge) -> Result<Ask, NoMemory>
    requires { IsShaped key.now known.now }
    ensures { IfOk result (λ ask. ask ≡ ask_about key.now known.now) }
{
    let uid = uid_of(known);
    match known.phase {
        Phase::Look => Ok(Ask::Locate {
            mask: Some(EVERY_STATE),
            filter: Attrs::by_name(Text::copied(alloc, key.attrs.name.as_str())?),
        }),
        Phase::Make => Ok(Ask::Create(key.attrs.copied(alloc)?)),
        Phase::Check => Ok(Ask::GetAttributes(Text::copied(alloc, uid)?)),
        Phase::Go => next_ask(alloc, key, uid, chain(key, known.done + 1)),
    }
}

/// The identifier that is known; empty where none is.
fn uid_of(known: &Knowledge) -> &str
    ensures { result.now ≡ unwrap_or known.now.identifier [] }
{
    match &known.identifier {
        Some(uid) => uid.as_str(),
        None => "",
    }
}

/// The next step on the object with the identifier; where there is none, a look at its attributes.
fn next_ask(alloc: Global, key: &Key, uid: &str, step: Option<Step>) -> Result<Ask, NoMemory>
    ensures { IfOk result (λ ask. ask ≡ next_ask key.now uid.now step) }
{
    match step {
        Some(step) => step_ask(alloc, key, uid, step),
        None => Ok(Ask::GetAttributes(Text::copied(alloc, uid)?)),
    }
}

/// A step of the key on the object with the identifier.
fn step_ask(alloc: Global, key: &Key, uid: &str, step: Step) -> Result<Ask, NoMemory>
    ensures { IfOk result (λ ask. ask ≡ step_ask key.now uid.now step) }
{
    match step {
        Step::Create => Ok(Ask::Create(key.attrs.copied(alloc)?)),
        Step::Activate => Ok(Ask::Activate(Text::copied(alloc, uid)?)),
        Step::Revoke => Ok(Ask::Revoke(Text::copied(alloc, uid)?, key.reason)),
        Step::Destroy => Ok(Ask::Destroy(Text::copied(alloc, uid)?)),
    }
}
