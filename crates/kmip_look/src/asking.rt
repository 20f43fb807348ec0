//! What is asked about a key.
ghost use Rattle.std.specs.Prelude.{◌≡◌, ◌≤◌, [], IfOk, length};
ghost use Rattle.std.specs.List.{list_any};
ghost use Rattle.std.specs.Option.{unwrap_or};
ghost use Rattle.kmip_look.specs.PrivateAsking.{ask_of, id_of, is_asked, is_in, is_refused, request_of, requests_of};

use crate::looked::Looked;
use crate::part::Part;
use crate::why::Why;
use kmip_batch_items::{Ask, Request};
use kmip_client::{Knowledge, Phase};
use kmip_objects::Attrs;
use kmip_objects::standard::{STORAGE_DESTROYED, STORAGE_ON_LINE};
use kmip_plan::Key;
use kmip_ttlv::{Bytes, NoMemory, Text};
use std::alloc::Global;

/// The Storage Status Mask of a Locate that finds objects that are on-line and that are destroyed,
/// which are all that a server of the profile has.
const EVERY_STATE: i32 = (STORAGE_ON_LINE + STORAGE_DESTROYED) as i32;

/// Whether the messages of the part ask about some of the keys.
pub(crate) fn is_any_asked(part: Part, lookeds: &[Looked]) -> bool
    ensures { result ≡ list_any (is_asked part) lookeds.now }
{
    lookeds.iter().any(|looked| is_asked(part, looked))
}

/// Whether the messages of the part ask about the key: it is not told, and nothing was refused.
pub(crate) fn is_asked(part: Part, looked: &Looked) -> bool
    ensures { result ≡ is_asked part looked.now }
{
    is_in(part, looked.known.phase) && looked.known.clash.is_none() && !is_refused(looked.why)
}

/// Whether what is to be found out in the phase is what the part asks.
fn is_in(part: Part, phase: Phase) -> bool
    ensures { result ≡ is_in part phase }
{
    match part {
        Part::Find => matches!(phase, Phase::Look),
        Part::Tell => matches!(phase, Phase::Check),
    }
}

fn is_refused(why: Why) -> bool
    ensures { result ≡ is_refused why }
{
    matches!(why, Why::Refused(_))
}

/// The requests of the part, about each key that it asks about.
///
/// # Errors
/// Where there is no memory for them.
pub(crate) fn requests_of(
    alloc: Global,
    part: Part,
    mark: &[u8],
    keys: &[Key],
    lookeds: &[Looked],
) -> Result<Vec<Request>, NoMemory>
    requires { length lookeds.now ≡ length keys.now }
    ensures { IfOk result (λ requests. requests.items
        ≡ requests_of part mark.now keys.now lookeds.now) }
{
    let mut requests = Vec::with_capacity(alloc, keys.len())?;
    for place in 0..keys.len() {
        let key = &keys[place];
        let looked = &lookeds[place];
        if is_asked(part, looked) {
            requests.push(request_of(alloc, part, mark, key, looked)?)?;
        }
    }
    Ok(requests)
}

/// The request about the key, with its id.
fn request_of(
    alloc: Global,
    part: Part,
    mark: &[u8],
    key: &Key,
    looked: &Looked,
) -> Result<Request, NoMemory>
    ensures { IfOk result (λ request. request ≡ request_of part mark.now key.now looked.now) }
{
    let ask = ask_of(alloc, part, key, &looked.known)?;
    let id = id_of(alloc, part, mark, key)?;
    Ok(Request { id: Some(id), ask })
}

/// The id of the question: its operation in one byte, the mark, and the key's name.
pub(crate) fn id_of(alloc: Global, part: Part, mark: &[u8], key: &Key) -> Result<Bytes, NoMemory>
    ensures { IfOk result (λ id. id ≡ id_of part mark.now key.now) }
{
    let mut id = vec![in alloc; part.number() as u8]?;
    id.extend_from_slice(mark)?;
    id.extend_from_slice(key.attrs.name.as_str().as_bytes())?;
    Ok(Bytes::from_vec(id))
}

/// What the part asks about the key.
fn ask_of(alloc: Global, part: Part, key: &Key, known: &Knowledge) -> Result<Ask, NoMemory>
    ensures { IfOk result (λ ask. ask ≡ ask_of part key.now known.now) }
{
    match part {
        Part::Find => Ok(Ask::Locate {
            mask: Some(EVERY_STATE),
            filter: Attrs::by_name(Text::copied(alloc, key.attrs.name.as_str())?),
        }),
        Part::Tell => Ok(Ask::GetAttributes(Text::copied(alloc, uid_of(known))?)),
    }
}

/// The identifier that is known; empty where none is.
fn uid_of(known: &Knowledge) -> &str
    ensures { result.now ≡ unwrap_or known.now.identifier [] }
{
    match &known.identifier {
        Some(uid) => uid.as_str(),
        None => "",
    }
}
