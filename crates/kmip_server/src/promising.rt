//! What a question is answered where the change that it asks for is made.
ghost use Rattle.std.specs.Prelude.{◌≡◌, Some, IfOk, IsTrue, IsSome, option_to_list};
ghost use Rattle.kmip_batch_items.specs.Fits.{outcome_fits};
ghost use Rattle.kmip_batch_items.specs.Private.{IsBrief};
ghost use Rattle.kmip_batch_items.specs.Operations.{operation_of};
ghost use Rattle.kmip_batch_items.specs.RequestFits.{ask_fits};
ghost use Rattle.kmip_batch_items.specs.declared.ask.Ask.TheVariants as asks;
ghost use Rattle.kmip_batch_items.specs.declared.standard.TheConstants.{OPERATION_LOCATE, OPERATION_GET_ATTRIBUTES};
ghost use Rattle.kmip_objects.specs.Ranges.{is_identifier};
ghost use Rattle.kmip_server.specs.PrivateAnswering.{promised_outcome};
ghost use Rattle.kmip_server.specs.Serving.{answer};

use crate::reasons::store_reason;
use kmip_batch_items::standard::REASON_FEATURE_NOT_SUPPORTED;
use kmip_batch_items::{Ask, Outcome};
use kmip_objects::{Attrs, Texts, attributes_of, is_compromise};
use kmip_store::{Records, StoreFault, identifier_at};
use kmip_ttlv::{NoMemory, Text};
use std::alloc::Global;

/// The outcome of a question where the change that it asks for is made. Of one that asks for none it is
/// the outcome.
///
/// # Errors
/// Where there is no memory.
pub(crate) fn promise<S: Records>(store: &S, alloc: Global, ask: &Ask) -> Result<Outcome, NoMemory>
    requires { IsTrue (ask_fits ask.now) }
    ensures outcome { IfOk result (λ o. o ≡ promised_outcome (S.stock store.now) ask.now) }
    ensures fits { IfOk result (λ o. IsTrue (outcome_fits (Some (operation_of ask.now)) o)) }
    ensures brief { IfOk result (λ o. IsBrief o) }
{
    match ask {
        Ask::Create(_) => {
            let uid = identifier_at(alloc, store.count())?;
            Ok(Outcome::Created(uid))
        }
        Ask::Locate { mask, filter } => {
            let outcome = locate(store, alloc, *mask, filter)?;
            Ok(outcome)
        }
        Ask::GetAttributes(uid) => {
            let outcome = get_attributes(store, alloc, uid.as_str())?;
            Ok(outcome)
        }
        Ask::Activate(uid) => {
            let uid = Text::copied(alloc, uid.as_str())?;
            Ok(Outcome::Activated(uid))
        }
        Ask::Revoke(uid, code) => {
            if is_compromise(*code) {
                return Ok(Outcome::Failed(Some(REASON_FEATURE_NOT_SUPPORTED)));
            }
            let uid = Text::copied(alloc, uid.as_str())?;
            Ok(Outcome::Revoked(uid))
        }
        Ask::Destroy(uid) => {
            let uid = Text::copied(alloc, uid.as_str())?;
            Ok(Outcome::Destroyed(uid))
        }
    }
}

/// Looks for the object that the filter describes.
fn locate<S: Records>(
    store: &S,
    alloc: Global,
    mask: Option<i32>,
    filter: &Attrs,
) -> Result<Outcome, NoMemory>
    requires { IsSome filter.now.name }
    ensures outcome { IfOk result (λ o.
        o ≡ (answer (S.stock store.now) (asks.Locate mask filter.now)).0) }
    ensures fits { IfOk result (λ o. IsTrue (outcome_fits (Some OPERATION_LOCATE) o)) }
    ensures brief { IfOk result (λ o. IsBrief o) }
{
    let Ok(found) = store.locate(alloc, mask, filter) else {
        return Err(NoMemory);
    };
    let uids = texts_of(alloc, found)?;
    Ok(Outcome::Located(uids))
}

/// The text as a list, or none.
fn texts_of(alloc: Global, text: Option<Text>) -> Result<Texts, NoMemory>
    ensures { IfOk result (λ texts. texts ≡ option_to_list text) }
{
    let mut texts = Texts::new(alloc);
    match text {
        Some(text) => {
            texts.push(text)?;
            Ok(texts)
        }
        None => Ok(texts),
    }
}

/// Tells the attributes of the object.
fn get_attributes<S: Records>(store: &S, alloc: Global, uid: &str) -> Result<Outcome, NoMemory>
    requires { IsTrue (is_identifier uid.now) }
    ensures outcome { IfOk result (λ o.
        o ≡ (answer (S.stock store.now) (asks.GetAttributes uid.now)).0) }
    ensures fits { IfOk result (λ o. IsTrue (outcome_fits (Some OPERATION_GET_ATTRIBUTES) o)) }
    ensures brief { IfOk result (λ o. IsBrief o) }
{
    let Some(row) = store.find(uid) else {
        return Ok(Outcome::Failed(store_reason(StoreFault::NotFound)));
    };
    let uid = Text::copied(alloc, uid)?;
    let attrs = attributes_of(alloc, &row.attrs, row.state)?;
    Ok(Outcome::Attributes(uid, attrs))
}
