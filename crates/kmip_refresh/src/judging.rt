//! The judgement on what the server said.
ghost use Rattle.std.specs.Prelude.{◌≡◌};
ghost use Rattle.kmip_refresh.specs.Agreements.{agreement, agreement_told, counts_destroy, has, is_agreement, is_make, is_same_object, judgement_of};

use crate::agreement::Agreement;
use crate::judgement::Judgement;
use crate::key_look::KeyLook;
use kmip_client::{Knowledge, Phase};
use kmip_look::Looked;
use kmip_plan::{Key, Step, step_place};
use kmip_progress::Known;
use kmip_ttlv::Text;

/// The judgement on all keys: `Contradicted` if the server contradicts the file about any of them. Otherwise
/// `Unanswered` if it did not say it of some key. Otherwise `Contradicted` if some key is gone and it agrees
/// about none. Otherwise `Agreed`.
pub fn judgement_of(looks: &[KeyLook]) -> Judgement
    ensures { result ≡ judgement_of looks.now }
{
    if has(Agreement::Contradicts, looks) {
        return Judgement::Contradicted;
    }
    if has(Agreement::Unanswered, looks) {
        return Judgement::Unanswered;
    }
    if has(Agreement::Gone, looks) && !has(Agreement::Agrees, looks) {
        return Judgement::Contradicted;
    }
    Judgement::Agreed
}

/// Whether the agreement of some key is this one.
fn has(agreement: Agreement, looks: &[KeyLook]) -> bool
    ensures { result ≡ has agreement looks.now }
{
    looks
        .iter()
        .any(|look| is_agreement(agreement, look.agreement))
}

/// Whether the two are the same.
fn is_agreement(agreement: Agreement, other: Agreement) -> bool
    ensures { result ≡ is_agreement agreement other }
{
    match agreement {
        Agreement::Agrees => matches!(other, Agreement::Agrees),
        Agreement::Unanswered => matches!(other, Agreement::Unanswered),
        Agreement::Gone => matches!(other, Agreement::Gone),
        Agreement::Contradicts => matches!(other, Agreement::Contradicts),
    }
}

/// Whether what the server said agrees with what the file says about the key.
pub(crate) fn agreement(key: &Key, known: &Known, looked: &Looked) -> Agreement
    ensures { result ≡ agreement key.now known.now looked.now }
{
    if !looked.is_told() {
        return Agreement::Unanswered;
    }
    agreement_told(key, known, &looked.known)
}

/// Whether this status of the key agrees with what the file says about it.
fn agreement_told(key: &Key, known: &Known, seen: &Knowledge) -> Agreement
    ensures { result ≡ agreement_told key.now known.now seen.now }
{
    if seen.clash.is_some() {
        return Agreement::Contradicts;
    }
    if is_same_object(&known.identifier, &seen.identifier) && known.done <= seen.done {
        return Agreement::Agrees;
    }
    if is_make(seen.phase) && counts_destroy(key, known) {
        return Agreement::Gone;
    }
    Agreement::Contradicts
}

/// Whether both identifiers are known, and are the same.
fn is_same_object(own: &Option<Text>, seen: &Option<Text>) -> bool
    ensures { result ≡ is_same_object own.now seen.now }
{
    match (own, seen) {
        (Some(own), Some(seen)) => own.as_str() == seen.as_str(),
        (Some(_), None) | (None, Some(_)) | (None, None) => false,
    }
}

/// Whether no object has the key's name.
fn is_make(phase: Phase) -> bool
    ensures { result ≡ is_make phase }
{
    matches!(phase, Phase::Make)
}

/// Whether the file counts the Destroy step of the key.
fn counts_destroy(key: &Key, known: &Known) -> bool
    ensures { result ≡ counts_destroy key.now known.now }
{
    let place = step_place(key, Step::Destroy);
    0 < place && place <= known.done
}
