//! Whether a progress is believed without asking the server.
ghost use Rattle.std.specs.Prelude.{◌≡◌, ◌≤◌, ◌⊎◌, ℕ, List, None, Some, IfOk, IfSome, IsTrue, OnOk, false, length, option_map, true};
ghost use Rattle.kmip_belief.specs.Origins.{HasNoLineFeed, origin_text};
ghost use Rattle.kmip_belief.specs.Belief.{IsOfThisServer, KnowsNoneFrom, MayBelieve};

use crate::origins::keys_saved;
use crate::terms::Terms;
use kmip_client::Client;
use kmip_ttlv::NoMemory;
use std::alloc::Global;

/// Whether what the progress file says, which the client knows, is believed without asking the server. `origin` is the
/// text next to the file that says where it was saved, if there is one.
///
/// # Errors
/// If memory runs out.
pub fn is_believed(
    alloc: Global,
    client: &Client<'_>,
    origin: Option<&str>,
    terms: &Terms<'_>,
) -> Result<bool, NoMemory>
    // It is believed only if the run is a rehearsal, may ask nothing, or has a user who vouches for it (`MayBelieve`).
    // Otherwise it was saved against this server, for the attributes of each key of which it knows an object.
    ensures only { IfOk result (λ r. r ≡ true → MayBelieve terms.now
        (option_map (λ text. text.now) origin.entry) client.now) }
    // A run that may ask nothing believes it.
    ensures unasked { IfOk result (λ r. terms.now.limit ≡ 0 → r ≡ true) }
    // So does a rehearsal, or a run whose user vouches for it, unless the server is to be asked first.
    ensures vouched { IfOk result (λ r. terms.now.is_refreshed ≡ false
        → (terms.now.is_rehearsal ≡ true) ⊎ (terms.now.is_vouched_for ≡ true) → r ≡ true) }
    // So does a run against the server that the origin names for all keys of the plan, unless it is to ask first.
    ensures own { (kept : List ℕ) → HasNoLineFeed kept
        → option_map (λ text. text.now) origin.entry
        ≡ Some (origin_text terms.now.server.now kept client.now.keys)
        → IfOk result (λ r. terms.now.is_refreshed ≡ false → r ≡ true) }
    // A run that is to ask the server first does not believe it, unless it may ask nothing.
    ensures refreshed { IfOk result (λ r. terms.now.is_refreshed ≡ true → 1 ≤ terms.now.limit
        → r ≡ false) }
{
    if terms.limit == 0 {
        return Ok(true);
    }
    if terms.is_refreshed {
        return Ok(false);
    }
    if terms.is_rehearsal || terms.is_vouched_for {
        return Ok(true);
    }
    is_of_this_server(alloc, client, origin, terms.server)
}

/// Whether the origin says that the progress was saved against this server, for each key of which an object is known.
///
/// # Errors
/// If memory runs out.
fn is_of_this_server(
    alloc: Global,
    client: &Client<'_>,
    origin: Option<&str>,
    server: &str,
) -> Result<bool, NoMemory>
    ensures only { IfOk result (λ r. r ≡ true → IsOfThisServer server.now
        (option_map (λ text. text.now) origin.entry) client.now) }
    ensures own { (kept : List ℕ) → HasNoLineFeed kept
        → option_map (λ text. text.now) origin.entry
        ≡ Some (origin_text server.now kept client.now.keys)
        → IfOk result (λ r. r ≡ true) }
{
    let Some(text) = origin else {
        return Ok(knows_none_from(client, 0));
    };
    match keys_saved(alloc, text.as_bytes(), server, client.plan().keys())? {
        Some(count) => Ok(knows_none_from(client, count)),
        None => Ok(knows_none_from(client, 0)),
    }
}

/// Whether no object is known of the keys from this place on.
fn knows_none_from(client: &Client<'_>, first: usize) -> bool
    ensures none { result ≡ true → KnowsNoneFrom first client.now }
    ensures no_more { first ≡ length client.now.keys → result ≡ true }
{
    for place in first..client.plan().count() {
        if client.identifier(place).is_some() {
            return false;
        }
    }
    true
}

/// Of how many keys an object is known.
pub fn known_count(client: &Client<'_>) -> usize
    // If it is 0, no object is known.
    ensures none { result ≡ 0 → KnowsNoneFrom 0 client.now }
    // If no object is known, it is 0.
    ensures zero { KnowsNoneFrom 0 client.now → result ≡ 0 }
{
    let mut known = 0usize;
    for place in 0..client.plan().count() {
        if client.identifier(place).is_some() {
            known = known.saturating_add(1);
        }
    }
    known
}
