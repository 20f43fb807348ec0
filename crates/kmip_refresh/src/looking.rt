//! The look at the keys of which a progress file knows an identifier.
ghost use Rattle.std.specs.Prelude.{◌≡◌, ◌≤◌, IfOk, IsTrue, length, true};
ghost use Rattle.std.specs.List.{AllZip, list_all};
ghost use Rattle.kmip_messages.specs.Members.{may_have};
ghost use Rattle.kmip_client.specs.Saving.{progress};
ghost use Rattle.kmip_plan.specs.Plans.{key_fits};
ghost use Rattle.kmip_protocol.specs.Past.{Names, is_planned};
ghost use Rattle.kmip_look.specs.Looks.{IsFresh, KeepsSound};
ghost use Rattle.kmip_refresh.specs.Agreements.{judgement_of};
ghost use Rattle.kmip_refresh.specs.KnownKeys.{keys_of, known_keys, looks_judged};
ghost use Rattle.kmip_refresh.specs.Moments.{FinishedSince, StoodSince};
ghost use Rattle.kmip_refresh.specs.Refreshing.{LooksAlone, LooksFirst, lookeds_of};
ghost use Rattle.kmip_refresh.specs.declared.judgement.Judgement.TheVariants as judgements;

use crate::key_look::KeyLook;
use crate::known_keys::{known_keys, looks_judged};
use kmip_client::Client;
use kmip_look::{Pause, look_at_keys};
use kmip_plan::Key;
use kmip_plan::laws::the_laws_of_plans_hold;
use kmip_progress::Known;
use kmip_protocol::{ExchangeObserver, Link};
use kmip_ttlv::NoMemory;
use std::alloc::Global;

/// Looks at each key of which the client knows an identifier, by questions that change nothing, and compares each
/// answer with what the client knows. `judgement_of` says what that comes to.
///
/// A message asks about `batch` keys at most, 1 to 8. The mark has at most 16 bytes, and is a new one for each
/// look. The pause waits before a question is sent again. The observer is told of each exchange.
///
/// # Errors
/// If memory runs out.
pub fn look_at_progress<L: Link, P: Pause, O: ExchangeObserver>(
    alloc: Global,
    client: &Client<'_>,
    mark: &[u8],
    batch: usize,
    link: &mut L,
    pause: &mut P,
    observer: &mut O,
) -> Result<Vec<KeyLook>, NoMemory>
    // `batch` is a number from 1 to 8.
    requires batch { IsTrue (may_have batch) }
    // The mark has at most 16 bytes.
    requires mark { length mark.now ≤ 16 }
    // It looked at the known keys, and at nothing else, and each answer is judged.
    ensures looks { LooksFirst (λ v. v.items) (known_keys client.now.keys (progress client.now))
        mark.now (L.seen link.old) result (L.seen link.new) }
    // The answers are about the keys of which the client knows an identifier, in the order of the plan. There is
    // one for each (`Looks`). The agreement of each is that of `agreement`.
    ensures judged { IfOk result (λ looks. looks.items ≡ looks_judged
        (known_keys client.now.keys (progress client.now)) (lookeds_of looks.items)) }
    // Over a link that was honest for some names, looks at the known keys were sent, and nothing else, however
    // the call ends.
    ensures looks_alone { (names : Names) → (L.seen link.old).honest names
        → LooksAlone names (keys_of (known_keys client.now.keys (progress client.now)))
        mark.now (L.seen link.old) (L.seen link.new) }
    // However it ends, a past that is sound stays sound, if no name begins with the mark.
    ensures sound { KeepsSound mark.now (L.seen link.old) (L.seen link.new) }
    // Let the link be honest for the names of the plan, and let the mark be new. Then each key about which the
    // server agrees stood so at some moment since the call began.
    ensures since { (L.seen link.old).honest (is_planned client.now.keys)
        → IsFresh mark.now (L.seen link.old).past → IfOk result (λ looks. AllZip
        (StoodSince (is_planned client.now.keys) (L.seen link.old).past (L.seen link.new).past)
        (known_keys client.now.keys (progress client.now)) looks.items) }
    // If the judgement is `Agreed`, each key that the client knew to be finished had reached its target at such
    // a moment, or it is gone.
    ensures finished { (L.seen link.old).honest (is_planned client.now.keys)
        → IsFresh mark.now (L.seen link.old).past → IfOk result (λ looks.
        judgement_of looks.items ≡ judgements.Agreed → AllZip
        (FinishedSince (is_planned client.now.keys) (L.seen link.old).past (L.seen link.new).past)
        (known_keys client.now.keys (progress client.now)) looks.items) }
{
    the_laws_of_plans_hold(); // proof
    let saved = client.progress(alloc)?;
    let plan = client.plan();
    let (keys, known) = (plan.keys(), saved.known());
    look_at_known(alloc, keys, known, mark, batch, link, pause, observer)
}

/// Looks at the keys of which an identifier is known, and compares each answer with what is known.
///
/// # Errors
/// If memory runs out.
fn look_at_known<L: Link, P: Pause, O: ExchangeObserver>(
    alloc: Global,
    keys: &[Key],
    known: &[Known],
    mark: &[u8],
    batch: usize,
    link: &mut L,
    pause: &mut P,
    observer: &mut O,
) -> Result<Vec<KeyLook>, NoMemory>
    requires as_many { length known.now ≡ length keys.now }
    requires fit { list_all key_fits keys.now ≡ true }
    requires batch { IsTrue (may_have batch) }
    requires mark { length mark.now ≤ 16 }
    ensures looks { LooksFirst (λ v. v.items) (known_keys keys.now known.now) mark.now
        (L.seen link.old) result (L.seen link.new) }
    ensures sound { KeepsSound mark.now (L.seen link.old) (L.seen link.new) }
{
    let copies = known_keys(alloc, keys, known)?;
    let lookeds = look_at_keys(alloc, copies.as_slice(), link, mark, batch, pause, observer)?;
    let looks = looks_judged(alloc, keys, known, lookeds)?;
    Ok(looks)
}
