//! Whether a plan takes over from an earlier one.
ghost use Rattle.std.specs.Prelude.{◌≡◌, ◌↔◌, true, IsTrue};
ghost use Rattle.kmip_plan.specs.Chains.{is_revoked};
ghost use Rattle.kmip_plan.specs.Prolonging.{GoesOn, Prolongs};

use crate::Key;
use crate::plan::Plan;
use kmip_objects::KeyAttrs;

/// Whether the new plan prolongs the old one: it begins with the keys of the old plan, in the same
/// order, and each goes on there. A key goes on with the same attributes, its old way is a
/// beginning of its new way, and the reason of a Revoke on the old way stays.
///
/// Takes no memory, and looks at each key of the old plan at most once.
pub fn prolongs(new: &Plan, old: &Plan) -> bool
    ensures { IsTrue result ↔ Prolongs new.now old.now }
{
    keys_go_on(new.keys(), old.keys())
}

/// Whether each of the old keys goes on in the new key at its place.
#[tactic(auto, using(crate::proofs::ProlongingLemmas::onward))]
fn keys_go_on(new: &[Key], old: &[Key]) -> bool
    ensures { IsTrue result ↔ Prolongs new.now old.now }
{
    for (place, earlier) in old.iter().enumerate() {
        let Some(later) = new.get(place) else {
            return false;
        };
        if !goes_on(later, earlier) {
            return false;
        }
    }
    true
}

/// Whether the new key goes on from the old one.
fn goes_on(new: &Key, old: &Key) -> bool
    ensures { IsTrue result ↔ GoesOn new.now old.now }
{
    are_same(&new.attrs, &old.attrs) && old.target.leads_on(new.target) && has_same_reason(new, old)
}

/// Whether a Revoke on the old way has the same reason.
fn has_same_reason(new: &Key, old: &Key) -> bool
    ensures { IsTrue result
        ↔ (is_revoked old.now.target ≡ true → new.now.reason ≡ old.now.reason) }
{
    !old.target.is_revoked() || new.reason == old.reason
}

/// Whether two keys are made with the same attributes.
fn are_same(attrs: &KeyAttrs, others: &KeyAttrs) -> bool
    ensures { IsTrue result ↔ attrs.now ≡ others.now }
{
    attrs.name.as_str() == others.name.as_str()
        && attrs.algorithm == others.algorithm
        && attrs.length == others.length
        && attrs.usage == others.usage
}
