//! A step that took effect.
ghost use Rattle.std.specs.Prelude.{◌≡◌, ◌++◌, Some, OnErr, OnOk, IfOk, IsTrue, option_to_list};
ghost use Rattle.kmip_batch_items.specs.RequestFits.{ask_fits};
ghost use Rattle.kmip_server.specs.PrivateAnswering.{ChangesRecords};
ghost use Rattle.kmip_server.specs.Effects.{effect_asked, effect_of, effect_on};
ghost use Rattle.kmip_server.specs.Serving.{answer};
ghost use Rattle.kmip_server.specs.Shown.{objects_in};

use crate::changing::change_records;
use kmip_batch_items::Ask;
use kmip_objects::{Step, is_compromise};
use kmip_store::{Records, StoreFault};
use kmip_ttlv::{NoMemory, Text};
use std::alloc::Global;

/// A step that took effect on the object of a name.
#[derive(Drop)]
pub struct Effect {
    pub name: Text,
    pub step: Step,
}

/// Makes the change that a question asks for, as `change_records`, and notes at the end of `effects` the step
/// that took effect, if one did.
///
/// # Errors
/// Where there is no memory; all is then as it was.
pub(crate) fn carry_out_noted<S: Records>(
    store: &mut S,
    effects: &mut Vec<Effect>,
    alloc: Global,
    ask: &Ask,
) -> Result<Result<(), StoreFault>, NoMemory>
    requires { IsTrue (ask_fits ask.now) }
    ensures changed { ChangesRecords result ask.now (S.stock store.old) (S.stock store.new) }
    ensures effects { OnOk result (effects.new.items ≡ effects.old.items ++ option_to_list
        (effect_of (objects_in (S.stock store.old)) ask.now
        (answer (S.stock store.old) ask.now).0)) }
    ensures refused { IfOk result (λ done. OnErr done (effects.new.items ≡ effects.old.items)) }
    ensures same { OnErr result (effects.new.items ≡ effects.old.items) }
{
    let Some(effect) = effect_asked(store, alloc, ask)? else {
        return change_records(store, alloc, ask);
    };
    effects.reserve(1)?;
    match change_records(store, alloc, ask)? {
        Ok(()) => {
            effects.push_reserved(effect);
            Ok(Ok(()))
        }
        Err(fault) => Ok(Err(fault)),
    }
}

/// The step that a question asks for, on the object of which name, if it asks for one and there is the
/// object.
fn effect_asked<S: Records>(store: &S, alloc: Global, ask: &Ask) -> Result<Option<Effect>, NoMemory>
    ensures { IfOk result (λ effect.
        effect ≡ effect_asked (objects_in (S.stock store.now)) ask.now) }
{
    match ask {
        Ask::Create(attrs) => {
            let effect = effect_named(alloc, Step::Create, attrs.name.as_str())?;
            Ok(Some(effect))
        }
        Ask::Locate { mask: _, filter: _ } | Ask::GetAttributes(_) => Ok(None),
        Ask::Activate(uid) => effect_on(store, alloc, Step::Activate, uid.as_str()),
        Ask::Revoke(uid, code) => {
            if is_compromise(*code) {
                return Ok(None);
            }
            effect_on(store, alloc, Step::Revoke, uid.as_str())
        }
        Ask::Destroy(uid) => effect_on(store, alloc, Step::Destroy, uid.as_str()),
    }
}

/// A step on the object with the identifier, if there is one.
fn effect_on<S: Records>(
    store: &S,
    alloc: Global,
    step: Step,
    uid: &str,
) -> Result<Option<Effect>, NoMemory>
    ensures { IfOk result (λ effect.
        effect ≡ effect_on (objects_in (S.stock store.now)) (Some (step, uid.now))) }
{
    let Some(row) = store.find(uid) else {
        return Ok(None);
    };
    let effect = effect_named(alloc, step, row.attrs.name.as_str())?;
    Ok(Some(effect))
}

/// A step on the object of a name.
fn effect_named(alloc: Global, step: Step, name: &str) -> Result<Effect, NoMemory>
    ensures { IfOk result (λ effect. effect ≡ record { name = name.now; step = step }) }
{
    let name = Text::copied(alloc, name)?;
    Ok(Effect { name, step })
}
