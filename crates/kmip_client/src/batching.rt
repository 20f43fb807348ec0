//! Whose turn it is, and the message that asks about them.
ghost use Rattle.std.specs.Prelude.{◌≡◌, ◌≤◌, ◌++◌, List, [], length, drop, take, Some, IfOk, IsTrue, OnOk};
ghost use Rattle.std.specs.List.{All, AllZip};
ghost use Rattle.kmip_objects.specs.Objects.{Object};
ghost use Rattle.kmip_batch_items.specs.Operations.{operation_of};
ghost use Rattle.kmip_messages.specs.Members.{may_have};
ghost use Rattle.kmip_plan.specs.Plans.{IsLawful, EachFits};
ghost use Rattle.kmip_client.specs.Asking.{
  all_working_from,
  next_places,
  at_place,
  part_about,
  question_at,
  IsAbout,
  AreApart,
};
ghost use Rattle.kmip_client.specs.Clients.{WorksAt, AreSettled};
ghost use Rattle.kmip_client.specs.Held.{Held};
ghost use Rattle.kmip_client.specs.Justified.{JustifiedMessage};
ghost use Rattle.kmip_client.specs.Questions.{request_about};
ghost use Rattle.kmip_client.specs.Private.{IsShaped};

use crate::Knowledge;
use crate::part::Part;
use crate::parts::Parts;
use crate::question::{Question, request_about};
use kmip_batch_items::Request;
use kmip_messages::write_request;
use kmip_plan::Key;
use kmip_plan::laws::the_laws_of_plans_hold;
use kmip_ttlv::{Bytes, NoMemory};
use std::alloc::Global;

/// The places of the first keys that are worked on, at most `most`: from a place on, and then from
/// the front.
///
/// # Errors
/// Where there is no memory for them.
pub(crate) fn next_places(
    alloc: Global,
    keys: &[Key],
    knowns: &[Knowledge],
    next: usize,
    most: usize,
) -> Result<Vec<usize>, NoMemory>
    requires as_many { length knowns.now ≡ length keys.now }
    requires within { next ≤ length keys.now }
    ensures places { IfOk result (λ v. v.items ≡ next_places
        (record { keys = keys.now; knowns = knowns.now; next = next; batch = most })) }
    ensures work { IfOk result (λ v. All (WorksAt keys.now knowns.now) v.items) }
    ensures apart { IfOk result (λ v. AreApart v.items) }
    ensures none { IfOk result (λ v. v.items ≡ [] → 1 ≤ most → AreSettled keys.now knowns.now) }
{
    let mut places = Vec::with_capacity(alloc, most)?;
    push_working(keys, knowns, next, most, &mut places)?;
    push_working(&keys[..next], &knowns[..next], 0, most, &mut places)?;
    Ok(places)
}

/// Notes the places of the keys that are worked on from a place on, up to `most` in all.
fn push_working(
    keys: &[Key],
    knowns: &[Knowledge],
    from: usize,
    most: usize,
    places: &mut Vec<usize>,
) -> Result<(), NoMemory>
    requires as_many { length knowns.now ≡ length keys.now }
    requires within { from ≤ length keys.now }
    requires room { length places.old.items ≤ most }
    ensures places { OnOk result (places.new.items ≡ take most (places.old.items
        ++ all_working_from from (drop from keys.now) (drop from knowns.now))) }
    ensures room { OnOk result (length places.new.items ≤ most) }
{
    for place in from..keys.len() {
        if places.len() == most {
            return Ok(());
        }
        if knowns[place].is_working(&keys[place]) {
            places.push(place)?;
        }
    }
    Ok(())
}

/// The message of the questions about the keys at some places, each of which is worked on.
///
/// # Errors
/// Where there is no memory for it.
pub(crate) fn question_at(
    alloc: Global,
    keys: &[Key],
    knowns: &[Knowledge],
    places: &[usize],
) -> Result<Question, NoMemory>
    requires shaped { AllZip IsShaped keys.now knowns.now }
    requires fits { EachFits keys.now }
    requires lawful { IsLawful keys.now }
    requires works { All (WorksAt keys.now knowns.now) places.now }
    requires apart { AreApart places.now }
    requires some { IsTrue (may_have (length places.now)) }
    ensures question { IfOk result (λ q. q ≡ question_at keys.now knowns.now places.now) }
    ensures about { IfOk result (λ q. IsAbout keys.now knowns.now places.now q) }
    ensures justified { (objects : List Object) → Held objects keys.now knowns.now
        → IfOk result (λ q. JustifiedMessage keys.now objects q.bytes) }
{
    the_laws_of_plans_hold(); // proof
    let mut parts = Vec::with_capacity(alloc, places.len())?;
    let mut requests = Vec::with_capacity(alloc, places.len())?;
    for place in places {
        let request = request_at(alloc, keys, knowns, *place)?;
        parts.push(Part {
            key: *place,
            operation: request.ask.operation().number(),
        })?;
        requests.push(request)?;
    }
    let bytes = write_request(alloc, requests.as_slice())?;
    Ok(Question {
        parts: Parts::from_vec(parts),
        bytes: Bytes::from_vec(bytes),
    })
}

/// The request about the key at a place, which is worked on.
fn request_at(
    alloc: Global,
    keys: &[Key],
    knowns: &[Knowledge],
    place: usize,
) -> Result<Request, NoMemory>
    requires shaped { AllZip IsShaped keys.now knowns.now }
    requires works { WorksAt keys.now knowns.now place }
    ensures request { IfOk result (λ r.
        at_place (λ place key known. request_about key known) keys.now knowns.now place
        ≡ Some r) }
    ensures part { IfOk result (λ r. at_place part_about keys.now knowns.now place
        ≡ Some (record { key = place; operation = operation_of r.ask })) }
{
    request_about(alloc, &keys[place], &knowns[place])
}
