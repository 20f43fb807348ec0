//! A look at the keys of a plan, group by group.
ghost use Rattle.std.specs.Prelude.{◌≡◌, ◌≤◌, ◌<◌, [], IfOk, IsTrue, OnOk, length, true, false};
ghost use Rattle.std.specs.List.{All, AllZip};
ghost use Rattle.kmip_messages.specs.Members.{may_have};
ghost use Rattle.kmip_messages.specs.Written.{requests_fit};
ghost use Rattle.kmip_plan.specs.Plans.{key_fits};
ghost use Rattle.kmip_plan.specs.declared.key.Key.{Key};
ghost use Rattle.kmip_protocol.specs.Past.{Names};
ghost use Rattle.kmip_look.specs.Looks.{IsTried, KeepsSound, Looks};
ghost use Rattle.kmip_look.specs.PrivateAsking.{requests_of};
ghost use Rattle.kmip_look.specs.PrivateGroups.{AsksOnce, AsksParts, IsGroup};
ghost use Rattle.kmip_look.specs.PrivateKeeping.{AreFit, AreShaped, GroupsCalmly, LookLaws, LooksAt, SendsLooks, both_parts, one_part, unasked};
ghost use Rattle.kmip_look.specs.PrivateTrying.{IsTriedAt};

use crate::asking::{is_any_asked, requests_of};
use crate::hearing::hear_each;
use crate::looked::Looked;
use crate::part::Part;
use crate::pause::Pause;
use crate::putting::put;
use kmip_batch_items::Request;
use kmip_objects::laws::the_laws_of_objects_hold;
use kmip_plan::{Key, Plan};
use kmip_protocol::laws::the_laws_of_exchanges_hold;
use kmip_protocol::{ExchangeObserver, Link};
use kmip_server::laws::the_laws_of_servers_hold;
use kmip_ttlv::NoMemory;
use std::alloc::Global;

/// How often a message is put in each of the two parts of a look, at most, until each of its questions has
/// an answer. Own (limit).
const MOST_TRIES: usize = 4;

/// Looks how each key of the plan stands now, by Locate and Get Attributes alone.
///
/// Keys are taken in groups of `batch`, which is 1 to 8, in the order of the plan. Of a group it is first asked
/// which objects have the name of each key, in one message. Then it is asked what attributes the object of
/// each has that has just one. A message is put up to four times, about the keys that have no answer yet.
/// Before it is put again the pause waits. Where that says no, nothing more is asked of any key.
///
/// The id of each question is its operation in one byte, the mark, and the name of the key. The mark has at
/// most 16 bytes, and is to be one that no question asked before has (`IsFresh`).
///
/// The observer is told of each exchange as it is made.
///
/// # Errors
/// Where there is no memory; then nothing is said of any key.
pub fn look<L: Link, P: Pause, O: ExchangeObserver>(
    alloc: Global,
    plan: &Plan,
    link: &mut L,
    mark: &[u8],
    batch: usize,
    pause: &mut P,
    observer: &mut O,
) -> Result<Vec<Looked>, NoMemory>
    // A message may ask this many questions: one to eight.
    requires batch { IsTrue (may_have batch) }
    // The mark has at most 16 bytes.
    requires mark { length mark.now ≤ 16 }
    // It looks at each key of the plan, and what it says of them was so.
    ensures looks { Looks (λ v. v.items) plan.now mark.now (L.seen link.old) result
        (L.seen link.new) }
    // Over a link that is honest for some names, and unless the pause gave up: it gives up no key that is
    // not told, and that the server did not refuse, before at least four messages have asked about it.
    ensures tried { (names : Names) → (L.seen link.old).honest names
        → P.has_given_up pause.new ≡ false → IfOk result (λ v. AllZip
        (IsTried mark.now (L.seen link.old).past (L.seen link.new).past) plan.now v.items) }
    // However it ends, a past that is sound stays sound, if no name begins with the mark.
    ensures sound { KeepsSound mark.now (L.seen link.old) (L.seen link.new) }
{
    look_at_keys(alloc, plan.keys(), link, mark, batch, pause, observer)
}

/// Looks at these keys as `look` does at those of a plan: by Locate and Get Attributes alone, in groups of
/// `batch`, in their order. If there are no keys, it sends nothing.
///
/// # Errors
/// If memory runs out; then nothing is said of any key.
pub fn look_at_keys<L: Link, P: Pause, O: ExchangeObserver>(
    alloc: Global,
    keys: &[Key],
    link: &mut L,
    mark: &[u8],
    batch: usize,
    pause: &mut P,
    observer: &mut O,
) -> Result<Vec<Looked>, NoMemory>
    // A message may ask this many questions: one to eight.
    requires batch { IsTrue (may_have batch) }
    // The mark has at most 16 bytes.
    requires mark { length mark.now ≤ 16 }
    // The values of each key are in their ranges, as those of every plan are.
    requires fit { All (λ (key : Key). key_fits key ≡ true) keys.now }
    // It looks at each key, and what it says of them was so.
    ensures looks { Looks (λ v. v.items) keys.now mark.now (L.seen link.old) result
        (L.seen link.new) }
    // Over a link that is honest for some names, and unless the pause gave up: it gives up no key that is
    // not told, and that the server did not refuse, before at least four messages have asked about it.
    ensures tried { (names : Names) → (L.seen link.old).honest names
        → P.has_given_up pause.new ≡ false → IfOk result (λ v. AllZip
        (IsTried mark.now (L.seen link.old).past (L.seen link.new).past) keys.now v.items) }
    // However it ends, a past that is sound stays sound, if no name begins with the mark.
    ensures sound { KeepsSound mark.now (L.seen link.old) (L.seen link.new) }
{
    let mut lookeds = Vec::with_capacity(alloc, keys.len())?;
    let mut goes_on = true;
    let mut rest = keys;
    while !rest.is_empty() {
        let (group, later) = rest.split_at(batch.min(rest.len()));
        let mut looked = look_group(alloc, group, link, mark, pause, &mut goes_on, observer)?;
        lookeds.append(&mut looked)?;
        rest = later;
    }
    Ok(lookeds)
}

/// Looks at the keys of a group, where more may be asked.
///
/// # Errors
/// Where there is no memory.
fn look_group<L: Link, P: Pause, O: ExchangeObserver>(
    alloc: Global,
    keys: &[Key],
    link: &mut L,
    mark: &[u8],
    pause: &mut P,
    goes_on: &mut bool,
    observer: &mut O,
) -> Result<Vec<Looked>, NoMemory>
    requires many { IsTrue (may_have (length keys.now)) }
    requires mark { length mark.now ≤ 16 }
    requires fit { AreFit keys.now }
    ensures as_many { IfOk result (λ lookeds. length lookeds.items ≡ length keys.now) }
    ensures honestly { (names : Names) → (L.seen link.old).honest names
        → (L.seen link.new).honest names
        × SendsLooks keys.now mark.now 8 (L.seen link.old).past (L.seen link.new).past
        × IfOk result (λ lookeds. LooksAt names mark.now keys.now lookeds.items
        (L.seen link.old).past (L.seen link.new).past) }
    ensures calmly { (names : Names) → (L.seen link.old).calm names → (L.seen link.new).calm names
        × IfOk result (λ lookeds. GroupsCalmly keys.now lookeds.items goes_on.old goes_on.new
        (L.seen link.old).past (L.seen link.new).past) }
    ensures tried { (names : Names) → (L.seen link.old).honest names → goes_on.new ≡ true
        → IfOk result (λ lookeds. AllZip (IsTriedAt Part.Tell MOST_TRIES mark.now
        (L.seen link.old).past (L.seen link.new).past) keys.now lookeds.items) }
    ensures sound { KeepsSound mark.now (L.seen link.old) (L.seen link.new) }
    ensures onward { goes_on.new ≡ true → goes_on.old ≡ true }
    ensures stops { (goes_on.old ≡ false → P.has_given_up pause.old ≡ true)
        → OnOk result (goes_on.new ≡ false → P.has_given_up pause.new ≡ true) }
{
    let mut lookeds = all_unasked(alloc, keys.len())?;
    if !*goes_on {
        return Ok(lookeds);
    }
    let more = ask_group(alloc, keys, link, mark, pause, &mut lookeds, observer)?;
    *goes_on = more;
    Ok(lookeds)
}

/// What is said of this many keys that were not asked about.
fn all_unasked(alloc: Global, count: usize) -> Result<Vec<Looked>, NoMemory>
    ensures as_many { IfOk result (λ lookeds. length lookeds.items ≡ count) }
    ensures unasked { IfOk result (λ lookeds. All (λ looked. looked ≡ unasked) lookeds.items) }
{
    let mut lookeds = Vec::with_capacity(alloc, count)?;
    for _ in 0..count {
        lookeds.push(Looked::unasked())?;
    }
    Ok(lookeds)
}

/// Asks about the keys of a group in both parts, and says whether more may be asked.
///
/// # Errors
/// Where there is no memory.
fn ask_group<L: Link, P: Pause, O: ExchangeObserver>(
    alloc: Global,
    keys: &[Key],
    link: &mut L,
    mark: &[u8],
    pause: &mut P,
    lookeds: &mut Vec<Looked>,
    observer: &mut O,
) -> Result<bool, NoMemory>
    requires { IsGroup keys.now mark.now lookeds.old.items }
    ensures { AsksParts both_parts (record { keys = keys.now; mark = mark.now; most = 8 })
        lookeds.old.items (L.seen link.old) result lookeds.new.items (L.seen link.new)
        (P.has_given_up pause.new) }
{
    let goes_on = ask_part(
        alloc,
        Part::Find,
        keys,
        link,
        mark,
        pause,
        lookeds,
        observer,
    )?;
    if !goes_on {
        return Ok(false);
    }
    ask_part(
        alloc,
        Part::Tell,
        keys,
        link,
        mark,
        pause,
        lookeds,
        observer,
    )
}

/// Puts the messages of a part about the keys of a group, and says whether more may be asked.
///
/// # Errors
/// Where there is no memory.
fn ask_part<L: Link, P: Pause, O: ExchangeObserver>(
    alloc: Global,
    part: Part,
    keys: &[Key],
    link: &mut L,
    mark: &[u8],
    pause: &mut P,
    lookeds: &mut Vec<Looked>,
    observer: &mut O,
) -> Result<bool, NoMemory>
    requires { IsGroup keys.now mark.now lookeds.old.items }
    ensures { AsksParts (one_part part)
        (record { keys = keys.now; mark = mark.now; most = MOST_TRIES })
        lookeds.old.items (L.seen link.old) result lookeds.new.items (L.seen link.new)
        (P.has_given_up pause.new) }
{
    for tried in 0..MOST_TRIES {
        if !is_any_asked(part, lookeds.as_slice()) {
            return Ok(true);
        }
        if tried > 0 && !pause.again() {
            return Ok(false);
        }
        ask_once(alloc, part, keys, link, mark, lookeds, observer)?;
    }
    Ok(true)
}

/// Puts one message of a part about the keys of a group that it asks about, where there is one.
///
/// # Errors
/// Where there is no memory.
fn ask_once<L: Link, O: ExchangeObserver>(
    alloc: Global,
    part: Part,
    keys: &[Key],
    link: &mut L,
    mark: &[u8],
    lookeds: &mut Vec<Looked>,
    observer: &mut O,
) -> Result<(), NoMemory>
    requires { IsGroup keys.now mark.now lookeds.old.items }
    ensures { AsksOnce part (record { keys = keys.now; mark = mark.now; most = 1 })
        lookeds.old.items (L.seen link.old) result lookeds.new.items (L.seen link.new) }
{
    let requests = requests_of(alloc, part, mark, keys, lookeds.as_slice())?;
    if requests.is_empty() {
        return Ok(());
    }
    ask(
        alloc,
        part,
        keys,
        link,
        mark,
        requests.as_slice(),
        lookeds,
        observer,
    )
}

/// Puts these requests of a part in a message, and learns of what comes.
///
/// # Errors
/// Where there is no memory.
fn ask<L: Link, O: ExchangeObserver>(
    alloc: Global,
    part: Part,
    keys: &[Key],
    link: &mut L,
    mark: &[u8],
    requests: &[Request],
    lookeds: &mut Vec<Looked>,
    observer: &mut O,
) -> Result<(), NoMemory>
    requires fit { IsTrue (requests_fit requests.now) }
    requires asks { requests.now ≡ requests_of part mark.now keys.now lookeds.old.items }
    requires shaped { AreShaped keys.now lookeds.old.items }
    ensures { AsksOnce part (record { keys = keys.now; mark = mark.now; most = 1 })
        lookeds.old.items (L.seen link.old) result lookeds.new.items (L.seen link.new) }
{
    the_laws_below_hold(); // proof
    let heard = put(alloc, link, requests, observer)?;
    hear_each(alloc, part, mark, keys, &heard, lookeds)
}

/// The laws of the crates below hold.
fn the_laws_below_hold()
    ensures { LookLaws }
{
    the_laws_of_objects_hold(); // proof
    the_laws_of_servers_hold(); // proof
    the_laws_of_exchanges_hold(); // proof
}
