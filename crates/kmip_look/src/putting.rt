//! A message that is put over a link, and what comes of it.
ghost use Rattle.std.specs.Prelude.{◌≡◌, [], IfOk, IsTrue, List, option_map, false};
ghost use Rattle.std.specs.List.{All};
ghost use Rattle.kmip_batch_items.specs.BatchItems.{answer_fits};
ghost use Rattle.kmip_batch_items.specs.Faults.{is_no_memory};
ghost use Rattle.kmip_messages.specs.Written.{requests_fit};
ghost use Rattle.kmip_plan.specs.declared.key.Key.{Key};
ghost use Rattle.kmip_protocol.specs.Past.{Names};
ghost use Rattle.kmip_protocol.specs.Sound.{IsOutside, Sound};
ghost use Rattle.kmip_look.specs.Looks.{StaysSound};
ghost use Rattle.kmip_look.specs.PrivateAsking.{is_refused};
ghost use Rattle.kmip_look.specs.PrivatePutting.{HasPut, HasServed, Puts, said};

use crate::heard::Heard;
use crate::why::Why;
use kmip_batch_items::{MessageFault, Request};
use kmip_messages::{read_reply, write_request};
use kmip_protocol::amid_laws::the_laws_amid_others_hold;
use kmip_protocol::laws::the_laws_of_exchanges_hold;
use kmip_protocol::{ExchangeObserver, Link, LinkFault, NoReplyReason, answer_or_loss};
use kmip_ttlv::NoMemory;
use std::alloc::Global;

/// Sends the requests in one message over the link, and returns what comes of it. The observer is told of the
/// exchange as it is made.
///
/// # Errors
/// If memory runs out.
pub(crate) fn put<L: Link, O: ExchangeObserver>(
    alloc: Global,
    link: &mut L,
    requests: &[Request],
    observer: &mut O,
) -> Result<Heard, NoMemory>
    requires { IsTrue (requests_fit requests.now) }
    ensures fits { IfOk result (λ heard. All (λ r. IsTrue (answer_fits r)) heard.replies.items) }
    ensures why { IfOk result (λ heard. is_refused heard.why ≡ false) }
    ensures honestly { (names : Names) → (L.seen link.old).honest names
        → (L.seen link.new).honest names
        × Puts requests.now (L.seen link.old).past (L.seen link.new).past
        × IfOk result (λ heard. HasPut names requests.now heard.replies.items
        (L.seen link.old).past (L.seen link.new).past) }
    ensures calmly { (names : Names) → (L.seen link.old).calm names → (L.seen link.new).calm names
        × IfOk result (λ heard. HasServed requests.now heard.replies.items
        (L.seen link.old).past (L.seen link.new).past) }
    ensures sound { (plan : List Key) → All (IsOutside plan) requests.now
        → (L.seen link.old).amid plan → Sound plan (L.seen link.old).past
        → StaysSound plan (L.seen link.old) (L.seen link.new) }
{
    the_laws_of_exchanges_hold(); // proof
    the_laws_amid_others_hold(); // proof
    let bytes = write_request(alloc, requests)?;
    observer.asking(requests);
    let answered = link.exchange(alloc, bytes.as_slice());
    tell_nothing_came(&answered, observer);
    let Ok(handed) = answer_or_loss(answered) else {
        return Err(NoMemory);
    };
    heard_in(alloc, handed, observer)
}

/// Tells the observer why nothing came; nothing is told if something did.
fn tell_nothing_came<O: ExchangeObserver>(
    answered: &Result<Option<Vec<u8>>, LinkFault>,
    observer: &mut O,
) {
    match answered {
        Ok(Some(_)) => {}
        Ok(None) => observer.missed(&NoReplyReason::Lost),
        Err(fault) => observer.missed(&NoReplyReason::Failed(*fault)),
    }
}

/// What comes with the answer to a message. The observer is told of its replies, or why it has none.
///
/// # Errors
/// If memory runs out.
fn heard_in<O: ExchangeObserver>(
    alloc: Global,
    handed: Option<Vec<u8>>,
    observer: &mut O,
) -> Result<Heard, NoMemory>
    ensures fits { IfOk result (λ heard. All (λ r. IsTrue (answer_fits r)) heard.replies.items) }
    ensures why { IfOk result (λ heard. is_refused heard.why ≡ false) }
    ensures said { IfOk result (λ heard. heard.replies.items
        ≡ said (option_map (λ v. v.items) handed)) }
{
    let Some(given) = handed else {
        return Ok(nothing(alloc, Why::NoReply));
    };
    match read_reply(alloc, given.as_slice()) {
        Ok(replies) => {
            observer.replied(replies.as_slice());
            Ok(Heard {
                replies,
                why: Why::NoReply,
            })
        }
        Err(fault) => unreadable(alloc, &fault, given.as_slice(), observer),
    }
}

/// These bytes came, which can't be read as replies, for this fault. The observer is told why.
///
/// # Errors
/// If the fault is that memory ran out.
fn unreadable<O: ExchangeObserver>(
    alloc: Global,
    fault: &MessageFault,
    bytes: &[u8],
    observer: &mut O,
) -> Result<Heard, NoMemory>
    ensures none { IfOk result (λ heard. heard.replies.items ≡ []) }
    ensures why { IfOk result (λ heard. is_refused heard.why ≡ false) }
    ensures told { IfOk result (λ heard. is_no_memory fault.now ≡ false) }
{
    if fault.is_no_memory() {
        observer.missed(&NoReplyReason::NoMemory);
        return Err(NoMemory);
    }
    observer.missed(&NoReplyReason::Unreadable(*fault, bytes));
    Ok(nothing(alloc, Why::Unreadable))
}

/// No reply came.
fn nothing(alloc: Global, why: Why) -> Heard
    ensures none { result.replies.items ≡ [] }
    ensures why { result.why ≡ why }
{
    Heard {
        replies: Vec::new(alloc),
        why,
    }
}
