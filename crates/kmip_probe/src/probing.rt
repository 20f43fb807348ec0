//! The questions, one after the other over a link.
ghost use Rattle.std.specs.Prelude.{◌≡◌, ◌⊎◌, ◌≤◌, ◌<◌, ◌+◌, ◌++◌, [], ◌∷◌, ℕ, Some, None, List, length, map, flat_map, slice_get, IfOk, OnOk, IsTrue, option_map, option_to_list};
ghost use Rattle.std.specs.List.{All};
ghost use Rattle.kmip_protocol.specs.Calm.{Calmly};
ghost use Rattle.kmip_protocol.specs.Past.{Names};
ghost use Rattle.kmip_ttlv.specs.Spelling.{canon};
ghost use Rattle.kmip_batch_items.specs.RequestFits.{request_fits};
ghost use Rattle.kmip_messages.specs.Written.{requests_item};
ghost use Rattle.kmip_probe.specs.Answers.{answer_to, uids_told, IsLawful};
ghost use Rattle.kmip_probe.specs.Asking.{is_free_at, next_inquiry, part, uid_of, request_for, message_after};
ghost use Rattle.kmip_probe.specs.Inquiries.{is_prefix, most_messages, most_sends};
ghost use Rattle.kmip_probe.specs.Serving.{IsUnprobed, outcomes_of};
ghost use Rattle.kmip_probe.specs.TwoObjects.{AreServed};
ghost use Rattle.kmip_probe.specs.Putting.{AreAsked, AreSentOnce, AsksOn, SendsOnce};
ghost use Rattle.kmip_probe.specs.Private.{HasAsked, HasPut, HasReplied, HasSent, HasServedNext};

use crate::answer::{Answer, answer_to};
use crate::inquiry::{
    ACTIVATE_SECOND, CREATE_FIRST, CREATE_SECOND, Inquiry, LOOK_FIRST, LOOK_SECOND, MOST_MESSAGES,
    QUESTIONS, READ_ATTRIBUTES, ask_of, inquiry_at, most_sends, name_of,
};
use crate::which::Which;
use kmip_batch_items::{Ask, Request};
use kmip_messages::laws::the_laws_of_messages_hold;
use kmip_messages::write_request;
use kmip_objects::laws::the_laws_of_objects_hold;
use kmip_protocol::laws::the_laws_of_exchanges_hold;
use kmip_protocol::{ExchangeObserver, Link, LinkFault, NoReplyReason, answer_or_loss};
use kmip_ttlv::{Bytes, NoMemory, Text};
use std::alloc::Global;

/// Asks the questions of a probe over the link, one after the other, and returns what came of each. Where one
/// of the names is there already, or it could not be told, nothing more is asked, and nothing was made. A
/// question about an identifier that no answer told is passed over. A Locate is sent again while no reply
/// comes, up to three times in all. Nothing else is sent twice. The observer is told of each exchange as it is
/// made.
///
/// # Errors
/// Where there is no memory; what was made until then stays.
pub fn probe<L: Link, O: ExchangeObserver>(
    alloc: Global,
    prefix: &str,
    link: &mut L,
    observer: &mut O,
) -> Result<Vec<Answer>, NoMemory>
    // The prefix can begin names: it is the name of a key, of at most 62 characters.
    requires { IsTrue (is_prefix prefix.now) }
    // No question is left: none follows these answers.
    ensures whole { IfOk result (λ answers. next_inquiry answers.items ≡ None) }
    // Over a link that is honest for some names, at most 45 messages are sent, however it ends.
    ensures few { (names : Names) → (L.seen link.old).honest names
        → length (L.seen link.new).past.sent
        ≤ length (L.seen link.old).past.sent + MOST_MESSAGES }
    // Over a link that is honest for some names, which it is after it too, the stated questions are sent,
    // each as it is asked after the answers before it. A Locate is sent one to three times, and each other
    // question once. The answers are what was handed over at last for each.
    ensures asked { (names : Names) → (L.seen link.old).honest names
        → (L.seen link.new).honest names × IfOk result (λ answers.
        AreAsked prefix.now answers.items (L.seen link.old).past (L.seen link.new).past) }
    // Over a link that is calm for some names, nothing is sent twice.
    ensures once { (names : Names) → (L.seen link.old).calm names → IfOk result
        (λ answers. AreSentOnce prefix.now answers.items
        (L.seen link.old).past (L.seen link.new).past) }
    // Let the link be calm for some names. Let names and identifiers of the server's objects be distinct, the
    // two names of the probe be free, and there be room for two more objects. Then the answers are those of
    // the profile, question by question.
    ensures kept { (names : Names) → (L.seen link.old).calm names
        → IsUnprobed prefix.now (L.seen link.old).past
        → IfOk result (λ answers. (first second : List ℕ)
        × (answers.items ≡ map Answer.Told (outcomes_of prefix.now first second))) }
{
    let mut answers = Vec::new(alloc);
    ask_on(alloc, prefix, link, QUESTIONS, observer, &mut answers)?;
    Ok(answers)
}

/// Asks on after the answers that have come, one question after the other over the link, until there are
/// `most`, and appends what came of each. Where one of the names is there already, or it could not be told,
/// nothing more is asked. A question about an identifier that no answer told is passed over. A Locate is sent
/// again as `probe` sends it. The observer is told of each exchange as it is made.
///
/// # Errors
/// Where there is no memory; what came until then is appended, and what was made stays.
pub fn ask_on<L: Link, O: ExchangeObserver>(
    alloc: Global,
    prefix: &str,
    link: &mut L,
    most: usize,
    observer: &mut O,
    answers: &mut Vec<Answer>,
) -> Result<(), NoMemory>
    // The prefix can begin names: it is the name of a key, of at most 62 characters.
    requires prefix { IsTrue (is_prefix prefix.now) }
    // The identifiers that the answers tell are in their range.
    requires lawful { All IsLawful answers.old.items }
    // No more answers have come than are wanted.
    requires fewer { length answers.old.items ≤ most }
    // No more are wanted than a probe has questions.
    requires most { most ≤ QUESTIONS }
    // The identifiers that the answers tell are in their range, those that came among them.
    ensures lawful { All IsLawful answers.new.items }
    // The answers that had come stay, and more may follow them.
    ensures onward { (more : List Answer) × (answers.new.items ≡ answers.old.items ++ more) }
    // Unless memory ran out, there are as many answers as are wanted, or no question is left.
    ensures whole { OnOk result ((next_inquiry answers.new.items ≡ None)
        ⊎ (length answers.new.items ≡ most)) }
    // There are at most as many answers as are wanted.
    ensures most { length answers.new.items ≤ most }
    // Over a link that is honest for some names, at most three messages are sent for each Locate whose
    // answer was still wanted, and one for each other question, however it ends.
    ensures few { (names : Names) → (L.seen link.old).honest names
        → length (L.seen link.new).past.sent + most_messages (length answers.old.items)
        ≤ length (L.seen link.old).past.sent + most_messages most }
    // Over such a link, unless memory ran out, the same holds of the answers that came.
    ensures each { (names : Names) → (L.seen link.old).honest names → OnOk result
        (length (L.seen link.new).past.sent + most_messages (length answers.old.items)
        ≤ length (L.seen link.old).past.sent + most_messages (length answers.new.items)) }
    // Over such a link, which it is after it too, and unless memory ran out: where the answers before had
    // come of the first questions, those after it have come of these and of the next ones.
    ensures asked { (names : Names) → (L.seen link.old).honest names
        → (L.seen link.new).honest names
        × OnOk result (AsksOn prefix.now answers.old.items answers.new.items
        (L.seen link.old).past (L.seen link.new).past) }
    // Over a link that is calm for some names, which it is after it too, unless memory ran out, nothing is
    // sent twice.
    ensures once { (names : Names) → (L.seen link.old).calm names → (L.seen link.new).calm names
        × OnOk result (SendsOnce prefix.now answers.old.items answers.new.items
        (L.seen link.old).past (L.seen link.new).past) }
    // Over a link that is calm for some names, unless memory ran out: where the answers before were those of
    // the profile, all answers after it are. The link is then calm for these names still.
    ensures served { (names : Names) → (L.seen link.old).calm names
        → AreServed prefix.now answers.old.items (L.seen link.old).past → OnOk result
        ((L.seen link.new).calm names × AreServed prefix.now answers.new.items
        (L.seen link.new).past) }
{
    the_laws_of_objects_hold(); // proof
    for _ in answers.len()..most {
        let Some(inquiry) = next_inquiry(answers.as_slice()) else {
            return Ok(());
        };
        let answer = put(alloc, prefix, link, inquiry, observer, answers.as_slice())?;
        answers.push(answer)?;
    }
    Ok(())
}

/// The question that follows these answers, where one does.
fn next_inquiry(answers: &[Answer]) -> Option<Inquiry>
    ensures { result ≡ next_inquiry answers.now }
{
    if !is_free_at(answers, LOOK_FIRST) || !is_free_at(answers, LOOK_SECOND) {
        return None;
    }
    inquiry_at(answers.len())
}

/// Whether the answer at a place leaves a name free: it is a Locate that has found nothing, or there is none
/// yet.
pub fn is_free_at(answers: &[Answer], place: usize) -> bool
    ensures { result ≡ is_free_at answers.now place }
{
    match answers.get(place) {
        Some(answer) => answer.is_free(),
        None => true,
    }
}

/// The answers of the questions from one number on and before another.
pub(crate) fn part(answers: &[Answer], from: usize, to: usize) -> &[Answer]
    requires { from ≤ to }
    ensures { result.now ≡ part from to answers.now }
{
    let end = to.min(answers.len());
    &answers[from.min(end)..end]
}

/// The identifier that answers give a name.
pub(crate) fn uid_of(which: Which, answers: &[Answer]) -> Option<&Text>
    ensures { option_map (λ uid. uid.now) result ≡ uid_of which answers.now }
{
    match which {
        Which::First => first_uid(part(answers, CREATE_FIRST, READ_ATTRIBUTES)),
        Which::Second => first_uid(part(answers, CREATE_SECOND, ACTIVATE_SECOND)),
    }
}

/// The first identifier that is told.
fn first_uid(answers: &[Answer]) -> Option<&Text>
    ensures { option_map (λ uid. uid.now) result ≡ slice_get (flat_map uids_told answers.now) 0 }
{
    for answer in answers {
        if let Some(uid) = answer.uids().first() {
            return Some(uid);
        }
    }
    None
}

/// Puts a question over the link, where it can be asked, and reads what comes back.
///
/// # Errors
/// Where there is no memory.
fn put<L: Link, O: ExchangeObserver>(
    alloc: Global,
    prefix: &str,
    link: &mut L,
    inquiry: Inquiry,
    observer: &mut O,
    answers: &[Answer],
) -> Result<Answer, NoMemory>
    requires few { length answers.now < QUESTIONS }
    requires prefix { IsTrue (is_prefix prefix.now) }
    requires lawful { All IsLawful answers.now }
    requires next { next_inquiry answers.now ≡ Some inquiry }
    ensures lawful { IfOk result IsLawful }
    ensures asked { (names : Names) → (L.seen link.old).honest names
        → (L.seen link.new).honest names
        × IfOk result (λ answer. HasAsked prefix.now answers.now answer (L.seen link.old).past
        (L.seen link.new).past) }
    ensures few { (names : Names) → (L.seen link.old).honest names
        → length (L.seen link.new).past.sent
        ≤ length (L.seen link.old).past.sent + most_sends inquiry.1 }
    ensures once { (names : Names) → (L.seen link.old).calm names → IfOk result
        (λ answer. (L.seen link.new).past.sent
        ≡ (L.seen link.old).past.sent ++ option_to_list (message_after prefix.now answers.now)) }
    ensures served { (names : Names) → (L.seen link.old).calm names → (L.seen link.new).calm names
        × IfOk result (λ answer. HasServedNext prefix.now answers.now answer (L.seen link.old).past
        (L.seen link.new).past) }
{
    let Some(request) = request_for(alloc, prefix, inquiry, answers)? else {
        return Ok(Answer::Nothing);
    };
    let most = most_sends(inquiry.1);
    ask(
        alloc,
        prefix,
        link,
        answers.len() as u8,
        most,
        &request,
        observer,
    )
}

/// Sends a request in a message of its own, up to `most` times, and returns what the reply says of the
/// question of its number.
///
/// # Errors
/// Where there is no memory.
fn ask<L: Link, O: ExchangeObserver>(
    alloc: Global,
    prefix: &str,
    link: &mut L,
    number: u8,
    most: usize,
    request: &Request,
    observer: &mut O,
) -> Result<Answer, NoMemory>
    requires fits { IsTrue (request_fits request.now) }
    requires some { 0 < most }
    ensures lawful { IfOk result IsLawful }
    ensures asked { (names : Names) → (L.seen link.old).honest names
        → (L.seen link.new).honest names
        × IfOk result (λ answer. HasSent most (canon (requests_item (request.now ∷ [])))
        (answer_to number prefix.now) answer (L.seen link.old).past (L.seen link.new).past) }
    ensures few { (names : Names) → (L.seen link.old).honest names
        → length (L.seen link.new).past.sent ≤ length (L.seen link.old).past.sent + most }
    ensures served { (names : Names) → (L.seen link.old).calm names → (L.seen link.new).calm names
        × IfOk result (λ answer. HasReplied request.now number prefix.now answer
        (L.seen link.old).past (L.seen link.new).past) }
{
    the_laws_of_messages_hold(); // proof
    let bytes = write_request(alloc, std::slice::from_ref(request))?;
    let handed = send_up_to(alloc, link, request, bytes.as_slice(), most, observer)?;
    answer_to(alloc, number, prefix, handed, observer)
}

/// Sends the message of a request, and again while no reply comes, up to `most` times in all. Returns the reply,
/// or none if none came.
///
/// # Errors
/// If memory runs out.
fn send_up_to<L: Link, O: ExchangeObserver>(
    alloc: Global,
    link: &mut L,
    request: &Request,
    message: &[u8],
    most: usize,
    observer: &mut O,
) -> Result<Option<Vec<u8>>, NoMemory>
    requires { 0 < most }
    ensures put { (names : Names) → (L.seen link.old).honest names → (L.seen link.new).honest names
        × IfOk result (λ reply. HasPut most message.now (option_map (λ v. v.items) reply)
        (L.seen link.old).past (L.seen link.new).past) }
    ensures few { (names : Names) → (L.seen link.old).honest names
        → length (L.seen link.new).past.sent ≤ length (L.seen link.old).past.sent + most }
    ensures calmly { (names : Names) → (L.seen link.old).calm names → (L.seen link.new).calm names
        × IfOk result (λ reply. Calmly (L.seen link.old).past message.now
        (option_map (λ v. v.items) reply) (L.seen link.new).past) }
{
    the_laws_of_exchanges_hold(); // proof
    for _turn in 0..most {
        observer.asking(std::slice::from_ref(request));
        let answered = link.exchange(alloc, message);
        tell_nothing_came(&answered, observer);
        match answer_or_loss(answered) {
            Ok(None) => {}
            Ok(Some(reply)) => return Ok(Some(reply)),
            Err(NoMemory) => return Err(NoMemory),
        }
    }
    Ok(None)
}

/// Tells the observer why nothing came; nothing is told if something did.
fn tell_nothing_came<O: ExchangeObserver>(
    answered: &Result<Option<Vec<u8>>, LinkFault>,
    observer: &mut O,
) {
    match answered {
        Ok(Some(_)) => {}
        Ok(None) => observer.missed(&NoReplyReason::Lost),
        Err(fault) => observer.missed(&NoReplyReason::Failed(*fault)),
    }
}

/// The question as it is asked after these answers; none where it needs an identifier and none is
/// known.
///
/// # Errors
/// Where there is no memory.
fn request_for(
    alloc: Global,
    prefix: &str,
    inquiry: Inquiry,
    answers: &[Answer],
) -> Result<Option<Request>, NoMemory>
    requires few { length answers.now < QUESTIONS }
    ensures { IfOk result (λ request. request ≡ request_for prefix.now answers.now inquiry) }
{
    let Inquiry(which, kind, ..) = inquiry;
    let name = name_of(alloc, which, prefix)?;
    let Some(ask) = ask_of(alloc, kind, name, uid_of(which, answers))? else {
        return Ok(None);
    };
    let mut id = vec![in alloc; answers.len() as u8]?;
    id.extend_from_slice(prefix.as_bytes())?;
    Ok(Some(Request {
        id: Some(Bytes::from_vec(id)),
        ask,
    }))
}
