//! The questions of a request, from bytes.
ghost use Rattle.std.specs.Prelude.{◌≡◌, true, false, List, [], ◌∷◌, Ok, Err, IsTrue, IfOk, IfErr};
ghost use Rattle.std.specs.List.{All};
ghost use Rattle.std.specs.Option.{option_map_or};
ghost use Rattle.kmip_ttlv.specs.Fitting.{IsInRange};
ghost use Rattle.kmip_ttlv.specs.Node.{Node, content_of};
ghost use Rattle.kmip_ttlv.specs.Spelling.{canon, Spells};
ghost use Rattle.kmip_ttlv.specs.View.{view, views};
ghost use Rattle.kmip_batch_items.specs.Faults.{is_no_memory};
ghost use Rattle.kmip_batch_items.specs.Reading.{Gives};
ghost use Rattle.kmip_batch_items.specs.Siblings.{contents};
ghost use Rattle.kmip_batch_items.specs.declared.request.Request.{Request};
ghost use Rattle.kmip_batch_items.specs.BatchItems.{question_at};
ghost use Rattle.kmip_messages.specs.declared.batch.Batch.{Batch};
ghost use Rattle.kmip_messages.specs.Batches.{is_undo, IsBatch, batch_at, batch_read};
ghost use Rattle.kmip_messages.specs.Headers.{is_option, header_format};
ghost use Rattle.kmip_messages.specs.Items.{refusal_of, parts_in, stops_with, stops_in};
ghost use Rattle.kmip_messages.specs.Members.{member_in, members_in};
ghost use Rattle.kmip_messages.specs.Ranges.{QuestionFits};
ghost use Rattle.kmip_messages.specs.Written.{requests_item, batch_of, requests_fit};

use crate::batch::Batch;
use crate::members::{all_structures, count_of, is_count};
use crate::questions::Questions;
use kmip_batch_items::standard::{
    CONTINUE, STOP, TAG_BATCH_COUNT, TAG_BATCH_ERROR_CONTINUATION_OPTION, TAG_BATCH_ITEM,
    TAG_PROTOCOL_VERSION, TAG_PROTOCOL_VERSION_MAJOR, TAG_PROTOCOL_VERSION_MINOR,
    TAG_REQUEST_HEADER, TAG_REQUEST_MESSAGE, UNDO,
};
use kmip_batch_items::{
    MessageFault, Refusal, Request, check, enumeration_if_any, is_version, message_of,
    read_question, the_integer, the_structure, whole_item, within,
};
use kmip_ttlv::{Item, Tag};
use std::alloc::Global;

/// The questions of the request that all the bytes are.
///
/// # Errors
/// The first fault of the message, which refuses it whole, and `NoMemory` at want of memory.
pub fn read_request(alloc: Global, bytes: &[u8]) -> Result<Batch, MessageFault>
    // What is read are the questions of a Request Message that all the bytes spell, one to eight, with the
    // header's option. Each is a request, or the first fault after its Operation and Unique Batch Item ID.
    ensures found { IfOk result (λ b. (n : Node) × Spells n bytes.now × IsBatch b n) }
    // Such questions are read, and no others, unless memory runs out.
    ensures only { (b : Batch) (n : Node) → Spells n bytes.now → IsBatch b n
        → Gives (λ x. x) result (Ok b) }
    // What was written is read back, unless memory runs out.
    ensures back { (rs : List Request) → IsTrue (requests_fit rs)
        → IsInRange (requests_item rs) → bytes.now ≡ canon (requests_item rs)
        → Gives (λ x. x) result (Ok (batch_of rs)) }
    // It returns what `batch_read` gives, the questions or the first check that fails, unless memory ran out.
    ensures exact { Gives (λ b. b) result (batch_read bytes.now) }
    // Each request is in its ranges, and so is a Unique Batch Item ID that a refusal carries.
    ensures fits { IfOk result (λ b. All QuestionFits b.items) }
    // The bytes ask these questions, and the option says whether those after a failure are left.
    ensures asks { IfOk result (λ b. (parts_in bytes.now ≡ b.items)
        × (stops_in bytes.now ≡ stops_with b.option)) }
    // Bytes that are refused, but for want of memory, count as one question that is refused and carries
    // nothing. What would come after a failure counts as left.
    ensures refused { IfErr result (λ e. is_no_memory e ≡ false
        → (parts_in bytes.now ≡ Err (refusal_of e) ∷ []) × (stops_in bytes.now ≡ true)) }
{
    whole_batch(alloc, bytes)
}

/// The same, by the order of the checks.
#[tactic(auto, unfolding(crate::specs::Batches::batch_read))]
fn whole_batch(alloc: Global, bytes: &[u8]) -> Result<Batch, MessageFault>
    ensures { Gives (λ b. b) result (batch_read bytes.now) }
{
    let item = whole_item(alloc, bytes)?;
    let batch = batch_of(alloc, &item)?;
    Ok(batch)
}

/// The questions of the request that an item is.
#[tactic(auto, unfolding(crate::specs::Batches::batch_at, crate::specs::Members::members_at))]
fn batch_of(alloc: Global, item: &Item) -> Result<Batch, MessageFault>
    ensures { Gives (λ b. b) result (batch_at (view item.now)) }
{
    let message = message_of(item, TAG_REQUEST_MESSAGE)?;
    let (option, count) = header_of(message)?;
    check(is_count(count, count_of(message)), MessageFault::BatchCount)?;
    check(!is_undo(option), MessageFault::Undo)?;
    all_structures(message)?;
    let items = questions_of(alloc, message)?;
    Ok(Batch { option, items })
}

/// The option and the count of a request's header, whose version is 2.1.
#[tactic(auto, unfolding(crate::specs::Headers::header_format, crate::specs::Headers::header_parts_format, crate::specs::Headers::option_format, kmip_batch_items::specs::RequestFormats::version_parts_format))]
fn header_of(message: &[Item]) -> Result<(Option<u32>, i32), MessageFault>
    ensures { Gives (λ p. p) result (header_format.read (views message.now)) }
{
    let header = the_structure(message, TAG_REQUEST_HEADER)?;
    let version = the_structure(header, TAG_PROTOCOL_VERSION)?;
    let major = the_integer(version, TAG_PROTOCOL_VERSION_MAJOR)?;
    let minor = the_integer(version, TAG_PROTOCOL_VERSION_MINOR)?;
    check(is_version(major, minor), MessageFault::Version)?;
    let option = enumeration_if_any(header, TAG_BATCH_ERROR_CONTINUATION_OPTION)?;
    within(
        TAG_BATCH_ERROR_CONTINUATION_OPTION,
        is_option_if_any(option),
    )?;
    let count = the_integer(header, TAG_BATCH_COUNT)?;
    Ok((option, count))
}

/// Whether there is no option, or one of the standard's three.
fn is_option_if_any(option: Option<u32>) -> bool
    ensures { result ≡ option_map_or is_option option true }
{
    match option {
        Some(option) => option == CONTINUE || option == STOP || option == UNDO,
        None => true,
    }
}

/// Whether what was done before a failure is to be undone.
fn is_undo(option: Option<u32>) -> bool
    ensures { result ≡ is_undo option }
{
    match option {
        Some(option) => option == UNDO,
        None => false,
    }
}

/// The questions of the Batch Items of a message, in their order.
fn questions_of(alloc: Global, message: &[Item]) -> Result<Questions, MessageFault>
    ensures { Gives (λ q. q) result
        (members_in question_at (contents TAG_BATCH_ITEM (views message.now))) }
{
    let mut questions = Vec::with_capacity(alloc, count_of(message))?;
    for item in message {
        if item.tag().number() == TAG_BATCH_ITEM {
            let question = question_in(alloc, item)?;
            questions.push(question)?;
        }
    }
    Ok(Questions::from_vec(questions))
}

/// The question that a Batch Item is.
#[tactic(auto, unfolding(crate::specs::Members::member_in))]
fn question_in(alloc: Global, item: &Item) -> Result<Result<Request, Refusal>, MessageFault>
    ensures { Gives (λ q. q) result (member_in question_at (content_of (view item.now))) }
{
    let Some(parts) = item.as_structure() else {
        return Err(MessageFault::WrongType(Tag::new(TAG_BATCH_ITEM)));
    };
    let question = read_question(alloc, parts)?;
    Ok(question)
}
