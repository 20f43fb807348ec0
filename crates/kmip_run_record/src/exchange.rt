//! One exchange of a run: what was asked, and what came of it.
ghost use Rattle.std.specs.Prelude.{◌≡◌, [], slice_get, unwrap_or};
ghost use Rattle.std.specs.Option.{option_copied};
ghost use Rattle.std.specs.List.{list_any};
ghost use Rattle.kmip_run_record.specs.Exchanges.{
  answer_to,
  has_stranger,
  is_about,
  is_refusal,
  is_to,
  outcome_about,
  refusals_in,
};

use crate::silence::Silence;
use kmip_batch_items::{Outcome, Reply};
use kmip_client::Part;
use kmip_plan::Key;
use kmip_ttlv::Bytes;

/// What was asked about keys of a plan in an exchange, and what came of it.
#[derive(Clone, Copy)]
pub struct Exchange<'e> {
    /// The keys of the plan.
    pub keys: &'e [Key],
    pub asked: &'e [Part],
    /// The replies that came; none if there is a silence.
    pub replies: &'e [Reply],
    /// Why there is no reply that can be read, if there is none.
    pub silence: Option<Silence>,
}

impl<'e> Exchange<'e> {
    /// The key that a question is about.
    pub fn key(&self, part: &Part) -> Option<&'e Key>
        // It is the key at the place that the question names.
        ensures { option_copied result ≡ slice_get self.now.keys.now part.now.key }
    {
        self.keys.get(part.key)
    }

    /// The answer to a question, if one came.
    pub fn answer(&self, part: &Part) -> Option<&'e Outcome>
        // It is what the first reply says whose id is the question's operation and the key's name.
        ensures { option_copied result
            ≡ answer_to self.now.keys.now self.now.replies.now part.now }
    {
        let key = self.key(part)?;
        outcome_about(self.replies, part, key)
    }

    /// Whether a reply came to what was not asked.
    pub fn has_stranger(&self) -> bool
        ensures { result
            ≡ has_stranger self.now.keys.now self.now.asked.now self.now.replies.now }
    {
        self.replies.iter().any(|reply| !self.is_asked(reply))
    }

    /// Whether a reply is to one of the questions.
    fn is_asked(&self, reply: &Reply) -> bool
        ensures { result ≡ list_any (is_to self.now.keys.now reply.now) self.now.asked.now }
    {
        self.asked.iter().any(|part| self.is_to(reply, part))
    }

    /// Whether a reply is to this question.
    fn is_to(&self, reply: &Reply, part: &Part) -> bool
        ensures { result ≡ is_to self.now.keys.now reply.now part.now }
    {
        match self.key(part) {
            Some(key) => is_about(reply, part, key),
            None => false,
        }
    }
}

/// What the first reply to this question about this key says, if there is one.
fn outcome_about<'e>(replies: &'e [Reply], part: &Part, key: &Key) -> Option<&'e Outcome>
    ensures { option_copied result ≡ outcome_about replies.now part.now key.now }
{
    let reply = replies.iter().find(|reply| is_about(reply, part, key))?;
    Some(&reply.outcome)
}

/// How many of some replies are refusals.
pub fn refusals_in(replies: &[Reply]) -> usize
    // Each reply counts that says that its operation failed.
    ensures { result ≡ refusals_in replies.now }
{
    let mut count = 0;
    for reply in replies {
        if is_refusal(&reply.outcome) {
            count += 1;
        }
    }
    count
}

/// Whether the operation was refused, or failed.
fn is_refusal(outcome: &Outcome) -> bool
    ensures { result ≡ is_refusal outcome.now }
{
    matches!(outcome, Outcome::Failed(_))
}

/// Whether the id of a reply names the operation of a question in its first byte, and then this key.
fn is_about(reply: &Reply, part: &Part, key: &Key) -> bool
    ensures { result ≡ is_about part.now key.now reply.now }
{
    match id_bytes(&reply.id) {
        [operation, name @ ..] => {
            u32::from(*operation) == part.operation && name == key.attrs.name.as_str().as_bytes()
        }
        [] => false,
    }
}

/// The bytes of an id; none if there is none.
fn id_bytes(id: &Option<Bytes>) -> &[u8]
    ensures { result.now ≡ unwrap_or id.now [] }
{
    match id {
        Some(id) => id.as_slice(),
        None => &[],
    }
}
