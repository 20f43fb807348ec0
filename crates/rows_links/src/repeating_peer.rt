//! A peer that answers each question by a Locate's reply, whatever was asked.

use kmip_batch_items::standard::OPERATION_LOCATE;
use kmip_batch_items::{Outcome, Reply, Texts};
use kmip_ttlv::{Bytes, NoMemory, Text};
use std::alloc::Global;
use std::test::Fail;

/// The id of a reply.
#[derive(Clone, Copy)]
enum Mark {
    /// That of the question.
    Echoed,
    Missing,
    /// One of no question.
    Foreign,
}

/// What a peer refuses.
#[derive(Clone, Copy)]
struct Refusal {
    reason: Option<u32>,
    /// How many questions are answered before.
    after: usize,
}

/// A peer that tells no object until two questions were asked, and then one and the same, but for what
/// it refuses.
#[derive(Drop)]
pub(crate) struct Repeating {
    mark: Mark,
    refusal: Option<Refusal>,
    asked: usize,
}

impl Repeating {
    /// The peer of these words, which was asked nothing.
    pub(crate) fn of(words: &str) -> Result<Repeating, Fail> {
        let (mark, refusal) = match words.split_once(" refusing ") {
            Some((mark, words)) => (mark, Some(refusal_of(words)?)),
            None => (words, None),
        };
        Ok(Repeating {
            mark: mark_of(mark)?,
            refusal,
            asked: 0,
        })
    }

    /// Its reply to a question with this id.
    pub(crate) fn answer(&mut self, alloc: Global, id: Option<Bytes>) -> Result<Reply, NoMemory> {
        let outcome = self.outcome(alloc)?;
        self.asked = self.asked.saturating_add(1);
        let id = match self.mark {
            Mark::Echoed => id,
            Mark::Missing => None,
            Mark::Foreign => Some(Bytes::copied(alloc, b"another")?),
        };
        Ok(Reply {
            operation: Some(OPERATION_LOCATE),
            id,
            outcome,
        })
    }

    /// What it tells now.
    fn outcome(&self, alloc: Global) -> Result<Outcome, NoMemory> {
        if let Some(refusal) = self.refusal {
            if self.asked >= refusal.after {
                return Ok(Outcome::Failed(refusal.reason));
            }
        }
        let mut uids = Texts::new(alloc);
        if self.asked >= 2 {
            uids.push(Text::copied(alloc, "1")?)?;
        }
        Ok(Outcome::Located(uids))
    }
}

/// The id of this word.
fn mark_of(word: &str) -> Result<Mark, Fail> {
    match word {
        "echoed" => Ok(Mark::Echoed),
        "missing" => Ok(Mark::Missing),
        "foreign" => Ok(Mark::Foreign),
        _ => Err(Fail::new("no mark")),
    }
}

/// The refusal of a reason, or `none`, and a number of questions.
fn refusal_of(words: &str) -> Result<Refusal, Fail> {
    let (reason, after) = words.split_once(" after ").ok_or("a number of questions")?;
    let reason = match reason {
        "none" => None,
        number => Some(number.parse()?),
    };
    Ok(Refusal {
        reason,
        after: after.parse()?,
    })
}
