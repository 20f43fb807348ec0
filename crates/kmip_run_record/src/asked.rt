//! What the message under way asks.
ghost use Rattle.std.specs.Prelude.{◌≡◌, [], take};
ghost use Rattle.kmip_run_record.specs.Exchanges.{parts_of};

use kmip_batch_items::standard::MOST_QUESTIONS;
use kmip_client::Part;

/// The questions of one message.
#[derive(Clone, Copy)]
pub struct Asked {
    parts: [Part; MOST_QUESTIONS],
    count: usize,
}

impl Asked {
    /// No question.
    pub fn none() -> Self
        ensures { parts_of result ≡ [] }
    {
        let part = Part {
            key: 0,
            operation: 0,
        };
        Asked {
            parts: [part; MOST_QUESTIONS],
            count: 0,
        }
    }

    /// These questions: a message has at most as many as are kept.
    pub fn of(parts: &[Part]) -> Self
        // The first eight are kept.
        ensures { parts_of result ≡ take 8 parts.now }
    {
        let mut asked = Asked::none();
        let count = parts.len().min(MOST_QUESTIONS);
        for place in 0..count {
            asked.parts[place] = parts[place];
        }
        asked.count = count;
        asked
    }

    /// The questions, in their order.
    pub fn parts(&self) -> &[Part]
        ensures { result.now ≡ parts_of self.now }
    {
        &self.parts[..self.count.min(MOST_QUESTIONS)]
    }
}
