//! Whether a server replies.

use crate::spell::Spell;
use std::time::Instant;

/// Whether a server replies, and if not, since when and why.
#[derive(Drop)]
pub(crate) struct Reach {
    /// None if the last exchange brought a reply.
    spell: Option<Spell>,
    /// When it was last reported that no reply comes; none if the last exchange brought one.
    reported: Option<Instant>,
}

impl Reach {
    /// Of a server to which nothing was sent yet.
    pub(crate) fn new() -> Self {
        Reach {
            spell: None,
            reported: None,
        }
    }

    /// An exchange brought no reply: it is the first of this spell, or one more of the spell that goes on.
    /// Whether the reason is new, so that it is reported.
    pub(crate) fn lose(&mut self, next: Spell) -> bool {
        match self.spell.take() {
            Some(before) if before.reason.as_str() == next.reason.as_str() => {
                self.spell = Some(before.with_one_more());
                false
            }
            Some(before) => {
                self.reported = next.ended;
                self.spell = Some(Spell {
                    ended: before.ended,
                    ..next
                });
                true
            }
            None => {
                self.reported = next.ended;
                self.spell = Some(next);
                true
            }
        }
    }

    /// An exchange brought a reply. The spell without one that ended so, if there was one.
    pub(crate) fn answer(&mut self) -> Option<Spell> {
        self.reported = None;
        self.spell.take()
    }

    /// The spell without a reply that goes on.
    pub(crate) fn spell(&self) -> Option<&Spell> {
        self.spell.as_ref()
    }

    /// When it was last reported that no reply comes.
    pub(crate) fn last_report(&self) -> Option<Instant> {
        self.reported
    }

    /// It was reported now.
    pub(crate) fn note_report(&mut self, now: Option<Instant>) {
        self.reported = now;
    }
}
