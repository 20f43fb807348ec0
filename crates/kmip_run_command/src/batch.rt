//! How many keys a message asks about.
ghost use Rattle.std.specs.Prelude.{◌≡◌, ◌≤◌, IsTrue};
ghost use Rattle.kmip_messages.specs.Members.{may_have};

use kmip_batch_items::standard::MOST_QUESTIONS;

/// How many keys a message asks about at most, where `asked` were asked for: the nearest of 1 to 8.
pub fn batch_of(asked: u64) -> usize
    // The result is a number from 1 to 8.
    ensures may { IsTrue (may_have result) }
    // A number from 1 to 8 is taken as it is.
    ensures asked { IsTrue (may_have asked) → result ≡ asked }
    // In place of 0 it is 1.
    ensures none { asked ≡ 0 → result ≡ 1 }
    // In place of a greater number than 8 it is 8.
    ensures many { MOST_QUESTIONS ≤ asked → result ≡ MOST_QUESTIONS }
{
    asked.clamp(1, MOST_QUESTIONS as u64) as usize
}
