//! How long a run goes on that gets nowhere.
ghost use Rattle.std.specs.Prelude.{◌≡◌, ℕ, Bool, not, IsTrue};
ghost use Rattle.kmip_disk.specs.Calls.{HasRisenBy};

use crate::exchange_news::ExchangeNews;
use kmip_client::Client;

/// Is told of each exchange of a run, waits before the next one, and says whether it is made.
pub trait Patience {
    /// Whether it has given up.
    ghost has_given_up: { Self → Bool };

    /// How often it was asked whether to go on, up to 2^64 - 1.
    ghost asked: { Self → ℕ };

    /// An exchange was made, and its text was given to the keeper, unless memory ran out. It is told
    /// what the client knows now, and what that exchange brought.
    fn exchanged(&mut self, client: &Client<'_>, news: ExchangeNews)
        // Nobody gives up by being told.
        ensures stays { has_given_up self.new ≡ has_given_up self.old }
        // To be told is not to be asked.
        ensures unasked { asked self.new ≡ asked self.old };

    /// Another exchange could be made: waits for it as long as it is to, and says whether it is made.
    /// False is to give up.
    fn go_on(&mut self) -> bool
        // True exactly where it has not given up.
        ensures says { result ≡ not (has_given_up self.new) }
        // Who has given up never goes on.
        ensures for_good { IsTrue (has_given_up self.old) → IsTrue (has_given_up self.new) }
        // It was asked once more.
        ensures asked { HasRisenBy 1 (asked self.old) (asked self.new) };
}
