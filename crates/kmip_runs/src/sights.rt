//! What is seen of each key of a plan, in its order.
ghost use Rattle.std.specs.Prelude.{◌≡◌, ◌≢◌, ◌<◌, ◌↔◌, length, false, IfOk, IsTrue};
ghost use Rattle.kmip_runs.specs.PrivateSights.{GetsNowhere, GetsOn, IsEachAnswered, told_count};

use crate::exchange_news::ExchangeNews;
use crate::sight::Sight;
use kmip_client::Client;
use kmip_ttlv::NoMemory;
use std::alloc::Global;

/// What is seen of each key of a plan, in its order.
#[derive(Drop)]
pub(crate) struct Sights {
    items: Vec<Sight>,
    /// The number of keys whose status the last answer reported.
    told: usize,
}

impl Sights {
    /// What is seen of each key now.
    ///
    /// # Errors
    /// If memory runs out.
    pub fn of(alloc: Global, client: &Client<'_>) -> Result<Sights, NoMemory>
        ensures as_many { IfOk result (λ sights.
            length sights.items.items ≡ length client.now.keys) }
        ensures told { IfOk result (λ sights.
            sights.told ≡ told_count client.now.keys client.now.knowns) }
    {
        let count = client.plan().count();
        let mut items = Vec::with_capacity(alloc, count)?;
        let mut told = 0;
        for place in 0..count {
            let now = Sight::at(client, place);
            told += usize::from(now.is_told);
            items.push(now)?;
        }
        Ok(Sights { items, told })
    }

    /// Takes what is seen of each key now for what was seen before. Returns what the exchange between
    /// them brought, which asked about this number of keys.
    pub fn take(&mut self, client: &Client<'_>, asked: usize) -> ExchangeNews
        requires { length self.old.items.items ≡ length client.now.keys }
        ensures grew { result ≡ ExchangeNews.Grew
            → GetsOn client.now.keys client.now.knowns self.old.items.items }
        ensures nowhere { result ≢ ExchangeNews.Grew
            → GetsNowhere client.now.keys client.now.knowns self.old.items.items }
        ensures answered { result ≡ ExchangeNews.Answered
            → IsEachAnswered asked self.old.told (told_count client.now.keys client.now.knowns) }
        ensures nothing { result ≡ ExchangeNews.Nothing
            → IsEachAnswered asked self.old.told (told_count client.now.keys client.now.knowns)
            → ⊥ }
        ensures told { self.new.told ≡ told_count client.now.keys client.now.knowns }
        ensures stays { length self.new.items.items ≡ length self.old.items.items }
    {
        let before = self.told;
        let has_grown = self.see(client);
        news_of(has_grown, is_each_answered(asked, before, self.told))
    }

    /// Takes what is seen of each key now for what was seen before, and says whether something has
    /// grown.
    fn see(&mut self, client: &Client<'_>) -> bool
        requires { length self.old.items.items ≡ length client.now.keys }
        ensures on { IsTrue result
            → GetsOn client.now.keys client.now.knowns self.old.items.items }
        ensures nowhere { result ≡ false
            → GetsNowhere client.now.keys client.now.knowns self.old.items.items }
        ensures told { self.new.told ≡ told_count client.now.keys client.now.knowns }
        ensures stays { length self.new.items.items ≡ length self.old.items.items }
    {
        let mut got_on = false;
        let mut told = 0;
        for place in 0..self.items.len() {
            let now = Sight::at(client, place);
            told += usize::from(now.is_told);
            if self.items[place].take(now) {
                got_on = true;
            }
        }
        self.told = told;
        got_on
    }
}

/// Whether each key that was asked about was answered, and has another question: there was one at
/// least, and `now` counts as many keys more than `before`.
fn is_each_answered(asked: usize, before: usize, now: usize) -> bool
    ensures { IsTrue result ↔ IsEachAnswered asked before now }
{
    before < now && now - before == asked
}

/// What an exchange brought, by whether something has grown and whether each key was answered.
fn news_of(has_grown: bool, is_answered: bool) -> ExchangeNews
    ensures grew { result ≡ ExchangeNews.Grew → IsTrue has_grown }
    ensures nowhere { result ≢ ExchangeNews.Grew → has_grown ≡ false }
    ensures answered { result ≡ ExchangeNews.Answered → IsTrue is_answered }
    ensures nothing { result ≡ ExchangeNews.Nothing → is_answered ≡ false }
{
    if has_grown {
        ExchangeNews::Grew
    } else if is_answered {
        ExchangeNews::Answered
    } else {
        ExchangeNews::Nothing
    }
}
