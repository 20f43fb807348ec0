//! A plan carried out over a link, and saved after each exchange.
ghost use Rattle.std.specs.Prelude.{◌≡◌, ◌≢◌, ◌≤◌, ◌<◌, ◌++◌, ◌∷◌, [], length, Ok, Err, IfErr, IfOk, IsTrue, OnErr, OnOk, false};
ghost use Rattle.std.specs.Option.{unwrap_or};
ghost use Rattle.kmip_client.specs.KeepingUp.{IsTextOf, WasTextOf};
ghost use Rattle.kmip_client.specs.Saving.{progress};
ghost use Rattle.kmip_progress.specs.Texts.{progress_text};
ghost use Rattle.kmip_runs.specs.CarriesOut.{CarriesOut, stage};
ghost use Rattle.kmip_runs.specs.PrivateCarried.{MakesExchangesInTurn, MakesOneExchange, SavesProgress};
ghost use Rattle.kmip_runs.specs.PrivateTurns.{asked_count};
ghost use Rattle.kmip_runs.specs.Refusals.{HasRisen};
ghost use Rattle.kmip_runs.specs.Saved.{HasMemory};

use crate::driving::{stop_of, turn};
use crate::keeper::Keeper;
use crate::laws::the_laws_below_hold;
use crate::observer::Observer;
use crate::patience::Patience;
use crate::save_fault::SaveFault;
use crate::sights::Sights;
use crate::{Stop, close_run};
use kmip_client::Client;
use kmip_client::laws::a_client_has_a_lawful_plan;
use kmip_progress::SavedText;
use kmip_progress::laws::texts_are_read_back;
use kmip_protocol::Link;
use kmip_ttlv::NoMemory;
use std::alloc::Global;

/// Sends one message after the other over the link, and learns from what comes back. It goes on until
/// no key of the plan is worked on any more, or `limit` exchanges were made. After each exchange the
/// keeper is given the text of what is then known. Where no exchange is made, nothing is saved.
///
/// `patience` is told of each exchange, and is asked before each but the first whether to go on. Where
/// it gives up, no other exchange is made, and the reason to stop is `Stop::Limit`. Then the run is
/// ended over the link; failures of the link are passed over. Where memory ran out, or the text of the
/// last exchange was not saved, the run may not be ended.
///
/// At the end the keeper makes the last text outlast a crash. Where it cannot, it counts a refusal, and a
/// crash may leave an older text, which is as true.
///
/// `observer` is told of each exchange. Before a message is sent it is told what that asks (`asked`). It is then
/// lent the replies that came (`replied`), or told why there are none (`missed`). If the exchange counts as made,
/// it is lent what the client knows and told what the exchange brought (`learned`). That is after the keeper was
/// given the text and `patience` was told. Once the run is ended over the link it is told so (`ended`). No clause
/// says anything of the observer.
///
/// All of this is said of every link and of every keeper that a caller may bring. That the disk of a real
/// machine keeps the rules no contract can say: it is a premise in words, as the honest link is.
///
/// The result is why it stopped, and how many exchanges were made. An exchange counts too where there
/// was no memory to learn from its reply.
///
/// # Errors
/// Why the text of the last exchange was not saved; no further exchange is then made. It is `NoMemory` too if
/// the text was not saved and memory ran out at the end of the run. Without such a text, want of memory in an
/// exchange, or at the end of the run, is the reason to stop `Stop::NoMemory`.
pub fn carry_out<L: Link, K: Keeper, P: Patience, O: Observer>(
    alloc: Global,
    client: &mut Client<'_>,
    link: &mut L,
    keeper: &mut K,
    patience: &mut P,
    observer: &mut O,
    limit: usize,
) -> (Result<Stop, SaveFault>, usize)
    ensures { CarriesOut limit
        (stage (L.seen link.old) client.old (K.kept keeper.old) (P.has_given_up patience.old)
        (P.asked patience.old))
        result.0 result.1
        (stage (L.seen link.new) client.new (K.kept keeper.new) (P.has_given_up patience.new)
        (P.asked patience.new))
        (L.follows link.old link.new) }
{
    the_laws_below_hold(); // proof
    a_client_has_a_lawful_plan(client); // proof
    let (carried, made) = exchange_in_turn(alloc, client, link, keeper, patience, observer, limit);
    let closed = close_run(alloc, link);
    observer.ended();
    let _ = keeper.close(); // where that fails, a crash may leave an older text, which is as true
    (after_close(carried, closed), made)
}

/// Makes exchanges and saves what is known after each, until no key is worked on any more, `limit`
/// were made, or `patience` gives up.
///
/// # Errors
/// Why the text of the last exchange was not saved.
fn exchange_in_turn<L: Link, K: Keeper, P: Patience, O: Observer>(
    alloc: Global,
    client: &mut Client<'_>,
    link: &mut L,
    keeper: &mut K,
    patience: &mut P,
    observer: &mut O,
    limit: usize,
) -> (Result<Stop, SaveFault>, usize)
    ensures made { MakesExchangesInTurn limit
        (stage (L.seen link.old) client.old (K.kept keeper.old) (P.has_given_up patience.old)
        (P.asked patience.old))
        result.0 result.1
        (stage (L.seen link.new) client.new (K.kept keeper.new) (P.has_given_up patience.new)
        (P.asked patience.new)) }
    ensures followed { HasMemory result.0 → L.follows link.old link.new }
{
    the_laws_below_hold(); // proof
    a_client_has_a_lawful_plan(client); // proof
    let Ok(begun) = Begun::of(alloc, client) else {
        return (Ok(Stop::NoMemory), 0);
    };
    let Begun {
        mut sights,
        mut text,
    } = begun;
    for made in 0..limit {
        let (carried, exchanges, asked) = exchange_once(
            alloc, client, link, keeper, observer, &mut text,
        );
        tell(client, &mut sights, patience, observer, exchanges, asked);
        if !is_at_limit(&carried) {
            return (carried, made + exchanges);
        }
        if made + 1 < limit && !patience.go_on() {
            return (Ok(Stop::Limit), made + 1);
        }
    }
    (Ok(stop_of(client)), limit)
}

/// What is kept from one exchange to the next.
struct Begun {
    sights: Sights,
    /// The text that was saved last, or that of what the run began with.
    text: SavedText,
}

impl Begun {
    /// What a run begins with.
    ///
    /// # Errors
    /// If memory runs out.
    fn of(alloc: Global, client: &Client<'_>) -> Result<Begun, NoMemory>
        ensures as_many { IfOk result (λ begun.
            length begun.sights.items.items ≡ length client.now.keys) }
        ensures text { IfOk result (λ begun. IsTextOf client.now begun.text) }
    {
        Ok(Begun {
            sights: Sights::of(alloc, client)?,
            text: client.saved_text(alloc)?,
        })
    }
}

/// Makes one exchange, if any key is worked on, and saves what is then known. Returns why no other one
/// is made, how many were made, and the number of keys that it asked about, 0 if memory ran out.
///
/// # Errors
/// Why its text was not saved.
fn exchange_once<L: Link, K: Keeper, O: Observer>(
    alloc: Global,
    client: &mut Client<'_>,
    link: &mut L,
    keeper: &mut K,
    observer: &mut O,
    text: &mut SavedText,
) -> (Result<Stop, SaveFault>, usize, usize)
    requires { IsTextOf client.old text.old }
    ensures made { MakesOneExchange (record {
      client = client.old;
      link = L.seen link.old;
      keeper = K.kept keeper.old;
    }) (record {
      client = client.new;
      link = L.seen link.new;
      keeper = K.kept keeper.new;
    }) result.0 result.1 }
    ensures followed { HasMemory result.0 → L.follows link.old link.new }
    ensures asked { HasMemory result.0 → result.2 ≡ unwrap_or (asked_count client.old) 0 }
    ensures text { result.0 ≡ Ok Stop.Limit → IsTextOf client.new text.new }
{
    the_laws_below_hold(); // proof
    // proof: a key that is settled is not worked on
    let asked = match turn(alloc, client, link, observer) {
        Ok(Some(asked)) => asked,
        Ok(None) => return (Ok(stop_of(client)), 0, 0),
        Err(fault) => return (Ok(Stop::NoMemory), fault.exchanges(), 0),
    };
    match save_progress(alloc, client, keeper, text) {
        Ok(()) => (Ok(stop_of(client)), 1, asked),
        Err(fault) => (Err(fault), 1, asked),
    }
}

/// Reports what one exchange brought, if one was made; it asked about `asked` keys.
fn tell<P: Patience, O: Observer>(
    client: &Client<'_>,
    sights: &mut Sights,
    patience: &mut P,
    observer: &mut O,
    exchanges: usize,
    asked: usize,
)
    requires { length sights.old.items.items ≡ length client.now.keys }
    ensures stays { P.has_given_up patience.new ≡ P.has_given_up patience.old }
    ensures unasked { P.asked patience.new ≡ P.asked patience.old }
    ensures as_many { length sights.new.items.items ≡ length sights.old.items.items }
{
    if exchanges > 0 {
        let news = sights.take(client, asked);
        patience.exchanged(client, news);
        observer.learned(client, news);
    }
}

/// Brings the text up to what the client knows, and saves it.
///
/// # Errors
/// Why it was not saved.
fn save_progress<K: Keeper>(
    alloc: Global,
    client: &Client<'_>,
    keeper: &mut K,
    text: &mut SavedText,
) -> Result<(), SaveFault>
    requires { WasTextOf client.now text.old }
    ensures text { OnOk result (IsTextOf client.now text.new) }
    ensures remembered { (K.kept keeper.old).remembers → (K.kept keeper.new).remembers
        × OnOk result ((K.kept keeper.new).saved ≡ (K.kept keeper.old).saved
        ++ progress_text client.now.keys (progress client.now) ∷ [])
        × OnErr result ((K.kept keeper.new).saved ≡ (K.kept keeper.old).saved) }
    ensures whole { (K.kept keeper.old).disk.lawful
        → SavesProgress (K.kept keeper.old).disk client.now result (K.kept keeper.new).disk }
    ensures counted { (K.kept keeper.old).refusals ≤ (K.kept keeper.new).refusals }
    ensures output { IfErr result (λ fault. fault ≡ SaveFault.Output
        → HasRisen (K.kept keeper.old).refusals (K.kept keeper.new).refusals) }
{
    texts_are_read_back(); // proof
    a_client_has_a_lawful_plan(client); // proof
    client.bring_up(alloc, text)?;
    keeper.save(alloc, text.as_bytes())
}

/// Whether as many exchanges were made as were allowed, and all is saved.
fn is_at_limit(carried: &Result<Stop, SaveFault>) -> bool
    ensures at { IsTrue result → carried.now ≡ Ok Stop.Limit }
    ensures not { result ≡ false → carried.now ≢ Ok Stop.Limit }
{
    match carried {
        Ok(Stop::Limit) => true,
        _ => false,
    }
}

/// Why it stopped, once the run is ended.
fn after_close(
    carried: Result<Stop, SaveFault>,
    closed: Result<(), NoMemory>,
) -> Result<Stop, SaveFault>
    ensures whole { OnOk closed (result ≡ carried) }
    ensures stop { OnErr closed (OnOk carried (result ≡ Ok Stop.NoMemory)) }
    ensures fault { OnErr closed (OnErr carried (result ≡ Err SaveFault.NoMemory)) }
{
    match (carried, closed) {
        (carried, Ok(())) => carried,
        (Ok(_), Err(NoMemory)) => Ok(Stop::NoMemory),
        (Err(_), Err(NoMemory)) => Err(SaveFault::NoMemory),
    }
}
