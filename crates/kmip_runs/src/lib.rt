//! A client carries out a plan over a link, in runs of exchanges.
//!
//! Everything here is said of every link that a caller brings (the trait `Link` of kmip_protocol). Where a
//! clause asks that the link is honest or calm, the caller's link promises that. A link in memory that is
//! proved to be honest is `Scripted` of kmip_scripted, which the command `sim` uses.
//!
//! The headline is the clause `safe` of `campaign`. To read it from the top:
//!
//! 1. A plan is a list of keys with distinct names, each with attributes and a target. The target says which
//!    steps lead there, the key's chain (`IsPlan` and `chain` of kmip_plan).
//! 2. A past is all that was ever asked, answered and done between a client and a server. It has the objects
//!    that are there now, and what each exchange sent and handed over (`Past` of kmip_protocol).
//! 3. A move is what may happen next. A request that was ever asked is served by a step of the server
//!    (`ServerStep` of kmip_server), once more or never yet, its reply written or not. Or something is
//!    refused, or an object of no planned name comes or changes. A delivery is any number of moves in any
//!    order (`Move`, `MayHappen`, `Delivered` of kmip_protocol).
//! 4. A link is honest for some names where each exchange adds the requests of its message to those asked.
//!    Then there is a delivery, and the exchange hands over nothing, or a message whose replies were all
//!    given some time (`Exchanged`, and the clause `honest` of `Link::exchange`). The end of a run is a
//!    delivery. A link is honest among others of a plan where other clients may ask meanwhile what is
//!    justified (`ExchangedAmid`, and the clause `amid`). One that is honest for the plan's names is so too.
//! 5. A past is sound for a plan where no two objects, of whatever names, have one name or one identifier.
//!    Each planned name has at most one object, which is the plan's. The effects on it are the first steps of
//!    its chain, as many as its state says. Each request ever asked may be asked still, and each reply ever
//!    given is true (`Sound`). Where nothing of the plan has happened, the past is sound (`Opening`): names
//!    and identifiers are distinct, no object has a planned name, and nothing was asked, answered or done.
//! 6. A campaign makes runs in turn over one link. Each begins with nothing, with what was known at the end
//!    of the run before, or with a progress that an earlier run saved. What it reports done is of each key
//!    the first steps of its chain, as many as an end of a run or a saved progress counts (`reported`).
//! 7. A past is safe (`Safe`) where each planned name is on at most one object, with the attributes of the
//!    plan. What took effect on it is the first steps of its chain, each once and in order, and every step
//!    that was reported done is among these. A request that comes again after its step took effect changes no
//!    object, whichever way the server answers it.
//!
//! So the clause `safe`, aloud: take any runs, and any link that is honest among others of the plan and over
//! which all was sound before. After the campaign the past is safe for all that the campaign has reported,
//! wherever memory ran out.
//!
//! The premises, once more. No two objects of the server have one name or one identifier. Nobody but
//! clients of the plan uses its names. The server serves by its steps or refuses at will, keeps its
//! objects and never frees a name. The network invents nothing. A saved progress is one that a run of
//! this campaign saved.
//!
//! Carries out a plan over a link, and saves what is known after each exchange.
#![tactic(auto)]

mod campaign_end;
mod campaigning;
mod carrying;
mod crash;
mod crash_fault;
mod crashes_end;
mod crashing;
mod crashing_run;
mod disk_keeper;
mod driving;
mod ending;
mod exchange_news;
mod file_keeper;
mod keeper;
mod laws;
mod left;
mod observer;
mod pace;
mod patience;
mod prolonging;
mod reporting;
mod run;
mod run_end;
mod save_fault;
mod sight;
mod sights;
mod start;
mod stop;
mod tireless;
mod turn_fault;

pub use campaign_end::CampaignEnd;
pub use campaigning::campaign;
pub use carrying::carry_out;
pub use crash::Crash;
pub use crashes_end::CrashesEnd;
pub use crashing::campaign_with_crashes;
pub use crashing_run::CrashingRun;
pub use driving::drive;
pub use ending::close_run;
pub use exchange_news::ExchangeNews;
pub use file_keeper::FileKeeper;
pub use keeper::Keeper;
pub use kmip_protocol::{Link, LinkFault};
pub use left::Left;
pub use observer::Observer;
pub use pace::{Pace, next_wait, wait_within};
pub use patience::Patience;
pub use prolonging::campaigns;
pub use reporting::{identifier_text, report, sum_line};
pub use run::Run;
pub use run_end::RunEnd;
pub use save_fault::SaveFault;
pub use start::Start;
pub use stop::Stop;
pub use tireless::Tireless;
