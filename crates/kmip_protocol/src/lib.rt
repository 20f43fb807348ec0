//! What may happen between a client and its server, and what holds whatever happens.
//!
//! This is the theory of a client and a server with a network between them that loses, repeats, delays and
//! reorders messages, and invents none. No code is here but a few types, the traits of links and of who is told
//! of exchanges, and what a failed exchange is to its caller.
//!
//! A past (`Past`) is all that was ever asked, answered and done, with the bytes that each exchange sent,
//! what it handed over, and the objects that are there now. A move (`Move`) is what may happen next. A
//! request that was ever asked is served by a step of the server, once more or never yet, and its reply is
//! written or not. Anything is refused. An object of no planned name comes or changes. `Delivered` is any
//! number of moves in any order. Moves happen beside some names, mostly those of a plan: objects of these
//! names come and change by requests alone.
//!
//! A past is sound for a plan (`Sound`) where no two objects of the server have one name or one identifier,
//! and the object of each planned name is the plan's. The effects on it are the first steps of its chain, as
//! many as it has had. Each request ever asked may be asked still, or is outside the plan, as a look is. Each reply
//! ever given is true.
//!
//! A client that knows the truth goes on knowing it over any honest link, and asks nothing that could do
//! harm: the clauses of kmip_client and the laws here together say it of each exchange. What it has then
//! brought about is safe. How far a client is from its end is said by the laws of settling. That
//! all this is so of whole runs, and what a report says, is said by kmip_runs.
//!
//! Over a link that is honest among others of a plan (`Amid`), other clients may ask at any moment what is
//! justified, or look. What is sound stays so there too, and each answer is true.
//!
//! How many questions each key of a plan still needs, until a run ends.
//!
//! No code is here: it is the theory of how a client comes to its end. Over a calm link a key needs none once
//! all steps of its chain are known to be done. Else it needs the steps that are left, and before them the
//! looks, and the step that is refused where less is known than was done. Its phase, its count and its object
//! say how many; `need_all` is the sum over the keys of a plan.
//!
//! A client is ready (`IsReady`) where each object of a planned name is the plan's own, and no other object
//! has its name or its identifier. What is known has to be true, and there is to be room for the objects that
//! are missing. Nothing is asked of what has happened before, and the past need not be sound. A client that
//! is ready and goes on asking over a calm link has all keys finished after exactly as many questions as it
//! needed at first, unless memory runs out. Those are as many exchanges where each message asks one, and
//! fewer where it asks several.
//!
//! Over a link that goes on losing, more than what is needed may be left (`left_all`). It is one question
//! more where a key has no object yet, as a request that was lost may make it late. It is one more where its
//! next step was ever asked, as that may take effect late. So each exchange is paid for: by one that is left
//! no more, or by what a disturbed one costs, which is one, two more for each of its requests, and one more
//! for each reply about another key.
#![tactic(auto)]

pub mod amid_laws;
mod exchange_observer;
pub mod laws;
mod link;
mod link_fault;
pub mod losing_laws;
mod no_reply_reason;
pub mod settling_laws;

pub use exchange_observer::ExchangeObserver;
pub use link::{Link, answer_or_loss};
pub use link_fault::LinkFault;
pub use no_reply_reason::NoReplyReason;
