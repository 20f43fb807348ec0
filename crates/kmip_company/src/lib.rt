//! Any number of clients of one plan at once, and what holds of them.
//!
//! A company is what clients of one plan and their server are to each other at a moment. Each client begins from
//! nothing, or from what any of them saved, and is killed at any moment. Their exchanges overlap as they like:
//! one event is one move of the network or the server, or one thing that one client does.
//!
//! `mixed_laws` says what holds where the clients are of several plans, each of which the newest prolongs.
//!
//! `drive_in_company` drives a client, and says that what it does may occur in any company.
//!
//! `Shared` is a link that another client uses too. `campaign_with_another` makes the runs of one client over it.
#![tactic(auto)]

mod acting;
pub mod laws;
pub mod mixed_laws;
mod shared;
mod shared_campaign;

pub use acting::drive_in_company;
pub use shared::Shared;
pub use shared_campaign::{SharedCampaign, campaign_with_another};
