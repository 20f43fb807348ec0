//! All that a program needs to carry out a plan over a link.
//!
//! Nothing is written here: each name is shown from the crate in which it is made, with its contract.
#![tactic(auto)]

pub use kmip_client::{Client, finished_count};
pub use kmip_progress::{Progress, ProgressFault, suits};
pub use kmip_protocol::{Link, LinkFault};
pub use kmip_runs::{
    CampaignEnd, Run, RunEnd, Start, Stop, campaign, campaigns, close_run, drive, report,
};
pub use kmip_scripted::{Script, ScriptFault, Scripted, Word, read_script};
pub use kmip_transport::{
    Loopback, StreamEnd, TcpLink, UnixLink, receive_message, send_message, serve_stream,
};
