//! How a campaign ended: the ends of its runs and what was saved, in order, and whether it ended for want of memory.
ghost use Rattle.std.specs.Prelude.{◌<◌};

use crate::run_end::RunEnd;
use kmip_progress::Progress;
use kmip_ttlv::NoMemory;

/// How a campaign ended: the ends of its runs and what was saved, in order, and whether it ended for want of
/// memory.
#[derive(Drop)]
pub struct CampaignEnd {
    pub runs: Vec<RunEnd>,
    pub saved: Vec<Progress>,
    pub fault: Option<NoMemory>,
}
