//! How runs ended of which a crash of the machine may end some.
use crate::campaign_end::CampaignEnd;
use kmip_progress::Progress;

/// How runs ended of which a crash of the machine may end some.
#[derive(Drop)]
pub struct CrashesEnd {
    /// How the runs ended, and what was saved of them.
    pub campaign: CampaignEnd,
    /// What each crash left, in order. Where it left no file, nothing is known of any key.
    pub left: Vec<Progress>,
    /// Whether the disk does not allow the crash of the run after those that have ends. No run was made after
    /// that one.
    pub is_refused: bool,
}
