//! The reports over a plan and a progress, as text or as JSON: those of `check`, `check --after` and
//! `list`, and the lines of a plan or a progress that is refused.
//!
//! `push_check`, `push_check_after` and `push_list` make a report in memory. `run_check`,
//! `run_check_after` and `run_list` also print it, and return how the program ends.
//! `run_progress_refusal` prints why there is no progress to list. The other functions are for
//! reports that have these lines too.
#![tactic(auto)]

mod checking;
mod checking_after;
mod key_standing;
mod listing;
mod refusing;
mod steps;

pub use checking::{push_check, push_check_lines, run_check};
pub use checking_after::{push_check_after, run_check_after};
pub use key_standing::{KeyStanding, standings};
pub use listing::{pieces_of_key, push_client_listing, push_finished, push_list, run_list};
pub use refusing::{
    push_plan_refusal, push_progress_refusal, push_refused_plan, run_progress_refusal,
};
pub use steps::step_words;
