//! What the programs of tests share: known messages, and rows.
#![tactic(auto)]

mod rows;
mod running;
mod vectors;

pub use rows::Call;
pub use running::{Driver, run_rows};
pub use vectors::{
    ACTIVATE_1, ACTIVATE_1_REPLY, ALL, ASK_ACTIVATE, CREATE_K1, CREATE_K1_LOOSE_REPLY,
    CREATE_K1_REPLY, DESTROY_1, INVALID_MESSAGE_REPLY, LOCATE_A_AND_B, LOCATE_A_AND_B_NONE,
    LOCATE_K1, LOCATE_K1_FOUND, LOCATE_K1_NONE, NAME_USED_REPLY, WRONG_STATE_REPLY, changed,
};
