//! The command `probe`: tells in words which premises of the theorem a server keeps.
//!
//! It asks the questions of a probe over any link, and reports what their answers say, over any writer
//! or in memory. Each line is a list of pieces, which gives it in text and in JSON.
//!
//! That no line says no of a lawful server over a link that loses, delays and repeats is not proved:
//! the stored runs of rows_kmipctl try some such links, and `make storm` some hundreds. They also try
//! three more things. A server that breaks one premise is told by the line of that one. A peer that
//! answers every question by the reply of a Locate gets no yes of what it was not asked about. Of a
//! peer that refuses the looks, or all after them, the reason is told.
#![tactic(auto)]

pub mod laws;
mod lines;
mod looking;
mod premise;
mod running;
mod telling;
mod unread;
mod wording;

pub use lines::{push_end, push_making, push_premise, push_unmade, unfit_line};
pub use premise::{PREMISES, Premise, finding_of};
pub use running::{probe_bytes, run_probe};
pub use wording::are_all_kept;
