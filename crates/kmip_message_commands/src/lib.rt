//! The commands `answer` and `show`.
//!
//! Each is a public function over any reader and writer. What is read and written is said where a
//! contract knows the bytes of both. `answer`, `answer_stream` and `show_lines` do the work of their
//! commands and return a fault as a value. `run_answer`, `run_answer_stream` and `run_show` also print
//! the fault and say how the program ends. `answer_bytes`, `answer_stream_bytes` and `show_bytes` do
//! the same work in memory, from bytes to a vector of bytes, where nothing but memory can fail.
//!
//! A command breaks off where its reader or its writer fails, or memory runs out. A writer that failed
//! may have taken anything, and of that case no clause says what was written.
#![tactic(auto)]

mod answerer;
mod answering;
mod decoding;
mod encoding;
mod form;
mod input_end;
mod judged;
mod judging;
mod lines;
mod next_line;
mod piece;
mod replies;
mod respond;
mod responding;
mod shower;
mod showing;
mod stream_outcome;
mod streamer;
mod streaming;

pub use answering::{answer, answer_bytes, run_answer};
pub use form::Form;
pub use input_end::InputEnd;
pub use showing::{run_show, show_bytes, show_lines};
pub use stream_outcome::StreamOutcome;
pub use streaming::{answer_stream, answer_stream_bytes, run_answer_stream};
