//! Rows of messages that are read and written, and of talks with a client. They are of what stands below
//! the commands. Arguments are the rows' files, and `--name WORD` for the rows alone whose names begin so
//! (`run_rows` of test_support).
//!
//! A call is one of
//!
//!     request NAME: HEX        the bytes are read as a request
//!     reply NAME: HEX          they are read as a reply
//!     again NAME: HEX          they are read as a request or a reply, and written again
//!     taken NAME: HEX          which changes of one byte of a request or a reply are still read
//!     client TARGET: NAMES     a talk with a client of a plan of these keys, AES with 256 bits to
//!                              encrypt and decrypt; the calls behind it in its row are of this talk
//!
//! A call of a talk is one of
//!
//!     first NAME: HEX          what a new client hears first: the client is made anew
//!     ask MOST                 the client asks, in a message of at most so many questions
//!     ask MOST NAME: HEX       the same, where these are the bytes of the message
//!     hear NAME: HEX           it hears these bytes
//!     lost KEY                 the question about the key at this place has no answer
//!     known KEY                what is known of the key at this place
//!     known each               what is known of each, where it is the same
//!     new NAME: HEX            a new client hears these bytes: what it says to them, what is then known of
//!                              the first key, and what is asked
//!     fronts NAME: HEX         a new client hears each proper front of these bytes
//!     learnt NAME: HEX         new clients hear these bytes with each byte changed to each other one
//!     kept NAME: HEX           one client hears what another refuses of these, and stands as it stood
//!     ask each                 the client asks about each key in turn
//!     hear each NAME: HEX      it hears these bytes with each key's name in the place of `NAME`, from
//!                              the last key to the first
//!     saved                    the text of the progress, with `/` in the place of a line feed
//!     resume: TEXT             a client that goes on from such a text
#![tactic(auto)]

mod changes;
mod messages;
mod rows;
mod talks;
mod telling;
mod trying;

use crate::rows::Rows;
use std::io;
use std::process::ExitCode;
use std::test::Fail;
use test_support::run_rows;

fn main(rt: HostRuntime) -> Result<ExitCode, Fail> {
    run_rows::<Rows>(&rt, &mut io::writer(&rt))
}
