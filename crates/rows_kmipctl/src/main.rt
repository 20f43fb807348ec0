//! `kmipctl` once more, for its rows. A row has commands, with what each writes and its exit status; or with
//! what it asks for. Commands over links in memory are calls too, of which `rows_links` tells. Arguments
//! are the rows' files, and `--name WORD` for the rows alone whose names begin so (`run_rows` of
//! test_support). The files of all other rows are written all the same.
//!
//! A call is one of
//!
//!     file NAME            its further lines are the file
//!     $ kmipctl WORDS      a command line, in which `%20` is a space of a word; variables may stand before
//!                          it as `NAME=VALUE`, of which the value `%FF` is no UTF-8
//!     taken kmipctl WORDS  a command line, in which `PORT` is a port that is taken meanwhile
//!     serve kmipctl WORDS  the command `serve`: what it writes, with `PORT` in the place of its port
//!     ? kmipctl WORDS      the same, of which no more is done than to say what it asks for
//!     < kmipctl WORDS      the same of `answer`, `show`, `check`, `list` and `sim`, whose input are the
//!                          further lines, and a file `-` too. It is carried out as the program does it,
//!                          over a reader and a writer, and in memory: it tells what the first tells, and
//!                          what another tells only where that is something else
//!     < kmipctl WORDS | WAY, ..    the same, carried out in this way
//!     exchanges            its further lines are a question and replies to it in hexadecimal: what is told
//!                          of each exchange
//!     probe WORDS          a probe over a link in memory
//!     runs of PLAN         runs over such a link: the calls behind it in its row say which
//!     look of PLAN         a look over such a link: its further lines say what is there
//!
//! The way in which a command is carried out is told by
//!
//!     in pieces of 7 and 1000       the reader gives its bytes in pieces of so many; once more of so many
//!     interrupted                   the reader is interrupted before each piece
//!     then failing                  the reader fails behind its bytes
//!     without the last line feed    the last line of the input lacks it
//!     room for 10                   the writer has room for so many bytes; what it has is not printed
//!     in memory alone               it is not carried out in the other forms
//!     cut at each byte              once more with the line of the input cut into two, at each byte in turn
//!     telling its outcome           what became of the stream is printed too
//!     telling when it is sent on    how much was written at each flush is printed too
//!
//! A line of a file or of the input of a command stands for itself, in which `%0D` is a carriage
//! return, or is one of
//!
//!     times COUNT: TEXT           so many times this text, in which `/` is a line feed; none stands behind it
//!     numbers FROM..TO: TEXT      the same for each of these numbers, which stands in the place of `#`, or in
//!                                 that of `@` as the value of a Text String
//!     gives                       the lines behind it are no input: they are what is to be written first, of
//!                                 which is printed whether it is
#![tactic(auto)]

mod calls;
mod commands;
mod forms;
mod printed;
mod readers;
mod repeating;
mod serving;
mod typed;
mod ways;
mod wording;
mod writers;

use crate::calls::Commands;
use crate::printed::redirect;
use std::process::ExitCode;
use std::test::Fail;
use test_support::run_rows;

fn main(rt: HostRuntime) -> Result<ExitCode, Fail> {
    run_rows::<Commands>(&rt, &mut redirect(&rt)?)
}
