//! Calls of the commands `run`, `probe` and `look` over links in memory. rows_kmipctl carries them
//! out. The links lead to a server that loses nothing or follows a script, to servers that break a
//! rule, and to peers that are none. What comes of each call is what it tells.
//!
//! A call is one of
//!
//!     probe once SCRIPT    a probe of an empty server, over a link that follows this script, in which `/`
//!                          stands for a line feed; and how many objects the server has then
//!     probe twice SCRIPT   the same, of two probes over this link
//!     probe bytes SCRIPT   a probe in memory over this link: what is appended, and whether it is refused
//!     probe breach BREACH  a probe of a server that keeps all rules but one (`breaking.rt` says which)
//!     probe repeats ID     a probe of a peer that answers each question by a Locate's reply: no object
//!                          until two questions were asked, and then one and the same. Its id is that of
//!                          the question (`echoed`), none (`missing`), or one of no question (`foreign`)
//!     probe repeats ID refusing REASON after NUMBER    the same, which answers so many questions so, and
//!                          refuses all others for this Result Reason, or `none`
//!     probe answered HEX   a probe of a peer that answers each question by these bytes
//!     probe lacking NUMBER a probe of an empty server, over a link that has memory for so many exchanges
//!     runs of PLAN         a client of the plan in this file, and a link to an empty server, which loses
//!                          nothing: what is done with them is said by the calls behind it in its row.
//!                          Behind it may stand ` over WORDS`, the script that the link follows, with `/`
//!                          between its words, and ` waiting NUMBER`, for how many milliseconds it waits
//!                          first after an exchange that brings nothing, by a clock that sleeping alone
//!                          moves, and ` giving up NUMBER`, after how many seconds it gives up
//!
//!     look of PLAN         the keys of the plan in this file are looked at, over a link to a peer that
//!                          answers as the further lines of the call say. Behind it may stand
//!                          ` about NUMBER`, how many keys a message asks about at most, else 1, and
//!                          ` again NUMBER`, how often it is asked again, else 10. A line has a name, the
//!                          identifiers that are found, with commas between them, or `-`, and what is
//!                          told: five numbers (type, algorithm, length, usage mask, state; `-` for one
//!                          that is not told), `silent`, `refused`, `refused NUMBER`, or `rubbish`
//!
//! A call of these runs is one of
//!
//!     run SETTING, ..      the command `run` over the link: what it writes, its exit status, and each
//!                          text that it keeps, with `/` in the place of a line feed. Behind it may stand
//!                          ` from "TEXT"`, the saved progress that it begins with, so written too
//!     carry SETTING, ..    the client goes on over the link: why it stops, or why a text was not kept,
//!                          with the number of exchanges; and each text that is kept
//!     standing MADE SILENT from "TEXT"    the line that says how far a run is by the text that it kept
//!                          last, behind so many exchanges, of which so many brought no reply
//!     waits NUMBER         the waits behind nine exchanges without a reply, of which this is the first,
//!                          and then the one behind a reply
//!     told                 how many messages were sent, what was told of exchanges and of ends of runs,
//!                          and for how many milliseconds the link slept and has to wait
//!
//! A setting is `of PLAN`, the file of another plan; `with identifiers`, the form in which its end is
//! printed, else the plain one; `limit NUMBER` of exchanges, else 10,000; `about NUMBER`, how many keys a
//! message asks about at most, else 1; `room NUMBER`, how many texts can be kept, else 10; `writer NUMBER`,
//! a writer with room for so many bytes, of which nothing is printed; or `in short`: of what is written and
//! of the texts that are kept the count is printed, with a checksum, and the last lines.
#![tactic(auto)]

mod alone;
mod board;
mod breaking;
mod keeping;
mod lacking;
mod looking;
mod peer;
mod probing;
mod repeating_peer;
mod settings;
mod shelf;
mod short;
mod watching;

pub use keeping::hold_runs;
pub use looking::push_look;
pub use probing::push_probe;
