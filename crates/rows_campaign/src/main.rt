//! Rows of runs and campaigns over links in memory, also over links that fail. Some have random scripts.
//! Arguments are the rows' files, and `--name WORD` for the rows alone whose names begin so (`run_rows`
//! of test_support).
//!
//! A call is one of
//!
//!     case: NAME TARGET, ..       a plan of these keys, AES with 256 bits to encrypt and decrypt, and further
//!                                 plans, each behind ` | `; an empty server, a link to it that loses nothing,
//!                                 and a client of the first plan that knows nothing. What is done with them
//!                                 is said by the calls behind it in its row
//!     random SEED TIMES KEYS MOST: TEXT    a random script for each of so many plans of so many keys, with at
//!                                 most so many in a message: how many scripts, runs and saves these were, and
//!                                 whether all is as it has to be: at the end each key is at its target, with
//!                                 one object, and a single run takes no more exchanges than the bound of its
//!                                 plan, one for each that the link disturbed, two for each request that these
//!                                 sent, and one for each reply about another key. For `1-8` stand numbers in
//!                                 turn, or random ones; in the script `0-15 calls` stands for so many random
//!                                 words of exchanges, `again` among them, and `0-15 any` for all but `prolong`
//!     random SEED TIMES KEYS MOST again: TEXT    the same, where a second campaign of one run comes behind the
//!                                 script, which knows nothing, and has to find all finished
//!     random SEED TIMES KEYS|KEYS MOST: TEXT    the same of scripts with one `prolong`, each for two plans:
//!                                 the first ones of so many pairs, of which those are taken where the second
//!                                 plan prolongs the first
//!
//! A call of a case is one of
//!
//!     script: TEXT                a link to an empty server follows this script, in which `/` stands for
//!                                 a line feed
//!     object NAME LENGTH          a link that loses nothing, to a server with this object, of this length
//!     fail AT: FAULT              that exchange from now on fails so, before its request is delivered
//!     fail AT delivered: FAULT    the same, once it is delivered
//!     earlier LIMIT: NAME TARGET, ..    a run of another client, which knows nothing, about these keys
//!     drive LIMIT                 a run of the client: how it ended, and its exchanges
//!     drive LIMIT by MOST         the same, asking about at most so many keys in a message from now on
//!     campaign: RUN, ..           a campaign of runs: what each begins with (`fresh`, `same`, `saved-1`),
//!                                 its limit, `by` and how many keys, and `saved` where it is
//!     campaigns: RUN, .. | RUN, ..    campaigns on all plans of the case, each with its runs: how many were
//!                                 saved, and on the lines behind how each run ended, with its report
//!     finish                      the run ends over the link, and its script is gone through
//!     next                        what the client asks next
//!     known                       the identifier that it knows of each key
//!     report                      its report, with `/` in the place of a line feed
//!     asked                       what was asked over the link, message by message
//!     request NUMBER              the bytes of a message that was asked, or `none`
//!     reply NUMBER                the bytes of a reply that was ever given, or `none`
//!     records                     the objects of the server, and whether they are as the plan says
//!     counts                      how many exchanges, requests and replies the link disturbed, how often
//!                                 its network failed, and behind which exchanges a run ended
//!     words: TEXT                 the words of a script, and how often a plan is prolonged in it
//!     lists: TEXT                 the runs that it makes before `prolong` and behind it
//!     cuts LAST                   campaigns of one run, of whose second message so many bytes arrive, from
//!                                 none to this number
//!     simulate MOST: TEXT         the simulation of a script, with at most so many keys in a message
//!     again MOST then RUN, ..: TEXT    the same, and then a second campaign of these runs over its link: how
//!                                 the runs of the script ended, how many of the second campaign were saved,
//!                                 and on the lines behind how each of these ended, with its report, all
//!                                 that was asked, and the objects
#![tactic(auto)]

mod acting;
mod cases;
mod faulty;
mod random;
mod scripts;
mod telling;

use crate::cases::Cases;
use std::io;
use std::process::ExitCode;
use std::test::Fail;
use test_support::run_rows;

fn main(rt: HostRuntime) -> Result<ExitCode, Fail> {
    run_rows::<Cases>(&rt, &mut io::writer(&rt))
}
