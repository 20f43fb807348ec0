//! What happens over a link that follows a script.

use kmip_scripted::Script;

/// What happened at one time over a link that follows a script. All are counted from 1.
#[derive(Drop)]
pub(crate) enum Moment {
    /// The run of this number begins.
    Begun(usize),
    /// The first request is to be delivered again, when so many requests had been asked.
    Repeated {
        /// The number of the request.
        number: usize,
        /// How many requests had been asked.
        asked: usize,
    },
    /// The exchange of this number is made.
    Exchanged(usize),
    /// The run of this number ends, and these words are taken there.
    Ended {
        /// The number of the run.
        number: usize,
        /// The word that ends the run, and those that say what the next one begins with.
        words: Script,
    },
}
