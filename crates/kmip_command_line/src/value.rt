//! What stands after an option.

use crate::completing::{Candidates, Offer};
use Value::{Flag, FlagAlone, FlagUnless, FlagWith, Number, Path, Text, Word};

/// How many numbers a shell offers at most (own).
const MOST_OFFERED: u64 = 10;

/// What stands after an option.
#[derive(Clone, Copy)]
pub(crate) enum Value {
    /// Nothing: the option is there or not.
    Flag,
    /// Nothing, and no option of these words may be there beside it.
    FlagUnless(&'static [&'static str]),
    /// Nothing, and no other option may be there beside it, also where one has to be there else.
    FlagAlone,
    /// Nothing, and the option of this word has to be there beside it.
    FlagWith(&'static str),
    /// A text, which the help calls so.
    Text(&'static str),
    /// The path of a file, which the help calls so.
    Path(&'static str),
    /// A number, which the help calls so, from the first of these numbers to the second.
    Number(&'static str, u64, u64),
    /// It is no option, but one of these words, which stands by itself. The help calls it so.
    Word(&'static str, &'static [&'static str]),
}

impl Value {
    /// What the help calls it; none where nothing stands there.
    pub(crate) fn name(self) -> Option<&'static str> {
        match self {
            Flag | FlagUnless(_) | FlagAlone | FlagWith(_) => None,
            Text(name) | Path(name) | Number(name, _, _) | Word(name, _) => Some(name),
        }
    }

    /// What a shell offers there.
    pub(crate) fn offer(self) -> Offer {
        match self {
            Flag | FlagUnless(_) | FlagAlone | FlagWith(_) => Offer::NoValue,
            Text(_) => Offer::Nothing,
            Path(_) => Offer::Files,
            Number(_, least, most) if most.saturating_sub(least) < MOST_OFFERED => {
                Offer::Among(Candidates::Numbers(least, most))
            }
            Number(_, _, _) => Offer::Nothing,
            Word(_, words) => Offer::Among(Candidates::Words(words)),
        }
    }

    /// Whether it is a value, which stands behind the word of an option.
    pub(crate) fn is_behind(self) -> bool {
        self.name().is_some() && !self.is_word()
    }

    /// Whether it is a word that stands by itself.
    pub(crate) fn is_word(self) -> bool {
        matches!(self, Word(_, _))
    }
}
