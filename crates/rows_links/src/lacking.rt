//! A link that has memory for so many exchanges.

use kmip_protocol::{Link, LinkFault};
use std::alloc::Global;
use std::test::Fail;

/// A link that carries so many exchanges as the one within does, and has no memory for the next one.
#[derive(Drop)]
pub(crate) struct Lacking<L: Link + Drop> {
    link: L,
    /// How many exchanges there is memory for.
    left: u32,
}

impl<L: Link + Drop> Lacking<L> {
    /// The link within, with memory for as many exchanges as the word says.
    ///
    /// # Errors
    /// Where it is no number.
    pub(crate) fn of(link: L, word: &str) -> Result<Self, Fail> {
        match word.parse::<u32>() {
            Ok(left) => Ok(Lacking { link, left }),
            Err(_) => Err(Fail::new("no number of exchanges")),
        }
    }
}

/// Neither honest nor calm, and its past is empty: nothing is claimed of it.
impl<L: Link + Drop> Link for Lacking<L> {
    ghost use Rattle.std.specs.Prelude.{⊤};
    ghost use Rattle.kmip_protocol.specs.Private.{unclaimed};

    ghost seen = { λ link. unclaimed 0 };

    ghost follows = { λ link next. ⊤ };

    fn exchange(&mut self, alloc: Global, request: &[u8]) -> Result<Option<Vec<u8>>, LinkFault> {
        if self.left == 0 {
            return Err(LinkFault::NoMemory);
        }
        self.left -= 1;
        match self.link.exchange(alloc, request) {
            Err(LinkFault::Io) => Ok(None),
            answered => answered,
        }
    }

    fn end_run(&mut self, _alloc: Global) -> Result<(), LinkFault> {
        Ok(())
    }

    ghost itself = { λ link. tt };

    ghost twice = { λ x y z first second. tt };
}
