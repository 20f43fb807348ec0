//! The mark of a look.
ghost use Rattle.kmip_look.specs.Looks.{BeginsNoName};

/// How many bytes a mark has (own).
pub const MARK_BYTES: usize = 8;

/// How many of them are random (own).
pub const RANDOM_MARK_BYTES: usize = 7;

/// A byte that no name of a key has. Source: own (choice); a name has the bytes 21 to 7E, hexadecimal.
const NO_NAME: u8 = 0;

/// What the ids of the questions of one look have behind the operation. No key has such an id, whatever its name is.
#[derive(Clone, Copy, Drop)]
pub struct Mark {
    random: [u8; RANDOM_MARK_BYTES],
}

impl Mark {
    /// A mark with these random bytes. A look wants others than any look before.
    pub fn new(random: [u8; RANDOM_MARK_BYTES]) -> Self {
        Mark { random }
    }

    /// The bytes of the mark: 0, and the random ones.
    pub fn bytes(&self) -> [u8; MARK_BYTES]
        // No name of a key begins so.
        ensures name { BeginsNoName result }
    {
        let [a, b, c, d, e, f, g] = self.random;
        [NO_NAME, a, b, c, d, e, f, g]
    }
}
