//! Messages of which one byte is changed, and what then becomes of the server's rows.

use kmip_objects::KeyState;
use test_support::{
    ACTIVATE_1, ACTIVATE_1_REPLY, CREATE_K1, CREATE_K1_LOOSE_REPLY, CREATE_K1_REPLY, DESTROY_1,
    INVALID_MESSAGE_REPLY, LOCATE_K1, LOCATE_K1_FOUND, LOCATE_K1_NONE, NAME_USED_REPLY,
    WRONG_STATE_REPLY,
};

/// A row of the server. It has the other attributes of `CREATE_K1` and, until it is destroyed, the next 32
/// bytes of the stream.
#[derive(Clone, Copy)]
pub(crate) struct Wanted {
    pub(crate) identifier: &'static str,
    /// Its name; empty where that is the name that the message has.
    pub(crate) name: &'static str,
    pub(crate) state: KeyState,
}

pub(crate) const K1: Wanted = Wanted {
    identifier: "1",
    name: "k1",
    state: KeyState::PreActive,
};

pub(crate) const K2: Wanted = Wanted {
    identifier: "2",
    name: "k2",
    state: KeyState::PreActive,
};

pub(crate) const BEFORE: [Wanted; 2] = [K1, K2];

pub(crate) const FIRST_ACTIVE: [Wanted; 2] = [
    Wanted {
        identifier: "1",
        name: "k1",
        state: KeyState::Active,
    },
    K2,
];

pub(crate) const FIRST_DESTROYED: [Wanted; 2] = [
    Wanted {
        identifier: "1",
        name: "k1",
        state: KeyState::Destroyed,
    },
    K2,
];

pub(crate) const SECOND_ACTIVE: [Wanted; 2] = [
    K1,
    Wanted {
        identifier: "2",
        name: "k2",
        state: KeyState::Active,
    },
];

pub(crate) const SECOND_DESTROYED: [Wanted; 2] = [
    K1,
    Wanted {
        identifier: "2",
        name: "k2",
        state: KeyState::Destroyed,
    },
];

pub(crate) const THIRD: [Wanted; 3] = [
    K1,
    K2,
    Wanted {
        identifier: "3",
        name: "",
        state: KeyState::PreActive,
    },
];

/// A message: what it is called where a test fails, and its bytes in hexadecimal.
#[derive(Clone, Copy)]
pub(crate) struct Message {
    pub(crate) name: &'static str,
    pub(crate) digits: &'static str,
}

/// Some places of a message, from the first to the last one; places count from 0.
#[derive(Clone, Copy)]
pub(crate) struct Places {
    pub(crate) first: usize,
    pub(crate) last: usize,
}

/// Places of a message, the bytes that are put there, and the rows that the server then has.
pub(crate) struct Effect {
    pub(crate) places: Places,
    pub(crate) least: u8,
    pub(crate) greatest: u8,
    pub(crate) rows: &'static [Wanted],
}

/// The padding of a message about an identifier.
pub(crate) const PADDING: [Places; 5] = [
    Places {
        first: 36,
        last: 39,
    },
    Places {
        first: 52,
        last: 55,
    },
    Places {
        first: 68,
        last: 71,
    },
    Places {
        first: 92,
        last: 95,
    },
    Places {
        first: 113,
        last: 119,
    },
];

/// What becomes of a message with one byte changed.
pub(crate) struct Table {
    pub(crate) message: Message,
    /// The padding, whose bytes say nothing.
    pub(crate) padding: &'static [Places],
    /// The rows after the message, also where a byte of the padding is another.
    pub(crate) rows: &'static [Wanted],
    /// The further changes after which the rows are others than `BEFORE`.
    pub(crate) effects: &'static [Effect],
    /// How many changes leave a lawful Locate or Get Attributes.
    pub(crate) told: usize,
}

/// Requests about a name.
pub(crate) const OF_NAMES: [Table; 2] = [
    Table {
        message: Message {
            name: "the Locate of k1",
            digits: LOCATE_K1,
        },
        padding: &[],
        rows: &BEFORE,
        effects: &[],
        // All that is padding or passed over, each mask, and each other name that may be asked for.
        told: 12_432,
    },
    Table {
        message: Message {
            name: "the Create of k1",
            digits: CREATE_K1,
        },
        padding: &[],
        rows: &BEFORE,
        // The name: `k` alone, and each other visible character; `k2` is used.
        effects: &[
            Effect {
                places: Places {
                    first: 159,
                    last: 159,
                },
                least: 1,
                greatest: 1,
                rows: &THIRD,
            },
            Effect {
                places: Places {
                    first: 160,
                    last: 160,
                },
                least: 0x21,
                greatest: 0x7E,
                rows: &THIRD,
            },
            Effect {
                places: Places {
                    first: 161,
                    last: 161,
                },
                least: 0x21,
                greatest: 0x31,
                rows: &THIRD,
            },
            Effect {
                places: Places {
                    first: 161,
                    last: 161,
                },
                least: 0x33,
                greatest: 0x7E,
                rows: &THIRD,
            },
        ],
        // The operation Locate.
        told: 1,
    },
];

/// Requests about an identifier.
pub(crate) const OF_IDENTIFIERS: [Table; 2] = [
    Table {
        message: Message {
            name: "the Activate of 1",
            digits: ACTIVATE_1,
        },
        padding: &PADDING,
        rows: &FIRST_ACTIVE,
        // The operation, and the identifier.
        effects: &[
            Effect {
                places: Places {
                    first: 91,
                    last: 91,
                },
                least: 0x14,
                greatest: 0x14,
                rows: &FIRST_DESTROYED,
            },
            Effect {
                places: Places {
                    first: 112,
                    last: 112,
                },
                least: 0x32,
                greatest: 0x32,
                rows: &SECOND_ACTIVE,
            },
        ],
        // The operation Get Attributes.
        told: 1,
    },
    Table {
        message: Message {
            name: "the Destroy of 1",
            digits: DESTROY_1,
        },
        padding: &PADDING,
        rows: &FIRST_DESTROYED,
        effects: &[
            Effect {
                places: Places {
                    first: 91,
                    last: 91,
                },
                least: 0x12,
                greatest: 0x12,
                rows: &FIRST_ACTIVE,
            },
            Effect {
                places: Places {
                    first: 112,
                    last: 112,
                },
                least: 0x32,
                greatest: 0x32,
                rows: &SECOND_DESTROYED,
            },
        ],
        told: 1,
    },
];

/// A message, and in how many of its first bytes no change makes it a lawful request.
pub(crate) struct Refused {
    pub(crate) message: Message,
    pub(crate) places: usize,
}

pub(crate) const MESSAGES: [Refused; 12] = [
    Refused {
        message: Message {
            name: "the Locate of k1",
            digits: LOCATE_K1,
        },
        places: 8,
    },
    Refused {
        message: Message {
            name: "the reply that no k1 was found",
            digits: LOCATE_K1_NONE,
        },
        places: 152,
    },
    Refused {
        message: Message {
            name: "the Create of k1",
            digits: CREATE_K1,
        },
        places: 8,
    },
    Refused {
        message: Message {
            name: "the reply to the Create of k1",
            digits: CREATE_K1_REPLY,
        },
        places: 184,
    },
    Refused {
        message: Message {
            name: "the reply that the name is used",
            digits: NAME_USED_REPLY,
        },
        places: 160,
    },
    Refused {
        message: Message {
            name: "the reply that k1 was found",
            digits: LOCATE_K1_FOUND,
        },
        places: 168,
    },
    Refused {
        message: Message {
            name: "the reply to what is no message",
            digits: INVALID_MESSAGE_REPLY,
        },
        places: 128,
    },
    Refused {
        message: Message {
            name: "the Activate of 1",
            digits: ACTIVATE_1,
        },
        places: 8,
    },
    Refused {
        message: Message {
            name: "the reply to the Activate of 1",
            digits: ACTIVATE_1_REPLY,
        },
        places: 152,
    },
    Refused {
        message: Message {
            name: "the Destroy of 1",
            digits: DESTROY_1,
        },
        places: 8,
    },
    Refused {
        message: Message {
            name: "the reply that the state is wrong",
            digits: WRONG_STATE_REPLY,
        },
        places: 144,
    },
    Refused {
        message: Message {
            name: "the reply to the Create of k1 in another order",
            digits: CREATE_K1_LOOSE_REPLY,
        },
        places: 200,
    },
];
