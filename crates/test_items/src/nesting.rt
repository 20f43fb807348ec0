//! Structures nested at random depths, from a fixed seed.

use crate::items::size_of;
use rand_chacha::ChaCha20Rng;
use rand_core::{Rng, SeedableRng};
use std::alloc::{AllocError, Global};
use std::process::Abort;
use std::test::Fail;

const BOOLEAN: u8 = 0x06;

const TEXT_STRING: u8 = 0x07;

/// Items without children: their type, and their length, which is one of so many from the least one on.
#[derive(Clone, Copy)]
struct Leaf {
    item_type: u8,
    least: u32,
    lengths: u32,
}

const LEAVES: [Leaf; 10] = [
    Leaf {
        item_type: 0x02,
        least: 4,
        lengths: 1,
    },
    Leaf {
        item_type: 0x03,
        least: 8,
        lengths: 1,
    },
    Leaf {
        item_type: 0x04,
        least: 16,
        lengths: 1,
    },
    Leaf {
        item_type: 0x05,
        least: 4,
        lengths: 1,
    },
    Leaf {
        item_type: BOOLEAN,
        least: 8,
        lengths: 1,
    },
    Leaf {
        item_type: TEXT_STRING,
        least: 1,
        lengths: 3_000,
    },
    Leaf {
        item_type: 0x08,
        least: 1,
        lengths: 3_000,
    },
    Leaf {
        item_type: 0x09,
        least: 8,
        lengths: 1,
    },
    Leaf {
        item_type: 0x0A,
        least: 4,
        lengths: 1,
    },
    Leaf {
        item_type: 0x0B,
        least: 8,
        lengths: 1,
    },
];

/// What is wrong with an item.
#[derive(Clone, Copy)]
enum Damage {
    None,
    /// The Structure around so many others has another length than its items, by this many bytes.
    Length(u32, u32),
    /// The last byte is cut off.
    Cut,
}

/// The low eight bits of a random word.
fn random_byte(rng: &mut ChaCha20Rng) -> u8 {
    let [_, _, _, byte] = rng.next_u32().to_be_bytes();
    byte
}

/// Appends a random tag, the type and the length.
fn push_head(
    rng: &mut ChaCha20Rng,
    item_type: u8,
    len: u32,
    out: &mut Vec<u8>,
) -> Result<(), AllocError> {
    let [_, first, second, third] = rng.next_u32().to_be_bytes();
    out.extend_from_slice(&[first, second, third, item_type])?;
    out.extend_from_slice(&len.to_be_bytes())?;
    Ok(())
}

/// Appends a random item without children, which takes at least 16 bytes.
fn push_leaf(rng: &mut ChaCha20Rng, out: &mut Vec<u8>) -> Result<(), AllocError> {
    let number = rng.next_u32() as usize % LEAVES.len();
    let Leaf {
        item_type,
        least,
        lengths,
    } = LEAVES[number];
    let len = least.saturating_add(rng.next_u32().checked_rem(lengths).unwrap_or(0));
    push_head(rng, item_type, len, out)?;
    for place in 0..len.div_ceil(8).saturating_mul(8) {
        let byte = random_byte(rng);
        out.push(match item_type {
            BOOLEAN if place < 7 => 0,
            BOOLEAN => byte & 1,
            TEXT_STRING => byte & 0x7F,
            _ => byte,
        })?;
    }
    Ok(())
}

/// A Structure of the items, with perhaps one before them and perhaps one behind them. Its length is
/// greater than theirs by `more`.
fn wrapped(
    alloc: Global,
    rng: &mut ChaCha20Rng,
    held: &[u8],
    more: u32,
) -> Result<Vec<u8>, AllocError> {
    let mut items = Vec::new(alloc);
    if random_byte(rng) < 128 {
        push_leaf(rng, &mut items)?;
    }
    items.extend_from_slice(held)?;
    if random_byte(rng) < 128 {
        push_leaf(rng, &mut items)?;
    }
    let len = u32::try_from(items.len()).unwrap_or(0);
    let mut out = Vec::new(alloc);
    push_head(rng, 0x01, len.wrapping_add(more), &mut out)?;
    out.extend_from_slice(items.as_slice())?;
    Ok(out)
}

/// An item without children in so many Structures, each within the next, with random items beside.
fn nested(
    alloc: Global,
    rng: &mut ChaCha20Rng,
    levels: u32,
    damage: Damage,
) -> Result<Vec<u8>, AllocError> {
    let mut bytes = Vec::new(alloc);
    push_leaf(rng, &mut bytes)?;
    for level in 0..levels {
        let more = match damage {
            Damage::Length(at, more) if at == level => more,
            _ => 0,
        };
        bytes = wrapped(alloc, rng, bytes.as_slice(), more)?;
    }
    if matches!(damage, Damage::Cut) {
        bytes.pop();
    }
    Ok(bytes)
}

/// The damage of the round with this number, among so many levels.
fn damage_of(rng: &mut ChaCha20Rng, round: u32, levels: u32) -> Damage {
    let level = rng.next_u32().checked_rem(levels);
    match (round % 4, level) {
        (1, Some(level)) => Damage::Length(level, 8),
        (2, Some(level)) => Damage::Length(level, 8_u32.wrapping_neg()),
        (3, _) => Damage::Cut,
        _ => Damage::None,
    }
}

#[test]
fn reads_what_is_well_nested(rt: HostRuntime) -> Result<(), Fail> {
    let mut rng = ChaCha20Rng::from_seed([0; 32]);
    let mut read_count = 0_u32;
    for round in 0..1_000 {
        let levels = rng.next_u32() % 41;
        let damage = damage_of(&mut rng, round, levels);
        let bytes = nested(rt.alloc(), &mut rng, levels, damage)?;
        let is_whole = matches!(damage, Damage::None) && levels < 16 && bytes.len() <= 8192;
        assert_read(&rt, rt.alloc(), bytes.as_slice(), is_whole, round);
        read_count = read_count.saturating_add(u32::from(is_whole));
    }
    assert!(rt; read_count > 50, "{read_count} read");
    Ok(())
}

/// The bytes are read to their end where they are whole, and else refused.
fn assert_read(rt: &impl Abort, alloc: Global, bytes: &[u8], is_whole: bool, round: u32) {
    let outcome = size_of(rt, alloc, bytes);
    let is_right = if is_whole {
        matches!(outcome, Ok(size) if size == bytes.len())
    } else {
        outcome.is_err()
    };
    assert!(rt; is_right, "round {round}");
}
