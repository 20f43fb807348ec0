//! How much a run wrote and kept, and the ends of that, where the whole is long.

use kmip_run_command::Unsaved;
use kmip_runs::{Keeper, SaveFault};
use kmip_ttlv::NoMemory;
use std::alloc::{AllocError, Global};
use std::str::from_utf8;
use std::test::Fail;

/// Counts the texts that it is given, and their bytes, and has the last of them.
#[derive(Drop)]
pub(crate) struct Tally {
    texts: usize,
    bytes: usize,
    last: Vec<u8>,
}

impl Tally {
    /// No text yet.
    pub(crate) fn new(alloc: Global) -> Tally {
        Tally {
            texts: 0,
            bytes: 0,
            last: Vec::new(alloc),
        }
    }

    /// Writes how many texts were given, and of the last one what `push_short` writes.
    pub(crate) fn push(&self, text: &mut String) -> Result<(), Fail> {
        writeln!(text, "kept {} texts of {} bytes", self.texts, self.bytes)?;
        push_short(text, "last text", self.last.as_slice())
    }
}

/// What was saved before cannot be read back: nothing is claimed of it.
impl Keeper for Tally {
    ghost use Rattle.kmip_runs.specs.Private.{unclaimed};

    ghost kept = { λ tally. unclaimed 0 };

    fn save(&mut self, _alloc: Global, text: &[u8]) -> Result<(), SaveFault> {
        self.last.clear();
        let Ok(()) = self.last.extend_from_slice(text) else {
            return Err(SaveFault::NoMemory);
        };
        self.texts = self.texts.saturating_add(1);
        self.bytes = self.bytes.saturating_add(text.len());
        Ok(())
    }

    fn close(&mut self) -> Result<(), SaveFault> {
        Ok(())
    }
}

/// Writes how many lines and bytes there are, a checksum of them, and the last two lines.
pub(crate) fn push_short(text: &mut String, name: &str, bytes: &[u8]) -> Result<(), Fail> {
    let lines = from_utf8(bytes)?;
    let count = lines.lines().count();
    let sum = checksum(bytes);
    let size = bytes.len();
    writeln!(text, "{name}: {count} lines, {size} bytes, checksum {sum}")?;
    push_ends(text, lines, count)?;
    Ok(())
}

/// Writes the last two of so many lines.
fn push_ends(text: &mut String, lines: &str, count: usize) -> Result<(), AllocError> {
    for line in lines.lines().skip(count.saturating_sub(2)) {
        writeln!(text, "{line}")?;
    }
    Ok(())
}

/// Each byte, added to 31 times what the bytes before it give, modulo 2^64.
fn checksum(text: &[u8]) -> u64 {
    let mut sum = 0u64;
    for byte in text {
        sum = sum.wrapping_mul(31).wrapping_add(u64::from(*byte));
    }
    sum
}

/// The system says nothing of it.
impl Unsaved for Tally {
    fn why(&self, _alloc: Global) -> Result<Option<String>, NoMemory> {
        Ok(None)
    }
}
