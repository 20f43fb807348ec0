//! The words in the line of a key that take memory.
ghost use Rattle.std.specs.Prelude.{◌≡◌, IfOk, option_map, string_bytes};
ghost use Rattle.kmip_look_command.specs.LookReport.{numbers_told};
ghost use Rattle.kmip_look_command.specs.LookWords.{algorithm_name, state_name, told_usage};
ghost use Rattle.kmip_look_command.specs.Private.{AreWordsOf};

use crate::standing::Standing;
use crate::words::{algorithm_name, state_name};
use kmip_look::{Looked, Shown};
use kmip_plan::Key;
use kmip_trace::usage_text;
use kmip_ttlv::NoMemory;
use std::alloc::Global;

/// The words in the line of a key that take memory.
#[derive(Drop)]
pub struct LineWords {
    /// The name of the state that was told.
    pub state: Option<String>,
    /// The words of the steps that are left.
    pub to_do: Vec<&'static str>,
    /// The name of the algorithm that was told.
    pub algorithm: Option<String>,
    /// The words of the usage mask that was told.
    pub usage: String,
    /// Why it was not told how the key stands.
    pub why: Option<String>,
}

impl LineWords {
    /// The words in the line of a key.
    ///
    /// # Errors
    /// If memory runs out.
    pub fn of(alloc: Global, key: &Key, looked: &Looked) -> Result<LineWords, NoMemory>
        ensures { IfOk result (λ words. AreWordsOf words key.now looked.now) }
    {
        let standing = Standing::of(key, looked);
        let told = numbers_told(&looked.shown);
        let state = state_told(alloc, told.state)?;
        let to_do = standing.steps_left(alloc, key, looked.known.done)?;
        let algorithm = algorithm_told(alloc, told.algorithm)?;
        let usage = usage_told(alloc, told.usage)?;
        let why = standing.why_not_told(alloc, looked.why)?;
        Ok(LineWords {
            state,
            to_do,
            algorithm,
            usage,
            why,
        })
    }
}

/// The numbers that were told of an object, and none of them if nothing was told.
pub(crate) fn numbers_told(shown: &Option<Shown>) -> Shown
    ensures { result ≡ numbers_told shown.now }
{
    match shown {
        Some(shown) => *shown,
        None => Shown {
            object_type: None,
            algorithm: None,
            length: None,
            usage: None,
            state: None,
        },
    }
}

/// The name of the state that was told, if one was.
fn state_told(alloc: Global, state: Option<u32>) -> Result<Option<String>, NoMemory>
    ensures { IfOk result (λ name. option_map string_bytes name ≡ option_map state_name state) }
{
    match state {
        Some(number) => Ok(Some(state_name(alloc, number)?)),
        None => Ok(None),
    }
}

/// The name of the algorithm that was told, if one was.
fn algorithm_told(alloc: Global, algorithm: Option<u32>) -> Result<Option<String>, NoMemory>
    ensures { IfOk result (λ name.
        option_map string_bytes name ≡ option_map algorithm_name algorithm) }
{
    match algorithm {
        Some(number) => Ok(Some(algorithm_name(alloc, number)?)),
        None => Ok(None),
    }
}

/// The words of the usage mask that was told, and a dash if none was.
fn usage_told(alloc: Global, usage: Option<i32>) -> Result<String, NoMemory>
    ensures { IfOk result (λ words. string_bytes words ≡ told_usage usage) }
{
    match usage {
        Some(mask) => usage_text(alloc, mask),
        None => Ok(String::from_str(alloc, " -")?),
    }
}
