//! How a key of a plan stands.
ghost use Rattle.std.specs.Prelude.{◌≡◌, IfOk, map};
ghost use Rattle.kmip_plan_report.specs.Standings.{standing_of, standings};

use kmip_client::Verdict;
use kmip_plan::Key;
use kmip_progress::Known;
use kmip_ttlv::NoMemory;
use std::alloc::Global;

/// How a key of a plan stands.
#[derive(Drop)]
pub struct KeyStanding<'a> {
    /// The key.
    pub key: &'a Key,
    /// What is known of it.
    pub known: &'a Known,
    /// The verdict on it.
    pub verdict: Verdict,
}

/// How each key stands, in the order of the plan, up to where one of the three lists ends.
///
/// # Errors
/// Where there is no memory.
pub fn standings<'a>(
    alloc: Global,
    keys: &'a [Key],
    knowns: &'a [Known],
    verdicts: &[Verdict],
) -> Result<Vec<KeyStanding<'a>>, NoMemory>
    // Each is of the key, what is known and the verdict at one place of the lists.
    ensures { IfOk result (λ made. map standing_of made.items
        ≡ standings keys.now knowns.now verdicts.now) }
{
    let mut made = Vec::new(alloc);
    let mut knowns_left = knowns;
    let mut verdicts_left = verdicts;
    for key in keys {
        let Some((known, knowns_behind)) = knowns_left.split_first() else {
            break;
        };
        let Some((verdict, verdicts_behind)) = verdicts_left.split_first() else {
            break;
        };
        made.push(KeyStanding {
            key,
            known,
            verdict: *verdict,
        })?;
        knowns_left = knowns_behind;
        verdicts_left = verdicts_behind;
    }
    Ok(made)
}
