//! How a server contradicts a progress, in words.

use kmip_account::Account;
use kmip_client::{Clash, Client};
use kmip_look::Looked;
use kmip_look_command::{state_name, why_text};
use kmip_plan::{Key, Step, chain_length, step_place};
use kmip_refresh::{Agreement, KeyLook};
use kmip_trouble::{Contradiction, Disagreement};
use kmip_ttlv::{NoMemory, Text, plain_text};
use std::alloc::Global;

/// About how many keys without an answer it is said why (own).
const MOST_TOLD: usize = 20;

/// The contradiction of the server of this name, by what it said about the keys that the client knows. The client
/// knows what the progress at the path says.
///
/// # Errors
/// If memory runs out.
pub(crate) fn contradiction(
    alloc: Global,
    path: &str,
    server: String,
    client: &Client<'_>,
    looks: &[KeyLook],
) -> Result<Contradiction, NoMemory> {
    let mut keys = Vec::new(alloc);
    for look in looks {
        if matches!(look.agreement, Agreement::Contradicts | Agreement::Gone) {
            if let Some(key) = disagreement(alloc, client, look)? {
                keys.push(key)?;
            }
        }
    }
    Ok(Contradiction {
        path: String::from_str(alloc, path)?,
        server,
        keys,
    })
}

/// What the progress says about a key, and what the server said; none if the plan has no key there.
fn disagreement(
    alloc: Global,
    client: &Client<'_>,
    look: &KeyLook,
) -> Result<Option<Disagreement>, NoMemory> {
    let (place, count) = (look.place, client.plan().count());
    if place >= count {
        return Ok(None);
    }
    let (done, identifier) = (client.done(place), client.identifier(place));
    let key = &client.plan().keys()[place];
    Ok(Some(Disagreement {
        name: String::from_str(alloc, key.attrs.name.as_str())?,
        file: file_text(alloc, key, identifier, done)?,
        server: said_text(alloc, key, look)?,
    }))
}

/// What a progress says about a key, as `object 17 after 2 of 3 steps`.
fn file_text(
    alloc: Global,
    key: &Key,
    identifier: Option<&Text>,
    done: usize,
) -> Result<String, NoMemory> {
    let object = object_text(alloc, identifier)?;
    let destroy = step_place(key, Step::Destroy);
    let text = if 0 < destroy && destroy <= done {
        format!(in alloc; "{object}, destroyed")?
    } else {
        let steps = chain_length(key);
        format!(in alloc; "{object} after {done} of {steps} steps")?
    };
    Ok(text)
}

/// What the server said about a key, as `object 22 in the state PreActive`.
fn said_text(alloc: Global, key: &Key, look: &KeyLook) -> Result<String, NoMemory> {
    let known = &look.looked.known;
    let text = match (look.agreement, known.clash) {
        (Agreement::Gone, _) => String::from_str(
            alloc,
            "no object of this name (some servers forget destroyed objects)",
        )?,
        (_, Some(Clash::TwoObjects)) => String::from_str(alloc, "two objects of this name")?,
        (_, Some(Clash::Attributes)) => {
            let object = object_text(alloc, known.identifier.as_ref())?;
            format!(in alloc; "{object} with other attributes than the plan")?
        }
        (_, Some(Clash::State)) => {
            let object = state_text(alloc, &look.looked)?;
            format!(in alloc; "{object}, which does not lead to {}", key.target.word())?
        }
        (_, None) => match known.identifier {
            Some(_) => state_text(alloc, &look.looked)?,
            None => String::from_str(alloc, "no object of this name")?,
        },
    };
    Ok(text)
}

/// An object, as `object 17`, in plain characters.
fn object_text(alloc: Global, identifier: Option<&Text>) -> Result<String, NoMemory> {
    let text = match identifier {
        Some(identifier) => {
            let identifier = plain_text(alloc, identifier.as_str())?;
            format!(in alloc; "object {identifier}")?
        }
        None => String::from_str(alloc, "no object")?,
    };
    Ok(text)
}

/// An object and its state, as `object 22 in the state PreActive`.
fn state_text(alloc: Global, looked: &Looked) -> Result<String, NoMemory> {
    let object = object_text(alloc, looked.known.identifier.as_ref())?;
    let state = match &looked.shown {
        Some(shown) => shown.state,
        None => None,
    };
    let text = match state {
        Some(number) => {
            let state = state_name(alloc, number)?;
            format!(in alloc; "{object} in the state {state}")?
        }
        None => format!(in alloc; "{object} in an unknown state")?,
    };
    Ok(text)
}

/// Reports the keys that the progress says are destroyed, and that the server does not find. What there is no
/// memory for is left out.
pub(crate) fn report_gone(account: &Account<'_>, looks: &[KeyLook]) {
    let alloc = account.rt().alloc();
    for look in looks {
        if look.agreement != Agreement::Gone {
            continue;
        }
        let Some(key) = account.plan().keys().get(look.place) else {
            continue;
        };
        let name = key.attrs.name.as_str();
        let line = format!(in alloc;
            "{name}: destroyed by the progress file; the server has no object of this name (some servers forget destroyed objects)"
        );
        if let Ok(line) = line {
            account.log().report(line.as_str());
        }
    }
}

/// Reports the keys about which the server did not say whether it agrees. What there is no memory for is left out.
pub(crate) fn report_unanswered(account: &Account<'_>, looks: &[KeyLook]) {
    let mut count = 0usize;
    for look in looks {
        if look.agreement == Agreement::Unanswered {
            if count < MOST_TOLD {
                let _ = report_why(account, look);
            }
            count = count.saturating_add(1);
        }
    }
    let others = count.saturating_sub(MOST_TOLD);
    let log = account.log();
    if others > 0 {
        if let Ok(line) = format!(in account.rt().alloc(); "and {others} more") {
            log.report(line.as_str());
        }
    }
    log.report("the progress file could not be checked, and nothing was changed: run again");
}

/// Reports why the server did not say whether it agrees about a key.
fn report_why(account: &Account<'_>, look: &KeyLook) -> Result<(), NoMemory> {
    let Some(key) = account.plan().keys().get(look.place) else {
        return Ok(());
    };
    let alloc = account.rt().alloc();
    let name = key.attrs.name.as_str();
    let why = why_text(alloc, look.looked.why)?;
    let line = format!(in alloc; "{name}: not told: {why}")?;
    account.log().report(line.as_str());
    Ok(())
}
