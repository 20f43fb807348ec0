//! A progress file that the server of a run contradicts.
ghost use Rattle.std.specs.Prelude.{◌≡◌, ◌++◌, IfOk, OnOk, map};
ghost use Rattle.kmip_report.specs.Pieces.{line_in};
ghost use Rattle.kmip_trouble.specs.ObstacleLines.{contradicted_line, names_of};

use crate::disagreement::Disagreement;
use kmip_report::{Form, push_contradiction};
use kmip_ttlv::NoMemory;
use std::alloc::Global;

/// About how many keys it is said how the server contradicts (own).
const MOST_TOLD: usize = 20;

/// A progress file that the server of a run contradicts. Nothing was sent that changes anything.
#[derive(Drop)]
pub struct Contradiction {
    pub path: String,
    /// The server of the run, as messages name it.
    pub server: String,
    /// The keys about which the server contradicts the file, in the order of the plan.
    pub keys: Vec<Disagreement>,
}

impl Contradiction {
    /// Reports on standard error the first keys, and what to do.
    pub(crate) fn explain(&self, rt: &HostRuntime) {
        let (path, server) = (&self.path, &self.server);
        for key in self.keys.iter().take(MOST_TOLD) {
            let (name, file, said) = (&key.name, &key.file, &key.server);
            let _ = rt.eprintln(format_args!("{name}: {path} has {file}; {server} has {said}"));
        }
        let others = self.keys.len().saturating_sub(MOST_TOLD);
        if others > 0 {
            let _ = rt.eprintln(format_args!("and {others} more"));
        }
        let _ = rt.eprintln(format_args!(
            "{path} does not match {server}, and nothing was changed there: check the address, or the progress file"
        ));
        let _ = rt.eprintln(format_args!(
            "--afresh: start over, create each key that this server does not have, and keep {path} as {path}.before"
        ));
    }

    /// Appends its line, which has in JSON the names of all keys.
    ///
    /// # Errors
    /// If memory runs out. A part may have been appended then.
    pub(crate) fn push_line(
        &self,
        alloc: Global,
        form: Form,
        text: &mut Vec<u8>,
    ) -> Result<(), NoMemory>
        // What is appended is exactly that line.
        ensures { OnOk result (text.new.items
            ≡ text.old.items ++ line_in form (contradicted_line self.now)) }
    {
        let names = names_of(alloc, self.keys.as_slice())?;
        let mut why = String::new(alloc);
        why.push_str(self.server.as_str())?;
        why.push_str(" contradicts what it says")?;
        let (path, why) = (self.path.as_str(), why.as_str());
        push_contradiction(alloc, form, path, why, names.as_slice(), text)
    }
}

/// The names of the keys about which a server contradicts a progress.
///
/// # Errors
/// If memory runs out.
fn names_of(alloc: Global, keys: &[Disagreement]) -> Result<Vec<&str>, NoMemory>
    ensures { IfOk result (λ names. map (λ name. name.now) names.items ≡ names_of keys.now) }
{
    let mut names = Vec::with_capacity(alloc, keys.len())?;
    for key in keys {
        names.push(key.name.as_str())?;
    }
    Ok(names)
}
