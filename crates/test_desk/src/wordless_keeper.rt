//! A keeper that says nothing of its faults.

use kmip_run_command::Unsaved;
use kmip_runs::{Keeper, SaveFault};
use kmip_ttlv::NoMemory;
use std::alloc::Global;

/// A keeper that says nothing of its faults.
#[derive(Drop)]
pub(crate) struct WordlessKeeper<K> {
    pub(crate) keeper: K,
}

impl<K: Keeper> Keeper for WordlessKeeper<K> {
    ghost kept = { λ wordless. K.kept wordless.keeper };

    fn save(&mut self, alloc: Global, text: &[u8]) -> Result<(), SaveFault> {
        self.keeper.save(alloc, text)
    }

    fn close(&mut self) -> Result<(), SaveFault> {
        self.keeper.close()
    }
}

impl<K> Unsaved for WordlessKeeper<K> {
    fn why(&self, _alloc: Global) -> Result<Option<String>, NoMemory> {
        Ok(None)
    }
}
