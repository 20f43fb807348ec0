//! The keeper of a progress file, which reports why the file could not be written.
use crate::has_failures::HasFailures;
use kmip_account::Account;
use kmip_files::{MachineDisk, ProgressFile};
use kmip_run_command::Unsaved;
use kmip_runs::{FileKeeper, Keeper, SaveFault};
use kmip_trouble::{Cannot, tell_cause};
use kmip_ttlv::NoMemory;
use std::alloc::Global;
use std::io::Error;

/// The keeper of the progress file of a run on this machine.
pub type MachineKeeper<'a> = ProgressKeeper<'a, FileKeeper<MachineDisk<'a, HostRuntime>>>;

/// A keeper that reports each failure of the keeper within on standard error. As a `Keeper` it has the clauses
/// of that trait by those of the keeper within: `FileKeeper` is proved over every disk that keeps the rules.
/// That this machine's disk does is a premise.
#[derive(Drop)]
pub struct ProgressKeeper<'a, K> {
    keeper: K,
    file: &'a ProgressFile<'a, HostRuntime>,
    account: &'a Account<'a>,
}

impl<'a> MachineKeeper<'a> {
    /// Keeps what is known in this file. `is_new` says that there is none yet. Takes no memory.
    pub fn of(
        file: &'a ProgressFile<'a, HostRuntime>,
        account: &'a Account<'a>,
        is_new: bool,
    ) -> Self {
        ProgressKeeper {
            keeper: FileKeeper::new(file.disk(), is_new),
            file,
            account,
        }
    }

    /// How often the file could not be written, or not made to last, up to 2^64 - 1.
    pub fn refusals(&self) -> u64 {
        self.keeper.refusals()
    }
}

impl<'a, K: HasFailures> ProgressKeeper<'a, K> {
    /// The account of the run.
    pub fn account(&self) -> &'a Account<'a> {
        self.account
    }

    /// Reports why the file could not be written.
    fn report_save(&self) {
        if let Some(error) = self.keeper.save_failure() {
            self.report(Cannot::Save, error);
        }
    }

    /// Reports why the file could not be made to last. If it could not be written, that was reported already.
    fn report_close(&self) {
        if self.keeper.save_failure().is_some() {
            return;
        }
        if let Some(error) = self.keeper.close_failure() {
            self.report(Cannot::Last, error);
        }
    }

    /// Reports a failure at the file, or at a folder that is where the next one is written.
    fn report(&self, cannot: Cannot, error: &Error) {
        self.account.end_line();
        let rt = self.file.system();
        match self.file.folder_beside() {
            Some(folder) => tell_cause(rt, folder, cannot, error),
            None => tell_cause(rt, self.file.given_path(), cannot, error),
        }
    }
}

impl<'a, K: HasFailures> Unsaved for ProgressKeeper<'a, K> {
    fn why(&self, alloc: Global) -> Result<Option<String>, NoMemory> {
        match self.keeper.save_failure() {
            Some(error) => Ok(Some(format!(in alloc; "{error}")?)),
            None => Ok(None),
        }
    }
}

impl<'a, K: Keeper + HasFailures> Keeper for ProgressKeeper<'a, K> {
    ghost kept = { λ progress. K.kept progress.keeper };

    fn save(&mut self, alloc: Global, text: &[u8]) -> Result<(), SaveFault> {
        let saved = self.keeper.save(alloc, text);
        if let Err(SaveFault::Output) = saved {
            self.report_save();
        }
        saved
    }

    fn close(&mut self) -> Result<(), SaveFault> {
        let closed = self.keeper.close();
        if closed.is_err() {
            self.report_close();
        }
        closed
    }
}
