//! Why a keeper could not do its work.
use kmip_files::MachineDisk;
use kmip_runs::FileKeeper;
use std::io::Error;

/// Why a keeper could not do its work.
pub trait HasFailures {
    /// Why the file could not be written, the last time.
    fn save_failure(&self) -> Option<&Error>;

    /// Why the file could not be made to last, the last time.
    fn close_failure(&self) -> Option<&Error>;
}

impl<'a> HasFailures for FileKeeper<MachineDisk<'a, HostRuntime>> {
    fn save_failure(&self) -> Option<&Error> {
        FileKeeper::save_failure(self)
    }

    fn close_failure(&self) -> Option<&Error> {
        FileKeeper::close_failure(self)
    }
}
