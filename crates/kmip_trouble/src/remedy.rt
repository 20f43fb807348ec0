//! What lets a file be written again.
use std::fmt::{self, Display, Formatter};
use std::io::ErrorKind;

/// What lets a file be written again.
#[derive(Clone, Copy)]
pub(crate) enum Remedy {
    Folder,
    Permissions,
    Mount,
    Space,
}

impl Remedy {
    /// What helps against an error of this kind, if that is known.
    pub(crate) fn of(kind: ErrorKind) -> Option<Remedy> {
        match kind {
            ErrorKind::NotFound => Some(Remedy::Folder),
            ErrorKind::PermissionDenied => Some(Remedy::Permissions),
            ErrorKind::ReadOnlyFilesystem => Some(Remedy::Mount),
            ErrorKind::StorageFull | ErrorKind::QuotaExceeded => Some(Remedy::Space),
            _ => None,
        }
    }
}

impl Display for Remedy {
    fn fmt<W: fmt::Write>(&self, f: &mut Formatter<W>) -> fmt::Result {
        f.write_str(match self {
            Remedy::Folder => "check that its folder exists",
            Remedy::Permissions => "fix the permissions",
            Remedy::Mount => "mount the file system for writing",
            Remedy::Space => "free some space",
        })
    }
}
