//! A progress file, and the keys that it was saved for.

use kmip_desk::Origin;
use kmip_files::ProgressFile;
use kmip_plan::Key;
use kmip_trouble::{Cannot, Obstacle, Trouble};

/// The progress file at this path.
///
/// # Errors
/// If its links cannot be followed.
pub fn progress_file_at<'a>(
    rt: &'a HostRuntime,
    path: &'a str,
) -> Result<ProgressFile<'a, HostRuntime>, Trouble> {
    ProgressFile::at(rt, path).map_err(|error| Trouble::at(rt, Cannot::Read, path, error))
}

/// Refuses a progress file that was saved for other attributes than those of these keys.
///
/// # Errors
/// If it was saved for others.
pub(crate) fn judge_attributes(
    file: &ProgressFile<'_, HostRuntime>,
    origin: &Origin,
    keys: &[Key],
) -> Result<(), Trouble> {
    let rt = file.system();
    match origin.difference(rt.alloc(), keys)? {
        Some(difference) => {
            let path = String::from_str(rt.alloc(), file.given_path())?;
            Err(Trouble::from(Obstacle::OtherAttributes(path, difference)))
        }
        None => Ok(()),
    }
}
