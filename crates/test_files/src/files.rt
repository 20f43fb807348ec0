//! What stands in the file.

use crate::asserting::assert_true;
use crate::failing::FailingDisk;
use kmip_files::{LockFault, MOST_PROGRESS_BYTES, ProgressFile, PublicFile, text_of};
use std::cell::Cell;
use std::env;
use std::fs::{self, Files};
use std::io::{self, ErrorKind};
use std::test::Fail;

const BEFORE: &str = "kmip-progress 1\nk1 active 1 31\nend 1\n";

const AFTER: &str = "kmip-progress 1\nk1 active 2 31\nend 1\n";

/// Removes a folder with all that is in it, where it is there.
fn remove(rt: &HostRuntime, path: &str) -> io::Result<()> {
    match fs::remove_dir_all(rt, path) {
        Err(error) if error.kind() != ErrorKind::NotFound => Err(error),
        _ => Ok(()),
    }
}

/// The path of a folder for one test.
fn folder_path(rt: &HostRuntime, name: &str) -> io::Result<String> {
    let beside = env::temp_dir(rt)?;
    let beside = beside.as_str();
    let path = format!(in rt.alloc(); "{beside}/kmip_conformance_files_{name}")?;
    Ok(path)
}

/// A folder for one test, with nothing in it.
fn folder(rt: &HostRuntime, name: &str) -> io::Result<String> {
    let path = folder_path(rt, name)?;
    remove(rt, path.as_str())?;
    fs::create_dir(rt, path.as_str())?;
    Ok(path)
}

/// The path of what has this name in a folder.
fn path_in(rt: &HostRuntime, folder: &str, name: &str) -> io::Result<String> {
    let path = format!(in rt.alloc(); "{folder}/{name}")?;
    Ok(path)
}

/// The path of a progress file, which is not there, in a folder for one test.
fn file_for(rt: &HostRuntime, name: &str) -> io::Result<String> {
    let folder = folder(rt, name)?;
    path_in(rt, folder.as_str(), "progress")
}

/// Makes a link in a folder, and gives its path.
fn link_in(rt: &HostRuntime, folder: &str, name: &str, target: &str) -> io::Result<String> {
    let path = path_in(rt, folder, name)?;
    rt.symlink(target, path.as_str())?;
    Ok(path)
}

/// Writes the progress file at this path.
fn put(rt: &HostRuntime, path: &str, text: &[u8]) -> io::Result<()> {
    ProgressFile::at(rt, path)?.save(text)
}

/// The text in the progress file at this path, if there is one.
fn text_in(rt: &HostRuntime, path: &str) -> io::Result<Option<String>> {
    ProgressFile::at(rt, path)?.read()
}

/// Writes a text to a disk that fails after so many steps, which may be such that `removes` files
/// at any time; whether it could be written.
fn writes(
    rt: &HostRuntime,
    path: &str,
    steps: usize,
    removes: bool,
    text: &str,
) -> io::Result<bool> {
    let left = Cell::new(steps);
    let disk = FailingDisk {
        rt,
        left: &left,
        removes,
    };
    let file = ProgressFile::at(&disk, path)?;
    Ok(file.save(text.as_bytes()).is_ok())
}

/// Whether the file at this path has this text.
fn has_text(rt: &HostRuntime, path: &str, wanted: &str) -> io::Result<bool> {
    match text_in(rt, path)? {
        Some(text) => Ok(text.as_str() == wanted),
        None => Ok(false),
    }
}

/// Whether what has this name in a folder is a link.
fn is_link(rt: &HostRuntime, folder: &str, name: &str) -> io::Result<bool> {
    let path = path_in(rt, folder, name)?;
    Ok(rt.symlink_metadata(path.as_str())?.is_symlink())
}

/// Whether nothing stands at this path.
fn is_free(rt: &HostRuntime, path: &str) -> bool {
    match rt.symlink_metadata(path) {
        Ok(_) => false,
        Err(error) => error.kind() == ErrorKind::NotFound,
    }
}

/// The kind of the failure, where it is one.
fn kind_of<T: Drop>(outcome: io::Result<T>) -> Option<ErrorKind> {
    outcome.err().map(|error| error.kind())
}

/// Why a file that may have so many bytes is not read; none where it is.
fn failure(rt: &HostRuntime, path: &str, most_bytes: u64) -> Option<ErrorKind> {
    kind_of(text_of(rt, path, most_bytes))
}

/// Whether a file, on a disk that fails after so many steps, has one of the texts, and is not written in
/// four steps but in ten.
fn is_whole_after(rt: &HostRuntime, path: &str, steps: usize) -> io::Result<bool> {
    put(rt, path, BEFORE.as_bytes())?;
    let is_written = writes(rt, path, steps, false, AFTER)?;
    let is_new = has_text(rt, path, AFTER)?;
    let is_old = has_text(rt, path, BEFORE)?;
    let is_in_time = if is_written { steps > 4 } else { steps < 10 };
    Ok(is_in_time && (is_new || is_old && !is_written))
}

#[test]
fn is_whole_wherever_the_disk_fails(rt: HostRuntime) -> Result<(), Fail> {
    let path = file_for(&rt, "whole")?;
    for steps in 0..20 {
        let is_right = is_whole_after(&rt, path.as_str(), steps)?;
        assert_true(&rt, is_right, "it has one of the texts, and that in time");
    }
    Ok(())
}

/// Writes a text for other programs to a disk that fails after so many steps; whether it could be
/// written.
fn publishes(rt: &HostRuntime, path: &str, steps: usize, text: &str) -> io::Result<bool> {
    let left = Cell::new(steps);
    let disk = FailingDisk {
        rt,
        left: &left,
        removes: false,
    };
    let file = PublicFile::at(&disk, path)?;
    Ok(file.write(text.as_bytes()).is_ok())
}

/// Whether a file for other programs, on a disk that fails after so many steps, has one of the texts, and
/// is not written in four steps but in ten.
fn is_published_after(rt: &HostRuntime, path: &str, steps: usize) -> io::Result<bool> {
    put(rt, path, BEFORE.as_bytes())?;
    let is_written = publishes(rt, path, steps, AFTER)?;
    let is_new = has_text(rt, path, AFTER)?;
    let is_old = has_text(rt, path, BEFORE)?;
    let is_in_time = if is_written { steps > 4 } else { steps < 10 };
    Ok(is_in_time && (is_new || is_old && !is_written))
}

#[test]
fn a_public_file_is_whole_wherever_the_disk_fails(rt: HostRuntime) -> Result<(), Fail> {
    let path = file_for(&rt, "public")?;
    for steps in 0..20 {
        let is_right = is_published_after(&rt, path.as_str(), steps)?;
        assert_true(&rt, is_right, "it has one of the texts, and that in time");
    }
    Ok(())
}

/// Whether a file in a folder is found at a link to it, and at no other path.
fn is_found_by_a_link(rt: &HostRuntime, folder: &str) -> io::Result<bool> {
    let path = path_in(rt, folder, "progress")?;
    put(rt, path.as_str(), AFTER.as_bytes())?;
    let link = link_in(rt, folder, "link", "progress")?;
    let other = path_in(rt, folder, "other")?;
    let file = PublicFile::at(rt, path.as_str())?;
    Ok(file.is_at(link.as_str())? && !file.is_at(other.as_str())? && file.read()?.is_some())
}

#[test]
fn a_public_file_is_known_by_its_links(rt: HostRuntime) -> Result<(), Fail> {
    let folder = folder(&rt, "public_link")?;
    let is_right = is_found_by_a_link(&rt, folder.as_str())?;
    assert_true(&rt, is_right, "it is at the link, and at no other path");
    Ok(())
}

#[test]
fn is_absent_or_whole_at_first(rt: HostRuntime) -> Result<(), Fail> {
    let folder = folder(&rt, "first")?;
    for steps in 0..10 {
        let is_right = is_absent_or_whole_after(&rt, folder.as_str(), steps)?;
        assert_true(&rt, is_right, "it is not there, or whole");
    }
    Ok(())
}

/// Whether a new file, on a disk that fails after so many steps, is not there or has its whole text.
fn is_absent_or_whole_after(rt: &HostRuntime, folder: &str, steps: usize) -> io::Result<bool> {
    let path = format!(in rt.alloc(); "{folder}/progress{steps}")?;
    let was_free = is_free(rt, path.as_str());
    let is_written = writes(rt, path.as_str(), steps, false, AFTER)?;
    let is_whole = has_text(rt, path.as_str(), AFTER)?;
    let is_absent = is_free(rt, path.as_str()) && !is_written;
    Ok(was_free && (is_whole || is_absent))
}

/// Whether a file, on a disk that is full after so many steps, is put in place by the fourth and written
/// in six, and nothing is left at the path beside it.
fn is_put_in_place(rt: &HostRuntime, path: &str, beside: &str, steps: usize) -> io::Result<bool> {
    let wanted = if steps > 3 { AFTER } else { BEFORE };
    put(rt, path, BEFORE.as_bytes())?;
    let is_written = writes(rt, path, steps, true, AFTER)?;
    let is_wanted = has_text(rt, path, wanted)?;
    Ok(is_wanted && is_written == (steps > 5) && is_free(rt, beside))
}

/// The same wherever the disk is full.
fn is_put_in_place_each_time(rt: &HostRuntime, path: &str, beside: &str) -> io::Result<bool> {
    for steps in 0..10 {
        if !is_put_in_place(rt, path, beside, steps)? {
            return Ok(false);
        }
    }
    Ok(true)
}

#[test]
fn leaves_nothing_beside_it_where_the_disk_is_full(rt: HostRuntime) -> Result<(), Fail> {
    let folder = folder(&rt, "full")?;
    let path = path_in(&rt, folder.as_str(), "progress")?;
    let beside = path_in(&rt, folder.as_str(), "progress.new")?;
    let is_right = is_put_in_place_each_time(&rt, path.as_str(), beside.as_str())?;
    assert_true(&rt, is_right, "it is put in place, and nothing is left");
    Ok(())
}

/// Whether a text is written on a disk that fails after so many steps, and whether it is then made to last.
fn writes_and_closes(rt: &HostRuntime, path: &str, steps: usize) -> io::Result<(bool, bool)> {
    let left = Cell::new(steps);
    let disk = FailingDisk {
        rt,
        left: &left,
        removes: true,
    };
    let file = ProgressFile::at(&disk, path)?;
    let is_written = file.write(AFTER.as_bytes()).is_ok();
    Ok((is_written, is_written && file.close().is_ok()))
}

/// A text is written in four steps. To make it last takes two more: the folder is opened and synced.
#[test]
fn a_written_text_is_made_to_last_by_a_close(rt: HostRuntime) -> Result<(), Fail> {
    let path = file_for(&rt, "close")?;
    for steps in 0..8 {
        let is_right = writes_and_closes(&rt, path.as_str(), steps)? == (steps > 3, steps > 5);
        assert_true(&rt, is_right, "four steps, and two more");
    }
    Ok(())
}

#[test]
fn a_link_stays_and_its_file_gets_the_text(rt: HostRuntime) -> Result<(), Fail> {
    let folder = folder(&rt, "link")?;
    let path = path_in(&rt, folder.as_str(), "progress")?;
    put(&rt, path.as_str(), BEFORE.as_bytes())?;
    let is_right = is_written_over_a_link(&rt, folder.as_str(), path.as_str())?;
    assert_true(&rt, is_right, "the link stays, and the file has the text");
    Ok(())
}

#[test]
fn a_link_to_a_whole_path_is_followed(rt: HostRuntime) -> Result<(), Fail> {
    let folder = folder(&rt, "whole_path")?;
    let path = path_in(&rt, folder.as_str(), "progress")?;
    let is_right = is_written_over_a_link(&rt, folder.as_str(), path.as_str())?;
    assert_true(&rt, is_right, "the link stays, and there is a file");
    Ok(())
}

/// Whether what is written over a link to a whole path stands there, and the link stays.
fn is_written_over_a_link(rt: &HostRuntime, folder: &str, path: &str) -> io::Result<bool> {
    let link = link_in(rt, folder, "link", path)?;
    put(rt, link.as_str(), AFTER.as_bytes())?;
    Ok(is_link(rt, folder, "link")? && has_text(rt, path, AFTER)?)
}

/// Makes the folder `inner` in a folder, and a link in each: the first leads to the second, and this
/// to a file that is not there yet. The path of the first.
fn links_in(rt: &HostRuntime, folder: &str) -> io::Result<String> {
    let inner = path_in(rt, folder, "inner")?;
    fs::create_dir(rt, inner.as_str())?;
    link_in(rt, inner.as_str(), "second", "../progress")?;
    link_in(rt, folder, "first", "inner/second")
}

#[test]
fn links_to_a_file_that_is_not_there_yet_stay(rt: HostRuntime) -> Result<(), Fail> {
    let folder = folder(&rt, "links")?;
    let is_locked = is_locked_over_links(&rt, folder.as_str())?;
    assert_true(&rt, is_locked, "nobody has it by its own path meanwhile");
    let stay = do_links_stay(&rt, folder.as_str())?;
    assert_true(&rt, stay, "the links stay");
    let is_there = is_where_links_lead(&rt, folder.as_str())?;
    assert_true(&rt, is_there, "the file is where they lead");
    Ok(())
}

/// Whether a file that is not there is locked over links, so that nobody has it by its own path; it
/// is written then.
fn is_locked_over_links(rt: &HostRuntime, folder: &str) -> io::Result<bool> {
    let link = links_in(rt, folder)?;
    let file = ProgressFile::at(rt, link.as_str())?;
    let was_there = file.read()?.is_some();
    Ok(is_locked_meanwhile(rt, &file, folder)? && !was_there)
}

/// Whether a file is locked while it is written, so that nobody has it by its own path in the folder.
fn is_locked_meanwhile(
    rt: &HostRuntime,
    file: &ProgressFile<'_, HostRuntime>,
    folder: &str,
) -> io::Result<bool> {
    let lock = file.lock();
    file.save(AFTER.as_bytes())?;
    Ok(is_in_use(rt, folder)? && lock.is_ok())
}

/// Whether another run has the progress file in a folder.
fn is_in_use(rt: &HostRuntime, folder: &str) -> io::Result<bool> {
    let path = path_in(rt, folder, "progress")?;
    let file = ProgressFile::at(rt, path.as_str())?;
    Ok(matches!(file.lock(), Err(LockFault::InUse)))
}

/// Whether both links are still links.
fn do_links_stay(rt: &HostRuntime, folder: &str) -> io::Result<bool> {
    Ok(is_link(rt, folder, "first")? && is_link(rt, folder, "inner/second")?)
}

/// Whether the file that is written stands where the links lead, and is none of them.
fn is_where_links_lead(rt: &HostRuntime, folder: &str) -> io::Result<bool> {
    let path = path_in(rt, folder, "progress")?;
    Ok(!is_link(rt, folder, "progress")? && has_text(rt, path.as_str(), AFTER)?)
}

#[test]
fn links_in_a_circle_are_no_file(rt: HostRuntime) -> Result<(), Fail> {
    let folder = folder(&rt, "circle")?;
    let one = link_in(&rt, folder.as_str(), "one", "other")?;
    let _other = link_in(&rt, folder.as_str(), "other", "one")?;
    let failure = kind_of(ProgressFile::at(&rt, one.as_str()));
    assert_true(
        &rt,
        failure == Some(ErrorKind::FilesystemLoop),
        "it is a circle",
    );
    Ok(())
}

/// Whether the first run has the lock of a file, which it writes, and another has not.
fn has_one_run(file: &ProgressFile<'_, HostRuntime>) -> io::Result<bool> {
    let lock = file.lock();
    file.save(BEFORE.as_bytes())?;
    let is_in_use = matches!(file.lock(), Err(LockFault::InUse));
    Ok(lock.is_ok() && is_in_use)
}

#[test]
fn is_of_one_run_at_a_time(rt: HostRuntime) -> Result<(), Fail> {
    let path = file_for(&rt, "lock")?;
    let file = ProgressFile::at(&rt, path.as_str())?;
    let is_right = has_one_run(&file)?;
    assert_true(&rt, is_right, "the first run has the lock, and no other");
    assert_true(&rt, file.lock().is_ok(), "no other run has it any more");
    Ok(())
}

/// Whether a file can't be locked, and its lock would be the file at this path.
fn has_failing_lock(rt: &HostRuntime, path: &str, lock_path: &str) -> io::Result<bool> {
    let file = ProgressFile::at(rt, path)?;
    let is_beside = file.lock_path()?.as_str() == lock_path;
    Ok(matches!(file.lock(), Err(LockFault::Io(_))) && is_beside)
}

#[test]
fn a_lock_in_no_folder_is_a_failure(rt: HostRuntime) -> Result<(), Fail> {
    let folder = folder(&rt, "no_folder")?;
    let path = path_in(&rt, folder.as_str(), "missing/progress")?;
    let wanted = path_in(&rt, folder.as_str(), "missing/progress.lock")?;
    let is_right = has_failing_lock(&rt, path.as_str(), wanted.as_str())?;
    assert_true(&rt, is_right, "it can't be locked by the file beside it");
    Ok(())
}

#[test]
fn is_no_text(rt: HostRuntime) -> Result<(), Fail> {
    let path = file_for(&rt, "no_text")?;
    put(&rt, path.as_str(), &[0xff, 0xfe])?;
    assert_true(&rt, text_in(&rt, path.as_str()).is_err(), "it is not read");
    Ok(())
}

/// Writes a text of so many bytes.
fn put_long(rt: &HostRuntime, path: &str, size: usize) -> io::Result<()> {
    let text = vec![in rt.alloc(); b'x'; size]?;
    put(rt, path, text.as_slice())
}

#[test]
fn is_read_up_to_its_limit(rt: HostRuntime) -> Result<(), Fail> {
    let path = file_for(&rt, "limit")?;
    let path = path.as_str();
    let most = MOST_PROGRESS_BYTES as usize;
    put_long(&rt, path, most)?;
    assert_true(&rt, length_of(&rt, path)? == most, "it is read whole");
    put_long(&rt, path, most + 1)?;
    let failure = kind_of(text_in(&rt, path));
    assert_true(
        &rt,
        failure == Some(ErrorKind::FileTooLarge),
        "it is too long",
    );
    Ok(())
}

/// The bytes of the longest progress: of 1,000 keys, whose names and identifiers take 64 bytes each.
const LONGEST_PROGRESS: usize = 208_025;

#[test]
fn holds_the_longest_progress(rt: HostRuntime) -> Result<(), Fail> {
    let path = file_for(&rt, "longest")?;
    let path = path.as_str();
    put_long(&rt, path, LONGEST_PROGRESS)?;
    let is_whole = length_of(&rt, path)? == LONGEST_PROGRESS;
    assert_true(&rt, is_whole, "it is read whole");
    Ok(())
}

/// How many bytes the text of the file has.
fn length_of(rt: &HostRuntime, path: &str) -> io::Result<usize> {
    match text_in(rt, path)? {
        Some(text) => Ok(text.len()),
        None => Ok(0),
    }
}

/// The text of a file, how many bytes it may have, and why it is not read then.
const LIMITS: [(&[u8], u64, Option<ErrorKind>); 5] = [
    (b"a\xc3\xa9", 3, None),
    (b"a\xc3\xa9", 2, Some(ErrorKind::FileTooLarge)),
    (b"a\xc3\xa9", 1, Some(ErrorKind::FileTooLarge)),
    // No text, where that is seen: that it is too long is seen first.
    (b"a\xc3", 2, Some(ErrorKind::InvalidData)),
    (b"a\xc3", 1, Some(ErrorKind::FileTooLarge)),
];

/// Whether each of these texts is read, or is not for its reason.
fn are_limits_kept(
    rt: &HostRuntime,
    path: &str,
    limits: &[(&[u8], u64, Option<ErrorKind>)],
) -> io::Result<bool> {
    for (text, most_bytes, wanted) in limits {
        put(rt, path, text)?;
        if failure(rt, path, *most_bytes) != *wanted {
            return Ok(false);
        }
    }
    Ok(true)
}

#[test]
fn is_too_long_before_it_is_no_text(rt: HostRuntime) -> Result<(), Fail> {
    let path = file_for(&rt, "too_long")?;
    let is_right = are_limits_kept(&rt, path.as_str(), &LIMITS)?;
    assert_true(&rt, is_right, "it is too long before it is no text");
    Ok(())
}
