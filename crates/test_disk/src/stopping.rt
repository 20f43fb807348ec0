//! A disk that stops at each call in turn.
//!
//! Each write takes four calls: the file beside is made, written and synced, and renamed. So of twelve calls
//! for three texts the fourth, the eighth and the last change what stands there. The thirteenth syncs the
//! folder.

use crate::asserting::assert_stands;
use kmip_disk::{Disk, MemoryDisk, MemoryFault, WholeFile};
use std::alloc::Global;
use std::process::Abort;
use std::test::Fail;

/// What stands there after so many of the three writes.
const STANDS: [Option<&str>; 4] = [None, Some("one"), Some("two"), Some("three")];

/// Three texts are written, and the file is closed, on a disk that stops after so many calls.
fn write_three(alloc: Global, calls: usize) -> Result<WholeFile<MemoryDisk>, MemoryFault> {
    let mut file = WholeFile {
        disk: MemoryDisk::new(alloc, calls),
    };
    let texts = vec![in alloc;
        b"one".to_vec(alloc)?,
        b"two".to_vec(alloc)?,
        b"three".to_vec(alloc)?,
    ]?;
    if file.write_each(texts.as_slice()).is_ok() {
        let _ = file.close();
    }
    Ok(file)
}

/// After a kill the file has the text of the last rename. A next run finds it, and writes on, over a file that
/// is left beside it.
#[test]
fn a_killed_run_leaves_a_whole_text(rt: HostRuntime) -> Result<(), Fail> {
    let alloc = rt.alloc();
    for calls in 0..=13 {
        let mut file = write_three(alloc, calls)?;
        file.disk.restart(5);
        assert_stands(&rt, alloc, &file, STANDS[calls / 4], calls)?;
        file.write(b"four")?;
        file.close()?;
        file.disk.restart(1);
        assert_stands(&rt, alloc, &file, Some("four"), calls)?;
    }
    Ok(())
}

/// After a crash the file has the text of any rename so far, or is absent as at first. Once it was closed, it
/// has the last one. A next run goes on from each of these.
#[test]
fn a_crash_leaves_a_whole_text(rt: HostRuntime) -> Result<(), Fail> {
    let alloc = rt.alloc();
    for calls in 0..13 {
        let file = write_three(alloc, calls)?;
        assert_eq!(rt; file.disk.outcomes(), calls / 4 + 1, "at {calls}");
        for which in 0..=calls / 4 {
            go_on_after_crash(&rt, alloc, &file.disk, which, STANDS[which])?;
        }
    }
    let file = write_three(alloc, 13)?;
    assert_eq!(rt; file.disk.outcomes(), 1);
    go_on_after_crash(&rt, alloc, &file.disk, 0, Some("three"))?;
    Ok(())
}

/// What a crash left is read, and a run goes on from it to its end.
fn go_on_after_crash(
    rt: &impl Abort,
    alloc: Global,
    disk: &MemoryDisk,
    which: usize,
    text: Option<&str>,
) -> Result<(), MemoryFault> {
    let mut file = WholeFile {
        disk: disk.after_crash(which, 6)?,
    };
    assert_stands(rt, alloc, &file, text, which)?;
    file.save(b"four")?;
    let after = WholeFile {
        disk: file.disk.after_crash(0, 1)?,
    };
    assert_stands(rt, alloc, &after, Some("four"), which)
}

/// Of bytes that were not synced half are left, and the rename that no folder sync followed is undone or not.
#[test]
fn bytes_that_are_not_synced_are_torn(rt: HostRuntime) -> Result<(), Fail> {
    let alloc = rt.alloc();
    let mut disk = MemoryDisk::new(alloc, 3);
    disk.create_beside()?;
    disk.write_beside(b"abcd")?;
    disk.rename()?;
    let undone = WholeFile {
        disk: disk.after_crash(0, 1)?,
    };
    assert_stands(&rt, alloc, &undone, None, 0)?;
    let torn = WholeFile {
        disk: disk.after_crash(1, 1)?,
    };
    assert_stands(&rt, alloc, &torn, Some("ab"), 1)?;
    Ok(())
}

/// The text that was written last is not written again, and takes no call of the disk. Another one is written.
#[test]
fn a_text_that_stands_there_is_not_written_again(rt: HostRuntime) -> Result<(), Fail> {
    let alloc = rt.alloc();
    let mut file = WholeFile {
        disk: MemoryDisk::new(alloc, 9),
    };
    file.write_after(None, b"one")?;
    file.write_after(Some(b"one"), b"one")?;
    file.write_after(Some(b"one"), b"two")?;
    assert_stands(&rt, alloc, &file, Some("two"), 2)?;
    file.close()?;
    assert_eq!(rt; file.disk.outcomes(), 1);
    Ok(())
}
