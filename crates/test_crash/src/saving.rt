//! How often a keeper writes its file.

use kmip_disk::MemoryDisk;
use kmip_runs::{FileKeeper, Keeper};
use std::process::Abort;
use std::test::Fail;

/// A text that the file already has takes no call of the disk, and another one does: a file is replaced by four
/// calls (create, write, sync, rename), and a new one needs a fifth, which syncs the folder.
#[test]
fn no_text_is_written_twice(rt: HostRuntime) -> Result<(), Fail> {
    let alloc = rt.alloc();
    for (is_new, calls) in [(true, 5usize), (false, 4)] {
        let mut keeper = FileKeeper::new(MemoryDisk::new(alloc, calls), is_new);
        let first = keeper.save(alloc, b"one");
        assert!(&rt; first.is_ok(), "the calls are enough for one text");
        let again = keeper.save(alloc, b"one");
        assert!(&rt; again.is_ok(), "the same text takes no call");
        let other = keeper.save(alloc, b"two");
        assert!(&rt; other.is_err(), "another text takes one");
    }
    Ok(())
}
