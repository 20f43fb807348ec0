//! What holds of a run of writes over any disk, as the contract of a function that does nothing.
ghost use Rattle.kmip_disk.specs.Laws.{ClosingAddsNothing, NothingIsWritten, OneTextIsWritten, TextsAddUp};

use crate::disk::Disk;

/// Whatever is written in turn, a crash at any moment leaves what it might have left at the start, or one of
/// the texts, whole.
pub fn texts_add_up<D: Disk>()
    // Before the first text it leaves what it might have left.
    ensures none { NothingIsWritten D.view }
    // A call of `write` adds its text (`any_moment`), whether it succeeds or not.
    ensures one { OneTextIsWritten D.view }
    // What further calls leave joins what the calls before them leave.
    ensures more { TextsAddUp D.view }
    // A call of `close` adds none.
    ensures none_more { ClosingAddsNothing D.view }
{}
