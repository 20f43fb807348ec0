//! What holds of every progress text, each as the contract of a function that does nothing.
ghost use Rattle.kmip_progress.specs.Laws.{TextsAreReadBack, FrontsAreCut, TextsAreProlonged, OldTextsAreProlonged, SavedLinesAreTrue};

/// What is written for a lawful plan is read back, where the progress suits the plan and its
/// identifiers are UTF-8.
pub fn texts_are_read_back()
    ensures { TextsAreReadBack }
{}

/// Each proper front of a text that some plan of at most 1,000 keys takes is `Cut`, whichever plan
/// it is read for.
pub fn fronts_are_cut()
    ensures { FrontsAreCut }
{}

/// A text that was written for a lawful plan is read for each plan that prolongs it, with nothing
/// known of the further keys. The progress suits the old plan there, and its identifiers are UTF-8.
pub fn texts_are_prolonged()
    // So it is with a text of format 2, which is written now.
    ensures written { TextsAreProlonged }
    // So it is with a text of format 1, which an earlier version wrote.
    ensures old { OldTextsAreProlonged }
{}

/// What a line of a saved text says of a key is what is known of that key.
pub fn saved_lines_are_true()
    ensures { SavedLinesAreTrue }
{}
