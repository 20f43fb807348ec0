//! Laws of the records, whatever keeps them, each as the contract of a function that does nothing.
ghost use Rattle.kmip_store.specs.Laws.{NextIdentifierIsFree, CreateKeeps, StepsKeep};
ghost use Rattle.kmip_store.specs.Stock.{IsKept};

use crate::records::Records;

/// While there is room in records that are kept, the identifier of the next object is in its range,
/// and no row has it.
pub fn the_next_identifier_is_free()
    ensures { NextIdentifierIsFree }
{}

/// What holds of the records at all times holds after each change of them.
pub fn changes_keep_the_records()
    // Records that are kept are kept after a Create whose attributes are in their ranges.
    ensures create { CreateKeeps }
    // Records that are kept are kept after each step of an object.
    ensures steps { StepsKeep }
{}

/// The records of a store are kept. It does nothing.
pub fn the_records_are_kept<S: Records>(store: &S)
    ensures { IsKept (S.stock store.now).rows (S.stock store.now).room }
{
    store.count(); // proof
}
