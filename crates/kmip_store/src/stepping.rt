//! The lifecycle of the rows.
ghost use Rattle.std.specs.Prelude.{◌≡◌, ◌≤◌, ◌<◌, ℕ, List, nat_eq, length, IfSome};
ghost use Rattle.std.specs.Cmp.Lexicographic.{pointwise};
ghost use Rattle.std.specs.List.{position};
ghost use Rattle.rand_chacha.specs.ChaCha.{ChaCha};
ghost use Rattle.kmip_store.specs.Stock.{IsKept, AreNumbered, most_room};
ghost use Rattle.kmip_store.specs.Stepping.{Becomes, take_step, enter};
ghost use Rattle.kmip_store.specs.PrivateIndexing.{LeadsTo, names_of, uids_of};

use crate::places::{Places, place_of};
use crate::row::Row;
use crate::store_fault::StoreFault;
use kmip_objects::{KeyState, Step};
use kmip_ttlv::Bytes;
use std::alloc::Global;

/// Takes the row with the identifier through a step of the lifecycle; a row that is then Destroyed
/// has no material any more. Takes no memory.
///
/// # Errors
/// `NotFound` where no row has the identifier, `WrongState` where the lifecycle has no such step from
/// the row's state; the rows are then as they were.
pub(crate) fn step(rows: &mut Vec<Row>, uid: &str, step: Step) -> Result<(), StoreFault>
    requires { AreNumbered 0 rows.old.items × (length rows.old.items ≤ most_room) }
    ensures step { (room : ℕ) (stream : ChaCha)
        → Becomes result (record { rows = rows.old.items; room = room; stream = stream })
        (record { rows = rows.new.items; room = room; stream = stream })
        (take_step step uid.now (record { rows = rows.old.items; room = room; stream = stream })) }
    ensures kept { (room : ℕ) → IsKept rows.old.items room → IsKept rows.new.items room }
{
    let place = place_with(rows.as_slice(), uid);
    step_at(rows, place, step)
}

/// The same, the row being found by the map from the identifiers.
///
/// # Errors
/// Those of `step`.
pub(crate) fn step_by_index(
    rows: &mut Vec<Row>,
    uids: &Places,
    uid: &str,
    step: Step,
) -> Result<(), StoreFault>
    requires numbered { AreNumbered 0 rows.old.items × (length rows.old.items ≤ most_room) }
    requires uids { LeadsTo uids.now (uids_of rows.old.items) }
    ensures step { (room : ℕ) (stream : ChaCha)
        → Becomes result (record { rows = rows.old.items; room = room; stream = stream })
        (record { rows = rows.new.items; room = room; stream = stream })
        (take_step step uid.now (record { rows = rows.old.items; room = room; stream = stream })) }
    ensures kept { (room : ℕ) → IsKept rows.old.items room → IsKept rows.new.items room }
    ensures names { names_of rows.new.items ≡ names_of rows.old.items }
    ensures uids { uids_of rows.new.items ≡ uids_of rows.old.items }
{
    let place = place_of(uids, uid);
    step_at(rows, place, step)
}

/// Takes the row at a place, where there is one, through a step of the lifecycle: the place is that of
/// some identifier. Takes no memory.
///
/// # Errors
/// Those of `step`.
fn step_at(rows: &mut Vec<Row>, place: Option<usize>, step: Step) -> Result<(), StoreFault>
    requires numbered { AreNumbered 0 rows.old.items × (length rows.old.items ≤ most_room) }
    requires within { IfSome place (λ p. p < length rows.old.items) }
    ensures step { (uid : List ℕ) (room : ℕ) (stream : ChaCha)
        → place ≡ position (λ r. pointwise nat_eq uid r.uid) rows.old.items
        → Becomes result (record { rows = rows.old.items; room = room; stream = stream })
        (record { rows = rows.new.items; room = room; stream = stream })
        (take_step step uid (record { rows = rows.old.items; room = room; stream = stream })) }
    ensures kept { (room : ℕ) → IsKept rows.old.items room → IsKept rows.new.items room }
    ensures names { names_of rows.new.items ≡ names_of rows.old.items }
    ensures uids { uids_of rows.new.items ≡ uids_of rows.old.items }
{
    let Some(place) = place else {
        return Err(StoreFault::NotFound);
    };
    let Some(state) = rows[place].state.after(step) else {
        return Err(StoreFault::WrongState);
    };
    let alloc = *rows.allocator();
    enter(alloc, &mut rows[place], state);
    Ok(())
}

/// The place of the row with the identifier.
fn place_with(rows: &[Row], uid: &str) -> Option<usize>
    ensures { result ≡ position (λ r. pointwise nat_eq uid.now r.uid) rows.now }
{
    rows.iter().position(|row| uid == row.uid.as_str())
}

/// Puts the row into the state. Takes no memory.
fn enter(alloc: Global, row: &mut Row, state: KeyState)
    ensures { row.new ≡ enter state row.old }
{
    row.state = state;
    if state == KeyState::Destroyed {
        row.material = Bytes::from_vec(Vec::new(alloc));
    }
}
