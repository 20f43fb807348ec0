//! The laws of the server: of each question, and of a question that comes again.
ghost use Rattle.std.specs.Prelude.{◌≡◌, true, false, IsTrue, List};
ghost use Rattle.kmip_batch_items.specs.RequestFits.{ask_fits};
ghost use Rattle.kmip_batch_items.specs.declared.ask.Ask.{Ask};
ghost use Rattle.kmip_server.specs.Again.{stock_after_asks, changes, has_failed};
ghost use Rattle.kmip_server.specs.ServerStep.{ServerStep};
ghost use Rattle.kmip_server.specs.Serving.{answer};
ghost use Rattle.kmip_server.specs.Laws.{ServerLaws};
ghost use Rattle.kmip_server.specs.Shown.{HasLawfulObjects, objects_in, room_in};
ghost use Rattle.kmip_store.specs.Stock.{Stock, IsKept};

use crate::server::Server;
use kmip_store::Records;
use kmip_store::laws::{changes_keep_the_records, the_next_identifier_is_free};

/// Where the records are kept, what the server answers, and what it leaves, is a step of the server: a
/// relation over objects with a rule for each case.
pub fn serving_is_a_step()
    ensures { (s : Stock) (ask : Ask) → IsKept s.rows s.room
        → ServerStep (room_in s) (objects_in s) ask (answer s ask).0
        (objects_in (answer s ask).1) }
{
    the_next_identifier_is_free(); // proof
}

/// What holds of the records at all times holds after each question in its ranges.
pub fn serving_keeps_the_records()
    ensures { (s : Stock) (ask : Ask) → ask_fits ask ≡ true → IsKept s.rows s.room
        → IsKept (answer s ask).1.rows (answer s ask).1.room }
{
    changes_keep_the_records(); // proof
}

/// An operation that took effect is refused whenever it is asked again, whatever was asked in between, and
/// leaves the records as they are.
pub fn again_changes_nothing()
    ensures { (s : Stock) (ask : Ask) (between : List Ask) → IsTrue (changes ask)
        → has_failed (answer s ask).0 ≡ false
        → (has_failed (answer (stock_after_asks between (answer s ask).1) ask).0 ≡ true)
        × ((answer (stock_after_asks between (answer s ask).1) ask).1
        ≡ stock_after_asks between (answer s ask).1) }
{}

/// Where the records are kept, no two objects have one name or one identifier. They are at most as many as
/// the room, and each has its identifier and its attributes in their ranges.
pub fn the_objects_are_lawful()
    ensures { (s : Stock) → IsKept s.rows s.room → HasLawfulObjects s }
{}

/// What holds of every server that is asked for a name, one law a field. It does nothing.
pub fn the_laws_of_servers_hold()
    ensures { ServerLaws }
{}

/// The records of a server are kept, and its objects are lawful. It does nothing.
pub fn a_server_is_lawful<S: Records>(server: &Server<S>)
    // The records are kept (`IsKept`).
    ensures kept { IsKept server.now.rows server.now.room }
    // Names and identifiers are distinct, and each object is in its ranges.
    ensures objects { HasLawfulObjects server.now }
{
    server.records(); // proof
}
