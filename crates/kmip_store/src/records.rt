//! What a server keeps its objects in.
ghost use Rattle.std.specs.Prelude.{◌≡◌, length, true, IsTrue, IsSome, IfOk, IfSome, OnErr, Err, option_to_list};
ghost use Rattle.std.specs.List.{slice_get};
ghost use Rattle.std.specs.Option.{option_copied};
ghost use Rattle.kmip_objects.specs.Ranges.{attrs_fit, is_identifier};
ghost use Rattle.kmip_objects.specs.declared.step.Step.TheVariants as steps;
ghost use Rattle.kmip_store.specs.Stock.{Stock, IsKept, identifier_at, stock_with, MayRefuse, objects_of};
ghost use Rattle.kmip_store.specs.Stepping.{Becomes, row_with, take_step};
ghost use Rattle.kmip_store.specs.Locating.{locate};

use crate::row::Row;
use crate::store_fault::StoreFault;
use kmip_objects::{Attrs, KeyAttrs};
use kmip_ttlv::Text;
use std::alloc::Global;

/// The objects of a server, in the order in which they were made. The key material of an object is
/// the next bytes of the ChaCha20 stream of the seed, and that of a destroyed one is empty.
pub trait Records {
    /// What the records hold: the rows, the room for them, and how far the stream of key material
    /// has come.
    ghost stock: { Self → Stock };

    /// Makes an object in the state Pre-Active, and returns its identifier. Its key material is the
    /// next bytes of the stream, as many as its length says.
    ///
    /// # Errors
    /// `SameName` where a row has the name, then `Full` where the room is used up, then `NoMemory`.
    fn create(&mut self, alloc: Global, attrs: &KeyAttrs) -> Result<Text, StoreFault>
        // The attributes are in their ranges.
        requires { IsTrue (attrs_fit attrs.now) }
        // The identifier is the decimal number of the place of the object, from 1. The records have exactly
        // this object more.
        ensures ok { IfOk result (λ uid. (uid ≡ identifier_at (length (stock self.old).rows))
            × (stock self.new ≡ stock_with attrs.now (stock self.old))) }
        // A used name is `SameName`, else room that is used up is `Full`; only else it may succeed or run out
        // of memory.
        ensures fault { MayRefuse attrs.now.name (stock self.old) result }
        // A refusal changes nothing, and neither does want of memory.
        ensures err { OnErr result (stock self.new ≡ stock self.old) };

    /// The identifier of the row that has the filter's name and every other given attribute, where
    /// the mask searches it. Without a mask it searches rows that are not Destroyed. With one it
    /// searches those where the mask has the bit 1, and Destroyed rows where it has the bit 4.
    ///
    /// # Errors
    /// `NoMemory`.
    fn locate(
        &self,
        alloc: Global,
        mask: Option<i32>,
        filter: &Attrs,
    ) -> Result<Option<Text>, StoreFault>
        // The filter gives a name.
        requires { IsSome filter.now.name }
        // The answer is exactly what a Locate finds: one identifier, or none.
        ensures found { IfOk result (λ uid. locate mask filter.now
            (objects_of (stock self.now).rows) ≡ option_to_list uid) }
        // An identifier that is found is in its range.
        ensures uid { IfOk result (λ uid. IfSome uid (λ u. IsTrue (is_identifier u))) }
        // The only fault is want of memory.
        ensures fault { OnErr result (result ≡ Err StoreFault.NoMemory) };

    /// The row with the identifier; none where no row has it.
    fn find(&self, uid: &str) -> Option<&Row>
        // It is the row that has this identifier.
        ensures value { option_copied result ≡ row_with uid.now (stock self.now).rows }
        // The identifier and the attributes of the row are in their ranges.
        ensures fits { IfSome result (λ row. IsTrue (is_identifier row.now.uid)
            × IsTrue (attrs_fit row.now.attrs)) };

    /// Makes the object with the identifier Active, where it is Pre-Active.
    ///
    /// # Errors
    /// `NotFound` where no row has the identifier, `WrongState` where its row is in another state; the
    /// records are then as they were. Takes no memory.
    fn activate(&mut self, uid: &str) -> Result<(), StoreFault>
        ensures { Becomes result (stock self.old) (stock self.new)
            (take_step steps.Activate uid.now (stock self.old)) };

    /// Makes the object with the identifier Deactivated, where it is Active.
    ///
    /// # Errors
    /// `NotFound` where no row has the identifier, `WrongState` where its row is in another state; the
    /// records are then as they were. Takes no memory.
    fn revoke(&mut self, uid: &str) -> Result<(), StoreFault>
        ensures { Becomes result (stock self.old) (stock self.new)
            (take_step steps.Revoke uid.now (stock self.old)) };

    /// Makes the object with the identifier Destroyed, where it is Pre-Active or Deactivated. Its key
    /// material is then empty; its name is never free again.
    ///
    /// # Errors
    /// `NotFound` where no row has the identifier, `WrongState` where its row is in another state; the
    /// records are then as they were. Takes no memory.
    fn destroy(&mut self, uid: &str) -> Result<(), StoreFault>
        ensures { Becomes result (stock self.old) (stock self.new)
            (take_step steps.Destroy uid.now (stock self.old)) };

    /// How many rows there are.
    fn count(&self) -> usize
        // It is the number of rows in the records.
        ensures value { result ≡ length (stock self.now).rows }
        // The records are kept at all times: the rows are within their room of at most 10,000, identifiers
        // are numbered by place, names are distinct, and attributes are in range.
        ensures kept { IsKept (stock self.now).rows (stock self.now).room };

    /// The row at a place, from 0; none after the last.
    fn at(&self, place: usize) -> Option<&Row>
        ensures { option_copied result ≡ slice_get (stock self.now).rows place };
}
