//! The records as rows under two maps.
ghost use Rattle.std.specs.Prelude.{◌≡◌, ◌≤◌};
ghost use Rattle.kmip_store.specs.Stock.{empty_stock, most_room};

use crate::making::{NewObject, new_object};
use crate::matching::{row_by_index, uid_found, wanted_by_index};
use crate::material::draw;
use crate::places::{Places, has_text, note_both};
use crate::records::Records;
use crate::row::Row;
use crate::stepping::step_by_index;
use crate::store_fault::StoreFault;
use indexmap::IndexMap;
use kmip_objects::{Attrs, KeyAttrs, Step};
use kmip_ttlv::Text;
use rand_chacha::ChaCha20Rng;
use rand_core::SeedableRng;
use std::alloc::Global;
use std::marker::Model;

/// The rows in a vector, and two maps that lead to their places: from the names, and from the
/// identifiers. Every look-up goes by a map.
#[derive(Drop)]
pub struct IndexedStore {
    rows: Vec<Row>,
    names: Places,
    uids: Places,
    room: usize,
    stream: ChaCha20Rng,
}

impl Model for IndexedStore {
    ghost use Rattle.kmip_store.specs.Stock.{Stock, IsKept};
    ghost use Rattle.kmip_store.specs.PrivateIndexing.{LeadsTo, names_of, uids_of};

    ghost Value = { Stock };

    ghost view = { λ s. record { rows = s.rows.items; room = s.room; stream = s.stream } };

    ghost invariant = { λ s. IsKept s.rows.items s.room
        × LeadsTo s.names (names_of s.rows.items)
        × LeadsTo s.uids (uids_of s.rows.items) };
}

impl IndexedStore {
    /// No rows, and room for this many. The key material is drawn from the stream of ChaCha20 that
    /// the seed begins. Takes no memory.
    pub fn new(alloc: Global, seed: [u8; 32], room: usize) -> Self
        // The room is for at most 10,000 rows.
        requires { room ≤ most_room }
        ensures { result ≡ empty_stock seed room }
    {
        IndexedStore {
            rows: Vec::new(alloc),
            names: IndexMap::new(alloc),
            uids: IndexMap::new(alloc),
            room,
            stream: ChaCha20Rng::from_seed(seed),
        }
    }
}

impl Records for IndexedStore {
    ghost stock = { λ s. s };

    fn create(&mut self, alloc: Global, attrs: &KeyAttrs) -> Result<Text, StoreFault> {
        if has_text(&self.names, attrs.name.as_str()) {
            return Err(StoreFault::SameName);
        }
        if self.rows.len() >= self.room {
            return Err(StoreFault::Full);
        }
        // All memory is taken before the rows and the stream change.
        self.rows.reserve(1)?;
        let place = self.rows.len();
        let made = new_object(alloc, place, attrs)?;
        note_both(
            &mut self.names,
            made.name_key,
            &mut self.uids,
            made.uid_key,
            place,
        )?;
        let row = draw(&mut self.stream, made.row);
        self.rows.push_reserved(row);
        Ok(made.uid)
    }

    fn locate(
        &self,
        alloc: Global,
        mask: Option<i32>,
        filter: &Attrs,
    ) -> Result<Option<Text>, StoreFault> {
        let row = wanted_by_index(self.rows.as_slice(), &self.names, mask, filter);
        let uid = uid_found(alloc, row)?;
        Ok(uid)
    }

    fn find(&self, uid: &str) -> Option<&Row> {
        row_by_index(self.rows.as_slice(), &self.uids, uid)
    }

    fn activate(&mut self, uid: &str) -> Result<(), StoreFault> {
        step_by_index(&mut self.rows, &self.uids, uid, Step::Activate)
    }

    fn revoke(&mut self, uid: &str) -> Result<(), StoreFault> {
        step_by_index(&mut self.rows, &self.uids, uid, Step::Revoke)
    }

    fn destroy(&mut self, uid: &str) -> Result<(), StoreFault> {
        step_by_index(&mut self.rows, &self.uids, uid, Step::Destroy)
    }

    fn count(&self) -> usize {
        self.rows.len()
    }

    fn at(&self, place: usize) -> Option<&Row> {
        self.rows.get(place)
    }
}
