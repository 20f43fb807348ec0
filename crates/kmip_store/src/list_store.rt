//! The records as a plain list.
ghost use Rattle.std.specs.Prelude.{◌≡◌, ◌≤◌};
ghost use Rattle.kmip_store.specs.Stock.{empty_stock, most_room};

use crate::making::new_row;
use crate::matching::{first_wanted, has_row_named, row_with, uid_found};
use crate::material::draw;
use crate::records::Records;
use crate::row::Row;
use crate::stepping::step;
use crate::store_fault::StoreFault;
use kmip_objects::{Attrs, KeyAttrs, Step};
use kmip_ttlv::Text;
use rand_chacha::ChaCha20Rng;
use rand_core::SeedableRng;
use std::alloc::Global;
use std::marker::Model;

/// The rows in a vector, and every look-up a search through it.
#[derive(Drop)]
pub struct ListStore {
    rows: Vec<Row>,
    room: usize,
    stream: ChaCha20Rng,
}

impl Model for ListStore {
    ghost use Rattle.kmip_store.specs.Stock.{Stock, IsKept};

    ghost Value = { Stock };

    ghost view = { λ s. record { rows = s.rows.items; room = s.room; stream = s.stream } };

    ghost invariant = { λ s. IsKept s.rows.items s.room };
}

impl ListStore {
    /// No rows, and room for this many. The key material is drawn from the stream of ChaCha20 that
    /// the seed begins. Takes no memory.
    pub fn new(alloc: Global, seed: [u8; 32], room: usize) -> Self
        // The room is for at most 10,000 rows.
        requires { room ≤ most_room }
        ensures { result ≡ empty_stock seed room }
    {
        ListStore {
            rows: Vec::new(alloc),
            room,
            stream: ChaCha20Rng::from_seed(seed),
        }
    }
}

impl Records for ListStore {
    ghost stock = { λ s. s };

    fn create(&mut self, alloc: Global, attrs: &KeyAttrs) -> Result<Text, StoreFault> {
        if has_row_named(self.rows.as_slice(), attrs.name.as_str()) {
            return Err(StoreFault::SameName);
        }
        if self.rows.len() >= self.room {
            return Err(StoreFault::Full);
        }
        // All memory is taken before the stream moves on.
        self.rows.reserve(1)?;
        let row = new_row(alloc, self.rows.len(), attrs)?;
        let uid = Text::copied(alloc, row.uid.as_str())?;
        let row = draw(&mut self.stream, row);
        self.rows.push_reserved(row);
        Ok(uid)
    }

    fn locate(
        &self,
        alloc: Global,
        mask: Option<i32>,
        filter: &Attrs,
    ) -> Result<Option<Text>, StoreFault> {
        let row = first_wanted(self.rows.as_slice(), mask, filter);
        let uid = uid_found(alloc, row)?;
        Ok(uid)
    }

    fn find(&self, uid: &str) -> Option<&Row> {
        row_with(self.rows.as_slice(), uid)
    }

    fn activate(&mut self, uid: &str) -> Result<(), StoreFault> {
        step(&mut self.rows, uid, Step::Activate)
    }

    fn revoke(&mut self, uid: &str) -> Result<(), StoreFault> {
        step(&mut self.rows, uid, Step::Revoke)
    }

    fn destroy(&mut self, uid: &str) -> Result<(), StoreFault> {
        step(&mut self.rows, uid, Step::Destroy)
    }

    fn count(&self) -> usize {
        self.rows.len()
    }

    fn at(&self, place: usize) -> Option<&Row> {
        self.rows.get(place)
    }
}
