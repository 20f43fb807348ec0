//! A plan of which each fault that was found is mended, so that the next one is found.

use kmip_plan::{Field, PlanFault, read_plan};
use kmip_ttlv::NoMemory;
use std::alloc::{AllocError, Global};
use toml::{Table, Value};

/// A key without a fault, but for its name, which every mended key would have.
const RIGHT_KEY: &str = "\
name = \"\"
algorithm = \"AES\"
length = 256
usage = [\"encrypt\"]
target = \"revoked\"
";

/// A plan of which each fault that was found is mended. What is mended is never shown.
#[derive(Drop)]
pub(crate) struct Mended {
    alloc: Global,
    table: Table,
}

impl Mended {
    /// The plan in this text; none if the text is not TOML.
    ///
    /// # Errors
    /// If memory runs out.
    pub(crate) fn of(alloc: Global, plan: &str) -> Result<Option<Mended>, NoMemory> {
        match toml::table_from_str(alloc, plan) {
            Ok(table) => Ok(Some(Mended { alloc, table })),
            Err(fault) if fault.is_memory() => Err(NoMemory),
            Err(_) => Ok(None),
        }
    }

    /// The first fault that is left; none if there is none, or it cannot be found.
    ///
    /// # Errors
    /// If memory runs out.
    pub(crate) fn fault(&self) -> Result<Option<PlanFault>, NoMemory> {
        let text = match toml::table_to_string(self.alloc, &self.table) {
            Ok(text) => text,
            Err(toml::ser::Error::OutOfMemory) => return Err(NoMemory),
            Err(_) => return Ok(None),
        };
        match read_plan(self.alloc, text.as_str()) {
            Ok(_plan) => Ok(None),
            Err(PlanFault::NoMemory) => Err(NoMemory),
            Err(fault) => Ok(Some(fault)),
        }
    }

    /// Mends this fault. Whether it could be mended.
    ///
    /// # Errors
    /// If memory runs out.
    pub(crate) fn mend(&mut self, fault: &PlanFault) -> Result<bool, NoMemory> {
        match fault {
            PlanFault::Toml | PlanFault::NoKeys | PlanFault::TooMany | PlanFault::NoMemory => {
                Ok(false)
            }
            PlanFault::Unknown(word, 0) => Ok(self.table.remove(word.as_str()).is_some()),
            PlanFault::Unknown(word, place) => Ok(self.remove(*place, word.as_str())),
            PlanFault::Missing(_, place) => self.fill(*place),
            PlanFault::BadName(place) | PlanFault::SameName(place) => {
                self.set(*place, Field::Name.word())
            }
            PlanFault::BadLength(place) => {
                self.set(*place, Field::Length.word())?;
                self.set(*place, Field::Algorithm.word())
            }
            PlanFault::BadUsage(place) => self.set(*place, Field::Usage.word()),
            PlanFault::BadTarget(place) => self.set(*place, Field::Target.word()),
            PlanFault::BadReason(place) => Ok(self.remove(*place, "reason")),
        }
    }

    /// The key at a place from 1.
    fn key(&mut self, place: usize) -> Option<&mut Value> {
        let index = place.checked_sub(1)?;
        self.table.get_mut("key")?.get_mut(index)
    }

    /// Removes a field of the key at a place. Whether it was there.
    fn remove(&mut self, place: usize, field: &str) -> bool {
        let Some(key) = self.key(place) else {
            return false;
        };
        match key.as_table_mut() {
            Some(fields) => fields.remove(field).is_some(),
            None => false,
        }
    }

    /// Gives a field of the key at a place what a key without a fault has. Whether there is such a field.
    fn set(&mut self, place: usize, field: &str) -> Result<bool, NoMemory> {
        let alloc = self.alloc;
        let mut right = right_key(alloc, place)?;
        let Some(key) = self.key(place) else {
            return Ok(false);
        };
        let Some(fields) = key.as_table_mut() else {
            return Ok(false);
        };
        let Some(value) = right.remove(field) else {
            return Ok(false);
        };
        fields.insert(String::from_str(alloc, field)?, value)?;
        Ok(true)
    }

    /// Gives each field that the key at a place does not have what a key without a fault has. A key that is not a
    /// table becomes one. Whether there is a key.
    fn fill(&mut self, place: usize) -> Result<bool, NoMemory> {
        let right = right_key(self.alloc, place)?;
        let Some(key) = self.key(place) else {
            return Ok(false);
        };
        let Some(fields) = key.as_table_mut() else {
            *key = Value::Table(right);
            return Ok(true);
        };
        for (field, value) in right {
            if fields.get(field.as_str()).is_none() {
                fields.insert(field, value)?;
            }
        }
        Ok(true)
    }
}

/// A key without a fault, with a name that no key of a plan has that a person writes.
fn right_key(alloc: Global, place: usize) -> Result<Table, NoMemory> {
    match toml::table_from_str(alloc, RIGHT_KEY) {
        Ok(mut table) => {
            let name = format!(in alloc; "!{place}!mended!")?;
            table.insert(String::from_str(alloc, "name")?, Value::String(name))?;
            Ok(table)
        }
        Err(_) => Err(NoMemory), // the constant is TOML
    }
}
