//! At which line of a plan's text something stands.

use kmip_ttlv::NoMemory;
use std::alloc::{AllocError, AllocFailed, Global};
use toml::value::Array;
use toml::{Table, Value};

/// The most bytes that are read again for the place of one fault (own).
const MOST_BYTES: usize = 33_554_432;

/// The most halvings that are made; a text has fewer lines than two to this power.
const MOST_HALVINGS: usize = 64;

/// What is looked for in the text of a plan. The place of a key is from 1.
#[derive(Clone, Copy)]
pub(crate) enum Sought<'a> {
    /// A field beside the keys, or the field of the keys itself.
    Top(&'a str),
    /// The key at a place.
    Key(usize),
    /// A field of the key at a place.
    Field(usize, &'a str),
    /// The element with an index from 0 of an array that is a field of the key at a place.
    Element(usize, &'a str, usize),
}

impl<'a> Sought<'a> {
    /// Whether the table has it.
    fn is_in(self, table: &Table) -> bool {
        match self {
            Sought::Top(field) => table.get(field).is_some(),
            Sought::Key(place) => key_at(table, place).is_some(),
            Sought::Field(place, field) => match key_at(table, place) {
                Some(key) => field_at(key, field).is_some(),
                None => false,
            },
            Sought::Element(place, field, index) => {
                elements_at(table, place, field).is_some_and(|elements| index < elements.len())
            }
        }
    }

    /// What begins with the statement that has what is sought.
    fn statement(self) -> Sought<'a> {
        match self {
            Sought::Element(place, field, _) => Sought::Field(place, field),
            Sought::Top(_) | Sought::Key(_) | Sought::Field(..) => self,
        }
    }
}

/// The key at a place from 1, be it a table or not.
pub(crate) fn key_at(table: &Table, place: usize) -> Option<&Value> {
    let index = place.checked_sub(1)?;
    table.get("key")?.as_array()?.as_slice().get(index)
}

/// The field of a key; none where the key is no table.
pub(crate) fn field_at<'a>(key: &'a Value, field: &str) -> Option<&'a Value> {
    key.as_table()?.get(field)
}

/// The elements of an array that is a field of the key at a place from 1.
fn elements_at<'a>(table: &'a Table, place: usize, field: &str) -> Option<&'a Array> {
    field_at(key_at(table, place)?, field)?.as_array()
}

/// The name of a key, where it is a text.
pub(crate) fn name_of(key: &Value) -> Option<&str> {
    field_at(key, "name")?.as_str()
}

/// Why no place is found.
#[derive(Clone, Copy)]
enum Unplaced {
    NoMemory,
    /// Too much had to be read.
    TooLong,
}

impl From<AllocError> for Unplaced {
    fn from(_e: AllocError) -> Unplaced {
        Unplaced::NoMemory
    }
}

impl<T: Drop> From<AllocFailed<T>> for Unplaced {
    fn from(_e: AllocFailed<T>) -> Unplaced {
        Unplaced::NoMemory
    }
}

/// The fronts of a text: the first line, the first two, and so on, up to the whole text.
#[derive(Drop)]
struct Fronts<'a> {
    alloc: Global,
    text: &'a str,
    /// Where each line ends, behind its line feed.
    ends: Vec<usize>,
    sought: Sought<'a>,
    /// How many bytes may still be read.
    left: usize,
}

impl<'a> Fronts<'a> {
    fn new(alloc: Global, text: &'a str, sought: Sought<'a>) -> Result<Self, AllocError> {
        let mut ends = Vec::new(alloc);
        let mut end = 0usize;
        for line in text.split_inclusive('\n') {
            end = end.saturating_add(line.len());
            ends.push(end)?;
        }
        Ok(Fronts {
            alloc,
            text,
            ends,
            sought,
            left: MOST_BYTES,
        })
    }

    /// Whether the front that ends with the line of this index has what is sought; none where it is no
    /// TOML, as where it ends within an array.
    fn has(&mut self, index: usize, sought: Sought<'a>) -> Result<Option<bool>, Unplaced> {
        match self.front(index) {
            Some(front) => self.is_in(front, sought),
            None => Ok(None),
        }
    }

    /// The front that ends with the line of this index.
    fn front(&self, index: usize) -> Option<&'a str> {
        self.text.get(..*self.ends.get(index)?)
    }

    /// Whether a text has what is sought; none if it is not TOML.
    fn is_in(&mut self, text: &str, sought: Sought<'a>) -> Result<Option<bool>, Unplaced> {
        self.left = self.left.checked_sub(text.len()).ok_or(Unplaced::TooLong)?;
        match toml::table_from_str(self.alloc, text) {
            Ok(table) => Ok(Some(sought.is_in(&table))),
            Err(fault) if fault.is_memory() => Err(Unplaced::NoMemory),
            Err(_) => Ok(None),
        }
    }

    /// The index of the first line, from `begins` on, up to which an array has this element. A front that ends within
    /// the array is read with the bracket that closes it.
    fn element(&mut self, begins: usize, element: Sought<'a>) -> Result<Option<usize>, Unplaced> {
        for index in begins..self.ends.len() {
            let Some(front) = self.front(index) else {
                return Ok(None);
            };
            let mut closed = String::from_str(self.alloc, front)?;
            closed.push_str("\n]")?;
            if self.is_in(closed.as_str(), element)? == Some(true) {
                return Ok(Some(index));
            }
            if let Some(has) = self.is_in(front, element)? {
                return Ok(if has { Some(index) } else { None });
            }
        }
        Ok(None)
    }

    /// The last front of those from `low` on and before `high` that is TOML, by its index, and whether
    /// it has what is sought.
    fn last_read(&mut self, low: usize, high: usize) -> Result<Option<(usize, bool)>, Unplaced> {
        for index in (low..high).rev() {
            if let Some(has) = self.has(index, self.sought)? {
                return Ok(Some((index, has)));
            }
        }
        Ok(None)
    }

    /// The index of the first front that has what is sought, of which the whole text is one. A front
    /// that is no TOML has nothing, and what one has each later one has that is TOML.
    fn first(&mut self) -> Result<Option<usize>, Unplaced> {
        let Some(last) = self.ends.len().checked_sub(1) else {
            return Ok(None);
        };
        if self.has(last, self.sought)? != Some(true) {
            return Ok(None);
        }
        let (mut low, mut high) = (0, last);
        for _ in 0..MOST_HALVINGS {
            if low >= high {
                return Ok(Some(high));
            }
            let behind = low + (high - low) / 2 + 1;
            match self.last_read(low, behind)? {
                Some((index, true)) => high = index,
                Some((_, false)) | None => low = behind,
            }
        }
        Ok(None)
    }

    /// The index of the line at which the statement begins that ends the first front with what is
    /// sought. A statement of several lines may have more than that: then there is none.
    fn beginning(&mut self) -> Result<Option<usize>, Unplaced> {
        let Some(index) = self.first()? else {
            return Ok(None);
        };
        let (begins, before) = match self.last_read(0, index)? {
            Some((before, _)) => (before.saturating_add(1), Some(before)),
            None => (0, None),
        };
        if begins == index || self.is_alone(before)? {
            Ok(Some(begins))
        } else {
            Ok(None)
        }
    }

    /// Whether a statement of several lines behind this front has nothing but what is sought.
    fn is_alone(&mut self, before: Option<usize>) -> Result<bool, Unplaced> {
        match (self.sought, before) {
            (Sought::Top(_), _) => Ok(true),
            (Sought::Key(_) | Sought::Element(..), _) | (Sought::Field(..), None) => Ok(false),
            (Sought::Field(place, _), Some(before)) => {
                Ok(self.has(before, Sought::Key(place))? == Some(true))
            }
        }
    }
}

/// The line, from 1, at which that begins in the text which is sought; none where it cannot be told, as
/// in an array of keys over several lines. The lines are halved, so that few fronts of the text are read.
/// Of an element whose line cannot be told it is the line of the array.
///
/// # Errors
/// Where there is no memory.
pub(crate) fn line_of(
    alloc: Global,
    text: &str,
    sought: Sought<'_>,
) -> Result<Option<usize>, NoMemory> {
    let mut fronts = Fronts::new(alloc, text, sought.statement())?;
    let Some(begins) = within_bounds(fronts.beginning())? else {
        return Ok(None);
    };
    let index = match sought {
        Sought::Element(..) => within_bounds(fronts.element(begins, sought))?.unwrap_or(begins),
        Sought::Top(_) | Sought::Key(_) | Sought::Field(..) => begins,
    };
    Ok(index.checked_add(1))
}

/// What was found; none if too much had to be read.
fn within_bounds(found: Result<Option<usize>, Unplaced>) -> Result<Option<usize>, NoMemory> {
    match found {
        Ok(index) => Ok(index),
        Err(Unplaced::TooLong) => Ok(None),
        Err(Unplaced::NoMemory) => Err(NoMemory),
    }
}
