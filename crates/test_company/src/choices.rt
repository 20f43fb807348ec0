//! Choices in turn, of which every way is taken once.
use std::alloc::{AllocError, Global};

/// A choice: the way that is taken, from 0, and how many ways there are.
#[derive(Clone, Copy)]
struct Choice {
    way: usize,
    ways: usize,
}

/// The choices of one run after the other. No two runs take the same ways, and every way is taken in some run.
#[derive(Drop)]
pub(crate) struct Choices {
    taken: Vec<Choice>,
    /// How many choices this run has made.
    made: usize,
}

impl Choices {
    /// Those of a first run.
    pub(crate) fn new(alloc: Global) -> Self {
        Choices {
            taken: Vec::new(alloc),
            made: 0,
        }
    }

    /// The way of this run, of so many.
    ///
    /// # Errors
    /// Where there is no memory.
    pub(crate) fn choose(&mut self, ways: usize) -> Result<usize, AllocError> {
        let place = self.made;
        self.made = self.made.saturating_add(1);
        if let Some(choice) = self.taken.get(place) {
            return Ok(choice.way);
        }
        self.taken.push(Choice { way: 0, ways })?;
        Ok(0)
    }

    /// Goes on to the next run. False where there is none.
    ///
    /// # Errors
    /// Where there is no memory.
    pub(crate) fn go_on(&mut self) -> Result<bool, AllocError> {
        self.made = 0;
        for _ in 0..self.taken.len() {
            let Some(choice) = self.taken.pop() else {
                return Ok(false);
            };
            let way = choice.way.saturating_add(1);
            if way < choice.ways {
                self.taken.push(Choice { way, ..choice })?;
                return Ok(true);
            }
        }
        Ok(false)
    }
}
