//! Parts of the page that are the same in all but their names.

use std::alloc::{AllocError, Global};

/// What parts show, each of them once, and of each part which of these it shows.
#[derive(Drop)]
pub struct Alike {
    bodies: Vec<String>,
    of: Vec<usize>,
}

impl Alike {
    /// Of no part.
    pub fn new(alloc: Global) -> Self {
        Alike {
            bodies: Vec::new(alloc),
            of: Vec::new(alloc),
        }
    }

    /// The number of the first that is this; how many there are where none is.
    fn place_of(&self, body: &str) -> usize {
        for (place, own) in self.bodies.iter().enumerate() {
            if own.as_str() == body {
                return place;
            }
        }
        self.bodies.len()
    }

    /// Takes in what the next part shows.
    ///
    /// # Errors
    /// `AllocError` where an allocation failed.
    pub fn take(&mut self, body: String) -> Result<(), AllocError> {
        let place = self.place_of(body.as_str());
        self.of.push(place)?;
        if place == self.bodies.len() {
            self.bodies.push(body)?;
        }
        Ok(())
    }

    /// All that parts show.
    pub fn bodies(&self) -> &[String] {
        self.bodies.as_slice()
    }

    /// Whether a part shows the one of this number.
    pub fn shows(&self, part: usize, place: usize) -> bool {
        self.of.get(part) == Some(&place)
    }

    /// How many parts show the one of this number.
    pub fn count(&self, place: usize) -> usize {
        let mut count = 0usize;
        for own in self.of.as_slice() {
            count = count.saturating_add(usize::from(*own == place));
        }
        count
    }
}
