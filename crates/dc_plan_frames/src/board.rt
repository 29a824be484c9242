//! The places of a frame.
use std::alloc::{AllocError, Global};

/// How many places on, and how many back, the next one lies that may be free; 0 where the place is free itself.
#[derive(Clone, Copy, PartialEq)]
struct Place {
    later: u32,
    earlier: u32,
}

/// A place that is free.
const FREE: Place = Place {
    later: 0,
    earlier: 0,
};

impl Place {
    /// The same place, taken with so many on either side.
    fn taken(&self, behind: u64, before: u64) -> Place {
        Place {
            later: self.later.max(hop(behind)),
            earlier: self.earlier.max(hop(before)),
        }
    }
}

/// One more than a number, or the greatest that is kept.
fn hop(places: u64) -> u32 {
    u32::try_from(places.saturating_add(1)).unwrap_or(u32::MAX)
}

/// The places of a frame, of which some are taken.
#[derive(Drop)]
pub(crate) struct Board {
    places: Vec<Place>,
    frame: u64,
}

impl Board {
    /// A frame of no places.
    pub(crate) fn new(alloc: Global) -> Board {
        Board {
            places: Vec::new(alloc),
            frame: 0,
        }
    }

    /// Takes a frame of so many places.
    pub(crate) fn resize(&mut self, frame: u64) -> Result<(), AllocError> {
        self.frame = frame;
        self.places.truncate(0);
        for _ in 0..frame {
            self.places.push(FREE)?;
        }
        Ok(())
    }

    /// Frees all places.
    pub(crate) fn clear(&mut self) {
        for place in self.places.iter_mut() {
            *place = FREE;
        }
    }

    /// How many places there are.
    pub(crate) fn frame(&self) -> u64 {
        self.frame
    }

    /// The place of a tick, however many frames it is from the first; most are at most one.
    fn at(&self, tick: u64) -> usize {
        if tick < self.frame {
            return tick as usize;
        }
        let behind = tick.saturating_sub(self.frame);
        if behind < self.frame {
            behind as usize
        } else {
            behind.checked_rem(self.frame).unwrap_or(0) as usize
        }
    }

    /// The first free place from a tick on, up to the last.
    pub(crate) fn free_from(&self, tick: u64, last: u64) -> Option<u64> {
        let mut here = tick;
        for _ in 0..self.frame.saturating_add(1) {
            if here > last {
                return None;
            }
            let place = self.places.get(self.at(here))?;
            if place.later == 0 {
                return Some(here);
            }
            here = here.saturating_add(u64::from(place.later));
        }
        None
    }

    /// The last free place up to a tick, from the first on.
    pub(crate) fn free_up_to(&self, tick: u64, first: u64) -> Option<u64> {
        let mut here = tick;
        for _ in 0..self.frame.saturating_add(1) {
            if here < first {
                return None;
            }
            let place = self.places.get(self.at(here))?;
            if place.earlier == 0 {
                return Some(here);
            }
            here = here.checked_sub(u64::from(place.earlier))?;
        }
        None
    }

    /// Takes a place, and all that are less than so many apart from it.
    pub(crate) fn take(&mut self, tick: u64, apart: u64) {
        let reach = apart.saturating_sub(1);
        let first = tick.saturating_add(self.frame).saturating_sub(reach);
        let last = reach.saturating_mul(2);
        for away in 0..last.saturating_add(1) {
            let place = self.at(first.saturating_add(away));
            if let Some(place) = self.places.get_mut(place) {
                *place = place.taken(last.saturating_sub(away), away);
            }
        }
    }
}
