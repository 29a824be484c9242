//! A reader of which what it gives is kept.
use crate::notes::Slot;
use std::alloc::Global;
use std::io::{Read, Result};

/// A reader that gives what another gives, which is kept.
#[derive(Drop)]
pub struct Noted<'n, R: Drop> {
    reader: R,
    alloc: Global,
    slot: &'n Slot,
}

impl<'n, R: Drop> Noted<'n, R> {
    /// The reader, whose bytes and last error are kept in this slot.
    pub fn new(reader: R, alloc: Global, slot: &'n Slot) -> Self {
        Noted {
            reader,
            alloc,
            slot,
        }
    }
}

impl<'n, R: Read + Drop> Read for Noted<'n, R> {
    ghost remaining = { λ n. R.remaining n.reader };

    fn read(&mut self, buf: &mut [u8]) -> Result<usize> {
        match self.reader.read(buf) {
            Ok(count) => {
                if let Some(given) = buf.get(..count) {
                    self.slot.take(self.alloc, given);
                }
                Ok(count)
            }
            Err(error) => {
                self.slot.blame(error);
                Err(error)
            }
        }
    }
}
