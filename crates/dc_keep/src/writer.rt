//! A writer of which what it takes is kept.
use crate::notes::{MOST_OF_OUTPUT, Slot};
use std::alloc::Global;
use std::io::{Result, Write};

/// A writer that takes what another takes, of which the end is kept.
#[derive(Drop)]
pub struct Written<'n, W: Drop> {
    writer: W,
    alloc: Global,
    slot: &'n Slot,
}

/// How many of the last bytes of what is taken at once are kept: all lines of what stands in the way of a design, which are
/// written at once.
const MOST_AT_ONCE: usize = MOST_OF_OUTPUT;

impl<'n, W: Drop> Written<'n, W> {
    /// The writer, of which the last bytes and the last error are kept in this slot.
    pub fn new(writer: W, alloc: Global, slot: &'n Slot) -> Self {
        Written {
            writer,
            alloc,
            slot,
        }
    }

    /// Keeps the last of these bytes.
    fn keep(&self, taken: &[u8]) {
        let from = taken.len().saturating_sub(MOST_AT_ONCE);
        if let Some(last) = taken.get(from..) {
            self.slot.take(self.alloc, last);
        }
    }
}

impl<'n, W: Write + Drop> Write for Written<'n, W> {
    ghost contents = { λ w. W.contents w.writer };

    fn write(&mut self, buf: &[u8]) -> Result<usize> {
        match self.writer.write(buf) {
            Ok(count) => {
                if let Some(taken) = buf.get(..count) {
                    self.keep(taken);
                }
                Ok(count)
            }
            Err(error) => {
                self.slot.blame(error);
                Err(error)
            }
        }
    }

    fn flush(&mut self) -> Result<()> {
        match self.writer.flush() {
            Ok(()) => Ok(()),
            Err(error) => {
                self.slot.blame(error);
                Err(error)
            }
        }
    }
}
