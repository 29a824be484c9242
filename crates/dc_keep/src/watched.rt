//! A reader of which it is shown how far it is, and a writer for which that makes way.
use crate::progress::Progress;
use std::io::{Read, Result, Write};
use std::rt::Clock;

/// A reader that gives what another gives, of which it is shown how far it is.
#[derive(Drop)]
pub struct Watched<'n, H, R: Drop> {
    runtime: &'n H,
    reader: R,
    progress: &'n Progress,
}

impl<'n, H, R: Drop> Watched<'n, H, R> {
    /// The reader, whose progress is shown by this runtime.
    pub fn new(runtime: &'n H, reader: R, progress: &'n Progress) -> Self {
        Watched {
            runtime,
            reader,
            progress,
        }
    }
}

impl<'n, H: Eprint + Clock, R: Read + Drop> Read for Watched<'n, H, R> {
    ghost remaining = { λ w. R.remaining w.reader };

    fn read(&mut self, buf: &mut [u8]) -> Result<usize> {
        match self.reader.read(buf) {
            Ok(count) => {
                if let Some(given) = buf.get(..count) {
                    self.progress.pass(self.runtime, given);
                }
                Ok(count)
            }
            Err(error) => Err(error),
        }
    }
}

/// A writer that takes what another takes, for which the progress that is shown makes way.
#[derive(Drop)]
pub struct Cleared<'n, H, W: Drop> {
    runtime: &'n H,
    writer: W,
    progress: &'n Progress,
}

impl<'n, H, W: Drop> Cleared<'n, H, W> {
    /// The writer, for which this progress makes way.
    pub fn new(runtime: &'n H, writer: W, progress: &'n Progress) -> Self {
        Cleared {
            runtime,
            writer,
            progress,
        }
    }
}

impl<'n, H: Eprint, W: Write + Drop> Write for Cleared<'n, H, W> {
    ghost contents = { λ w. W.contents w.writer };

    fn write(&mut self, buf: &[u8]) -> Result<usize> {
        self.progress.make_way(self.runtime);
        self.writer.write(buf)
    }

    fn flush(&mut self) -> Result<()> {
        self.writer.flush()
    }
}
