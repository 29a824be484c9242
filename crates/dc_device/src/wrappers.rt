//! Std's readers and writers as devices, and a sink that nobody reads.
ghost use Rattle.std.specs.Prelude.{◌≡◌, None, false, true};

use crate::device::{Broken, Sink, Source};
use std::io::{Read, Write};

/// A reader as a source. It counts every error, `Interrupted` too.
#[derive(Drop)]
pub struct ReadSource<R: Drop> {
    reader: R,
    failures: u64,
    pulls: u64,
    dry_pulls: u64,
}

impl<R: Drop> ReadSource<R> {
    /// The reader as a source that has not failed yet.
    pub fn new(reader: R) -> Self
        ensures reader { result.reader ≡ reader }
        ensures failures { result.failures ≡ 0 }
        ensures pulls { result.pulls ≡ 0 }
        ensures dry_pulls { result.dry_pulls ≡ 0 }
    {
        ReadSource {
            reader,
            failures: 0,
            pulls: 0,
            dry_pulls: 0,
        }
    }
}

impl<R: Read + Drop> Source for ReadSource<R> {
    ghost state = { λ s. record { remaining = R.remaining s.reader; failed = s.failures; asked = s.pulls; dry = s.dry_pulls } };

    fn pull(&mut self, buf: &mut [u8]) -> Result<usize, Broken> {
        self.pulls = self.pulls.saturating_add(1);
        match self.reader.read(buf) {
            Ok(n) => {
                if n == 0 {
                    self.dry_pulls = self.dry_pulls.saturating_add(1);
                }
                Ok(n)
            }
            Err(_) => {
                self.failures += 1;
                self.dry_pulls = self.dry_pulls.saturating_add(1);
                Err(Broken)
            }
        }
    }

    fn failures(&self) -> u64 {
        self.failures
    }

    fn pulls(&self) -> u64 {
        self.pulls
    }

    fn dry_pulls(&self) -> u64 {
        self.dry_pulls
    }
}

/// A writer as a sink. It counts every error, `Interrupted` too, and a write that takes none of the bytes.
#[derive(Drop)]
pub struct WriteSink<W: Drop> {
    writer: W,
    failures: u64,
    has_failed: bool,
    hides: bool,
}

impl<W: Drop> WriteSink<W> {
    /// The writer as a sink that has not failed yet.
    pub fn new(writer: W) -> Self
        ensures writer { result.writer ≡ writer }
        ensures failures { result.failures ≡ 0 }
        ensures hides { result.hides ≡ false }
    {
        WriteSink {
            writer,
            failures: 0,
            has_failed: false,
            hides: false,
        }
    }
}

impl<W: Write + Drop> Sink for WriteSink<W> {
    ghost state = { λ s. record {
      contents = W.contents s.writer;
      failed = s.failures;
      last_failed = s.has_failed;
      hidden = s.hides;
      answered = None;
    } };

    ghost has_readers = { true };

    fn push(&mut self, bytes: &[u8]) -> Result<usize, Broken> {
        self.has_failed = true;
        self.hides = true;
        match self.writer.write(bytes) {
            Ok(n) => {
                if n == 0 && !bytes.is_empty() {
                    self.failures += 1;
                    return Err(Broken);
                }
                self.has_failed = false;
                Ok(n)
            }
            Err(_) => {
                self.failures += 1;
                Err(Broken)
            }
        }
    }

    fn flush(&mut self) -> Result<(), Broken> {
        match self.writer.flush() {
            Ok(()) => {
                self.has_failed = false;
                self.hides = false;
                Ok(())
            }
            Err(_) => {
                self.failures += 1;
                self.has_failed = true;
                Err(Broken)
            }
        }
    }

    fn note_ask(&mut self) {}

    fn failures(&self) -> u64 {
        self.failures
    }

    fn hides(&self) -> bool {
        self.hides
    }
}

/// A sink that nobody reads: what it takes is gone, so nothing of it is hidden.
#[derive(Clone, Copy, Debug)]
pub struct Nowhere;

impl Sink for Nowhere {
    ghost state = { λ s. record { contents = None; failed = 0; last_failed = false; hidden = false; answered = None } };

    ghost has_readers = { false };

    fn push(&mut self, bytes: &[u8]) -> Result<usize, Broken> {
        Ok(bytes.len())
    }

    fn flush(&mut self) -> Result<(), Broken> {
        Ok(())
    }

    fn note_ask(&mut self) {}

    fn failures(&self) -> u64 {
        0
    }

    fn hides(&self) -> bool {
        false
    }
}
