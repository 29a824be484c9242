//! A text that grows by what is written.
ghost use Rattle.std.specs.Prelude.{◌≡◌, []};

use dc_device::{Broken, Sink};
use std::alloc::Global;

/// A text that grows by what is written onto it. A push that finds no memory fails.
#[derive(Drop)]
pub(crate) struct Growing {
    text: Vec<u8>,
    failures: u64,
    has_failed: bool,
    is_hidden: bool,
}

impl Growing {
    /// A text of no bytes.
    pub fn new(alloc: Global) -> Self
        ensures text { result.text.items ≡ [] }
        ensures failures { result.failures ≡ 0 }
    {
        Growing {
            text: Vec::new(alloc),
            failures: 0,
            has_failed: false,
            is_hidden: false,
        }
    }

    /// The text.
    pub fn into_text(self) -> Vec<u8>
        ensures { result.items ≡ self.text.items }
    {
        let Growing { text, .. } = self;
        text
    }
}

impl Sink for Growing {
    ghost use Rattle.std.specs.Prelude.{Some, None, true};

    ghost state = { λ s. record { contents = Some s.text.items; failed = s.failures; last_failed = s.has_failed; hidden = s.is_hidden; answered = None } };

    ghost has_readers = { true };

    fn push(&mut self, bytes: &[u8]) -> Result<usize, Broken> {
        match self.text.extend_from_slice(bytes) {
            Ok(()) => {
                self.has_failed = false;
                self.is_hidden = true;
                Ok(bytes.len())
            }
            Err(_) => {
                self.has_failed = true;
                self.failures += 1;
                Err(Broken)
            }
        }
    }

    fn flush(&mut self) -> Result<(), Broken> {
        self.has_failed = false;
        self.is_hidden = false;
        Ok(())
    }

    fn note_ask(&mut self) {}

    fn failures(&self) -> u64 {
        self.failures
    }

    fn hides(&self) -> bool {
        self.is_hidden
    }
}
