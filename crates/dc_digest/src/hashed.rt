//! A source of which what it gives is hashed.
use dc_device::{Broken, Source};
use sha2::{Digest, Sha256};
use std::alloc::{AllocError, Global};
use std::cell::RefCell;
use std::mem;

/// The digest of a text while that is read. A cell holds it, of which no clause knows anything.
#[derive(Drop)]
pub struct Hashing {
    hasher: RefCell<Sha256>,
}

impl Hashing {
    /// That of no bytes yet.
    pub fn new() -> Self {
        Hashing {
            hasher: RefCell::new(Sha256::new()),
        }
    }

    /// Hashes these bytes too.
    fn take(&self, bytes: &[u8]) {
        if let Ok(mut hasher) = self.hasher.try_borrow_mut() {
            hasher.update(bytes);
        }
    }

    /// The 64 digits of the digest of what was read, in lower case; what is read from then on is another text.
    ///
    /// # Errors
    /// `AllocError` where memory was refused.
    pub fn end(&self, alloc: Global) -> Result<String, AllocError> {
        let Ok(mut hasher) = self.hasher.try_borrow_mut() else {
            return Ok(String::new(alloc));
        };
        let digest = mem::replace(&mut *hasher, Sha256::new()).finalize();
        hex::encode(alloc, digest.as_slice())
    }
}

/// A source that gives what another gives, which is hashed.
#[derive(Drop)]
pub struct Hashed<'h, S> {
    /// The source.
    pub source: S,
    /// The digest of what it gives.
    pub hashing: &'h Hashing,
}

impl<'h, S: Source> Source for Hashed<'h, S> {
    ghost state = { λ h. S.state h.source };

    fn pull(&mut self, buf: &mut [u8]) -> Result<usize, Broken> {
        match self.source.pull(buf) {
            Ok(count) => {
                if let Some(given) = buf.get(..count) {
                    self.hashing.take(given);
                }
                Ok(count)
            }
            Err(broken) => Err(broken),
        }
    }

    fn failures(&self) -> u64 {
        self.source.failures()
    }

    fn pulls(&self) -> u64 {
        self.source.pulls()
    }

    fn dry_pulls(&self) -> u64 {
        self.source.dry_pulls()
    }
}
