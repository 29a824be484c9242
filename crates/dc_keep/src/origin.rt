//! Where the text of a file comes from.
use std::io::{Read, Result};

/// A file, or standard input in its place.
#[derive(Drop)]
pub enum Origin<F: Drop, I: Drop> {
    /// A file.
    File(F),
    /// Standard input.
    Input(I),
}

impl<F: Read + Drop, I: Read + Drop> Read for Origin<F, I> {
    fn read(&mut self, buf: &mut [u8]) -> Result<usize> {
        match self {
            Origin::File(file) => file.read(buf),
            Origin::Input(input) => input.read(buf),
        }
    }
}
