//! Names, and those that are made of others.
use dc_document::Name;

/// How many bytes a name has at most that is made of a bus, a label and an SDI.
const MOST_LETTERS: usize = 24;

/// A text of up to 24 bytes; what is written past them is lost.
#[derive(Clone, Copy, PartialEq)]
pub struct Letters {
    bytes: [u8; MOST_LETTERS],
    length: usize,
}

impl Letters {
    /// A text of nothing.
    pub fn empty() -> Letters {
        Letters {
            bytes: [0; MOST_LETTERS],
            length: 0,
        }
    }

    /// These bytes, as far as there is room.
    pub fn of(text: &[u8]) -> Letters {
        let mut letters = Letters::empty();
        letters.add(text);
        letters
    }

    /// This name.
    pub(crate) fn named(name: &Name) -> Letters {
        Letters::of(name.text())
    }

    /// This name, where there is one.
    pub(crate) fn perhaps(name: &Option<Name>) -> Option<Letters> {
        match name {
            Some(name) => Some(Letters::named(name)),
            None => None,
        }
    }

    /// Writes these bytes behind the others.
    pub fn add(&mut self, text: &[u8]) {
        for byte in text {
            let length = self.length;
            if let Some(place) = self.bytes.get_mut(length) {
                *place = *byte;
                self.length = length.saturating_add(1);
            }
        }
    }

    /// Writes a digit, 0 to 9, behind the others.
    pub fn add_digit(&mut self, digit: u64) {
        let byte = b"0123456789".get((digit % 10) as usize).copied();
        self.add(&[byte.unwrap_or(b'0')]);
    }

    /// Its bytes.
    pub fn text(&self) -> &[u8] {
        if self.length <= MOST_LETTERS {
            &self.bytes[..self.length]
        } else {
            &self.bytes
        }
    }

    /// How many bytes it has.
    pub fn len(&self) -> usize {
        self.length
    }

    /// Whether it has none.
    pub fn is_empty(&self) -> bool {
        self.length == 0
    }

    /// Whether it begins with another one and a hyphen.
    pub(crate) fn begins_with(&self, start: &Letters) -> bool {
        let mut place = 0usize;
        for byte in start.text() {
            if self.bytes.get(place) != Some(byte) {
                return false;
            }
            place = place.saturating_add(1);
        }
        self.bytes.get(place) == Some(&b'-')
    }
}
