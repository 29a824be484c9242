//! Texts that are drawn up piece by piece, and numbers that are drawn by a seed.

ghost use Rattle.std.specs.Prelude.{◌<◌, ◌≤◌};

use itoa::Buffer;
use std::alloc::Global;

const HEX: [u8; 16] = *b"0123456789ABCDEF";

/// A text that grows by what is put; where memory is refused it is cut short.
#[derive(Drop)]
pub struct Text {
    bytes: Vec<u8>,
}

impl Text {
    /// A text of no bytes.
    pub fn new(alloc: Global) -> Text {
        Text {
            bytes: Vec::new(alloc),
        }
    }

    /// The bytes.
    pub fn bytes(&self) -> &[u8] {
        self.bytes.as_slice()
    }

    /// Puts a piece.
    pub fn put(&mut self, piece: &[u8]) {
        let _ = self.bytes.extend_from_slice(piece);
    }

    /// Puts a number in digits.
    pub fn number(&mut self, number: u64) {
        let mut buffer = Buffer::new();
        self.put(buffer.format(number).as_bytes());
    }

    /// Puts a piece, a number and another piece.
    pub fn field(&mut self, before: &[u8], number: u64, after: &[u8]) {
        self.put(before);
        self.number(number);
        self.put(after);
    }

    /// Puts a label as three octal digits.
    pub fn octal(&mut self, label: u64) {
        let digits = [
            digit(label / 64 % 8),
            digit(label / 8 % 8),
            digit(label % 8),
        ];
        self.put(&digits);
    }

    /// Puts a word as eight hexadecimal digits and a line feed.
    pub fn word(&mut self, word: u32) {
        let line = [
            nibble(word, 28),
            nibble(word, 24),
            nibble(word, 20),
            nibble(word, 16),
            nibble(word, 12),
            nibble(word, 8),
            nibble(word, 4),
            nibble(word, 0),
            b'\n',
        ];
        self.put(&line);
    }
}

// The hexadecimal digit of the four bits from this one on.
fn nibble(word: u32, from: u32) -> u8
    requires { from < 32 }
{
    HEX[((word >> from) % 16) as usize]
}

// The digit of a number below 10.
fn digit(value: u64) -> u8
    requires { value < 10 }
{
    b'0' + value as u8
}

/// A number that a seed and two places decide.
pub fn mixed(seed: u64, one: u64, other: u64) -> u64 {
    let mut sum = seed
        .wrapping_mul(0x9E37_79B9_7F4A_7C15)
        .wrapping_add(one.wrapping_mul(0xD1B5_4A32_D192_ED03))
        .wrapping_add(other.wrapping_mul(0x8CB9_2BA7_2F3D_8DD7));
    sum = (sum ^ (sum >> 30)).wrapping_mul(0xBF58_476D_1CE4_E5B9);
    sum = (sum ^ (sum >> 27)).wrapping_mul(0x94D0_49BB_1331_11EB);
    sum ^ (sum >> 31)
}

/// The same, below a number of 1 or more.
pub fn below(seed: u64, one: u64, other: u64, count: u64) -> u64
    requires { 1 ≤ count }
    ensures { result < count }
{
    mixed(seed, one, other) % count
}
