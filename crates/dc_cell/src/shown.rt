//! Cells as they are shown.

ghost use Rattle.std.specs.Prelude.{◌≡◌, ◌≤◌, length};
ghost use Rattle.dc_cell.specs.declared.shown.TheConstants.{SHOWN_LIMIT};

use std::str::from_utf8;

/// So many bytes of a cell are shown.
pub const SHOWN_LIMIT: usize = 24;

/// The first [`SHOWN_LIMIT`] bytes of a cell as a message shows them: what is no printable character is a question mark,
/// and a double quote a single one, so that no escape sequence comes to a terminal.
#[derive(Clone, Copy, Debug, PartialEq)]
pub struct Shown {
    bytes: [u8; SHOWN_LIMIT],
    len: usize,
    ghost within: { len ≤ SHOWN_LIMIT },
}

/// A byte as it is shown.
fn shown_byte(byte: u8) -> u8 {
    match byte {
        b'"' => b'\'',
        b' '..=b'~' => byte,
        _ => b'?',
    }
}

impl Shown {
    /// The cell, as it is shown.
    pub fn new(cell: &[u8]) -> Shown
        ensures { result.len ≤ length cell.now }
    {
        let len = if cell.len() < SHOWN_LIMIT {
            cell.len()
        } else {
            SHOWN_LIMIT
        };
        let mut bytes = [0; SHOWN_LIMIT];
        for i in 0..len {
            bytes[i] = shown_byte(cell[i]);
        }
        Shown { bytes, len }
    }

    /// Whether the cell is empty.
    pub fn is_empty(&self) -> bool {
        self.len == 0
    }

    /// The text that is shown, between whose ends the double quotes are still to stand.
    pub fn as_str(&self) -> &str {
        from_utf8(&self.bytes[..self.len]).unwrap_or("?")
    }
}
