//! Cells that hold a word: a speed, a format, an SDI, yes or no.

ghost use Rattle.std.specs.Prelude.{◌≡◌};
ghost use Rattle.dc_cell.specs.Words.{is_word as is_word_of, is_high as is_high_of, is_low as is_low_of, is_disc as is_disc_of, is_yes as is_yes_of, is_no as is_no_of, is_any as is_any_of, speed_of, format_of, police_of, sdi_number_of, sdi_of, input_sdi_of, output_sdi_of};

use crate::fault::CellFault;
use dc_document::Speed;
use dc_word::{Format, Sdi};

/// Whether a text is this word, but for the case of its letters.
pub fn is_word(text: &[u8], word: &[u8]) -> bool
    ensures { result ≡ is_word_of word.now text.now }
{
    text.eq_ignore_ascii_case(word)
}

/// Whether a cell names high speed.
fn is_high(text: &[u8]) -> bool
    ensures { result ≡ is_high_of text.now }
{
    is_word(text, b"high") || is_word(text, b"hs") || is_word(text, b"100")
}

/// Whether a cell names low speed.
fn is_low(text: &[u8]) -> bool
    ensures { result ≡ is_low_of text.now }
{
    is_word(text, b"low")
        || is_word(text, b"ls")
        || is_word(text, b"12.5")
        || is_word(text, b"12,5")
}

/// The speed that a cell names.
pub fn speed_cell(text: &[u8]) -> Result<Speed, CellFault>
    ensures { result ≡ speed_of text.now }
{
    if is_high(text) {
        Ok(Speed::High)
    } else if is_low(text) {
        Ok(Speed::Low)
    } else {
        Err(CellFault::NotSpeed)
    }
}

/// Whether a cell names discretes.
fn is_disc(text: &[u8]) -> bool
    ensures { result ≡ is_disc_of text.now }
{
    is_word(text, b"disc") || is_word(text, b"discrete") || is_word(text, b"dis")
}

/// The format that a cell names.
pub fn format_cell(text: &[u8]) -> Result<Format, CellFault>
    ensures { result ≡ format_of text.now }
{
    if is_word(text, b"bnr") {
        Ok(Format::Bnr)
    } else if is_word(text, b"bcd") {
        Ok(Format::Bcd)
    } else if is_disc(text) {
        Ok(Format::Disc)
    } else {
        Err(CellFault::NotFormat)
    }
}

/// Whether a cell says yes.
fn is_yes(text: &[u8]) -> bool
    ensures { result ≡ is_yes_of text.now }
{
    is_word(text, b"yes") || is_word(text, b"true") || is_word(text, b"1") || is_word(text, b"x")
}

/// Whether a cell says no, or nothing.
fn is_no(text: &[u8]) -> bool
    ensures { result ≡ is_no_of text.now }
{
    text.is_empty() || is_word(text, b"no") || is_word(text, b"false") || is_word(text, b"0")
}

/// Whether a bus is to refuse early words.
pub fn police_cell(text: &[u8]) -> Result<bool, CellFault>
    ensures { result ≡ police_of text.now }
{
    if is_yes(text) {
        Ok(true)
    } else if is_no(text) {
        Ok(false)
    } else {
        Err(CellFault::NotPolice)
    }
}

/// The number of an SDI, which a cell writes in one digit or as bits 10 and 9.
fn sdi_number(text: &[u8]) -> Option<u8>
    ensures { result ≡ sdi_number_of text.now }
{
    if is_word(text, b"0") || is_word(text, b"00") {
        Some(0)
    } else if is_word(text, b"1") || is_word(text, b"01") {
        Some(1)
    } else if is_word(text, b"2") || is_word(text, b"10") {
        Some(2)
    } else if is_word(text, b"3") || is_word(text, b"11") {
        Some(3)
    } else {
        None
    }
}

/// The SDI that a cell writes.
fn sdi_cell(text: &[u8]) -> Result<Sdi, CellFault>
    ensures { result ≡ sdi_of text.now }
{
    let Some(number) = sdi_number(text) else {
        return Err(CellFault::NotSdi);
    };
    match Sdi::new(number) {
        Some(sdi) => Ok(sdi),
        None => Err(CellFault::NotSdi),
    }
}

/// Whether a cell says that every SDI is meant.
fn is_any(text: &[u8]) -> bool
    ensures { result ≡ is_any_of text.now }
{
    text.is_empty()
        || is_word(text, b"any")
        || is_word(text, b"all")
        || is_word(text, b"x")
        || is_word(text, b"-")
}

/// The SDI of an input; `None` for any.
pub fn input_sdi_cell(text: &[u8]) -> Result<Option<Sdi>, CellFault>
    ensures { result ≡ input_sdi_of text.now }
{
    if is_any(text) {
        return Ok(None);
    }
    match sdi_cell(text) {
        Ok(sdi) => Ok(Some(sdi)),
        Err(fault) => Err(fault),
    }
}

/// The SDI of an output, 0 where the cell is empty.
pub fn output_sdi_cell(text: &[u8]) -> Result<Sdi, CellFault>
    ensures { result ≡ output_sdi_of text.now }
{
    if text.is_empty() {
        sdi_cell(b"0")
    } else {
        sdi_cell(text)
    }
}
