//! Cells that hold digits: a label, an equipment code, a length.

ghost use Rattle.std.specs.Prelude.{◌≡◌, ◌==◌, ◌||◌, ◌+◌, ◌*◌, ◌^◌, ◌<◌, ◌≤◌, length, position, IfSome};
ghost use Rattle.std.specs.List.{list_all, position_from};
ghost use Rattle.dc_cell.specs.Digits.{number_in as number_of_text, is_digit as is_digit_of, is_mark as is_mark_of, is_power_mark as is_power_mark_of, is_digit_or_mark as is_digit_or_mark_of, are_digits as are_digits_of, is_fraction_at, is_exponent as is_exponent_of, is_factor as is_factor_of, is_power_at, is_made_number as is_made_number_of, label_of, queue_of, steps_of, equipment_of};

use crate::fault::CellFault;
use dc_bound::GREATEST_QUEUE;
use dc_dict::{EQUIPMENT_CODES, Equipment};
use dc_document::MOST_STEPS;
use dc_word::{Label, digit_in};

/// A number with one more digit behind it.
fn with_digit(number: u64, base: u64, digit: u64) -> u64
    requires number { number < 2 ^ 36 }
    requires base { base ≤ 16 }
    requires digit { digit < base }
    ensures { result ≡ number * base + digit }
{
    number * base + digit
}

/// The number that a text writes in digits of a base: one or more, and at most so many.
#[tactic(auto, unfolding(crate::specs::Digits::number_in))]
pub fn number_in(base: u32, most: usize, text: &[u8]) -> Option<u64>
    requires base { (2 ≤ base) × (base ≤ 16) }
    requires most { most ≤ 9 }
    ensures value { result ≡ number_of_text base most text.now }
    ensures below { IfSome result (λ n. n < 2 ^ 36) }
    ensures short { IfSome result (λ n. length text.now ≤ most) }
{
    if text.is_empty() || text.len() > most {
        return None;
    }
    let mut number: u64 = 0;
    for c in text {
        let digit = digit_in(base, *c)?;
        number = with_digit(number, u64::from(base), u64::from(digit));
    }
    Some(number)
}

/// The label of a cell of one to three octal digits, 1 to 377.
pub fn label_cell(text: &[u8]) -> Result<Label, CellFault>
    ensures { result ≡ label_of text.now }
{
    let Some(number) = number_in(8, 3, text) else {
        return Err(CellFault::NotLabel);
    };
    if number < 1 || number > 255 {
        return Err(CellFault::NotLabel);
    }
    match Label::new(number as u8) {
        Some(label) => Ok(label),
        None => Err(CellFault::NotLabel),
    }
}

/// The length of a queue in words, 1 to [`GREATEST_QUEUE`].
pub fn queue_cell(text: &[u8]) -> Result<u32, CellFault>
    ensures { result ≡ queue_of text.now }
{
    let Some(number) = number_in(10, 4, text) else {
        return Err(CellFault::NotQueue);
    };
    if number < 1 || number > u64::from(GREATEST_QUEUE) {
        return Err(CellFault::NotQueue);
    }
    Ok(number as u32)
}

/// A number of steps, 1 to [`MOST_STEPS`].
pub fn steps_cell(text: &[u8]) -> Result<u32, CellFault>
    ensures { result ≡ steps_of text.now }
{
    let Some(number) = number_in(10, 4, text) else {
        return Err(CellFault::NotSteps);
    };
    if number < 1 || number > u64::from(MOST_STEPS) {
        return Err(CellFault::NotSteps);
    }
    Ok(number as u32)
}

/// Whether a byte is a decimal digit.
fn is_digit(byte: u8) -> bool
    ensures { result ≡ is_digit_of byte }
{
    matches!(byte, b'0'..=b'9')
}

/// Whether a byte is a point or a comma.
fn is_mark(byte: u8) -> bool
    ensures { result ≡ is_mark_of byte }
{
    byte == b'.' || byte == b','
}

/// Whether a byte is a decimal digit, a point or a comma.
fn is_digit_or_mark(byte: u8) -> bool
    ensures { result ≡ is_digit_or_mark_of byte }
{
    is_digit(byte) || is_mark(byte)
}

/// Whether each byte is a decimal digit.
fn has_only_digits(text: &[u8]) -> bool
    ensures { result ≡ list_all is_digit_of text.now }
{
    for byte in text {
        if !is_digit(*byte) {
            return false;
        }
    }
    true
}

/// Whether each byte is a decimal digit, a point or a comma.
fn has_only_digits_and_marks(text: &[u8]) -> bool
    ensures { result ≡ list_all is_digit_or_mark_of text.now }
{
    for byte in text {
        if !is_digit_or_mark(*byte) {
            return false;
        }
    }
    true
}

/// Whether a text is one or more decimal digits.
fn are_digits(text: &[u8]) -> bool
    ensures { result ≡ are_digits_of text.now }
{
    text.len() > 0 && has_only_digits(text)
}

/// Whether a byte is one of two.
fn is_either(byte: u8, one: u8, other: u8) -> bool
    ensures { result ≡ (byte == one || byte == other) }
{
    byte == one || byte == other
}

/// Where the first of two bytes stands in a text.
fn place_of(one: u8, other: u8, text: &[u8]) -> Option<usize>
    ensures value { result ≡ position_from (λ byte. byte == one || byte == other) 0 text.now }
    ensures within { IfSome result (λ at. at < length text.now) }
{
    for (at, byte) in text.iter().enumerate() {
        if is_either(*byte, one, other) {
            return Some(at);
        }
    }
    None
}

/// Where the first point or comma of a text stands.
pub fn mark_at(text: &[u8]) -> Option<usize>
    ensures value { result ≡ position is_mark_of text.now }
    ensures within { IfSome result (λ at. at < length text.now) }
{
    place_of(b'.', b',', text)
}

/// Where the first E of a text stands.
fn power_mark_at(text: &[u8]) -> Option<usize>
    ensures value { result ≡ position is_power_mark_of text.now }
    ensures within { IfSome result (λ at. at < length text.now) }
{
    place_of(b'E', b'e', text)
}

/// Whether a text is digits, a point or a comma, and digits.
fn is_fraction(text: &[u8]) -> bool
    ensures { result ≡ is_fraction_at text.now (position is_mark_of text.now) }
{
    match mark_at(text) {
        Some(at) => are_digits(&text[..at]) && are_digits(&text[at + 1..]),
        None => false,
    }
}

/// Whether a text is digits behind a sign or none.
fn is_exponent(text: &[u8]) -> bool
    ensures { result ≡ is_exponent_of text.now }
{
    if text.is_empty() {
        return false;
    }
    are_digits(text) || ((text[0] == b'+' || text[0] == b'-') && are_digits(&text[1..]))
}

/// Whether a text is a digit, and then digits, points and commas.
fn is_factor(text: &[u8]) -> bool
    ensures { result ≡ is_factor_of text.now }
{
    if text.is_empty() {
        return false;
    }
    are_digits(&text[..1]) && has_only_digits_and_marks(text)
}

/// Whether a text is a factor, an E and an exponent.
fn is_power(text: &[u8]) -> bool
    ensures { result ≡ is_power_at text.now (position is_power_mark_of text.now) }
{
    match power_mark_at(text) {
        Some(at) => is_factor(&text[..at]) && is_exponent(&text[at + 1..]),
        None => false,
    }
}

/// Whether a text is a decimal number as a spreadsheet writes one.
fn is_made_number(text: &[u8]) -> bool
    ensures { result ≡ is_made_number_of text.now }
{
    is_fraction(text) || is_power(text)
}

/// The equipment code of a cell of one to three hexadecimal digits.
pub fn equipment_cell(text: &[u8]) -> Result<Equipment, CellFault>
    ensures { result ≡ equipment_of text.now }
{
    let Some(number) = number_in(16, 3, text) else {
        if is_made_number(text) {
            return Err(CellFault::MadeNumber);
        }
        return Err(CellFault::NotEquipment);
    };
    if number >= u64::from(EQUIPMENT_CODES) {
        return Err(CellFault::NotEquipment);
    }
    match Equipment::new(number as u16) {
        Some(equipment) => Ok(equipment),
        None => Err(CellFault::NotEquipment),
    }
}
