//! Texts that stand for a word, a label or a code.
ghost use Rattle.std.specs.Prelude.{◌≡◌, ℕ, ◌<◌, ◌≤◌, IfSome};
ghost use Rattle.toml.specs.Data.{same_key};
ghost use Rattle.dc_toml.specs.Keys.{three_digits as three_digits_of, label_in, label_of, equipment_of, speed_of, format_of};

use dc_dict::Equipment;
use dc_document::Speed;
use dc_word::{Format, Label, digit_in};

/// Whether two texts are the same.
pub fn is_same(one: &str, other: &str) -> bool
    ensures { result ≡ same_key one.now other.now }
{
    one == other
}

/// The speed that a text names.
pub fn speed(text: &str) -> Option<Speed>
    ensures { result ≡ speed_of text.now }
{
    if is_same(text, "high") {
        Some(Speed::High)
    } else if is_same(text, "low") {
        Some(Speed::Low)
    } else {
        None
    }
}

/// The format that a text names.
pub fn format(text: &str) -> Option<Format>
    ensures { result ≡ format_of text.now }
{
    if is_same(text, "bnr") {
        Some(Format::Bnr)
    } else if is_same(text, "bcd") {
        Some(Format::Bcd)
    } else if is_same(text, "disc") {
        Some(Format::Disc)
    } else {
        None
    }
}

/// The values of three digits.
fn three_digits(base: u32, text: &[u8]) -> Option<(u32, u32, u32)>
    requires { (2 ≤ base) × (base ≤ 16) }
    ensures value { result ≡ three_digits_of base text.now }
    ensures below { IfSome result (λ d. (d.0 < base) × (d.1 < base) × (d.2 < base)) }
{
    if text.len() != 3 {
        return None;
    }
    let Some(high) = digit_in(base, text[0]) else {
        return None;
    };
    let Some(middle) = digit_in(base, text[1]) else {
        return None;
    };
    let Some(low) = digit_in(base, text[2]) else {
        return None;
    };
    Some((high, middle, low))
}

/// The label with this number.
fn label_of_number(number: u32) -> Option<Label>
    ensures { result ≡ label_in number }
{
    if number >= 1 && number <= 255 {
        Label::new(number as u8)
    } else {
        None
    }
}

/// The label that three octal digits write, 001 to 377.
pub fn label(text: &str) -> Option<Label>
    ensures { result ≡ label_of text.now }
{
    let Some((high, middle, low)) = three_digits(8, text.as_bytes()) else {
        return None;
    };
    label_of_number(64 * high + 8 * middle + low)
}

/// The equipment code that three hexadecimal digits write, in either case.
pub fn equipment(text: &str) -> Option<Equipment>
    ensures { result ≡ equipment_of text.now }
{
    let Some((high, middle, low)) = three_digits(16, text.as_bytes()) else {
        return None;
    };
    Equipment::new((256 * high + 16 * middle + low) as u16)
}
