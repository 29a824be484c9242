//! Numbers as `observe` prints them.
ghost use Rattle.std.specs.Prelude.{◌≡◌, ◌+◌, ◌-◌, ◌*◌, ◌^◌, ◌<◌, ◌≤◌};
ghost use Rattle.std.specs.Str.Parse.{AllDigits, digits_value};
ghost use Rattle.dc_seen.specs.Numbers.{is_decimal, maybe_number_of, number_of};

use itoa::Buffer;

/// Whether a text is the decimal digits of a number.
pub(crate) fn is_decimal(text: &[u8], number: u64) -> bool
    ensures { result ≡ is_decimal text.now number }
{
    let mut buffer = Buffer::new();
    text == buffer.format(number).as_bytes()
}

/// A number with one decimal digit behind it, where that is below 2^64; behind another byte some number.
fn with_digit(number: u64, byte: u8) -> u64
    ensures { 48 ≤ byte → number * 10 + (byte - 48) < 2 ^ 64 → result ≡ number * 10 + (byte - 48) }
{
    let digit = u64::from(byte.saturating_sub(b'0'));
    number.saturating_mul(10).saturating_add(digit)
}

/// The number that decimal digits write, where it is below 2^64; of another text some number.
fn worth(text: &[u8]) -> u64
    ensures { AllDigits 10 text.now → digits_value 10 text.now < 2 ^ 64 → result ≡ digits_value 10 text.now }
{
    let mut number: u64 = 0;
    for c in text {
        number = with_digit(number, *c);
    }
    number
}

/// The number below 2^64 whose decimal digits a text is, with no leading zero.
pub(crate) fn read_number(text: &[u8]) -> Option<u64>
    ensures { result ≡ number_of text.now }
{
    let number = worth(text);
    if is_decimal(text, number) {
        return Some(number);
    }
    None
}

/// A number, or none for a dash; none at all where the text is neither.
#[tactic(auto, unfolding(crate::specs::Numbers::maybe_number_of))]
pub(crate) fn read_maybe(text: &[u8]) -> Option<Option<u64>>
    ensures { result ≡ maybe_number_of text.now }
{
    if text == b"-".as_slice() {
        return Some(None);
    }
    match read_number(text) {
        Some(number) => Some(Some(number)),
        None => None,
    }
}
