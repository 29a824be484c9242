//! Text in a room of [`TEXT_CAPACITY`] bytes.
ghost use Rattle.std.specs.Prelude.{◌≡◌, ◌++◌, ◌+◌, ◌<◌, ◌≤◌, length, codes, decimal};
ghost use Rattle.arrayvec.specs.ArrayVec.{array_vec_len};
ghost use Rattle.dc_print.specs.Text.{five_decimal, five_hex};
ghost use Rattle.dc_event.specs.WordText.{digit, eight_hex};
ghost use Rattle.dc_print.specs.declared.text.TheConstants.{TEXT_CAPACITY};

use arrayvec::ArrayVec;
use itoa::Buffer;

/// The room of a [`Text`], in bytes.
pub const TEXT_CAPACITY: usize = 144;

/// A line that is written, or several that are parted by line feeds, without the last line feed.
pub type Text = ArrayVec<u8, TEXT_CAPACITY>;

/// Puts bytes at the end.
pub fn append(text: &mut Text, bytes: &[u8])
    requires { array_vec_len text.old + length bytes.now ≤ TEXT_CAPACITY }
    ensures items { text.new.items ≡ text.old.items ++ bytes.now }
    ensures len { array_vec_len text.new ≡ array_vec_len text.old + length bytes.now }
{
    let _ = text.try_extend_from_slice(bytes);
}

/// Puts a number in decimal at the end.
pub fn append_number(text: &mut Text, number: u64)
    requires { array_vec_len text.old + 20 ≤ TEXT_CAPACITY }
    ensures items { text.new.items ≡ text.old.items ++ decimal number }
    ensures len { array_vec_len text.new ≤ array_vec_len text.old + 20 }
{
    let mut buffer = Buffer::new();
    append(text, buffer.format(number).as_bytes());
}

/// The digit of base 16 or below, in upper case.
pub fn digit_of(d: u32) -> u8
    requires { d < 16 }
    ensures { result ≡ digit d }
{
    if d < 10 { 48 + d as u8 } else { 55 + d as u8 }
}

/// Eight hexadecimal digits.
pub fn hex_8(n: u32) -> [u8; 8]
    ensures { result ≡ eight_hex n }
{
    [
        digit_of(n / 268_435_456 % 16),
        digit_of(n / 16_777_216 % 16),
        digit_of(n / 1_048_576 % 16),
        digit_of(n / 65_536 % 16),
        digit_of(n / 4096 % 16),
        digit_of(n / 256 % 16),
        digit_of(n / 16 % 16),
        digit_of(n % 16),
    ]
}

/// The last five hexadecimal digits.
pub fn hex_5(n: u32) -> [u8; 5]
    ensures { result ≡ five_hex n }
{
    [
        digit_of(n / 65_536 % 16),
        digit_of(n / 4096 % 16),
        digit_of(n / 256 % 16),
        digit_of(n / 16 % 16),
        digit_of(n % 16),
    ]
}

/// The last five decimal digits.
pub fn decimal_5(n: u32) -> [u8; 5]
    ensures { result ≡ five_decimal n }
{
    [
        digit_of(n / 10_000 % 10),
        digit_of(n / 1000 % 10),
        digit_of(n / 100 % 10),
        digit_of(n / 10 % 10),
        digit_of(n % 10),
    ]
}
