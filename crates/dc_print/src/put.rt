//! Numbers, put into a pen.
ghost use Rattle.std.specs.Prelude.{◌≡◌, [], ◌∷◌, ◌++◌, ◌+◌, ◌/◌, ◌%◌, ◌≤◌, length};
ghost use Rattle.std.specs.Fmt.{decimal, signed_decimal};
ghost use Rattle.dc_event.specs.WordText.{digit, eight_hex};
ghost use Rattle.dc_print.specs.Text.{three_octal};

use dc_device::Pen;
use itoa::write_digits;

/// The two hexadecimal digits of each byte.
static HEX_PAIRS: [u8; 512] =
    *b"000102030405060708090A0B0C0D0E0F101112131415161718191A1B1C1D1E1F202122232425262728292A2B2C2D2E2F303132333435363738393A3B3C3D3E3F404142434445464748494A4B4C4D4E4F505152535455565758595A5B5C5D5E5F606162636465666768696A6B6C6D6E6F707172737475767778797A7B7C7D7E7F808182838485868788898A8B8C8D8E8F909192939495969798999A9B9C9D9E9FA0A1A2A3A4A5A6A7A8A9AAABACADAEAFB0B1B2B3B4B5B6B7B8B9BABBBCBDBEBFC0C1C2C3C4C5C6C7C8C9CACBCCCDCECFD0D1D2D3D4D5D6D7D8D9DADBDCDDDEDFE0E1E2E3E4E5E6E7E8E9EAEBECEDEEEFF0F1F2F3F4F5F6F7F8F9FAFBFCFDFEFF";

/// The two hexadecimal digits of a byte.
#[inline(always)]
fn hex_pair(byte: u8) -> [u8; 2]
    ensures { result ≡ digit (byte / 16) ∷ digit (byte % 16) ∷ [] }
{
    let at = byte as usize * 2;
    [HEX_PAIRS[at], HEX_PAIRS[at + 1]]
}

/// Puts eight hexadecimal digits at the end.
#[inline(always)]
pub fn put_hex_8<const CAP: usize>(pen: &mut Pen<CAP>, n: u32)
    requires { length pen.old + 8 ≤ CAP }
    ensures { pen.new ≡ pen.old ++ eight_hex n }
{
    pen.put(&hex_pair((n / 16_777_216) as u8));
    pen.put(&hex_pair((n / 65_536 % 256) as u8));
    pen.put(&hex_pair((n / 256 % 256) as u8));
    pen.put(&hex_pair((n % 256) as u8));
}

/// Puts the last three octal digits at the end.
#[inline(always)]
pub(crate) fn put_octal_3<const CAP: usize>(pen: &mut Pen<CAP>, n: u8)
    requires { length pen.old + 3 ≤ CAP }
    ensures { pen.new ≡ pen.old ++ three_octal n }
{
    pen.put(&[48 + n / 64 % 8, 48 + n / 8 % 8, 48 + n % 8]);
}

/// Puts a number in decimal at the end.
#[inline(always)]
pub fn put_number<const CAP: usize>(pen: &mut Pen<CAP>, n: u64)
    requires { length pen.old + 20 ≤ CAP }
    ensures items { pen.new ≡ pen.old ++ decimal n }
    ensures len { length pen.new ≤ length pen.old + 20 }
{
    let mut buffer = [0; 40];
    let start = write_digits(n, &mut buffer, 20);
    pen.put_part::<20>(&buffer, start, 20 - start);
}

/// Puts a number in decimal at the end, with its sign where it is below 0.
#[inline(always)]
pub(crate) fn put_signed<const CAP: usize>(pen: &mut Pen<CAP>, n: i32)
    requires { length pen.old + 21 ≤ CAP }
    ensures items { pen.new ≡ pen.old ++ signed_decimal n }
    ensures len { length pen.new ≤ length pen.old + 21 }
{
    if n < 0 {
        pen.put(b"-");
    }
    put_number(pen, u64::from(n.unsigned_abs()));
}
