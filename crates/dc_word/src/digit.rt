//! Digits of a base.

ghost use Rattle.std.specs.Prelude.{◌≡◌, ◌<◌, ◌≤◌, IfSome};
ghost use Rattle.dc_word.specs.Digits.{digit_in as value_in};

/// The value of a digit in a base of 2 to 16, its letters in either case; `None` where the byte is no digit of it.
pub fn digit_in(base: u32, byte: u8) -> Option<u32>
    requires { (2 ≤ base) × (base ≤ 16) }
    ensures value { result ≡ value_in base byte }
    ensures below { IfSome result (λ value. value < base) }
{
    char::from(byte).to_digit(base)
}
