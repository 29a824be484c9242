//! The fields of a word, as numbers.
ghost use Rattle.std.specs.Prelude.{◌≡◌};
ghost use Rattle.dc_word.specs.Bcd.{bcd_of};
ghost use Rattle.dc_embed.specs.Decoding.{status_number, digits_of, bad_digit_of};

use dc_word::{Format, Status, Word};

/// The fields of a word.
#[repr(C)]
#[derive(Clone, Copy, Debug, PartialEq, Eq)]
pub struct Fields {
    /// The label as the number of its three octal digits.
    pub label: u32,
    /// The SDI, 0 to 3.
    pub sdi: u32,
    /// The SSM, 0 to 3.
    pub ssm: u32,
    /// What the SSM says in the format, 1 to 7.
    pub status: u32,
    /// The 19 bits of data.
    pub bits: u32,
    /// The data as a number in two's complement.
    pub bnr: i32,
    /// The data as five decimal digits, or 0 where one is none.
    pub bcd: u32,
    /// The place of the first digit that is none, 2 to 5, or 0.
    pub bad_digit: u32,
    /// Whether the number of ones is odd.
    pub is_odd: bool,
    /// Whether the SSM says that data in the format may be used.
    pub is_usable: bool,
}

/// The number that the digits of a word write, or the first place that is no digit.
fn digits(word: Word) -> (u32, u32)
    ensures { (result.0 ≡ digits_of (bcd_of word)) × (result.1 ≡ bad_digit_of (bcd_of word)) }
{
    match word.bcd() {
        Ok(number) => (number, 0),
        Err(place) => (0, u32::from(place.number())),
    }
}

/// The number of a status.
fn status_code(status: Status) -> u32
    ensures { result ≡ status_number status }
{
    match status {
        Status::FailureWarning => 1,
        Status::NoComputedData => 2,
        Status::FunctionalTest => 3,
        Status::Normal => 4,
        Status::Plus => 5,
        Status::Minus => 6,
        Status::Verified => 7,
    }
}

impl Fields {
    ghost use Rattle.dc_embed.specs.Decoding.{fields_of};

    /// The fields of a word in a format.
    pub fn of(word: Word, format: Format) -> Fields
        ensures { result ≡ fields_of format word }
    {
        let (bcd, bad_digit) = digits(word);
        Fields {
            label: u32::from(word.label_number()),
            sdi: word.sdi(),
            ssm: word.ssm(),
            status: status_code(word.status(format)),
            bits: word.data(),
            bnr: word.bnr(),
            bcd,
            bad_digit,
            is_odd: word.is_odd(),
            is_usable: word.usable(format),
        }
    }
}
