//! The word, its fields and its parity.

ghost use Rattle.std.specs.Prelude.{◌≡◌, ℕ, ◌<◌, ◌^◌, ◌↔◌, IsTrue};
ghost use Rattle.dc_word.specs.Format.{status_of, is_usable};
ghost use Rattle.dc_word.specs.Word.{reversed, label_of, sdi_of, data_of, ssm_of, IsOddParity, is_odd, bnr_of};
ghost use Rattle.dc_word.specs.Word.{composed_word, copied_word, fallback_word, IsOneOddWord};
ghost use Rattle.dc_word.specs.Bcd.{bcd_of, number_of};

use crate::field::{Label, Sdi};
use crate::format::{Format, Status};
use std::marker::Model;

/// A word as a number of 32 bits: bit n of the standard, 1 to 32, has the value 2^(n-1)
/// (ARINC Specification 429 Part 1, 2.1).
#[derive(Clone, Copy, Debug, PartialEq, Eq, Hash)]
pub struct Word(pub u32);

impl Model for Word {
    ghost Value = { ℕ };

    ghost view = { λ w. w.0 };

    ghost inverse = { λ n. record { 0 = n } };
}

/// Which of the five BCD digits, the most significant being the first. The first has three bits and is always a digit.
#[derive(Clone, Copy, Debug, PartialEq, Eq, Hash)]
pub enum DigitPlace {
    /// The second digit, bits 23 to 26.
    Second,
    /// The third digit, bits 19 to 22.
    Third,
    /// The fourth digit, bits 15 to 18.
    Fourth,
    /// The fifth digit, bits 11 to 14.
    Fifth,
}

impl DigitPlace {
    /// The place as a number, 2 to 5.
    pub fn number(self) -> u8
        ensures { result ≡ number_of self }
    {
        match self {
            DigitPlace::Second => 2,
            DigitPlace::Third => 3,
            DigitPlace::Fourth => 4,
            DigitPlace::Fifth => 5,
        }
    }
}

impl Word {
    /// The word as a number of 32 bits.
    pub fn bits(self) -> u32
        ensures value { result ≡ self }
        ensures within { self < 2 ^ 32 }
    {
        let Word(bits) = self;
        bits
    }

    /// The label as the number that its three octal digits write, 0 to 255 (ARINC Specification 429 Part 1, 2.1.3).
    pub fn label_number(self) -> u8
        ensures { result ≡ label_of self }
    {
        reversed_bits((self.0 % 256) as u8)
    }

    /// The SDI: bit 9 and twice bit 10, 0 to 3 (ARINC Specification 429 Part 1, 2.1.4).
    pub fn sdi(self) -> u32
        ensures { result ≡ sdi_of self }
    {
        self.0 / 256 % 4
    }

    /// The data: bits 11 to 29, below 2^19.
    pub fn data(self) -> u32
        ensures { result ≡ data_of self }
    {
        self.0 / 1024 % 524_288
    }

    /// The SSM: bit 30 and twice bit 31, 0 to 3 (ARINC Specification 429 Part 1, 2.1.5).
    pub fn ssm(self) -> u32
        ensures { result ≡ ssm_of self }
    {
        self.0 / 536_870_912 % 4
    }

    /// Whether the number of ones in all 32 bits is odd (ARINC Specification 429 Part 1, 2.3.4).
    pub fn is_odd(self) -> bool
        ensures test { result ≡ is_odd self }
        ensures fact { IsTrue result ↔ IsOddParity self }
    {
        self.0.count_ones() % 2 == 1
    }

    /// What the SSM says of data in this format.
    pub fn status(self, format: Format) -> Status
        ensures { result ≡ status_of format (ssm_of self) }
    {
        format.status(self.ssm())
    }

    /// Whether the SSM says that data in this format may be used.
    pub fn usable(self, format: Format) -> bool
        ensures { result ≡ is_usable format self }
    {
        format.is_usable(self.ssm())
    }

    /// The data as a number in two's complement with its sign in bit 29, -2^18 to 2^18 - 1.
    #[tactic(auto, unfolding(crate::specs::Word::bnr_of))]
    pub fn bnr(self) -> i32
        ensures { result ≡ bnr_of self }
    {
        let data = self.data();
        if data < 262_144 {
            data as i32
        } else {
            data as i32 - 524_288
        }
    }

    /// The data as a number of five decimal digits, 0 to 79,999, or the first place whose group of bits is above 9.
    #[tactic(auto, unfolding(crate::specs::Bcd::bcd_of))]
    pub fn bcd(self) -> Result<u32, DigitPlace>
        ensures { result ≡ bcd_of self }
    {
        let data = self.data();
        let second = data / 4096 % 16;
        let third = data / 256 % 16;
        let fourth = data / 16 % 16;
        let fifth = data % 16;
        if second > 9 {
            Err(DigitPlace::Second)
        } else if third > 9 {
            Err(DigitPlace::Third)
        } else if fourth > 9 {
            Err(DigitPlace::Fourth)
        } else if fifth > 9 {
            Err(DigitPlace::Fifth)
        } else {
            Ok(data / 65_536 * 10_000 + second * 1000 + third * 100 + fourth * 10 + fifth)
        }
    }

    /// The one odd word with these fields: `bits` are its data, below 2^19, and `ssm` is 0 to 3.
    pub fn compose(label: Label, sdi: Sdi, bits: u32, ssm: u32) -> Word
        requires bits { bits < 2 ^ 19 }
        requires ssm { ssm < 4 }
        ensures value { result ≡ composed_word label sdi bits ssm }
        ensures one { IsOneOddWord result label sdi bits ssm }
    {
        let body = u32::from(reversed_bits(label.number()))
            + u32::from(sdi.number()) * 256
            + bits * 1024
            + ssm * 536_870_912;
        let parity = 1 - body.count_ones() % 2;
        Word(body + parity * 2_147_483_648)
    }

    /// The source's data and SSM under another label and SDI, with parity made anew.
    #[tactic(auto, unfolding(crate::specs::Word::copied_word))]
    pub fn copy_as(source: Word, label: Label, sdi: Sdi) -> Word
        ensures value { result ≡ copied_word label sdi source }
        ensures one { IsOneOddWord result label sdi (data_of source) (ssm_of source) }
    {
        Word::compose(label, sdi, source.data(), source.ssm())
    }

    /// The word that leaves where there is no source: data 0, no computed data.
    #[tactic(auto, unfolding(crate::specs::Word::fallback_word))]
    pub fn fallback(label: Label, sdi: Sdi) -> Word
        ensures value { result ≡ fallback_word label sdi }
        ensures one { IsOneOddWord result label sdi 0 1 }
    {
        Word::compose(label, sdi, 0, 1)
    }
}

/// The bits of a label in the other order: a word sends the label's first bit last.
#[tactic(auto, using(crate::proofs::Fields::reverse_bits_reversed))]
fn reversed_bits(bits: u8) -> u8
    ensures { result ≡ reversed bits }
{
    bits.reverse_bits()
}
