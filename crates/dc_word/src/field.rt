//! Labels and SDIs.

ghost use Rattle.std.specs.Prelude.{◌≡◌, ℕ, ◌<◌, ◌≤◌, ◌↔◌, IsSome, IfSome};

use std::marker::Model;

/// A label as the number that its three octal digits write, 1 to 255: label 203 is 131
/// (ARINC Specification 429 Part 1, 2.1.3).
#[derive(Clone, Copy, Debug, PartialEq, Eq, PartialOrd, Ord, Hash)]
pub struct Label(u8);

impl Model for Label {
    ghost Value = { ℕ };

    ghost view = { λ l. l.0 };

    ghost invariant = { λ l. 1 ≤ l.0 };

    ghost inverse = { λ n. record { 0 = n } };
}

impl Label {
    /// The label of this number, 1 to 255; `None` for 0, which is no label.
    pub fn new(number: u8) -> Option<Label>
        ensures valid { IsSome result ↔ (1 ≤ number) }
        ensures value { IfSome result (λ label. label ≡ number) }
    {
        if number >= 1 {
            Some(Label(number))
        } else {
            None
        }
    }

    /// The number, 1 to 255.
    pub fn number(self) -> u8
        ensures value { result ≡ self }
        ensures within { (1 ≤ self) × (self < 256) }
    {
        let Label(number) = self;
        number
    }
}

/// A source or destination identifier, 0 to 3: bit 9 and twice bit 10 (ARINC Specification 429 Part 1, 2.1.4).
#[derive(Clone, Copy, Debug, PartialEq, Eq, PartialOrd, Ord, Hash)]
pub struct Sdi(u8);

impl Model for Sdi {
    ghost Value = { ℕ };

    ghost view = { λ s. s.0 };

    ghost invariant = { λ s. s.0 < 4 };

    ghost inverse = { λ n. record { 0 = n } };
}

impl Sdi {
    /// The SDI of this number, 0 to 3; `None` for a greater one.
    pub fn new(number: u8) -> Option<Sdi>
        ensures valid { IsSome result ↔ (number < 4) }
        ensures value { IfSome result (λ sdi. sdi ≡ number) }
    {
        if number < 4 { Some(Sdi(number)) } else { None }
    }

    /// The number, 0 to 3.
    pub fn number(self) -> u8
        ensures value { result ≡ self }
        ensures within { self < 4 }
    {
        let Sdi(number) = self;
        number
    }
}
