//! A parameter and its equipment code.

ghost use Rattle.std.specs.Prelude.{◌≡◌, ℕ, ◌<◌, ◌↔◌, IsSome, IfSome};
ghost use Rattle.dc_dict.specs.declared.parameter.TheConstants.{EQUIPMENT_CODES};

use dc_word::{Format, Label};
use std::marker::Model;

/// How many equipment codes there are: three hexadecimal digits write 0 to 4,095.
pub const EQUIPMENT_CODES: u16 = 4096;

/// An equipment code of three hexadecimal digits, 0 to FFF.
#[derive(Clone, Copy, Debug, PartialEq, Eq, PartialOrd, Ord, Hash)]
pub struct Equipment(u16);

impl Model for Equipment {
    ghost Value = { ℕ };

    ghost view = { λ e. e.0 };

    ghost invariant = { λ e. e.0 < EQUIPMENT_CODES };

    ghost inverse = { λ n. record { 0 = n } };
}

impl Equipment {
    /// The equipment code of this number, where it is below [`EQUIPMENT_CODES`].
    pub fn new(code: u16) -> Option<Equipment>
        ensures valid { IsSome result ↔ (code < EQUIPMENT_CODES) }
        ensures value { IfSome result (λ equipment. equipment ≡ code) }
    {
        if code < EQUIPMENT_CODES {
            Some(Equipment(code))
        } else {
            None
        }
    }

    /// The code as a number, below [`EQUIPMENT_CODES`].
    pub fn code(self) -> u16
        ensures value { result ≡ self }
        ensures within { self < EQUIPMENT_CODES }
    {
        let Equipment(code) = self;
        code
    }
}

/// A parameter: a label with an equipment code, the format of its data, and the least and greatest interval between two
/// of its words. The type bounds neither interval; [`Dictionary::insert`](crate::Dictionary::insert) refuses 0, and a
/// least one over the greatest.
#[derive(Clone, Copy, Debug, PartialEq, Eq)]
pub struct Parameter {
    /// The label, 1 to 255.
    pub label: Label,
    /// The equipment code, 0 to FFF.
    pub equipment: Equipment,
    /// The format of its data.
    pub format: Format,
    /// The least interval between two of its words, in microseconds; `insert` takes 1 to `max_us`.
    pub min_us: u32,
    /// The greatest interval between two of its words, in microseconds; `insert` takes 1 or more.
    pub max_us: u32,
}
