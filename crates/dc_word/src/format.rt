//! Formats, and what the SSM says in each.

ghost use Rattle.std.specs.Prelude.{◌≡◌, ◌<◌};
ghost use Rattle.dc_word.specs.Format.{status_of, is_usable_ssm};

/// How the data of a word is written.
#[derive(Clone, Copy, Debug, PartialEq, Eq, Hash)]
pub enum Format {
    /// Two's complement.
    Bnr,
    /// Five decimal digits.
    Bcd,
    /// Discretes: a plain number of 19 bits.
    Disc,
}

/// What the SSM of a word says of its data (ARINC Specification 429 Part 1, 2.1.5).
#[derive(Clone, Copy, Debug, PartialEq, Eq, Hash)]
pub enum Status {
    /// Failure warning: SSM 0 in BNR, 3 in discretes.
    FailureWarning,
    /// No computed data: SSM 1.
    NoComputedData,
    /// Functional test: SSM 2.
    FunctionalTest,
    /// Normal operation: SSM 3 in BNR.
    Normal,
    /// A plus: SSM 0 in BCD.
    Plus,
    /// A minus: SSM 3 in BCD.
    Minus,
    /// Verified data: SSM 0 in discretes.
    Verified,
}

impl Format {
    /// What an SSM of 0 to 3 says in this format.
    pub fn status(self, ssm: u32) -> Status
        requires { ssm < 4 }
        ensures { result ≡ status_of self ssm }
    {
        if ssm == 1 {
            Status::NoComputedData
        } else if ssm == 2 {
            Status::FunctionalTest
        } else {
            match (self, ssm) {
                (Format::Bnr, 0) => Status::FailureWarning,
                (Format::Bnr, _) => Status::Normal,
                (Format::Bcd, 0) => Status::Plus,
                (Format::Bcd, _) => Status::Minus,
                (Format::Disc, 0) => Status::Verified,
                (Format::Disc, _) => Status::FailureWarning,
            }
        }
    }

    /// Whether a word with this SSM is usable in this format: 3 in BNR, 0 and 3 in BCD, 0 in discretes. That functional
    /// test is not usable is this project's profile.
    pub fn is_usable(self, ssm: u32) -> bool
        ensures { result ≡ is_usable_ssm self ssm }
    {
        match self {
            Format::Bnr => ssm == 3,
            Format::Bcd => ssm == 0 || ssm == 3,
            Format::Disc => ssm == 0,
        }
    }
}
