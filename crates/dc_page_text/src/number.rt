//! Numbers as pages write them.

ghost use Rattle.std.specs.Prelude.{Some};
ghost use Rattle.dc_page_text.specs.Text.{grouped, groups_of, hundredths, last_three, millionths, tenths, thousandths, trimmed};

use std::fmt;

/// A number with commas between its thousands.
#[derive(Clone, Copy)]
pub struct Grouped(pub u64);

impl fmt::Display for Grouped {
    ghost output = { λ x. Some (grouped x.0) };

    fn fmt<W: fmt::Write>(&self, f: &mut fmt::Formatter<W>) -> fmt::Result {
        let number = self.0;
        if number < 1_000_000_000_000_000 {
            let long = Long(number);
            return write!(f, "{long}");
        }
        let millions = Long(number / 1_000_000);
        let thousands = LastThree(number / 1_000);
        let rest = LastThree(number);
        write!(f, "{millions},{thousands},{rest}")
    }
}

/// A number below 10^15 with commas between its thousands.
#[derive(Clone, Copy)]
struct Long(u64);

impl fmt::Display for Long {
    ghost output = { λ x. Some (groups_of 4 x.0) };

    fn fmt<W: fmt::Write>(&self, f: &mut fmt::Formatter<W>) -> fmt::Result {
        let number = self.0;
        if number < 1_000_000 {
            let short = Short(number);
            return write!(f, "{short}");
        }
        let millions = Short(number / 1_000_000);
        let thousands = LastThree(number / 1_000);
        let rest = LastThree(number);
        write!(f, "{millions},{thousands},{rest}")
    }
}

/// A number below 10^9 with commas between its thousands.
#[derive(Clone, Copy)]
struct Short(u64);

impl fmt::Display for Short {
    ghost output = { λ x. Some (groups_of 2 x.0) };

    #[tactic(auto, unfolding(crate::specs::Text::groups_of))]
    fn fmt<W: fmt::Write>(&self, f: &mut fmt::Formatter<W>) -> fmt::Result {
        let number = self.0;
        let ones = LastThree(number);
        if number < 1_000 {
            return write!(f, "{number}");
        }
        let thousands = number / 1_000;
        if thousands < 1_000 {
            return write!(f, "{thousands},{ones}");
        }
        let millions = thousands / 1_000;
        let thousands = LastThree(thousands);
        write!(f, "{millions},{thousands},{ones}")
    }
}

/// The last three digits of a number.
#[derive(Clone, Copy)]
struct LastThree(u64);

impl fmt::Display for LastThree {
    ghost output = { λ x. Some (last_three x.0) };

    #[tactic(auto, unfolding(crate::specs::Text::last_three))]
    fn fmt<W: fmt::Write>(&self, f: &mut fmt::Formatter<W>) -> fmt::Result {
        let hundreds = self.0 / 100 % 10;
        let tens = self.0 / 10 % 10;
        let ones = self.0 % 10;
        write!(f, "{hundreds}{tens}{ones}")
    }
}

/// A number of tenths, as `12` or `12.5`.
#[derive(Clone, Copy)]
pub struct Tenths(pub u64);

impl fmt::Display for Tenths {
    ghost output = { λ x. Some (tenths x.0) };

    fn fmt<W: fmt::Write>(&self, f: &mut fmt::Formatter<W>) -> fmt::Result {
        let whole = self.0 / 10;
        let rest = self.0 % 10;
        if rest == 0 {
            write!(f, "{whole}")
        } else {
            write!(f, "{whole}.{rest}")
        }
    }
}

/// A number of hundredths, as `12.50`.
#[derive(Clone, Copy)]
pub struct Hundredths(pub u64);

impl fmt::Display for Hundredths {
    ghost output = { λ x. Some (hundredths x.0) };

    fn fmt<W: fmt::Write>(&self, f: &mut fmt::Formatter<W>) -> fmt::Result {
        let whole = self.0 / 100;
        let tens = self.0 / 10 % 10;
        let ones = self.0 % 10;
        write!(f, "{whole}.{tens}{ones}")
    }
}

/// Three digits without the noughts at their end.
#[derive(Clone, Copy)]
struct Trimmed(u64);

impl fmt::Display for Trimmed {
    ghost output = { λ x. Some (trimmed x.0) };

    fn fmt<W: fmt::Write>(&self, f: &mut fmt::Formatter<W>) -> fmt::Result {
        let ones = self.0 % 10;
        let tens = self.0 / 10 % 10;
        let hundreds = self.0 / 100 % 10;
        if ones != 0 {
            return write!(f, "{hundreds}{tens}{ones}");
        }
        if tens != 0 {
            return write!(f, "{hundreds}{tens}");
        }
        write!(f, "{hundreds}")
    }
}

/// A number of thousandths, as `24` or `1,000.25`.
#[derive(Clone, Copy)]
pub struct Thousandths(pub u64);

impl fmt::Display for Thousandths {
    ghost output = { λ x. Some (thousandths x.0) };

    #[tactic(auto, unfolding(crate::specs::Text::thousandths))]
    fn fmt<W: fmt::Write>(&self, f: &mut fmt::Formatter<W>) -> fmt::Result {
        let whole = Grouped(self.0 / 1_000);
        if self.0 % 1_000 == 0 {
            return write!(f, "{whole}");
        }
        let rest = Trimmed(self.0);
        write!(f, "{whole}.{rest}")
    }
}

/// A number of millionths, as `999.9` or `1,000.000001`.
#[derive(Clone, Copy)]
pub struct Millionths(pub u64);

impl fmt::Display for Millionths {
    ghost output = { λ x. Some (millionths x.0) };

    fn fmt<W: fmt::Write>(&self, f: &mut fmt::Formatter<W>) -> fmt::Result {
        let thousandths = Thousandths(self.0 / 1_000);
        if self.0 % 1_000 == 0 {
            return write!(f, "{thousandths}");
        }
        let whole = Grouped(self.0 / 1_000_000);
        let first = LastThree(self.0 / 1_000);
        let rest = Trimmed(self.0);
        write!(f, "{whole}.{first}{rest}")
    }
}
