//! Ticks with their milliseconds.

ghost use Rattle.std.specs.Prelude.{◌≡◌, ◌+◌, Some};
ghost use Rattle.dc_page.specs.Text.{age_text, span_text, time_of};

use dc_page_text::{Amount, Thousandths, Unit};
use dc_tables::Tables;
use std::fmt;

/// How long a tick is, in microseconds.
#[derive(Clone, Copy)]
pub struct TickLength(pub u32);

impl TickLength {
    /// That of tables.
    pub fn of(tables: &Tables) -> TickLength
        ensures { result.0 ≡ tables.now.tick_us }
    {
        TickLength(tables.tick_us())
    }

    /// How many milliseconds so many ticks last; where that is past 2^64 - 1 microseconds, these.
    pub fn millis(self, ticks: u64) -> Thousandths
        ensures { result.0 ≡ time_of ticks self.0 }
    {
        Thousandths(ticks.saturating_mul(u64::from(self.0)))
    }

    /// An age of so many ticks.
    pub fn age(self, ticks: u32) -> Age
        ensures ticks { result.ticks ≡ ticks }
        ensures under { result.under.0 ≡ time_of (ticks + 1) self.0 }
    {
        let ticks = u64::from(ticks);
        Age {
            ticks,
            under: self.millis(ticks + 1),
        }
    }

    /// So many ticks, with their milliseconds.
    pub fn span(self, ticks: u32) -> Span
        ensures { result ≡ record { ticks = ticks; tick = self } }
    {
        Span {
            ticks: u64::from(ticks),
            tick: self,
        }
    }
}

/// So many ticks, as `24 ticks (24 ms)`, the milliseconds in small.
#[derive(Clone, Copy)]
pub struct Span {
    pub ticks: u64,
    pub tick: TickLength,
}

impl fmt::Display for Span {
    ghost output = { λ x. Some (span_text x.ticks x.tick.0) };

    fn fmt<W: fmt::Write>(&self, f: &mut fmt::Formatter<W>) -> fmt::Result {
        let amount = Amount {
            count: self.ticks,
            unit: Unit::Ticks,
        };
        let millis = self.tick.millis(self.ticks);
        write!(f, "{amount} <small>({millis} ms)</small>")
    }
}

/// An age in ticks, as `24 ticks (under 25 ms)`, the milliseconds in small: in microseconds it is less than a tick more.
#[derive(Clone, Copy)]
pub struct Age {
    pub ticks: u64,
    pub under: Thousandths,
}

impl fmt::Display for Age {
    ghost output = { λ x. Some (age_text x.ticks x.under.0) };

    fn fmt<W: fmt::Write>(&self, f: &mut fmt::Formatter<W>) -> fmt::Result {
        let amount = Amount {
            count: self.ticks,
            unit: Unit::Ticks,
        };
        let under = self.under;
        write!(f, "{amount} <small>(under {under} ms)</small>")
    }
}
