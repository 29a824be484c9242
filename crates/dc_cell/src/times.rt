//! Cells that hold a time.

ghost use Rattle.std.specs.Prelude.{◌≡◌, ◌*◌, ◌^◌, ◌<◌, ◌≤◌, IfSome, if◌then◌else◌};
ghost use Rattle.dc_cell.specs.Times.{unit_us, decimal_of, may_be_thousands as may_be_thousands_of, is_whole as is_whole_of, microseconds as microseconds_of, time_of};

use crate::digits::{mark_at, number_in};
use crate::fault::CellFault;

/// No time of a sheet is over so many microseconds: a minute.
pub const MOST_US: u32 = 60_000_000;

/// The unit of the times of a column.
#[derive(Clone, Copy, Debug, PartialEq, Eq)]
pub enum TimeUnit {
    /// `us` or `usec` in its title.
    Microseconds,
    /// `ms` or `msec` in its title.
    Milliseconds,
}

impl TimeUnit {
    /// How many microseconds so many of it are.
    fn us(self, number: u64) -> u64
        requires { number < 2 ^ 36 }
        ensures value { result ≡ number * unit_us self }
        ensures most { result ≤ number * 1000 }
    {
        match self {
            TimeUnit::Microseconds => number,
            TimeUnit::Milliseconds => number * 1000,
        }
    }
}

/// A number as a cell writes it.
#[derive(Clone, Copy, Debug, PartialEq, Eq)]
pub struct Decimal {
    /// What its digits write before the mark.
    pub whole: u64,
    /// What they write behind it, 0 where there is none.
    pub part: u64,
    /// How many digits stand behind the mark.
    pub places: usize,
    /// Whether the mark is a point.
    pub is_point: bool,
}

/// The number that a cell writes: one to nine digits, and perhaps a point or a comma with one to nine digits behind it.
#[tactic(auto, unfolding(crate::specs::Times::decimal_of))]
fn number_of(text: &[u8]) -> Option<Decimal>
    ensures value { result ≡ decimal_of text.now }
    ensures small { IfSome result (λ d. (d.whole < 2 ^ 36) × (d.part < 2 ^ 36) × (d.places ≤ 9)) }
{
    let Some(at) = mark_at(text) else {
        let whole = number_in(10, 9, text)?;
        return Some(Decimal {
            whole,
            part: 0,
            places: 0,
            is_point: false,
        });
    };
    let whole = number_in(10, 9, &text[..at])?;
    let behind = &text[at + 1..];
    let part = number_in(10, 9, behind)?;
    Some(Decimal {
        whole,
        part,
        places: behind.len(),
        is_point: text[at] == b'.',
    })
}

/// Whether what stands behind the mark may be thousands, where `commas` says that commas part the cells.
fn may_be_thousands(number: &Decimal, commas: bool) -> bool
    ensures { result ≡ may_be_thousands_of commas number.now }
{
    number.places == 3 && !(number.is_point && commas)
}

/// A ten for each of so many places, multiplied.
fn tens(places: usize) -> u64
    requires { places ≤ 9 }
    ensures value { result ≡ 10 ^ places }
    ensures some { 0 < result }
{
    10u64.pow(places as u32)
}

/// The microseconds of a number in a unit, where they are whole.
#[tactic(auto, using(crate::proofs::Numbers::quotient_small))]
fn microseconds(number: &Decimal, unit: TimeUnit) -> Option<u64>
    requires { (number.now.whole < 2 ^ 36) × (number.now.part < 2 ^ 36) × (number.now.places ≤ 9) }
    ensures { result ≡ (if is_whole_of unit number.now then Some (microseconds_of unit number.now) else None) }
{
    let tens = tens(number.places);
    let part = unit.us(number.part);
    if part % tens != 0 {
        return None;
    }
    Some(unit.us(number.whole) + part / tens)
}

/// The microseconds of a cell, from `least` to [`MOST_US`]; `commas` says whether commas part the cells.
pub fn time_cell(text: &[u8], unit: TimeUnit, commas: bool, least: u32) -> Result<u32, CellFault>
    ensures { result ≡ time_of unit commas least text.now }
{
    let Some(number) = number_of(text) else {
        return Err(CellFault::NotNumber);
    };
    if may_be_thousands(&number, commas) {
        return Err(CellFault::MayBeThousands);
    }
    let Some(us) = microseconds(&number, unit) else {
        return Err(CellFault::PartOfMicrosecond);
    };
    if us < u64::from(least) || us > u64::from(MOST_US) {
        return Err(CellFault::OutOfRange);
    }
    Ok(us as u32)
}
