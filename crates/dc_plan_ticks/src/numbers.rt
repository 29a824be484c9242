//! Quotients.

/// The quotient rounded up; by nothing nothing.
pub fn up(dividend: u64, divisor: u64) -> u64 {
    if divisor == 0 {
        0
    } else {
        dividend.div_ceil(divisor)
    }
}

/// The quotient rounded down; by nothing nothing.
pub fn part(dividend: u64, divisor: u64) -> u64 {
    if divisor == 0 { 0 } else { dividend / divisor }
}

/// So many hundredths of a number, rounded down.
pub fn share_of(number: u64, percent: u64) -> u64 {
    number.saturating_mul(percent) / 100
}

/// What a number is so many hundredths of, rounded up.
pub fn whole_of(number: u64, percent: u64) -> u64 {
    up(number.saturating_mul(100), percent)
}
