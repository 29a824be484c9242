//! The time of a line.
ghost use Rattle.std.specs.Prelude.{◌≡◌, ◌≤◌, IfSome};
ghost use Rattle.dc_capture.specs.TimeText.{time_of};

use dc_word::digit_in;

/// The greatest time of a capture, in microseconds: 2^53, some 285 years.
pub const LAST_TIME: u64 = 9_007_199_254_740_992;

/// The time that a text writes: one or more decimal digits, at most [`LAST_TIME`].
#[tactic(auto, unfolding(crate::specs::TimeText::time_of))]
pub fn read_time(text: &[u8]) -> Option<u64>
    ensures time { result ≡ time_of text.now }
    ensures small { IfSome result (λ time. time ≤ LAST_TIME) }
{
    if text.is_empty() {
        return None;
    }
    let mut time: u64 = 0;
    for c in text {
        let digit = digit_in(10, *c)?;
        time = time * 10 + u64::from(digit);
        if time > LAST_TIME {
            return None;
        }
    }
    Some(time)
}
