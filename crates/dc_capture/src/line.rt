//! The word of a line.
ghost use Rattle.std.specs.Prelude.{◌≡◌, ◌∷◌, [], IfOk};
ghost use Rattle.dc_capture.specs.CaptureText.{fields_word, line_word};
ghost use Rattle.dc_capture.specs.Reading.{IsNext};

use crate::buses::KnownBuses;
use crate::fault::CaptureRule;
use crate::fields::split_field;
use crate::time::read_time;
use dc_event::read_word;
use dc_word::Word;

/// A word of a capture.
#[derive(Clone, Copy, Debug, PartialEq, Eq)]
pub struct CapturedWord {
    /// When it came, in microseconds, at most [`LAST_TIME`](crate::LAST_TIME).
    pub time: u64,
    /// The number of the bus that carried it.
    pub bus: usize,
    /// The word.
    pub word: Word,
}

/// The word that three fields tell, where the last time was this.
fn read_fields(
    buses: &KnownBuses,
    latest: u64,
    time: &[u8],
    bus: &[u8],
    word: &[u8],
) -> Result<CapturedWord, CaptureRule>
    ensures word { result ≡ fields_word buses.now latest (time.now ∷ bus.now ∷ word.now ∷ []) }
    ensures next { IfOk result (λ x. IsNext buses.now latest x) }
{
    let Some(time) = read_time(time) else {
        return Err(CaptureRule::NotATime);
    };
    let Some(bus) = buses.named(bus) else {
        return Err(CaptureRule::NameUnknown);
    };
    let Some(word) = read_word(word) else {
        return Err(CaptureRule::NotAWord);
    };
    if time < latest {
        return Err(CaptureRule::TimeFalls);
    }
    Ok(CapturedWord { time, bus, word })
}

/// The word of a line of at most [`LINE_LIMIT`](dc_device::LINE_LIMIT) bytes, or its fault, where the last time was
/// this.
#[tactic(auto, unfolding(crate::specs::CaptureText::line_word))]
pub fn read_line(buses: &KnownBuses, latest: u64, line: &[u8]) -> Result<CapturedWord, CaptureRule>
    ensures word { result ≡ line_word buses.now latest line.now }
    ensures next { IfOk result (λ x. IsNext buses.now latest x) }
{
    let Some((time, rest)) = split_field(line) else {
        return Err(CaptureRule::FieldCountWrong);
    };
    let Some((bus, word)) = split_field(rest) else {
        return Err(CaptureRule::FieldCountWrong);
    };
    let None = split_field(word) else {
        return Err(CaptureRule::FieldCountWrong);
    };
    read_fields(buses, latest, time, bus, word)
}
