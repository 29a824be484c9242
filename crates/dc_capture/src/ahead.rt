//! The word of a line that stands whole among the bytes ahead.
ghost use Rattle.std.specs.Prelude.{◌≡◌, ◌≤◌, ◌<◌, Some, IfSome, length};
ghost use Rattle.dc_word.specs.Digits.{digit_in};
ghost use Rattle.dc_capture.specs.Ahead.{HasSpace, StartsWithLine, StartsWithTime, StartsWithWord};
ghost use Rattle.dc_capture.specs.Reading.{IsNext};
ghost use Rattle.dc_capture.specs.declared.buses.TheConstants.{PLACES};

use crate::buses::{KnownBuses, place_at, with_letter};
use crate::line::CapturedWord;
use crate::time::LAST_TIME;
use dc_document::NAME_LIMIT;
use dc_event::read_word;
use dc_word::Word;

/// As many digits as [`LAST_TIME`] has.
const TIME_DIGITS: usize = 16;

/// As many bytes as a line may have that is told at once: the digits of a time, a name's letters, a space behind each,
/// eight digits and a line feed.
const WINDOW: usize = TIME_DIGITS + NAME_LIMIT + 11;

/// The value of a decimal digit, or more than 9.
#[inline(always)]
fn value_of(byte: u8) -> u8
    ensures { result < 10 → digit_in 10 byte ≡ Some result }
{
    byte.wrapping_sub(b'0')
}

/// The time that a text begins with, and how many digits it has, where these are few and a space follows.
#[inline(always)]
fn time_ahead(text: &[u8]) -> Option<(u64, usize)>
    requires { TIME_DIGITS < length text.now }
    ensures starts { IfSome result (λ ahead. StartsWithTime text.now ahead.0 ahead.1) }
    ensures small { IfSome result (λ ahead. ahead.0 ≤ LAST_TIME) }
{
    let mut time: u64 = 0;
    for i in 0..TIME_DIGITS + 1 {
        let byte = text[i];
        let digit = value_of(byte);
        if digit > 9 {
            if byte != b' ' || i == 0 || time > LAST_TIME {
                return None;
            }
            return Some((time, i));
        }
        time = time * 10 + u64::from(digit);
    }
    None
}

/// Where the first space of a text is, within a name's length, and the place of the guess for the name before it.
#[inline(always)]
fn name_ahead(text: &[u8]) -> Option<(usize, usize)>
    requires { NAME_LIMIT < length text.now }
    ensures space { IfSome result (λ ahead. HasSpace text.now ahead.0) }
    ensures place { IfSome result (λ ahead. ahead.1 < PLACES) }
{
    let mut sum: u64 = 0;
    for i in 0..NAME_LIMIT + 1 {
        let letter = text[i];
        if letter == b' ' {
            return Some((i, place_at(sum)));
        }
        sum = with_letter(sum, letter);
    }
    None
}

/// The word that a text begins with, where a line feed follows it.
#[inline(always)]
fn digits_ahead(text: &[u8]) -> Option<Word>
    requires { 9 ≤ length text.now }
    ensures { IfSome result (λ word. StartsWithWord text.now word) }
{
    if text[8] != b'\n' {
        return None;
    }
    read_word(&text[..8])
}

/// The word of the line that the bytes begin with, where it is well formed, the last time was this, and as many bytes
/// are held as the longest such line has; and how many it takes with its line feed.
#[inline(always)]
pub fn word_ahead(buses: &KnownBuses, latest: u64, held: &[u8]) -> Option<(CapturedWord, usize)>
    ensures starts { IfSome result (λ ahead. StartsWithLine buses.now latest held.now ahead.0 ahead.1) }
    ensures next { IfSome result (λ ahead. IsNext buses.now latest ahead.0) }
{
    if held.len() < WINDOW {
        return None;
    }
    let (time, digits) = time_ahead(held)?;
    if time < latest {
        return None;
    }
    let text = &held[digits + 1..];
    let (letters, place) = name_ahead(text)?;
    let bus = buses.named_at(place, &text[..letters])?;
    let word = digits_ahead(&text[letters + 1..])?;
    Some((CapturedWord { time, bus, word }, digits + letters + 11))
}
