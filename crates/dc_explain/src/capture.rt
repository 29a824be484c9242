//! Lines of a capture that can't be read, and what a survey found wanting.
use crate::lines::Line;
use crate::plain::{tell_meaning, tell_plainly};
use crate::ran::Ran;
use crate::trace::field;
use crate::words::tell_no_word;
use dc_codes::Kind;
use dc_tell::Explanation;

/// Tells why a line of a capture says no word, by the code of its fault: by what that means, but where its word is none.
pub(crate) fn tell_captured(out: &mut Explanation, code: &str, line: &Line<'_>) {
    let number = match code {
        "E5" => 2usize,
        "E4" => 1usize,
        _ => 0usize,
    };
    let (_, at) = field(line.bytes, number);
    if number == 2 {
        return tell_no_word(out, line, at);
    }
    tell_meaning(out, Kind::Capture, code, line, at)
}

/// Tells what a survey found broken, or early, as far as its lines were kept.
pub(crate) fn tell_surveyed(out: &mut Explanation, ran: &Ran<'_>) {
    let code = if ran.said.contains(" broken at ") {
        "broken"
    } else if ran.said.contains(" early at ") {
        "early"
    } else {
        return;
    };
    tell_plainly(out, Kind::Survey, code);
}
