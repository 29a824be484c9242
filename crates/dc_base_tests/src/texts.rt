//! Numbers and names in explanations, beside the way in which they were written at first: digit by digit from the greatest
//! power of ten on, letter by letter.

use dc_tell::{Explanation, Value};
use std::alloc::{AllocError, Global};

/// The digits, those from ten on in lower case.
static DIGITS: [&'static str; 16] = [
    "0", "1", "2", "3", "4", "5", "6", "7", "8", "9", "a", "b", "c", "d", "e", "f",
];

/// What each digit of a decimal number stands for, the greatest first.
static POWERS: [u64; 20] = [
    10_000_000_000_000_000_000,
    1_000_000_000_000_000_000,
    100_000_000_000_000_000,
    10_000_000_000_000_000,
    1_000_000_000_000_000,
    100_000_000_000_000,
    10_000_000_000_000,
    1_000_000_000_000,
    100_000_000_000,
    10_000_000_000,
    1_000_000_000,
    100_000_000,
    10_000_000,
    1_000_000,
    100_000,
    10_000,
    1_000,
    100,
    10,
    1,
];

/// What each digit of the number of a letter stands for.
static SCALES: [u32; 6] = [0x10_0000, 0x1_0000, 0x1000, 0x100, 0x10, 1];

/// Letters that have an escape of their own.
static ESCAPES: [(char, &'static str); 3] = [('\n', "\\n"), ('\r', "\\r"), ('\t', "\\t")];

/// The letters that are not seen: from the first of each pair up to the second.
static UNSEEN: [(u32, u32); 9] = [
    (0x00, 0x1F),
    (0x7F, 0x9F),
    (0xAD, 0xAD),
    (0x61C, 0x61C),
    (0x200B, 0x200F),
    (0x2028, 0x202E),
    (0x2060, 0x206F),
    (0xFEFF, 0xFEFF),
    (0xFFF9, 0xFFFB),
];

/// A digit.
fn digit_of(digit: u64) -> &'static str {
    DIGITS.get(digit as usize).copied().unwrap_or("")
}

/// A number as a line, as it was written at first.
fn line_of_number(alloc: Global, number: u64) -> Result<String, AllocError> {
    let mut text = String::new(alloc);
    let mut is_begun = false;
    for power in &POWERS {
        let digit = number.checked_div(*power).unwrap_or(0) % 10;
        is_begun = is_begun || digit != 0 || *power == 1;
        if is_begun {
            text.push_str(digit_of(digit))?;
        }
    }
    text.push_str("\n")?;
    Ok(text)
}

/// Whether a letter is seen.
fn is_seen(letter: char) -> bool {
    let code = u32::from(letter);
    for (first, last) in &UNSEEN {
        if *first <= code && code <= *last {
            return false;
        }
    }
    true
}

/// A letter as its escape.
fn push_escape(text: &mut String, letter: char) -> Result<(), AllocError> {
    for (own, escape) in &ESCAPES {
        if *own == letter {
            return text.push_str(escape);
        }
    }
    let code = u32::from(letter);
    let mut is_begun = false;
    text.push_str("\\u{")?;
    for scale in &SCALES {
        let digit = code.checked_div(*scale).unwrap_or(0) % 16;
        is_begun = is_begun || digit != 0 || *scale == 1;
        if is_begun {
            text.push_str(digit_of(u64::from(digit)))?;
        }
    }
    text.push_str("}")
}

/// A text as a line, as it was written at first.
fn line_of_text(alloc: Global, letters: &str) -> Result<String, AllocError> {
    let mut text = String::new(alloc);
    for letter in letters.chars() {
        if !is_seen(letter) {
            push_escape(&mut text, letter)?;
        } else {
            text.push(letter)?;
        }
    }
    text.push_str("\n")?;
    Ok(text)
}

/// Whether a value is told as this line.
fn is_told_as(alloc: Global, value: Value<'_>, line: &str) -> bool {
    let mut told = Explanation::new(alloc);
    told.put(value);
    match told.finish() {
        Some(text) => text.as_str() == line,
        None => false,
    }
}

/// Whether a number is told as it was at first.
fn is_number_as_before(alloc: Global, number: u64) -> bool {
    match line_of_number(alloc, number) {
        Ok(line) => is_told_as(alloc, Value::Number(number), line.as_str()),
        Err(_) => false,
    }
}

/// Numbers drawn one after another, the same ones in each run.
#[derive(Drop)]
struct Drawn {
    last: u64,
}

impl Drawn {
    /// A number below the end, which is above 0.
    fn below(&mut self, end: u64) -> u64 {
        let next = self
            .last
            .wrapping_mul(6_364_136_223_846_793_005)
            .wrapping_add(1_442_695_040_888_963_407);
        self.last = next ^ (next >> 32);
        self.last.checked_rem(end).unwrap_or(0)
    }

    /// A number of as many digits as this power of ten.
    fn as_long_as(&mut self, power: u64) -> u64 {
        let room = power.saturating_mul(9).min(u64::MAX - power);
        power.saturating_add(self.below(room))
    }
}

/// Whether drawn numbers of as many digits as this power of ten are told as they were at first.
fn are_drawn_as_before(alloc: Global, drawn: &mut Drawn, power: u64) -> bool {
    for _ in 0..40 {
        if !is_number_as_before(alloc, drawn.as_long_as(power)) {
            return false;
        }
    }
    true
}

/// Whether a text is told as it was at first.
fn is_text_as_before(alloc: Global, text: &str) -> bool {
    match line_of_text(alloc, text) {
        Ok(line) => is_told_as(alloc, Value::Text(text), line.as_str()),
        Err(_) => false,
    }
}

/// Letters with another one at a place.
fn with_letter(alloc: Global, place: usize, letter: char) -> Result<String, AllocError> {
    let mut text = String::new(alloc);
    for at in 0..30 {
        text.push(if at == place { letter } else { 'A' })?;
    }
    Ok(text)
}

/// Whether a letter at a place among others is told as it was at first.
fn is_letter_as_before(alloc: Global, place: usize, letter: char) -> bool {
    match with_letter(alloc, place, letter) {
        Ok(text) => is_text_as_before(alloc, text.as_str()),
        Err(_) => false,
    }
}

/// What is told of a piece behind another one, where it is said or added.
fn told_of(alloc: Global, piece: &str, is_added: bool, is_begun: bool) -> Option<String> {
    let mut told = Explanation::new(alloc);
    if is_begun {
        told.say("first ", &[]);
    }
    if is_added {
        told.add(piece);
    } else {
        told.say(piece, &[]);
    }
    told.finish()
}

/// Whether a piece is added as it is said.
fn is_added_as_said(alloc: Global, piece: &str, is_begun: bool) -> bool {
    match (
        told_of(alloc, piece, false, is_begun),
        told_of(alloc, piece, true, is_begun),
    ) {
        (Some(said), Some(added)) => said.as_str() == added.as_str(),
        _ => false,
    }
}

#[test]
fn numbers_are_told_as_by_powers_of_ten(rt: HostRuntime) {
    let mut drawn = Drawn { last: 429 };
    for power in &POWERS {
        assert!(rt; is_number_as_before(rt.alloc(), *power));
        assert!(rt; is_number_as_before(rt.alloc(), power.saturating_sub(1)));
        assert!(rt; is_number_as_before(rt.alloc(), power.saturating_mul(7)));
        assert!(rt;
            are_drawn_as_before(rt.alloc(), &mut drawn, *power),
            "as long as {power}"
        );
    }
    assert!(rt; is_number_as_before(rt.alloc(), u64::MAX));
}

#[test]
fn texts_are_told_as_letter_by_letter(rt: HostRuntime) {
    let texts =
        "ADIRU-LEFT_1| ~|}{|\u{1f}|\u{20}|\u{7e}|\u{7f}|\u{80}|a\tb|a\nb|\r|é|ab\u{ad}|\u{200b}x|x\u{feff}|\u{1F600}|a b c ü|{}";
    for text in texts.split('|') {
        assert!(rt; is_text_as_before(rt.alloc(), text));
    }
    assert!(rt; is_text_as_before(rt.alloc(), ""));
}

#[test]
fn letter_at_any_place_is_told_as_letter_by_letter(rt: HostRuntime) {
    for code in 0..0x180 {
        if let Some(letter) = char::from_u32(code) {
            for place in [0, 7, 8, 29] {
                assert!(rt;
                    is_letter_as_before(rt.alloc(), place, letter),
                    "{code} at {place}"
                );
            }
        }
    }
}

#[test]
fn piece_is_added_as_it_is_said(rt: HostRuntime) {
    for piece in "|a|two words|{|}|} {|tab\t|line\n|é ü|\u{1F600}".split('|') {
        assert!(rt; is_added_as_said(rt.alloc(), piece, false));
        assert!(rt; is_added_as_said(rt.alloc(), piece, true));
    }
}
