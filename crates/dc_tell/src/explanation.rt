//! An explanation as it grows.
use crate::letters::{is_plain, is_seen, start_of, text_of};
use crate::likeness::nearest;
use crate::place::{around, begins_letter, line_of, place_at};
use std::alloc::Global;

/// A text that was read, under the name that the command line gives it.
#[derive(Clone, Copy)]
pub struct File<'a> {
    /// Its name, `<stdin>` for standard input.
    pub name: &'a str,
    /// What was read of it.
    pub text: &'a [u8],
}

/// What stands in a hole of a sentence. No letter of a text among them but a printed one reaches a terminal.
#[derive(Clone, Copy)]
pub enum Value<'a> {
    /// A number.
    Number(u64),
    /// A byte, as 0x2F.
    Byte(u8),
    /// So many of what the first word names in the singular, the second in the plural.
    Several(u64, &'a str, &'a str),
    /// From the first number to the second, or the one where both are the same.
    Range(u64, u64),
    /// So many ticks, and how long they take with ticks of so many microseconds, where these are known (not 0).
    Ticks(u64, u64),
    /// A text.
    Text(&'a str),
    /// Bytes that are a text, or what says that they are none.
    Bytes(&'a [u8]),
    /// The beginning of bytes that are a text.
    Brief(&'a [u8]),
    /// Names with commas, the first eight.
    Names(&'a [&'a str]),
}

/// How many names are listed.
const LISTED: usize = 8;

/// The digits in lower case.
const LOWER: &str = "0123456789abcdef";

/// The digits in upper case.
const UPPER: &str = "0123456789ABCDEF";

/// How many digits a number has at most.
const MOST_DIGITS: usize = 20;

/// What each digit of the number of a letter stands for.
static SCALES: [u32; 6] = [0x10_0000, 0x1_0000, 0x1000, 0x100, 0x10, 1];

/// Letters that have an escape of their own.
static ESCAPES: [(char, &'static str); 3] = [('\n', "\\n"), ('\r', "\\r"), ('\t', "\\t")];

/// What a person is told, as far as it is written. Where memory gives out it is lost whole, so nothing that writes it
/// has an error.
#[derive(Drop)]
pub struct Explanation {
    alloc: Global,
    text: String,
    is_open: bool,
    is_helped: bool,
    is_lost: bool,
}

impl Explanation {
    /// An explanation with nothing in it.
    pub fn new(alloc: Global) -> Explanation {
        Explanation {
            alloc,
            text: String::new(alloc),
            is_open: false,
            is_helped: false,
            is_lost: false,
        }
    }

    /// Notes that memory was refused: nothing is told then.
    pub fn lose(&mut self) {
        self.is_lost = true;
    }

    /// Writes a text as it is.
    fn push(&mut self, text: &str) {
        if self.text.push_str(text).is_err() {
            self.is_lost = true;
        }
    }

    /// Writes one of these digits.
    fn push_digit(&mut self, digits: &str, digit: usize) {
        self.push(digits.get(digit..digit.saturating_add(1)).unwrap_or(""));
    }

    /// Writes a number: its digits from the last one on, in front of one another.
    fn push_number(&mut self, number: u64) {
        let mut digits = [b'0'; MOST_DIGITS];
        let mut first = MOST_DIGITS;
        let mut rest = number;
        for place in (0..MOST_DIGITS).rev() {
            digits[place] = b'0' + (rest % 10) as u8;
            first = place;
            rest /= 10;
            if rest == 0 {
                break;
            }
        }
        self.push(text_of(digits.get(first..).unwrap_or(&[])));
    }

    /// Writes a letter as its escape.
    fn push_escape(&mut self, letter: char) {
        for (own, escape) in &ESCAPES {
            if *own == letter {
                return self.push(escape);
            }
        }
        let code = u32::from(letter);
        let mut is_begun = false;
        self.push("\\u{");
        for scale in &SCALES {
            let digit = code.checked_div(*scale).unwrap_or(0) % 16;
            is_begun = is_begun || digit != 0 || *scale == 1;
            if is_begun {
                self.push_digit(LOWER, digit as usize);
            }
        }
        self.push("}");
    }

    /// Writes a text as a terminal may have it: each letter that is not seen stands as its escape. One of plain letters
    /// alone is written whole.
    fn push_text(&mut self, text: &str) {
        if is_plain(text) {
            return self.push(text);
        }
        for letter in text.chars() {
            if !is_seen(letter) {
                self.push_escape(letter);
            } else if self.text.push(letter).is_err() {
                self.is_lost = true;
            }
        }
    }

    /// Writes a byte.
    fn push_byte(&mut self, byte: u8) {
        self.push("0x");
        self.push_digit(UPPER, (byte / 16) as usize);
        self.push_digit(UPPER, (byte % 16) as usize);
    }

    /// Writes so many of a thing.
    fn push_several(&mut self, count: u64, one: &str, many: &str) {
        self.push_number(count);
        self.push(" ");
        self.push(if count == 1 { one } else { many });
    }

    /// Writes so many ticks, and how long they take.
    fn push_ticks(&mut self, ticks: u64, tick: u64) {
        self.push_several(ticks, "tick", "ticks");
        let micros = ticks.saturating_mul(tick);
        if micros == 0 {
            return;
        }
        let is_whole = micros.is_multiple_of(1_000);
        self.push(" (");
        self.push_number(if is_whole { micros / 1_000 } else { micros });
        self.push(if is_whole { " ms)" } else { " us)" });
    }

    /// Writes the beginning of a text.
    fn push_brief(&mut self, text: &str) {
        let start = start_of(text);
        self.push_text(start);
        self.push(if start.len() < text.len() { " .." } else { "" });
    }

    /// Writes the first of some names with commas.
    fn push_names(&mut self, names: &[&str]) {
        for (number, name) in names.iter().enumerate() {
            if number < LISTED {
                self.push(if number == 0 { "" } else { ", " });
                self.push_text(name);
            }
        }
        self.push(if names.len() > LISTED { ", .." } else { "" });
    }

    /// Goes on in the line with a value.
    pub fn put(&mut self, value: Value<'_>) {
        self.is_open = true;
        match value {
            Value::Number(number) => self.push_number(number),
            Value::Byte(byte) => self.push_byte(byte),
            Value::Several(count, one, many) => self.push_several(count, one, many),
            Value::Range(low, high) if low == high => self.push_number(low),
            Value::Range(low, high) => {
                self.push_number(low);
                self.push(" to ");
                self.push_number(high);
            }
            Value::Ticks(ticks, tick) => self.push_ticks(ticks, tick),
            Value::Text(text) => self.push_text(text),
            Value::Bytes(bytes) => self.push_text(text_of(bytes)),
            Value::Brief(bytes) => self.push_brief(text_of(bytes)),
            Value::Names(names) => self.push_names(names),
        }
    }

    /// Goes on in the line with a sentence, in which each `{}` is a hole for the next of these values.
    pub fn say(&mut self, sentence: &str, values: &[Value<'_>]) {
        for (number, piece) in sentence.split("{}").enumerate() {
            if number != 0 {
                if let Some(value) = values.get(number.saturating_sub(1)) {
                    self.put(*value);
                }
            }
            self.push(piece);
        }
        self.is_open = true;
    }

    /// Goes on in the line with a piece of a sentence, as it is.
    pub fn add(&mut self, piece: &str) {
        self.push(piece);
        self.is_open = true;
    }

    /// Ends the line, where one has begun.
    pub fn end_line(&mut self) {
        if self.is_open {
            self.push("\n");
        }
        self.is_open = false;
    }

    /// Begins what is told of this code, or of what has none.
    pub fn begin(&mut self, code: &str) {
        self.end_line();
        self.is_helped = false;
        if code.is_empty() {
            self.add("error: ");
        } else {
            self.say("error[{}]: ", &[Value::Text(code)]);
        }
    }

    /// Begins a line of what is to be done.
    pub fn help(&mut self, sentence: &str, values: &[Value<'_>]) {
        self.end_line();
        self.is_helped = true;
        self.push("   = help: ");
        self.say(sentence, values);
    }

    /// Begins a line of what is to be known beside it.
    pub fn note(&mut self, sentence: &str, values: &[Value<'_>]) {
        self.end_line();
        self.push("   = note: ");
        self.say(sentence, values);
    }

    /// Whether something is to be done, as was told since it began.
    pub fn is_helped(&self) -> bool {
        self.is_helped
    }

    /// Writes blanks as wide as so many letters of a piece are shown.
    fn push_blanks(&mut self, part: &str, letters: usize) {
        let mut count = 0usize;
        for byte in part.as_bytes() {
            if begins_letter(*byte) && count < letters {
                let is_wide = *byte == b'\t' || *byte == b'\r';
                self.push(if is_wide { "  " } else { " " });
                count = count.saturating_add(1);
            }
        }
    }

    /// Shows a line by the name of its file, its number and a column in it, both from 1, with a mark below the place.
    pub fn show<'x>(
        &mut self,
        arrow: &'x str,
        name: &'x str,
        number: u64,
        line: &'x [u8],
        column: usize,
    ) {
        self.end_line();
        let place = [
            Value::Text(arrow),
            Value::Text(name),
            Value::Number(number),
            Value::Number(column as u64),
        ];
        self.say("  {} {}:{}:{}\n", &place);
        if let Ok(whole) = str::from_utf8(line) {
            let (part, before) = around(whole, column);
            self.say("   | {}\n   | ", &[Value::Text(part)]);
            self.push_blanks(part, before);
            self.push("^\n");
        }
        self.is_open = false;
    }

    /// Shows where a text has what was told, behind so many of its bytes.
    pub fn at(&mut self, file: File<'_>, offset: usize) {
        let place = place_at(file.text, offset);
        let line = line_of(file.text, place.line);
        self.show("-->", file.name, place.line as u64, line, place.column);
    }

    /// Shows another place that has to do with it.
    pub fn beside(&mut self, file: File<'_>, offset: usize) {
        let place = place_at(file.text, offset);
        let line = line_of(file.text, place.line);
        self.show(":::", file.name, place.line as u64, line, place.column);
    }

    /// Says of which file it is told.
    pub fn name_file(&mut self, name: &str) {
        self.end_line();
        self.say("  --> {}", &[Value::Text(name)]);
    }

    /// The one of these names that is most like a text, where one is like it, and another that is as much like it.
    pub fn nearest<'a>(&mut self, text: &str, names: &[&'a str]) -> Option<(&'a str, &'a str)> {
        match nearest(self.alloc, text, names) {
            Ok(names) => names,
            Err(_) => {
                self.is_lost = true;
                None
            }
        }
    }

    /// What is told; nothing where memory was refused.
    pub fn finish(mut self) -> Option<String> {
        self.end_line();
        let Explanation { text, is_lost, .. } = self;
        if is_lost { None } else { Some(text) }
    }
}
