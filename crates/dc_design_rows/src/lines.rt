//! Lines that are told, as they grow.
use crate::letters::Letters;
use dc_cell::TimeUnit;
use dc_tell::{Explanation, Value};
use std::alloc::Global;

/// How many lines of a list are told; the others are counted.
pub const MOST_LINES: u64 = 50;

/// The digits of a number in hexadecimal.
static DIGITS: [&'static str; 16] = [
    "0", "1", "2", "3", "4", "5", "6", "7", "8", "9", "A", "B", "C", "D", "E", "F",
];

/// What stands in a hole of a sentence.
#[derive(Clone, Copy)]
pub enum Fact {
    /// A number.
    Number(u64),
    /// The first number less the second, below 0 perhaps.
    Less(u64, u64),
    /// A number as three octal digits.
    Octal(u64),
    /// A number as three hexadecimal digits.
    Hexadecimal(u64),
    /// So many microseconds, in a unit and with its name.
    Time(u64, TimeUnit),
    /// A word.
    Word(&'static str),
    /// A name.
    Name(Letters),
}

/// Lines as they grow; where memory gives out they are lost whole, so nothing that writes them has an error. Of a list
/// the first [`MOST_LINES`] are written and all are counted.
#[derive(Drop)]
pub struct Lines {
    told: Explanation,
    count: u64,
}

impl Lines {
    /// No lines.
    pub fn new(alloc: Global) -> Lines {
        Lines {
            told: Explanation::new(alloc),
            count: 0,
        }
    }

    /// How many lines of a list there are so far.
    pub fn count(&self) -> u64 {
        self.count
    }

    /// Begins a line of a list.
    pub fn begin(&mut self, start: &str) {
        self.end();
        self.count = self.count.saturating_add(1);
        self.say(start, &[]);
    }

    /// Goes on in the line with a sentence, in which each `{}` is a hole for the next of these facts.
    pub fn say(&mut self, sentence: &str, facts: &[Fact]) {
        if self.count > MOST_LINES {
            return;
        }
        for (number, piece) in sentence.split("{}").enumerate() {
            if number != 0 {
                if let Some(fact) = facts.get(number.saturating_sub(1)) {
                    self.put(fact);
                }
            }
            self.told.add(piece);
        }
    }

    /// Writes a line whole.
    pub fn line(&mut self, sentence: &str, facts: &[Fact]) {
        self.say(sentence, facts);
        self.end();
    }

    /// Ends the line, where one has begun.
    pub fn end(&mut self) {
        self.told.end_line();
    }

    /// Goes on in the line with a text.
    pub fn text(&mut self, text: &str) {
        if self.count <= MOST_LINES {
            self.told.put(Value::Text(text));
        }
    }

    /// Goes on in the line with a fact.
    fn put(&mut self, fact: &Fact) {
        match fact {
            Fact::Number(number) => self.told.put(Value::Number(*number)),
            Fact::Less(most, less) => self.put_difference(*most, *less),
            Fact::Octal(number) => self.put_digits(*number, 8),
            Fact::Hexadecimal(number) => self.put_digits(*number, 16),
            Fact::Time(us, unit) => self.put_time(*us, *unit),
            Fact::Word(word) => self.told.say(word, &[]),
            Fact::Name(name) => self.told.put(Value::Bytes(name.text())),
        }
    }

    /// Writes a number less another one.
    fn put_difference(&mut self, most: u64, less: u64) {
        if most < less {
            self.told.add("-");
        }
        self.told.put(Value::Number(most.abs_diff(less)));
    }

    /// Writes a number as three digits to this base.
    fn put_digits(&mut self, number: u64, base: u64) {
        for scale in [base.saturating_mul(base), base, 1] {
            let digit = number.checked_div(scale).unwrap_or(0);
            let digit = digit.checked_rem(base).unwrap_or(0) as usize;
            self.told.add(DIGITS.get(digit).copied().unwrap_or(""));
        }
    }

    /// Writes so many microseconds in a unit, with as many digits behind the point as are needed: 62500 are `62.5 ms`.
    fn put_time(&mut self, us: u64, unit: TimeUnit) {
        match unit {
            TimeUnit::Microseconds => self.told.say("{} us", &[Value::Number(us)]),
            TimeUnit::Milliseconds => {
                self.told.put(Value::Number(us / 1_000));
                self.put_thousandths(us % 1_000);
                self.told.add(" ms");
            }
        }
    }

    /// Writes so many thousandths behind a point, up to the last digit that is not 0; nothing where there are none.
    fn put_thousandths(&mut self, number: u64) {
        if number == 0 {
            return;
        }
        self.told.add(".");
        let mut rest = number;
        for scale in [100u64, 10, 1] {
            if rest > 0 {
                let digit = rest.checked_div(scale).unwrap_or(0) as usize;
                self.told.add(DIGITS.get(digit).copied().unwrap_or(""));
                rest = rest.checked_rem(scale).unwrap_or(0);
            }
        }
    }

    /// The lines, with how many of a list are not told; nothing where memory was refused.
    pub fn finish(mut self) -> Option<String> {
        let more = self.count.saturating_sub(MOST_LINES);
        self.end();
        let Lines { mut told, count } = self;
        if count > MOST_LINES {
            told.say("and {} more", &[Value::Number(more)]);
        }
        told.finish()
    }
}
