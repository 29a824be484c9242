//! A page as it grows.

use crate::amount::Unit;
use crate::escape::Escaped;
use crate::number::{Grouped, Hundredths, Thousandths};
use std::alloc::{AllocError, Global};
use std::fmt;

/// What stands in a hole of a piece of a page.
#[derive(Clone, Copy)]
pub enum Hole<'a> {
    /// A number, its digits alone, as in the path of a drawing.
    Digits(u64),
    /// A number with commas between its thousands.
    Number(u64),
    /// A number of hundredths.
    Hundredths(u64),
    /// A number of thousandths, as of microseconds that are shown as milliseconds.
    Thousandths(u64),
    /// So many of a unit.
    Times(Unit, usize),
    /// A text, whatever its characters.
    Text(&'a str),
}

/// A page as it grows. Where memory is refused it is lost.
#[derive(Drop)]
pub struct Html {
    /// What was written.
    text: String,
    /// Why it is lost, where it is.
    lost: Option<AllocError>,
}

impl Html {
    /// An empty page.
    pub fn new(alloc: Global) -> Self {
        Html {
            text: String::new(alloc),
            lost: None,
        }
    }

    /// The page is lost.
    pub fn lose(&mut self, error: AllocError) {
        self.lost = Some(error);
    }

    /// Adds words of the page's own.
    pub fn add(&mut self, words: &str) {
        if let Err(error) = self.text.push_str(words) {
            self.lose(error);
        }
    }

    /// Adds what stands in a hole.
    fn fill(&mut self, hole: Hole<'_>) {
        let text = &mut self.text;
        let written = match hole {
            Hole::Digits(number) => write!(text, "{number}"),
            Hole::Number(number) => {
                let number = Grouped(number);
                write!(text, "{number}")
            }
            Hole::Hundredths(number) => {
                let number = Hundredths(number);
                write!(text, "{number}")
            }
            Hole::Thousandths(number) => {
                let number = Thousandths(number);
                write!(text, "{number}")
            }
            Hole::Times(unit, count) => {
                let amount = unit.times(count);
                write!(text, "{amount}")
            }
            Hole::Text(own) => {
                let own = Escaped(own);
                write!(text, "{own}")
            }
        };
        if let Err(error) = written {
            self.lose(error);
        }
    }

    /// Adds a piece of the page, of which each `{}` is the next of these holes.
    pub fn put(&mut self, piece: &str, holes: &[Hole<'_>]) {
        let mut next = holes.iter();
        for (place, words) in piece.split("{}").enumerate() {
            if place != 0 {
                if let Some(hole) = next.next() {
                    self.fill(*hole);
                }
            }
            self.add(words);
        }
    }

    /// Adds what a value shows.
    pub fn show<T: fmt::Display + Copy>(&mut self, value: T) {
        let text = &mut self.text;
        if let Err(error) = write!(text, "{value}") {
            self.lose(error);
        }
    }

    /// The page.
    ///
    /// # Errors
    /// `AllocError` where memory was refused, or the page was lost.
    pub fn end(self) -> Result<String, AllocError> {
        let Html { text, lost } = self;
        match lost {
            None => Ok(text),
            Some(error) => Err(error),
        }
    }
}
