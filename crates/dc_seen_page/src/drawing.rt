//! A number as three bars: its limit, what the certificate claims, and what was seen.

ghost use Rattle.std.specs.Prelude.{◌≤◌};

use dc_page_text::Hole::{Digits, Number, Text};
use dc_page_text::{Html, share};

/// How wide a picture is, in its points.
const WIDTH: u64 = 400;

/// Of greater numbers the last digits are left out where they are drawn, so that they can be multiplied by the width: 2^54.
const GREAT: u64 = 18_014_398_509_481_984;

/// A number that was seen, beside what bounds it, each where there is one.
#[derive(Clone, Copy)]
pub struct Beside {
    /// What was seen.
    pub seen: Option<u64>,
    /// What the certificate claims.
    pub certified: Option<u64>,
    /// What the tables limit it to.
    pub limit: Option<u64>,
    /// Whether it may not fall below its limit, in place of pass it.
    pub is_least: bool,
}

/// A number, 0 where there is none.
pub fn or_zero(number: Option<u64>) -> u64 {
    match number {
        Some(number) => number,
        None => 0,
    }
}

/// Whether a number is past another, where both are there.
fn is_more(number: Option<u64>, other: Option<u64>) -> bool {
    match number {
        Some(number) => match other {
            Some(other) => number > other,
            None => false,
        },
        None => false,
    }
}

/// How much a picture shows of which the longest bar is this: a little more.
pub fn roomy(longest: u64) -> u64
    ensures { longest ≤ result }
{
    longest.saturating_add(longest / 10).saturating_add(1)
}

/// Where a bar of so much ends, in a picture that shows so much.
pub fn place(number: u64, span: u64) -> u64
    ensures { result ≤ 400 }
{
    let scale = (span / GREAT).max(1);
    share(number / scale, span / scale, WIDTH)
}

impl Beside {
    /// Whether what was seen is past what bounds it.
    pub fn is_past(&self) -> bool {
        if self.is_least {
            return is_more(self.limit, self.seen);
        }
        is_more(self.seen, self.certified) || is_more(self.seen, self.limit)
    }

    /// The longest of its bars.
    pub fn longest(&self) -> u64 {
        or_zero(self.seen)
            .max(or_zero(self.certified))
            .max(or_zero(self.limit))
    }
}

/// Adds a number, where there is one, in the words of this piece.
fn push_told(html: &mut Html, piece: &str, number: Option<u64>) {
    if let Some(number) = number {
        html.put(piece, &[Number(number)]);
    }
}

/// Adds a number in words.
fn push_words(html: &mut Html, number: &Beside) {
    push_told(html, "seen {}", number.seen);
    if number.seen.is_none() {
        html.add("none seen");
    }
    push_told(html, ", certificate {}", number.certified);
    push_told(html, ", limit {}", number.limit)
}

/// Adds a bar, where there is its number, by this piece.
fn push_bar(html: &mut Html, piece: &str, number: Option<u64>, span: u64) {
    if let Some(number) = number {
        html.put(piece, &[Digits(place(number, span))]);
    }
}

/// Adds the bars of a number.
fn push_bars(html: &mut Html, number: &Beside) {
    let span = roomy(number.longest());
    push_bar(html, "<path class='r' d='M0 2H{}'/>", number.limit, span);
    push_bar(
        html,
        "<path class='b' d='M0 9H{}'/>",
        number.certified,
        span,
    );
    push_bar(html, "<path class='d' d='M0 19H{}'/>", number.seen, span)
}

/// What stands before words on a number: a cross where it is past what bounds it.
pub fn mark(is_past: bool) -> &'static str {
    if is_past {
        "<b class='no'>&#10007; "
    } else {
        "<b>"
    }
}

/// Adds what a number is, of which row, its bars and the number in words.
pub fn push_number(html: &mut Html, what: &str, name: &str, number: &Beside) {
    html.put(
        "<div><svg role='img' viewBox='0 0 400 24'><title>{} of {}</title><desc>",
        &[Text(what), Text(name)],
    );
    push_words(html, number);
    html.add("</desc>");
    push_bars(html, number);
    html.put("</svg>{}: ", &[Text(what)]);
    html.add(mark(number.is_past()));
    push_words(html, number);
    html.add("</b></div>\n")
}
