//! The fields of a line.
ghost use Rattle.std.specs.Prelude.{◌≡◌, ◌+◌, ◌<◌, [], ◌∷◌, drop, length, take, MatchOption};
ghost use Rattle.dc_event.specs.TraceText.{fields_of};

use std::marker::Model;

/// Where the first space of a text is.
fn first_space(text: &[u8]) -> Option<usize>
    ensures { MatchOption result (fields_of text.now ≡ text.now ∷ [])
        (λ i. (i < length text.now) × (fields_of text.now ≡ take i text.now ∷ fields_of (drop (i + 1) text.now))) }
{
    for (i, c) in text.iter().enumerate() {
        if *c == b' ' {
            return Some(i);
        }
    }
    None
}

/// Gives the fields of a line, parted by one space each. A clause sees it as the fields that are left.
#[derive(Drop)]
pub struct Fields<'a> {
    rest: &'a [u8],
    is_done: bool,
}

impl<'a> Model for Fields<'a> {
    ghost use Rattle.std.specs.Prelude.{ℕ, List, [], if◌then◌else◌};
    ghost use Rattle.dc_event.specs.TraceText.{fields_of};

    ghost Value = { List (List ℕ) };

    ghost view = { λ f. if f.is_done then [] else fields_of f.rest.now };
}

impl<'a> Fields<'a> {
    /// The fields of a line.
    pub fn of(line: &'a [u8]) -> Self
        ensures { result ≡ fields_of line.now }
    {
        Fields {
            rest: line,
            is_done: false,
        }
    }

    /// The next field, where there is one.
    pub fn next(&mut self) -> Option<&'a [u8]>
        ensures { MatchOption result ((self.old ≡ []) × (self.new ≡ [])) (λ field. self.old ≡ field.now ∷ self.new) }
    {
        if self.is_done {
            return None;
        }
        let text = self.rest;
        match first_space(text) {
            None => {
                self.is_done = true;
                Some(text)
            }
            Some(i) => {
                self.rest = &text[i + 1..];
                Some(&text[..i])
            }
        }
    }
}
