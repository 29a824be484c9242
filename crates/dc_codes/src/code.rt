//! Codes by their names.
ghost use Rattle.std.specs.Prelude.{◌≡◌, find, map, option_map};
ghost use Rattle.dc_codes.specs.Codes.{asks_for, is_same, names};

use crate::kind::Kind;
use crate::listed::all;

/// A code or a word that the program prints.
#[derive(Clone, Copy, Debug, PartialEq, Eq)]
pub struct Code<'n> {
    name: &'n str,
}

/// Whether two texts are one in upper case.
fn is_same(name: &[u8], text: &[u8]) -> bool
    ensures { result ≡ is_same name.now text.now }
{
    name.eq_ignore_ascii_case(text)
}

/// Whether the text asks for the code of this name.
#[tactic(auto, unfolding(crate::specs::Codes::asks_for))]
fn asks_for(text: &[u8], name: &[u8]) -> bool
    ensures { result ≡ asks_for text.now name.now }
{
    if text.len() == 2 {
        return is_same(name, text) || is_same(name, &[text[0], b'0', text[1]]);
    }
    is_same(name, text)
}

/// The first of these codes that the text asks for.
fn first_asked(text: &[u8], listed: &'static [(Kind, &'static str)]) -> Option<Code<'static>>
    ensures { option_map (λ c. c.name.now) result ≡ find (asks_for text.now) (map (λ p. p.1.now) listed.now) }
{
    for (_, name) in listed.iter() {
        if asks_for(text, name.as_bytes()) {
            return Some(Code { name });
        }
    }
    None
}

impl Code<'static> {
    /// The code that the text asks for, in upper or lower case; `C6` is taken as `C06`.
    pub fn named(text: &str) -> Option<Code<'static>>
        ensures { option_map (λ c. c.name.now) result ≡ find (asks_for text.now) names }
    {
        first_asked(text.as_bytes(), all())
    }
}

impl<'n> Code<'n> {
    /// Its name, as it is printed.
    pub fn name(self) -> &'n str
        ensures { result.now ≡ self.entry.name.now }
    {
        self.name
    }
}
