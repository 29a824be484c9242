//! Text that may stand anywhere in a page.

ghost use Rattle.std.specs.Prelude.{◌≡◌, Some};
ghost use Rattle.std.specs.Str.{chars};
ghost use Rattle.dc_page_text.specs.Text.{entity, escaped, is_forbidden as is_forbidden_code, letter_shown};

use std::fmt;

/// Whether XML forbids a character.
fn is_forbidden(letter: char) -> bool
    ensures { result ≡ is_forbidden_code letter }
{
    matches!(letter, '\u{0}'..='\u{8}' | '\u{b}' | '\u{c}' | '\u{e}'..='\u{1f}' | '\u{fffe}' | '\u{ffff}')
}

/// The character that stands for one: itself, or U+FFFD where XML forbids it.
fn shown(letter: char) -> char
    ensures { result ≡ letter_shown letter }
{
    if is_forbidden(letter) {
        '\u{fffd}'
    } else {
        letter
    }
}

/// A character; one that has a meaning in a page stands as its entity.
#[derive(Clone, Copy)]
struct Entity(char);

impl fmt::Display for Entity {
    ghost output = { λ x. Some (entity x.0) };

    #[tactic(auto, unfolding(crate::specs::Text::entity))]
    fn fmt<W: fmt::Write>(&self, f: &mut fmt::Formatter<W>) -> fmt::Result {
        match self.0 {
            '&' => write!(f, "&amp;"),
            '<' => write!(f, "&lt;"),
            '>' => write!(f, "&gt;"),
            '"' => write!(f, "&quot;"),
            '\'' => write!(f, "&#39;"),
            letter => write!(f, "{letter}"),
        }
    }
}

/// A text, of which the characters that have a meaning in a page stand as their entities, those that XML forbids as
/// U+FFFD.
#[derive(Clone, Copy)]
pub struct Escaped<'a>(pub &'a str);

impl<'a> fmt::Display for Escaped<'a> {
    ghost output = { λ x. Some (escaped (chars x.0.now)) };

    fn fmt<W: fmt::Write>(&self, f: &mut fmt::Formatter<W>) -> fmt::Result {
        for letter in self.0.chars() {
            let own = Entity(shown(letter));
            write!(f, "{own}")?;
        }
        Ok(())
    }
}
