//! The kinds of lines, and the fields that each has.
ghost use Rattle.std.specs.Prelude.{◌≡◌, ◌≤◌, length, map};
ghost use Rattle.dc_event.specs.TraceText.{fields_of};
ghost use Rattle.dc_seen.specs.Kinds.{are_words, formed, has_form, kind_of, surplus};

use crate::fault::SeenRule;
use crate::fields::{count_fields, is_word};

/// What a line is about.
#[derive(Clone, Copy)]
pub enum Kind {
    /// An input bus.
    Input,
    /// An output.
    Output,
    /// A label.
    Label,
}

/// Whether every other field from number 2 on is one of these words.
fn are_words(line: &[u8], words: &[&str]) -> bool
    requires { length words.now ≤ 8 }
    ensures { result ≡ are_words (fields_of line.now) 2 (map (λ w. w.now) words.now) }
{
    let mut place = 2;
    for word in words {
        if !is_word(line, place, word.as_bytes()) {
            return false;
        }
        place += 2;
    }
    true
}

/// Whether the fields are two, and these words with a field behind each.
#[tactic(auto, unfolding(crate::specs::Kinds::has_form))]
fn has_form(line: &[u8], words: &[&str]) -> bool
    requires { length words.now ≤ 8 }
    ensures { result ≡ has_form (fields_of line.now) (map (λ w. w.now) words.now) }
{
    count_fields(line) == 2 + 2 * words.len() && are_words(line, words)
}

/// The kind, where the fields have the form with these words.
fn formed(line: &[u8], kind: Kind, words: &[&str]) -> Result<Kind, SeenRule>
    requires { length words.now ≤ 8 }
    ensures { result ≡ formed kind (has_form (fields_of line.now) (map (λ w. w.now) words.now)) }
{
    if has_form(line, words) {
        return Ok(kind);
    }
    Err(SeenRule::FieldsWrong)
}

/// The kind that the first field of a line names, where the others are those of that kind.
#[tactic(auto, unfolding(crate::specs::Kinds::kind_of))]
pub(crate) fn kind_of(line: &[u8]) -> Result<Kind, SeenRule>
    ensures { result ≡ kind_of (fields_of line.now) }
{
    if is_word(line, 0, b"input") {
        return formed(line, Kind::Input, &["backlog", "of", "wait", "of"]);
    }
    if is_word(line, 0, b"output") {
        return formed(line, Kind::Output, &["late", "of"]);
    }
    if is_word(line, 0, b"label") {
        let words = &[
            "sent", "fallback", "age", "of", "least", "of", "greatest", "of",
        ];
        return formed(line, Kind::Label, words);
    }
    Err(SeenRule::KindUnknown)
}

/// The rule that a line breaks where none of its kind and name is next: that of its form, or that it is not next.
pub(crate) fn surplus(line: &[u8]) -> SeenRule
    ensures { result ≡ surplus (kind_of (fields_of line.now)) }
{
    match kind_of(line) {
        Ok(_) => SeenRule::NotNext,
        Err(rule) => rule,
    }
}
