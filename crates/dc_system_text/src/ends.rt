//! An end of a link, as a text writes it.
ghost use Rattle.std.specs.Prelude.{◌≡◌, ◌==◌, position};
ghost use Rattle.dc_document.specs.Names.{name_of};
ghost use Rattle.dc_system_text.specs.System.{end_named, end_of};

use crate::parts::End;
use dc_document::Name;

/// The end that a text writes: two names with a dot between them.
pub fn end_of(text: &[u8]) -> Option<End>
    ensures { result ≡ end_of text.now }
{
    match dot_in(text) {
        Some(dot) => named(&text[..dot], &text[dot + 1..]),
        None => None,
    }
}

/// Where the first dot stands.
fn dot_in(text: &[u8]) -> Option<usize>
    ensures { result ≡ position (λ b. b == 46) text.now }
{
    for (index, byte) in text.iter().enumerate() {
        if *byte == b'.' {
            return Some(index);
        }
    }
    None
}

/// The end of these names, where they are spelled as names.
fn named(concentrator: &[u8], port: &[u8]) -> Option<End>
    ensures { result ≡ end_named (name_of concentrator.now) (name_of port.now) }
{
    match (Name::new(concentrator), Name::new(port)) {
        (Some(concentrator), Some(port)) => Some(End { concentrator, port }),
        _ => None,
    }
}
