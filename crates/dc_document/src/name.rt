//! Names.

ghost use Rattle.std.specs.Prelude.{◌≡◌, [], ◌∷◌, length};
ghost use Rattle.std.specs.List.{list_all, prefix_len};
ghost use Rattle.std.specs.Cmp.Rules.{hashing};
ghost use Rattle.std.proofs.Common.{rules};
ghost use Rattle.dc_document.specs.Names.{is_name_byte as is_spelling_byte, is_spelled as is_spelled_name, IsSpelled, name_of, text_of};

use crate::limits::NAME_LIMIT;
use std::hash::{Hash, Hasher};
use std::marker::Model;
use std::str::from_utf8;

/// The name of a bus, stream, router, output or label: 1 to [`NAME_LIMIT`] of the characters A-Z, a-z, 0-9, `_` and
/// `-`.
#[derive(Clone, Copy, Debug, PartialEq, Eq)]
pub struct Name([u8; NAME_LIMIT]);

impl Model for Name {
    ghost use Rattle.std.specs.Prelude.{ℕ, List};
    ghost use Rattle.dc_document.specs.Names.{IsName};

    ghost Value = { List ℕ };

    ghost view = { λ n. n.0 };

    ghost invariant = { λ n. IsName n.0 };

    ghost inverse = { λ bytes. record { 0 = bytes } };
}

/// A table with a name.
pub trait Named {
    ghost use Rattle.std.specs.Prelude.{ℕ, List};

    // The name of one.
    ghost name_of: { Self → List ℕ };

    /// The name.
    fn name(&self) -> Name
        ensures { result ≡ name_of self.now };
}

// One write of all bytes: the derived one makes a write of each.
impl Hash for Name {
    ghost hash_input = { λ name. name ∷ [] };

    ghost respects_eq = { Prim.search (hashing, rules) };

    fn hash<H: Hasher>(&self, state: &mut H) {
        state.write(&self.0);
    }
}

/// Whether a byte is a letter, a digit, `_` or `-`.
fn is_name_byte(byte: u8) -> bool
    ensures { result ≡ is_spelling_byte byte }
{
    matches!(byte, b'A'..=b'Z' | b'a'..=b'z' | b'0'..=b'9' | b'_' | b'-')
}

/// Whether each byte may stand in a name.
fn are_name_bytes(bytes: &[u8]) -> bool
    ensures { result ≡ list_all is_spelling_byte bytes.now }
{
    bytes.iter().all(|byte| is_name_byte(*byte))
}

/// Whether a text is spelled as a name.
fn is_spelled(text: &[u8]) -> bool
    ensures { result ≡ is_spelled_name text.now }
{
    !text.is_empty() && text.len() <= NAME_LIMIT && are_name_bytes(text)
}

/// How many bytes from the front on may stand in a name.
fn text_len(bytes: &[u8]) -> usize
    ensures { result ≡ prefix_len is_spelling_byte bytes.now }
{
    bytes.iter().take_while(|byte| is_name_byte(**byte)).count()
}

impl Name {
    /// The name with this text, if it is spelled as one.
    pub fn new(text: &[u8]) -> Option<Name>
        ensures { result ≡ name_of text.now }
    {
        if !is_spelled(text) {
            return None;
        }
        let mut bytes = [0; NAME_LIMIT];
        bytes[..text.len()].copy_from_slice(text);
        Some(Name(bytes))
    }

    /// The name's text, 1 to [`NAME_LIMIT`] bytes.
    pub fn text(&self) -> &[u8]
        ensures text { result.now ≡ text_of self.now }
        ensures spelled { IsSpelled result.now }
    {
        let len = text_len(&self.0);
        &self.0[..len]
    }

    /// The name's text, as a text.
    pub fn as_str(&self) -> &str
        ensures text { result.now ≡ text_of self.now }
        ensures spelled { IsSpelled result.now }
    {
        from_utf8(self.text()).unwrap()
    }
}
