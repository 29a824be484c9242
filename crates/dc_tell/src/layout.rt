//! Where the tables of a text in TOML, or the objects of one in JSON, and their keys stand.
use crate::kinds::Kind;
use crate::likeness::Names;
use crate::tokens::Span;
use std::alloc::Global;

/// A table, by its kind and its number among those of its kind.
#[derive(Clone, Copy)]
pub struct Row {
    /// Its kind.
    pub kind: Kind,
    /// Its number, from 0.
    pub index: usize,
    /// Its heading or its brace.
    pub at: Span,
    /// The number of the table that it stands in, among all of the text.
    pub parent: usize,
    /// What stands in its place, where that is no table.
    pub instead: Option<Span>,
    /// The number of its first key among all, or a smaller one.
    pub first: usize,
    /// The number behind its last key.
    pub last: usize,
}

/// How a key is written.
#[derive(Clone, Copy)]
pub enum Form {
    /// `key = value`
    Value,
    /// `[[key]]`
    Heads,
    /// `[key]`
    Head,
}

/// A key of a table and its value.
#[derive(Clone, Copy)]
pub struct Key {
    /// The number of the table among all of the text; none where it is of no kind that is known.
    pub row: Option<usize>,
    /// The key.
    pub name: Span,
    /// The value; empty where the key heads a table.
    pub value: Span,
    /// How it is written.
    pub form: Form,
    /// The number of the first member of the list that is its value, among all.
    pub first: usize,
    /// The number behind its last member.
    pub last: usize,
}

/// The tables of a text in their order, and their keys.
#[derive(Drop)]
pub struct Layout<'a> {
    /// The text.
    pub text: &'a [u8],
    /// Whether it is JSON, where the last of equal keys counts.
    pub is_json: bool,
    /// Its tables; the first is the top.
    pub rows: Vec<Row>,
    /// Their keys.
    pub keys: Vec<Key>,
    /// The members of lists that are no tables.
    pub members: Vec<Span>,
    /// Whether some text between quotes has an escape sequence, so that what it says is not what stands there.
    pub is_escaped: bool,
}

/// A piece without the quotes round it.
pub fn unquoted(span: Span, text: &[u8]) -> Span {
    let piece = text.get(span.from..span.to).unwrap_or(b"");
    if piece.first() != Some(&b'"') && piece.first() != Some(&b'\'') {
        return span;
    }
    let triple = piece.starts_with(b"\"\"\"") || piece.starts_with(b"'''");
    let quotes = if triple && piece.len() >= 6 {
        3usize
    } else {
        1usize
    };
    Span {
        from: span.from.saturating_add(quotes).min(span.to),
        to: span.to.saturating_sub(quotes),
    }
}

impl<'a> Layout<'a> {
    /// A piece of the text.
    pub fn piece(&self, span: Span) -> &'a [u8] {
        self.text.get(span.from..span.to).unwrap_or(b"")
    }

    /// A piece of the text without the quotes round it.
    pub fn bare(&self, span: Span) -> &'a [u8] {
        self.piece(unquoted(span, self.text))
    }

    /// The table of this kind and number.
    pub fn row(&self, kind: Kind, index: usize) -> Option<usize> {
        for (number, row) in self.rows.iter().enumerate() {
            if row.kind == kind && row.index == index {
                return Some(number);
            }
        }
        None
    }

    /// The key of this name of a table.
    pub fn key(&self, row: usize, name: &[u8]) -> Option<Key> {
        let (first, last) = match self.rows.get(row) {
            None => (0, 0),
            Some(it) => (it.first, it.last),
        };
        let mut found = None;
        for key in self.keys.get(first..last).unwrap_or(&[]) {
            if key.row == Some(row) && self.bare(key.name) == name {
                found = Some(*key);
                if !self.is_json {
                    break;
                }
            }
        }
        found
    }

    /// What stands at a key of a table, without quotes, and nothing where it has none.
    pub fn value(&self, row: usize, name: &str) -> &'a [u8] {
        match self.key(row, name.as_bytes()) {
            None => b"",
            Some(key) => self.bare(key.value),
        }
    }

    /// The members of the list at a key of a table, where they are no tables.
    pub fn members(&self, row: usize, name: &str) -> &[Span] {
        match self.key(row, name.as_bytes()) {
            None => &[],
            Some(key) => self.members.get(key.first..key.last).unwrap_or(&[]),
        }
    }

    /// The names of the tables of a kind.
    pub fn names(&self, alloc: Global, kind: Kind) -> Names<'a> {
        let mut names = Names::new(alloc);
        for (row, it) in self.rows.iter().enumerate() {
            if it.kind == kind {
                names.add(str::from_utf8(self.value(row, "name")).unwrap_or(""));
            }
        }
        names
    }
}
