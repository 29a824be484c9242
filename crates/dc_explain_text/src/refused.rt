//! A text that was refused, and what is told of it.
use crate::holes::{Hole, hole_of, place_in};
use crate::keys::{Extent, is_there, keys_of};
use crate::values::number;
use dc_tell::{
    Explanation, File, Form, Kind, Layout, Names, Span, Value, called, naming, place_at,
};
use std::alloc::Global;

/// A text that was refused, the table of it that has the fault, and what is told.
#[derive(Drop)]
pub struct Refused<'a> {
    /// What gives memory.
    pub alloc: Global,
    /// What is told.
    pub out: Explanation,
    /// The text.
    pub file: File<'a>,
    /// Where its tables stand.
    pub layout: Layout<'a>,
    /// The number of the table with the fault among all of the text.
    pub row: usize,
}

/// What stands in a hole of a sentence.
#[derive(Clone, Copy)]
pub enum Fact {
    /// A number.
    Number(u64),
    /// The number at a key of a table; 0 where there is none.
    Count(usize, &'static str),
    /// So many of what the first word names in the singular, the second in the plural.
    Several(u64, &'static str, &'static str),
    /// A word.
    Word(&'static str),
    /// A table by its kind and what names it.
    Row(usize),
    /// What stands at a key of a table, without quotes.
    At(usize, &'static str),
    /// A piece of the text.
    Piece(Span),
    /// The line in which a table has a key.
    Line(usize, &'static str),
    /// Where a table has a key, or where it stands itself: the line is shown, and the sentence ends.
    Place(usize, &'static str),
    /// Where a piece of the text stands, in the same way.
    Here(Span),
    /// Whether the line is told that begins with its hole.
    If(bool),
}

/// The keys of what names a table of a kind, the second empty where one does, and how it is told.
fn naming_of(kind: Kind) -> (&'static str, &'static str, &'static str) {
    match kind {
        Kind::Parameter => ("label", "equipment", " (label {}, equipment {})"),
        Kind::Link => ("from", "to", " ({} to {})"),
        _ => (naming(kind), "", " `{}`"),
    }
}

/// How many tables of a kind a text has.
fn tables_in(layout: &Layout<'_>, kind: Kind) -> usize {
    let mut count = 0usize;
    for it in layout.rows.as_slice() {
        if it.kind == kind {
            count = count.saturating_add(1);
        }
    }
    count
}

/// Writes a table by its kind and its name, or the two values that it has for one; by its number where it has none.
fn write_row(out: &mut Explanation, layout: &Layout<'_>, row: usize) {
    let (kind, index) = match layout.rows.get(row) {
        None => return,
        Some(it) => (it.kind, it.index),
    };
    let (word, _) = called(kind);
    out.add(word);
    if row == 0 {
        return;
    }
    let (key, other, sentence) = naming_of(kind);
    let name = layout.value(row, key);
    let behind = layout.value(row, other);
    if name.is_empty() || (!other.is_empty() && behind.is_empty()) {
        let number = (index as u64).saturating_add(1);
        let count = tables_in(layout, kind) as u64;
        out.say(" {} of {}", &[Value::Number(number), Value::Number(count)]);
    } else {
        let names = [Value::Brief(name), Value::Brief(behind)];
        out.say(sentence, &names);
    }
}

impl<'a> Refused<'a> {
    /// Begins to tell by this code of the table of this kind and number; of the top, and false, where it has none such.
    pub fn begin(&mut self, code: &str, kind: Kind, index: usize) -> bool {
        let row = self.layout.row(kind, index);
        self.row = row.unwrap_or(0);
        self.out.begin(code);
        row.is_some()
    }

    /// What is told; nothing where memory was refused.
    pub fn finish(self) -> Option<String> {
        let Refused { out, .. } = self;
        out.finish()
    }

    /// The kind of a table.
    pub fn kind(&self, row: usize) -> Kind {
        match self.layout.rows.get(row) {
            None => Kind::None,
            Some(it) => it.kind,
        }
    }

    /// The table that a table stands in.
    pub fn parent(&self, row: usize) -> usize {
        match self.layout.rows.get(row) {
            None => 0,
            Some(it) => it.parent,
        }
    }

    /// The number at a key of a table; 0 where there is none.
    pub fn count(&self, row: usize, key: &str) -> u64 {
        number(self.layout.value(row, key)).unwrap_or(0)
    }

    /// Whether the tables are of version 2.
    pub fn is_policed(&self) -> bool {
        self.count(0, "version") == 2
    }

    /// How many tables of a kind there are.
    pub fn tables_of(&self, kind: Kind) -> usize {
        tables_in(&self.layout, kind)
    }

    /// The table of a kind that has this name.
    pub fn named(&self, kind: Kind, name: &[u8]) -> Option<usize> {
        for (row, it) in self.layout.rows.iter().enumerate() {
            if it.kind == kind && self.layout.value(row, "name") == name {
                return Some(row);
            }
        }
        None
    }

    /// The names of the tables of a kind.
    pub fn names(&mut self, kind: Kind) -> Names<'a> {
        let names = self.layout.names(self.alloc, kind);
        if names.is_lost() {
            self.out.lose();
        }
        names
    }

    /// Whether no table has a key of a layout, as in tables to lay out.
    pub(crate) fn is_unlaid(&self) -> bool {
        for key in self.layout.keys.as_slice() {
            let name = self.layout.bare(key.name);
            if name == b"frame".as_slice() || name == b"stale".as_slice() {
                return false;
            }
        }
        true
    }

    /// Which keys there are.
    pub(crate) fn extent(&self) -> Extent {
        Extent {
            is_policed: self.is_policed(),
            is_unlaid: self.is_unlaid(),
        }
    }

    /// The names of the keys of the table with the fault, in their order.
    pub(crate) fn keys(&mut self) -> Names<'static> {
        let extent = self.extent();
        let mut names = Names::new(self.alloc);
        for wanted in keys_of(self.kind(self.row)) {
            if is_there(wanted.name, extent) {
                names.add(wanted.name);
            }
        }
        if names.is_lost() {
            self.out.lose();
        }
        names
    }

    /// The value at a key of a table, the key where it heads tables, or the table itself where it has no such key.
    pub fn place(&self, row: usize, key: &str) -> usize {
        match self.layout.key(row, key.as_bytes()) {
            Some(key) if matches!(key.form, Form::Value) => key.value.from,
            Some(key) => key.name.from,
            None => match self.layout.rows.get(row) {
                None => 0,
                Some(it) => it.at.from,
            },
        }
    }

    /// Writes a fact.
    fn put(&mut self, fact: Fact) {
        let value = match fact {
            Fact::Number(number) => Value::Number(number),
            Fact::Count(row, key) => Value::Number(self.count(row, key)),
            Fact::Several(count, one, many) => Value::Several(count, one, many),
            Fact::Word(word) => Value::Text(word),
            Fact::Row(row) => return write_row(&mut self.out, &self.layout, row),
            Fact::At(row, key) => Value::Brief(self.layout.value(row, key)),
            Fact::Piece(span) => Value::Brief(self.layout.piece(span)),
            Fact::Line(row, key) => {
                let place = place_at(self.file.text, self.place(row, key));
                Value::Number(place.line as u64)
            }
            Fact::Place(row, key) => {
                let place = self.place(row, key);
                return self.out.at(self.file, place);
            }
            Fact::Here(span) => return self.out.at(self.file, span.from),
            Fact::If(_) => return,
        };
        self.out.put(value);
    }

    /// Goes on with a line, of which each `{}` is a hole for the next of these facts; without a word where it is not told.
    /// How many holes it has.
    fn say_line(&mut self, line: &str, facts: &[Fact], is_told: bool) -> usize {
        let mut holes = 0usize;
        for (number, piece) in line.split("{}").enumerate() {
            holes = number;
            if !is_told {
                continue;
            }
            if number != 0 {
                if let Some(fact) = facts.get(number.saturating_sub(1)) {
                    self.put(*fact);
                }
            }
            if !piece.is_empty() {
                self.out.add(piece);
            }
        }
        holes
    }

    /// Goes on in the explanation with a sentence, in which each `{}` is a hole for the next fact; behind a line feed it
    /// begins a line of its own, as `help: ..`. A line that begins with a hole for `If` is told where that says so.
    pub fn say(&mut self, sentence: &'static str, facts: &[Fact]) {
        let mut next = 0usize;
        for (number, line) in sentence.split("\n").enumerate() {
            let own = facts.get(next..).unwrap_or(&[]);
            let is_guarded = line.as_bytes().starts_with(b"{}");
            let is_told = !is_guarded || !matches!(own.first(), Some(Fact::If(false)));
            if number != 0 && is_told {
                self.out.end_line();
                self.out.add("   = ");
            }
            let holes = self.say_line(line, own, is_told);
            next = next.saturating_add(holes);
        }
    }

    /// Fills a hole: its first word says with what, the next one by which of these places or numbers, or by the table with
    /// the fault where it names none, and what stands behind is a key.
    fn fill_hole(&self, out: &mut Explanation, hole: &str, places: &[usize], numbers: &[u64]) {
        let (word, rest) = hole.split_once(' ').unwrap_or((hole, ""));
        let (which, key) = rest.split_once(' ').unwrap_or((rest, ""));
        let index = place_in(which);
        let place = places.get(index).copied().unwrap_or(self.row);
        let number = numbers.get(index).copied().unwrap_or(0);
        let (kind, one, many) = hole_of(word);
        let value = match kind {
            Hole::None => return,
            Hole::Number => Value::Number(number),
            Hole::Several => Value::Several(number, one, many),
            Hole::Count => Value::Number(self.count(place, key)),
            Hole::Row => return write_row(out, &self.layout, place),
            Hole::At => Value::Brief(self.layout.value(place, key)),
            Hole::Line => {
                let place = place_at(self.file.text, self.place(place, key));
                Value::Number(place.line as u64)
            }
            Hole::Place => return out.at(self.file, self.place(place, key)),
            Hole::Here => return out.at(self.file, place),
            Hole::Piece => {
                let to = places.get(index.saturating_add(1)).copied().unwrap_or(0);
                Value::Brief(self.layout.piece(Span { from: place, to }))
            }
        };
        out.put(value);
    }

    /// Goes on with a line, whose holes are filled by these places and numbers.
    fn fill_line(&self, out: &mut Explanation, line: &str, places: &[usize], numbers: &[u64]) {
        for piece in line.split('{') {
            let (hole, text) = piece.split_once('}').unwrap_or(("", piece));
            if !hole.is_empty() {
                self.fill_hole(out, hole, places, numbers);
            }
            if !text.is_empty() {
                out.add(text);
            }
        }
    }

    /// Goes on in an explanation, which need not be its own, with a sentence, whose holes name what fills them: `{row}` and
    /// `{at own label}` by the table with the fault, `{line 0 name}` by the table at that place of these, `{here 1}` by a
    /// byte of the text. Behind a line feed it begins a line of its own.
    pub fn fill(&self, out: &mut Explanation, sentence: &str, places: &[usize]) {
        self.fill_where(out, sentence, places, &[], &[]);
    }

    /// The same with numbers, as in `{ticks 0}`, and with lines that begin with a hole as `{if 0}`, and are told where the
    /// flag at that place says so.
    pub fn fill_where(
        &self,
        out: &mut Explanation,
        sentence: &str,
        places: &[usize],
        numbers: &[u64],
        flags: &[bool],
    ) {
        for (count, line) in sentence.split('\n').enumerate() {
            let is_guarded = line.starts_with("{if ");
            let guard = line.get(4..5).unwrap_or("");
            let flag = flags.get(place_in(guard)).copied().unwrap_or(true);
            if is_guarded && !flag {
                continue;
            }
            if count != 0 {
                out.end_line();
                out.add("   = ");
            }
            self.fill_line(out, line, places, numbers);
        }
    }
}
