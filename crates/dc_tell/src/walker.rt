//! How tables and keys are found along the tokens of a text.
use crate::kinds::{Kind, is_of_certificate, kind_at};
use crate::layout::{Form, Key, Layout, Row};
use crate::tokens::{Span, Token, tokens_of};
use std::alloc::Global;

/// A list or a table that is open, and what stands round it.
#[derive(Clone, Copy)]
struct Nest {
    is_table: bool,
    /// Of which kind the tables in the list are.
    of: Kind,
    /// Whether it is the list at a key, whose members are kept.
    is_list: bool,
    row: Option<usize>,
    key: usize,
}

/// Where the walker stands in a statement.
#[derive(Clone, Copy)]
enum State {
    /// A key is expected.
    Start,
    /// Behind this key.
    Named(Span),
    /// In the value of the key of this number.
    Value(usize),
    /// In what is left of a line.
    Rest,
}

/// What finds the tables of a text along its tokens.
#[derive(Drop)]
struct Walker<'a> {
    layout: Layout<'a>,
    nests: Vec<Nest>,
    row: Option<usize>,
    state: State,
    is_lost: bool,
}

impl<'a> Walker<'a> {
    /// The number of the last table of a kind among all, and how many there are of that kind.
    fn last_of(&self, kind: Kind) -> (Option<usize>, usize) {
        let (mut last, mut count) = (None, 0usize);
        for (number, row) in self.layout.rows.iter().enumerate() {
            if row.kind == kind {
                last = Some(number);
                count = count.saturating_add(1);
            }
        }
        (last, count)
    }

    /// Adds a table of a kind in a table, or what stands in its place; nothing where it is of no kind.
    fn add_row(
        &mut self,
        kind: Kind,
        parent: Option<usize>,
        at: Span,
        is_table: bool,
    ) -> Option<usize> {
        if matches!(kind, Kind::None) {
            return None;
        }
        let (_, index) = self.last_of(kind);
        let first = self.layout.keys.len();
        let number = self.layout.rows.len();
        let row = Row {
            kind,
            index,
            at,
            parent: parent.unwrap_or(0),
            instead: if is_table { None } else { Some(at) },
            first,
            last: first,
        };
        if self.layout.rows.push(row).is_err() {
            self.is_lost = true;
        }
        Some(number)
    }

    /// Adds a key of a table, whose value has not begun.
    fn add_key(&mut self, row: Option<usize>, name: Span, at: usize, form: Form) {
        let first = self.layout.members.len();
        let key = Key {
            row,
            name,
            value: Span { from: at, to: at },
            form,
            first,
            last: first,
        };
        if self.layout.keys.push(key).is_err() {
            self.is_lost = true;
        }
        let last = self.layout.keys.len();
        let Some(number) = row else {
            return;
        };
        if let Some(it) = self.layout.rows.get_mut(number) {
            it.last = last;
        }
    }

    /// The kind of the tables that a key of a table heads.
    fn headed(&self, parent: Option<usize>, name: Span) -> Kind {
        let Some(number) = parent else {
            return Kind::None;
        };
        match self.layout.rows.get(number) {
            None => Kind::None,
            Some(row) => kind_at(row.kind, self.layout.bare(name)),
        }
    }

    /// The table that a heading stands in, and the last key of its path.
    fn path(&self, path: Span) -> (Option<usize>, Span) {
        let text = self.layout.piece(path);
        for (dot, byte) in text.iter().enumerate() {
            if *byte == b'.' {
                let from = path.from.saturating_add(dot).saturating_add(1);
                let (row, _) = self.last_of(kind_at(Kind::Top, text.get(..dot).unwrap_or(b"")));
                return (row, Span { from, to: path.to });
            }
        }
        (Some(0), path)
    }

    /// Takes a heading: `path` is what stands between its brackets.
    fn head(&mut self, at: Span, path: Span, form: Form) {
        let (row, name) = self.path(path);
        self.add_key(row, name, path.to, form);
        let kind = self.headed(row, name);
        self.row = self.add_row(kind, row, at, true);
        self.state = State::Rest;
    }

    /// Of equal lists of JSON the last counts: what an earlier one held is of no kind.
    fn forget(&mut self, kind: Kind) {
        for row in self.layout.rows.as_mut_slice() {
            if row.kind == kind {
                row.kind = Kind::None;
            }
        }
    }

    /// Begins the value of a key.
    fn begin_value(&mut self, name: Span, at: usize) {
        self.state = State::Value(self.layout.keys.len());
        self.add_key(self.row, name, at, Form::Value);
        let kind = self.headed(self.row, name);
        if self.layout.is_json && !matches!(kind, Kind::None) {
            self.forget(kind);
        }
    }

    /// Lets the value of a key go on up to the end of a token; it begins with it where it has not begun.
    fn grow(&mut self, key: usize, token: Span) {
        if let Some(it) = self.layout.keys.get_mut(key) {
            if it.value.from == it.value.to {
                it.value.from = token.from;
            }
            it.value.to = token.to;
        }
    }

    /// Takes a member of the innermost list, and gives the number of the table that it is.
    fn take_member(&mut self, span: Span, is_table: bool) -> Option<usize> {
        let Some(nest) = self.nests.last().copied() else {
            return None;
        };
        if nest.is_table {
            return None;
        }
        if nest.is_list && matches!(nest.of, Kind::None) {
            if self.layout.members.push(span).is_err() {
                self.is_lost = true;
            }
            let last = self.layout.members.len();
            if let Some(key) = self.layout.keys.get_mut(nest.key) {
                key.last = last;
            }
        }
        self.add_row(nest.of, self.row, span, is_table)
    }

    /// Opens a list or a table in the value of a key.
    fn open(&mut self, is_table: bool, span: Span, key: usize) {
        self.grow(key, span);
        let is_inner = matches!(self.nests.last(), Some(nest) if !nest.is_table);
        let row = self.take_member(span, is_table);
        let mut of = Kind::None;
        if !is_table && !is_inner {
            if let Some(it) = self.layout.keys.get(key) {
                of = self.headed(it.row, it.name);
            }
        }
        let nest = Nest {
            is_table,
            of,
            is_list: !is_table && !is_inner,
            row: self.row,
            key,
        };
        if self.nests.push(nest).is_err() {
            self.is_lost = true;
        }
        if is_table {
            self.row = row;
            self.state = State::Start;
        }
    }

    /// Closes the innermost list or table.
    fn close(&mut self, span: Span) {
        let Some(nest) = self.nests.pop() else {
            self.state = State::Rest;
            return;
        };
        self.row = nest.row;
        self.grow(nest.key, span);
        self.state = State::Value(nest.key);
        let is_member = matches!(self.nests.last(), Some(outer) if !matches!(outer.of, Kind::None));
        if nest.is_table || !is_member {
            return;
        }
        if let Some(row) = self.layout.rows.last_mut() {
            row.instead = Some(Span {
                from: row.at.from,
                to: span.to,
            });
        }
    }

    /// Begins the object that a text of JSON is, or notes what it is in the place of one.
    fn begin_object(&mut self, is_table: bool, span: Span) {
        if is_table {
            self.open(true, span, usize::MAX);
            self.row = Some(0);
            return;
        }
        self.state = State::Rest;
        let to = self.layout.text.trim_ascii_end().len();
        if let Some(row) = self.layout.rows.first_mut() {
            row.instead = Some(Span {
                from: span.from,
                to,
            });
        }
    }

    /// Takes a token.
    fn step(&mut self, token: Token, span: Span) {
        let is_whole = self.layout.is_json && self.nests.is_empty() && self.layout.keys.is_empty();
        match (token, self.state) {
            (_, State::Start) if is_whole => self.begin_object(
                matches!(token, Token::OpenTable),
                span,
            ),
            (Token::Line, _) if self.nests.is_empty() => self.state = State::Start,
            (Token::Comma, _) if matches!(self.nests.last(), Some(nest) if nest.is_table) => {
                self.state = State::Start;
            }
            (Token::Close | Token::CloseTable, _) => self.close(span),
            (Token::Word | Token::Text, State::Start) => self.state = State::Named(span),
            (Token::Equals, State::Named(name)) => self.begin_value(name, span.to),
            (Token::Word | Token::Text, State::Value(key)) => {
                self.grow(key, span);
                let _ = self.take_member(span, false);
            }
            (Token::Open | Token::OpenTable, State::Value(key)) => {
                self.open(matches!(token, Token::OpenTable), span, key);
            }
            _ => {}
        }
    }

    /// Notes whether a text has an escape sequence.
    fn note_escapes(&mut self, token: Token, span: Span) {
        let piece = self.layout.piece(span);
        if matches!(token, Token::Text) && piece.starts_with(b"\"") && piece.contains(&b'\\') {
            self.layout.is_escaped = true;
        }
    }

    /// Takes the tokens of a text, and what heads its tables.
    fn walk(&mut self, tokens: &[(Token, Span)]) {
        for (number, (token, span)) in tokens.iter().enumerate() {
            self.note_escapes(*token, *span);
            let begins = matches!(*token, Token::Open)
                && !self.layout.is_json
                && self.nests.is_empty()
                && matches!(self.state, State::Start);
            match heading(tokens, number) {
                Some((path, form)) if begins => self.head(*span, path, form),
                _ => self.step(*token, *span),
            }
        }
    }
}

/// The path of the heading that begins with this token, where one does: `[[path]]` or `[path]`.
fn heading(tokens: &[(Token, Span)], number: usize) -> Option<(Span, Form)> {
    match tokens.get(number.saturating_add(1)) {
        None => None,
        Some((Token::Open, _)) => match tokens.get(number.saturating_add(2)) {
            None => None,
            Some((_, path)) => Some((*path, Form::Heads)),
        },
        Some((_, path)) => Some((*path, Form::Head)),
    }
}

/// A walker at the beginning of a text.
fn begin<'a>(alloc: Global, text: &'a [u8], is_json: bool) -> Walker<'a> {
    let layout = Layout {
        text,
        is_json,
        rows: Vec::new(alloc),
        keys: Vec::new(alloc),
        members: Vec::new(alloc),
        is_escaped: false,
    };
    Walker {
        layout,
        nests: Vec::new(alloc),
        row: Some(0),
        state: State::Start,
        is_lost: false,
    }
}

/// Where the tables and the keys of a text stand whose top is of a kind; nothing where memory was refused.
pub fn layout_below<'a>(alloc: Global, text: &'a [u8], top: Kind) -> Option<Layout<'a>> {
    let is_json = is_of_certificate(top);
    let Some(tokens) = tokens_of(alloc, text, is_json) else {
        return None;
    };
    let mut walker = begin(alloc, text, is_json);
    let _ = walker.add_row(top, None, Span { from: 0, to: 0 }, true);
    walker.walk(tokens.as_slice());
    let Walker {
        layout,
        is_lost,
        ..
    } = walker;
    if is_lost { None } else { Some(layout) }
}

/// Where the tables and the keys of a certificate or of tables stand; nothing where memory was refused.
pub fn layout_of<'a>(alloc: Global, text: &'a [u8], is_json: bool) -> Option<Layout<'a>> {
    let top = if is_json {
        Kind::Certificate
    } else {
        Kind::Top
    };
    layout_below(alloc, text, top)
}
