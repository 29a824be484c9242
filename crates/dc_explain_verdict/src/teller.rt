//! What is explained, and how the sentences about it are filled. What is told stands apart from what it is told of, which has
//! references: a derivation of a function that changes a struct with references is half as large again.
use crate::holes::{Hole, hole_of, place_in};
use crate::names::{kinds_of, name_of, offset_of};
use crate::servers::Server;
use dc_cert::Certificate;
use dc_check::Condition;
use dc_document::Section;
use dc_tables::Tables;
use dc_tell::{Explanation, File, Value};
use std::alloc::Global;

/// Of what is told.
#[derive(Clone, Copy)]
pub(crate) struct About<'a> {
    /// Where memory comes from.
    pub(crate) alloc: Global,
    /// The tables.
    pub(crate) tables: &'a Tables,
    /// The certificate, or what was found of one.
    pub(crate) certificate: &'a Certificate,
    /// The text of the tables.
    pub(crate) file: File<'a>,
    /// The text of the certificate, or of the tables where there is none.
    pub(crate) claims: File<'a>,
}

/// What a line begins with that does not keep the design, by its kind.
static ASKED: [(&'static str, &'static str); 2] = [
    ("asked", "ask more of a source: "),
    ("weaker", "weaken a promise: "),
];

/// Begins a line of a sentence by what stands before its colon. A `note` is to be known. What helps is a `help`, and
/// instead of those before it: it keeps the design, where it is not `asked` of what sends on the buses, or makes a promise
/// `weaker`.
fn begin_line(out: &mut Explanation, kind: &str) {
    if kind == "note" {
        return out.note("", &[]);
    }
    let lead = if out.is_helped() { "or " } else { "" };
    out.help(lead, &[]);
    for (own, words) in &ASKED {
        if *own == kind {
            out.add(words);
        }
    }
}

/// Shows where a file has what is told, where that is found.
fn tell_offset(out: &mut Explanation, file: File<'_>, offset: Option<usize>) {
    match offset {
        Some(offset) => out.at(file, offset),
        None => out.name_file(file.name),
    }
}

impl About<'_> {
    /// Shows where it is mended, at a key of the tables or of the certificate, and of that at which table.
    pub(crate) fn tell_place(
        &self,
        out: &mut Explanation,
        is_claimed: bool,
        section: Section,
        number: usize,
        key: &str,
    ) {
        let (kind, claim) = kinds_of(section);
        let own_key = if is_claimed { "" } else { key };
        let table = offset_of(self.alloc, self.file.text, kind, number, own_key);
        if !is_claimed {
            return tell_offset(out, self.file, table);
        }
        let claimed = offset_of(self.alloc, self.claims.text, claim, number, key);
        tell_offset(out, self.claims, claimed);
        if let Some(offset) = table {
            out.beside(self.file, offset);
        }
    }

    /// Shows the same of a queue.
    pub(crate) fn tell_own(
        &self,
        out: &mut Explanation,
        server: &Server,
        is_claimed: bool,
        key: &str,
    ) {
        let (section, _) = server.sections();
        self.tell_place(out, is_claimed, section, server.number, key);
    }

    /// Fills a hole: its first word says with what of a queue, its last letter by which of these numbers.
    fn put(&self, out: &mut Explanation, server: &Server, hole: &str, numbers: &[u64]) {
        let place = place_in(hole);
        let number = numbers.get(place).copied().unwrap_or(0);
        let next = numbers.get(place.saturating_add(1)).copied().unwrap_or(0);
        let (word, _) = hole.split_once(' ').unwrap_or((hole, ""));
        let (kind, one, many) = hole_of(word);
        let (queue, by) = server.sections();
        let value = match kind {
            Hole::Number => Value::Number(number),
            Hole::Range => Value::Range(number, next),
            Hole::Several => Value::Several(number, one, many),
            Hole::Ticks => Value::Ticks(number, self.tables.tick_us() as u64),
            Hole::Span if number == next => Value::Several(number, "tick", "ticks"),
            Hole::Span => {
                out.put(Value::Range(number, next));
                return out.add(" ticks");
            }
            Hole::Only if number == 0 => return out.add("none has"),
            Hole::Only => {
                out.add("only ");
                Value::Several(number, one, many)
            }
            Hole::Stream => Value::Text(name_of(self.tables, Section::Stream, number as usize)),
            Hole::Label => Value::Text(name_of(self.tables, Section::Label, number as usize)),
            Hole::Name => Value::Text(name_of(self.tables, queue, server.number)),
            Hole::Server => Value::Text(name_of(self.tables, by, server.by)),
            Hole::Other => Value::Text(name_of(self.tables, by, number as usize)),
            Hole::Words => return out.add(if server.is_bus { one } else { many }),
        };
        out.put(value);
    }

    /// Goes on with a line, whose holes are filled by a queue and these numbers.
    fn say_line(&self, out: &mut Explanation, server: &Server, line: &str, numbers: &[u64]) {
        for piece in line.split('{') {
            let (hole, text) = piece.split_once('}').unwrap_or(("", piece));
            if !hole.is_empty() {
                self.put(out, server, hole, numbers);
            }
            if !text.is_empty() {
                out.add(text);
            }
        }
    }

    /// Goes on with a sentence, in which a hole as `{ticks 0}` is filled by the number at its place, and one as `{name}` by
    /// a queue. Each line behind the first begins with what it is for.
    pub(crate) fn say(
        &self,
        out: &mut Explanation,
        server: &Server,
        sentence: &str,
        numbers: &[u64],
    ) {
        self.say_where(out, server, sentence, numbers, &[]);
    }

    /// The same, where a line that begins with a hole as `{if 0}` is told only where the flag at that place says so.
    pub(crate) fn say_where(
        &self,
        out: &mut Explanation,
        server: &Server,
        sentence: &str,
        numbers: &[u64],
        flags: &[bool],
    ) {
        for (count, line) in sentence.split('\n').enumerate() {
            if count == 0 {
                self.say_line(out, server, line, numbers);
                continue;
            }
            let (head, rest) = line.split_once(": ").unwrap_or(("", line));
            let (guard, kind) = head.split_once('}').unwrap_or(("", head));
            let is_told = flags.get(place_in(guard)).copied().unwrap_or(true);
            if is_told {
                begin_line(out, kind);
                self.say_line(out, server, rest, numbers);
            }
        }
    }

    /// Begins the explanation of a label. Where no certificate is found, it says which condition on it fails.
    pub(crate) fn begin_label(
        &self,
        out: &mut Explanation,
        code: &str,
        condition: Condition,
        number: usize,
    ) {
        let rule = condition.code();
        let name = name_of(self.tables, Section::Label, number);
        let sentence = if code == rule {
            "label `{}`: "
        } else {
            "label `{}` ({}): "
        };
        out.begin(code);
        out.say(sentence, &[Value::Text(name), Value::Text(rule)]);
    }
}

/// Tells by a note for how much the ways are enough that were told, where some were.
pub(crate) fn tell_alone(out: &mut Explanation, note: &str) {
    if out.is_helped() {
        out.note(note, &[]);
    }
}
