//! Lines that are no event of a trace.
use crate::lines::Line;
use crate::ran::Ran;
use crate::words::{tell_no_word, tell_shape};
use dc_tables::Tables;
use dc_tell::Value::{Bytes, Number, Several, Text};
use dc_tell::{Explanation, Names, Value};
use std::alloc::Global;

/// How many bytes a trace may have.
const USUAL_TRACE: u64 = 1_073_741_824;

/// The same where it may be long.
const LONG_TRACE: u64 = 1_099_511_627_776;

/// The field of this number, from 0, and behind how many bytes of the line it begins.
pub(crate) fn field(line: &[u8], number: usize) -> (&[u8], usize) {
    let mut index = 0usize;
    let mut from = 0usize;
    for (at, byte) in line.iter().enumerate() {
        if *byte != b' ' {
            continue;
        }
        if index == number {
            return (line.get(from..at).unwrap_or(b""), from);
        }
        index = index.saturating_add(1);
        from = at.saturating_add(1);
    }
    if index == number {
        (line.get(from..).unwrap_or(b""), from)
    } else {
        (b"", 0)
    }
}

/// How many fields a line has.
fn fields_in(line: &[u8]) -> u64 {
    let mut count = 1u64;
    for byte in line {
        if *byte == b' ' {
            count = count.saturating_add(1);
        }
    }
    count
}

/// Tells that a line begins with no kind of event.
fn tell_kind(out: &mut Explanation, line: &Line<'_>) {
    let (kind, _) = field(line.bytes, 0);
    let sentence = if line.bytes.is_empty() {
        "the line is empty\na line is `A <bus> <word>`, `R <router>`, `S <output>` or `T`, in upper case"
    } else if kind.starts_with(b"#") {
        "a trace has no comments\na line is `A <bus> <word>`, `R <router>`, `S <output>` or `T`, in upper case"
    } else {
        "`{}` is no kind of event\na line is `A <bus> <word>`, `R <router>`, `S <output>` or `T`, in upper case"
    };
    line.tell(out, 0, sentence, &[Bytes(kind)]);
}

/// The kinds of events: how a line of one is written, what it is called, and what it names. The last is that of all others.
static EVENTS: [(&'static [u8], &'static str, &'static str, &'static str); 4] = [
    (b"A", "A <bus> <word>", "a word that comes", "bus"),
    (b"R", "R <router>", "a step of a router", "router"),
    (b"S", "S <output>", "a send of an output", "output"),
    (b"", "T", "the end of a tick", "output"),
];

/// How a line of a kind is written, what it is called, and what it names.
fn event_of(kind: &[u8]) -> (&'static str, &'static str, &'static str) {
    for (own, form, what, named) in &EVENTS {
        if own.is_empty() || *own == kind {
            return (form, what, named);
        }
    }
    ("", "", "")
}

/// Tells that a line has more or fewer fields than its kind.
fn tell_fields(out: &mut Explanation, line: &Line<'_>) {
    let (kind, _) = field(line.bytes, 0);
    let (form, what, _) = event_of(kind);
    line.tell(
        out,
        0,
        "{} is written `{}`, and this line has {}\nfields are parted by one blank each, and nothing stands behind the last",
        &[
            Text(what),
            Text(form),
            Several(fields_in(line.bytes), "field", "fields"),
        ],
    );
}

/// The names that a kind of line may have.
fn names_for<'t>(alloc: Global, tables: &'t Tables, named: &str) -> Names<'t> {
    let mut names = Names::new(alloc);
    let (is_bus, is_router) = (named == "bus", named == "router");
    for bus in 0..tables.bus_count() {
        if is_bus {
            names.add(tables.bus_name(bus).as_str());
        }
    }
    for router in 0..tables.router_count() {
        if is_router {
            names.add(tables.router_name(router).as_str());
        }
    }
    for output in 0..tables.output_count() {
        if !is_bus && !is_router {
            names.add(tables.output_name(output).as_str());
        }
    }
    names
}

/// Tells that a line names what is not in the tables, and which name was meant, or which there are.
fn tell_name(out: &mut Explanation, ran: &Ran<'_>, line: &Line<'_>, tables: &Tables) {
    let (kind, _) = field(line.bytes, 0);
    let (name, at) = field(line.bytes, 1);
    let (_, _, named) = event_of(kind);
    let names = names_for(ran.alloc, tables, named);
    if names.is_lost() {
        return out.lose();
    }
    line.tell(
        out,
        at,
        "in tick {}: the tables have no {} `{}`",
        &[Number(line.tick), Text(named), Bytes(name)],
    );
    let text = str::from_utf8(name).unwrap_or("");
    let Some((like, other)) = out.nearest(text, names.as_slice()) else {
        let all = [Value::Names(names.as_slice())];
        return out.help("of this kind there are: {}", &all);
    };
    for meant in [like, other] {
        if !meant.is_empty() {
            out.help("there is a {} `{}`", &[Text(named), Text(meant)]);
        }
    }
}

/// Tells that a trace is too long.
fn tell_too_long(out: &mut Explanation, ran: &Ran<'_>, line: &Line<'_>) {
    let is_long = ran.task.is_long;
    let (sentence, most) = if line.number > ran.task.most_events && !is_long {
        (
            "an audit reads {} events at most, and here is one more\nhand in a shorter trace",
            ran.task.most_events,
        )
    } else {
        (
            "the trace has more than {} bytes\nhand in a shorter trace",
            if is_long { LONG_TRACE } else { USUAL_TRACE },
        )
    };
    line.tell(out, 0, sentence, &[Number(most)]);
    if !is_long {
        out.help("or let it be long, with `--long`", &[]);
    }
}

/// Tells why a line of a trace is no event of these tables, by the code of its fault.
pub(crate) fn tell_event(
    out: &mut Explanation,
    ran: &Ran<'_>,
    code: &str,
    line: &Line<'_>,
    tables: &Tables,
) {
    if code == "E1" && line.bytes.len() <= 64 {
        return tell_too_long(out, ran, line);
    }
    if tell_shape(out, code, line, "event") {
        return;
    }
    match code {
        "E2" => tell_kind(out, line),
        "E3" => tell_fields(out, line),
        "E4" => tell_name(out, ran, line, tables),
        _ => {
            let (_, at) = field(line.bytes, 2);
            tell_no_word(out, line, at)
        }
    }
}
