//! Lines of `observe` that a report can't read.
use crate::lines::Line;
use crate::plain::tell_meaning;
use crate::words::tell_unseen;
use dc_codes::Kind;
use dc_document::Name;
use dc_tables::Tables;
use dc_tell::Explanation;
use dc_tell::Value::Text;

/// How many bytes a line has at most.
const LONGEST: usize = 256;

/// What a line is of: the word that it begins with, and the name behind that.
#[derive(Clone, Copy)]
struct Wanted {
    kind: &'static str,
    name: Name,
}

/// What the line of this number, from 0, is of by the tables; none behind the last.
fn wanted_at(tables: &Tables, number: usize) -> Option<Wanted> {
    if number < tables.bus_count() {
        return Some(Wanted {
            kind: "input",
            name: *tables.bus_name(number),
        });
    }
    let output = number.saturating_sub(tables.bus_count());
    if output < tables.output_count() {
        return Some(Wanted {
            kind: "output",
            name: *tables.output_name(output),
        });
    }
    let label = output.saturating_sub(tables.output_count());
    if label < tables.label_count() {
        return Some(Wanted {
            kind: "label",
            name: *tables.label_name(label),
        });
    }
    None
}

/// Tells of which row a line is to be.
fn tell_wanted(out: &mut Explanation, line: &Line<'_>, tables: &Tables) {
    match wanted_at(tables, line.number.saturating_sub(1) as usize) {
        Some(wanted) => out.help(
            "by the tables this line begins with `{} {}`",
            &[Text(wanted.kind), Text(wanted.name.as_str())],
        ),
        None => out.help("by the tables no line stands here", &[]),
    }
}

/// Tells why a line is none that `observe` wrote for these tables, by the code of its fault: by what that means, but where
/// something in it is not seen; and where it is not the next one, which that is.
pub(crate) fn tell_observed(out: &mut Explanation, code: &str, line: &Line<'_>, tables: &Tables) {
    let at = match code {
        "E1" => LONGEST,
        "E6" => line.bytes.len(),
        _ => 0usize,
    };
    if at == 0 && tell_unseen(out, line) {
        return;
    }
    tell_meaning(out, Kind::Observed, code, line, at);
    if code == "E4" {
        tell_wanted(out, line, tables);
    }
}
