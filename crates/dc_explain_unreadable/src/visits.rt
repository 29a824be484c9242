//! Which routers visit a bus, and which formats sources have.
use crate::related::{agree, lister, parameter_of};
use dc_explain_text::Refused;
use dc_tell::{Explanation, Kind, Span, Value};

/// Tells of a bus that two routers visit.
fn tell_both(out: &mut Explanation, refused: &Refused<'_>, one: usize, other: usize) {
    refused.fill(
        out,
        "{row} is visited by two routers{place own name}\nnote: {row 0} visits it in line {line 0 visits}\nnote: {row 1} visits it in line {line 1 visits}\nhelp: a bus has one router: leave \"{at own name}\" in the `visits` of one of them (there as often as you like), and take it out of the others",
        &[one, other],
    );
}

/// Writes which other buses no router visits.
fn tell_unvisited_too(out: &mut Explanation, refused: &Refused<'_>) {
    for row in 0..refused.layout.rows.len() {
        if row == refused.row || !matches!(refused.kind(row), Kind::Bus) {
            continue;
        }
        let name = refused.layout.value(row, "name");
        if lister(refused, Kind::Router, "visits", 0, name).is_none() {
            refused.fill(
                out,
                "\nnote: {row 0} in line {line 0 name} is visited by no router either",
                &[row],
            );
        }
    }
}

/// Tells of a bus that no router visits.
fn tell_unvisited(out: &mut Explanation, refused: &Refused<'_>) {
    let router = refused.layout.row(Kind::Router, 0).unwrap_or(0);
    let count = refused.tables_of(Kind::Router);
    refused.fill_where(
        out,
        "{row} is visited by no router: no router takes the words from its queue{place own name}\n{if 0}help: there is no router: add a `[[router]]` with \"{at own name}\" in its `visits`\n{if 1}help: add \"{at own name}\" to the `visits` of {row 0}, in line {line 0 visits}\n{if 2}help: add \"{at own name}\" to the `visits` of one of these routers, best of one whose other buses bring words as often: ",
        &[router],
        &[],
        &[count == 0, count == 1, count > 1],
    );
    if count > 1 {
        let names = refused.layout.names(refused.alloc, Kind::Router);
        if names.is_lost() {
            out.lose();
        }
        out.put(Value::Names(names.as_slice()));
    }
    refused.fill(
        out,
        "\nhelp: or take the bus out; this weakens what is promised: its words are not received then",
        &[],
    );
    tell_unvisited_too(out, refused);
}

/// Tells of a bus that is in the visits of no router, or of two.
pub(crate) fn tell_visits(out: &mut Explanation, refused: &Refused<'_>) -> bool {
    let name = refused.layout.value(refused.row, "name");
    match lister(refused, Kind::Router, "visits", 0, name) {
        None => tell_unvisited(out, refused),
        Some(one) => {
            let next = one.saturating_add(1);
            let other = lister(refused, Kind::Router, "visits", next, name);
            tell_both(out, refused, one, other.unwrap_or(one));
        }
    }
    true
}

/// The first source of the label with the fault whose format is not that of this parameter, with its stream and its own
/// parameter.
fn other_format(refused: &Refused<'_>, own: usize) -> Option<(Span, usize, usize)> {
    for member in refused.layout.members(refused.row, "sources") {
        let Some(stream) = refused.named(Kind::Stream, refused.layout.bare(*member)) else {
            continue;
        };
        let Some(parameter) = parameter_of(refused, stream) else {
            continue;
        };
        if !agree(refused, own, parameter, "format") {
            return Some((*member, stream, parameter));
        }
    }
    None
}

/// Tells of a label whose format is not that of a source.
pub(crate) fn tell_formats(out: &mut Explanation, refused: &Refused<'_>) -> bool {
    let Some(own) = parameter_of(refused, refused.row) else {
        return false;
    };
    let Some((source, stream, parameter)) = other_format(refused, own) else {
        return false;
    };
    refused.fill(
        out,
        "{row} has format {at 0 format} by {row 0}, and its source {row 1} has format {at 2 format} by {row 2}{here 3}\nhelp: the data of a word are copied as they are, so a label and its sources have one format: mend the `format` in line {line 0 format} or in line {line 2 format}, whichever is wrong\nhelp: or take this source out; this weakens what is promised: the label is not sent from it then",
        &[own, stream, parameter, source.from],
    );
    true
}
