//! Names and parameters that no table has.
use crate::related::{agree, alike, lister, member, parameter_of};
use dc_explain_text::Refused;
use dc_tell::{Explanation, Kind, Names, Span, Value, called, unquoted};

/// How many other tables with the same fault are named.
const NAMED: usize = 4;

/// The first parameter that no stream and no label names.
fn unnamed_parameter(refused: &Refused<'_>) -> Option<usize> {
    for (row, it) in refused.layout.rows.iter().enumerate() {
        if matches!(it.kind, Kind::Parameter)
            && alike(refused, Kind::Stream, row, "label", "equipment").is_none()
            && alike(refused, Kind::Label, row, "label", "equipment").is_none()
        {
            return Some(row);
        }
    }
    None
}

/// Writes by a sentence which streams and labels, but the one with the fault, have no parameter.
pub(crate) fn tell_orphans(out: &mut Explanation, refused: &Refused<'_>, sentence: &str) {
    let mut count = 0usize;
    for row in 0..refused.layout.rows.len() {
        if !matches!(refused.kind(row), Kind::Stream | Kind::Label) {
            continue;
        }
        if row == refused.row || parameter_of(refused, row).is_some() {
            continue;
        }
        count = count.saturating_add(1);
        if count <= NAMED {
            refused.fill(out, sentence, &[row]);
        }
    }
    if count > NAMED {
        refused.fill_where(
            out,
            "\nnote: {number 0} streams and labels in all have none",
            &[],
            &[count as u64],
            &[],
        );
    }
}

/// Tells of a parameter that is not there.
pub(crate) fn tell_no_parameter(out: &mut Explanation, refused: &Refused<'_>) -> bool {
    let row = refused.row;
    let own = alike(refused, Kind::Parameter, row, "label", "");
    let other = own.unwrap_or(row);
    let unnamed = unnamed_parameter(refused).unwrap_or(other);
    let key = if own.is_some() { "equipment" } else { "label" };
    let at = refused.place(row, key);
    refused.fill_where(
        out,
        "{row} has label {at own label} and equipment code {at own equipment}, and there is no such parameter{here 2}\n{if 0}help: this label has a parameter of equipment code \"{at 0 equipment}\", in line {line 0 equipment}: write that code here, if it is meant\n{if 1}help: no parameter has this label: write another here, if another is meant, or this one in the parameter that is meant for it\n{if 2}note: {row 1} in line {line 1 label} is named by no stream and no label: it may be the one that is meant\nhelp: or add a parameter, as `[[parameter]]` or as one more row of `parameter = [..]` where that is how they stand, with `label = \"{at own label}\"`, `equipment = \"{at own equipment}\"`, a `format` of \"bnr\", \"bcd\" or \"disc\", and `min_us` and `max_us`: the least and the greatest time between two of its words, in microseconds (1 to 60000000)",
        &[other, unnamed, at],
        &[],
        &[own.is_some(), own.is_none(), unnamed != other],
    );
    tell_orphans(
        out,
        refused,
        "\nnote: {row 0} in line {line 0 label} has none either, with label {at 0 label} and equipment code {at 0 equipment}",
    );
    true
}

/// Whether a table may stand in the list at a key in the place of one that is not there: it does not stand there already,
/// and is a bus that no router visits, or a stream of the label and the format of that with the fault. No rule asks for
/// the label; but by a stream of another one another signal would be sent.
fn may_stand(refused: &Refused<'_>, key: &str, row: usize) -> bool {
    let name = refused.layout.value(row, "name");
    if member(refused, refused.row, key, name).is_some() {
        return false;
    }
    if matches!(refused.kind(row), Kind::Bus) {
        return lister(refused, Kind::Router, "visits", 0, name).is_none();
    }
    if !agree(refused, refused.row, row, "label") {
        return false;
    }
    let own = parameter_of(refused, refused.row).unwrap_or(0);
    let other = parameter_of(refused, row).unwrap_or(0);
    agree(refused, own, other, "format")
}

/// The names of the tables of a kind that may stand in the list at a key in the place of one that is not there.
fn candidates<'a>(refused: &Refused<'a>, key: &str, kind: Kind) -> Names<'a> {
    let mut names = Names::new(refused.alloc);
    for (row, it) in refused.layout.rows.iter().enumerate() {
        if it.kind == kind && may_stand(refused, key, row) {
            names.add(str::from_utf8(refused.layout.value(row, "name")).unwrap_or(""));
        }
    }
    names
}

/// The kinds of tables that have names.
static NAMED_KINDS: [Kind; 5] = [
    Kind::Bus,
    Kind::Stream,
    Kind::Router,
    Kind::Output,
    Kind::Label,
];

/// What a table is, with its article, that has this name, of whatever kind; empty where none has.
fn other_kind(refused: &Refused<'_>, name: Span) -> &'static str {
    for kind in &NAMED_KINDS {
        if refused.named(*kind, refused.layout.piece(name)).is_some() {
            let (_, article) = called(*kind);
            return article;
        }
    }
    ""
}

/// The name that may be meant by one that no table has: the only one that may stand in its place, or one that is like it,
/// with another that is as much like it.
fn meant<'a>(
    out: &mut Explanation,
    refused: &Refused<'a>,
    names: &[&'a str],
    name: Span,
) -> Option<(&'a str, &'a str)> {
    if let [only] = names {
        return Some((*only, ""));
    }
    let text = str::from_utf8(refused.layout.piece(name)).unwrap_or("");
    out.nearest(text, names)
}

/// Writes that the table of this name may be meant. It may be renamed where no other list has its name.
fn tell_meant(out: &mut Explanation, refused: &Refused<'_>, kind: Kind, name: &str) {
    let Some(row) = refused.named(kind, name.as_bytes()) else {
        return;
    };
    let is_used = lister(refused, Kind::Label, "sources", 0, name.as_bytes()).is_some();
    let is_own = agree(refused, refused.row, row, "equipment");
    let is_stream = matches!(kind, Kind::Stream);
    refused.fill_where(
        out,
        "\n{if 0}help: there is {row 0} that no router visits, in line {line 0 name}: write its name here, if it is meant, or rename it there\n{if 1}help: there is {row 0} that is not in this list, in line {line 0 name}: write its name here, if it is meant\n{if 2}help: there is {row 0} that is not in this list, in line {line 0 name}: write its name here, if it is meant, or rename it there\n{if 3}note: its equipment code is {at 0 equipment}, and that of {row} is {at own equipment}: by another code a label may have another meaning",
        &[row],
        &[],
        &[
            !is_stream,
            is_stream && is_used,
            is_stream && !is_used,
            is_stream && !is_own,
        ],
    );
}

/// Writes that no table may stand in the place of one that is not there.
fn tell_none(out: &mut Explanation, refused: &Refused<'_>, kind: Kind) {
    let own = parameter_of(refused, refused.row).unwrap_or(0);
    let is_bus = matches!(kind, Kind::Bus);
    refused.fill_where(
        out,
        "\n{if 0}help: there is no bus that no router visits: take the name out\n{if 1}help: there is no other stream of label {at own label} and format {at 0 format}, as this label wants them: take the name out",
        &[own],
        &[],
        &[is_bus, !is_bus],
    );
}

/// Writes which of these names of tables of a kind may stand in the place of one that no table has.
fn tell_among<'a>(
    out: &mut Explanation,
    refused: &Refused<'a>,
    kind: Kind,
    names: &[&'a str],
    name: Span,
) {
    if names.is_empty() {
        return tell_none(out, refused, kind);
    }
    if let Some((like, other)) = meant(out, refused, names, name) {
        tell_meant(out, refused, kind, like);
        return tell_meant(out, refused, kind, other);
    }
    let sentence = if matches!(kind, Kind::Bus) {
        "\nhelp: write one of these, each a bus that no router visits: "
    } else {
        "\nhelp: write one of these, each a stream that is not in this list: "
    };
    refused.fill(out, sentence, &[]);
    out.put(Value::Names(names));
}

/// Writes which name may stand in the place of one that no table has.
fn tell_names(
    out: &mut Explanation,
    refused: &Refused<'_>,
    key: &'static str,
    kind: Kind,
    name: Span,
) {
    let names = candidates(refused, key, kind);
    if names.is_lost() {
        out.lose();
    }
    tell_among(out, refused, kind, names.as_slice(), name);
}

/// The first member of the list at a key of a table that no table of a kind has for its name.
pub(crate) fn nameless(refused: &Refused<'_>, row: usize, key: &str, kind: Kind) -> Option<Span> {
    for member in refused.layout.members(row, key) {
        if refused.named(kind, refused.layout.bare(*member)).is_none() {
            return Some(*member);
        }
    }
    None
}

/// Tells of a member of `visits` or `sources` that no table has for its name.
pub(crate) fn tell_no_name(out: &mut Explanation, refused: &Refused<'_>) -> bool {
    let is_router = matches!(refused.kind(refused.row), Kind::Router);
    let (key, kind, sentence, addition) = if is_router {
        (
            "visits",
            Kind::Bus,
            "`visits` of {row} has `{piece 0}`, and there is no bus of this name{here 2}",
            "\nhelp: or add the bus that is meant, with `name = \"{piece 0}\"`",
        )
    } else {
        (
            "sources",
            Kind::Stream,
            "`sources` of {row} has `{piece 0}`, and there is no stream of this name{here 2}",
            "\nhelp: or add the stream that is meant, with `name = \"{piece 0}\"`",
        )
    };
    let Some(member) = nameless(refused, refused.row, key, kind) else {
        return false;
    };
    let name = unquoted(member, refused.layout.text);
    let other = other_kind(refused, name);
    refused.fill(out, sentence, &[name.from, name.to, member.from]);
    if !other.is_empty() {
        refused.fill(
            out,
            "\nnote: `{piece 0}` is the name of ",
            &[name.from, name.to],
        );
        out.add(other);
    }
    tell_names(out, refused, key, kind, name);
    refused.fill(out, addition, &[name.from, name.to]);
    true
}
