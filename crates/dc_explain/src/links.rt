//! Links that do not fit what they join: N14 to N19.
use crate::ends::{concentrator_at, end_of};
use crate::fits::{tables_at, tell_numbers};
use crate::output::{index_in, word};
use crate::ran::Ran;
use dc_codes::{Kind as Sort, Meaning, meaning_of};
use dc_explain_text::Refused;
use dc_explain_unreadable::refused_of;
use dc_tell::Value::{Names, Text};
use dc_tell::{Explanation, Kind};

/// What is told of a link, by the code of its fault, before the name of a stream and behind it: by the places of the names of
/// its output, of the concentrator of that, of its bus and of the concentrator of that, and by how much its latency varies.
static TEXTS: [(&'static str, &'static str, &'static str); 6] = [
    (
        "N14",
        "{row}: there is no output `{piece 0}` of concentrator `{piece 2}`, ",
        "or no bus `{piece 4}` of concentrator `{piece 6}`{place own }",
    ),
    (
        "N15",
        "{row}: output `{piece 0}` of concentrator `{piece 2}` has another speed ",
        "than bus `{piece 4}` of concentrator `{piece 6}`, which it feeds{place own }",
    ),
    (
        "N16",
        "{row}: two labels of output `{piece 0}` of concentrator `{piece 2}` feed stream `",
        "` of bus `{piece 4}` of concentrator `{piece 6}`{place own }",
    ),
    (
        "N17",
        "{row}: the label of output `{piece 0}` of concentrator `{piece 2}` that feeds stream `",
        "` of bus `{piece 4}` of concentrator `{piece 6}` has another format than the stream{place own }",
    ),
    (
        "N18",
        "{row}: output `{piece 0}` of concentrator `{piece 2}` may bring words sooner than stream `",
        "` of bus `{piece 4}` of concentrator `{piece 6}` lets them come{place own }\nnote: of this link `most_us` - `least_us` is {number 0} microseconds\nnote: ",
    ),
    (
        "N19",
        "{row}: output `{piece 0}` of concentrator `{piece 2}` may bring words later than stream `",
        "` of bus `{piece 4}` of concentrator `{piece 6}` lets them come{place own }\nnote: of this link `most_us` - `least_us` is {number 0} microseconds\nnote: ",
    ),
];

/// What is told of a link, by the code of its fault.
fn texts_of(code: &str) -> (&'static str, &'static str) {
    for (own, before, behind) in &TEXTS {
        if *own == code {
            return (before, behind);
        }
    }
    ("", "")
}

/// Writes where the tables of a concentrator stand.
fn tell_tables(out: &mut Explanation, refused: &Refused<'_>, key: &str) {
    if let Some(own) = concentrator_at(refused, refused.row, key) {
        refused.fill(
            out,
            "\nnote: the tables of {row 0} are {at 0 tables}",
            &[own],
        );
    }
}

/// Tells which link does not fit, and why; what its code means where its times do not.
fn tell_ends(out: &mut Explanation, refused: &Refused<'_>, code: &str, stream: &str, means: &str) {
    let row = refused.row;
    let (before, behind) = texts_of(code);
    let (sender, output) = end_of(refused, row, "from");
    let (receiver, bus) = end_of(refused, row, "to");
    let most = refused.count(row, "most_us");
    let varies = most.saturating_sub(refused.count(row, "least_us"));
    let places = [
        output.from,
        output.to,
        sender.from,
        sender.to,
        bus.from,
        bus.to,
        receiver.from,
        receiver.to,
    ];
    refused.fill(out, before, &places);
    out.put(Text(stream));
    refused.fill_where(out, behind, &places, &[varies], &[]);
    if !means.is_empty() {
        out.add(means);
    }
    tell_tables(out, refused, "from");
    tell_tables(out, refused, "to");
}

/// Writes which names the tables at an end of a link have, where they do not have the one that it names.
fn tell_names(
    out: &mut Explanation,
    refused: &Refused<'_>,
    tables: &Refused<'_>,
    key: &str,
    kind: Kind,
) {
    let (owner, name) = end_of(refused, refused.row, key);
    let piece = refused.layout.piece(name);
    if tables.layout.is_escaped || tables.named(kind, piece).is_some() {
        return;
    }
    let names = tables.layout.names(refused.alloc, kind);
    if names.is_lost() {
        return out.lose();
    }
    let sentence = if kind == Kind::Bus {
        "\nnote: concentrator `{piece 0}` has no bus `{piece 2}`; its buses are "
    } else {
        "\nnote: concentrator `{piece 0}` has no output `{piece 2}`; its outputs are "
    };
    refused.fill(out, sentence, &[owner.from, owner.to, name.from, name.to]);
    out.put(Names(names.as_slice()));
    let text = str::from_utf8(piece).unwrap_or("");
    if let Some((like, _)) = out.nearest(text, names.as_slice()) {
        let meant = [Text(like)];
        out.help("there is `{}`: write it so, if it is meant", &meant);
    }
}

/// The same, where these tables were kept.
fn tell_names_at<'a>(
    out: &mut Explanation,
    refused: &Refused<'a>,
    ran: &Ran<'a>,
    key: &str,
    kind: Kind,
) {
    let Some(file) = tables_at(refused, ran, key) else {
        return;
    };
    match refused_of(refused.alloc, file, Kind::Top, true) {
        Some(tables) => tell_names(out, refused, &tables, key, kind),
        None => {}
    }
}

/// Whether a rule on links is one of times.
fn is_of_times(code: &str) -> bool {
    if code == "N18" {
        return true;
    }
    code == "N19"
}

/// Tells of a link that was read what of it does not fit.
fn tell_joined<'a>(
    out: &mut Explanation,
    ran: &Ran<'a>,
    refused: &Refused<'a>,
    code: &str,
    meaning: &Meaning,
) {
    let stream = word(ran.line, 5);
    out.begin(code);
    if is_of_times(code) {
        tell_ends(out, refused, code, stream, meaning.means);
        if tell_numbers(out, refused, ran, code, stream) {
            return;
        }
    } else {
        tell_ends(out, refused, code, stream, "");
    }
    if code == "N14" {
        tell_names_at(out, refused, ran, "from", Kind::Output);
        tell_names_at(out, refused, ran, "to", Kind::Bus);
    }
    out.help("{}", &[Text(meaning.mend)]);
}

/// Tells of a link that does not fit what it joins.
pub(crate) fn tell_link<'a>(out: &mut Explanation, ran: &Ran<'a>) {
    let code = word(ran.line, 1);
    let (file, _) = ran.files();
    let Some(meaning) = meaning_of(Sort::Link, code) else {
        return;
    };
    match refused_of(ran.alloc, file, Kind::System, true) {
        Some(mut refused) => {
            let index = index_in(word(ran.line, 3));
            refused.row = refused.layout.row(Kind::Link, index).unwrap_or(0);
            tell_joined(out, ran, &refused, code, &meaning);
        }
        None => {}
    }
}
