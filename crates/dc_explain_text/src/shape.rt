//! Keys that are unknown or absent, and what stands in the place of a table.
use crate::keys::{ALL, Extent, Sort, Wanted, is_of_unlaid, is_there, key_of, keys_of, other_with};
use crate::refused::{Fact, Refused};
use crate::wanted::tell_wanted;
use dc_tell::{Form, Key, Kind, Span, Value, called, top_of, unquoted};

/// The first key of the table with the fault that is unknown; where there is none, the last one of tables to lay out.
fn unknown_key(refused: &Refused<'_>) -> Option<Key> {
    let kind = refused.kind(refused.row);
    let extent = refused.extent();
    let mut unlaid = None;
    for key in refused.layout.keys.as_slice() {
        if key.row != Some(refused.row) {
            continue;
        }
        let name = refused.layout.bare(key.name);
        if key_of(kind, name, extent).is_none() {
            return Some(*key);
        }
        if is_of_unlaid(name) {
            unlaid = Some(*key);
        }
    }
    unlaid
}

/// What to do with a key that other tables of its kind have: those of version 2, or those to lay out.
fn in_others(name: &[u8]) -> &'static str {
    if name == b"looks".as_slice() {
        return "\nhelp: tables to lay out have this key: let `dc429 layout` write whole tables of them, or name each bus in `visits` as often";
    }
    if name == b"max_age_us".as_slice() {
        return "\nhelp: in tables to lay out it stands in the place of `age`: take one of the two out, or let `dc429 layout` write whole tables";
    }
    "\nhelp: tables of version 2 have this key: write `version = 2` at the top, or take the key out"
}

/// What to do with a key of lists, or with one that has a value, that stands in a table of another kind.
static ELSEWHERE: [(Kind, bool, &'static str); 4] = [
    (
        Kind::Top,
        false,
        "\nhelp: this is a key of the top: write it above the first line that begins with `[`, since a key belongs to the last such line above it",
    ),
    (
        Kind::Top,
        true,
        "\nhelp: this is a list of the top: write `[[{}]]`",
    ),
    (
        Kind::Bus,
        true,
        "\nhelp: streams stand in their bus: write `[[bus.stream]]`, below the `[[bus]]` that carries them",
    ),
    (
        Kind::Output,
        true,
        "\nhelp: labels stand in their output: write `[[output.label]]`, below the `[[output]]` that sends them",
    ),
];

/// What to do with a key that another kind of table has.
fn elsewhere(other: Kind, is_list: bool) -> &'static str {
    for (kind, is_of_lists, sentence) in &ELSEWHERE {
        if *kind == other && *is_of_lists == is_list {
            return sentence;
        }
    }
    ""
}

/// Writes what to do with a key that another kind of table has.
fn tell_elsewhere(refused: &mut Refused<'_>, key: Key, other: Kind) {
    let sentence = elsewhere(other, !matches!(key.form, Form::Value));
    let (_, article) = called(other);
    let name = unquoted(key.name, refused.layout.text);
    refused.say(sentence, &[Fact::Piece(name)]);
    refused.say(
        "\n{}help: {} has this key: write it in one, or take it out",
        &[Fact::If(sentence.is_empty()), Fact::Word(article)],
    );
}

/// Writes which keys the table with the fault has.
fn tell_keys(refused: &mut Refused<'_>) {
    let (_, article) = called(refused.kind(refused.row));
    let names = refused.keys();
    refused.out.add(article);
    refused.out.add(" has ");
    refused.out.put(Value::Names(names.as_slice()));
}

/// Writes which known key is most like an unknown one, and which keys there are.
fn tell_known(refused: &mut Refused<'_>, key: Key) {
    let names = refused.keys();
    let bare = refused.layout.bare(key.name);
    let name = str::from_utf8(bare).unwrap_or("");
    let is_system = matches!(refused.kind(refused.row), Kind::System);
    refused.say(
        "\n{}help: this is a key of tables: name the text of a system, which names the tables of each concentrator\nhelp: ",
        &[Fact::If(is_system && key_of(Kind::Top, bare, ALL).is_some())],
    );
    if let Some((like, other)) = refused.out.nearest(name, names.as_slice()) {
        let sentence = if other.is_empty() {
            "there is a key `{}`; "
        } else {
            "there is a key `{}` and a key `{}`; "
        };
        refused.say(sentence, &[Fact::Word(like), Fact::Word(other)]);
    }
    tell_keys(refused);
    refused.out.add(" and no other");
}

/// Tells of a key that is unknown.
pub fn tell_unknown(refused: &mut Refused<'_>) -> bool {
    let Some(key) = unknown_key(refused) else {
        return false;
    };
    let kind = refused.kind(refused.row);
    let bare = refused.layout.bare(key.name);
    let is_elsewhere = key_of(kind, bare, ALL).is_some();
    let other = other_with(kind, bare, !matches!(key.form, Form::Value));
    let is_known = is_elsewhere || !matches!(other, Kind::None);
    let what = match top_of(kind) {
        _ if is_known => "does not belong there",
        Kind::Certificate => "certificates do not know",
        Kind::System => "systems do not know",
        _ => "tables do not know",
    };
    let name = unquoted(key.name, refused.layout.text);
    refused.say(
        "{} has a key `{}` that {}{}",
        &[
            Fact::Row(refused.row),
            Fact::Piece(name),
            Fact::Word(what),
            Fact::Here(key.name),
        ],
    );
    if is_elsewhere {
        refused.say(in_others(bare), &[]);
    } else if is_known {
        tell_elsewhere(refused, key, other);
    } else {
        tell_known(refused, key);
    }
    true
}

/// Whether a table may lack a key: tables each list of their top, a system its links, a label one of two for its age.
fn may_lack(refused: &Refused<'_>, wanted: &Wanted) -> bool {
    if wanted.name == "age" {
        return refused.layout.key(refused.row, b"max_age_us").is_some();
    }
    let extent = Extent {
        is_policed: refused.is_policed(),
        is_unlaid: false,
    };
    match wanted.sort {
        Sort::Tables => matches!(wanted.kind, Kind::Top) || wanted.name == "link",
        _ => !is_there(wanted.name, extent),
    }
}

/// Whether a key is one that `layout` writes.
fn is_of_layout(wanted: &Wanted) -> bool {
    match wanted.kind {
        Kind::Output => wanted.name == "frame",
        Kind::Router => wanted.name == "most",
        Kind::Label => wanted.name == "stale" || wanted.name == "offsets",
        _ => false,
    }
}

/// The first key that the table with the fault lacks, of its layout where it lacks no other.
fn lacked(refused: &Refused<'_>) -> Option<Wanted> {
    let mut unlaid = None;
    for wanted in keys_of(refused.kind(refused.row)) {
        let key = refused.layout.key(refused.row, wanted.name.as_bytes());
        if key.is_none() && !may_lack(refused, wanted) {
            if !is_of_layout(wanted) {
                return Some(*wanted);
            }
            if unlaid.is_none() {
                unlaid = Some(*wanted);
            }
        }
    }
    unlaid
}

/// How many tables of the kind of that with the fault, but this one, have this at a key.
fn holders(refused: &Refused<'_>, key: &str, value: &[u8]) -> u64 {
    let kind = refused.kind(refused.row);
    let mut count = 0u64;
    for (row, it) in refused.layout.rows.iter().enumerate() {
        if it.kind != kind || row == refused.row {
            continue;
        }
        if refused.layout.value(row, key) == value {
            count = count.saturating_add(1);
        }
    }
    count
}

/// How many values are counted at most, to find which one most tables have.
const COUNTED: usize = 32;

/// A table of the kind of that with the fault that has at a key what most others have there, and how many have it.
fn usual(refused: &Refused<'_>, key: &str) -> Option<(usize, u64)> {
    let kind = refused.kind(refused.row);
    let mut usual = None;
    let mut most = 0u64;
    let mut counted = 0usize;
    for (row, it) in refused.layout.rows.iter().enumerate() {
        let value = refused.layout.value(row, key);
        if it.kind != kind || row == refused.row || value.is_empty() || counted >= COUNTED {
            continue;
        }
        counted = counted.saturating_add(1);
        let count = holders(refused, key, value);
        if count > most {
            most = count;
            usual = Some((row, count));
        }
    }
    usual
}

/// Writes what most other tables of the kind have at a key.
pub(crate) fn tell_usual(refused: &mut Refused<'_>, key: &'static str) {
    let Some((usual, most)) = usual(refused, key) else {
        return;
    };
    let kind = refused.kind(refused.row);
    let (name, _) = called(kind);
    let others = (refused.tables_of(kind) as u64).saturating_sub(1);
    if others != 1 && others != most {
        return refused.say(
            "; {} of the {} other {} tables have {}",
            &[
                Fact::Number(most),
                Fact::Number(others),
                Fact::Word(name),
                Fact::At(usual, key),
            ],
        );
    }
    let sentence = if others == 1 {
        "; the other {} has {}"
    } else {
        "; the other {} tables have {}"
    };
    refused.say(sentence, &[Fact::Word(name), Fact::At(usual, key)]);
}

/// Where a key of the top stands below a heading.
fn misplaced(refused: &Refused<'_>, name: &str) -> Option<Span> {
    for key in refused.layout.keys.as_slice() {
        if key.row == Some(0) || !matches!(key.form, Form::Value) {
            continue;
        }
        if refused.layout.bare(key.name) == name.as_bytes() {
            return Some(key.name);
        }
    }
    None
}

/// Writes where a key of the top stands that stands below a heading.
fn tell_misplaced(refused: &mut Refused<'_>, name: &'static str) {
    let Some(place) = misplaced(refused, name) else {
        return;
    };
    refused.say(
        "\nnote: there is a `{}`, but below a line that begins with `[`, and so in that table: move it above the first such line{}",
        &[Fact::Word(name), Fact::Here(place)],
    );
}

/// Whether it tells something what others have at a key: `steps` and `within` say something together alone.
fn has_usual(wanted: &Wanted) -> bool {
    match wanted.sort {
        Sort::Number => wanted.name != "steps" && wanted.name != "within",
        Sort::Word | Sort::Truth => true,
        _ => false,
    }
}

/// Tells of a key that is not there.
pub fn tell_absent(refused: &mut Refused<'_>) -> bool {
    let Some(wanted) = lacked(refused) else {
        return false;
    };
    refused.say(
        "{} has no key `{}`{}\nhelp: add `{}` ({}): ",
        &[
            Fact::Row(refused.row),
            Fact::Word(wanted.name),
            Fact::Place(refused.row, ""),
            Fact::Word(wanted.name),
            Fact::Word(wanted.meaning),
        ],
    );
    tell_wanted(refused, wanted);
    if has_usual(&wanted) {
        tell_usual(refused, wanted.name);
    }
    if matches!(wanted.kind, Kind::Top) {
        tell_misplaced(refused, wanted.name);
    }
    let is_age = wanted.name == "age" && refused.is_unlaid();
    refused.say(
        "\n{}help: or let `dc429 layout` write it, with all that is absent of the layout\n{}help: or, in tables to lay out, add `max_age_us`, the same in microseconds: data are younger than it says",
        &[
            Fact::If(is_of_layout(&wanted)),
            Fact::If(is_age && matches!(wanted.kind, Kind::Label)),
        ],
    );
    true
}

/// Tells of what stands in the place of a table.
pub fn tell_no_table(refused: &mut Refused<'_>) -> bool {
    let found = match refused.layout.rows.get(refused.row) {
        None => None,
        Some(row) => row.instead,
    };
    let Some(instead) = found else {
        return false;
    };
    let what = if refused.layout.is_json {
        "an object in braces"
    } else {
        "a table with keys, under a heading of its own or in braces,"
    };
    refused.say(
        "{} is {}, and {} is wanted{}\nhelp: in place of it write one: ",
        &[
            Fact::Row(refused.row),
            Fact::Piece(instead),
            Fact::Word(what),
            Fact::Here(instead),
        ],
    );
    tell_keys(refused);
    true
}

/// Which versions there are of a text with a top of this kind, and how one is written.
fn versions_of(top: Kind) -> (&'static str, &'static str) {
    match top {
        Kind::Certificate => (
            "`version` is {}, and there are certificates of version 1 alone",
            "{}\nhelp: write `\"version\":1`, the number without quotes, whatever the version of the tables is",
        ),
        Kind::System => (
            "`version` is {}, and there are systems of version 1 alone",
            "{}\nhelp: begin the file with a line `version = 1`, the number without quotes, whatever the version of the tables is",
        ),
        _ => (
            "`version` is {}, and there are versions 1 and 2",
            "{}\nhelp: begin the file with a line `version = 1`, or with `version = 2` for tables whose buses have `police` and whose streams have `jitter_us`",
        ),
    }
}

/// Tells of a version that is none.
pub fn tell_version(refused: &mut Refused<'_>) -> bool {
    let (sentence, todo) = versions_of(refused.kind(0));
    match refused.layout.key(0, b"version") {
        None => refused.say("{} has no `version`", &[Fact::Row(0)]),
        Some(key) => refused.say(sentence, &[Fact::Piece(key.value)]),
    }
    refused.say(todo, &[Fact::Place(0, "version")]);
    if !refused.layout.is_json {
        tell_misplaced(refused, "version");
    }
    true
}
