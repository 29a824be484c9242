//! Values that are not what is wanted at their key.
use crate::keys::{Sort, Wanted, is_there, keys_of};
use crate::refused::{Fact, Refused};
use crate::shape::tell_usual;
use crate::values::{Misfit, keeps, member_of, wrong_at};
use dc_tell::{Form, Key, Span, unquoted};

/// The sorts of values: what is wanted, by the least, the most and what it is of; what a value is not that is no such;
/// and what a letter is not that may not stand there.
static SORTS: [(Sort, &'static str, &'static str, &'static str); 14] = [
    (
        Sort::Number,
        "a whole number from {} to {} ({}), without quotes",
        "which is not a whole number{}",
        "",
    ),
    (
        Sort::Names,
        "a list of {} to {} names of {} in quotes, like [\"A\", \"B\"]",
        "which is not a list of names in quotes{}",
        "",
    ),
    (
        Sort::Tables,
        "{} to {} tables, each begun by a line `{}` of its own",
        "which is not a list of tables{}",
        "",
    ),
    (
        Sort::Count,
        "a whole number, 4294967295 at most, in digits alone and without quotes",
        "which is not a whole number from 0 to 4294967295{}",
        "",
    ),
    (
        Sort::Word,
        "one of these in quotes: ",
        "which is not a text in quotes{}",
        "",
    ),
    (
        Sort::Name,
        "a text in quotes: 1 to 16 of A-Z a-z 0-9 _ -",
        "which is not a text in quotes{}",
        "none of A-Z a-z 0-9 _ -",
    ),
    (
        Sort::Label,
        "a text in quotes: three octal digits from 001 to 377, like \"203\"",
        "which is not a text in quotes{}",
        "no octal digit (0 to 7)",
    ),
    (
        Sort::Equipment,
        "a text in quotes: three hexadecimal digits, like \"001\" or \"02A\"",
        "which is not a text in quotes{}",
        "no hexadecimal digit (0 to 9, A to F)",
    ),
    (
        Sort::Sdi,
        "a whole number from 0 to 3, or \"any\" in quotes",
        "which is neither a whole number nor a text in quotes{}",
        "",
    ),
    (
        Sort::Truth,
        "true or false, without quotes",
        "which is neither true nor false{}",
        "",
    ),
    (
        Sort::Offsets,
        "a list of 1 to 256 whole numbers, each from 0 to 99999 (ticks), like [0, 15]",
        "which is not a list of whole numbers{}",
        "",
    ),
    (
        Sort::List,
        "a list in brackets",
        "which is not a list in brackets{}",
        "",
    ),
    (
        Sort::File,
        "the name of a file in quotes, taken from the folder of this text, or as it is where it begins with /",
        "which is not a text in quotes{}",
        "",
    ),
    (
        Sort::End,
        "a text in quotes, like \"FWD.AIR\": the name of a concentrator, a dot, and the name of its ",
        "which is not a text in quotes{}",
        "",
    ),
];

/// What is told of a sort of values.
fn texts_of(sort: Sort) -> (&'static str, &'static str, &'static str) {
    for (own, wanted, instead, letters) in &SORTS {
        if *own == sort {
            return (wanted, instead, letters);
        }
    }
    ("", "{}", "")
}

/// Writes what is wanted at a key.
pub fn tell_wanted(refused: &mut Refused<'_>, wanted: Wanted) {
    let (sentence, _, _) = texts_of(wanted.sort);
    refused.say(
        sentence,
        &[
            Fact::Number(wanted.least),
            Fact::Number(wanted.most),
            Fact::Word(wanted.what),
        ],
    );
    if matches!(wanted.sort, Sort::Word | Sort::End) {
        refused.out.add(wanted.what);
    }
}

/// What is wrong with the length or the value of a text each of whose letters may stand there.
fn what_is_misspelt(sort: Sort, text: &[u8]) -> &'static str {
    match sort {
        Sort::Name if text.is_empty() => "which is empty{}",
        Sort::Name => "which has more than 16 letters{}",
        Sort::Label if text.len() != 3 => "which is not three digits{}",
        Sort::Label if text == b"000".as_slice() => "and labels begin with 001{}",
        Sort::Label => "and the last label is 377{}",
        Sort::Equipment => "which is not three digits{}",
        Sort::End => "which is not two names with a dot between them{}",
        _ => "which is no such word{}",
    }
}

/// The first letter of a text that may not stand there, and its number from 1: all before it have one byte.
fn wrong_letter(refused: &Refused<'_>, sort: Sort, bare: Span) -> Option<(Span, u64)> {
    let text = refused.layout.piece(bare);
    let Some(at) = wrong_at(sort, text) else {
        return None;
    };
    let mut length = 0usize;
    for byte in text.get(at..).unwrap_or(b"") {
        if length != 0 && *byte & 0xC0 != 0x80 {
            break;
        }
        length = length.saturating_add(1);
    }
    let from = bare.from.saturating_add(at);
    let to = from.saturating_add(length);
    Some((Span { from, to }, (at as u64).saturating_add(1)))
}

/// Writes which letter of a text is wrong, where one is, and shows it.
fn tell_letter(refused: &mut Refused<'_>, sort: Sort, value: Span) {
    let bare = unquoted(value, refused.layout.text);
    let (_, _, letters) = texts_of(sort);
    match wrong_letter(refused, sort, bare) {
        Some((letter, number)) if !letters.is_empty() => refused.say(
            "and its letter {}, `{}`, is {}{}",
            &[
                Fact::Number(number),
                Fact::Piece(letter),
                Fact::Word(letters),
                Fact::Here(letter),
            ],
        ),
        _ => {
            let what = what_is_misspelt(sort, refused.layout.piece(bare));
            refused.say(what, &[Fact::Here(value)]);
        }
    }
}

/// Writes what a value is not, by the rule that it breaks, and shows it.
fn tell_wrong(refused: &mut Refused<'_>, rule: Misfit, sort: Sort, value: Span) {
    let (_, instead, _) = texts_of(sort);
    let sentence = match rule {
        Misfit::Spelling => return tell_letter(refused, sort, value),
        Misfit::Range => "which is out of its range{}",
        Misfit::Kind => instead,
    };
    refused.say(sentence, &[Fact::Here(value)]);
}

/// The value at a key, or the member of the list there, that breaks a rule, and of which sort it is to be.
fn misfit_at(
    refused: &Refused<'_>,
    rule: Misfit,
    key: Key,
    wanted: &Wanted,
) -> Option<(Span, Sort)> {
    let layout = &refused.layout;
    match key.form {
        Form::Value if !keeps(rule, wanted, layout, key.value) => {
            return Some((key.value, wanted.sort));
        }
        Form::Heads if matches!(rule, Misfit::Kind) && !matches!(wanted.sort, Sort::Tables) => {
            return Some((key.name, wanted.sort));
        }
        Form::Head if matches!(rule, Misfit::Kind) => return Some((key.name, wanted.sort)),
        _ => {}
    }
    let Some(inner) = member_of(wanted) else {
        return None;
    };
    let members = layout.members.as_slice();
    for member in members.get(key.first..key.last).unwrap_or(&[]) {
        if !keeps(rule, &inner, layout, *member) {
            return Some((*member, inner.sort));
        }
    }
    None
}

/// A value of the table with the fault that breaks a rule: its key, what is wanted there, and the value or the member that
/// does, with the sort of which that is to be.
type Found = (Key, Wanted, Span, Sort);

/// What is wanted at a key by the ticks of the text: an age in microseconds is two of them or more.
fn by_ticks(refused: &Refused<'_>, wanted: &Wanted) -> Wanted {
    let ticks = refused.count(0, "tick_us").saturating_mul(2);
    if wanted.name == "max_age_us" {
        return Wanted {
            least: ticks,
            ..*wanted
        };
    }
    *wanted
}

/// The first value of the table with the fault that breaks a rule.
fn first_misfit(refused: &Refused<'_>, rule: Misfit) -> Option<Found> {
    let extent = refused.extent();
    for row in keys_of(refused.kind(refused.row)) {
        if !is_there(row.name, extent) {
            continue;
        }
        let Some(key) = refused.layout.key(refused.row, row.name.as_bytes()) else {
            continue;
        };
        let wanted = by_ticks(refused, row);
        if let Some((value, sort)) = misfit_at(refused, rule, key, &wanted) {
            return Some((key, wanted, value, sort));
        }
    }
    None
}

/// How a value is told by how its key is written, and whether it is a member of the list there.
fn value_words(key: Key, value: Span) -> &'static str {
    match key.form {
        Form::Head => " is one table, headed `[{}]`, ",
        Form::Heads => " is a list of tables, headed `[[{}]]`, ",
        Form::Value if value.from != key.value.from => " has the member {}, ",
        Form::Value => " is {}, ",
    }
}

/// Tells of a value of a wrong kind, out of its range or spelled wrongly.
pub fn tell_misfit(refused: &mut Refused<'_>, rule: Misfit) -> bool {
    let Some((key, wanted, value, sort)) = first_misfit(refused, rule) else {
        return false;
    };
    let owner = if refused.row == 0 {
        "`{}` at the top"
    } else {
        "`{}` of {}"
    };
    refused.say(owner, &[Fact::Word(wanted.name), Fact::Row(refused.row)]);
    refused.say(value_words(key, value), &[Fact::Piece(value)]);
    tell_wrong(refused, rule, sort, value);
    refused.say(
        "\nhelp: write `{}` ({}) as ",
        &[Fact::Word(wanted.name), Fact::Word(wanted.meaning)],
    );
    tell_wanted(refused, wanted);
    if matches!(wanted.sort, Sort::Names) {
        refused.out.add("; a name is 1 to 16 of A-Z a-z 0-9 _ -");
    }
    if matches!(rule, Misfit::Range) {
        tell_usual(refused, wanted.name);
    }
    true
}
