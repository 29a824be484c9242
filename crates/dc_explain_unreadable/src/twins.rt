//! Tables of which two do not go together.
use crate::names::nameless;
use crate::related::{agree, member};
use dc_document::TableRule;
use dc_explain_text::Refused;
use dc_tell::{Explanation, Kind, Span};

/// Whether two streams of one bus have an SDI in common.
fn share_sdi(refused: &Refused<'_>, one: usize, other: usize) -> bool {
    let any = b"any".as_slice();
    agree(refused, one, other, "sdi")
        || refused.layout.value(one, "sdi") == any
        || refused.layout.value(other, "sdi") == any
}

/// Whether a table is the twin that the rule forbids beside that of the fault.
fn is_twin(refused: &Refused<'_>, rule: TableRule, other: usize) -> bool {
    let row = refused.row;
    let is_alike = agree(refused, row, other, "label");
    let is_together = refused.parent(row) == refused.parent(other);
    match rule {
        TableRule::ParameterDoubled => is_alike && agree(refused, row, other, "equipment"),
        TableRule::NameDoubled => refused.layout.value(row, "name")
            == refused.layout.value(other, "name"),
        TableRule::StreamsOverlap => is_alike && is_together && share_sdi(refused, row, other),
        _ => is_alike && is_together && agree(refused, row, other, "sdi"),
    }
}

/// The first table of the same kind that is such a twin.
fn twin_of(refused: &Refused<'_>, rule: TableRule) -> Option<usize> {
    let kind = refused.kind(refused.row);
    for (number, it) in refused.layout.rows.iter().enumerate() {
        if number >= refused.row || it.kind != kind {
            continue;
        }
        if is_twin(refused, rule, number) {
            return Some(number);
        }
    }
    None
}

/// What is told of twins, by their rule: what they have in common, where that is, and what is to be done.
static TWINS: [(TableRule, &'static str); 4] = [
    (
        TableRule::ParameterDoubled,
        "{row} stands there twice{place own label}\nnote: {row 0} is here{place 0 label}\nhelp: write one `[[parameter]]` for each label with its equipment code: mend the `label` or the `equipment` of one, here or in line {line 0 label}, or take one of the two out",
    ),
    (
        TableRule::NameDoubled,
        "{row} stands there twice{place own name}\nnote: {row 0} is here{place 0 name}\nhelp: give one of the two another name, here or in line {line 0 name}, and write it wherever that one is meant; a name is unique in the whole file among the tables of its kind",
    ),
    (
        TableRule::StreamsOverlap,
        "{row} and {row 0} of {row 1} both have label {at own label}, with SDI {at own sdi} and {at 0 sdi}: a word could belong to both{place own sdi}\nnote: {row 0} is here{place 0 sdi}\nhelp: give each an SDI of its own from 0 to 3 (\"any\" is all four), here and in line {line 0 sdi}, or mend the `label` of one",
    ),
    (
        TableRule::LabelDoubled,
        "{row} and {row 0} of {row 1} both have label {at own label}, with SDI {at own sdi} and {at 0 sdi}: receivers could not tell them apart{place own sdi}\nnote: {row 0} is here{place 0 sdi}\nhelp: give one of the two another SDI (0 to 3), here or in line {line 0 sdi}, put it into another output, or make one label of both, with the sources in their priority",
    ),
];

/// What is told of twins by a rule.
fn text_of(rule: TableRule) -> &'static str {
    for (own, sentence) in &TWINS {
        if *own == rule {
            return sentence;
        }
    }
    ""
}

/// What is told of a router that visits a bus of a name that stands there twice, or one that is not there.
const VISITED: &str =
    "\n{if 0}note: `visits` of {row 0} has this name, in line {line 0 visits}: see which of the two it means\n{if 1}note: `visits` of {row 0} has {piece 1}, in line {line 0 visits}, which no table has for its name: one of the two may be meant";

/// What is told of a label with a source of a name that stands there twice, or one that is not there.
const SOURCES: &str =
    "\n{if 0}note: `sources` of {row 0} has this name, in line {line 0 sources}: see which of the two it means\n{if 1}note: `sources` of {row 0} has {piece 1}, in line {line 0 sources}, which no table has for its name: one of the two may be meant";

/// Writes which tables have a name in their list, and which have one that no table has: one of the twins may be meant.
fn tell_users(out: &mut Explanation, refused: &Refused<'_>, kind: Kind, key: &str, sentence: &str) {
    let name = refused.layout.value(refused.row, "name");
    let own = refused.kind(refused.row);
    for row in 0..refused.layout.rows.len() {
        if refused.kind(row) != kind {
            continue;
        }
        let is_user = member(refused, row, key, name).is_some();
        let other = nameless(refused, row, key, own);
        let is_other = other.is_some();
        let piece = other.unwrap_or(Span { from: 0, to: 0 });
        refused.fill_where(
            out,
            sentence,
            &[row, piece.from, piece.to],
            &[],
            &[is_user, is_other],
        );
    }
}

/// Tells of a table that is a twin of an earlier one.
pub(crate) fn tell_twin(out: &mut Explanation, refused: &Refused<'_>, rule: TableRule) -> bool {
    let row = refused.row;
    let Some(twin) = twin_of(refused, rule) else {
        return false;
    };
    let parent = refused.parent(row);
    refused.fill(out, text_of(rule), &[twin, parent]);
    let kind = refused.kind(row);
    match kind {
        Kind::Bus => tell_users(out, refused, Kind::Router, "visits", VISITED),
        Kind::Stream if matches!(rule, TableRule::NameDoubled) => {
            tell_users(out, refused, Kind::Label, "sources", SOURCES)
        }
        _ => {}
    }
    true
}

/// The first source of the label with the fault that stands in its list before.
fn doubled(refused: &Refused<'_>) -> Option<Span> {
    let members = refused.layout.members(refused.row, "sources");
    for (number, one) in members.iter().enumerate() {
        for earlier in members.get(..number).unwrap_or(&[]) {
            if refused.layout.bare(*earlier) == refused.layout.bare(*one) {
                return Some(*one);
            }
        }
    }
    None
}

/// Tells of a source that stands twice in a label.
pub(crate) fn tell_source_twice(out: &mut Explanation, refused: &Refused<'_>) -> bool {
    let Some(twice) = doubled(refused) else {
        return false;
    };
    refused.fill(
        out,
        "`sources` of {row} has {piece 0} twice{here 0}\nhelp: name each stream once, where its priority is: the first is preferred",
        &[twice.from, twice.to],
    );
    true
}
