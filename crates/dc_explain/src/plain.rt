//! What a code means, where no more is to be said; and what other crates tell.
use crate::lines::Line;
use dc_codes::{Kind, meaning_of};
use dc_tell::Explanation;
use dc_tell::Value::Text;

/// Tells a code by what it means and by what to do. Whether it means anything.
pub(crate) fn tell_plainly(out: &mut Explanation, kind: Kind, code: &str) -> bool {
    let Some(meaning) = meaning_of(kind, code) else {
        return false;
    };
    out.begin(code);
    out.say("{}", &[Text(meaning.means)]);
    out.help("{}", &[Text(meaning.mend)]);
    true
}

/// Tells of a line, behind so many of its bytes, what its code means and what to do.
pub(crate) fn tell_meaning(
    out: &mut Explanation,
    kind: Kind,
    code: &str,
    line: &Line<'_>,
    offset: usize,
) {
    match meaning_of(kind, code) {
        Some(meaning) => line.tell(
            out,
            offset,
            "{}\n{}",
            &[Text(meaning.means), Text(meaning.mend)],
        ),
        None => out.lose(),
    }
}

/// Goes on with the lines of a text.
fn add_lines(out: &mut Explanation, text: &str) -> bool {
    for line in text.lines() {
        out.end_line();
        out.add(line);
    }
    true
}

/// Goes on with what was told elsewhere. Whether something was.
pub(crate) fn repeat(out: &mut Explanation, told: Option<String>) -> bool {
    match told {
        Some(told) => add_lines(out, told.as_str()),
        None => false,
    }
}
