//! What an audit found wanting, and of what it was asked nothing.
use crate::lines::Line;
use crate::output::word;
use crate::ran::Ran;
use crate::sources::tell_source;
use crate::steps::tell_budget;
use dc_codes::{Kind, meaning_of};
use dc_tables::Tables;
use dc_tell::Explanation;
use dc_tell::Value::{Number, Text};

/// Tells what an audit found wanting, at the line that it names.
pub(crate) fn tell_failing(out: &mut Explanation, ran: &Ran<'_>, line: &Line<'_>, tables: &Tables) {
    let verb = word(ran.line, 0);
    if verb == "budgets" && tell_budget(out, ran, line, tables) {
        return;
    }
    let (means, mend) = match meaning_of(Kind::Audit, verb) {
        Some(meaning) => (meaning.means, meaning.mend),
        None => ("", ""),
    };
    let is_told = verb == "sources" && tell_source(out, ran, line, tables);
    if !is_told {
        line.tell(out, 0, "in tick {}: {}", &[Number(line.tick), Text(means)]);
    }
    if !mend.is_empty() {
        out.help("{}", &[Text(mend)]);
    }
}

/// Says that nothing was tested, where an audit found nothing wanting in a trace that is empty.
pub(crate) fn tell_empty(out: &mut Explanation, ran: &Ran<'_>) {
    let input = ran.input;
    if !ran.task.is_audit {
        return;
    }
    if input.is_cut {
        return;
    }
    if input.before.lines != 0 {
        return;
    }
    if input.text.is_empty() {
        out.say(
            "note: the trace is empty, so nothing was tested: silence is always allowed",
            &[],
        );
    }
}
