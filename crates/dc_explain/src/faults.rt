//! Lines that can't be read, and events that were refused.
use crate::again::Again;
use crate::audits::tell_failing;
use crate::capture::tell_captured;
use crate::judged::tell_by_tables;
use crate::lines::{INPUT, Line, line_of};
use crate::observed::tell_observed;
use crate::output::{last_number, word};
use crate::plain::tell_plainly;
use crate::ran::Ran;
use crate::steps::tell_step;
use crate::trace::tell_event;
use crate::words::{tell_no_word, tell_shape};
use dc_codes::Kind;
use dc_tables::Tables;
use dc_tell::Explanation;

/// The code of a refused line, as one of such a text.
fn code_of<'a>(line: &'a str, kind: Kind) -> &'a str {
    let number = if kind == Kind::Audit { 0usize } else { 1usize };
    word(line, number)
}

/// Tells what is wrong at an event of a trace, or at a line of `observe`, by the tables.
pub(crate) fn tell_event_of(
    out: &mut Explanation,
    ran: &Ran<'_>,
    kind: Kind,
    line: &Line<'_>,
    tables: &Tables,
) -> bool {
    let code = code_of(ran.line, kind);
    out.begin(code);
    if kind == Kind::Trace {
        tell_event(out, ran, code, line, tables);
    } else if kind == Kind::Observed {
        tell_observed(out, code, line, tables);
    } else if kind == Kind::Step {
        tell_step(out, ran, line, tables);
    } else {
        tell_failing(out, ran, line, tables);
    }
    true
}

/// Tells what is wrong at a line that is no event, by the code of its fault.
fn tell_word(out: &mut Explanation, code: &str, line: &Line<'_>, kind: Kind) {
    out.begin(code);
    if tell_shape(out, code, line, "word") {
        return;
    }
    if kind == Kind::Decoded {
        tell_no_word(out, line, 0);
    } else {
        tell_captured(out, code, line);
    }
}

/// The line that was refused, by what its code is a code of: one of the third file, or of standard input.
fn refused_line<'a>(ran: &Ran<'a>, kind: Kind) -> Option<Line<'a>> {
    let number = last_number(ran.line);
    if kind == Kind::Observed {
        return line_of(ran.third_name, ran.third, number);
    }
    line_of(INPUT, ran.input, number)
}

/// Tells what is wrong at a line, by what its code is a code of.
pub(crate) fn tell_line<A: Again>(out: &mut Explanation, again: &A, ran: &Ran<'_>, kind: Kind) {
    let code = code_of(ran.line, kind);
    let Some(line) = refused_line(ran, kind) else {
        tell_plainly(out, kind, code);
        return;
    };
    if kind == Kind::Decoded || kind == Kind::Capture {
        return tell_word(out, code, &line, kind);
    }
    if !tell_by_tables(out, again, ran, kind, &line) {
        tell_plainly(out, kind, code);
    }
}
