//! Tables and certificates: those that can't be read, and those that were judged and refused.
use crate::again::Again;
use crate::faults::tell_event_of;
use crate::lines::{Line, NO_LINE};
use crate::output::word;
use crate::plain::{repeat, tell_plainly};
use crate::ran::Ran;
use dc_codes::Kind;
use dc_document::BuildError;
use dc_tables::Tables;
use dc_tell::Explanation;

/// Tells by the tables what is of such a code, where there is something to tell: a certificate that was refused, or tables
/// that have none; a line. Nothing where the code says that they can't be read.
fn tell_by<A: Again>(
    out: &mut Explanation,
    again: &A,
    ran: &Ran<'_>,
    kind: Kind,
    line: &Line<'_>,
    tables: &Tables,
) -> bool {
    let (first, second) = ran.files();
    match kind {
        Kind::Table => false,
        Kind::Condition if ran.task.is_found => {
            repeat(out, again.unfound(ran.alloc, tables, first))
        }
        Kind::Condition => repeat(out, again.refused(ran.alloc, tables, (first, second))),
        _ => tell_event_of(out, ran, kind, line, tables),
    }
}

/// The tables of a run, read again as it read them.
fn tables_of<A: Again>(again: &A, ran: &Ran<'_>, text: &[u8]) -> Result<Tables, BuildError> {
    if ran.task.is_layout {
        return again.unlaid_tables(ran.alloc, text);
    }
    again.tables(ran.alloc, text)
}

/// Reads the tables again, and tells what is of such a code: by them, or why they can't be read. The one function that
/// holds them: what drops them is proved once.
pub(crate) fn tell_by_tables<A: Again>(
    out: &mut Explanation,
    again: &A,
    ran: &Ran<'_>,
    kind: Kind,
    line: &Line<'_>,
) -> bool {
    let (file, _) = ran.files();
    match tables_of(again, ran, file.text) {
        Ok(tables) => tell_by(out, again, ran, kind, line, &tables),
        Err(BuildError::Refused(fault)) => {
            repeat(out, again.unread_tables(ran.alloc, file, fault))
        }
        Err(_) => false,
    }
}

/// Tells of tables or of a certificate: that can't be read, or that were judged and refused. Whether there was something.
pub(crate) fn tell_files<A: Again>(out: &mut Explanation, again: &A, ran: &Ran<'_>) -> bool {
    let code = word(ran.line, 1);
    // (where answers are objects the word stands behind a brace)
    if !word(ran.line, 0).ends_with("unreadable") {
        return tell_by_tables(out, again, ran, Kind::Condition, &NO_LINE)
            || tell_plainly(out, Kind::Condition, code);
    }
    if code.as_bytes().starts_with(b"K") {
        let (_, certificate) = ran.files();
        return repeat(out, again.unread_certificate(ran.alloc, certificate))
            || tell_plainly(out, Kind::Certificate, code);
    }
    tell_by_tables(out, again, ran, Kind::Table, &NO_LINE) || tell_plainly(out, Kind::Table, code)
}
