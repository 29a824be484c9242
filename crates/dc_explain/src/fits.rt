//! What a link asks of the tables at its two ends, in numbers: N18 and N19.
use crate::ends::{concentrator_at, end_of};
use crate::ran::Ran;
use dc_explain_text::Refused;
use dc_explain_unreadable::{are_same, parameter_of, refused_of};
use dc_tell::Value::{Brief, Number, Text};
use dc_tell::{Explanation, File, Kind, place_at};

/// How far apart words come by a parameter, and where one of its two limits stands.
#[derive(Clone, Copy)]
struct Limits<'a> {
    /// The name of the label or stream.
    name: &'a [u8],
    /// At least so many microseconds.
    least: u64,
    /// At most so many.
    most: u64,
    /// The line of the limit.
    line: u64,
    /// Its file.
    file: &'a str,
}

/// The words that a link brings to a stream, and how the stream lets them come.
#[derive(Clone, Copy)]
struct Fit<'a> {
    /// The label that feeds the stream.
    label: Limits<'a>,
    /// The stream.
    stream: Limits<'a>,
    /// How late of their rhythm its words may come, in microseconds ..
    jitter: u64,
    /// .. and the line that says so; 0 where none does.
    jitter_line: u64,
    /// The least latency of the link, in microseconds.
    least_us: u64,
    /// By how much its latency varies.
    varies: u64,
}

/// The line of a key of a table, from 1.
fn line_at(refused: &Refused<'_>, row: usize, key: &str) -> u64 {
    place_at(refused.file.text, refused.place(row, key)).line as u64
}

/// How far apart the words of a label or stream come, by its parameter.
fn limits_of<'a>(refused: &Refused<'a>, row: usize, limit: &str) -> Option<Limits<'a>> {
    let Some(parameter) = parameter_of(refused, row) else {
        return None;
    };
    Some(Limits {
        name: refused.layout.value(row, "name"),
        least: refused.count(parameter, "min_us"),
        most: refused.count(parameter, "max_us"),
        line: line_at(refused, parameter, limit),
        file: refused.file.name,
    })
}

/// The label of an output that feeds a stream.
fn feeder(
    sender: &Refused<'_>,
    output: &[u8],
    receiver: &Refused<'_>,
    stream: usize,
) -> Option<usize> {
    let Some(output) = sender.named(Kind::Output, output) else {
        return None;
    };
    let label = receiver.layout.value(stream, "label");
    let sdi = receiver.layout.value(stream, "sdi");
    let is_any = sdi == b"any".as_slice();
    for (row, it) in sender.layout.rows.iter().enumerate() {
        let is_own = it.kind == Kind::Label && it.parent == output;
        if is_own
            && are_same(sender.layout.value(row, "label"), label)
            && (is_any || are_same(sender.layout.value(row, "sdi"), sdi))
        {
            return Some(row);
        }
    }
    None
}

/// How the tables at both ends of a link fit together, at a stream.
fn fit_of<'a>(
    refused: &Refused<'_>,
    sender: &Refused<'a>,
    receiver: &Refused<'a>,
    stream: &str,
    limit: &str,
) -> Option<Fit<'a>> {
    let link = refused.row;
    let (_, output) = end_of(refused, link, "from");
    let Some(row) = receiver.named(Kind::Stream, stream.as_bytes()) else {
        return None;
    };
    let Some(feeding) = feeder(sender, refused.layout.piece(output), receiver, row) else {
        return None;
    };
    let Some(label) = limits_of(sender, feeding, limit) else {
        return None;
    };
    let Some(stream) = limits_of(receiver, row, limit) else {
        return None;
    };
    let least_us = refused.count(link, "least_us");
    let jitter_line = match receiver.layout.key(row, b"jitter_us") {
        None => 0,
        Some(_) => line_at(receiver, row, "jitter_us"),
    };
    Some(Fit {
        label,
        stream,
        jitter: receiver.count(row, "jitter_us"),
        jitter_line,
        least_us,
        varies: refused.count(link, "most_us").saturating_sub(least_us),
    })
}

/// Writes what limits a label or stream has, and where that stands.
fn tell_limits(out: &mut Explanation, what: &'static str, it: &Limits<'_>) {
    out.note(
        "{} `{}` has `min_us` {} and `max_us` {}, in line {} of {}",
        &[
            Text(what),
            Brief(it.name),
            Number(it.least),
            Number(it.most),
            Number(it.line),
            Text(it.file),
        ],
    );
}

/// Writes the value that a key in a line of a file is to have.
fn tell_value(out: &mut Explanation, key: &'static str, value: u64, line: u64, file: &str) {
    out.help(
        "{} {} in line {} of {}",
        &[Text(key), Number(value), Number(line), Text(file)],
    );
}

/// Writes what would let the words that come too soon come.
fn tell_sooner(out: &mut Explanation, fit: &Fit<'_>) {
    let (label, stream) = (&fit.label, &fit.stream);
    if label.least >= stream.least && fit.jitter_line != 0 {
        let room = label.least.saturating_sub(stream.least);
        let needed = fit.varies.saturating_sub(room);
        tell_value(
            out,
            "write a `jitter_us` of at least",
            needed,
            fit.jitter_line,
            stream.file,
        );
    }
    let uncovered = fit.varies.saturating_sub(fit.jitter);
    if label.least > uncovered {
        let least = label.least.saturating_sub(uncovered);
        tell_value(
            out,
            "write a `min_us` of at most",
            least,
            stream.line,
            stream.file,
        );
    }
    let needed = stream.least.saturating_add(uncovered);
    tell_value(
        out,
        "write a `min_us` of at least",
        needed,
        label.line,
        label.file,
    );
}

/// Writes what would let the words that come too late come.
fn tell_later(out: &mut Explanation, fit: &Fit<'_>) {
    let (label, stream) = (&fit.label, &fit.stream);
    let needed = label.most.saturating_add(fit.varies);
    tell_value(
        out,
        "write a `max_us` of at least",
        needed,
        stream.line,
        stream.file,
    );
    if stream.most > fit.varies {
        let most = stream.most.saturating_sub(fit.varies);
        tell_value(
            out,
            "write a `max_us` of at most",
            most,
            label.line,
            label.file,
        );
    }
}

/// Writes the greatest latency with which a stream keeps both N18 and N19, where there is one. Whether there is.
fn tell_latency(out: &mut Explanation, fit: &Fit<'_>) -> bool {
    let (label, stream) = (&fit.label, &fit.stream);
    if label.least < stream.least || stream.most < label.most {
        return false;
    }
    let sooner = label
        .least
        .saturating_sub(stream.least)
        .saturating_add(fit.jitter);
    let later = stream.most.saturating_sub(label.most);
    let most = fit.least_us.saturating_add(sooner.min(later));
    out.help(
        "write a `most_us` of at most {} here, if the link keeps that: with it this stream keeps N18 and N19",
        &[Number(most)],
    );
    true
}

/// What is told where each of what helps is enough.
const ALL: &str =
    "each of these is enough for this stream; of tables that were changed `dc429 find` writes the certificate anew";

/// What is told where the words may come too late besides, and the latency may be mended.
const FIRST: &str =
    "the first of these is enough for this stream; with another N19 fails next; of tables that were changed `dc429 find` writes the certificate anew";

/// What is told where the words may come too late besides.
const NONE: &str =
    "with each of these N19 fails next for this stream; of tables that were changed `dc429 find` writes the certificate anew";

/// Writes by which numbers the tables at both ends of a link don't fit, and what would do: first the latency of the link,
/// which is mostly the slip.
fn tell_fit(out: &mut Explanation, fit: &Fit<'_>, is_soon: bool) {
    tell_limits(out, "label", &fit.label);
    tell_limits(out, "stream", &fit.stream);
    if is_soon && fit.jitter_line != 0 {
        out.say(
            ", and a `jitter_us` of {} in line {}",
            &[Number(fit.jitter), Number(fit.jitter_line)],
        );
    }
    let is_first = tell_latency(out, fit);
    if is_soon {
        tell_sooner(out, fit);
    } else {
        tell_later(out, fit);
    }
    let is_late = fit.label.most.saturating_add(fit.varies) > fit.stream.most;
    let note = if !is_soon || !is_late {
        ALL
    } else if is_first {
        FIRST
    } else {
        NONE
    };
    out.note(note, &[]);
}

/// Tells the numbers of a stream, by the tables of the sender and of the receiver.
fn tell_both<'a>(
    out: &mut Explanation,
    refused: &Refused<'a>,
    sender: &Refused<'a>,
    receiver: File<'a>,
    stream: &str,
    is_soon: bool,
) -> bool {
    let limit = if is_soon { "min_us" } else { "max_us" };
    let fit = match refused_of(refused.alloc, receiver, Kind::Top, true) {
        Some(receiver) => fit_of(refused, sender, &receiver, stream, limit),
        None => None,
    };
    match fit {
        Some(fit) => {
            tell_fit(out, &fit, is_soon);
            true
        }
        None => false,
    }
}

/// The tables of the concentrator at an end of a link, as they were read.
pub(crate) fn tables_at<'a>(refused: &Refused<'a>, ran: &Ran<'a>, key: &str) -> Option<File<'a>> {
    let Some(row) = concentrator_at(refused, refused.row, key) else {
        return None;
    };
    let count = refused.tables_of(Kind::Concentrator);
    if count != ran.earlier.len().saturating_add(1) {
        return None;
    }
    let index = match refused.layout.rows.get(row) {
        Some(it) => it.index,
        None => return None,
    };
    let kept = ran.earlier.get(index).unwrap_or(ran.named_first);
    Some(File {
        name: str::from_utf8(refused.layout.value(row, "tables")).unwrap_or(""),
        text: kept.text.as_slice(),
    })
}

/// Tells by which numbers of the tables at its ends a link may bring words too soon or too late to a stream; false where
/// these were not kept.
pub(crate) fn tell_numbers<'a>(
    out: &mut Explanation,
    refused: &Refused<'a>,
    ran: &Ran<'a>,
    code: &str,
    stream: &str,
) -> bool {
    let Some(sender) = tables_at(refused, ran, "from") else {
        return false;
    };
    let Some(receiver) = tables_at(refused, ran, "to") else {
        return false;
    };
    match refused_of(refused.alloc, sender, Kind::Top, true) {
        Some(sender) => tell_both(out, refused, &sender, receiver, stream, code == "N18"),
        None => false,
    }
}
