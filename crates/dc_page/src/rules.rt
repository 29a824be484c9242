//! The conditions of a certificate with their margins, as the page shows them.

use crate::standing::Standing;
use crate::time::TickLength;
use dc_busy::LONGEST_WINDOW;
use dc_check::{CertificateList, Condition};
use dc_margin::{Decider, Margin, MarginLine, Measure};
use dc_page_text::Hole::{Number, Thousandths, Times};
use dc_page_text::{Html, Unit};

/// What the condition asks, in words.
pub fn asks(condition: Condition) -> &'static str {
    match condition {
        Condition::NamesDiffer => {
            "the certificate lists what the tables have, once each and in their order"
        }
        Condition::WindowOutOfRange => "the window is 1 to 100,000 ticks long",
        Condition::WindowDoesNotClose => {
            "the window closes: what may come in it is taken in its ticks but the first"
        }
        Condition::BacklogTooSmall => "no more wait than the backlog",
        Condition::QueueTooShort => "the receive queue has room for the backlog",
        Condition::DelayTooSmall => "none waits longer than the delay",
        Condition::DelayOutOfRange => "the delay is at most 100,000 ticks",
        Condition::SentTooSoon => "the label never leaves too soon",
        Condition::SentTooLate => "the label never leaves too late",
        Condition::AgeTooSmall => "the age covers stale and the longest delay of a source",
        Condition::AgeOverLimit => "the age is within the label's limit",
        Condition::SourceGoesStale => "no source that keeps its interval goes stale",
    }
}

/// What to do where it fails.
pub fn remedy(condition: Condition) -> &'static str {
    match condition {
        Condition::NamesDiffer => "list them as the tables do",
        Condition::WindowOutOfRange => "a window in the range",
        Condition::WindowDoesNotClose => {
            "a longer window; where none closes, more steps of what serves it, a smaller within, more visits or fewer streams"
        }
        Condition::BacklogTooSmall => "a greater backlog",
        Condition::QueueTooShort => "a longer queue, or more steps",
        Condition::DelayTooSmall => "a greater delay",
        Condition::DelayOutOfRange => "a delay in the range",
        Condition::SentTooSoon => "entries further apart",
        Condition::SentTooLate => "entries nearer together",
        Condition::AgeTooSmall => "a greater age",
        Condition::AgeOverLimit => "a smaller age, or a shorter stale",
        Condition::SourceGoesStale => "a longer stale",
    }
}

/// What to do where it fails on a label, whatever is accepted of the inputs and outputs.
pub fn remedy_sought(condition: Condition) -> &'static str {
    match condition {
        Condition::AgeOverLimit => {
            "a greater limit, a shorter stale, or more steps of the routers of its sources"
        }
        _ => remedy(condition),
    }
}

/// What the margin of a line counts. Words of an output are its entries.
fn unit_of(line: MarginLine) -> Unit {
    match (line.measure(), line.list) {
        (Measure::Ticks, _) => Unit::Ticks,
        (Measure::Words, CertificateList::Outputs) => Unit::Entries,
        (Measure::Words, _) => Unit::Words,
    }
}

/// Adds the margin of a line, in words; of ticks with their milliseconds.
pub fn push_slack(html: &mut Html, line: MarginLine, tick: TickLength) {
    let Some(margin) = line.margin else {
        return html.add("not told");
    };
    let Some(slack) = margin.slack else {
        html.add("no delay up to ");
        html.show(tick.span(LONGEST_WINDOW));
        return html.add(" is enough");
    };
    let count = slack.unsigned_abs();
    let unit = unit_of(line);
    html.put("{}", &[Times(unit, count as usize)]);
    html.add(if slack < 0 { " short" } else { " to spare" });
    if matches!(unit, Unit::Ticks) {
        let millis = tick.millis(count).0;
        html.put(" <small>({} ms)</small>", &[Thousandths(millis)]);
    }
}

/// Adds the begin of a row, which is marked where its margin is negative, up to the code of its condition.
pub fn push_code(html: &mut Html, line: MarginLine) {
    html.add(if line.is_negative() {
        "<tr class='no'><td class='n'>&#10007; "
    } else {
        "<tr><td class='n'>"
    });
    html.add(line.condition.code());
}

/// Adds which number of ticks decides a margin, where one does.
fn push_decider(html: &mut Html, margin: Option<Margin>, tick: TickLength) {
    let Some(margin) = margin else {
        return;
    };
    if let Decider::Window(window) = margin.decider {
        let ticks = u64::from(window);
        html.put(
            " <small>(nearest at w = {}, {} ms)</small>",
            &[Number(ticks), Thousandths(tick.millis(ticks).0)],
        );
    }
}

/// Adds a line to a table of margins, and what to do where it is negative, if that was not said with its number.
fn push_line(html: &mut Html, line: MarginLine, tick: TickLength, standing: Standing) {
    push_code(html, line);
    html.add("</td><td>");
    html.add(asks(line.condition));
    push_decider(html, line.margin, tick);
    html.add("</td><td class='n'>");
    push_slack(html, line, tick);
    html.add("</td></tr>\n");
    if line.is_negative() && !standing.is_sought() {
        html.add("<tr><td></td><td colspan='2' class='todo'>What to do: ");
        html.add(remedy(line.condition));
        html.add("</td></tr>\n");
    }
}

/// Adds a table of margins; of those of what was found the ones that are told.
pub fn push_lines(html: &mut Html, lines: &[MarginLine], tick: TickLength, standing: Standing) {
    html.add("<table><tr><th>Rule</th><th>What it asks</th><th>Margin</th></tr>\n");
    for line in lines {
        if line.margin.is_some() || !standing.is_sought() {
            push_line(html, *line, tick, standing);
        }
    }
    html.add("</table>\n")
}
