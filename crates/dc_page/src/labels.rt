//! The parts on labels.

ghost use Rattle.std.specs.Prelude.{◌<◌, length};

use crate::alike::Alike;
use crate::facts::{LabelFacts, SourceFacts, label_facts, source_at, source_facts};
use crate::frame::{push_age, push_interval, push_strip};
use crate::names::push_place;
use crate::rules::{push_slack, remedy, remedy_sought};
use crate::standing::Standing;
use crate::time::TickLength;
use dc_check::{CertificateList, Fitted};
use dc_margin::{MarginLine, label_lines};
use dc_page_text::Hole::{Digits, Number, Text, Thousandths, Times};
use dc_page_text::{Hole, Html, Unit};
use dc_tables::Tables;
use dc_word::Label;
use std::alloc::{AllocError, Global};

/// With more labels than this each is one row of a table, without drawings.
const MOST_DRAWN: usize = 64;

/// What the drawings of a label mean.
const LEGEND: &str =
    "<p class='s'>Of each label: when it is due in the frame. <span class='k g'></span>the interval that is wanted from one time to the next, and <span class='k a'></span>what the gaps and the delay make of it. <span class='k q'></span>how long a source stays fresh (stale), <span class='k a'></span>the longest delay before that, <span class='k m'></span>the age that is claimed, and <span class='k r'></span>its limit. In grey the same in milliseconds.</p>\n";

/// Adds the margin of a condition, and what to do where it is negative.
fn push_margin(html: &mut Html, line: MarginLine, facts: &LabelFacts) {
    html.add(if line.is_negative() {
        "<br/><b class='no'>&#10007; "
    } else {
        "<br/>"
    });
    html.add(line.condition.code());
    html.add(": ");
    push_slack(html, line, facts.tick);
    if line.is_negative() {
        html.add("</b><br/><span class='todo'>What to do: ");
        html.add(if facts.standing.is_sought() {
            remedy_sought(line.condition)
        } else {
            remedy(line.condition)
        });
        html.add("</span>")
    }
}

/// How often a label is due in the frame of its output.
fn times_of(tables: &Tables, label: usize) -> usize
    requires { label < length tables.now.labels }
{
    tables.valid();
    let mut times = 0usize;
    for entry in tables.output(tables.label(label).output).entries.as_slice() {
        times = times.saturating_add(usize::from(entry.label == label));
    }
    times
}

/// Adds where the label stands in its frame.
fn push_due(html: &mut Html, tables: &Tables, label: usize)
    requires { label < length tables.now.labels }
{
    tables.valid();
    let output = tables.output(tables.label(label).output);
    html.add("<div>");
    push_strip(html, output.entries.as_slice(), output.frame, Some(label));
    html.put("{} in ", &[Times(Unit::Entries, times_of(tables, label))]);
    html.show(TickLength::of(tables).span(output.frame));
    html.add("</div>\n")
}

/// Adds the label's interval where no window of its output closes.
fn push_gaps_alone(html: &mut Html, facts: &LabelFacts) {
    html.put(
        "<div>wanted {} to {} ticks; gaps {} to {}. No window of its output closes, so that it has no delay: C08 and C09 are not told.</div>\n",
        &[
            Number(u64::from(facts.minimum)),
            Number(u64::from(facts.maximum)),
            Number(facts.least_gap),
            Number(facts.greatest_gap),
        ],
    );
}

/// Adds the label's interval, with the margins of C08 and C09.
fn push_gaps(html: &mut Html, facts: &LabelFacts, soon: MarginLine, late: MarginLine) {
    if facts.has_no_delay() {
        return push_gaps_alone(html, facts);
    }
    let (minimum, maximum) = (u64::from(facts.minimum), u64::from(facts.maximum));
    let (least, greatest) = (facts.least_gap, facts.greatest_gap);
    let delay = u64::from(facts.output_delay);
    html.add("<div>");
    push_interval(html, facts);
    html.put(
        "wanted {} to {} ticks <small>({} to {} ms)</small>; gaps {} to {}, &#177; {} <small>({} to {}, &#177; {} ms)</small>",
        &[
            Number(minimum),
            Number(maximum),
            Thousandths(facts.tick.millis(minimum).0),
            Thousandths(facts.tick.millis(maximum).0),
            Number(least),
            Number(greatest),
            Number(delay),
            Thousandths(facts.tick.millis(least).0),
            Thousandths(facts.tick.millis(greatest).0),
            Thousandths(facts.tick.millis(delay).0),
        ],
    );
    push_margin(html, soon, facts);
    push_margin(html, late, facts);
    html.add("</div>\n")
}

/// Adds the label's age, with the margins of C10 and C11.
fn push_ages(html: &mut Html, facts: &LabelFacts, own: MarginLine, limit: MarginLine) {
    if facts.has_no_age() {
        return push_no_age(html, facts);
    }
    let (stale, delay) = (u64::from(facts.stale), u64::from(facts.slowest));
    html.add("<div>");
    push_age(html, facts);
    html.put(
        "stale {} + delay {} <small>({} + {} ms)</small>; age ",
        &[
            Number(stale),
            Number(delay),
            Thousandths(facts.tick.millis(stale).0),
            Thousandths(facts.tick.millis(delay).0),
        ],
    );
    html.show(facts.tick.age(facts.age));
    html.add(", limit ");
    html.show(facts.tick.span(facts.age_limit));
    push_margin(html, own, facts);
    push_margin(html, limit, facts);
    html.add("</div>\n")
}

/// Adds the longest time between two words of a source as they are taken, and by how much it stays fresh longer; less
/// where that is negative.
fn push_longest(html: &mut Html, facts: &SourceFacts, stale: u32) {
    let (delay, maximum) = (u64::from(facts.delay), u64::from(facts.maximum));
    let longest = delay.saturating_add(maximum);
    let stale = u64::from(stale);
    let slack = stale.abs_diff(longest);
    let sign = if stale < longest { "-" } else { "" };
    html.put("{} + {}, slack ", &[Number(delay), Number(maximum)]);
    html.add(sign);
    html.put(
        "{} <small>({} + {} ms)</small>",
        &[
            Number(slack),
            Thousandths(facts.tick.millis(delay).0),
            Thousandths(facts.tick.millis(maximum).0),
        ],
    );
}

/// Adds a label by its three octal digits.
fn push_octal(html: &mut Html, label: Label) {
    let number = u64::from(label.number());
    html.put(
        "{}{}{}",
        &[
            Digits(number / 64),
            Digits(number / 8 % 8),
            Digits(number % 8),
        ],
    );
}

/// Adds that a source has words of another label than those that leave, where it has.
fn push_other(html: &mut Html, own: Label, source: Label) {
    if own.number() != source.number() {
        html.add(" <b>label ");
        push_octal(html, source);
        html.add(", sent as ");
        push_octal(html, own);
        html.add("</b>")
    }
}

/// Adds of the first source of a label that has words of another label than those that leave, which it is.
fn push_first_other(html: &mut Html, fitted: &Fitted<'_>, label: usize)
    requires there { label < length fitted.now.tables.now.labels }
{
    let own = fitted.tables.label(label);
    for place in 0..own.sources.len() {
        let facts = source_facts(fitted, source_at(fitted.tables, label, place));
        if facts.label.number() != own.label.number() {
            return push_other(html, own.label, facts.label);
        }
    }
}

/// Adds a source of a label, of the time for which it is fresh.
fn push_source(html: &mut Html, fitted: &Fitted<'_>, label: usize, stream: usize)
    requires label { label < length fitted.now.tables.now.labels }
    requires there { stream < length fitted.now.tables.now.streams }
{
    let own = fitted.tables.label(label);
    let facts = source_facts(fitted, stream);
    html.add("<br/>");
    push_longest(html, &facts, own.stale);
    push_other(html, own.label, facts.label)
}

/// Adds the label's sources, with the margin of C12.
fn push_sources(
    html: &mut Html,
    fitted: &Fitted<'_>,
    facts: &LabelFacts,
    label: usize,
    fresh: MarginLine,
)
    requires there { label < length fitted.now.tables.now.labels }
{
    html.add("<div>delay + longest interval of each source, of ");
    html.show(facts.tick.span(facts.stale));
    for place in 0..fitted.tables.label(label).sources.len() {
        push_source(html, fitted, label, source_at(fitted.tables, label, place));
    }
    push_margin(html, fresh, facts);
    html.add("</div>\n")
}

/// Adds that a label has no age, where no window of one of its sources' buses closes.
fn push_no_age(html: &mut Html, facts: &LabelFacts) {
    html.put(
        "<div>stale {}, limit {}. No window of a source's bus closes, so that the label has no age: C10, C11 and C12 are not told.</div>\n",
        &[
            Number(u64::from(facts.stale)),
            Number(u64::from(facts.age_limit)),
        ],
    );
}

/// What the part on the label of this number shows below its name.
///
/// # Errors
/// `AllocError` where an allocation failed.
fn body_of(
    alloc: Global,
    fitted: &Fitted<'_>,
    label: usize,
    standing: Standing,
) -> Result<String, AllocError>
    requires there { label < length fitted.now.tables.now.labels }
{
    let facts = label_facts(fitted, label, standing);
    let [soon, late, age, age_limit, fresh] = label_lines(label, &facts.margins);
    let mut html = Html::new(alloc);
    html.add("<div class='g'>");
    push_due(&mut html, fitted.tables, label);
    push_gaps(&mut html, &facts, soon, late);
    push_ages(&mut html, &facts, age, age_limit);
    if !facts.has_no_age() {
        push_sources(&mut html, fitted, &facts, label, fresh);
    }
    html.add("</div></div>\n");
    html.end()
}

/// What the parts on all labels show.
///
/// # Errors
/// `AllocError` where an allocation failed.
fn bodies_of(alloc: Global, fitted: &Fitted<'_>, standing: Standing) -> Result<Alike, AllocError> {
    let mut alike = Alike::new(alloc);
    for label in 0..fitted.tables.label_count() {
        alike.take(body_of(alloc, fitted, label, standing)?)?;
    }
    Ok(alike)
}

/// Adds the name of a label, its output and its sources with their buses.
fn push_name(html: &mut Html, fitted: &Fitted<'_>, label: usize)
    requires there { label < length fitted.now.tables.now.labels }
{
    let tables = fitted.tables;
    push_place(html, tables, CertificateList::Labels, label);
    tables.valid();
    let output = *tables.output_name(tables.label(label).output);
    html.put(" <small>on {} from", &[Text(output.as_str())]);
    for place in 0..tables.label(label).sources.len() {
        let facts = source_facts(fitted, source_at(tables, label, place));
        html.put(
            " {} ({})",
            &[Text(facts.name.as_str()), Text(facts.bus.as_str())],
        );
    }
    html.add("</small>")
}

/// Adds the names of the labels that show the same.
fn push_names(html: &mut Html, fitted: &Fitted<'_>, alike: &Alike, place: usize) {
    html.add(if alike.count(place) == 1 {
        "<div class='l'><h4>Label "
    } else {
        "<div class='l'><h4>Labels that are alike: "
    });
    let mut is_first = true;
    for label in 0..fitted.tables.label_count() {
        if alike.shows(label, place) {
            html.add(if is_first { "" } else { ", " });
            push_name(html, fitted, label);
            is_first = false;
        }
    }
    html.add("</h4>")
}

/// Adds the parts on all labels, those that are alike as one.
///
/// # Errors
/// `AllocError` where an allocation failed.
fn push_drawn(
    alloc: Global,
    html: &mut Html,
    fitted: &Fitted<'_>,
    standing: Standing,
) -> Result<(), AllocError> {
    let alike = bodies_of(alloc, fitted, standing)?;
    html.add(LEGEND);
    for (place, body) in alike.bodies().iter().enumerate() {
        push_names(html, fitted, &alike, place);
        html.add(body.as_str());
    }
    Ok(())
}

/// Adds a cell with a margin: its number alone, marked where it is negative.
fn push_cell(html: &mut Html, line: MarginLine) {
    html.add(if line.is_negative() {
        "<td class='no'>&#10007; "
    } else {
        "<td>"
    });
    match line.margin {
        Some(margin) => match margin.slack {
            Some(slack) => {
                html.add(if slack < 0 { "-" } else { "" });
                html.put("{}", &[Number(slack.unsigned_abs())]);
            }
            None => html.add("none"),
        },
        None => html.add("-"),
    }
    html.add("</td>")
}

/// A number, or a dash where there is none.
fn known(number: u32, is_none: bool) -> Hole<'static> {
    if is_none {
        return Text("-");
    }
    Number(u64::from(number))
}

/// Adds the numbers of a label, in ticks.
fn push_numbers(html: &mut Html, facts: &LabelFacts) {
    html.put(
        "<td>{} to {}</td><td>{} to {} &#177; {}</td><td>{} + {}</td><td>{} of {}</td>",
        &[
            Number(u64::from(facts.minimum)),
            Number(u64::from(facts.maximum)),
            Number(facts.least_gap),
            Number(facts.greatest_gap),
            known(facts.output_delay, facts.has_no_delay()),
            Number(u64::from(facts.stale)),
            known(facts.slowest, facts.has_no_age()),
            known(facts.age, facts.has_no_age()),
            Number(u64::from(facts.age_limit)),
        ],
    );
}

/// Adds the row of a label.
fn push_row(html: &mut Html, fitted: &Fitted<'_>, label: usize, standing: Standing)
    requires there { label < length fitted.now.tables.now.labels }
{
    let facts = label_facts(fitted, label, standing);
    html.add("<tr><td>");
    push_place(html, fitted.tables, CertificateList::Labels, label);
    push_first_other(html, fitted, label);
    fitted.tables.valid();
    let output = *fitted.tables.output_name(fitted.tables.label(label).output);
    html.put("</td><td>{}</td>", &[Text(output.as_str())]);
    push_numbers(html, &facts);
    for line in &label_lines(label, &facts.margins) {
        push_cell(html, *line);
    }
    html.add("</tr>\n")
}

/// Adds a row for each label.
fn push_rows(html: &mut Html, fitted: &Fitted<'_>, standing: Standing) {
    html.add(
        "<p class='s'>All in ticks; behind the numbers the margins of the rules, what is to spare, with a cross where it is short.</p>\n<table class='rows'><thead><tr><th>Label</th><th>Output</th><th>Wanted</th><th>Gaps &#177; delay</th><th>Stale + delay</th><th>Age of limit</th><th>C08</th><th>C09</th><th>C10</th><th>C11</th><th>C12</th></tr></thead><tbody>\n",
    );
    for label in 0..fitted.tables.label_count() {
        push_row(html, fitted, label, standing);
    }
    html.add("</tbody></table>\n")
}

/// Adds the parts on all labels: of many each as a row.
///
/// # Errors
/// `AllocError` where an allocation failed.
pub fn push_labels(
    alloc: Global,
    html: &mut Html,
    fitted: &Fitted<'_>,
    standing: Standing,
) -> Result<(), AllocError> {
    html.add("<h2>Labels</h2>\n");
    if fitted.tables.label_count() <= MOST_DRAWN {
        return push_drawn(alloc, html, fitted, standing);
    }
    push_rows(html, fitted, standing);
    Ok(())
}
