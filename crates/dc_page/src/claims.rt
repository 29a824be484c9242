//! What an accepted certificate promises, in the words of the clauses with its numbers.

ghost use Rattle.std.specs.Prelude.{◌<◌, length};

use crate::facts::source_at;
use crate::time::TickLength;
use dc_check::Fitted;
use dc_page_text::Hole::{Number, Text, Thousandths};
use dc_page_text::Html;
use dc_tables::Tables;

/// How many of a kind are named in a claim.
const NAMED: usize = 4;

/// What is asked, and that where it breaks nothing is promised any more.
const PREMISES: &str = "<h2>What is promised</h2>
<p>In every run that keeps what is asked here, at each event (clause <code>claims</code> of <code>check</code>, docs/headline.md):</p>
<ul>
<li>of sources on buses that are not policed: none sends sooner than its interval and jitter let it, and no wire brings words closer than its speed lets it; silence is allowed. Of policed buses nothing: the concentrator refuses early words</li>
<li>of routers and outputs: at least <code>steps</code> steps in any <code>within</code> whole ticks on end; of a router at most <code>most</code> in one tick; of an output that it sends at least its gap apart</li>
<li>of the concentrator: that it works by docs/definitions.md</li>
</ul>
<p>From where this is broken nothing is promised.</p>
<ol>
";

/// What holds besides, by a clock and of the certificate's own numbers.
const BESIDES: &str = "</ol>
<p class='s'>By the law <code>numbers</code>, too: each queue is empty again within its window, never has more than its backlog, and gives a word within its delay, as the parts below say (docs/headline.md). The times in milliseconds are those of clocks that do not drift.</p>
";

/// Adds what parts one from the next, or the end of the claim.
fn push_between(html: &mut Html, place: usize) {
    html.add(if place == 0 { " " } else { "; " })
}

/// Adds the end of a claim, and that it is of the others too where not all are named.
fn push_end(html: &mut Html, count: usize) {
    html.add(if count > NAMED {
        "; and so on: the others stand below.</li>\n"
    } else {
        ".</li>\n"
    })
}

/// Adds the claim on receive queues.
fn push_queues(html: &mut Html, fitted: &Fitted<'_>) {
    html.add("<li><b>No receive queue overruns:</b>");
    for bus in 0..fitted.tables.bus_count().min(NAMED) {
        push_between(html, bus);
        html.put(
            "at most {} of {} places of {} are ever taken",
            &[
                Number(u64::from(fitted.certificate.inputs[bus].backlog)),
                Number(u64::from(fitted.tables.queue(bus))),
                Text(fitted.tables.bus_name(bus).as_str()),
            ],
        );
    }
    push_end(html, fitted.tables.bus_count())
}

/// Adds the claim on the age of words.
fn push_ages(html: &mut Html, fitted: &Fitted<'_>) {
    html.add(
        "<li><b>No old word leaves:</b> a word that leaves is marked as no computed data, or copies one that came at most so long before:",
    );
    let tick = TickLength::of(fitted.tables);
    for label in 0..fitted.tables.label_count().min(NAMED) {
        push_between(html, label);
        html.show(tick.age(fitted.certificate.labels[label].age));
        html.put(
            " of label {}",
            &[Text(fitted.tables.label_name(label).as_str())],
        );
    }
    push_end(html, fitted.tables.label_count())
}

/// Adds the first source of a label, and how long it stays fresh.
fn push_first(html: &mut Html, tables: &Tables, label: usize)
    requires there { label < length tables.now.labels }
{
    tables.valid();
    let stream = source_at(tables, label, 0);
    html.put(
        "{} of label {}, looked at over ",
        &[
            Text(tables.stream_name(stream).as_str()),
            Text(tables.label_name(label).as_str()),
        ],
    );
    html.show(TickLength::of(tables).span(tables.label(label).stale))
}

/// Adds the claim on live sources.
fn push_sources(html: &mut Html, tables: &Tables) {
    html.add(
        "<li><b>A live source is used:</b> where the first source of a label has kept sending usable words, it is the one that is copied, and where any of its sources has, the word that leaves is usable. First sources:",
    );
    for label in 0..tables.label_count().min(NAMED) {
        push_between(html, label);
        push_first(html, tables, label);
    }
    push_end(html, tables.label_count())
}

/// Adds the interval of a label: in microseconds each end is a tick further, since a word may leave early or late in its
/// tick.
fn push_interval(html: &mut Html, tables: &Tables, label: usize)
    requires there { label < length tables.now.labels }
{
    let row = tables.label(label);
    let tick = TickLength::of(tables);
    let (minimum, maximum) = (u64::from(row.minimum), u64::from(row.maximum));
    html.put(
        "label {} leaves at least {} and at most {} ticks after its last time <small>(more than {} and under {} ms)</small>",
        &[
            Text(tables.label_name(label).as_str()),
            Number(minimum),
            Number(maximum),
            Thousandths(tick.millis(minimum.saturating_sub(1)).0),
            Thousandths(tick.millis(maximum.saturating_add(1)).0),
        ],
    );
}

/// Adds the claim on intervals.
fn push_intervals(html: &mut Html, tables: &Tables) {
    html.add("<li><b>Each label keeps its interval:</b>");
    for label in 0..tables.label_count().min(NAMED) {
        push_between(html, label);
        push_interval(html, tables, label);
    }
    push_end(html, tables.label_count())
}

/// Adds the four claims with what they rest on.
pub fn push_claims(html: &mut Html, fitted: &Fitted<'_>) {
    html.add(PREMISES);
    push_queues(html, fitted);
    push_ages(html, fitted);
    push_sources(html, fitted.tables);
    push_intervals(html, fitted.tables);
    html.add(BESIDES)
}
