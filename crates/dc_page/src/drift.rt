//! The section on clocks that drift.

use dc_document::Name;
use dc_page_text::Hole::{Number, Text};
use dc_page_text::{Html, Millionths};
use dc_tables::Tables;

/// What is kept where clocks drift, and what the tables say in its place, both in microseconds.
#[derive(Clone, Copy, Debug, PartialEq, Eq)]
pub struct Drifted {
    /// Under the drift.
    pub kept: u64,
    /// In the tables.
    pub written: u64,
}

/// Of the wire of a bus: the least time between two of its words.
#[derive(Clone, Copy, Debug, PartialEq, Eq)]
pub struct WireDrift {
    /// The name of the bus.
    pub name: Name,
    /// From the begin of a word to that of the next.
    pub spacing: Drifted,
}

/// Of a stream: the intervals between its words.
#[derive(Clone, Copy, Debug, PartialEq, Eq)]
pub struct SourceDrift {
    /// The name of the stream.
    pub name: Name,
    /// From one word to the next at least.
    pub least: Drifted,
    /// From one word to the next at most, where the source is to be live.
    pub most: Drifted,
    /// By how much words may come too soon.
    pub jitter: Drifted,
}

/// Of a label: the intervals between its words, and how old they are.
#[derive(Clone, Copy, Debug, PartialEq, Eq)]
pub struct LabelDrift {
    /// The name of the label.
    pub name: Name,
    /// From one word to the next more than this.
    pub least: Drifted,
    /// From one word to the next less than this.
    pub most: Drifted,
    /// Each word that leaves is younger than so many microseconds; `None` where that is not promised.
    pub age: Option<u64>,
}

/// What is kept where clocks drift by up to so many parts in a million, of wires, sources and labels in their order.
#[derive(Clone, Copy, Debug)]
pub struct Drift<'a> {
    /// Parts in a million: a tick is longer or shorter by at most so many.
    pub ppm: u32,
    /// Of each bus.
    pub wires: &'a [WireDrift],
    /// Of each stream.
    pub sources: &'a [SourceDrift],
    /// Of each label.
    pub labels: &'a [LabelDrift],
}

/// Adds a number that is kept, and in small the one that is written.
fn push_beside(html: &mut Html, number: Drifted) {
    html.put(
        "<td>{} <small>of {}</small></td>",
        &[Number(number.kept), Number(number.written)],
    );
}

/// Adds a name.
fn push_name(html: &mut Html, name: Name) {
    html.put("<tr><td>{}</td>", &[Text(name.as_str())]);
}

/// Adds what the tables of the section say, and how long a tick lasts.
fn push_words(html: &mut Html, ppm: u32, tick_us: u32) {
    let tick = u64::from(tick_us);
    let drift = tick.saturating_mul(u64::from(ppm));
    let exact = tick.saturating_mul(1_000_000);
    html.put(
        "<h2>Clocks that drift by up to {} ppm</h2>\n<p>Each tick lasts from ",
        &[Number(u64::from(ppm))],
    );
    html.show(Millionths(exact.saturating_sub(drift)));
    html.add(" to ");
    html.show(Millionths(exact.saturating_add(drift)));
    html.add(
        " microseconds. Wires and sources that keep the numbers below keep what the promises ask of them. <span class='s'>All in microseconds; behind &quot;of&quot; stands what the tables say, for clocks that do not drift.</span></p>\n",
    )
}

/// Adds the table of wires.
fn push_wires(html: &mut Html, wires: &[WireDrift]) {
    if wires.is_empty() {
        return;
    }
    html.add("<table><tr><th>Wire</th><th>From word to word at least</th></tr>\n");
    for wire in wires {
        push_name(html, wire.name);
        push_beside(html, wire.spacing);
        html.add("</tr>\n");
    }
    html.add("</table>\n")
}

/// Adds the table of sources.
fn push_sources(html: &mut Html, sources: &[SourceDrift]) {
    if sources.is_empty() {
        return;
    }
    html.add(
        "<table><tr><th>Source</th><th>From word to word at least</th><th>At most, to be live</th><th>Jitter</th></tr>\n",
    );
    for source in sources {
        push_name(html, source.name);
        push_beside(html, source.least);
        push_beside(html, source.most);
        push_beside(html, source.jitter);
        html.add("</tr>\n");
    }
    html.add("</table>\n")
}

/// Adds the table of labels: how young the words of each are, or that it is not promised.
fn push_labels(html: &mut Html, labels: &[LabelDrift]) {
    if labels.is_empty() {
        return;
    }
    html.add(
        "<p>Then each label keeps these:</p>\n<table><tr><th>Label</th><th>From word to word more than</th><th>Less than</th><th>Age under</th></tr>\n",
    );
    for label in labels {
        push_name(html, label.name);
        push_beside(html, label.least);
        push_beside(html, label.most);
        match label.age {
            None => html.add("<td>-</td></tr>\n"),
            Some(age) => html.put("<td>{}</td></tr>\n", &[Number(age)]),
        }
    }
    html.add("</table>\n")
}

/// Adds the section; of labels something is promised where the certificate is accepted.
pub fn push_drift(html: &mut Html, tables: &Tables, drift: &Drift<'_>, is_accepted: bool) {
    push_words(html, drift.ppm, tables.tick_us());
    push_wires(html, drift.wires);
    push_sources(html, drift.sources);
    if is_accepted {
        push_labels(html, drift.labels)
    }
}
