//! The parts of the page on single concentrators.

use crate::layout::Layout;
use crate::parts::{Part, Parts, longest};
use crate::shown::Shown;
use dc_page_text::Hole::{Digits, Number, Text, Thousandths, Times};
use dc_page_text::{Html, Unit};
use dc_system_text::ConcentratorText;
use dc_tables::Tables;
use std::alloc::Global;

/// How many rows the tables of labels have, all together.
const MOST_ROWS: usize = 6_144;

/// The heading of all parts, and what their tables show.
const INTRODUCTION: &str = "<h2>The concentrators</h2>
<p class='s'>Times of labels are in microseconds. The last column says for how long the oldest words of a label can be under way when
they come in, of which label of the concentrator before they are and over which link they come; where nothing stands, no link brings
them.</p>
";

/// Adds the name of a concentrator and its files.
fn push_files(html: &mut Html, concentrator: &ConcentratorText) {
    let name = concentrator.name();
    html.put(
        "<div class='card'><h3>{}</h3><p>Tables <code>{}</code>, certificate <code>{}</code>. ",
        &[
            Text(name.as_str()),
            Text(concentrator.tables()),
            Text(concentrator.certificate()),
        ],
    );
}

/// Adds how long a tick is, how many parts a concentrator has, and how many links come in and go out.
fn push_counts(html: &mut Html, tables: &Tables, degrees: (u64, u64)) {
    html.put(
        "One tick is {} us. {} with {}, {}, {} with {}. Links that come in: {}, that go out: {}.</p>\n",
        &[
            Number(u64::from(tables.tick_us())),
            Times(Unit::Buses, tables.bus_count()),
            Times(Unit::Streams, tables.stream_count()),
            Times(Unit::Routers, tables.router_count()),
            Times(Unit::Outputs, tables.output_count()),
            Times(Unit::Labels, tables.label_count()),
            Digits(degrees.0),
            Digits(degrees.1),
        ],
    );
}

/// The longest stay of these labels.
fn longest_stay(parts: &[Part]) -> u64 {
    let mut most: u64 = 0;
    for part in parts {
        most = part.stay.max(most);
    }
    most
}

/// Adds the claims in short.
fn push_claims(html: &mut Html, parts: &[Part]) {
    html.put(
        "<p>No receive queue overruns; a word that leaves is no computed data, or copies one that came in less than {} ms before; each label keeps its interval.</p>\n",
        &[Thousandths(longest_stay(parts))],
    );
}

/// Adds what comes before a label: the words of another one, over a link.
fn push_before(html: &mut Html, parts: &Parts, part: &Part) {
    let Some(feed) = part.before else {
        return;
    };
    let Some(earlier) = parts.behind(feed) else {
        return;
    };
    html.put(
        "{}: {}, link {}",
        &[
            Number(feed.us),
            Text(earlier.name.as_str()),
            Digits(feed.link as u64),
        ],
    );
}

/// Adds the rows of these labels.
fn push_rows(html: &mut Html, parts: &Parts, rows: &[Part]) {
    html.add("<table><tr><th>Label</th><th>Way</th><th>Stay here</th><th>Before it</th></tr>\n");
    for part in rows {
        html.put(
            "<tr><td>{}</td><td>{}</td><td>{}</td><td>",
            &[
                Text(part.name.as_str()),
                Number(part.way),
                Number(part.stay),
            ],
        );
        push_before(html, parts, part);
        html.add("</td></tr>\n");
    }
    html.add("</table>\n")
}

/// Adds the ways of a concentrator's labels: in their order where there are at most so many, else so many of the
/// longest.
fn push_ways(alloc: Global, html: &mut Html, parts: &Parts, own: &[Part], most: usize) {
    if own.len() <= most {
        return push_rows(html, parts, own);
    }
    match longest(alloc, own, most) {
        Ok(longest) => push_rows(html, parts, longest.as_slice()),
        Err(error) => html.lose(error),
    }
    html.put(
        "<p class='s'>{} more, none of them longer, are left out here; dc429 network prints all.</p>\n",
        &[Number(own.len().saturating_sub(most) as u64)],
    );
}

/// Adds the part on one concentrator, with at most so many rows.
fn push_section(
    alloc: Global,
    html: &mut Html,
    shown: &Shown<'_>,
    layout: &Layout,
    parts: &Parts,
    concentrator: usize,
    most: usize,
) {
    let Some(row) = shown.concentrators.get(concentrator) else {
        return;
    };
    let Some(tables) = shown.tables(concentrator) else {
        return;
    };
    push_files(html, row);
    push_counts(html, tables, layout.degrees(concentrator));
    let own = parts.of_concentrator(concentrator);
    push_claims(html, own);
    push_ways(alloc, html, parts, own, most);
    html.add("</div>\n")
}

/// Adds the parts on all concentrators.
pub fn push_sections(
    alloc: Global,
    html: &mut Html,
    shown: &Shown<'_>,
    layout: &Layout,
    parts: &Parts,
) {
    let count = shown.concentrators.len();
    let most = MOST_ROWS / count.max(1);
    html.add(INTRODUCTION);
    for concentrator in 0..count {
        push_section(alloc, html, shown, layout, parts, concentrator, most);
    }
}
