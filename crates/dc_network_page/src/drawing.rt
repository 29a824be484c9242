//! The drawing of the network: boxes from left to right, and the links between them.

use crate::layout::{BOX_WIDTH, Layout, Line, SINKS, Slot};
use crate::shown::Shown;
use dc_page_text::Hole::{Digits, Number, Text, Thousandths, Times};
use dc_page_text::{Html, Unit};
use dc_system_text::LinkText;
use dc_tables::Tables;

/// Adds the curve of a link: it leaves and comes level, and sinks on its way where it passes a column.
fn push_curve(html: &mut Html, layout: &Layout, line: &Line) {
    let sinks = if line.passes { SINKS } else { 0 };
    let end_x = line.to_x.saturating_sub(layout.run);
    let bend = layout.bend.max(end_x.saturating_sub(line.from_x) / 4);
    html.put(
        "<path class='l' d='M{} {}C{} {} {} {} {} {}H{}m-7 -4l7 4l-7 4'>",
        &[
            Digits(line.from_x),
            Digits(line.from_y),
            Digits(line.from_x.saturating_add(bend)),
            Digits(line.from_y.saturating_add(sinks)),
            Digits(end_x.saturating_sub(bend)),
            Digits(line.to_y.saturating_add(sinks)),
            Digits(end_x),
            Digits(line.to_y),
            Digits(line.to_x),
        ],
    );
}

/// Adds what a link is called where one points at it.
fn push_title(html: &mut Html, link: &LinkText, number: usize) {
    html.put(
        "<title>link {}: {}.{} -&gt; {}.{}, {} to {} us</title></path>\n",
        &[
            Digits(number as u64),
            Text(link.from.concentrator.as_str()),
            Text(link.from.port.as_str()),
            Text(link.to.concentrator.as_str()),
            Text(link.to.port.as_str()),
            Number(u64::from(link.least_us)),
            Number(u64::from(link.most_us)),
        ],
    );
}

/// Adds the texts of a link, above and below its end.
fn push_texts(html: &mut Html, link: &LinkText, line: &Line) {
    let x = line.to_x.saturating_sub(10);
    html.put(
        "<text x='{}' y='{}' text-anchor='end'>{} -&gt; {}</text><text x='{}' y='{}' text-anchor='end'>{} to {} us</text>\n",
        &[
            Digits(x),
            Digits(line.to_y.saturating_sub(4)),
            Text(link.from.port.as_str()),
            Text(link.to.port.as_str()),
            Digits(x),
            Digits(line.to_y.saturating_add(11)),
            Number(u64::from(link.least_us)),
            Number(u64::from(link.most_us)),
        ],
    );
}

/// The link of this number, and where it is drawn.
fn drawn(shown: &Shown<'_>, layout: &Layout, number: usize) -> Option<(LinkText, Line)> {
    let connection = shown.connections.get(number)?;
    let link = shown.links.get(number).copied()?;
    let line = layout.line(connection, number)?;
    Some((link, line))
}

/// Adds all links, and above them their texts, where they have some.
fn push_links(html: &mut Html, shown: &Shown<'_>, layout: &Layout) {
    for number in 0..shown.connections.len() {
        if let Some((link, line)) = drawn(shown, layout, number) {
            push_curve(html, layout, &line);
            push_title(html, &link, number);
        }
    }
    if !layout.has_texts {
        return;
    }
    for number in 0..shown.connections.len() {
        if let Some((link, line)) = drawn(shown, layout, number) {
            push_texts(html, &link, &line);
        }
    }
}

/// Adds what stands in a box below its name: the tick, and how many parts the concentrator has.
fn push_counts(html: &mut Html, slot: &Slot, tables: &Tables) {
    let x = slot.x.saturating_add(10);
    html.put(
        "<text x='{}' y='{}'>tick {} ms</text><text x='{}' y='{}'>{}, {}</text><text x='{}' y='{}'>{}</text>\n",
        &[
            Digits(x),
            Digits(slot.y.saturating_add(36)),
            Thousandths(u64::from(tables.tick_us())),
            Digits(x),
            Digits(slot.y.saturating_add(51)),
            Times(Unit::Buses, tables.bus_count()),
            Times(Unit::Outputs, tables.output_count()),
            Digits(x),
            Digits(slot.y.saturating_add(66)),
            Times(Unit::Labels, tables.label_count()),
        ],
    );
}

/// Adds the box of a concentrator.
fn push_box(html: &mut Html, shown: &Shown<'_>, layout: &Layout, concentrator: usize) {
    let Some(slot) = layout.slot(concentrator) else {
        return;
    };
    let Some(tables) = shown.tables(concentrator) else {
        return;
    };
    html.put(
        "<rect class='box' x='{}' y='{}' width='{}' height='{}' rx='4'/><text class='name' x='{}' y='{}'>",
        &[
            Digits(slot.x),
            Digits(slot.y),
            Digits(BOX_WIDTH),
            Digits(slot.height),
            Digits(slot.x.saturating_add(10)),
            Digits(slot.y.saturating_add(20)),
        ],
    );
    shown.push_name(html, concentrator);
    html.add("</text>");
    push_counts(html, &slot, tables)
}

/// Adds the drawing, given the places of its boxes and links.
pub fn push_drawing(html: &mut Html, shown: &Shown<'_>, layout: &Layout) {
    let (width, height) = (Digits(layout.width), Digits(layout.height));
    html.add("<h2>The network</h2>\n<div class='");
    html.add(if layout.has_texts { "net few" } else { "net" });
    html.put(
        "'><svg viewBox='0 0 {} {}' width='{}' height='{}'>\n",
        &[width, height, width, height],
    );
    push_links(html, shown, layout);
    for concentrator in 0..shown.concentrators.len() {
        push_box(html, shown, layout, concentrator);
    }
    html.add("</svg></div>\n<p class='s'>Words go from left to right. ");
    html.add(if layout.has_texts {
        "At the end of each link stand its output, its bus and its latencies.</p>\n"
    } else {
        "Point at a link to see what it is; the table of links has them all.</p>\n"
    })
}
