//! The table of links.

use crate::feeds::Feeds;
use crate::shown::Shown;
use dc_page_text::Hole::{Digits, Number, Text};
use dc_page_text::Html;
use dc_system_text::LinkText;

/// Adds the row of a link that feeds so many streams.
fn push_link(html: &mut Html, link: &LinkText, number: usize, fed: u64) {
    html.put(
        "<tr><td>{}</td><td>{}.{}</td><td>{}.{}</td><td>{}</td><td>{}</td><td>{}</td></tr>\n",
        &[
            Digits(number as u64),
            Text(link.from.concentrator.as_str()),
            Text(link.from.port.as_str()),
            Text(link.to.concentrator.as_str()),
            Text(link.to.port.as_str()),
            Number(u64::from(link.least_us)),
            Number(u64::from(link.most_us)),
            Number(fed),
        ],
    );
}

/// Adds the table of links.
pub fn push_links(html: &mut Html, shown: &Shown<'_>, feeds: &Feeds) {
    html.add("<h2>The links</h2>\n");
    if shown.links.is_empty() {
        return html.add("<p>There are none.</p>\n");
    }
    html.add(
        "<div class='wide'><table><tr><th>Link</th><th>From the output</th><th>To the bus</th><th>Least us</th><th>Most us</th><th>Streams it feeds</th></tr>\n",
    );
    for (number, link) in shown.links.iter().enumerate() {
        push_link(html, link, number, feeds.fed_by(shown, number));
    }
    html.add("</table></div>\n")
}
