//! The verdict, in words.

use crate::parts::{Part, Parts};
use crate::shown::Shown;
use dc_page_text::Hole::{Number, Text, Thousandths, Times};
use dc_page_text::{Html, Unit};

/// Adds the longest way.
fn push_longest(html: &mut Html, shown: &Shown<'_>, part: &Part) {
    html.add("<p>The longest way is that of ");
    shown.push_name(html, part.concentrator);
    html.put(
        ".{}: <b>{} us</b> <small>({} ms)</small>.</p>",
        &[
            Text(part.name.as_str()),
            Number(part.way),
            Thousandths(part.way),
        ],
    );
}

/// Adds that the network is accepted, and its longest way, given the longest ones.
pub fn push_verdict(html: &mut Html, shown: &Shown<'_>, parts: &Parts, longest: &[Part]) {
    html.put(
        "<div class='verdict'><p><b>Accepted:</b> {}, {}, {}. Each certificate is accepted, and each link fits.</p>",
        &[
            Times(Unit::Concentrators, shown.concentrators.len()),
            Times(Unit::Links, shown.links.len()),
            Times(Unit::Labels, parts.all().len()),
        ],
    );
    if let Some(part) = longest.first() {
        push_longest(html, shown, part);
    }
    html.add("</div>\n")
}
