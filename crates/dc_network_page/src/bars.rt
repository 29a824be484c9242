//! The longest ways as bars on one scale, each made of its stays and links.

use crate::parts::{Part, Parts};
use crate::shown::Shown;
use dc_page_text::Hole::{Digits, Hundredths, Number, Text, Thousandths};
use dc_page_text::{Html, round_step, share};
use std::alloc::Global;

/// How many ways are drawn.
pub const MOST_BARS: usize = 16;

/// The length of the scale, in hundredths of a percent.
const WHOLE: u64 = 10_000;

/// What a way is made of.
const WHAT_A_WAY_IS: &str =
    "<p class='s'>A way is the longest that data can be under way, from the bus on which they come in to the
wire on which they leave: each stay is the label's age and one tick more, each link its greatest latency. All in microseconds.</p>
";

/// A bar that is drawn from left to right: how far it has come, and how long the scale is, in microseconds.
#[derive(Clone, Copy)]
struct Pen {
    at: u64,
    scale: u64,
}

impl Pen {
    /// Goes on by so many microseconds: how far that is on the scale.
    fn step(&mut self, us: u64) -> u64 {
        let begin = share(self.at, self.scale, WHOLE);
        self.at = self.at.saturating_add(us);
        share(self.at, self.scale, WHOLE).saturating_sub(begin)
    }
}

/// Adds the stays of a way, the last one of which is the first in the list, and passes over its links.
fn push_stays(html: &mut Html, stays: &[Part], scale: u64) {
    let mut pen = Pen { at: 0, scale };
    html.add("<path class='in' d='M0 7");
    for part in stays.iter().rev() {
        if let Some(feed) = part.before {
            html.put("m{} 0", &[Digits(pen.step(feed.latency))]);
        }
        html.put("h{}", &[Digits(pen.step(part.stay))]);
    }
    html.add("'/>")
}

/// Adds the links of a way, and passes over its stays.
fn push_latencies(html: &mut Html, stays: &[Part], scale: u64) {
    let mut pen = Pen { at: 0, scale };
    html.add("<path class='on' d='M0 7");
    for part in stays.iter().rev() {
        if let Some(feed) = part.before {
            html.put("h{}", &[Digits(pen.step(feed.latency))]);
        }
        html.put("m{} 0", &[Digits(pen.step(part.stay))]);
    }
    html.add("'/>")
}

/// Adds the parts of a way in words, given its stays, the last one first.
fn push_words(html: &mut Html, shown: &Shown<'_>, stays: &[Part]) {
    html.add("</svg>\n<p class='s'>");
    for part in stays.iter().rev() {
        if let Some(feed) = part.before {
            let (link, latency) = (Digits(feed.link as u64), Number(feed.latency));
            html.put(" + link {} {} + ", &[link, latency]);
        }
        shown.push_name(html, part.concentrator);
        html.put(" {}", &[Number(part.stay)]);
    }
    html.add("</p></div>\n")
}

/// Adds the bar of a way.
fn push_bar(
    alloc: Global,
    html: &mut Html,
    shown: &Shown<'_>,
    parts: &Parts,
    part: Part,
    scale: u64,
) {
    html.add("<div class='bar'><p><b>");
    shown.push_name(html, part.concentrator);
    html.put(
        ".{}</b> {} us</p>\n<svg viewBox='0 0 {} 14' preserveAspectRatio='none'>",
        &[Text(part.name.as_str()), Number(part.way), Digits(WHOLE)],
    );
    match parts.stays(alloc, part) {
        Ok(stays) => {
            push_stays(html, stays.as_slice(), scale);
            push_latencies(html, stays.as_slice(), scale);
            push_words(html, shown, stays.as_slice());
        }
        Err(error) => html.lose(error),
    }
}

/// Adds the scale of the bars.
fn push_scale(html: &mut Html, scale: u64) {
    html.add("<div class='bar'><svg>");
    let step = round_step(scale, 4).max(1);
    for place in 0..(scale / step).min(5).saturating_add(1) {
        let us = place.saturating_mul(step);
        let x = Hundredths(share(us, scale, WHOLE));
        html.put("<text x='{}%' y='12' text-anchor='", &[x]);
        html.add(if place == 0 { "start" } else { "middle" });
        html.put("'>{} ms</text>", &[Thousandths(us)]);
    }
    html.add("</svg></div>\n")
}

/// Adds the bars of these ways, the longest of which is the first.
pub fn push_bars(
    alloc: Global,
    html: &mut Html,
    shown: &Shown<'_>,
    parts: &Parts,
    longest: &[Part],
) {
    let scale = match longest.first() {
        Some(part) => part.way,
        None => 0,
    };
    html.add(
        "<h2>The longest ways</h2>\n<p class='s'><span class='k t'></span>in a concentrator<br/><span class='k l'></span>on a link</p>\n",
    );
    push_scale(html, scale);
    for part in longest {
        push_bar(alloc, html, shown, parts, *part, scale);
    }
    html.add(WHAT_A_WAY_IS)
}
