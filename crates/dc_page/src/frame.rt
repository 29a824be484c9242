//! The drawings of a label's place in its frame, and of its interval.

ghost use Rattle.std.specs.Prelude.{◌≤◌};

use crate::facts::LabelFacts;
use dc_page_text::Hole::Digits;
use dc_page_text::{Html, Tenths, share};
use dc_tables::Entry;

/// How wide a drawing of a label is, in the points of its picture.
const STRIP_WIDTH: u64 = 400;

/// Whether an entry is of the label; of all where none is named.
fn is_of_label(entry: Entry, label: Option<usize>) -> bool {
    match label {
        None => true,
        Some(label) => entry.label == label,
    }
}

/// Adds a frame with its due entries, all or those of one label. Entries that fall on one place are drawn once.
pub fn push_strip(html: &mut Html, entries: &[Entry], frame: u32, label: Option<usize>) {
    html.add(
        "<svg role='img' viewBox='-1 0 402 14'><title>when it is due in the frame</title><path class='e' d='",
    );
    let mut last = None;
    for entry in entries {
        if is_of_label(*entry, label) {
            let x = share(u64::from(entry.offset), u64::from(frame), STRIP_WIDTH);
            if last != Some(x) {
                html.put("M{} 1v12", &[Digits(x)]);
                last = Some(x);
            }
        }
    }
    html.add("'/></svg>")
}

/// How many ticks a drawing shows where the longest of its numbers is this one.
pub fn roomy(longest: u64) -> u64
    ensures { longest ≤ result }
{
    longest.saturating_add(longest / 10).saturating_add(1)
}

/// Where a number of ticks stands in a drawing of so many.
pub fn place(ticks: u64, span: u64) -> Tenths
    ensures { result.0 ≤ 4000 }
{
    Tenths(share(ticks, span, 10 * STRIP_WIDTH))
}

/// Adds a number of ticks as a place, behind a piece of a path.
fn push_place(html: &mut Html, piece: &str, ticks: u64, span: u64) {
    html.add(piece);
    html.show(place(ticks, span))
}

/// Adds the interval that is wanted of a label, and below it the gaps, each shorter or longer by the output's delay.
pub fn push_interval(html: &mut Html, facts: &LabelFacts) {
    let delay = u64::from(facts.output_delay);
    let latest = facts.greatest_gap.saturating_add(delay);
    let (minimum, maximum) = (u64::from(facts.minimum), u64::from(facts.maximum));
    let span = roomy(latest.max(maximum));
    html.add(
        "<svg role='img' viewBox='0 0 400 20'><title>the interval that is wanted, and what the gaps and the delay make of it</title><path class='b' d='M",
    );
    push_place(html, "", minimum, span);
    push_place(html, " 5H", maximum, span);
    html.add("'/><path class='d' d='M");
    push_place(html, "", facts.least_gap.saturating_sub(delay), span);
    push_place(html, " 15H", latest, span);
    html.add("'/>");
    for way in ["<path class='f' d='M", "<path d='M"] {
        push_place(html, way, facts.least_gap, span);
        push_place(html, " 11v8M", facts.greatest_gap, span);
        html.add(" 11v8'/>")
    }
    html.add("</svg>")
}

/// Adds the age of a label: the delay and the time for which a source is fresh, beside the age that is claimed and its
/// limit.
pub fn push_age(html: &mut Html, facts: &LabelFacts) {
    let stale = u64::from(facts.stale);
    let oldest = stale.saturating_add(u64::from(facts.slowest));
    let (age, limit) = (u64::from(facts.age), u64::from(facts.age_limit));
    let span = roomy(oldest.max(age).max(limit));
    html.add(
        "<svg role='img' viewBox='0 0 400 14'><title>stale and the longest delay, beside the age and its limit</title><path class='q' d='M0 7H",
    );
    push_place(html, "", stale, span);
    push_place(html, "'/><path class='o' d='M", stale, span);
    push_place(html, " 7H", oldest, span);
    push_place(html, "'/><path class='f' d='M", stale, span);
    push_place(html, " 1v12M", age, span);
    push_place(html, " 0v14M", limit, span);
    push_place(html, " 0v14'/><path d='M", age, span);
    push_place(html, " 0v14'/><path class='r' d='M", limit, span);
    html.add(" 0v14'/></svg>")
}
