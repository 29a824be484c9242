//! Many labels, each in a small picture of its own.

ghost use Rattle.std.specs.Prelude.{◌<◌, length};
ghost use Rattle.dc_seen_page.specs.Rows.{AreSeenOf};

use crate::beside::{LabelBeside, label_beside};
use crate::drawing::{mark, or_zero, place, roomy};
use dc_check::Fitted;
use dc_page_text::Hole::{Digits, Number, Text};
use dc_page_text::{Hole, Html};
use dc_seen::Seen;

/// A number, or a dash where there is none.
fn known(number: Option<u64>) -> Hole<'static> {
    match number {
        Some(number) => Number(number),
        None => Text("-"),
    }
}

/// Adds the numbers of a label in words, each before its limit.
fn push_words(html: &mut Html, beside: &LabelBeside) {
    html.put(
        "age {} of {}, limit {}; intervals {} to {}, limits {} to {}",
        &[
            known(beside.seen.age),
            Number(u64::from(beside.age)),
            Number(u64::from(beside.age_limit)),
            known(beside.seen.least),
            Number(beside.seen.greatest),
            Number(u64::from(beside.minimum)),
            Number(u64::from(beside.maximum)),
        ],
    );
}

/// Adds the bars of a label: below one another those of its age, of its least interval and of its greatest one.
fn push_bars(html: &mut Html, beside: &LabelBeside) {
    let (age, limit) = (u64::from(beside.age), u64::from(beside.age_limit));
    let (minimum, maximum) = (u64::from(beside.minimum), u64::from(beside.maximum));
    let ages = roomy(beside.age().longest());
    let intervals = roomy(beside.least().longest().max(beside.greatest().longest()));
    html.put(
        "<path class='r' d='M0 2H{}M0 29H{}M0 46H{}'/><path class='b' d='M0 9H{}'/><path class='d' d='M0 19H{}M0 36H{}M0 53H{}'/></svg>",
        &[
            Digits(place(limit, ages)),
            Digits(place(minimum, intervals)),
            Digits(place(maximum, intervals)),
            Digits(place(age, ages)),
            Digits(place(or_zero(beside.seen.age), ages)),
            Digits(place(or_zero(beside.seen.least), intervals)),
            Digits(place(beside.seen.greatest, intervals)),
        ],
    );
}

/// Adds how often a label was sent.
fn push_sent(html: &mut Html, beside: &LabelBeside) {
    html.put(
        "; sent {}, fallback {}</div>\n",
        &[Number(beside.seen.sent), Number(beside.seen.fallback)],
    );
}

/// Whether a number of a label is past what bounds it.
fn is_past(beside: &LabelBeside) -> bool {
    beside.age().is_past() || beside.least().is_past() || beside.greatest().is_past()
}

/// Adds the label of this number.
fn push_small(html: &mut Html, fitted: &Fitted<'_>, seen: &Seen, label: usize)
    requires there { label < length fitted.now.tables.now.labels }
    requires sized { AreSeenOf fitted.now.tables.now seen.now }
{
    let name = *fitted.tables.label_name(label);
    let beside = label_beside(fitted, seen, label);
    html.put(
        "<div><svg role='img' viewBox='0 0 400 58'><title>label {}</title><desc>",
        &[Text(name.as_str())],
    );
    push_words(html, &beside);
    html.add("</desc>");
    push_bars(html, &beside);
    html.add(mark(is_past(&beside)));
    html.put("{}</b> ", &[Text(name.as_str())]);
    push_words(html, &beside);
    push_sent(html, &beside)
}

/// Adds all labels.
pub fn push_smalls(html: &mut Html, fitted: &Fitted<'_>, seen: &Seen)
    requires sized { AreSeenOf fitted.now.tables.now seen.now }
{
    html.add("<h4>Labels: age, least and greatest interval</h4><div class='g'>\n");
    for label in 0..fitted.tables.label_count() {
        push_small(html, fitted, seen, label);
    }
    html.add("</div>\n")
}
