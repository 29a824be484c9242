//! How near the certificate came: of each input, output and label the tightest margin, the tightest first.

use crate::names::{push_link, push_member};
use crate::rules::{asks, push_code, push_slack};
use crate::standing::Standing;
use crate::tight::Tight;
use crate::time::TickLength;
use dc_page_text::Hole::{Number, Text, Thousandths};
use dc_page_text::Html;
use dc_tables::Tables;

/// What the summary shows, in words.
const WORDS: &str =
    "How far each input, output and label is from failing, all else left as it is: of its rules the one with the least to spare, the tightest first. The margins of C02, C03, C04, C06, C07 and C10 are of numbers that the certificate may write greater, of a least certificate 0 by its making: they stand here only where they fail or there is no other, and with all others in the parts below.";

/// The same where no certificate is accepted.
const WORDS_SOUGHT: &str =
    "Of each input, output and label, by the least numbers that were found of it, the rule that fails by most, or that has the least to spare: what fails first. Where no window closes there is no backlog, no delay and no age, and the rules that rest on them are not told.";

/// Adds a row.
fn push_row(html: &mut Html, tables: &Tables, tight: &Tight) {
    let tick = TickLength::of(tables);
    push_code(html, tight.line);
    html.add("</td><td>");
    push_link(html, tables, tight.list, tight.index);
    html.add("</td><td class='n'>");
    push_slack(html, tight.line, tick);
    html.add("</td><td>");
    html.add(asks(tight.line.condition));
    html.add("</td></tr>\n")
}

/// Adds the summary of these, the tightest of which is the first.
pub fn push_summary(html: &mut Html, tables: &Tables, all: &[Tight], standing: Standing) {
    let length = Thousandths(TickLength::of(tables).millis(1).0);
    let (title, words) = if standing.is_sought() {
        ("What fails, and how near the rest is", WORDS_SOUGHT)
    } else {
        ("How near it came", WORDS)
    };
    html.put(
        "<h2>{}</h2>\n<p class='s'>One tick is {} ms. ",
        &[Text(title), length],
    );
    html.add(words);
    html.add(
        "</p>\n<table class='sum'><thead><tr><th>Rule</th><th>Of</th><th>Margin</th><th>What it asks</th></tr></thead><tbody>\n",
    );
    for tight in all {
        push_row(html, tables, tight);
    }
    html.add("</tbody></table>\n")
}

/// Adds how many inputs, outputs and labels fail, and which is the first in the summary, in a sentence.
pub fn push_failing(html: &mut Html, tables: &Tables, all: &[Tight]) {
    let Some(first) = all.first() else {
        return;
    };
    let mut count = 0u64;
    for tight in all {
        count = count.saturating_add(u64::from(tight.line.is_negative()));
    }
    html.put(
        "Of {} inputs, outputs and labels {} {}, by most ",
        &[
            Number(all.len() as u64),
            Number(count),
            Text(if count == 1 { "fails" } else { "fail" }),
        ],
    );
    push_member(html, tables, first.list, first.index);
    html.add(", of which ");
    html.add(first.line.condition.code());
    html.add(" is ");
    push_slack(html, first.line, TickLength::of(tables));
    html.add(".")
}

/// Adds which margin is the tightest of all, in a sentence.
pub fn push_tightest(html: &mut Html, tables: &Tables, all: &[Tight]) {
    let Some(tight) = all.first() else {
        return;
    };
    html.add(" Nearest to failing is ");
    push_member(html, tables, tight.list, tight.index);
    html.add(", of which ");
    html.add(tight.line.condition.code());
    html.add(" has ");
    push_slack(html, tight.line, TickLength::of(tables));
    html.add(".")
}
