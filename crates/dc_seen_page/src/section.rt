//! The whole section.

ghost use Rattle.dc_seen_page.specs.Rows.{AreSeenOf};

use crate::parts::{push_inputs, push_labels, push_outputs};
use crate::small::push_smalls;
use dc_cert::Certificate;
use dc_check::{Fitted, misnamed};
use dc_page_text::Hole::Thousandths;
use dc_page_text::Html;
use dc_seen::Seen;
use dc_tables::Tables;
use std::alloc::{AllocError, Global};

/// With more labels than this each has one small picture.
const MOST_DRAWN: usize = 64;

/// What the section shows, in words.
const HEAD: &str = "<h2 id='seen'>What was seen beside what is certified</h2>
<p class='s'>How near one run came to the numbers of the certificate, by the lines of <code>observe</code> that the page names. Backlogs are in words, all else in ticks of {} ms. <span class='k r'></span>the limit of the tables, where there is one: of a least interval what it may not fall below. <span class='k g'></span>the number of the certificate, where it has one. <span class='k a'></span>what was seen, with a cross where it is past one of these; where the certificate is accepted, no run that keeps budgets and sources is (law <code>observed_stay_within</code>). What was seen is no bound: another run may come nearer.</p>
";

/// What stands in its place where the certificate has other names.
const MISNAMED: &str =
    "<p>The certificate lists other inputs, outputs or labels than the tables: its numbers are not those of these, and what was seen has nothing beside it.</p>\n";

/// Adds the section to a page.
fn push_section(html: &mut Html, tables: &Tables, certificate: &Certificate, seen: &Seen)
    requires sized { AreSeenOf tables.now seen.now }
{
    html.put(HEAD, &[Thousandths(u64::from(tables.tick_us()))]);
    if misnamed(tables, certificate).is_some() {
        return html.add(MISNAMED);
    }
    let fitted = Fitted {
        tables,
        certificate,
    };
    push_inputs(html, &fitted, seen);
    push_outputs(html, &fitted, seen);
    if tables.label_count() <= MOST_DRAWN {
        return push_labels(html, &fitted, seen);
    }
    push_smalls(html, &fitted, seen)
}

/// The section of a page that shows what was seen of a run beside the certificate's numbers and the limits of the tables. No
/// clause says what stands in it: it is tested.
///
/// # Errors
/// `AllocError` where an allocation failed.
pub fn seen_section(
    alloc: Global,
    tables: &Tables,
    certificate: &Certificate,
    seen: &Seen,
) -> Result<String, AllocError>
    requires sized { AreSeenOf tables.now seen.now }
{
    let mut html = Html::new(alloc);
    push_section(&mut html, tables, certificate, seen);
    html.end()
}
