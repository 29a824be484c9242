//! The verdict, in one sentence.

use crate::names::{member, push_member};
use crate::rules::{asks, remedy};
use crate::time::TickLength;
use dc_check::{CheckFault, Condition};
use dc_find::FindFault;
use dc_page_text::Hole::{Number, Thousandths, Times};
use dc_page_text::{Html, Unit};
use dc_tables::Tables;

/// Adds that the certificate is accepted.
pub fn push_accepted(html: &mut Html, tables: &Tables) {
    html.put(
        "<div class='verdict'><p><b>Accepted:</b> the certificate keeps every rule for these tables, with {}, {} and {}.",
        &[
            Times(Unit::Inputs, tables.bus_count()),
            Times(Unit::Outputs, tables.output_count()),
            Times(Unit::Labels, tables.label_count()),
        ],
    );
}

/// Adds where the certificate fails.
fn push_fault(html: &mut Html, tables: &Tables, fault: CheckFault) {
    if matches!(fault.condition, Condition::NamesDiffer) {
        html.add("the ");
        html.add(member(fault.list));
        return html.add("s");
    }
    push_member(html, tables, fault.list, fault.index);
    if fault.window == 0 {
        return;
    }
    let window = u64::from(fault.window);
    html.put(
        ", first at w = {} <small>({} ms)</small>",
        &[
            Number(window),
            Thousandths(TickLength::of(tables).millis(window).0),
        ],
    );
}

/// Adds that the certificate is refused, by which rule, and what to do.
pub fn push_refused(html: &mut Html, tables: &Tables, fault: CheckFault) {
    html.add("<div class='verdict no'><p><b>&#10007; Refused by ");
    html.add(fault.condition.code());
    html.add(" at ");
    push_fault(html, tables, fault);
    html.add(".</b> It asks that ");
    html.add(asks(fault.condition));
    html.add(". Nothing is promised.</p><p class='todo'>What to do: ");
    html.add(remedy(fault.condition));
    html.add("</p><p>")
}

/// That no certificate is accepted, up to the line of what stands first in the way of one.
pub const SOUGHT: &str =
    "<div class='verdict no'><p><b>&#10007; No certificate is accepted: <code>";

/// Adds behind that line what it says.
pub fn push_sought(html: &mut Html, fault: FindFault) {
    html.add("</code>.</b> ");
    match fault {
        FindFault::WindowNeverCloses(_) => {
            html.add("No window of 1 to 100,000 ticks closes there")
        }
        FindFault::QueueTooShort(_) => html.add("More words may wait there than the queue holds"),
        FindFault::LabelRule(_, condition) => {
            html.add(
                "Whatever is accepted of the inputs and outputs, a rule fails there that asks that ",
            );
            html.add(asks(condition))
        }
        FindFault::Memory => {}
    }
    html.add(". Nothing is promised.</p><p>")
}
