//! The parts on inputs, outputs and labels.

ghost use Rattle.std.specs.Prelude.{◌<◌, length};
ghost use Rattle.dc_seen_page.specs.Rows.{AreSeenOf};

use crate::beside::{input_beside, label_beside, output_beside};
use crate::drawing::push_number;
use dc_check::Fitted;
use dc_page_text::Hole::{Number, Text};
use dc_page_text::Html;
use dc_seen::Seen;

/// Adds the head of a part: what it is on, and its name.
fn push_head(html: &mut Html, kind: &str, name: &str) {
    html.put(
        "<div class='l'><h4>{} {}</h4><div class='g'>\n",
        &[Text(kind), Text(name)],
    );
}

/// What ends a part.
const FOOT: &str = "</div></div>\n";

/// Adds the part on the input of this number.
fn push_input(html: &mut Html, fitted: &Fitted<'_>, seen: &Seen, bus: usize)
    requires there { bus < length fitted.now.tables.now.buses }
    requires sized { AreSeenOf fitted.now.tables.now seen.now }
{
    let name = *fitted.tables.bus_name(bus);
    let beside = input_beside(fitted, seen, bus);
    push_head(html, "Input", name.as_str());
    push_number(html, "backlog", name.as_str(), &beside.backlog());
    push_number(html, "wait", name.as_str(), &beside.wait());
    html.add(FOOT)
}

/// Adds the part on the output of this number.
fn push_output(html: &mut Html, fitted: &Fitted<'_>, seen: &Seen, output: usize)
    requires there { output < length fitted.now.tables.now.outputs }
    requires sized { AreSeenOf fitted.now.tables.now seen.now }
{
    let name = *fitted.tables.output_name(output);
    let beside = output_beside(fitted, seen, output);
    push_head(html, "Output", name.as_str());
    push_number(html, "late", name.as_str(), &beside.late());
    html.add(FOOT)
}

/// Adds the part on the label of this number.
fn push_label(html: &mut Html, fitted: &Fitted<'_>, seen: &Seen, label: usize)
    requires there { label < length fitted.now.tables.now.labels }
    requires sized { AreSeenOf fitted.now.tables.now seen.now }
{
    let name = *fitted.tables.label_name(label);
    let beside = label_beside(fitted, seen, label);
    push_head(html, "Label", name.as_str());
    push_number(html, "age", name.as_str(), &beside.age());
    push_number(html, "least interval", name.as_str(), &beside.least());
    push_number(html, "greatest interval", name.as_str(), &beside.greatest());
    html.put(
        "<div>sent {}, of these as fallback {}</div>\n",
        &[Number(beside.seen.sent), Number(beside.seen.fallback)],
    );
    html.add(FOOT)
}

/// Adds the parts on all inputs.
pub fn push_inputs(html: &mut Html, fitted: &Fitted<'_>, seen: &Seen)
    requires sized { AreSeenOf fitted.now.tables.now seen.now }
{
    for bus in 0..fitted.tables.bus_count() {
        push_input(html, fitted, seen, bus);
    }
}

/// Adds the parts on all outputs.
pub fn push_outputs(html: &mut Html, fitted: &Fitted<'_>, seen: &Seen)
    requires sized { AreSeenOf fitted.now.tables.now seen.now }
{
    for output in 0..fitted.tables.output_count() {
        push_output(html, fitted, seen, output);
    }
}

/// Adds the parts on all labels.
pub fn push_labels(html: &mut Html, fitted: &Fitted<'_>, seen: &Seen)
    requires sized { AreSeenOf fitted.now.tables.now seen.now }
{
    for label in 0..fitted.tables.label_count() {
        push_label(html, fitted, seen, label);
    }
}
