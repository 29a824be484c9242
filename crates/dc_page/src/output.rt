//! The parts on outputs.

ghost use Rattle.std.specs.Prelude.{◌≡◌, ◌<◌, length};

use crate::alike::Alike;
use crate::facts::{OutputFacts, output_facts};
use crate::frame::push_strip;
use crate::input::{NEVER, is_plotted, push_no_plot};
use crate::mends::{push_closing, push_pace};
use crate::names::push_place;
use crate::plot::{End, Marks, needed, never, push_plot};
use crate::rules::push_lines;
use crate::standing::Standing;
use crate::time::TickLength;
use dc_check::{CertificateList, Fitted};
use dc_explain_verdict::{Mends, mends_of};
use dc_find::Queue;
use dc_margin::{OutputMargins, output_lines};
use dc_page_text::Hole::{Number, Thousandths};
use dc_page_text::{Html, Unit};
use dc_tables::Tables;
use std::alloc::{AllocError, Global};

/// Adds what the output is and what the certificate claims of it, or what was found, in words.
fn push_words(html: &mut Html, facts: &OutputFacts) {
    html.add("<p>A frame of ");
    html.show(facts.tick.span(facts.frame));
    html.add(", again and again.");
    if facts.is_open() {
        return html.add(NEVER);
    }
    html.add(if facts.standing.is_sought() {
        " The least that holds: all that is due is sent within <b>"
    } else {
        " The certificate claims: all that is due is sent within <b>"
    });
    html.show(facts.tick.span(facts.window));
    html.add("</b> (window), and an entry leaves at most <b>");
    html.show(facts.tick.span(facts.delay));
    html.add("</b> after the tick in which it was due (delay).")
}

/// What would let a window of the output close, where none does.
fn mends_at(fitted: &Fitted<'_>, facts: &OutputFacts, output: usize) -> Option<Mends> {
    if facts.is_open() {
        return mends_of(fitted.tables, fitted.certificate, Queue::Output(output));
    }
    None
}

/// Adds the plot of an output of which no window closes.
fn push_never(html: &mut Html, tables: &Tables, facts: &OutputFacts, output: usize, round: u32)
    requires { output < length tables.now.outputs }
{
    push_plot(
        html,
        &tables.output_bound(output),
        &tables.output_service(output),
        &never(round, Unit::Entries, facts.tick),
    )
}

/// Adds the words on the output, and its plot.
fn push_top(html: &mut Html, fitted: &Fitted<'_>, facts: &OutputFacts, output: usize)
    requires { output < length fitted.now.tables.now.outputs }
{
    let queue = Queue::Output(output);
    push_words(html, facts);
    match mends_at(fitted, facts, output) {
        Some(mends) => {
            push_pace(html, queue, &mends, facts.tick);
            html.add("</p>\n");
            push_closing(html, queue, &mends, u32::MAX);
            html.add("<div class='two'><div>");
            push_never(html, fitted.tables, facts, output, mends.round)
        }
        None => {
            html.add("</p>\n<div class='two'><div>");
            push_curves(html, fitted.tables, facts, output)
        }
    }
}

/// Adds the plot of the output.
fn push_curves(html: &mut Html, tables: &Tables, facts: &OutputFacts, output: usize)
    requires { output < length tables.now.outputs }
{
    if !is_plotted(facts.window) {
        return push_no_plot(html);
    }
    let marks = Marks {
        end: End::Window(facts.window),
        wait: None,
        late: needed(facts.delay, facts.margins.delay),
        unit: Unit::Entries,
        tick: facts.tick,
    };
    push_plot(
        html,
        &tables.output_bound(output),
        &tables.output_service(output),
        &marks,
    )
}

/// Adds the frame with all its entries.
fn push_frame(html: &mut Html, tables: &Tables, output: usize)
    requires { output < length tables.now.outputs }
{
    let row = tables.output(output);
    let ticks = u64::from(row.frame);
    html.put(
        "<h4>The frame, from tick 0 to {} <small>({} ms)</small> and again, with all that is due</h4><div class='h'>",
        &[
            Number(ticks),
            Thousandths(TickLength::of(tables).millis(ticks).0),
        ],
    );
    push_strip(html, row.entries.as_slice(), row.frame, None);
    html.add("</div>\n")
}

/// What the part on the output of this number shows below its name.
///
/// # Errors
/// `AllocError` where an allocation failed.
fn body_of(
    alloc: Global,
    fitted: &Fitted<'_>,
    output: usize,
    margins: &OutputMargins,
    standing: Standing,
) -> Result<String, AllocError>
    requires there { output < length fitted.now.tables.now.outputs }
{
    let facts = output_facts(fitted, output, margins, standing);
    let mut html = Html::new(alloc);
    push_top(&mut html, fitted, &facts, output);
    html.add("</div><div>");
    push_lines(
        &mut html,
        &output_lines(output, &facts.margins),
        facts.tick,
        standing,
    );
    html.add("</div></div>\n");
    push_frame(&mut html, fitted.tables, output);
    html.add("</div>\n");
    html.end()
}

/// What the parts on all outputs show.
///
/// # Errors
/// `AllocError` where an allocation failed.
fn bodies_of(
    alloc: Global,
    fitted: &Fitted<'_>,
    margins: &[OutputMargins],
    standing: Standing,
) -> Result<Alike, AllocError>
    requires { length margins.now ≡ length fitted.now.tables.now.outputs }
{
    let mut alike = Alike::new(alloc);
    for output in 0..fitted.tables.output_count() {
        alike.take(body_of(alloc, fitted, output, &margins[output], standing)?)?;
    }
    Ok(alike)
}

/// Adds the names of the outputs that show the same.
fn push_names(html: &mut Html, tables: &Tables, alike: &Alike, place: usize) {
    html.add(if alike.count(place) == 1 {
        "<div class='card'><h3>Output "
    } else {
        "<div class='card'><h3>Outputs that are alike: "
    });
    let mut is_first = true;
    for output in 0..tables.output_count() {
        if alike.shows(output, place) {
            html.add(if is_first { "" } else { ", " });
            push_place(html, tables, CertificateList::Outputs, output);
            is_first = false;
        }
    }
    html.add("</h3>")
}

/// Adds the parts on all outputs, those that are alike as one, given their margins.
///
/// # Errors
/// `AllocError` where an allocation failed.
pub fn push_outputs(
    alloc: Global,
    html: &mut Html,
    fitted: &Fitted<'_>,
    margins: &[OutputMargins],
    standing: Standing,
) -> Result<(), AllocError>
    requires { length margins.now ≡ length fitted.now.tables.now.outputs }
{
    let alike = bodies_of(alloc, fitted, margins, standing)?;
    html.add("<h2>Outputs</h2>\n");
    for (place, body) in alike.bodies().iter().enumerate() {
        push_names(html, fitted.tables, &alike, place);
        html.add(body.as_str());
    }
    Ok(())
}
