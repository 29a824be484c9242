//! The parts on inputs.

ghost use Rattle.std.specs.Prelude.{◌≡◌, ◌<◌, length};
ghost use Rattle.dc_check.specs.Verdict.{is_window};

use crate::alike::Alike;
use crate::facts::{InputFacts, input_facts};
use crate::mends::{push_closing, push_longer, push_pace};
use crate::names::push_place;
use crate::plot::{End, Marks, needed, never, push_plot};
use crate::rules::push_lines;
use crate::standing::Standing;
use dc_busy::LONGEST_WINDOW;
use dc_check::{CertificateList, Fitted};
use dc_explain_verdict::{Mends, mends_of};
use dc_find::Queue;
use dc_margin::{InputMargins, input_lines};
use dc_page_text::Hole::Text;
use dc_page_text::{Amount, Html, Unit};
use dc_tables::Tables;
use std::alloc::{AllocError, Global};

/// Whether a window is one that can be plotted.
pub fn is_plotted(window: u32) -> bool
    ensures { result ≡ is_window window }
{
    1 <= window && window <= LONGEST_WINDOW
}

/// So many words.
fn words(count: u32) -> Amount
    ensures { result ≡ record { count = count; unit = Unit.Words } }
{
    Unit::Words.times(count as usize)
}

/// Adds what stands for a plot where the window is out of range.
pub fn push_no_plot(html: &mut Html) {
    html.add("<p class='s'>No plot: the window is out of range.</p>\n")
}

/// That no window of a queue closes.
pub const NEVER: &str =
    " No window of 1 to 100,000 ticks closes: in none of them is it sure that all is served, so that there is no backlog and no delay.";

/// Adds what the input is and what the certificate claims of it, or what was found, in words.
fn push_words(html: &mut Html, facts: &InputFacts) {
    html.add("<p>A receive queue for ");
    html.show(words(facts.queue));
    html.add(if facts.police {
        ". The bus is policed: words that come too soon are refused."
    } else {
        ". The bus is not policed."
    });
    if facts.is_open() {
        return html.add(NEVER);
    }
    html.add(if facts.standing.is_sought() {
        " The least that holds: the queue is empty again within <b>"
    } else {
        " The certificate claims: the queue is empty again within <b>"
    });
    html.show(facts.tick.span(facts.window));
    html.add("</b> (window), at most <b>");
    html.show(words(facts.backlog));
    html.add("</b> wait in it (backlog), and a word is taken at most <b>");
    html.show(facts.tick.span(facts.delay));
    html.add("</b> after the tick in which it came (delay).")
}

/// What would let the input keep its rules, where no certificate does.
fn mends_at(fitted: &Fitted<'_>, facts: &InputFacts, bus: usize) -> Option<Mends> {
    let is_short = facts.standing.is_sought() && facts.backlog > facts.queue;
    if facts.is_open() || is_short {
        return mends_of(fitted.tables, fitted.certificate, Queue::Input(bus));
    }
    None
}

/// Adds at what pace a queue is served of which no window closes, and what would let the input keep its rules.
fn push_ways(html: &mut Html, facts: &InputFacts, bus: usize, mends: &Mends) {
    let queue = Queue::Input(bus);
    if facts.is_open() {
        push_pace(html, queue, mends, facts.tick);
        html.add("</p>\n");
        return push_closing(html, queue, mends, facts.queue);
    }
    html.add("</p>\n");
    push_longer(html, bus, mends, facts.backlog)
}

/// Adds the plot of an input of which no window closes.
fn push_never(html: &mut Html, tables: &Tables, facts: &InputFacts, bus: usize, round: u32)
    requires { bus < length tables.now.buses }
{
    push_plot(
        html,
        &tables.bus_bound(bus),
        &tables.bus_service(bus),
        &never(round, Unit::Words, facts.tick),
    )
}

/// Adds the plot of the input.
fn push_curves(html: &mut Html, tables: &Tables, facts: &InputFacts, bus: usize)
    requires { bus < length tables.now.buses }
{
    if !is_plotted(facts.window) {
        return push_no_plot(html);
    }
    let marks = Marks {
        end: End::Window(facts.window),
        wait: needed(facts.backlog, facts.margins.backlog),
        late: needed(facts.delay, facts.margins.delay),
        unit: Unit::Words,
        tick: facts.tick,
    };
    push_plot(
        html,
        &tables.bus_bound(bus),
        &tables.bus_service(bus),
        &marks,
    )
}

/// Adds the words on the input, and its plot.
fn push_top(html: &mut Html, fitted: &Fitted<'_>, facts: &InputFacts, bus: usize)
    requires { bus < length fitted.now.tables.now.buses }
{
    push_words(html, facts);
    let mends = mends_at(fitted, facts, bus);
    match mends {
        Some(mends) => push_ways(html, facts, bus, &mends),
        None => html.add("</p>\n"),
    }
    html.add("<div class='two'><div>");
    match mends {
        Some(mends) if facts.is_open() => {
            push_never(html, fitted.tables, facts, bus, mends.round)
        }
        _ => push_curves(html, fitted.tables, facts, bus),
    }
}

/// What the part on the input of this number shows below its name.
///
/// # Errors
/// `AllocError` where an allocation failed.
fn body_of(
    alloc: Global,
    fitted: &Fitted<'_>,
    bus: usize,
    margins: &InputMargins,
    standing: Standing,
) -> Result<String, AllocError>
    requires there { bus < length fitted.now.tables.now.buses }
{
    let facts = input_facts(fitted, bus, margins, standing);
    let mut html = Html::new(alloc);
    push_top(&mut html, fitted, &facts, bus);
    html.add("</div><div>");
    push_lines(
        &mut html,
        &input_lines(bus, &facts.margins),
        facts.tick,
        standing,
    );
    html.add("</div></div></div>\n");
    html.end()
}

/// What the parts on all inputs show.
///
/// # Errors
/// `AllocError` where an allocation failed.
fn bodies_of(
    alloc: Global,
    fitted: &Fitted<'_>,
    margins: &[InputMargins],
    standing: Standing,
) -> Result<Alike, AllocError>
    requires { length margins.now ≡ length fitted.now.tables.now.buses }
{
    let mut alike = Alike::new(alloc);
    for bus in 0..fitted.tables.bus_count() {
        alike.take(body_of(alloc, fitted, bus, &margins[bus], standing)?)?;
    }
    Ok(alike)
}

/// Adds the name of an input, and what empties its queue.
fn push_name(html: &mut Html, tables: &Tables, bus: usize)
    requires { bus < length tables.now.buses }
{
    push_place(html, tables, CertificateList::Inputs, bus);
    tables.valid();
    let router = *tables.router_name(tables.bus(bus).router);
    html.put(" <small>by {}</small>", &[Text(router.as_str())]);
}

/// Adds the names of the inputs that show the same.
fn push_names(html: &mut Html, tables: &Tables, alike: &Alike, place: usize) {
    html.add(if alike.count(place) == 1 {
        "<div class='card'><h3>Input "
    } else {
        "<div class='card'><h3>Inputs that are alike: "
    });
    let mut is_first = true;
    for bus in 0..tables.bus_count() {
        if alike.shows(bus, place) {
            html.add(if is_first { "" } else { ", " });
            push_name(html, tables, bus);
            is_first = false;
        }
    }
    html.add("</h3>")
}

/// Adds the parts on all inputs, those that are alike as one, given their margins.
///
/// # Errors
/// `AllocError` where an allocation failed.
pub fn push_inputs(
    alloc: Global,
    html: &mut Html,
    fitted: &Fitted<'_>,
    margins: &[InputMargins],
    standing: Standing,
) -> Result<(), AllocError>
    requires { length margins.now ≡ length fitted.now.tables.now.buses }
{
    let alike = bodies_of(alloc, fitted, margins, standing)?;
    html.add(
        "<h2>Inputs</h2>\n<p class='s'>Behind each name stands the router that empties its queue.</p>\n",
    );
    for (place, body) in alike.bodies().iter().enumerate() {
        push_names(html, fitted.tables, &alike, place);
        html.add(body.as_str());
    }
    Ok(())
}
