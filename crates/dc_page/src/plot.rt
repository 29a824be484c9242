//! The plot of what may come and what is surely taken, with the greatest height and the greatest width between.

ghost use Rattle.std.specs.Prelude.{◌≤◌};

use crate::time::TickLength;
use dc_bound::{ArrivalBound, ServiceBound};
use dc_busy::LONGEST_WINDOW;
use dc_margin::{Decider, Margin};
use dc_page_text::Hole::{Number, Thousandths, Times};
use dc_page_text::{Html, Tenths, Unit, round_step, share};

/// The most ticks that a plot shows.
const LONGEST_SPAN: u64 = 300_000;

/// The ticks of a plot, divided by this, are the stride of its curves: they have fewer than twice as many points.
const MOST_POINTS: u64 = 120;

/// Where the ticks of a plot begin, from the left of the picture, in tenths of its points.
const LEFT: u64 = 400;

/// How far the ticks go to the right.
const WIDTH: u64 = 3_480;

/// Where the counts of a plot begin, from the top of the picture.
const FOOT: u64 = 1_880;

/// What a curve that ends below this height is called stands above it: below stand the numbers of the ticks.
const LOW: u64 = 1_600;

/// How far the counts go up.
const HEIGHT: u64 = 1_620;

/// A height or a width, and the number of ticks at which it is.
#[derive(Clone, Copy)]
pub struct Measure {
    pub at: u64,
    pub size: u64,
}

/// Where a plot ends.
#[derive(Clone, Copy)]
pub enum End {
    /// A little behind the window, which closes.
    Window(u32),
    /// After so many ticks: no window closes.
    Never(u32),
}

/// What a plot shows beside its curves.
#[derive(Clone, Copy)]
pub struct Marks {
    pub end: End,
    pub wait: Option<Measure>,
    pub late: Option<Measure>,
    pub unit: Unit,
    pub tick: TickLength,
}

/// The number that is needed, where so much is claimed and the margin is told.
pub fn needed(claimed: u32, margin: Option<Margin>) -> Option<Measure> {
    let margin = margin?;
    match (margin.slack, margin.decider) {
        (Some(slack), Decider::Window(at)) => Some(Measure {
            at: u64::from(at),
            size: i64::from(claimed).saturating_sub(slack).unsigned_abs(),
        }),
        _ => None,
    }
}

/// Where ticks and counts stand in a plot: so many ticks from left to right, so many from the foot to the top.
#[derive(Clone, Copy)]
struct Plane {
    span: u64,
    top: u64,
}

impl Plane {
    /// Where a tick stands from the left.
    fn x(self, tick: u64) -> Tenths
        ensures { (400 ≤ result.0) × (result.0 ≤ 3880) }
    {
        Tenths(LEFT + share(tick, self.span, WIDTH))
    }

    /// Half a tick before the end of a tick.
    fn middle(self, tick: u64) -> Tenths
        ensures { (400 ≤ result.0) × (result.0 ≤ 3880) }
    {
        let halves = tick.saturating_mul(2).saturating_sub(1);
        Tenths(LEFT + share(halves, self.span.saturating_mul(2), WIDTH))
    }

    /// Where a count stands from the top.
    fn y(self, count: u64) -> Tenths
        ensures { (260 ≤ result.0) × (result.0 ≤ 1880) }
    {
        Tenths(FOOT - share(count, self.top, HEIGHT))
    }

    /// How many ticks lie between two points of a curve.
    fn stride(self) -> u64 {
        (self.span / MOST_POINTS).max(1)
    }

    /// How many points a curve has.
    fn points(self) -> u64 {
        self.span / self.stride().max(1)
    }

    /// The number of ticks of a point.
    fn tick(self, point: u64) -> u64 {
        point.saturating_mul(self.stride()).saturating_add(1)
    }
}

/// The most that may come in so many ticks.
fn come<A: ArrivalBound>(arrivals: &A, ticks: u64) -> u64 {
    arrivals.at_most(ticks.min(LONGEST_SPAN) as u32)
}

/// The fewest that are taken by the end of so many ticks, the first of which does not count.
fn taken<S: ServiceBound>(service: &S, ticks: u64) -> u64 {
    service.at_least(ticks.saturating_sub(1).min(LONGEST_SPAN) as u32)
}

/// So many rounds of what serves a queue are shown of which no window closes.
const ROUNDS: u32 = 10;

/// What a plot shows of a queue of which no window closes, given the ticks of a round.
pub fn never(round: u32, unit: Unit, tick: TickLength) -> Marks {
    Marks {
        end: End::Never(round.saturating_mul(ROUNDS).clamp(ROUNDS, LONGEST_WINDOW)),
        wait: None,
        late: None,
        unit,
        tick,
    }
}

/// How many ticks a plot shows: the window and the greatest width, and a little more; where no window closes what is asked.
fn span_of(marks: &Marks) -> u64 {
    let window = match marks.end {
        End::Window(window) => u64::from(window),
        End::Never(ticks) => return u64::from(ticks),
    };
    let width = match marks.late {
        Some(late) => late.at.saturating_add(late.size),
        None => 0,
    };
    let most = window.max(width);
    most.saturating_add((most / 5).max(2)).min(LONGEST_SPAN)
}

/// Adds the counts beside the plot, with a line for each.
fn push_counts(html: &mut Html, plane: Plane) {
    let step = round_step(plane.top, 5).max(1);
    for place in 0..(plane.top / step).min(10).saturating_add(1) {
        let count = place.saturating_mul(step);
        html.add("<path class='y' d='M40 ");
        html.show(plane.y(count));
        html.add("H388'/><text x='34' y='");
        html.show(plane.y(count));
        html.put("' dy='4' text-anchor='end'>{}</text>", &[Number(count)]);
    }
    html.add("\n")
}

/// Adds the ticks below the plot.
fn push_ticks(html: &mut Html, plane: Plane) {
    let step = round_step(plane.span, 7).max(1);
    for place in 0..(plane.span / step).min(10).saturating_add(1) {
        let tick = place.saturating_mul(step);
        html.add("<text x='");
        html.show(plane.x(tick));
        html.put("' y='202' text-anchor='middle'>{}</text>", &[Number(tick)]);
    }
    html.add("\n")
}

/// What a plot counts, and since when it does.
fn words_of(unit: Unit) -> (&'static str, &'static str) {
    match unit {
        Unit::Entries => ("entries", "nothing was due"),
        _ => ("words", "the queue was empty"),
    }
}

/// Adds the axes with their names, and the end of the window.
fn push_axes(html: &mut Html, plane: Plane, marks: &Marks) {
    push_counts(html, plane);
    push_ticks(html, plane);
    let (what, since) = words_of(marks.unit);
    html.add("<path class='x' d='M40 26V188H388'/><text x='0' y='10'>");
    html.add(what);
    let length = Thousandths(marks.tick.millis(1).0);
    html.put(
        "</text><text x='388' y='217' text-anchor='end'>ticks of {} ms since ",
        &[length],
    );
    html.add(since);
    html.add("</text>\n");
    if let End::Window(window) = marks.end {
        push_window(html, plane.x(u64::from(window)))
    }
}

/// Adds where the window ends.
fn push_window(html: &mut Html, x: Tenths) {
    html.add("<path class='z' d='M");
    html.show(x);
    html.add(" 26V188'/><text x='");
    html.show(x);
    html.add("' y='20' text-anchor='middle'>window</text>\n")
}

/// Adds a step of a curve: along to a tick, and up to a count.
fn push_step(html: &mut Html, x: Tenths, y: Tenths) {
    html.add("H");
    html.show(x);
    html.add("V");
    html.show(y)
}

/// Adds the curve of what may come: over tick w it is as high as the most of w ticks.
fn push_come<A: ArrivalBound>(html: &mut Html, arrivals: &A, plane: Plane) {
    html.add("<path class='a' d='M40 188");
    let mut last = 0;
    for point in 0..plane.points() {
        let tick = plane.tick(point);
        let count = come(arrivals, tick);
        if count != last {
            push_step(html, plane.x(tick.saturating_sub(1)), plane.y(count));
            last = count;
        }
    }
    html.add("H388'/><text x='386' y='");
    html.show(plane.y(last));
    html.add("' dy='-5' text-anchor='end'>a(w)</text>\n")
}

/// Adds the end of the curve of what is surely taken, and so far below what it is called.
fn push_end(html: &mut Html, x: Tenths, y: Tenths, below: &str) {
    html.add("'/><text x='");
    html.show(x);
    html.add("' y='");
    html.show(y);
    html.add("' dx='-4' dy='");
    html.add(below);
    html.add("' text-anchor='end'>s(w &#8722; 1)</text>\n")
}

/// Adds the curve of what is surely taken: it rises at the end of a tick, and ends where it leaves the plot.
fn push_taken<S: ServiceBound>(html: &mut Html, service: &S, plane: Plane) {
    html.add("<path class='s' d='M40 188");
    let mut last = 0;
    for point in 0..plane.points() {
        let tick = plane.tick(point);
        let count = taken(service, tick);
        if count > plane.top {
            html.add("H");
            html.show(plane.x(tick));
            html.add("V26");
            return push_end(html, plane.x(tick), plane.y(plane.top), "14");
        }
        if count != last {
            push_step(html, plane.x(tick), plane.y(count));
            last = count;
        }
    }
    html.add("H388");
    let end = plane.y(last);
    push_end(
        html,
        plane.x(plane.span),
        end,
        if end.0 > LOW { "-5" } else { "24" },
    )
}

/// Adds the greatest height between the curves: over tick w, from what is taken by the end of the tick before it.
fn push_height(html: &mut Html, plane: Plane, measure: Measure, foot: u64, top: u64) {
    let (x, low) = (plane.middle(measure.at), plane.y(foot));
    html.add("<path class='w' d='M");
    html.show(x);
    html.add(" ");
    html.show(low);
    html.add("V");
    html.show(plane.y(top));
    html.add("m-4 0h8M");
    html.show(x);
    html.add(" ");
    html.show(low);
    html.add("m-4 0h8'/><text x='");
    html.show(x);
    html.add("' y='");
    html.show(low);
    html.put("' dx='6' dy='-6'>{}</text>\n", &[Number(measure.size)]);
}

/// Adds the greatest width between the curves: from the end of tick w on.
fn push_width(html: &mut Html, plane: Plane, measure: Measure, height: u64) {
    let (left, y) = (plane.x(measure.at), plane.y(height));
    html.add("<path class='t' d='M");
    html.show(left);
    html.add(" ");
    html.show(y);
    html.add("H");
    html.show(plane.x(measure.at.saturating_add(measure.size)));
    html.add("m0 -5v10M");
    html.show(left);
    html.add(" ");
    html.show(y);
    html.add("m0 -5v10'/><text x='");
    html.show(left);
    html.add("' y='");
    html.show(y);
    html.put("' dx='6' dy='15'>{}</text>\n", &[Number(measure.size)]);
}

/// Adds the two measures, where they are told.
fn push_measures<A: ArrivalBound, S: ServiceBound>(
    html: &mut Html,
    arrivals: &A,
    service: &S,
    plane: Plane,
    marks: &Marks,
) {
    if let Some(wait) = marks.wait {
        let foot = taken(service, wait.at.saturating_sub(1));
        push_height(html, plane, wait, foot, come(arrivals, wait.at));
    }
    if let Some(late) = marks.late {
        push_width(html, plane, late, come(arrivals, late.at));
    }
    if let End::Never(ticks) = marks.end {
        let by = u64::from(ticks);
        let (foot, top) = (taken(service, by), come(arrivals, by));
        let left = Measure {
            at: by,
            size: top.saturating_sub(foot),
        };
        push_height(html, plane, left, foot, top);
    }
}

/// Adds what the two measures are.
fn push_meanings(html: &mut Html, marks: &Marks) {
    if let Some(wait) = marks.wait {
        html.put(
            "<br/><span class='k w'></span>the greatest height between, what waits: {}",
            &[Times(marks.unit, wait.size as usize)],
        );
    }
    if let Some(late) = marks.late {
        html.put(
            "<br/><span class='k t'></span>the greatest width between, how long one waits: {} <small>({} ms)</small>",
            &[
                Times(Unit::Ticks, late.size as usize),
                Thousandths(marks.tick.millis(late.size).0),
            ],
        );
    }
}

/// Adds what is left of what came, where no window closes: by the last tick that is shown, and by the longest window.
fn push_left<A: ArrivalBound, S: ServiceBound>(
    html: &mut Html,
    arrivals: &A,
    service: &S,
    marks: &Marks,
) {
    let End::Never(ticks) = marks.end else {
        return;
    };
    html.add("<p class='s'><span class='k w'></span>what may be left of it: ");
    for by in [u64::from(ticks), u64::from(LONGEST_WINDOW)] {
        let left = come(arrivals, by).saturating_sub(taken(service, by));
        html.put(
            "{} by tick {} <small>({} ms)</small>",
            &[
                Times(marks.unit, left as usize),
                Number(by),
                Thousandths(marks.tick.millis(by).0),
            ],
        );
        html.add(if by < u64::from(LONGEST_WINDOW) {
            ", "
        } else {
            ""
        });
    }
    html.add("</p>\n")
}

/// Adds what the lines of a plot mean, and that not every tick is drawn, where that is so.
fn push_legend(html: &mut Html, plane: Plane, marks: &Marks) {
    html.add("<p class='s'><span class='k a'></span>");
    html.add(match marks.unit {
        Unit::Entries => {
            "the most entries that fall due: a(w)<br/><span class='k s'></span>the fewest that are surely sent by then: s(w &#8722; 1)"
        }
        _ => {
            "the most words that may come: a(w)<br/><span class='k s'></span>the fewest that are surely taken by then: s(w &#8722; 1)"
        }
    });
    push_meanings(html, marks);
    let stride = plane.stride();
    if stride != 1 {
        html.put(
            "<br/>The curves are drawn from one tick in {}.",
            &[Number(stride)],
        );
    }
    html.add("</p>\n")
}

/// Adds a plot with its legend.
pub fn push_plot<A: ArrivalBound, S: ServiceBound>(
    html: &mut Html,
    arrivals: &A,
    service: &S,
    marks: &Marks,
) {
    let span = span_of(marks);
    let most = come(arrivals, span);
    let top = taken(service, span)
        .min(most.saturating_mul(2))
        .max(most)
        .max(1);
    let plane = Plane { span, top };
    html.add(
        "<svg role='img' viewBox='0 0 400 220'>\n<title>what may come, and what is surely served</title><desc>Two curves over ticks: the upper one is what may come or fall due, the lower one what is surely taken or sent. ",
    );
    html.add(match marks.end {
        End::Window(_) => "The window ends where the lower one meets it.</desc>\n",
        End::Never(_) => "The lower one never meets it: no window closes.</desc>\n",
    });
    push_axes(html, plane, marks);
    push_come(html, arrivals, plane);
    push_taken(html, service, plane);
    push_measures(html, arrivals, service, plane, marks);
    html.add("</svg>\n");
    push_legend(html, plane, marks);
    push_left(html, arrivals, service, marks)
}
