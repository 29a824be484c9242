//! How a queue would do with another number.
use crate::bounds::{Closing, closed_by};
use crate::servers::Server;
use dc_bound::{Alike, Jittered, MOST_ALIKE, MOST_PLACES, Paced, Visits, WIDEST_JITTER};
use dc_busy::LONGEST_WINDOW;
use dc_document::LONGEST_INTERVAL_US;
use dc_find::Queue;
use dc_tables::Tables;

/// What is wished of a queue.
#[derive(Clone, Copy)]
pub(crate) struct Wish {
    /// This window closes; some one where none is named.
    pub(crate) window: Option<u32>,
    /// At most so many wait in it.
    pub(crate) waiting: u64,
    /// None waits longer in it, in ticks.
    pub(crate) delay: u64,
}

/// That some window closes.
pub(crate) const ANY_WINDOW: Wish = Wish {
    window: None,
    waiting: u64::MAX,
    delay: LONGEST_WINDOW as u64,
};

/// Which number of a queue is another than in its tables.
#[derive(Clone, Copy)]
pub(crate) enum Other {
    /// The `steps` of what serves it.
    Steps,
    /// What the `within` of that is shorter by.
    Less,
    /// The least interval of each stream of its bus, in ticks; its wire is left aside then.
    Minimum,
}

/// How the queue of a bus closes that is served at this pace, where its streams have this least interval, in ticks; the one
/// of the tables where that is 0.
fn bus_closing(
    tables: &Tables,
    server: &Server,
    bus: usize,
    pace: Paced,
    minimum: u32,
    window: Option<u32>,
    quick: bool,
) -> Option<Closing> {
    if bus >= tables.bus_count() {
        return None;
    }
    tables.valid();
    let visits = tables.router(tables.bus(bus).router).visits.as_slice();
    if visits.is_empty() || visits.len() > MOST_PLACES {
        return None;
    }
    let service = Visits::new(pace, visits, bus);
    if minimum < 1 {
        return closed_by(&tables.bus_bound(bus), &service, window, quick);
    }
    let (streams, jitter) = (server.streams, server.jitter);
    if streams < 1 || streams > MOST_ALIKE || jitter > WIDEST_JITTER {
        return None;
    }
    let streams = Alike::new(streams, Jittered::new(minimum, jitter));
    closed_by(&streams, &service, window, quick)
}

/// How a queue closes where one of its numbers is this: this window, or the least that does where none is named.
fn closing_with(
    tables: &Tables,
    server: &Server,
    other: Other,
    number: u32,
    window: Option<u32>,
    quick: bool,
) -> Option<Closing> {
    let (steps, less, minimum) = match other {
        Other::Steps => (number, 0, 0),
        Other::Less => (server.steps, number, 0),
        Other::Minimum => (server.steps, 0, number),
    };
    let within = server.within.saturating_sub(less);
    if within == 0 {
        return None;
    }
    let pace = Paced::new(steps, within);
    match server.queue {
        Queue::Input(bus) => bus_closing(tables, server, bus, pace, minimum, window, quick),
        Queue::Output(output) if output < tables.output_count() => {
            closed_by(&tables.output_bound(output), &pace, window, quick)
        }
        _ => None,
    }
}

/// How a queue of the tables closes: this window, or the least that does where none is named.
pub(crate) fn closing_of(tables: &Tables, server: &Server, window: Option<u32>) -> Option<Closing> {
    closing_with(tables, server, Other::Steps, server.steps, window, false)
}

/// The least delay of a queue in the least window that closes; the greatest number where none does.
pub(crate) fn least_delay_of(tables: &Tables, server: &Server) -> u64 {
    match closing_of(tables, server, None) {
        None => u64::MAX,
        Some(closing) => closing.peaks.delay.height,
    }
}

/// How many wait with so many steps in this window, or in the least that closes where none is named; none where it does not
/// close.
pub(crate) fn waiting_with(
    tables: &Tables,
    server: &Server,
    steps: u32,
    window: Option<u32>,
) -> u64 {
    match closing_with(tables, server, Other::Steps, steps, window, false) {
        None => 0,
        Some(closing) => closing.peaks.backlog.height,
    }
}

/// Whether the queue has what is wished where one of its numbers is this.
fn is_granted(
    tables: &Tables,
    server: &Server,
    other: Other,
    number: u32,
    wish: &Wish,
    quick: bool,
) -> bool {
    match closing_with(tables, server, other, number, wish.window, quick) {
        None => false,
        Some(closing) => {
            closing.peaks.backlog.height <= wish.waiting && closing.peaks.delay.height <= wish.delay
        }
    }
}

/// The least number above the first of two and up to the second with which the queue has what is wished, found by halves:
/// with more of it nothing waits longer. The second where none of those below has it.
fn least_between(
    tables: &Tables,
    server: &Server,
    other: Other,
    between: (u32, u32),
    wish: &Wish,
    quick: bool,
) -> u32 {
    let mut low = between.0.saturating_add(1);
    let mut high = between.1;
    for _ in 0..32 {
        if low >= high {
            break;
        }
        let middle = low.saturating_add(high.saturating_sub(low) / 2);
        if is_granted(tables, server, other, middle, wish, quick) {
            high = middle;
        } else {
            low = middle.saturating_add(1);
        }
    }
    high
}

/// The least of such a number with which the queue has what is wished: more than it has, and no more than tables may have.
pub(crate) fn least(tables: &Tables, server: &Server, other: Other, wish: &Wish) -> Option<u32> {
    let (from, to) = match other {
        Other::Steps => (server.steps, server.limit),
        Other::Less => (0, server.within.saturating_sub(server.shortest)),
        Other::Minimum => {
            let longest = LONGEST_INTERVAL_US.checked_div(tables.tick_us());
            (0, longest.unwrap_or(0))
        }
    };
    if to <= from || !is_granted(tables, server, other, to, wish, false) {
        return None;
    }
    let enough = least_between(tables, server, other, (from, to), wish, true);
    let fewer = enough.saturating_sub(1);
    if fewer <= from || !is_granted(tables, server, other, fewer, wish, false) {
        return Some(enough);
    }
    Some(least_between(tables, server, other, (from, fewer), wish, false))
}
