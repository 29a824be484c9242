//! What would let a queue keep its rules, as numbers.
use crate::servers::{Server, server_of};
use crate::steps::{ANY_WINDOW, Other, Wish, least, waiting_with};
use dc_busy::LONGEST_WINDOW;
use dc_cert::Certificate;
use dc_find::Queue;
use dc_tables::Tables;

/// At what pace a queue is served that stands in the way of every certificate, and what would let it keep its rules: each
/// number by itself, all others as they are.
#[derive(Clone, Copy)]
pub struct Mends {
    /// Its router, or the output, makes so many steps ..
    pub steps: u32,
    /// .. in each so many ticks, ..
    pub within: u32,
    /// .. and a router at most so many in one tick.
    pub most: u32,
    /// The ticks in which a router goes once through its visits, with the fewest steps; of an output those of its frame.
    pub round: u32,
    /// The least `steps` that would do; `None` where the most that tables may have are too few.
    pub more: Option<u32>,
    /// The `most` that a router wants with them.
    pub more_most: u32,
    /// How many words may wait with them in the queue of a bus.
    pub more_waiting: u64,
    /// The longest `within` with which a window closes, in ticks; `None` where none does, or where one closes as it is.
    pub shorter: Option<u32>,
    /// The least interval of each stream of a bus with which a window closes, in microseconds; `None` likewise.
    pub interval_us: Option<u64>,
}

/// What is wished of a queue: that a window closes, where none does, or that no more wait than it holds.
fn wish_of(server: &Server) -> Wish {
    if server.delay > LONGEST_WINDOW {
        return ANY_WINDOW;
    }
    Wish {
        waiting: server.room,
        ..ANY_WINDOW
    }
}

/// The longest `within` with which a window closes, and the least interval of the streams.
fn ways_of(tables: &Tables, server: &Server) -> (Option<u32>, Option<u64>) {
    if server.delay <= LONGEST_WINDOW {
        return (None, None);
    }
    let shorter = match least(tables, server, Other::Less, &ANY_WINDOW) {
        None => None,
        Some(less) => Some(server.within.saturating_sub(less)),
    };
    if !server.is_bus {
        return (shorter, None);
    }
    let interval_us = match least(tables, server, Other::Minimum, &ANY_WINDOW) {
        None => None,
        Some(ticks) => Some((ticks as u64).saturating_mul(tables.tick_us() as u64)),
    };
    (shorter, interval_us)
}

/// What would let a queue of which no window closes, or which is too short, keep its rules, given what
/// [`reach`](dc_find::reach) found. `None` where the tables have no such queue. That a number is the least, or the longest,
/// is not said: it is found by halves, as it is told by [`explain_find`](crate::explain_find).
pub fn mends_of(tables: &Tables, found: &Certificate, queue: Queue) -> Option<Mends> {
    let Some(server) = server_of(tables, found, queue) else {
        return None;
    };
    let more = least(tables, &server, Other::Steps, &wish_of(&server));
    let more_waiting = match more {
        None => 0,
        Some(steps) => waiting_with(tables, &server, steps, None),
    };
    let more_most = more.unwrap_or(0).div_ceil(server.within.max(1));
    let (shorter, interval_us) = ways_of(tables, &server);
    Some(Mends {
        steps: server.steps,
        within: server.within,
        most: server.most,
        round: server.round,
        more,
        more_most,
        more_waiting,
        shorter,
        interval_us,
    })
}
