//! The least window that closes.
use crate::arrivals::{Arrivals, MANY};
use dc_plan_ticks::{part, up};

/// The longest window.
pub(crate) const LONGEST: u64 = 100_000;

/// So many steps in each so many ticks.
#[derive(Clone, Copy)]
pub(crate) struct Service {
    pub(crate) steps: u64,
    pub(crate) within: u64,
}

/// How much may wait in the least window that closes, and how long.
#[derive(Clone, Copy)]
pub(crate) struct Busy {
    pub(crate) backlog: u64,
    pub(crate) delay: u64,
}

/// What may wait at most, and how long.
pub(crate) const ANY: Busy = Busy {
    backlog: u64::MAX,
    delay: LONGEST,
};

impl Service {
    /// How many ticks so many words take at most, whenever they come.
    fn ticks(&self, words: u64) -> u64 {
        up(words, self.steps).saturating_mul(self.within)
    }

    /// How many steps are made at least in a billion ticks, on the average.
    pub(crate) fn rate(&self) -> u64 {
        part(self.steps.saturating_mul(MANY), self.within)
    }

    /// How many steps are made at least in so many ticks.
    fn floor(&self, ticks: u64) -> u64 {
        part(ticks, self.within).saturating_mul(self.steps)
    }
}

/// What waits in the least window that closes; nothing where none does up to the longest, or where more waits, or
/// longer, than is allowed.
pub(crate) fn least_window(arrivals: &Arrivals, service: Service, most: Busy) -> Option<Busy> {
    let mut found = Busy {
        backlog: 0,
        delay: 0,
    };
    let mut window = 1u64;
    for _ in 0..LONGEST {
        if window > LONGEST {
            return None;
        }
        let words = arrivals.count(window);
        let end = arrivals.next(window);
        let served = service.floor(window.saturating_sub(2));
        found.backlog = found.backlog.max(words.saturating_sub(served));
        let waited = window.saturating_sub(1);
        found.delay = found.delay.max(service.ticks(words).saturating_sub(waited));
        if found.backlog > most.backlog || found.delay > most.delay {
            return None;
        }
        let closed = window.max(service.ticks(words).saturating_add(1));
        if closed < end {
            return if closed <= LONGEST { Some(found) } else { None };
        }
        window = end;
    }
    None
}
