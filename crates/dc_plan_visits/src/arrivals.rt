//! How many words come to a bus at most in so many ticks.
use dc_design_rows::{Bus, Document};
use dc_document::input_spacing;
use dc_plan_ticks::{Knobs, Pace, part, up};
use std::alloc::{AllocError, Global};

/// So many ticks averages are of.
pub(crate) const MANY: u64 = 1_000_000_000;

/// So many streams that come alike.
#[derive(Clone, Copy)]
pub(crate) struct Term {
    least: u64,
    jitter: u64,
    streams: u64,
}

/// What comes to a bus.
#[derive(Drop)]
pub(crate) struct Arrivals {
    terms: Vec<Term>,
    tick: u64,
    spacing: u64,
    /// Whether the wire lets no more words come than it carries: a policed bus refuses by streams alone.
    is_wired: bool,
}

/// Adds a stream to those that come alike; whether there are any.
fn is_added(terms: &mut Vec<Term>, pace: &Pace) -> bool {
    for term in terms.iter_mut() {
        if term.least == pace.least && term.jitter == pace.jitter {
            term.streams = term.streams.saturating_add(1);
            return true;
        }
    }
    false
}

/// The streams of a bus, so many that come alike.
fn terms_of(
    document: &Document,
    bus: &Bus,
    paces: &[Pace],
    terms: &mut Vec<Term>,
) -> Result<(), AllocError> {
    for place in bus.streams.first..bus.streams.end {
        let number = document.on_bus.get(place).copied().unwrap_or(0);
        let Some(pace) = paces.get(number) else {
            continue;
        };
        if !is_added(terms, pace) {
            terms.push(Term {
                least: pace.least,
                jitter: pace.jitter,
                streams: 1,
            })?;
        }
    }
    Ok(())
}

impl Arrivals {
    /// What comes to a bus.
    pub(crate) fn of(
        alloc: Global,
        document: &Document,
        bus: &Bus,
        paces: &[Pace],
        knobs: &Knobs,
    ) -> Result<Arrivals, AllocError> {
        let mut terms = Vec::new(alloc);
        terms_of(document, bus, paces, &mut terms)?;
        Ok(Arrivals {
            terms,
            tick: knobs.tick,
            spacing: u64::from(input_spacing(bus.speed)),
            is_wired: !bus.police,
        })
    }

    /// How many words the wire carries at most in so many ticks.
    fn carried(&self, ticks: u64) -> u64 {
        part(ticks.saturating_mul(self.tick), self.spacing).saturating_add(1)
    }

    /// How many words come at most in so many ticks.
    pub(crate) fn count(&self, ticks: u64) -> u64 {
        let mut total = 0u64;
        for term in &self.terms {
            let words = up(ticks.saturating_add(term.jitter), term.least);
            total = total.saturating_add(words.saturating_mul(term.streams));
        }
        if self.is_wired {
            total.min(self.carried(ticks))
        } else {
            total
        }
    }

    /// How many words come at most in a billion ticks, on the average.
    pub(crate) fn rate(&self) -> u64 {
        let mut total = 0u64;
        for term in &self.terms {
            total = total.saturating_add(part(term.streams.saturating_mul(MANY), term.least));
        }
        if self.is_wired {
            total.min(part(self.tick.saturating_mul(MANY), self.spacing))
        } else {
            total
        }
    }

    /// The least number of ticks over this one in which more may come.
    pub(crate) fn next(&self, ticks: u64) -> u64 {
        let mut jump = u64::MAX;
        for term in &self.terms {
            let words = up(ticks.saturating_add(term.jitter), term.least);
            let last = words.saturating_mul(term.least).saturating_sub(term.jitter);
            jump = jump.min(last.saturating_add(1));
        }
        if self.is_wired {
            let next = self.carried(ticks).saturating_mul(self.spacing);
            jump.min(up(next, self.tick))
        } else {
            jump
        }
    }
}
