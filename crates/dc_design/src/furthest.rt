//! What is told where no length of a tick has tables.
use crate::drafts::{Wish, ticks_of};
use dc_design_rows::{Fact, Lines};
use dc_plan::Obstacles;
use std::alloc::Global;

/// What stood in the way with the length of a tick that came furthest so far.
#[derive(Drop)]
pub struct Furthest {
    kept: Obstacles,
    alloc: Global,
    /// Whether some tick did not keep a timeout.
    is_late: bool,
}

/// Whether one came further than another: a later stage, then fewer lines, then shorter ticks.
fn is_further(one: &Obstacles, other: &Obstacles) -> bool {
    if one.stage != other.stage {
        return one.stage > other.stage;
    }
    let (count, least) = (one.lines.count(), other.lines.count());
    if count != least {
        return count < least;
    }
    one.tick < other.tick
}

impl Furthest {
    /// Nothing so far.
    pub fn new(alloc: Global) -> Furthest {
        let mut kept = Obstacles::new(alloc, 0);
        kept.stage = 0;
        Furthest {
            kept,
            alloc,
            is_late: false,
        }
    }

    /// Whether some tick did not keep a timeout, so that all are worth a try with buses that are visited by timeouts too.
    /// Then what is kept so far is told no more.
    pub fn starts_anew(&mut self) -> bool {
        if self.is_late {
            *self = Furthest::new(self.alloc);
            true
        } else {
            false
        }
    }

    /// Keeps what stood in the way, where it came further than what is kept.
    pub fn add(&mut self, obstacles: Obstacles) {
        if obstacles.is_late {
            self.is_late = true;
        }
        if is_further(&obstacles, &self.kept) {
            self.kept = obstacles;
        }
    }

    /// The first line of a refusal.
    fn heading(&self, wish: &Wish) -> Option<String> {
        let mut lines = Lines::new(self.alloc);
        lines.say(
            "refused: {} in the way with ticks of {} us",
            &[
                Fact::Number(self.kept.lines.count()),
                Fact::Number(self.kept.tick),
            ],
        );
        if wish.tick_us.is_none() {
            lines.say("; no better with ", &[]);
            let mut is_first = true;
            for tick_us in ticks_of(wish) {
                let tick = u64::from(*tick_us);
                if tick != self.kept.tick {
                    lines.say(if is_first { "{}" } else { ", {}" }, &[Fact::Number(tick)]);
                    is_first = false;
                }
            }
        }
        lines.finish()
    }

    /// The lines of a refusal; nothing where memory was refused.
    pub fn refusal(self, wish: &Wish) -> Option<String> {
        let mut text = self.heading(wish)?;
        let Furthest { kept, .. } = self;
        let Obstacles { lines, .. } = kept;
        let told = lines.finish()?;
        if text.push_str(told.as_str()).is_err() {
            return None;
        }
        Some(text)
    }
}
