//! What stands in the way of tables.
use dc_design_rows::{Fact, Lines};
use std::alloc::Global;

/// What stands in the way of tables with ticks of one length: the lines of the first stage that has any.
#[derive(Drop)]
pub struct Obstacles {
    /// The length of a tick, in microseconds.
    pub tick: u64,
    /// The stage, 1 to 4: ticks, ages, buses, or outputs with their labels and routers.
    pub stage: u64,
    /// A line for each, the first of them.
    pub lines: Lines,
    /// Whether a timeout is not kept, which it may be where buses are visited by timeouts too. It has no line.
    pub is_late: bool,
}

impl Obstacles {
    /// Nothing in the way so far.
    pub fn new(alloc: Global, tick: u64) -> Obstacles {
        Obstacles {
            tick,
            stage: 1,
            lines: Lines::new(alloc),
            is_late: false,
        }
    }

    /// Whether something is.
    pub fn is_any(&self) -> bool {
        self.is_late || self.lines.count() > 0
    }

    /// A refusal of tables that were printed, as an obstacle of the last stage: a sentence, in which each `{}` is a hole
    /// for the next of these facts.
    pub fn judged(alloc: Global, tick: u32, sentence: &str, facts: &[Fact]) -> Obstacles {
        let mut obstacles = Obstacles::new(alloc, u64::from(tick));
        obstacles.stage = 4;
        obstacles.lines.begin("");
        obstacles
            .lines
            .say("tick {}: ", &[Fact::Number(u64::from(tick))]);
        obstacles.lines.line(sentence, facts);
        obstacles
    }
}
