//! Drafts of tables, one for each length of a tick that is tried.
use crate::tables::write_tables;
use dc_cell::UnreadTitle;
use dc_design_rows::{Document, Fact, Lines};
use dc_document::TEXT_LIMIT;
use dc_plan::{Knobs, Obstacles, Plan, Unplanned, make_plan};
use std::alloc::{AllocError, Global};

/// The lengths of a tick that are tried in microseconds, in their order: what is usual, then shorter ones, which lose
/// less to rounding, then long ones for slow labels.
static TICKS: [u32; 8] = [1_000, 500, 250, 125, 100, 2_000, 5_000, 10_000];

/// What is asked of a design beside its rows.
#[derive(Clone, Copy, Debug, PartialEq, Eq)]
pub struct Wish {
    /// The length of a tick in microseconds, where only one is to be tried.
    pub tick_us: Option<u32>,
    /// So many percent of each queue, budget, wire and age are to be left free, where that is asked.
    pub headroom: Option<u32>,
    /// Whether buses are to be visited by timeouts too.
    pub is_prompt: bool,
}

impl Wish {
    /// The same with buses that are visited by timeouts too.
    pub fn promptly(&self) -> Wish {
        Wish {
            tick_us: self.tick_us,
            headroom: self.headroom,
            is_prompt: true,
        }
    }
}

/// The columns that are not read.
#[derive(Clone, Copy)]
pub struct Unread<'a> {
    /// Those of the inputs.
    pub inputs: &'a [UnreadTitle],
    /// Those of the outputs.
    pub outputs: &'a [UnreadTitle],
}

/// Why there are no tables with ticks of one length.
#[derive(Drop)]
pub enum Untabled {
    /// Something stands in the way.
    Obstacles(Obstacles),
    /// Memory was refused.
    NoMemory,
}

/// The lengths of a tick that are tried, in microseconds, in their order.
pub fn ticks_of(wish: &Wish) -> &[u32] {
    match &wish.tick_us {
        Some(tick_us) => std::slice::from_ref(tick_us),
        None => &TICKS,
    }
}

/// That a text is too long to be read.
fn too_long(alloc: Global, tick: u64, length: usize) -> Untabled {
    let mut obstacles = Obstacles::new(alloc, tick);
    obstacles.stage = 4;
    obstacles.lines.begin("");
    obstacles.lines.line(
        "the tables take {} bytes, at most {} (T01); shorter names",
        &[Fact::Number(length as u64), Fact::Number(TEXT_LIMIT as u64)],
    );
    Untabled::Obstacles(obstacles)
}

/// The text of these lines, with ticks of this length; or that it is too long.
pub(crate) fn text_in(alloc: Global, tick: u64, lines: Lines) -> Result<String, Untabled> {
    match lines.finish() {
        Some(text) if text.len() > TEXT_LIMIT => Err(too_long(alloc, tick, text.len())),
        Some(text) => Ok(text),
        None => Err(Untabled::NoMemory),
    }
}

/// What is asked of a plan with ticks of this length.
fn knobs_of(wish: &Wish, tick_us: u32) -> Knobs {
    let headroom = match wish.headroom {
        Some(percent) => Some(u64::from(percent)),
        None => None,
    };
    let knobs = Knobs::new(u64::from(tick_us), headroom, wish.tick_us.is_some());
    if wish.is_prompt {
        knobs.promptly()
    } else {
        knobs
    }
}

/// The text of tables with these numbers.
fn text_of(
    alloc: Global,
    document: &Document,
    plan: &Plan,
    unread: &Unread<'_>,
) -> Result<String, Untabled> {
    let mut lines = Lines::new(alloc);
    match write_tables(alloc, document, plan, unread, &mut lines) {
        Ok(()) => text_in(alloc, plan.tick, lines),
        Err(_) => Err(Untabled::NoMemory),
    }
}

/// The text of tables for a document with ticks of this length, or what stands in the way. What holds of the text is for
/// its judges to say.
pub fn draft(
    alloc: Global,
    document: &Document,
    wish: Wish,
    tick_us: u32,
    unread: &Unread<'_>,
) -> Result<String, Untabled> {
    match make_plan(alloc, document, &knobs_of(&wish, tick_us)) {
        Ok(plan) => text_of(alloc, document, &plan, unread),
        Err(Unplanned::NoMemory) => Err(Untabled::NoMemory),
        Err(Unplanned::Obstacles(obstacles)) => Err(Untabled::Obstacles(obstacles)),
    }
}
